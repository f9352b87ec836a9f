//! Names of sessions.
ghost use Rattle.std.specs.Prelude.{◌≡◌, ◌≤◌, ◌↔◌, [], length, IsSome, IfSome};

use arrayvec::ArrayVec;
use std::marker::Model;

/// The most bytes that a session's name has.
pub const NAME_BYTES: usize = 8;

/// The name of a session: at most eight bytes. Contracts see the list of its bytes.
#[derive(Drop, PartialEq, Eq)]
pub struct Name(ArrayVec<u8, NAME_BYTES>);

impl Model for Name {
    ghost use Rattle.std.specs.Prelude.{List, ℕ};

    ghost Value = { List ℕ };

    ghost view = { λ v. v.0.items };

    ghost inverse = { λ bytes. record { 0 = record { items = bytes } } };
}

impl Name {
    /// The name of these bytes, or `None` where they are more than eight.
    pub fn new(bytes: &[u8]) -> Option<Name>
        ensures fits { IsSome result ↔ (length bytes.now ≤ NAME_BYTES) }
        ensures bytes { IfSome result (λ name. name ≡ bytes.now) }
    {
        match ArrayVec::try_from(bytes) {
            Ok(items) => Some(Name(items)),
            Err(_) => None,
        }
    }

    /// The name without bytes, which no session has.
    pub fn empty() -> Name
        ensures { result ≡ [] }
    {
        Name(ArrayVec::new())
    }

    /// The bytes, in order.
    pub fn as_slice(&self) -> &[u8]
        ensures bytes { result.now ≡ self.now }
        ensures short { length self.now ≤ NAME_BYTES }
    {
        self.0.as_slice()
    }

    /// The same name once more. It takes no memory.
    pub fn copied(&self) -> Name
        ensures { result ≡ self.now }
    {
        Name::new(self.as_slice()).unwrap()
    }
}
