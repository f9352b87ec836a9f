//! Values of the database map.
ghost use Rattle.std.specs.Prelude.{◌≡◌, ◌≤◌, ◌↔◌, length, IsSome, IfSome};

use arrayvec::ArrayVec;
use std::marker::Model;

/// The most bytes that a value has.
pub const VALUE_BYTES: usize = 112;

/// A value: 0 to 112 bytes. Contracts see the list of its bytes.
#[derive(Clone, Drop, PartialEq, Eq)]
pub struct Value(ArrayVec<u8, VALUE_BYTES>);

impl Model for Value {
    ghost use Rattle.std.specs.Prelude.{List, ℕ, length, ◌≤◌};

    ghost Value = { List ℕ };

    ghost view = { λ v. v.0.items };

    ghost inverse = { λ bytes. record { 0 = record { items = bytes } } };
}

impl Value {
    /// The value of these bytes, or `None` where they are more than 112.
    pub fn new(bytes: &[u8]) -> Option<Value>
        ensures fits { IsSome result ↔ (length bytes.now ≤ VALUE_BYTES) }
        ensures bytes { IfSome result (λ value. value ≡ bytes.now) }
    {
        match ArrayVec::try_from(bytes) {
            Ok(items) => Some(Value(items)),
            Err(_) => None,
        }
    }

    /// The bytes, in order.
    pub fn as_slice(&self) -> &[u8]
        ensures bytes { result.now ≡ self.now }
        ensures short { length self.now ≤ VALUE_BYTES }
    {
        self.0.as_slice()
    }

    /// The same value once more. It takes no memory.
    pub fn copied(&self) -> Value
        ensures { result ≡ self.now }
    {
        Value::new(self.as_slice()).unwrap()
    }
}
