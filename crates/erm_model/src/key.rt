//! Keys of the database map.

/// A key of the database map: a table, from 0 to 15, and a key in it. Ordered by table, then by key.
#[derive(Clone, Copy, PartialEq, Eq, Hash, PartialOrd, Ord)]
pub struct Key {
    pub table: u8,
    pub key: u64,
}
