//! What a transaction asks, and what it is answered.
use crate::{Pairs, Value};

/// An operation of a transaction: on the database map, or on its savepoints.
#[derive(Drop)]
pub enum Op {
    /// Reads the value of a key.
    Get { table: u8, key: u64 },
    /// Sets the value of a key.
    Put { table: u8, key: u64, value: Value },
    /// Takes the value of a key away.
    Del { table: u8, key: u64 },
    /// Finds the least key at or above `from` that has a value.
    Next { table: u8, from: u64 },
    /// Finds all keys from `low` to `high`, these two too, that have a value.
    Scan { table: u8, low: u64, high: u64 },
    /// Saves the map as it is, as one more savepoint. The first is number 1.
    Save,
    /// Goes back to the savepoint of this number, which stays saved, and those made after it don't. Where there is none of the
    /// number, nothing changes.
    Back { n: u32 },
}

/// The answer to an operation.
#[derive(Drop, PartialEq, Eq)]
pub enum Reply {
    /// To a `Get`: the value, or none.
    Value(Option<Value>),
    /// To a `Put`, a `Del`, a `Save` and a `Back`.
    Done,
    /// To a `Next`: the key found, with its value, or none.
    Pair(Option<(u64, Value)>),
    /// To a `Scan`: the keys found, ascending, with their values.
    Found(Pairs),
}
