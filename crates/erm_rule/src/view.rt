//! What a pass knows of the machine.
use erm_machine::{Kind, Part};
use erm_model::{Oid, Row, Seat, Stamp};
use std::collections::LinkedList;

/// A seat that a pass has, with what the seat keeps. No value of it is made.
pub struct Held {
    pub seat: Seat,
    pub part: Part,
}

/// The seats that a pass has, and nothing else. No value of it is made.
pub struct View {
    pub held: LinkedList<Held>,
}

/// A step that a pass has taken: its seat, its kind, the word that it found, and what the pass knew before it. No value of it is made.
pub struct Taken {
    pub seat: Seat,
    pub kind: Kind,
    pub found: u64,
    pub before: View,
}

/// What the table was told when it was made, as an `Opening` says it. No value of it is made.
pub struct Start {
    pub sessions: Seat,
    pub tail: Stamp,
    pub run: u64,
    pub first: Oid,
    pub rows: LinkedList<Row>,
}

/// A book that another has taken in, as it was then. No value of it is made.
pub struct Past {
    pub start: Start,
    pub view: View,
    pub taken: LinkedList<Taken>,
}

/// What a pass knows; the table's start, and the steps by which the pass came to know it, the last one first; and the books that it
/// has taken in. No value of it is made.
pub struct Book {
    pub start: Start,
    pub view: View,
    pub taken: LinkedList<Taken>,
    pub past: LinkedList<Past>,
}

/// What the table is told when it is made: how many sessions, from the first on, are idle in the first pass (at most 48; the others
/// are vacant, and become idle as they are handed out), where the log of this opening begins, which run of the log it is, the number of
/// the first object to make, and the rows of all objects.
#[derive(Drop)]
pub struct Opening {
    pub sessions: Seat,
    pub tail: Stamp,
    pub run: u64,
    pub first: Oid,
    pub rows: Vec<Row>,
}
