//! Versions of objects, and the cells that hold them.
use erm_model::{Oid, Row, Seat, Stamp};

/// A word of a cell.
#[derive(Clone, Copy, PartialEq, Eq)]
pub enum CellWord {
    /// The commit stamp of the version's creator, 0 for the opening's.
    Stamp,
    /// One more than the cell of the next older version, or 0.
    Link,
    /// The bits of the seats that have read the version and aren't done, bit s for seat s.
    Readers,
    /// The greatest stamp of the creator and of the committed readers.
    ReaderStamp,
    /// The stamp of the committed overwriter, or 0.
    Overwriter,
    /// The successor stamp of the committed overwriter, or 0.
    OverwriterSucc,
    /// A word of the row, from 0 to 15.
    Row(u8),
}

/// The words of a cell.
#[derive(Clone, Copy)]
pub struct Cell {
    pub stamp: Stamp,
    pub link: u64,
    pub readers: u64,
    pub reader_stamp: Stamp,
    pub overwriter: Stamp,
    pub overwriter_succ: Stamp,
    pub row: Row,
}

/// An installed version: the cell that holds it, or held it before it was cut off, and its words.
#[derive(Clone, Copy)]
pub struct Version {
    pub cell: u32,
    pub words: Cell,
}

/// The name of an installed version: its object, its place among all versions that the object ever had, and its cell.
#[derive(Clone, Copy, Debug)]
pub struct VersionAt {
    pub oid: Oid,
    pub place: usize,
    pub cell: u32,
}

/// A range of the log, drawn by a seat.
#[derive(Clone, Copy)]
pub struct Span {
    pub seat: Seat,
    pub start: Stamp,
    /// In words.
    pub size: u64,
}
