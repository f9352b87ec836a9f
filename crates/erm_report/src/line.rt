//! The lines of a report, and the lines that stand in a report's place.
use crate::Answer;
use erm_model::{Name, Pair, Seat, Stamp};
use erm_script::FaultKind;

/// A line that the program prints.
#[derive(Drop)]
pub enum Line {
    /// The opening's own block in the log, and its run.
    Open {
        stamp: Stamp,
        run: u64,
    },
    /// The answer to a line of the script.
    Answer {
        line: u32,
        answer: Answer,
    },
    /// How a session that was not idle at the end was closed.
    Close {
        session: Name,
        answer: Answer,
    },
    /// How many transactions committed, and how many safe snapshots ended, all together.
    Order {
        commits: usize,
    },
    /// A committed transaction, in the serial order.
    Commit {
        session: Name,
        number: u32,
        stamp: Stamp,
        succ: Stamp,
        pred: Stamp,
    },
    /// A safe snapshot that ended, in the serial order.
    Safe {
        session: Name,
        number: u32,
        at: Stamp,
    },
    /// How many keys have a value in the end.
    Map {
        pairs: usize,
    },
    /// A key with its value in the end.
    Pair(Pair),
    /// The end of the report.
    End,
    /// The disk failed outside the lines of the script: there is no more.
    DiskFault,
    /// The stamp and the run that the disk was recovered to.
    Recovered {
        stamp: Stamp,
        run: u64,
    },
    /// The commits between these stamps are told of, as the disk was recovered to them in this run.
    Audited {
        base: Stamp,
        stamp: Stamp,
        run: u64,
    },
    /// A commit found in the log, in the serial order.
    LoggedCommit {
        seat: Seat,
        number: u32,
        stamp: Stamp,
        succ: Stamp,
    },
    /// A checkpoint was written, as of this stamp.
    Checkpointed {
        stamp: Stamp,
    },
    /// A script of so many transactions and sessions was made and run.
    Made {
        count: u32,
        sessions: Seat,
    },
    /// How many of its transactions committed.
    Committed {
        count: usize,
    },
    /// How many of them were excluded.
    Excluded {
        count: usize,
    },
    /// How many of them met an owner.
    Owned {
        count: usize,
    },
    /// How many keys have a value after them.
    Pairs {
        count: usize,
    },
    /// In place of a report: the first line of the script that is not in the grammar, and the first kind of fault that
    /// applies to it.
    BadLine {
        line: u32,
        kind: FaultKind,
    },
    /// In place of a report: the script could not be read.
    ReadFault,
    /// In place of a report: the script has too many bytes.
    TooLong,
    /// In place of a report: memory ran out.
    NoMemory,
    /// In place of a report: there are bytes on the disk, but no place to start from.
    NoBase,
    /// In place of a report: no run comes after this one.
    RunsEnd {
        run: u64,
    },
    /// In place of a report: the log has come as far as this, behind which nothing is opened.
    LogEnd {
        tail: Stamp,
    },
}
