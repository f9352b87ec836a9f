//! A phantom, worked out by hand. Over two empty tables, whose leaves are objects 0 and 1, two sessions each find no key in one
//! table, and put a key into the other. Run one after the other, the later one would find the other's key.
use crate::lines::value;
use erm_model::{
    Map, Oid, Op, Reply, Seat, Stamp, TransactionRecord, VersionRead, VersionWritten, run_one,
};
use erm_slow::{predecessor_stamp, successor_stamp};
use std::alloc::{AllocError, Global};
use std::collections::LinkedList;

// A transaction in short: the table that it scans, the one that it puts a key into, and the record that it makes for the key.
#[derive(Clone, Copy)]
struct Sketch {
    seat: Seat,
    stamp: Stamp,
    scans: u8,
    puts: u8,
    record: Oid,
}

const FIRST: Sketch = Sketch {
    seat: 1,
    stamp: 69,
    scans: 0,
    puts: 1,
    record: 16,
};

const SECOND: Sketch = Sketch {
    seat: 2,
    stamp: 91,
    scans: 1,
    puts: 0,
    record: 17,
};

// Whether each scan registers the leaf that it finds empty; the successor and predecessor stamp of the second transaction, and
// whether it commits; the commits in the serial order, and whether they are answered in it as they were told.
struct Case {
    registers: (bool, bool),
    succ: Stamp,
    pred: Stamp,
    commits: bool,
    order: &'static [Sketch],
    as_told: bool,
}

const CASES: [Case; 4] = [
    Case {
        registers: (true, true),
        succ: 69,
        pred: 69,
        commits: false,
        order: &[FIRST],
        as_told: true,
    },
    Case {
        registers: (true, false),
        succ: 91,
        pred: 69,
        commits: true,
        order: &[FIRST, SECOND],
        as_told: false,
    },
    Case {
        registers: (false, true),
        succ: 69,
        pred: 0,
        commits: true,
        order: &[SECOND, FIRST],
        as_told: false,
    },
    Case {
        registers: (false, false),
        succ: 91,
        pred: 0,
        commits: true,
        order: &[FIRST, SECOND],
        as_told: false,
    },
];

// What it reads. A put reads the leaf before it claims it.
fn reads(
    alloc: Global,
    sketch: Sketch,
    registers: bool,
) -> Result<LinkedList<VersionRead>, AllocError> {
    let mut reads = LinkedList::new(alloc);
    if registers {
        reads.push_back(read(sketch.scans as Oid))?;
    }
    reads.push_back(read(sketch.puts as Oid))?;
    Ok(reads)
}

fn writes(alloc: Global, sketch: Sketch) -> Result<LinkedList<VersionWritten>, AllocError> {
    let mut writes = LinkedList::new(alloc);
    writes.push_back(written(sketch.record))?;
    writes.push_back(written(sketch.puts as Oid))?;
    Ok(writes)
}

// The transaction as the history has it.
fn transaction(
    alloc: Global,
    sketch: Sketch,
    registers: bool,
) -> Result<TransactionRecord, AllocError> {
    let reads = reads(alloc, sketch, registers)?;
    let writes = writes(alloc, sketch)?;
    let mut made = LinkedList::new(alloc);
    made.push_back(sketch.record)?;
    Ok(TransactionRecord {
        seat: sketch.seat,
        number: 1,
        begin: 69,
        stamp: sketch.stamp,
        succ: 0,
        pred: 0,
        reads,
        writes,
        made,
    })
}

fn read(oid: Oid) -> VersionRead {
    VersionRead {
        oid,
        stamp: 0,
        row: [0; 16],
    }
}

fn written(oid: Oid) -> VersionWritten {
    VersionWritten {
        oid,
        stamp: 0,
        base: [0; 16],
        row: [0; 16],
        is_set: true,
    }
}

// What a transaction asks, and what it was told: it found no key.
fn ops(alloc: Global, sketch: &Sketch) -> Result<Vec<Op>, AllocError> {
    let next = Op::Next {
        table: sketch.scans,
        from: 0,
    };
    let put = Op::Put {
        table: sketch.puts,
        key: 10,
        value: value(&[7]),
    };
    Ok(Vec::from_array(alloc, [next, put])?)
}

fn are_told(replies: &[Reply]) -> bool {
    matches!(replies, [Reply::Pair(None), Reply::Done])
}

// Whether these, run one after another from the empty map, are answered as they were told.
fn are_as_told(alloc: Global, order: &[Sketch]) -> Result<bool, AllocError> {
    let mut map = Map::new(alloc);
    for sketch in order {
        let ops = ops(alloc, sketch)?;
        if !are_told(&run_one(alloc, &mut map, &ops)?) {
            return Ok(false);
        }
    }
    Ok(true)
}

// Whether the second of both transactions has the stamps of a case, and commits or not.
fn has_stamps(history: &[TransactionRecord], case: &Case) -> bool {
    let Some(second) = history.get(1) else {
        return false;
    };
    let succ = successor_stamp(history, 1);
    let pred = predecessor_stamp(history, second);
    succ == case.succ && pred == case.pred && (pred < succ) == case.commits
}

fn both(alloc: Global, case: &Case) -> Result<Vec<TransactionRecord>, AllocError> {
    let mut history = Vec::new(alloc);
    history.push(transaction(alloc, FIRST, case.registers.0)?)?;
    history.push(transaction(alloc, SECOND, case.registers.1)?)?;
    Ok(history)
}

// Whether a case is as is said.
fn is_so(alloc: Global, case: &Case) -> Result<bool, AllocError> {
    Ok(has_stamps(&both(alloc, case)?, case) && are_as_told(alloc, case.order)? == case.as_told)
}

#[test]
fn phantoms(rt: HostRuntime) -> Result<(), AllocError> {
    for (place, case) in CASES.iter().enumerate() {
        assert!(rt; is_so(rt.alloc(), case)?, "case {place}");
    }
    Ok(())
}
