//! Small histories of transactions on the records of keys 10 and 20, objects 16 and 17, under one leaf, object 0. Their
//! numbers were worked out by hand.
use erm_model::{Oid, Stamp, TransactionRecord, VersionRead, VersionWritten};
use erm_slow::{depends, is_certified, predecessor_stamp, successor_stamp};
use std::alloc::{AllocError, Global};
use std::collections::LinkedList;

// A transaction in short: its stamps and the versions that it read and overwrote, as objects with stamps.
#[derive(Clone, Copy)]
struct Sketch {
    begin: Stamp,
    stamp: Stamp,
    succ: Stamp,
    pred: Stamp,
    reads: &'static [(Oid, Stamp)],
    writes: &'static [(Oid, Stamp)],
}

// A history, whether it is certified, and its dependencies, each as the place of a transaction and of one that depends on it.
#[derive(Clone, Copy)]
struct Story {
    sketches: &'static [Sketch],
    certified: bool,
    edges: &'static [(usize, usize)],
}

// Puts keys 10 and 20.
const FIRST: Sketch = Sketch {
    begin: 13,
    stamp: 13,
    succ: 13,
    pred: 0,
    reads: &[(0, 0)],
    writes: &[(16, 0), (0, 0), (17, 0)],
};

// Puts key 20, after looking in the leaf alone.
const PUTS_20: Sketch = Sketch {
    begin: 69,
    stamp: 69,
    succ: 69,
    pred: 13,
    reads: &[(0, 13)],
    writes: &[(17, 13)],
};

// Puts key 10, after looking in the leaf alone.
const PUTS_10: Sketch = Sketch {
    writes: &[(16, 13)],
    ..PUTS_20
};

// Reads both keys and puts 10, or 20.
const READS_BOTH_PUTS_10: Sketch = Sketch {
    reads: &[(0, 13), (16, 13), (17, 13)],
    writes: &[(16, 13)],
    ..PUTS_20
};

const READS_BOTH_PUTS_20: Sketch = Sketch {
    writes: &[(17, 13)],
    ..READS_BOTH_PUTS_10
};

// Reads the old 10 and the new 20.
const READS_BOTH: Sketch = Sketch {
    begin: 91,
    stamp: 91,
    succ: 91,
    pred: 69,
    reads: &[(0, 13), (16, 13), (17, 69)],
    writes: &[],
};

// Both read keys 10 and 20, and each puts another one. The second is the one to exclude.
const WRITE_SKEW: [Sketch; 3] = [
    FIRST,
    READS_BOTH_PUTS_10,
    Sketch {
        stamp: 91,
        pred: 69,
        ..READS_BOTH_PUTS_20
    },
];

// One reads both keys and puts 10, last; meanwhile 20 is put, and a third reads the old 10 and the new 20.
const READ_ONLY_ANOMALY: [Sketch; 4] = [
    FIRST,
    PUTS_20,
    READS_BOTH,
    Sketch {
        stamp: 96,
        pred: 91,
        ..READS_BOTH_PUTS_10
    },
];

// The same without the third; after all, one that began with the second reads the old 10.
const AGAINST_COMMIT_ORDER: [Sketch; 4] = [
    FIRST,
    PUTS_20,
    Sketch {
        stamp: 91,
        ..READS_BOTH_PUTS_10
    },
    Sketch {
        stamp: 113,
        reads: &[(0, 13), (16, 13)],
        writes: &[],
        ..PUTS_20
    },
];

// Each puts a key of its own without reading the other one.
const BLIND_WRITES: [Sketch; 3] = [
    FIRST,
    PUTS_10,
    Sketch {
        stamp: 91,
        succ: 91,
        ..PUTS_20
    },
];

// One scans the table and puts key 20; the other reads 20 and puts 15, a new key.
const PHANTOM: [Sketch; 3] = [
    FIRST,
    READS_BOTH_PUTS_20,
    Sketch {
        stamp: 91,
        pred: 69,
        reads: &[(0, 13), (17, 13)],
        writes: &[(18, 0), (0, 13)],
        ..PUTS_20
    },
];

const STORIES: [Story; 8] = [
    Story {
        sketches: &WRITE_SKEW,
        certified: false,
        edges: &[(0, 1), (0, 2), (1, 2), (2, 1)],
    },
    Story {
        sketches: &[FIRST, READS_BOTH_PUTS_10],
        certified: true,
        edges: &[(0, 1)],
    },
    Story {
        sketches: &READ_ONLY_ANOMALY,
        certified: false,
        edges: &[(0, 1), (0, 2), (0, 3), (1, 2), (2, 3), (3, 1)],
    },
    Story {
        sketches: &[FIRST, PUTS_20, READS_BOTH],
        certified: true,
        edges: &[(0, 1), (0, 2), (1, 2)],
    },
    Story {
        sketches: &AGAINST_COMMIT_ORDER,
        certified: true,
        edges: &[(0, 1), (0, 2), (0, 3), (2, 1), (3, 2)],
    },
    Story {
        sketches: &BLIND_WRITES,
        certified: true,
        edges: &[(0, 1), (0, 2)],
    },
    Story {
        sketches: &PHANTOM,
        certified: false,
        edges: &[(0, 1), (0, 2), (1, 2), (2, 1)],
    },
    Story {
        sketches: &[FIRST, READS_BOTH_PUTS_20],
        certified: true,
        edges: &[(0, 1)],
    },
];

// The last carries a successor stamp, or a predecessor stamp, that is not its own, with an open window; or a stamp comes twice.
const UNCERTIFIED: [&[Sketch]; 3] = [
    &[
        FIRST,
        Sketch {
            succ: 68,
            ..PUTS_20
        },
    ],
    &[
        FIRST,
        Sketch {
            pred: 12,
            ..PUTS_20
        },
    ],
    &[FIRST, PUTS_20, PUTS_20],
];

// The transaction of a sketch, which carries its successor and predecessor stamps, or zeros.
fn transaction(
    alloc: Global,
    sketch: &Sketch,
    carrying: bool,
) -> Result<TransactionRecord, AllocError> {
    let (succ, pred) = if carrying {
        (sketch.succ, sketch.pred)
    } else {
        (0, 0)
    };
    let reads = reads(alloc, sketch.reads)?;
    let writes = writes(alloc, sketch.writes)?;
    Ok(TransactionRecord {
        seat: 1,
        number: 1,
        begin: sketch.begin,
        stamp: sketch.stamp,
        succ,
        pred,
        reads,
        writes,
        made: LinkedList::new(alloc),
    })
}

// The history of these sketches.
fn history(
    alloc: Global,
    sketches: &[Sketch],
    carrying: bool,
) -> Result<Vec<TransactionRecord>, AllocError> {
    let mut history = Vec::new(alloc);
    for sketch in sketches {
        history.push(transaction(alloc, sketch, carrying)?)?;
    }
    Ok(history)
}

fn reads(alloc: Global, versions: &[(Oid, Stamp)]) -> Result<LinkedList<VersionRead>, AllocError> {
    let mut reads = LinkedList::new(alloc);
    for (oid, stamp) in versions {
        reads.push_back(VersionRead {
            oid: *oid,
            stamp: *stamp,
            row: [0; 16],
        })?;
    }
    Ok(reads)
}

fn writes(
    alloc: Global,
    versions: &[(Oid, Stamp)],
) -> Result<LinkedList<VersionWritten>, AllocError> {
    let mut writes = LinkedList::new(alloc);
    for (oid, stamp) in versions {
        writes.push_back(VersionWritten {
            oid: *oid,
            stamp: *stamp,
            base: [0; 16],
            row: [0; 16],
            is_set: true,
        })?;
    }
    Ok(writes)
}

// Whether the stamps that the slow program computes for the history are those of its sketches.
fn has_stamps(history: &[TransactionRecord], sketches: &[Sketch]) -> bool {
    for (place, t) in history.iter().enumerate() {
        let Some(sketch) = sketches.get(place) else {
            return false;
        };
        if successor_stamp(history, place) != sketch.succ {
            return false;
        }
        if predecessor_stamp(history, t) != sketch.pred {
            return false;
        }
    }
    history.len() == sketches.len()
}

// Whether the history has just these dependencies.
fn has_edges(history: &[TransactionRecord], edges: &[(usize, usize)]) -> bool {
    for (i, t) in history.iter().enumerate() {
        for (j, u) in history.iter().enumerate() {
            if depends(t, u) != edges.contains(&(i, j)) {
                return false;
            }
        }
    }
    true
}

// Whether a history has the stamps, the dependencies and the verdict of its story.
fn is_so_told(alloc: Global, story: &Story) -> Result<bool, AllocError> {
    let bare = history(alloc, story.sketches, false)?;
    if !has_stamps(&bare, story.sketches) || !has_edges(&bare, story.edges) {
        return Ok(false);
    }
    Ok(has_verdict(alloc, story.sketches)? == story.certified)
}

// Whether the history of these sketches is certified.
fn has_verdict(alloc: Global, sketches: &[Sketch]) -> Result<bool, AllocError> {
    Ok(is_certified(&history(alloc, sketches, true)?))
}

#[test]
fn small_histories(rt: HostRuntime) -> Result<(), AllocError> {
    for (place, story) in STORIES.iter().enumerate() {
        assert!(rt; is_so_told(rt.alloc(), story)?, "history {place}");
    }
    for sketches in &UNCERTIFIED {
        assert!(rt; !has_verdict(rt.alloc(), *sketches)?);
    }
    Ok(())
}
