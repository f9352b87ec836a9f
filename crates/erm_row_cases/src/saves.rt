//! Transactions with savepoints, worked out by hand.
use crate::model::value;
use Short::{Back, Del, Get, Put, Save};
use erm_model::{Map, Op, Reply, Staying, run_one};
use std::alloc::{AllocError, Global};

// An operation in short, on a key of table 0 and values of one byte. A `Get` has the value that it is to be told.
#[derive(Clone, Copy)]
enum Short {
    Put(u64, u8),
    Del(u64),
    Get(u64, Option<u8>),
    Save,
    Back(u32),
}

// The operations of a transaction on the empty map, the places of those that stay, and the keys with their values that it leaves.
struct Case {
    ops: &'static [Short],
    kept: &'static [usize],
    left: &'static [(u64, u8)],
}

const CASES: [Case; 7] = [
    // a put is undone, and one who looked before saw it
    Case {
        ops: &[
            Put(1, 10),
            Save,
            Put(1, 20),
            Get(1, Some(20)),
            Back(1),
            Get(1, Some(10)),
        ],
        kept: &[0, 5],
        left: &[(1, 10)],
    },
    // a key put since has no value, and one taken away since has its value again
    Case {
        ops: &[
            Put(1, 10),
            Save,
            Put(2, 20),
            Del(1),
            Get(1, None),
            Back(1),
            Get(1, Some(10)),
            Get(2, None),
        ],
        kept: &[0, 6, 7],
        left: &[(1, 10)],
    },
    // back to the second of three: the third isn't saved any more, and the first is
    Case {
        ops: &[
            Save,
            Put(1, 10),
            Save,
            Put(1, 20),
            Save,
            Put(1, 30),
            Back(2),
            Get(1, Some(10)),
            Put(1, 40),
            Back(3),
            Get(1, Some(40)),
            Back(1),
            Get(1, None),
        ],
        kept: &[12],
        left: &[],
    },
    // twice back to one: it stays saved
    Case {
        ops: &[
            Put(1, 10),
            Save,
            Put(1, 20),
            Back(1),
            Put(1, 30),
            Back(1),
            Get(1, Some(10)),
        ],
        kept: &[0, 6],
        left: &[(1, 10)],
    },
    // a savepoint made after a way back has the next number
    Case {
        ops: &[
            Save,
            Put(1, 10),
            Save,
            Back(1),
            Put(1, 20),
            Save,
            Put(1, 30),
            Back(2),
            Get(1, Some(20)),
        ],
        kept: &[4, 8],
        left: &[(1, 20)],
    },
    // there is none of the number: nothing changes
    Case {
        ops: &[
            Put(1, 10),
            Back(1),
            Save,
            Put(1, 20),
            Back(0),
            Back(2),
            Get(1, Some(20)),
        ],
        kept: &[0, 3, 6],
        left: &[(1, 20)],
    },
    // what comes after a way back stays
    Case {
        ops: &[Save, Put(1, 10), Back(1), Put(2, 20), Put(3, 30)],
        kept: &[3, 4],
        left: &[(2, 20), (3, 30)],
    },
];

fn op(short: Short) -> Op {
    match short {
        Put(key, byte) => Op::Put {
            table: 0,
            key,
            value: value(byte),
        },
        Del(key) => Op::Del { table: 0, key },
        Get(key, _) => Op::Get { table: 0, key },
        Save => Op::Save,
        Back(n) => Op::Back { n },
    }
}

fn told(short: Short) -> Reply {
    match short {
        Get(_, Some(byte)) => Reply::Value(Some(value(byte))),
        Get(_, None) => Reply::Value(None),
        _ => Reply::Done,
    }
}

fn ops(alloc: Global, shorts: &[Short]) -> Result<Vec<Op>, AllocError> {
    let mut ops = Vec::new(alloc);
    for short in shorts {
        ops.push(op(*short))?;
    }
    Ok(ops)
}

// The places of the operations that stay.
fn kept(alloc: Global, ops: &[Op]) -> Result<Staying, AllocError> {
    let mut staying = Staying::new(alloc);
    for (place, op) in ops.iter().enumerate() {
        match op {
            Op::Save => staying.save()?,
            Op::Back { n } => staying.back(*n),
            _ => staying.add(place)?,
        }
    }
    Ok(staying)
}

// Whether these are the replies.
fn are_told(replies: &[Reply], shorts: &[Short]) -> bool {
    for (reply, short) in replies.iter().zip(shorts) {
        if *reply != told(*short) {
            return false;
        }
    }
    replies.len() == shorts.len()
}

// Whether the transaction is answered so, and leaves the keys with their values, and those operations stay.
fn is_so(alloc: Global, case: &Case) -> Result<bool, AllocError> {
    let ops = ops(alloc, case.ops)?;
    if kept(alloc, &ops)?.as_slice() != case.kept {
        return Ok(false);
    }
    let mut map = Map::new(alloc);
    let replies = run_one(alloc, &mut map, &ops)?;
    Ok(are_told(&replies, case.ops) && leaves(&map, case.left))
}

fn has(map: &Map, key: u64, byte: u8) -> bool {
    match map.get(0, key) {
        Some(value) => value.as_slice() == [byte].as_slice(),
        None => false,
    }
}

fn leaves(map: &Map, left: &[(u64, u8)]) -> bool {
    for (key, byte) in left {
        if !has(map, *key, *byte) {
            return false;
        }
    }
    map.len() == left.len()
}

#[test]
fn runs(rt: HostRuntime) -> Result<(), AllocError> {
    for (place, case) in CASES.iter().enumerate() {
        assert!(rt; is_so(rt.alloc(), case)?, "run of {place}");
    }
    Ok(())
}
