//! Orders of a few commits, and a few transactions replayed.
use crate::lines::value;
use erm_audit::{replay, serial_order};
use erm_model::{Commit, Map, Op, Reply, Stamp};
use std::alloc::{AllocError, Global};

// The serial order of commits with these stamps, each a commit stamp and a successor stamp.
fn order_of(alloc: Global, stamps: &[(Stamp, Stamp)]) -> Result<Vec<usize>, AllocError> {
    let mut commits = Vec::new(alloc);
    for (stamp, succ) in stamps {
        commits.push(Commit {
            seat: 1,
            number: 1,
            stamp: *stamp,
            succ: *succ,
        })?;
    }
    serial_order(alloc, &commits)
}

// The stamps of commits, and the places of these in their order: with the order of the commits, against it, given backwards, of equal ones,
// and of none.
const ORDERS: [(&[(Stamp, Stamp)], &[usize]); 5] = [
    (&[(13, 13), (69, 69), (91, 91)], &[0, 1, 2]),
    (&[(13, 13), (69, 69), (91, 69), (113, 69)], &[0, 3, 2, 1]),
    (&[(91, 69), (69, 69), (13, 13)], &[2, 0, 1]),
    (&[(69, 69), (13, 13), (69, 69)], &[1, 0, 2]),
    (&[], &[]),
];

#[test]
fn orders(rt: HostRuntime) -> Result<(), AllocError> {
    for (stamps, places) in ORDERS {
        assert_eq!(rt; order_of(rt.alloc(), stamps)?.as_slice(), places);
    }
    Ok(())
}

// What is asked of a key. What is put is a value of one byte.
#[derive(Clone, Copy)]
enum Ask {
    Get,
    Put(u8),
    Del,
    Next,
}

// Of which transaction it is, what is asked, of which key, and the key and the byte that are found.
type Line = (u8, Ask, u64, Option<(u64, u8)>);

// Transaction 2 asks nothing.
const LINES: [Line; 7] = [
    (0, Ask::Put(b'a'), 10, None),
    (0, Ask::Put(b'b'), 20, None),
    (1, Ask::Get, 10, Some((10, b'a'))),
    (1, Ask::Put(b'c'), 20, None),
    (3, Ask::Next, 11, Some((20, b'c'))),
    (3, Ask::Del, 10, None),
    (3, Ask::Next, 0, Some((20, b'c'))),
];

fn op(ask: Ask, key: u64) -> Op {
    match ask {
        Ask::Get => Op::Get { table: 0, key },
        Ask::Put(byte) => Op::Put {
            table: 0,
            key,
            value: value(&[byte]),
        },
        Ask::Del => Op::Del { table: 0, key },
        Ask::Next => Op::Next {
            table: 0,
            from: key,
        },
    }
}

fn reply(ask: Ask, found: Option<(u64, u8)>) -> Reply {
    match (ask, found) {
        (Ask::Get, Some((_, byte))) => Reply::Value(Some(value(&[byte]))),
        (Ask::Get, None) => Reply::Value(None),
        (Ask::Next, Some((key, byte))) => Reply::Pair(Some((key, value(&[byte])))),
        (Ask::Next, None) => Reply::Pair(None),
        _ => Reply::Done,
    }
}

fn ops_of(alloc: Global, transaction: u8) -> Result<Vec<Op>, AllocError> {
    let mut ops = Vec::new(alloc);
    for (of, ask, key, _) in &LINES {
        if *of == transaction {
            ops.push(op(*ask, *key))?;
        }
    }
    Ok(ops)
}

fn replies_of(alloc: Global, transaction: u8) -> Result<Vec<Reply>, AllocError> {
    let mut replies = Vec::new(alloc);
    for (of, ask, _, found) in &LINES {
        if *of == transaction {
            replies.push(reply(*ask, *found))?;
        }
    }
    Ok(replies)
}

fn transactions(alloc: Global) -> Result<Vec<Vec<Op>>, AllocError> {
    let mut transactions = Vec::new(alloc);
    for transaction in 0..4 {
        transactions.push(ops_of(alloc, transaction)?)?;
    }
    Ok(transactions)
}

fn wanted(alloc: Global) -> Result<Vec<Vec<Reply>>, AllocError> {
    let mut wanted = Vec::new(alloc);
    for transaction in 0..4 {
        wanted.push(replies_of(alloc, transaction)?)?;
    }
    Ok(wanted)
}

#[test]
fn replays_transactions(rt: HostRuntime) -> Result<(), AllocError> {
    let mut map = Map::new(rt.alloc());
    let replies = replay(rt.alloc(), &mut map, &transactions(rt.alloc())?)?;
    assert!(rt; replies == wanted(rt.alloc())? && map.len() == 1);
    Ok(())
}
