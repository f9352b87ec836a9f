//! One small transaction, values at the edges of their length, and the limits as numbers.
use erm_model::{
    COMMIT_KIND, GREATEST_BLOCK, Key, LAST_NUMBER, LAST_RUN, LEAST_BLOCK, LOG_END, MOST_CELLS, Map,
    OID_LIMIT, Op, Pair, READ_LIMIT, RING_WORDS, RUN_UNIT, Reply, SAVES, SEGMENT_WORDS, SESSIONS,
    SIZE_UNIT, SKIP_KIND, STOP, TABLE_CELLS, TABLES, VALUE_BYTES, Value, WRITE_LIMIT, run_one,
};
use std::alloc::{AllocError, Global};
use std::test::Fail;

const TABLE: u8 = 2;

// What is asked of a key. What is put is a value of one byte.
#[derive(Clone, Copy)]
enum Ask {
    Get,
    Put(u8),
    Del,
    Next,
}

// What is asked, of which key, and the key and the byte that are found.
type Line = (Ask, u64, Option<(u64, u8)>);

const TRANSACTION: [Line; 11] = [
    (Ask::Get, 7, Some((7, b's'))),
    (Ask::Get, 8, None),
    (Ask::Put(b'9'), 9, None),
    (Ask::Put(b'7'), 7, None),
    (Ask::Next, 7, Some((7, b'7'))),
    (Ask::Next, 8, Some((9, b'9'))),
    (Ask::Del, 7, None),
    (Ask::Del, 7, None),
    (Ask::Get, 7, None),
    (Ask::Next, 0, Some((9, b'9'))),
    (Ask::Next, 10, None),
];

// The keys that have a value at the end.
const KEYS: [Key; 2] = [
    Key {
        table: TABLE,
        key: 9,
    },
    Key {
        table: TABLE + 1,
        key: 0,
    },
];

/// A value of one byte.
pub fn value(byte: u8) -> Value {
    Value::new(&[byte]).unwrap()
}

fn op(ask: Ask, key: u64) -> Op {
    match ask {
        Ask::Get => Op::Get { table: TABLE, key },
        Ask::Put(byte) => Op::Put {
            table: TABLE,
            key,
            value: value(byte),
        },
        Ask::Del => Op::Del { table: TABLE, key },
        Ask::Next => Op::Next {
            table: TABLE,
            from: key,
        },
    }
}

fn reply(ask: Ask, found: Option<(u64, u8)>) -> Reply {
    match (ask, found) {
        (Ask::Get, Some((_, byte))) => Reply::Value(Some(value(byte))),
        (Ask::Get, None) => Reply::Value(None),
        (Ask::Next, Some((key, byte))) => Reply::Pair(Some((key, value(byte)))),
        (Ask::Next, None) => Reply::Pair(None),
        _ => Reply::Done,
    }
}

fn ops(alloc: Global) -> Result<Vec<Op>, AllocError> {
    let mut ops = Vec::new(alloc);
    for (ask, key, _) in TRANSACTION {
        ops.push(op(ask, key))?;
    }
    Ok(ops)
}

// Whether these are the replies.
fn are_replies(replies: &[Reply]) -> bool {
    replies.len() == TRANSACTION.len()
        && replies
            .iter()
            .zip(TRANSACTION)
            .all(|(found, (ask, _, pair))| *found == reply(ask, pair))
}

// The map before.
fn map_before(alloc: Global) -> Result<Map, AllocError> {
    let mut map = Map::new(alloc);
    map.insert(TABLE, 7, value(b's'))?;
    map.insert(TABLE + 1, 0, value(b'o'))?;
    Ok(map)
}

// Whether these are the keys with a value.
fn are_keys(pairs: &[Pair]) -> bool {
    pairs.len() == KEYS.len() && pairs.iter().zip(KEYS).all(|(pair, key)| pair.key == key)
}

#[test]
fn one_transaction(rt: HostRuntime) -> Result<(), Fail> {
    assert!(rt; Map::new(rt.alloc()).is_empty());
    let mut map = map_before(rt.alloc())?;
    let replies = run_one(rt.alloc(), &mut map, &ops(rt.alloc())?)?;
    assert!(rt; are_replies(&replies) && map.len() == KEYS.len());
    assert!(rt; are_keys(&map.pairs(rt.alloc())?));
    Ok(())
}

// Whether a value of so many bytes fits, or not, as is said, and has those bytes then.
fn fits_so(length: usize, fits: bool) -> bool {
    let bytes = [7; VALUE_BYTES + 1];
    let Some(front) = bytes.get(..length) else {
        return false;
    };
    match Value::new(front) {
        Some(value) => fits && value.as_slice() == front && value.copied() == value,
        None => !fits,
    }
}

#[test]
fn lengths_of_values(rt: HostRuntime) {
    assert!(rt; fits_so(0, true) && fits_so(112, true) && fits_so(113, false));
}

// Each limit, and the numbers of a header, spelled out.
const LIMITS: [(u64, u64); 20] = [
    (OID_LIMIT as u64, 16_384),
    (TABLES as u64, 16),
    (SESSIONS as u64, 48),
    (READ_LIMIT as u64, 512),
    (WRITE_LIMIT as u64, 128),
    (SAVES as u64, 8),
    (TABLE_CELLS as u64, 65_536),
    (MOST_CELLS as u64, 1 << 24),
    (RING_WORDS, 32_768),
    (SEGMENT_WORDS, 65_536),
    (LEAST_BLOCK, 5),
    (GREATEST_BLOCK, 2_181),
    (STOP, 1 << 60),
    (LOG_END, 1 << 61),
    (LAST_RUN, (1 << 44) - 1),
    (LAST_NUMBER as u64, (1 << 32) - 1),
    (SIZE_UNIT, 1 << 4),
    (RUN_UNIT, 1 << 20),
    (COMMIT_KIND, 4),
    (SKIP_KIND, 5),
];

#[test]
fn limits(rt: HostRuntime) {
    for (limit, number) in LIMITS {
        assert!(rt; limit == number);
    }
}
