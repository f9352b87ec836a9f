//! Lines of savepoints, of two sessions over one table.
use super::lines::{Asked, Exchange, Told, first_other};
use super::world;
use std::alloc::AllocError;

// Two keys are committed, and one of them is put again: back at the savepoint it has the value that it had. Its record stays claimed, so that the
// other session is ended.
const ONE_KEY: [Exchange; 17] = [
    (1, Asked::Begin, Told::Began(13)),
    (1, Asked::Put(0, 10, 0xaa), Told::Done),
    (1, Asked::Put(0, 20, 0xbb), Told::Done),
    (1, Asked::Commit, Told::Committed(13)),
    (1, Asked::Save, Told::NoTransaction),
    (1, Asked::Begin, Told::Began(38)),
    (1, Asked::Save, Told::Saved(1)),
    (1, Asked::Put(0, 10, 0xc1), Told::Done),
    (1, Asked::Get(0, 10), Told::Value(0xc1)),
    (1, Asked::Back(1), Told::Back(1)),
    (1, Asked::Get(0, 10), Told::Value(0xaa)),
    (1, Asked::Back(2), Told::NoSave(1)),
    (2, Asked::Begin, Told::Began(38)),
    (2, Asked::Put(0, 10, 0xc2), Told::Owned(1, 2)),
    (1, Asked::Commit, Told::Committed(38)),
    (1, Asked::Begin, Told::Began(47)),
    (1, Asked::Back(1), Told::NoSave(0)),
];

// A leaf of seven keys is committed, and the root splits for an eighth one: back at the savepoint it is the leaf that it was. The key that is put
// again gets another record. A ninth savepoint is refused.
const ROOT: [Exchange; 30] = [
    (1, Asked::Begin, Told::Began(13)),
    (1, Asked::Put(0, 1, 1), Told::Done),
    (1, Asked::Put(0, 2, 2), Told::Done),
    (1, Asked::Put(0, 3, 3), Told::Done),
    (1, Asked::Put(0, 4, 4), Told::Done),
    (1, Asked::Put(0, 5, 5), Told::Done),
    (1, Asked::Put(0, 6, 6), Told::Done),
    (1, Asked::Put(0, 7, 7), Told::Done),
    (1, Asked::Commit, Told::Committed(13)),
    (1, Asked::Begin, Told::Began(63)),
    (1, Asked::Save, Told::Saved(1)),
    (1, Asked::Put(0, 8, 8), Told::Done),
    (1, Asked::Scan(0, 1, 8), Told::Pairs(8)),
    (1, Asked::Back(1), Told::Back(1)),
    (1, Asked::Scan(0, 1, 8), Told::Pairs(7)),
    (1, Asked::Scan(0, 1, 7), Told::Pairs(7)),
    (1, Asked::Next(0, 8), Told::NoPair),
    (1, Asked::Put(0, 8, 9), Told::Done),
    (1, Asked::Get(0, 8), Told::Value(9)),
    (1, Asked::Save, Told::Saved(2)),
    (1, Asked::Save, Told::Saved(3)),
    (1, Asked::Save, Told::Saved(4)),
    (1, Asked::Save, Told::Saved(5)),
    (1, Asked::Save, Told::Saved(6)),
    (1, Asked::Save, Told::Saved(7)),
    (1, Asked::Save, Told::Saved(8)),
    (1, Asked::Save, Told::SavesFull),
    (1, Asked::Back(0), Told::NoSave(8)),
    (1, Asked::Scan(0, 1, 8), Told::Pairs(8)),
    (1, Asked::Commit, Told::Committed(63)),
];

// Each of two sessions has read both keys behind a savepoint, goes back, and puts one: the get counts as read, so that one of them is excluded.
const GETS_STAY: [Exchange; 18] = [
    (1, Asked::Begin, Told::Began(13)),
    (1, Asked::Put(0, 10, 0xaa), Told::Done),
    (1, Asked::Put(0, 20, 0xbb), Told::Done),
    (1, Asked::Commit, Told::Committed(13)),
    (1, Asked::Begin, Told::Began(38)),
    (2, Asked::Begin, Told::Began(38)),
    (1, Asked::Save, Told::Saved(1)),
    (1, Asked::Get(0, 10), Told::Value(0xaa)),
    (1, Asked::Get(0, 20), Told::Value(0xbb)),
    (1, Asked::Back(1), Told::Back(1)),
    (2, Asked::Save, Told::Saved(1)),
    (2, Asked::Get(0, 10), Told::Value(0xaa)),
    (2, Asked::Get(0, 20), Told::Value(0xbb)),
    (2, Asked::Back(1), Told::Back(1)),
    (1, Asked::Put(0, 10, 0xa1), Told::Done),
    (2, Asked::Put(0, 20, 0xb1), Told::Done),
    (1, Asked::Commit, Told::Committed(38)),
    (2, Asked::Commit, Told::Excluded),
];

// Both have read both keys. One puts a key and goes back over it, and the other puts the other key: the put counts as one, though its key has
// the value that it had.
const PUTS_STAY: [Exchange; 16] = [
    (1, Asked::Begin, Told::Began(13)),
    (1, Asked::Put(0, 10, 0xaa), Told::Done),
    (1, Asked::Put(0, 20, 0xbb), Told::Done),
    (1, Asked::Commit, Told::Committed(13)),
    (1, Asked::Begin, Told::Began(38)),
    (2, Asked::Begin, Told::Began(38)),
    (1, Asked::Get(0, 10), Told::Value(0xaa)),
    (1, Asked::Get(0, 20), Told::Value(0xbb)),
    (2, Asked::Get(0, 10), Told::Value(0xaa)),
    (2, Asked::Get(0, 20), Told::Value(0xbb)),
    (1, Asked::Save, Told::Saved(1)),
    (1, Asked::Put(0, 10, 0xa1), Told::Done),
    (1, Asked::Back(1), Told::Back(1)),
    (2, Asked::Put(0, 20, 0xb1), Told::Done),
    (1, Asked::Commit, Told::Committed(38)),
    (2, Asked::Commit, Told::Excluded),
];

// A transaction in progress alone has savepoints, and they end with it.
const PHASES: [Exchange; 23] = [
    (1, Asked::Save, Told::NoTransaction),
    (1, Asked::Back(1), Told::NoTransaction),
    (1, Asked::Begin, Told::Began(13)),
    (1, Asked::Back(0), Told::NoSave(0)),
    (1, Asked::Save, Told::Saved(1)),
    (1, Asked::Back(u32::MAX), Told::NoSave(1)),
    (2, Asked::Safe, Told::Safe(13)),
    (2, Asked::Save, Told::ReadOnly),
    (2, Asked::Back(1), Told::ReadOnly),
    (2, Asked::Commit, Told::Ended),
    (1, Asked::Put(0, 5, 7), Told::Done),
    (1, Asked::Seal, Told::Sealed(13)),
    (1, Asked::Save, Told::IsSealed),
    (1, Asked::Back(1), Told::IsSealed),
    (2, Asked::Safe, Told::Waits(1)),
    (2, Asked::Save, Told::ReadOnly),
    (2, Asked::Back(1), Told::ReadOnly),
    (1, Asked::Settle, Told::Committed(13)),
    (1, Asked::Save, Told::NoTransaction),
    (1, Asked::Begin, Told::Began(33)),
    (1, Asked::Back(1), Told::NoSave(0)),
    (1, Asked::Abort, Told::Aborted),
    (1, Asked::Back(1), Told::NoTransaction),
];

// The lines of a case, and what they show.
const CASES: [(&str, &[Exchange]); 5] = [
    ("one key", &ONE_KEY),
    ("a split root", &ROOT),
    ("gets stay", &GETS_STAY),
    ("puts stay", &PUTS_STAY),
    ("phases", &PHASES),
];

#[test]
fn lines_go_back(rt: HostRuntime) -> Result<(), AllocError> {
    for (name, lines) in &CASES {
        let mut world = world(&rt, rt.alloc(), 16)?;
        assert_eq!(rt;
            first_other(rt.alloc(), &mut world, *lines)?,
            None,
            "{name}"
        );
    }
    Ok(())
}
