//! What a desk answers beside two sessions, and what its disk recovers to. Each commit has seven words: the first begins at 13.
use crate::steps::{Ask, Found, OPENING, Step, Told, first_other};
use erm_checkpoint::CheckpointStop;
use erm_flush::FlushStop;
use erm_outside_mem::Pick;
use std::test::Fail;

// Checkpoints in turn, each to the slot that isn't best, with commits between them.
const STEPS: [Step; 18] = [
    (Ask::Commit(1, 1), Told::Did(true)),
    (Ask::Commit(2, 2), Told::Did(true)),
    (Ask::Crash(Pick::All), Told::Left(BEGUN)),
    (Ask::Checkpoint, Told::Saved(Ok(27))),
    (Ask::Crash(Pick::Nothing), Told::Left(SAVED)),
    (Ask::Commit(1, 3), Told::Did(true)),
    (Ask::Commit(2, 4), Told::Did(true)),
    (Ask::Checkpoint, Told::Saved(Ok(41))),
    (
        Ask::Crash(Pick::Nothing),
        Told::Left(Found {
            slots: [Some(27), Some(41)],
            base: 41,
            stamp: 41,
            words: [3, 4],
        }),
    ),
    (Ask::Commit(1, 5), Told::Did(true)),
    (
        Ask::Crash(Pick::All),
        Told::Left(Found {
            slots: [Some(27), Some(41)],
            base: 41,
            stamp: 41,
            words: [3, 4],
        }),
    ),
    (Ask::Turn, Told::Turned(Ok(48))),
    (
        Ask::Crash(Pick::Nothing),
        Told::Left(Found {
            slots: [Some(27), Some(41)],
            base: 41,
            stamp: 48,
            words: [5, 4],
        }),
    ),
    (Ask::Turn, Told::Turned(Err(FlushStop::Empty { at: 48 }))),
    (Ask::Commit(2, 6), Told::Did(true)),
    (Ask::Turn, Told::Turned(Ok(55))),
    (Ask::Checkpoint, Told::Saved(Ok(55))),
    (
        Ask::Crash(Pick::Nothing),
        Told::Left(Found {
            slots: [Some(55), Some(41)],
            base: 55,
            stamp: 55,
            words: [5, 6],
        }),
    ),
];

// Nothing is flushed.
const BEGUN: Found = Found {
    slots: [None, None],
    base: 8,
    stamp: 13,
    words: [0, 0],
};

// The first commit is, then both.
const ONE: Found = Found {
    slots: [None, None],
    base: 8,
    stamp: 20,
    words: [1, 0],
};

const BOTH: Found = Found {
    slots: [None, None],
    base: 8,
    stamp: 27,
    words: [1, 2],
};

// A checkpoint is saved behind them.
const SAVED: Found = Found {
    slots: [Some(27), None],
    base: 27,
    stamp: 27,
    words: [1, 2],
};

// A third commit is flushed, and a checkpoint saved behind it too.
const MORE: Found = Found {
    slots: [Some(27), None],
    base: 27,
    stamp: 34,
    words: [3, 2],
};

const TWICE: Found = Found {
    slots: [Some(27), Some(34)],
    base: 34,
    stamp: 34,
    words: [3, 2],
};

// What a flush turn and two checkpoint turns answer where the disk fails at the first, at the second and at the third.
const AT_TURN: [Told; 3] = [
    Told::Turned(Err(FlushStop::DiskFault)),
    Told::Saved(Err(CheckpointStop::Failed)),
    Told::Saved(Err(CheckpointStop::Failed)),
];

const AT_FIRST: [Told; 3] = [
    Told::Turned(Ok(20)),
    Told::Saved(Err(CheckpointStop::DiskFault)),
    Told::Saved(Err(CheckpointStop::Failed)),
];

const AT_SECOND: [Told; 3] = [
    Told::Turned(Ok(20)),
    Told::Saved(Ok(27)),
    Told::Saved(Err(CheckpointStop::DiskFault)),
];

// A case: the call of the disk that fails, behind those that open its log; what the three turns answer; and what is left of what was waited
// for, and of all that was done. Each turn writes to a segment and waits, and a checkpoint turn then writes a slot, waits, and looks for
// a segment that is needed no more: there is none.
type Failing = (u64, [Told; 3], Found, Found);

const FAILING: [Failing; 12] = [
    (OPENING + 1, AT_TURN, BEGUN, BEGUN),
    (OPENING + 2, AT_TURN, BEGUN, ONE),
    (OPENING + 3, AT_FIRST, ONE, ONE),
    (OPENING + 4, AT_FIRST, ONE, BOTH),
    (OPENING + 5, AT_FIRST, BOTH, BOTH),
    (OPENING + 6, AT_FIRST, BOTH, SAVED),
    (OPENING + 7, AT_FIRST, SAVED, SAVED),
    (OPENING + 8, AT_SECOND, SAVED, SAVED),
    (OPENING + 9, AT_SECOND, SAVED, MORE),
    (OPENING + 10, AT_SECOND, MORE, MORE),
    (OPENING + 11, AT_SECOND, MORE, TWICE),
    (OPENING + 12, AT_SECOND, TWICE, TWICE),
];

// The second session's range isn't decided: up to it the log is flushed, and no checkpoint is taken until it is.
const UNDECIDED: [Step; 8] = [
    (Ask::Commit(1, 1), Told::Did(true)),
    (Ask::Seal(2, 2), Told::Did(true)),
    (
        Ask::Checkpoint,
        Told::Saved(Err(CheckpointStop::Unfilled { at: 20 })),
    ),
    (Ask::Crash(Pick::Nothing), Told::Left(ONE)),
    (Ask::Turn, Told::Turned(Err(FlushStop::Unfilled { at: 20 }))),
    (Ask::Settle(2), Told::Did(true)),
    (Ask::Checkpoint, Told::Saved(Ok(27))),
    (Ask::Crash(Pick::Nothing), Told::Left(SAVED)),
];

// What is flushed is left after a crash, and recovery begins at the last checkpoint.
#[test]
fn checkpoints_are_taken_in_turn(rt: HostRuntime) -> Result<(), Fail> {
    assert_eq!(rt; first_other(rt.alloc(), 0, &STEPS)?, None);
    Ok(())
}

// The steps of a case.
fn steps_of(failing: &Failing) -> [Step; 10] {
    let (_, told, lasts, all) = *failing;
    [
        (Ask::Commit(1, 1), Told::Did(true)),
        (Ask::Turn, told[0]),
        (Ask::Commit(2, 2), Told::Did(true)),
        (Ask::Checkpoint, told[1]),
        (Ask::Commit(1, 3), Told::Did(true)),
        (Ask::Checkpoint, told[2]),
        (Ask::Checkpoint, Told::Saved(Err(CheckpointStop::Failed))),
        (Ask::Turn, Told::Turned(Err(FlushStop::Failed))),
        (Ask::Crash(Pick::Nothing), Told::Left(lasts)),
        (Ask::Crash(Pick::All), Told::Left(all)),
    ]
}

// The disk fails once, and does what it is asked before and after.
#[test]
fn a_desk_fails_with_its_disk(rt: HostRuntime) -> Result<(), Fail> {
    for failing in &FAILING {
        let call = failing.0;
        let other = first_other(rt.alloc(), call, &steps_of(failing))?;
        assert_eq!(rt; other, None, "{call}");
    }
    Ok(())
}

#[test]
fn a_checkpoint_waits_for_what_is_sealed(rt: HostRuntime) -> Result<(), Fail> {
    assert_eq!(rt; first_other(rt.alloc(), 0, &UNDECIDED)?, None);
    Ok(())
}
