//! Words at a segment's end, and what a crash leaves of them.
use erm_log_disk::write_log;
use erm_outside::{Disk, Failed, File};
use erm_outside_mem::{MemDisk, Pick};
use std::alloc::{AllocError, Global};
use std::test::Fail;

// Two words at the end of a segment, and two at the front of the next.
const WORDS: [u64; 4] = [0x0102_0304_0506_0708, 2, 3, 4];

// Where they are written: so many words are before.
const PLACE: u64 = 65_534;

// The bytes of the first two, and of the others.
const FRONT: [u8; 16] = [8, 7, 6, 5, 4, 3, 2, 1, 2, 0, 0, 0, 0, 0, 0, 0];

const BACK: [u8; 16] = [3, 0, 0, 0, 0, 0, 0, 0, 4, 0, 0, 0, 0, 0, 0, 0];

// A case.
struct Case {
    // The call that fails, of two writes and then two syncs.
    call: u64,
    answer: Result<(), Failed>,
    // Which parts stand on a disk that kept what was waited for and nothing else, and which on one that kept all.
    kept: [bool; 2],
    all: [bool; 2],
}

const CASES: [Case; 5] = [
    Case {
        call: 1,
        answer: Err(Failed),
        kept: [false, false],
        all: [false, false],
    },
    Case {
        call: 2,
        answer: Err(Failed),
        kept: [false, false],
        all: [true, false],
    },
    Case {
        call: 3,
        answer: Err(Failed),
        kept: [false, false],
        all: [true, true],
    },
    Case {
        call: 4,
        answer: Err(Failed),
        kept: [true, false],
        all: [true, true],
    },
    Case {
        call: 5,
        answer: Ok(()),
        kept: [true, true],
        all: [true, true],
    },
];

// Which parts stand on a disk.
fn parts(disk: &mut MemDisk) -> Result<[bool; 2], Failed> {
    let mut front = [0; 16];
    let mut back = [0; 16];
    let _ = disk.read(File::Segment(0), 8 * PLACE, &mut front)?;
    let _ = disk.read(File::Segment(1), 0, &mut back)?;
    Ok([front == FRONT, back == BACK])
}

// Whether a disk is left so after a crash.
fn is_left_so(disk: &MemDisk, case: &Case) -> Result<bool, AllocError> {
    let kept = parts(&mut disk.image(Pick::Nothing)?);
    let all = parts(&mut disk.image(Pick::All)?);
    Ok(kept == Ok(case.kept) && all == Ok(case.all))
}

// Whether the words are written so.
fn is_written_so(alloc: Global, case: &Case) -> Result<bool, AllocError> {
    let mut disk = MemDisk::new(alloc).failing([case.call].to_vec(alloc)?);
    let answer = write_log(&mut disk, PLACE, &WORDS, &mut [0; 40]);
    Ok(answer == case.answer && is_left_so(&disk, case)?)
}

#[test]
fn words_lie_in_two_segments(rt: HostRuntime) -> Result<(), Fail> {
    for case in &CASES {
        let call = case.call;
        assert!(rt; is_written_so(rt.alloc(), case)?, "{call}");
    }
    Ok(())
}
