//! A slot saved to a disk in memory, and what is left of the segments; and where a call of the disk fails.
use erm_checkpoint::*;
use erm_outside::{Disk, Failed, File};
use erm_outside_mem::MemDisk;
use std::process::Abort;
use std::test::*;

// The segments that have a byte before.
const SEGMENTS: [u64; 5] = [0, 1, 3, 4, 1 << 44];

// The range in which segments are removed.
const FIRST: u64 = 1;

const END: u64 = 4;

// A case: the call of the disk that fails, 0 where none does; whether the slot is saved; and which segments have bytes then.
struct Case {
    fails: u64,
    saved: bool,
    left: [bool; 5],
}

// The first five calls write the segments.
const CASES: [Case; 6] = [
    Case {
        fails: 0,
        saved: true,
        left: [true, false, false, true, true],
    },
    // The slot's write, and its sync.
    Case {
        fails: 6,
        saved: false,
        left: [true, true, true, true, true],
    },
    Case {
        fails: 7,
        saved: false,
        left: [true, true, true, true, true],
    },
    // The first look for a segment, the removal of segment 1, and its sync.
    Case {
        fails: 8,
        saved: false,
        left: [true, true, true, true, true],
    },
    Case {
        fails: 9,
        saved: false,
        left: [true, true, true, true, true],
    },
    Case {
        fails: 10,
        saved: false,
        left: [true, false, true, true, true],
    },
];

// Whether a disk with these segments is left as a case says.
fn is_left_so(disk: &mut MemDisk, case: &Case) -> Result<bool, Failed> {
    for segment in SEGMENTS {
        disk.write(File::Segment(segment), 0, &[7])?;
    }
    let saved = save(disk, File::Slot1, b"a slot", FIRST, END).is_ok();
    let mut left = [false; 5];
    for (place, segment) in SEGMENTS.iter().enumerate() {
        left[place] = disk.len(File::Segment(*segment))? > 0;
    }
    Ok(saved == case.saved && left == case.left)
}

#[test]
fn saves(rt: HostRuntime) -> Result<(), Fail> {
    for case in &CASES {
        let mut disk = MemDisk::new(rt.alloc()).failing(vec![in rt.alloc(); case.fails; 1]?);
        let fails = case.fails;
        assert!(rt; is_left_so(&mut disk, case)?, "where call {fails} fails");
    }
    Ok(())
}
