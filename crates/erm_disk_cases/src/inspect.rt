//! What is told of disks whose words another program worked out.
use crate::told::{empty, is_told, stopping};
use erm_inspect::{audited, recovered};
use erm_outside::{Disk, Failed, File};
use erm_outside_mem::{MemDisk, Silent};
use erm_recover::RecoverStop;
use erm_report::Line;
use erm_segment::place;
use std::alloc::{AllocError, Global};
use std::test::Fail;

// The words of the slots and of the log from a place on, in hexadecimal digits, and what is told of them.
struct Written {
    slot0: &'static str,
    slot1: &'static str,
    at: u64,
    log: &'static str,
    recovered: &'static str,
    audited: &'static str,
}

const DISKS: [Written; 11] = [
    // Nothing was written.
    Written {
        slot0: "",
        slot1: "",
        at: 8,
        log: "",
        recovered: "recovered 8 run 0\nmap 0\nend\n",
        audited: "audit 8 to 8 run 0\norder 0\nmap 0\nend\n",
    },
    // The serial order is not that of the commit stamps.
    Written {
        slot0: "",
        slot1: "",
        at: 8,
        log: "100053 8 0 0 1f73ff748bce0b21 100194 d d 1000301 b00000000 3 2 a 14 0 0 0 0 0 10 11 300000010 2 1 aa 300000011 2 1 bb 122b2e4560abbb92 100094 26 26 2000101 300000011 2 1 a2 4491757b566a48e 100094 2f 26 1000102 300000010 2 1 b2 c5da91e9a5c84126",
        recovered: "recovered 56 run 1\nmap 2\npair 0 10 b2\npair 0 20 a2\nend\n",
        audited: "audit 8 to 56 run 1\norder 3\ncommit 1 1 stamp 13 succ 13\ncommit 2 1 stamp 47 succ 38\ncommit 1 2 stamp 38 succ 38\nmap 2\npair 0 10 b2\npair 0 20 a2\nend\n",
    },
    // A transaction was excluded: its place is passed over.
    Written {
        slot0: "",
        slot1: "",
        at: 8,
        log: "100053 8 0 0 1f73ff748bce0b21 100194 d d 1000301 b00000000 3 2 a 14 0 0 0 0 0 10 11 300000010 2 1 aa 300000011 2 1 bb 122b2e4560abbb92 100094 26 26 2000101 300000010 2 1 a1 cfe64f0d07fc40f9 100095 2f 26 1000102 0 0 0 0 19122d4f3a432d12 100094 38 38 2000102 300000011 2 1 cc ddfbe846107a5761",
        recovered: "recovered 65 run 1\nmap 2\npair 0 10 a1\npair 0 20 cc\nend\n",
        audited: "audit 8 to 65 run 1\norder 3\ncommit 1 1 stamp 13 succ 13\ncommit 1 2 stamp 38 succ 38\ncommit 2 2 stamp 56 succ 56\nmap 2\npair 0 10 a1\npair 0 20 cc\nend\n",
    },
    // The last block lacks its last word.
    Written {
        slot0: "",
        slot1: "",
        at: 8,
        log: "100053 8 0 0 1f73ff748bce0b21 100194 d d 1000301 b00000000 3 2 a 14 0 0 0 0 0 10 11 300000010 2 1 aa 300000011 2 1 bb",
        recovered: "recovered 13 run 1\nmap 0\nend\n",
        audited: "audit 8 to 13 run 1\norder 0\nmap 0\nend\n",
    },
    // A block is lost, and what stands behind it with it.
    Written {
        slot0: "",
        slot1: "",
        at: 8,
        log: "100053 8 0 0 1f73ff748bce0b21 0 0 0 0 0 100144 12 12 2000201 a00000000 3 1 1 0 0 0 0 0 0 10 300000010 2 1 1 a74265f0dea8da4a",
        recovered: "recovered 13 run 1\nmap 0\nend\n",
        audited: "audit 8 to 13 run 1\norder 0\nmap 0\nend\n",
    },
    // In its place the next run opened: the block behind is of the run before.
    Written {
        slot0: "",
        slot1: "",
        at: 8,
        log: "100053 8 0 0 1f73ff748bce0b21 200053 d 0 0 5770124e9be69aea 100144 12 12 2000201 a00000000 3 1 1 0 0 0 0 0 0 10 300000010 2 1 1 a74265f0dea8da4a",
        recovered: "recovered 18 run 2\nmap 0\nend\n",
        audited: "audit 8 to 18 run 2\norder 0\nmap 0\nend\n",
    },
    // A checkpoint without rows, far up the log.
    Written {
        slot0: "1 ffffffffffffffb 1 0 0 f61b8632b4530501",
        slot1: "",
        at: 8,
        log: "",
        recovered: "recovered 1152921504606846971 run 1\nmap 0\nend\n",
        audited: "audit 1152921504606846971 to 1152921504606846971 run 1\norder 0\nmap 0\nend\n",
    },
    // A checkpoint without rows, and behind it a block over two segments.
    Written {
        slot0: "1 fffa 1 0 0 2f11bf3809c7419",
        slot1: "",
        at: 65530,
        log: "200053 fffa 0 0 228bc15b554c0665 200194 ffff ffff 1000301 b00000000 3 2 a 14 0 0 0 0 0 10 11 300000010 2 1 aa 300000011 2 1 bb 5655ce98e7aa2a07",
        recovered: "recovered 65560 run 2\nmap 2\npair 0 10 aa\npair 0 20 bb\nend\n",
        audited: "audit 65530 to 65560 run 2\norder 1\ncommit 1 1 stamp 65535 succ 65535\nmap 2\npair 0 10 aa\npair 0 20 bb\nend\n",
    },
    // Blocks of the old format, and of the new one behind them.
    Written {
        slot0: "",
        slot1: "",
        at: 8,
        log: "100053 8 0 0 1f73ff748bce0b21 100381 d d 1000301 10 2 1 aa 0 0 0 0 0 0 0 0 0 0 0 0 0 0 3 2 a 14 0 0 0 0 0 10 11 0 0 0 0 0 11 2 1 bb 0 0 0 0 0 0 0 0 0 0 0 0 0 344205ad131087be 200053 45 0 0 a40278c1d03627f0 200094 4a 4a 1000101 300000010 2 1 cc 1dd2ac7a115fda72",
        recovered: "recovered 83 run 2\nmap 2\npair 0 10 cc\npair 0 20 bb\nend\n",
        audited: "audit 8 to 83 run 2\norder 2\ncommit 1 1 stamp 13 succ 13\ncommit 1 1 stamp 74 succ 74\nmap 2\npair 0 10 cc\npair 0 20 bb\nend\n",
    },
    // Two checkpoints: the better one is that of the greater stamp.
    Written {
        slot0: "2 2f 1 0 3 b00000000 3 2 a 14 0 0 0 0 0 10 11 300000010 2 1 c1 300000011 2 1 bb f40ddc21a7e49d9f",
        slot1: "2 34 2 0 3 b00000000 3 2 a 14 0 0 0 0 0 10 11 300000010 2 1 c1 300000011 2 1 bb b5d072da61b1da57",
        at: 8,
        log: "100053 8 0 0 1f73ff748bce0b21 100194 d d 1000301 b00000000 3 2 a 14 0 0 0 0 0 10 11 300000010 2 1 aa 300000011 2 1 bb 122b2e4560abbb92 100094 26 26 2000101 300000010 2 1 c1 e80a2a3ec6e2ae37 200053 2f 0 0 ade81b723b533a7f",
        recovered: "recovered 52 run 2\nmap 2\npair 0 10 c1\npair 0 20 bb\nend\n",
        audited: "audit 52 to 52 run 2\norder 0\nmap 2\npair 0 10 c1\npair 0 20 bb\nend\n",
    },
    // Of two checkpoints one lacks its last word: the log goes on behind the other.
    Written {
        slot0: "2 2f 1 0 3 b00000000 3 2 a 14 0 0 0 0 0 10 11 300000010 2 1 c1 300000011 2 1 bb f40ddc21a7e49d9f",
        slot1: "2 34 2 0 3 b00000000 3 2 a 14 0 0 0 0 0 10 11 300000010 2 1 c1 300000011 2 1 bb",
        at: 8,
        log: "100053 8 0 0 1f73ff748bce0b21 100194 d d 1000301 b00000000 3 2 a 14 0 0 0 0 0 10 11 300000010 2 1 aa 300000011 2 1 bb 122b2e4560abbb92 100094 26 26 2000101 300000010 2 1 c1 e80a2a3ec6e2ae37 200053 2f 0 0 ade81b723b533a7f 200094 34 34 7000103 300000011 2 1 dd 2ebe827ca959d85d",
        recovered: "recovered 61 run 2\nmap 2\npair 0 10 c1\npair 0 20 dd\nend\n",
        audited: "audit 47 to 61 run 2\norder 1\ncommit 3 7 stamp 52 succ 52\nmap 2\npair 0 10 c1\npair 0 20 dd\nend\n",
    },
];

// Writes words to a file, from its front on.
fn write_words(disk: &mut Silent<MemDisk>, file: File, words: &str) -> Result<(), Failed> {
    let mut at: u64 = 0;
    for word in words.split_whitespace() {
        let word = u64::from_str_radix(word, 16).unwrap_or(0);
        disk.write(file, at, &word.to_le_bytes())?;
        at = at.saturating_add(8);
    }
    Ok(())
}

// Writes words to the log, from a place on.
fn write_log(disk: &mut Silent<MemDisk>, at: u64, words: &str) -> Result<(), Failed> {
    let mut at = at;
    for word in words.split_whitespace() {
        let word = u64::from_str_radix(word, 16).unwrap_or(0);
        let (file, byte) = place(at);
        disk.write(file, byte, &word.to_le_bytes())?;
        at = at.saturating_add(1);
    }
    Ok(())
}

// A disk of these words.
fn written_to(alloc: Global, written: &Written) -> Result<Silent<MemDisk>, Failed> {
    let mut disk = empty(alloc);
    write_words(&mut disk, File::Slot0, written.slot0)?;
    write_words(&mut disk, File::Slot1, written.slot1)?;
    write_log(&mut disk, written.at, written.log)?;
    Ok(disk)
}

// Whether a disk is recovered and audited so.
fn is_told_of(
    alloc: Global,
    disk: &mut Silent<MemDisk>,
    written: &Written,
) -> Result<bool, AllocError> {
    Ok(
        is_told(alloc, recovered(alloc, disk).ok(), written.recovered)?
            && is_told(alloc, audited(alloc, disk).ok(), written.audited)?,
    )
}

#[test]
fn disks_are_told_of(rt: HostRuntime) -> Result<(), Fail> {
    for (place, written) in DISKS.iter().enumerate() {
        let mut disk = written_to(rt.alloc(), written)?;
        assert!(rt; is_told_of(rt.alloc(), &mut disk, written)?, "disk {place}");
    }
    Ok(())
}

fn has_no_base(told: Result<Vec<Line>, RecoverStop>) -> bool {
    matches!(told, Err(RecoverStop::NoBase))
}

fn is_fault(told: Result<Vec<Line>, RecoverStop>) -> bool {
    matches!(told, Err(RecoverStop::DiskFault))
}

#[test]
fn nothing_is_told_of_others(rt: HostRuntime) -> Result<(), Fail> {
    let alloc = rt.alloc();
    let mut disk = empty(alloc);
    disk.write(File::Slot0, 0, b"x")?;
    assert!(rt; has_no_base(recovered(alloc, &mut disk)) && has_no_base(audited(alloc, &mut disk)));
    let mut failing = stopping(alloc, 0);
    assert!(rt; is_fault(recovered(alloc, &mut failing)) && is_fault(audited(alloc, &mut failing)));
    Ok(())
}
