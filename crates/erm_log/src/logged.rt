//! The text of a disk's log, and its printing.
ghost use Rattle.std.specs.Prelude.{◌≡◌, ◌≢◌, ◌++◌, ◌<◌, ◌≤◌, ◌⊎◌, [], ◌∷◌, Err, IfOk, IfSome, OnOk, codes, decimal};
ghost use Rattle.erm_ckpt.specs.Recovered.{Pair, base, slots_of};
ghost use Rattle.erm_outside.specs.Disk.{contents};
ghost use Rattle.erm_outside.specs.Faults.{Rose};
ghost use Rattle.erm_outside.specs.Sink.{Puts};
ghost use Rattle.erm_node.specs.Sound.{sound_law};
ghost use Rattle.erm_recover.specs.Recovering.{NoBaseTold};
ghost use Rattle.erm_log.specs.Behind.{LiesBehind, words_behind};
ghost use Rattle.erm_log.specs.Listed.{AddsChain, ShowsLog, TextTold, status_of};
ghost use Rattle.erm_log.specs.Texts.{behind_text};

use crate::Behind;
use crate::behind::look_behind;
use crate::block_text::push_place;
use crate::blocks::{BLOCK_BYTES, push_blocks};
use erm_block::BLOCK_WORDS;
use erm_ckpt::{LOG_START, Slots, best_of, best_slots_are_of_best_checkpoints};
use erm_model::{LOG_END, Stamp};
use erm_outside::{Disk, Sink, put_all};
use erm_recover::{
    RecoverStop, SoundTest, Tail, WINDOW_BYTES, WINDOW_WORDS, recover, zero_rows_are_sound,
};
use erm_text::push_count;
use std::alloc::{AllocError, Global};

/// The status where no block reads behind the log's end.
const SHOWN: u8 = 0;

/// The status where one does.
const BLOCK_BEHIND: u8 = 1;

/// The status where the sink failed.
const SINK_FAILED: u8 = 5;

/// The status where the disk failed, or read otherwise a moment later.
const DISK_FAILED: u8 = 6;

/// The status where there is no place to start from.
const WITHOUT_BASE: u8 = 7;

/// The status where memory ran out.
const STARVED: u8 = 8;

/// A log's text, and what lies behind its end.
#[derive(Drop)]
pub struct LogText {
    /// The text.
    pub text: Vec<u8>,
    /// What lies behind.
    pub behind: Behind,
}

/// Puts the text of a disk's log, and answers the status: 0; 1 where a block reads behind the log's end; 5 where the sink failed,
/// 6 where the disk failed, 7 where there is no place to start from, 8 where memory ran out. It writes nothing to the disk.
pub fn put_log<D: Disk, K: Sink>(alloc: Global, disk: &mut D, sink: &mut K) -> u8
    ensures shown { result < 2 → IfSome (D.told disk.old) (λ steps. ShowsLog (contents steps) result (K.written sink.old) (K.written sink.new)) }
    ensures told { D.told disk.new ≡ D.told disk.old }
    ensures known { (result ≤ 1) ⊎ ((5 ≤ result) × (result ≤ 8)) }
    ensures sink { result ≡ 5 → Rose (K.faults sink.old) (K.faults sink.new) }
    ensures no_base { result ≡ 7 → NoBaseTold sound_law.meets (D.told disk.old) }

    // Where nothing was put the sink is as it was.
    ensures unput { 5 < result → K.written sink.new ≡ K.written sink.old }
    ensures untouched { 5 < result → K.faults sink.new ≡ K.faults sink.old }
{
    match log_text(alloc, disk) {
        Ok(log) => put_text(sink, &log),
        Err(RecoverStop::DiskFault) => DISK_FAILED,
        Err(RecoverStop::NoBase) => WITHOUT_BASE,
        Err(RecoverStop::Memory) => STARVED,
    }
}

// Puts a log's text, and answers the status.
fn put_text<K: Sink>(sink: &mut K, log: &LogText) -> u8
    ensures shown { result < 2 → Puts log.now.text.items (K.written sink.old) (K.written sink.new) × (result ≡ status_of log.now.behind) }
    ensures known { (result ≤ 1) ⊎ (result ≡ 5) }
    ensures sink { result ≡ 5 → Rose (K.faults sink.old) (K.faults sink.new) }
{
    match put_all(sink, &log.text) {
        Ok(()) => status_of(log.behind),
        Err(_) => SINK_FAILED,
    }
}

// The status of what lies behind.
fn status_of(behind: Behind) -> u8
    ensures { result ≡ status_of behind }
{
    match behind {
        Behind::Nothing | Behind::Noise(_) => SHOWN,
        Behind::Stands { .. } => BLOCK_BEHIND,
    }
}

/// The text of a disk's log: where its list begins, its blocks one by one with their rows, where it ends, and what lies behind. It
/// writes nothing to the disk.
pub fn log_text<D: Disk>(alloc: Global, disk: &mut D) -> Result<LogText, RecoverStop>
    ensures text { IfOk result (λ log. TextTold (D.told disk.old) log.text.items log.behind) }
    ensures no_base { result ≡ Err RecoverStop.NoBase → NoBaseTold sound_law.meets (D.told disk.old) }
    ensures told { D.told disk.new ≡ D.told disk.old }
{
    zero_rows_are_sound();
    let found = recover(alloc, disk, &SoundTest)?;
    let start = start_of(&found.slots);
    let mut text = Vec::new(alloc);
    push_place(&mut text, b"from ", start.at, start.run)?;
    push_list(alloc, disk, start, found.stamp, &mut text)?;
    push_place(&mut text, b"end ", found.stamp, found.run)?;
    let behind = find_behind(alloc, disk, found.stamp)?;
    push_behind(&mut text, behind)?;
    Ok(LogText { text, behind })
}

// Where the log list begins, by what the slots say.
fn start_of(slots: &Slots) -> Tail
    ensures { (pair : Pair) → slots.now ≡ slots_of pair → (result.at ≡ (base pair).at) × (result.run ≡ (base pair).run) }
{
    best_slots_are_of_best_checkpoints();
    match best_of(slots) {
        Some(slot) => Tail {
            at: slot.stamp,
            run: slot.run,
        },
        None => Tail {
            at: LOG_START,
            run: 0,
        },
    }
}

// Adds the texts of blocks, with buffers of its own.
fn push_list<D: Disk>(
    alloc: Global,
    disk: &mut D,
    start: Tail,
    end: Stamp,
    out: &mut Vec<u8>,
) -> Result<(), RecoverStop>
    ensures texts { OnOk result (IfSome (D.told disk.old) (λ steps. AddsChain (contents steps) start end out.old.items out.new.items)) }
    ensures another { result ≢ Err RecoverStop.NoBase }
    ensures told { D.told disk.new ≡ D.told disk.old }
{
    let mut words = vec![in alloc; 0; BLOCK_WORDS]?;
    let mut bytes = vec![in alloc; 0; BLOCK_BYTES]?;
    push_blocks(disk, start, end, out, &mut words, &mut bytes)
}

// Looks behind an end, with buffers of its own.
fn find_behind<D: Disk>(alloc: Global, disk: &mut D, end: Stamp) -> Result<Behind, RecoverStop>
    requires { end ≤ LOG_END }
    ensures lies { IfOk result (λ behind. IfSome (D.told disk.old) (λ steps. LiesBehind (words_behind (contents steps) end) end behind)) }
    ensures another { result ≢ Err RecoverStop.NoBase }
    ensures told { D.told disk.new ≡ D.told disk.old }
{
    let mut words = vec![in alloc; 0; WINDOW_WORDS]?;
    let mut bytes = vec![in alloc; 0; WINDOW_BYTES]?;
    let behind = look_behind(disk, end, &mut words, &mut bytes)?;
    Ok(behind)
}

// Adds what lies behind.
fn push_behind(out: &mut Vec<u8>, behind: Behind) -> Result<(), AllocError>
    ensures { OnOk result (out.new.items ≡ out.old.items ++ behind_text behind) }
{
    match behind {
        Behind::Nothing => out.extend_from_slice(b"behind nothing\n"),
        Behind::Noise(count) => push_noise(out, count as u64),
        Behind::Stands { at, run } => push_place(out, b"behind block ", at, run),
    }
}

// Adds how many words lie behind in which no block reads.
fn push_noise(out: &mut Vec<u8>, count: u64) -> Result<(), AllocError>
    ensures { OnOk result (out.new.items ≡ out.old.items ++ (codes "behind words " ++ decimal count ++ 10 ∷ [])) }
{
    push_count(out, b"behind words ", count)?;
    out.extend_from_slice(b"\n")
}
