//! What a slot says of its checkpoint, which of two is the best, and what the next checkpoint writes and removes.
ghost use Rattle.std.specs.Prelude.{◌≡◌, ◌↔◌, IsTrue};
ghost use Rattle.erm_ckpt.specs.Checkpoint.{IsSlot};
ghost use Rattle.erm_ckpt.specs.Slots.{best_of, first_left, next_first, other_of, put_slot, removal_end, segment_of};

use erm_model::{LAST_RUN, LOG_END, OID_LIMIT, ROW_WORDS, SEGMENT_WORDS, Stamp};
use erm_outside::File;

/// Where the log begins: the words before are never written or read.
pub const LOG_START: Stamp = 8;

/// How many words a slot has before its rows.
pub const SLOT_HEAD: usize = 5;

/// The most words that a slot has.
pub const SLOT_WORDS: usize = SLOT_HEAD + (1 + ROW_WORDS) * OID_LIMIT as usize + 1;

/// What a slot says of its checkpoint.
#[derive(Clone, Copy, Debug, PartialEq, Eq)]
pub struct Slot {
    /// The place of the log as of which its rows are.
    pub stamp: Stamp,
    /// The run of the last block before it, from 1.
    pub run: u64,
    /// The first segment that was to be removed after it was written.
    pub first: u64,
}

/// The two slots: what each says, where it checks.
#[derive(Clone, Copy, Debug, PartialEq, Eq)]
pub struct Slots {
    /// The first one.
    pub slot0: Option<Slot>,
    /// The second one.
    pub slot1: Option<Slot>,
}

/// Whether a slot may say this.
pub fn is_slot(slot: &Slot) -> bool
    ensures { IsTrue result ↔ IsSlot slot.now }
{
    (LOG_START..=LOG_END).contains(&slot.stamp)
        && (1..=LAST_RUN).contains(&slot.run)
        && slot.first <= segment_of(slot)
}

/// The segment of a slot's place.
pub fn segment_of(slot: &Slot) -> u64
    ensures { result ≡ segment_of slot.now }
{
    slot.stamp / SEGMENT_WORDS
}

/// The best slot: the one that checks with the greater stamp, the first where they are equal.
pub fn best_of(slots: &Slots) -> Option<Slot>
    ensures { result ≡ best_of slots.now }
{
    match (slots.slot0, slots.slot1) {
        (Some(a), Some(b)) if a.stamp < b.stamp => Some(b),
        (Some(a), _) => Some(a),
        (None, b) => b,
    }
}

/// The file that the next checkpoint writes: that of the slot that isn't the best, the first where none checks.
pub fn other_of(slots: &Slots) -> File
    ensures { result ≡ other_of slots.now }
{
    match (slots.slot0, slots.slot1) {
        (Some(a), Some(b)) if a.stamp < b.stamp => File::Slot0,
        (Some(_), _) => File::Slot1,
        (None, _) => File::Slot0,
    }
}

/// The first segment that the slot of the next checkpoint names: none below is there, but for removals that a stop cut off. For those the
/// checkpoint itself removes from segment 0 on.
pub fn next_first(slots: &Slots) -> u64
    ensures { result ≡ next_first slots.now }
{
    match (slots.slot0, slots.slot1) {
        (Some(a), Some(b)) if a.stamp < b.stamp => b.first.max(segment_of(&a)),
        (Some(a), Some(b)) => a.first.max(segment_of(&b)),
        (Some(only), None) | (None, Some(only)) => only.first,
        (None, None) => 0,
    }
}

/// The first segment behind those that the next checkpoint removes: that of the best slot's place.
pub fn removal_end(slots: &Slots) -> u64
    ensures { result ≡ removal_end slots.now }
{
    match best_of(slots) {
        Some(slot) => segment_of(&slot),
        None => 0,
    }
}

/// Puts the slot of a checkpoint that was written in the place of the one that isn't the best.
pub fn put_slot(slots: &mut Slots, slot: Slot)
    ensures { slots.new ≡ put_slot slots.old slot }
{
    match other_of(slots) {
        File::Slot0 => slots.slot0 = Some(slot),
        _ => slots.slot1 = Some(slot),
    }
}
