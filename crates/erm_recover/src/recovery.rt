//! Recovery of a disk.
ghost use Rattle.std.specs.Prelude.{◌≡◌, ◌≢◌, ◌*◌, ◌<◌, ◌≤◌, [], length, vec_len, IfOk, OnOk, Err};
ghost use Rattle.erm_model.specs.Rows.{rows_of};
ghost use Rattle.erm_outside.specs.Faults.{Rose};
ghost use Rattle.erm_block.specs.declared.block.TheConstants.{RUN_END};
ghost use Rattle.erm_ckpt.specs.Checkpoint.{zero_rows};
ghost use Rattle.erm_recover.specs.Lists.{IsWithin};
ghost use Rattle.erm_recover.specs.Recovering.{AreSlots, BaseChecked, BaseLacks, Begins, FoundRead, NoBaseTold, RecoveredTold, SlotsRead, SlotsSound, SlotsTold};

use crate::slots::{begin, has_base, read_slot_of};
use crate::{
    RecoverStop, Recovered, ReplaceTest, SLOT_BYTES, Tail, WINDOW_BYTES, WINDOW_WORDS, read_list,
};
use erm_ckpt::{LOG_START, SLOT_WORDS, Slots};
use erm_model::{Commit, LOG_END, OID_LIMIT, ROW_WORDS, Row};
use erm_outside::{Disk, File};
use std::alloc::{AllocError, Global};

// What the slots say, where recovery began and where it ended.
#[derive(Clone, Copy)]
pub(crate) struct Found {
    slots: Slots,
    start: Tail,
    end: Tail,
}

// Where no slot says anything, asks for a whole log.
fn check_base<D: Disk>(disk: &mut D, slots: &Slots) -> Result<(), RecoverStop>
    ensures based { OnOk result (BaseChecked slots.now (D.told disk.old)) }
    ensures no_base { result ≡ Err RecoverStop.NoBase → BaseLacks slots.now (D.told disk.old) }
    ensures told { D.told disk.new ≡ D.told disk.old }
    ensures sound { result ≢ Err RecoverStop.DiskFault → D.faults disk.new ≡ D.faults disk.old }
    ensures fault { result ≡ Err RecoverStop.DiskFault → Rose (D.faults disk.old) (D.faults disk.new) }
{
    if slots.slot0.is_some() || slots.slot1.is_some() {
        return Ok(());
    }
    let whole = has_base(disk)?;
    if whole {
        Ok(())
    } else {
        Err(RecoverStop::NoBase)
    }
}

// Reads both slots, and the rows of each, and asks for a whole log where none checks.
fn read_slots<D: Disk, T: ReplaceTest>(
    disk: &mut D,
    test: &T,
    rows: &mut [Row],
    other: &mut [Row],
    words: &mut [u64],
    bytes: &mut [u8],
) -> Result<Slots, RecoverStop>
    requires count { length rows.old ≡ OID_LIMIT }
    requires count_other { length other.old ≡ OID_LIMIT }
    requires words { length words.old ≡ SLOT_WORDS }
    requires bytes { length bytes.old ≡ SLOT_BYTES }
    ensures shown { SlotsRead T.law.meets result (D.told disk.old) rows.new other.new }
    ensures are { SlotsSound T.law.meets result rows.new other.new }
    ensures no_base { result ≡ Err RecoverStop.NoBase → NoBaseTold T.law.meets (D.told disk.old) }
    ensures told { D.told disk.new ≡ D.told disk.old }
    ensures sound { result ≢ Err RecoverStop.DiskFault → D.faults disk.new ≡ D.faults disk.old }
    ensures fault { result ≡ Err RecoverStop.DiskFault → Rose (D.faults disk.old) (D.faults disk.new) }
{
    T::respects_rows();
    let slot0 = read_slot_of(disk, test, File::Slot0, rows, words, bytes)?;
    let slot1 = read_slot_of(disk, test, File::Slot1, other, words, bytes)?;
    let slots = Slots { slot0, slot1 };
    check_base(disk, &slots)?;
    Ok(slots)
}

// Where recovery begins, with sound rows.
fn begin_soundly<T: ReplaceTest>(slots: &Slots, rows: &mut [Row], other: &[Row], _test: &T) -> Tail
    requires count { length rows.old ≡ OID_LIMIT }
    requires count_other { length other.now ≡ OID_LIMIT }
    requires are { AreSlots T.law.meets slots.now rows.old other.now }
    requires zero { T.law.meets zero_rows }
    ensures begins { Begins slots.now.slot0 slots.now.slot1 rows.old other.now result rows.new }
    ensures meets { T.law.meets (rows_of rows.new) }
    ensures within { IsWithin result }
    ensures low { LOG_START ≤ result.at }
{
    T::respects_rows();
    begin(slots, rows, other)
}

// Takes the rows of the best slot, and those of the log list from there on, and notes its commits.
fn recover_list<D: Disk, T: ReplaceTest>(
    disk: &mut D,
    test: &T,
    slots: Slots,
    rows: &mut [Row],
    other: &[Row],
    commits: &mut Vec<Commit>,
    words: &mut [u64],
    bytes: &mut [u8],
) -> Result<Found, RecoverStop>
    requires count { length rows.old ≡ OID_LIMIT }
    requires count_other { length other.now ≡ OID_LIMIT }
    requires shown { SlotsTold T.law.meets (D.told disk.old) slots rows.old other.now }
    requires are { AreSlots T.law.meets slots rows.old other.now }
    requires none { commits.old.items ≡ [] }
    requires words { length words.old ≡ WINDOW_WORDS }
    requires bytes { length bytes.old ≡ WINDOW_BYTES }
    requires zero { T.law.meets zero_rows }
    ensures found { FoundRead T.law.meets result (D.told disk.old) rows.new commits.new.items }
    ensures meets { OnOk result (T.law.meets (rows_of rows.new)) }
    ensures low { IfOk result (λ found. LOG_START ≤ found.start.at) }
    ensures above { IfOk result (λ found. found.start.at ≤ found.end.at) }
    ensures within { IfOk result (λ found. IsWithin found.end) }
    ensures told { D.told disk.new ≡ D.told disk.old }
    ensures sound { result ≢ Err RecoverStop.DiskFault → D.faults disk.new ≡ D.faults disk.old }
    ensures fault { result ≡ Err RecoverStop.DiskFault → Rose (D.faults disk.old) (D.faults disk.new) }
    ensures based { result ≢ Err RecoverStop.NoBase }
{
    T::respects_rows();
    let start = begin_soundly(&slots, rows, other, test);
    let end = read_list(disk, test, start, rows, commits, words, bytes)?;
    Ok(Found { slots, start, end })
}

/// Recovers what a disk holds: the rows of its best slot, then those of the log list from the slot's place on, block after block
/// while the rows meet the law; with no slot that checks, the log list from its start on. It writes nothing. A block that doesn't
/// read ends the list; that is no fault.
pub fn recover<D: Disk, T: ReplaceTest>(
    alloc: Global,
    disk: &mut D,
    test: &T,
) -> Result<Recovered, RecoverStop>
    // The law is met by rows that are all zero.
    requires zero { T.law.meets zero_rows }
    ensures recovered { IfOk result (λ recovered. RecoveredTold T.law.meets (D.told disk.old) recovered) }
    ensures no_base { result ≡ Err RecoverStop.NoBase → NoBaseTold T.law.meets (D.told disk.old) }
    ensures count { IfOk result (λ recovered. length recovered.rows.items ≡ OID_LIMIT) }
    ensures meets { IfOk result (λ recovered. T.law.meets (rows_of recovered.rows.items)) }
    ensures low { IfOk result (λ recovered. LOG_START ≤ recovered.base) }
    ensures above { IfOk result (λ recovered. recovered.base ≤ recovered.stamp) }
    ensures end { IfOk result (λ recovered. recovered.stamp ≤ LOG_END) }
    ensures run { IfOk result (λ recovered. recovered.run < RUN_END) }
    ensures told { D.told disk.new ≡ D.told disk.old }

    // The disk's count of faults rises exactly where it failed.
    ensures sound { result ≢ Err RecoverStop.DiskFault → D.faults disk.new ≡ D.faults disk.old }
    ensures fault { result ≡ Err RecoverStop.DiskFault → Rose (D.faults disk.old) (D.faults disk.new) }
{
    let mut rows = zero_array(alloc, OID_LIMIT as usize)?;
    let mut other = zero_array(alloc, OID_LIMIT as usize)?;
    let slots = find_slots(alloc, disk, test, &mut rows, &mut other)?;
    let mut words = zero_words(alloc, WINDOW_WORDS)?;
    let mut bytes = zero_bytes(alloc, WINDOW_BYTES)?;
    let mut commits = Vec::new(alloc);
    let found = recover_list(
        disk,
        test,
        slots,
        &mut rows,
        &other,
        &mut commits,
        &mut words,
        &mut bytes,
    )?;
    Ok(Recovered {
        rows,
        stamp: found.end.at,
        run: found.end.run,
        base: found.start.at,
        commits,
        slots: found.slots,
    })
}

// Reads both slots, with buffers of its own.
fn find_slots<D: Disk, T: ReplaceTest>(
    alloc: Global,
    disk: &mut D,
    test: &T,
    rows: &mut [Row],
    other: &mut [Row],
) -> Result<Slots, RecoverStop>
    requires count { length rows.old ≡ OID_LIMIT }
    requires count_other { length other.old ≡ OID_LIMIT }
    ensures shown { SlotsRead T.law.meets result (D.told disk.old) rows.new other.new }
    ensures are { SlotsSound T.law.meets result rows.new other.new }
    ensures no_base { result ≡ Err RecoverStop.NoBase → NoBaseTold T.law.meets (D.told disk.old) }
    ensures told { D.told disk.new ≡ D.told disk.old }
    ensures sound { result ≢ Err RecoverStop.DiskFault → D.faults disk.new ≡ D.faults disk.old }
    ensures fault { result ≡ Err RecoverStop.DiskFault → Rose (D.faults disk.old) (D.faults disk.new) }
{
    let mut words = zero_words(alloc, SLOT_WORDS)?;
    let mut bytes = zero_bytes(alloc, SLOT_BYTES)?;
    read_slots(disk, test, rows, other, &mut words, &mut bytes)
}

// So many rows.
fn zero_array(alloc: Global, count: usize) -> Result<Vec<Row>, AllocError>
    ensures { IfOk result (λ rows. vec_len rows ≡ count) }
{
    vec![in alloc; [0; ROW_WORDS]; count]
}

// So many words.
fn zero_words(alloc: Global, count: usize) -> Result<Vec<u64>, AllocError>
    ensures { IfOk result (λ words. vec_len words ≡ count) }
{
    vec![in alloc; 0; count]
}

// So many bytes.
fn zero_bytes(alloc: Global, count: usize) -> Result<Vec<u8>, AllocError>
    ensures { IfOk result (λ bytes. vec_len bytes ≡ count) }
{
    vec![in alloc; 0; count]
}
