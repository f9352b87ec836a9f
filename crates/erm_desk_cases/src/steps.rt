//! Steps of a desk that takes checkpoints, and of two sessions beside it, on one thread.
ghost use Rattle.std.specs.Prelude.{◌≡◌, ◌≤◌, IfOk, None, false, vec_len};
ghost use Rattle.erm_engine.specs.Opened.{AreNew, IsOpened};
ghost use Rattle.erm_model.specs.RowTransaction.{any_law};
ghost use Rattle.erm_model.specs.declared.limits.TheConstants.{OID_LIMIT};
ghost use Rattle.erm_rule.specs.declared.view.Opening.{Opening as OpeningOf};
ghost use Rattle.erm_rule.specs.Openings.{start_of};
ghost use Rattle.erm_shared_session.specs.Stands.{Stands};

use erm_beside::SharedSession;
use erm_checkpoint::{CheckpointStop, Checkpointer};
use erm_ckpt::{RowTest, Slot, Slots};
use erm_desk::Naming;
use erm_desk_checkpoint::CheckpointDesk;
use erm_engine::{Opened, leave, open};
use erm_flush::{FlushStop, Flusher};
use erm_model::{AnyRows, OID_LIMIT, Oid, Outcome, Phase, ROW_WORDS, Row, RowLaw, Seat, Stamp};
use erm_outside::Disk;
use erm_outside_mem::{MemDisk, Pick, Silent};
use erm_recover::{ReplaceTest, open_log, recover};
use erm_rule::{Opening, Table};
use erm_shared_session::TableSession;
use std::alloc::{AllocError, Global};
use std::collections::BTreeMap;
use std::marker::Brand;
use std::test::Fail;

/// So many calls of an empty disk open its log.
pub const OPENING: u64 = 13;

// Where the log goes on once it is opened, and in which run.
const TAIL: Stamp = 13;

const RUN: u64 = 1;

// How many bytes a write that fails leaves: less than a block or a slot has.
const TORN: usize = 20;

// The two objects that are written.
const FIRST: Oid = 16;

const SECOND: Oid = 17;

// The first object that isn't made.
const FREE: Oid = 32;

// No law of rows.
struct Lawless;

impl RowLaw for Lawless {
    ghost law = { any_law };

    fn respects_rows() {}
}

impl RowTest for Lawless {
    fn test(&self, rows: &[Row]) -> bool {
        rows.len() == OID_LIMIT as usize
    }
}

impl ReplaceTest for Lawless {
    fn may_replace(&self, _before: &Row, _after: &Row) -> bool {
        true
    }
}

/// What is asked.
#[derive(Clone, Copy)]
pub enum Ask {
    /// The session of this seat, 1 or 2, begins, sets the first word of an object of its own, and seals. One of these words that isn't 0
    /// takes seven words of the log.
    Seal(Seat, u64),
    /// It decides what is sealed.
    Settle(Seat),
    /// Both.
    Commit(Seat, u64),
    /// A flush turn.
    Turn,
    /// A checkpoint turn.
    Checkpoint,
    /// What a crash would leave is recovered.
    Crash(Pick),
}

/// What is recovered.
#[derive(Clone, Copy, PartialEq, Eq)]
pub struct Found {
    /// The stamps that the two slots say.
    pub slots: [Option<Stamp>; 2],
    /// Where recovery began.
    pub base: Stamp,
    /// The end of the log.
    pub stamp: Stamp,
    /// The first words of the two sessions' objects.
    pub words: [u64; 2],
}

/// What is answered.
#[derive(Clone, Copy, PartialEq, Eq)]
pub enum Told {
    /// Whether a session did it.
    Did(bool),
    Turned(Result<Stamp, FlushStop>),
    Saved(Result<Stamp, CheckpointStop>),
    Left(Found),
}

/// What is asked, and what is to be answered.
pub type Step = (Ask, Told);

// Begins, sets a word and seals, where the session is idle.
fn seal(table: &Table<AnyRows>, session: &mut TableSession<AnyRows>, oid: Oid, word: u64) -> bool
    requires stands { Stands any_law table.now session.old }
    ensures stands { Stands any_law table.now session.new }
{
    let Phase::Idle = session.phase(table) else {
        return false;
    };
    if oid >= OID_LIMIT {
        return false;
    }
    if session.begin(table).is_err() {
        return false;
    }
    let Phase::Active = session.phase(table) else {
        return false;
    };
    let mut row = [0; ROW_WORDS];
    row[0] = word;
    if session.write(table, oid, &row).is_err() {
        return false;
    }
    let Phase::Active = session.phase(table) else {
        return false;
    };
    session.seal(table);
    true
}

// Decides, where the session is sealed: whether it commits.
fn settle(table: &Table<AnyRows>, session: &mut TableSession<AnyRows>) -> bool
    requires stands { Stands any_law table.now session.old }
    ensures stands { Stands any_law table.now session.new }
{
    let Phase::Sealed = session.phase(table) else {
        return false;
    };
    match session.settle(table) {
        Ok(Outcome::Committed(_)) => true,
        _ => false,
    }
}

// What a session does that is asked.
fn do_session(
    table: &Table<AnyRows>,
    session: &mut TableSession<AnyRows>,
    oid: Oid,
    ask: Ask,
) -> bool
    requires stands { Stands any_law table.now session.old }
    ensures stands { Stands any_law table.now session.new }
{
    match ask {
        Ask::Seal(_, word) => seal(table, session, oid, word),
        Ask::Settle(_) => settle(table, session),
        Ask::Commit(_, word) => seal(table, session, oid, word) && settle(table, session),
        _ => false,
    }
}

// What is recovered of a crash, if something is.
fn crash(alloc: Global, disk: &Silent<MemDisk>, pick: Pick) -> Option<Told> {
    let disk = disk.disk.image(pick).ok()?;
    let found = recover(alloc, &mut Silent { disk }, &Lawless).ok()?;
    Some(Told::Left(Found {
        slots: [stamp_of(found.slots.slot0), stamp_of(found.slots.slot1)],
        base: found.base,
        stamp: found.stamp,
        words: [
            found.rows[FIRST as usize][0],
            found.rows[SECOND as usize][0],
        ],
    }))
}

// The stamp that a slot says.
fn stamp_of(slot: Option<Slot>) -> Option<Stamp> {
    match slot {
        Some(slot) => Some(slot.stamp),
        None => None,
    }
}

// A desk is taken apart, and put together of its parts, beside what is recovered of its disk meanwhile.
fn crash_apart<B: Naming>(
    alloc: Global,
    desk: CheckpointDesk<AnyRows, Silent<MemDisk>, B>,
    pick: Pick,
) -> (CheckpointDesk<AnyRows, Silent<MemDisk>, B>, Option<Told>)
    requires run { RUN ≡ B.start.run }
{
    let (flusher, disk, pass, checkpointer, slots) = desk.into_parts();
    let left = crash(alloc, &disk, pick);
    let desk = CheckpointDesk::of_parts(flusher, disk, pass, checkpointer, slots, RUN);
    (desk, left)
}

// What the session of a seat does that is asked.
fn do_seat(
    table: &Table<AnyRows>,
    first: &mut TableSession<AnyRows>,
    second: &mut TableSession<AnyRows>,
    seat: Seat,
    ask: Ask,
) -> bool
    requires first { Stands any_law table.now first.old }
    requires second { Stands any_law table.now second.old }
    ensures first { Stands any_law table.now first.new }
    ensures second { Stands any_law table.now second.new }
{
    if seat == 1 {
        return do_session(table, first, FIRST, ask);
    }
    do_session(table, second, SECOND, ask)
}

// A step of a desk and two sessions: what is answered, if something is. The desk comes back.
fn step<B: Naming>(
    alloc: Global,
    table: &Table<AnyRows>,
    first: &mut TableSession<AnyRows>,
    second: &mut TableSession<AnyRows>,
    mut desk: CheckpointDesk<AnyRows, Silent<MemDisk>, B>,
    ask: Ask,
) -> (CheckpointDesk<AnyRows, Silent<MemDisk>, B>, Option<Told>)
    requires table { table.now.words.shared.table_id ≡ B.table }
    requires run { RUN ≡ B.start.run }
    requires first { Stands any_law table.now first.old }
    requires second { Stands any_law table.now second.old }
    ensures first { Stands any_law table.now first.new }
    ensures second { Stands any_law table.now second.new }
{
    match ask {
        Ask::Turn => {
            let told = Told::Turned(desk.turn(table));
            (desk, Some(told))
        }
        Ask::Checkpoint => {
            let told = Told::Saved(desk.checkpoint_turn(table));
            (desk, Some(told))
        }
        Ask::Crash(pick) => crash_apart(alloc, desk, pick),
        Ask::Seal(seat, _) | Ask::Settle(seat) | Ask::Commit(seat, _) => {
            let did = do_seat(table, first, second, seat, ask);
            (desk, Some(Told::Did(did)))
        }
    }
}

// The first two sessions of a table that was just opened.
fn two_of(
    _table: &Table<AnyRows>,
    sessions: Vec<TableSession<AnyRows>>,
) -> (TableSession<AnyRows>, TableSession<AnyRows>)
    requires new { (o : OpeningOf) × AreNew any_law _table.now o 2 sessions.items }
    ensures first { Stands any_law _table.now result.0 }
    ensures second { Stands any_law _table.now result.1 }
{
    let mut left = sessions.into_iter();
    let Some(first) = left.next() else {
        unreachable!();
    };
    let Some(second) = left.next() else {
        unreachable!();
    };
    left.destroy_empty();
    (first, second)
}

// Takes the steps up to one of which the answer is another: its place. The desk comes back.
fn take_steps<B: Naming>(
    alloc: Global,
    table: &Table<AnyRows>,
    first: &mut TableSession<AnyRows>,
    second: &mut TableSession<AnyRows>,
    mut desk: CheckpointDesk<AnyRows, Silent<MemDisk>, B>,
    steps: &[Step],
) -> (CheckpointDesk<AnyRows, Silent<MemDisk>, B>, Option<usize>)
    requires table { table.now.words.shared.table_id ≡ B.table }
    requires run { RUN ≡ B.start.run }
    requires first { Stands any_law table.now first.old }
    requires second { Stands any_law table.now second.old }
    ensures first { Stands any_law table.now first.new }
    ensures second { Stands any_law table.now second.new }
{
    for place in 0..steps.len() {
        let (ask, want) = steps[place];
        let (back, told) = step(alloc, table, first, second, desk, ask);
        desk = back;
        if told != Some(want) {
            return (desk, Some(place));
        }
    }
    (desk, None)
}

// Sets a desk up beside two sessions, takes the steps up to one of which the answer is another, and gives the sessions up: its place.
fn take<B: Naming>(
    alloc: Global,
    _opening: &Opening,
    opened: Opened<AnyRows>,
    flusher: Flusher,
    disk: Silent<MemDisk>,
    checkpointer: Checkpointer,
    slots: Slots,
    steps: &[Step],
) -> Option<usize>
    requires opened { IsOpened any_law _opening.now 2 opened }
    requires new { flusher ≡ false }
    requires tail { _opening.now.tail ≡ TAIL }
    requires run { _opening.now.run ≡ RUN }
    requires table { opened.table.words.shared.table_id ≡ B.table }
    requires start { start_of _opening.now ≡ B.start }
    requires began { B.began ≡ None }
    requires faults { ⟦<Silent<MemDisk> as Disk>⟧.faults disk ≡ B.faults }
{
    let Opened {
        table,
        sessions,
        idle: _,
        flush,
    } = opened;
    let (mut first, mut second) = two_of(&table, sessions);
    let desk = CheckpointDesk::<AnyRows, Silent<MemDisk>, B>::with(
        flusher,
        disk,
        flush,
        checkpointer,
        slots,
        RUN,
    );
    let (desk, other) = take_steps(alloc, &table, &mut first, &mut second, desk, steps);
    let (_, _, mut flush, _, _) = desk.into_parts();
    leave(&table, &mut flush, first);
    leave(&table, &mut flush, second);
    other
}

// The opening of the log of an empty disk, whose slots say nothing.
fn opened_log(alloc: Global, disk: &mut Silent<MemDisk>) -> Result<(Opening, Slots), Fail>
    ensures none { IfOk result (λ r. r.0.sessions ≡ 0) }
    ensures tail { IfOk result (λ r. r.0.tail ≡ TAIL) }
    ensures run { IfOk result (λ r. r.0.run ≡ RUN) }
    ensures first { IfOk result (λ r. r.0.first ≤ OID_LIMIT) }
    ensures rows { IfOk result (λ r. vec_len r.0.rows ≡ OID_LIMIT) }
{
    let Ok(found) = recover(alloc, disk, &Lawless) else {
        return Err(Fail::new("the disk recovers to nothing"));
    };
    let Ok(tail) = open_log::<Silent<MemDisk>, AnyRows>(disk, &found) else {
        return Err(Fail::new("the log isn't opened"));
    };
    if tail != TAIL || found.run != 0 {
        return Err(Fail::new("the disk wasn't empty"));
    }
    let opening = Opening {
        sessions: 0,
        tail: TAIL,
        run: RUN,
        first: FREE,
        rows: found.rows,
    };
    Ok((opening, found.slots))
}

// An empty disk, of which this call fails and leaves the front of what it was to write.
fn failing(alloc: Global, call: u64) -> Result<Silent<MemDisk>, AllocError> {
    let mut fronts = BTreeMap::new(alloc);
    fronts.insert(call, TORN)?;
    let disk = MemDisk::new(alloc)
        .failing(vec![in alloc; call; 1]?)
        .leaving(fronts);
    Ok(Silent { disk })
}

/// Takes the steps of a desk and two sessions on an empty disk, of which this call fails: none where its number is 0. It answers the place of the
/// first step that isn't answered so.
pub fn first_other(alloc: Global, call: u64, steps: &[Step]) -> Result<Option<usize>, Fail> {
    let mut disk = failing(alloc, call)?;
    let (opening, slots) = opened_log(alloc, &mut disk)?;
    let flusher = Flusher::new(alloc)?;
    let checkpointer = Checkpointer::new(alloc)?;
    let opened = open::<AnyRows>(alloc, &opening, 2)?;
    Ok(take::<Brand>(
        alloc,
        &opening,
        opened,
        flusher,
        disk,
        checkpointer,
        slots,
        steps,
    ))
}
