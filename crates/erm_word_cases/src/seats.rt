ghost use Rattle.std.specs.Prelude.{◌≡◌, ◌≢◌, ◌+◌, ◌<◌, ◌≤◌, ◌⊎◌, true, vec_len, IfOk, IfNone, IfSome};
ghost use Rattle.erm_machine.specs.Words.{is_session};
ghost use Rattle.erm_rule.specs.Rule.{rest_view};
ghost use Rattle.erm_rule.specs.Steps.{Fits};
ghost use Rattle.erm_rule.specs.Views.{view, one_seat};
ghost use Rattle.erm_seats.specs.Race.{idle_part, HasRun, HasStopped, HaveRaced};

use erm_machine::{FLUSH_SEAT, GREATEST_BLOCK, LEAST_BLOCK, OBJECT_LIMIT, STOP};
use erm_model::{AnyRows, ROW_WORDS, Seat, Stamp};
use erm_rule::{Opening, Pass, close, join, open, sessions_are_handed_out, split};
use erm_seats::answer::{BeginStop, Look};
use erm_seats::{begin_steps, look, seal_steps};
use std::alloc::{AllocError, Global};
use std::test::Fail;
use std::thread;
use std::thread::Threads;

/// A table whose rows may be any.
pub type Table = erm_rule::Table<AnyRows>;

/// An opening of run 1 on rows of zeros, whose log begins at this tail.
pub fn opening_at(alloc: Global, tail: Stamp) -> Result<Opening, AllocError>
    ensures none { IfOk result (λ o. o.sessions ≡ 0) }
    ensures run { IfOk result (λ o. o.run ≡ 1) }
    ensures tail { IfOk result (λ o. o.tail ≡ tail) }
    ensures first { IfOk result (λ o. o.first ≤ OBJECT_LIMIT) }
    ensures rows { IfOk result (λ o. vec_len o.rows ≡ OBJECT_LIMIT) }
{
    let rows = vec![in alloc; [0; ROW_WORDS]; OBJECT_LIMIT as usize]?;
    Ok(Opening {
        sessions: 0,
        tail,
        run: 1,
        first: 16,
        rows,
    })
}

/// A table, the pass that is left, and the passes of sessions 1 and 2.
pub fn open_two(alloc: Global, opening: &Opening) -> Result<(Table, Pass, Pass, Pass), AllocError>
    requires none { opening.now.sessions ≡ 0 }
    requires positive { 0 < opening.now.tail }
    requires low { opening.now.tail ≤ STOP + 4 }
    requires first { opening.now.first ≤ OBJECT_LIMIT }
    requires rows { vec_len opening.now.rows ≡ OBJECT_LIMIT }
    ensures key { IfOk result (λ t. t.0.words.shared.key ≡ opening.now) }
    ensures fits { IfOk result (λ t. Fits t.0.words.shared.table_id t.1 × Fits t.0.words.shared.table_id t.2 × Fits t.0.words.shared.table_id t.3) }
    ensures rest { IfOk result (λ t. view t.1 ≡ rest_view opening.now 2) }
    ensures first { IfOk result (λ t. view t.2 ≡ one_seat 1 (idle_part opening.now)) }
    ensures second { IfOk result (λ t. view t.3 ≡ one_seat 2 (idle_part opening.now)) }
{
    sessions_are_handed_out();
    let (table, mut rest) = open(alloc, opening)?;
    let first = split(&table, &mut rest);
    let second = split(&table, &mut rest);
    Ok((table, rest, first, second))
}

// What a session did: its pass, its begin stamp, its commit stamp, and what it found of the other session.
type Ran = (Pass, Stamp, Stamp, Look);

// A session begins, seals and looks at the other one, as a settle does. It doesn't begin where the log ends.
fn run(
    t: &Table,
    mut pass: Pass,
    opening: &Opening,
    who: Seat,
    other: Seat,
    size: u64,
) -> Option<Ran>
    requires fits { Fits t.now.words.shared.table_id pass }
    requires idle { view pass ≡ one_seat who (idle_part opening.now) }
    requires sessions { (is_session who ≡ true) × (is_session other ≡ true) × (other ≢ who) }
    requires least { LEAST_BLOCK ≤ size }
    requires greatest { size ≤ GREATEST_BLOCK }
    ensures fits { IfSome result (λ r. Fits t.now.words.shared.table_id r.0) }
    ensures ran { IfSome result (λ r. HasRun opening.now who other size r.1 r.2 r.3 (view r.0)) }
    ensures stopped { IfNone result (HasStopped opening.now who) }
{
    let begin = begin_steps(t, &mut pass, who).ok()?;
    let stamp = seal_steps(t, &mut pass, who, size);
    let answer = look(t, &mut pass, who, other, stamp);
    Some((pass, begin, stamp, answer))
}

// What both did, and the tail in the end.
type Raced = (Stamp, (Stamp, Stamp, Look), (Stamp, Stamp, Look));

// Sessions 1 and 2 begin, seal and look at each other, side by side.
fn race<R: Threads + Sync>(
    rt: &R,
    alloc: Global,
    opening: &Opening,
    size: u64,
) -> Result<Option<Raced>, AllocError>
    requires none { opening.now.sessions ≡ 0 }
    requires positive { 0 < opening.now.tail }
    requires low { opening.now.tail ≤ STOP + 4 }
    requires first { opening.now.first ≤ OBJECT_LIMIT }
    requires rows { vec_len opening.now.rows ≡ OBJECT_LIMIT }
    requires least { LEAST_BLOCK ≤ size }
    requires greatest { size ≤ GREATEST_BLOCK }
    ensures raced { IfOk result (λ o. IfSome o (λ r. HaveRaced opening.now size r.0 r.1.0 r.1.1 r.1.2 r.2.0 r.2.1 r.2.2)) }
    ensures stopped { IfOk result (λ o. IfNone o (HasStopped opening.now 1 ⊎ HasStopped opening.now 2)) }
{
    let (table, mut rest, first, second) = open_two(alloc, opening)?;
    let t = &table;
    let (one, two) = thread::join(
        rt,
        move ||
            requires { Fits t.now.words.shared.table_id first × (view first ≡ one_seat 1 (idle_part opening.now)) × (LEAST_BLOCK ≤ size) × (size ≤ GREATEST_BLOCK) }
            ensures { IfSome result (λ r. Fits t.entry.now.words.shared.table_id r.0 × HasRun opening.entry.now 1 2 size r.1 r.2 r.3 (view r.0)) × IfNone result (HasStopped opening.entry.now 1) }
        { run(t, first, opening, 1, 2, size) },
        move ||
            requires { Fits t.now.words.shared.table_id second × (view second ≡ one_seat 2 (idle_part opening.now)) × (LEAST_BLOCK ≤ size) × (size ≤ GREATEST_BLOCK) }
            ensures { IfSome result (λ r. Fits t.entry.now.words.shared.table_id r.0 × HasRun opening.entry.now 2 1 size r.1 r.2 r.3 (view r.0)) × IfNone result (HasStopped opening.entry.now 2) }
        { run(t, second, opening, 2, 1, size) },
    );
    let Some((first, begin, stamp, answer)) = one else {
        return Ok(None);
    };
    let Some((second, begin_too, stamp_too, answer_too)) = two else {
        return Ok(None);
    };
    join(t, &mut rest, first);
    join(t, &mut rest, second);
    let tail = close(table, rest);
    let ran = (begin, stamp, answer);
    let ran_too = (begin_too, stamp_too, answer_too);
    Ok(Some((tail, ran, ran_too)))
}

// Session 1 seals; session 2 begins after it, and looks at it above its stamp and at it.
fn look_at_sealed(
    t: &Table,
    mut first: Pass,
    mut second: Pass,
    opening: &Opening,
) -> Option<(Stamp, Stamp, Stamp, Look, Look)>
    requires fits { Fits t.now.words.shared.table_id first × Fits t.now.words.shared.table_id second }
    requires first { view first ≡ one_seat 1 (idle_part opening.now) }
    requires second { view second ≡ one_seat 2 (idle_part opening.now) }
{
    let begin = begin_steps(t, &mut first, 1).ok()?;
    let stamp = seal_steps(t, &mut first, 1, 22);
    let late = begin_steps(t, &mut second, 2).ok()?;
    if late < 14 {
        return None;
    }
    let above = look(t, &mut second, 2, 1, 14);
    let at = look(t, &mut second, 2, 1, 13);
    Some((begin, stamp, late, above, at))
}

// A session begins, and the flush seat too.
fn begin_both(
    t: &Table,
    mut rest: Pass,
    mut first: Pass,
    opening: &Opening,
) -> (Result<Stamp, BeginStop>, Result<Stamp, BeginStop>)
    requires fits { Fits t.now.words.shared.table_id rest × Fits t.now.words.shared.table_id first }
    requires rest { view rest ≡ rest_view opening.now 2 }
    requires first { view first ≡ one_seat 1 (idle_part opening.now) }
{
    let session = begin_steps(t, &mut first, 1);
    let pin = begin_steps(t, &mut rest, FLUSH_SEAT);
    (session, pin)
}

#[test]
fn looks_at_a_sealed_session(rt: HostRuntime) -> Result<(), Fail> {
    let opening = opening_at(rt.alloc(), 13)?;
    let (table, _rest, first, second) = open_two(rt.alloc(), &opening)?;
    let found = look_at_sealed(&table, first, second, &opening);
    let waits = Look::NotYet { seat: 1, seen: 13 };
    assert_eq!(rt; found, Some((13, 13, 35, waits, Look::Clear)));
    Ok(())
}

// What a begin of session 1, and one of the flush seat, answer where the log is opened at this tail.
type Begun = (Result<Stamp, BeginStop>, Result<Stamp, BeginStop>);

fn begun_at(alloc: Global, tail: Stamp) -> Result<Begun, AllocError>
    requires positive { 0 < tail }
    requires low { tail ≤ STOP + 4 }
{
    let opening = opening_at(alloc, tail)?;
    let (table, rest, first, _second) = open_two(alloc, &opening)?;
    Ok(begin_both(&table, rest, first, &opening))
}

#[test]
fn begins_below_the_end_alone(rt: HostRuntime) -> Result<(), Fail> {
    let stop = BeginStop::LogEnd { tail: STOP };
    let below = begun_at(rt.alloc(), STOP - 1)?;
    let at = begun_at(rt.alloc(), STOP)?;
    assert_eq!(rt; below, (Ok(STOP - 1), Ok(STOP - 1)));
    assert_eq!(rt; at, (Err(stop), Ok(STOP)));
    Ok(())
}

#[test]
fn two_sessions_race(rt: HostRuntime) -> Result<(), Fail> {
    let opening = opening_at(rt.alloc(), 13)?;
    let raced = race(&rt, rt.alloc(), &opening, 22)?;
    let (tail, one, two) = raced.ok_or("no session began")?;
    let ((before, early), (after, late)) = if one.1 < two.1 {
        ((1, one), (2, two))
    } else {
        ((2, two), (1, one))
    };
    assert_eq!(rt; tail, 57);
    assert_eq!(rt; (early.0, early.1, late.1), (13, 13, 35));
    let sealing = Look::NotYet {
        seat: after,
        seen: 1,
    };
    assert!(rt; early.2 == Look::Clear || early.2 == sealing);
    let sealing = Look::NotYet {
        seat: before,
        seen: 1,
    };
    let sealed = Look::NotYet {
        seat: before,
        seen: 13,
    };
    assert!(rt; late.2 == sealing || late.2 == sealed);
    Ok(())
}
