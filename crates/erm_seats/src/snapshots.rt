//! The begin of a snapshot that only reads, and its look at the other sessions: whether it is safe.
ghost use Rattle.std.specs.Prelude.{◌≡◌, true, IfErr, IfOk, OnOk};
ghost use Rattle.erm_machine.specs.declared.place.Place.TheVariants.{Idle};
ghost use Rattle.erm_machine.specs.declared.task.Task.TheVariants.{Surveys};
ghost use Rattle.erm_machine.specs.Seat.{has_number, is_active};
ghost use Rattle.erm_machine.specs.Words.{is_session};
ghost use Rattle.erm_rule.specs.Books.{book};
ghost use Rattle.erm_rule.specs.Hands.{IsKnown};
ghost use Rattle.erm_rule.specs.Steps.{Fits};
ghost use Rattle.erm_rule.specs.Views.{view, part_of};
ghost use Rattle.erm_rule.specs.Went.{IsLoadStep, Went};
ghost use Rattle.erm_seats.specs.Calls.{DidStop};
ghost use Rattle.erm_seats.specs.Safe.{DidBeginSafe, DidNotSurvey, DidPass, DidSurvey, TookBeginSafe, TookNoSurvey, WasStopMet, sees_late};
ghost use Rattle.erm_seats.specs.Took.{TookStop};

use crate::answer::{BeginStop, SafeStop};
use crate::life::begin_steps;
use erm_machine::SESSIONS;
use erm_model::{RowLaw, Seat, Stamp};
use erm_rule::{Pass, Table, load_back, load_begin, store_begin};

/// Begins a snapshot: begins as a transaction does, and raises the begin word to the begin stamp, which is the answer. So of two snapshots
/// that look at each other only the one that began later waits. It is to look at the sessions, from the first on.
pub fn begin_safe_steps<L: RowLaw>(
    t: &Table<L>,
    p: &mut Pass,
    who: Seat,
) -> Result<Stamp, BeginStop>
    requires fits { Fits t.now.words.shared.table_id p.old }
    requires session { is_session who ≡ true }
    requires idle { (part_of (view p.old) who).place ≡ Idle }
    requires number { has_number who (part_of (view p.old) who) ≡ true }
    ensures fits { Fits t.now.words.shared.table_id p.new }
    ensures begun { IfOk result (λ begin. DidBeginSafe (view p.old) who begin (view p.new)) }
    ensures stopped { IfErr result (λ stop. DidStop (view p.old) who stop (view p.new)) }
    ensures took { IfOk result (λ begin. TookBeginSafe L.law who begin (book p.old) (book p.new)) }
    ensures took_stop { IfErr result (λ stop. TookStop L.law who stop (book p.old) (book p.new)) }
{
    let begin = begin_steps(t, p, who)?;
    store_begin(t, p, who, begin);
    Ok(begin)
}

/// Looks whether a snapshot with this begin stamp is safe: goes over the sessions from this one on, to which its look has come, and finds
/// of each other one first its begin word 0 or not below the begin stamp, and then its back word below it. Those are passed, and are so for
/// ever. Where a begin word stands below the begin stamp the look has come to that session, and goes on there when it is asked again.
pub fn survey<L: RowLaw>(
    t: &Table<L>,
    p: &mut Pass,
    who: Seat,
    from: Seat,
    begin: Stamp,
) -> Result<(), SafeStop>
    requires fits { Fits t.now.words.shared.table_id p.old }
    requires known { IsKnown (view p.old) }
    requires active { is_active (part_of (view p.old) who).place ≡ true }
    requires surveys { (part_of (view p.old) who).task ≡ Surveys from }
    requires session { is_session from ≡ true }
    requires begin { (part_of (view p.old) who).current.begin ≡ begin }
    ensures fits { Fits t.now.words.shared.table_id p.new }
    ensures safe { OnOk result (DidSurvey (view p.old) who (view p.new)) }
    ensures stopped { IfErr result (λ stop. DidNotSurvey (view p.old) who stop (view p.new)) }
    ensures met { IfErr result (λ stop. WasStopMet (book p.old) stop (book p.new)) }
    ensures loads { Went L.law who IsLoadStep (book p.old) (book p.new) }
    ensures took_none { IfErr result (λ stop. TookNoSurvey L.law who stop (book p.old) (book p.new)) }
{
    for seat in from..SESSIONS + 1 {
        pass_session(t, p, who, seat, begin)?;
    }
    Ok(())
}

// Passes the session to which the look has come, or says why it can't. The own one is passed as it is.
fn pass_session<L: RowLaw>(
    t: &Table<L>,
    p: &mut Pass,
    who: Seat,
    seat: Seat,
    begin: Stamp,
) -> Result<(), SafeStop>
    requires fits { Fits t.now.words.shared.table_id p.old }
    requires active { is_active (part_of (view p.old) who).place ≡ true }
    requires surveys { (part_of (view p.old) who).task ≡ Surveys seat }
    requires session { is_session seat ≡ true }
    requires begin { (part_of (view p.old) who).current.begin ≡ begin }
    ensures fits { Fits t.now.words.shared.table_id p.new }
    ensures passed { OnOk result (DidPass (view p.old) who seat (view p.new)) }
    ensures stopped { IfErr result (λ stop. DidNotSurvey (view p.old) who stop (view p.new)) }
    ensures met { IfErr result (λ stop. WasStopMet (book p.old) stop (book p.new)) }
    ensures loads { Went L.law who IsLoadStep (book p.old) (book p.new) }
    ensures took_none { IfErr result (λ stop. TookNoSurvey L.law who stop (book p.old) (book p.new)) }
{
    let seen = load_begin(t, p, who, seat);
    if seat == who {
        return Ok(());
    }
    if !is_late(seen, begin) {
        return Err(SafeStop::NotYet { seat, seen });
    }
    let stamp = load_back(t, p, who, seat);
    if stamp < begin {
        Ok(())
    } else {
        Err(SafeStop::Unsafe { seat, stamp })
    }
}

// A session with this begin word has nothing in progress that had begun below the begin stamp.
fn is_late(seen: Stamp, begin: Stamp) -> bool
    ensures { result ≡ sees_late begin seen }
{
    seen == 0 || begin <= seen
}
