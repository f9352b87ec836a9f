//! A line that names a table, tried again while another session's transaction is in its way.
ghost use Rattle.std.specs.Prelude.{◌≡◌, ◌<◌, ℕ, List, IfNone, IfOk, IfSome, IsSome, OnOk};
ghost use Rattle.erm_model.specs.declared.limits.TheConstants.{TABLES};
ghost use Rattle.erm_model.specs.declared.outcome.Phase.TheVariants.{Active};
ghost use Rattle.erm_model.specs.RowTransaction.{SameLaw};
ghost use Rattle.erm_model.specs.Run.{Step};
ghost use Rattle.erm_node.specs.Sound.{sound_law};
ghost use Rattle.erm_maps.specs.Runs.{IsRunOf, kept_at};
ghost use Rattle.erm_good_report.specs.Transactions.{table_of};
ghost use Rattle.erm_world.specs.Face.{Grows};
ghost use Rattle.erm_world.specs.World.{View, phase_at};
ghost use Rattle.erm_beside.specs.Laws.{GoesOnward};
ghost use Rattle.erm_lines_at_once.specs.Operations.{TriedOnce};
ghost use Rattle.erm_worker.specs.Work.{IsRunNow, WasAsked};

use crate::{Turns, Why};
use erm_beside::{SharedSession, SharedTxn};
use erm_lines_at_once::{del, get, next, put, scan, tidy};
use erm_model::RowRead;
use erm_report::Answer;
use erm_script::Command;
use std::alloc::{AllocError, Global};
use std::sync::Wait;

// Tries a command that names a table.
fn try_command<'a, S: SharedSession>(
    alloc: Global,
    txn: &mut SharedTxn<'a, S>,
    command: &Command,
) -> Result<Option<Answer>, AllocError>
    requires law { SameLaw S.law sound_law }
    requires active { ⟦<SharedTxn<'a, S> as RowRead>⟧.face.active txn.old }
    requires ran { (steps : List Step) × IsRunOf (kept_at (S.own txn.old.session.now) (S.seat txn.old.session.now)) steps }
    requires named { IsSome (table_of command.now) }
    requires table { IfSome (table_of command.now) (λ table. table < TABLES) }
    ensures follows { ⟦<SharedTxn<'a, S> as RowRead>⟧.face.follows txn.old txn.new }
    ensures tried { IfOk result (λ tried. (f : View) → S.ends txn.new.session.now f → TriedOnce f (S.seat txn.old.session.now) command.now tried (S.own txn.old.session.now) (S.own txn.new.session.now)) }
{
    match command {
        Command::Get { table, key } => get(txn, *table, *key),
        Command::Put { table, key, value } => put(txn, *table, *key, value),
        Command::Del { table, key } => del(txn, *table, *key),
        Command::Next { table, from } => next(txn, *table, *from),
        Command::Scan { table, low, high } => scan(alloc, txn, *table, *low, *high),
        Command::Tidy { table, key } => tidy(txn, *table, *key),
        _ => unreachable!(),
    }
}

// The same, which leaves a transaction in progress the run of some operations.
fn try_run<'a, S: SharedSession>(
    alloc: Global,
    txn: &mut SharedTxn<'a, S>,
    command: &Command,
) -> Result<Option<Answer>, AllocError>
    requires law { SameLaw S.law sound_law }
    requires active { ⟦<SharedTxn<'a, S> as RowRead>⟧.face.active txn.old }
    requires ran { (steps : List Step) × IsRunOf (kept_at (S.own txn.old.session.now) (S.seat txn.old.session.now)) steps }
    requires named { IsSome (table_of command.now) }
    requires table { IfSome (table_of command.now) (λ table. table < TABLES) }
    ensures follows { ⟦<SharedTxn<'a, S> as RowRead>⟧.face.follows txn.old txn.new }
    ensures ran { OnOk result (IsRunNow (S.own txn.new.session.now) (S.seat txn.old.session.now)) }
    ensures tried { IfOk result (λ tried. (f : View) → S.ends txn.new.session.now f → TriedOnce f (S.seat txn.old.session.now) command.now tried (S.own txn.old.session.now) (S.own txn.new.session.now)) }
{
    try_command(alloc, txn, command)
}

// The same of an active session.
fn try_once<S: SharedSession>(
    alloc: Global,
    session: &mut S,
    shared: &S::Shared,
    command: &Command,
) -> Result<Option<Answer>, AllocError>
    requires law { SameLaw S.law sound_law }
    requires stands { S.stands shared.now session.old }
    requires active { phase_at (S.own session.old) (S.seat session.old) ≡ Active }
    requires ran { IsRunNow (S.own session.old) (S.seat session.old) }
    requires named { IsSome (table_of command.now) }
    requires table { IfSome (table_of command.now) (λ table. table < TABLES) }
    ensures stands { S.stands shared.now session.new }
    ensures onward { GoesOnward (S.seat session.old) (S.seat session.new) (S.ends session.old) (S.ends session.new) }
    ensures grows { Grows ((S.own session.old).session (S.seat session.old)) ((S.own session.new).session (S.seat session.old)) }
    ensures ran { OnOk result (IsRunNow (S.own session.new) (S.seat session.old)) }
    ensures tried { IfOk result (λ tried. (f : View) → S.ends session.new f → TriedOnce f (S.seat session.old) command.now tried (S.own session.old) (S.own session.new)) }
{
    let mut txn = SharedTxn { shared, session };
    try_run(alloc, &mut txn, command)
}

/// Answers a command that names a table. It is tried again while another session's transaction, which isn't decided, is in its way, or until
/// the worker is told to stop: `None`.
pub fn operate<S: SharedSession, T: Turns, R: Wait>(
    rt: &R,
    alloc: Global,
    session: &mut S,
    shared: &S::Shared,
    turns: &mut T,
    command: &Command,
) -> Result<Option<Answer>, AllocError>
    requires law { SameLaw S.law sound_law }
    requires stands { S.stands shared.now session.old }
    requires active { phase_at (S.own session.old) (S.seat session.old) ≡ Active }
    requires ran { IsRunNow (S.own session.old) (S.seat session.old) }
    requires named { IsSome (table_of command.now) }
    requires table { IfSome (table_of command.now) (λ table. table < TABLES) }
    ensures stands { S.stands shared.now session.new }
    ensures onward { GoesOnward (S.seat session.old) (S.seat session.new) (S.ends session.old) (S.ends session.new) }
    ensures grows { Grows ((S.own session.old).session (S.seat session.old)) ((S.own session.new).session (S.seat session.old)) }
    ensures ran { OnOk result (IsRunNow (S.own session.new) (S.seat session.old)) }
    ensures asked { IfOk result (λ answered. (f : View) → S.ends session.new f → WasAsked f (S.seat session.old) command.now answered (S.own session.old) (S.own session.new)) }
    ensures told { IfOk result (λ answered. IfNone answered (T.told turns.new)) }
{
    for _ in rt.forever() {
        if let Some(answer) = try_once(alloc, session, shared, command)? {
            return Ok(Some(answer));
        }
        if !turns.wait(Why::Session) {
            return Ok(None);
        }
    }
    unreachable!()
}
