//! The operations of a session's transaction on a table, each in one try, where the session shares its world with others.
ghost use Rattle.std.specs.Prelude.{◌≡◌, ◌<◌, ◌≤◌, ℕ, List, IfErr, IfOk, OnOk};
ghost use Rattle.erm_model.specs.declared.limits.TheConstants.{OID_LIMIT};
ghost use Rattle.erm_model.specs.RowTransaction.{Does, IsRefused, SameLaw, StopsClaim, asked_claim, did_claim};
ghost use Rattle.erm_model.specs.Run.{Step};
ghost use Rattle.erm_node.specs.Sound.{sound_law};
ghost use Rattle.erm_maps.specs.Runs.{IsRunOf, kept_at};
ghost use Rattle.erm_world.specs.World.{View};
ghost use Rattle.erm_lines_at_once.specs.Operations.{IsNamed, TriedOnce, told_at_once};

use erm_beside::{SharedSession, SharedTxn};
use erm_lines::scan as look_for_pairs;
use erm_model::{OID_LIMIT, Oid, Reply, RowRead, RowStop, TABLES, Value};
use erm_report::Answer;
use erm_script::Command;
use erm_tree::find;
use std::alloc::{AllocError, Global};

// What a refusal is answered as: a wait is no answer, since the line is tried again. `Err` where memory ran out.
fn refused(stop: RowStop) -> Result<Option<Answer>, AllocError>
    ensures { IfOk result (λ tried. (tried ≡ told_at_once stop) × IsNamed stop) }
{
    match stop {
        RowStop::NotYet { .. } => Ok(None),
        RowStop::ReadsFull => Ok(Some(Answer::ReadsFull)),
        RowStop::Owned { seat, number } => Ok(Some(Answer::Owned { seat, number })),
        RowStop::Newer { stamp } => Ok(Some(Answer::Newer { stamp })),
        RowStop::WritesFull => Ok(Some(Answer::WritesFull)),
        RowStop::CellsFull { drawn } => Ok(Some(Answer::CellsFull { drawn })),
        RowStop::OidsFull { drawn } => Ok(Some(Answer::OidsFull { drawn })),
        RowStop::Excluded { succ, pred } => Ok(Some(Answer::ExcludedEarly { succ, pred })),
        RowStop::Memory => Err(AllocError),
    }
}

/// The value of a key.
pub fn get<'a, S: SharedSession>(
    txn: &mut SharedTxn<'a, S>,
    table: u8,
    key: u64,
) -> Result<Option<Answer>, AllocError>
    requires law { SameLaw S.law sound_law }
    requires active { ⟦<SharedTxn<'a, S> as RowRead>⟧.face.active txn.old }
    requires ran { (steps : List Step) × IsRunOf (kept_at (S.own txn.old.session.now) (S.seat txn.old.session.now)) steps }
    requires table { table < TABLES }
    ensures follows { ⟦<SharedTxn<'a, S> as RowRead>⟧.face.follows txn.old txn.new }
    ensures tried { IfOk result (λ tried. (f : View) → S.ends txn.new.session.now f → TriedOnce f (S.seat txn.old.session.now) (Command.Get table key) tried (S.own txn.old.session.now) (S.own txn.new.session.now)) }
{
    match erm_tree::get(txn, table, key) {
        Ok(value) => Ok(Some(Answer::Replied(Reply::Value(value)))),
        Err(stop) => refused(stop),
    }
}

/// Sets the value of a key.
pub fn put<'a, S: SharedSession>(
    txn: &mut SharedTxn<'a, S>,
    table: u8,
    key: u64,
    value: &Value,
) -> Result<Option<Answer>, AllocError>
    requires law { SameLaw S.law sound_law }
    requires active { ⟦<SharedTxn<'a, S> as RowRead>⟧.face.active txn.old }
    requires ran { (steps : List Step) × IsRunOf (kept_at (S.own txn.old.session.now) (S.seat txn.old.session.now)) steps }
    requires table { table < TABLES }
    ensures follows { ⟦<SharedTxn<'a, S> as RowRead>⟧.face.follows txn.old txn.new }
    ensures tried { IfOk result (λ tried. (f : View) → S.ends txn.new.session.now f → TriedOnce f (S.seat txn.old.session.now) (Command.Put table key value.now) tried (S.own txn.old.session.now) (S.own txn.new.session.now)) }
{
    match erm_tree::put(txn, table, key, value) {
        Ok(()) => Ok(Some(Answer::Replied(Reply::Done))),
        Err(stop) => refused(stop),
    }
}

/// Takes the value of a key away.
pub fn del<'a, S: SharedSession>(
    txn: &mut SharedTxn<'a, S>,
    table: u8,
    key: u64,
) -> Result<Option<Answer>, AllocError>
    requires law { SameLaw S.law sound_law }
    requires active { ⟦<SharedTxn<'a, S> as RowRead>⟧.face.active txn.old }
    requires ran { (steps : List Step) × IsRunOf (kept_at (S.own txn.old.session.now) (S.seat txn.old.session.now)) steps }
    requires table { table < TABLES }
    ensures follows { ⟦<SharedTxn<'a, S> as RowRead>⟧.face.follows txn.old txn.new }
    ensures tried { IfOk result (λ tried. (f : View) → S.ends txn.new.session.now f → TriedOnce f (S.seat txn.old.session.now) (Command.Del table key) tried (S.own txn.old.session.now) (S.own txn.new.session.now)) }
{
    match erm_tree::del(txn, table, key) {
        Ok(()) => Ok(Some(Answer::Replied(Reply::Done))),
        Err(stop) => refused(stop),
    }
}

/// The least key at or above `from` that has a value.
pub fn next<'a, S: SharedSession>(
    txn: &mut SharedTxn<'a, S>,
    table: u8,
    from: u64,
) -> Result<Option<Answer>, AllocError>
    requires law { SameLaw S.law sound_law }
    requires active { ⟦<SharedTxn<'a, S> as RowRead>⟧.face.active txn.old }
    requires ran { (steps : List Step) × IsRunOf (kept_at (S.own txn.old.session.now) (S.seat txn.old.session.now)) steps }
    requires table { table < TABLES }
    ensures follows { ⟦<SharedTxn<'a, S> as RowRead>⟧.face.follows txn.old txn.new }
    ensures tried { IfOk result (λ tried. (f : View) → S.ends txn.new.session.now f → TriedOnce f (S.seat txn.old.session.now) (Command.Next table from) tried (S.own txn.old.session.now) (S.own txn.new.session.now)) }
{
    match erm_tree::next(txn, table, from) {
        Ok(found) => Ok(Some(Answer::Replied(Reply::Pair(found)))),
        Err(stop) => refused(stop),
    }
}

/// The keys from `low` to `high`, these two too, that have a value.
pub fn scan<'a, S: SharedSession>(
    alloc: Global,
    txn: &mut SharedTxn<'a, S>,
    table: u8,
    low: u64,
    high: u64,
) -> Result<Option<Answer>, AllocError>
    requires law { SameLaw S.law sound_law }
    requires active { ⟦<SharedTxn<'a, S> as RowRead>⟧.face.active txn.old }
    requires ran { (steps : List Step) × IsRunOf (kept_at (S.own txn.old.session.now) (S.seat txn.old.session.now)) steps }
    requires table { table < TABLES }
    ensures follows { ⟦<SharedTxn<'a, S> as RowRead>⟧.face.follows txn.old txn.new }
    ensures tried { IfOk result (λ tried. (f : View) → S.ends txn.new.session.now f → TriedOnce f (S.seat txn.old.session.now) (Command.Scan table low high) tried (S.own txn.old.session.now) (S.own txn.new.session.now)) }
{
    match look_for_pairs(alloc, txn, table, low, high)? {
        Ok(found) => Ok(Some(Answer::Replied(Reply::Found(found)))),
        Err(stop) => refused(stop),
    }
}

// Cuts off versions of an object, which the transaction claims. It answers how many, which is no more than a call cuts off at most.
fn tidy_object<'a, S: SharedSession>(txn: &mut SharedTxn<'a, S>, oid: Oid) -> Result<u32, RowStop>
    requires active { ⟦<SharedTxn<'a, S> as RowRead>⟧.face.active txn.old }
    requires object { oid < OID_LIMIT }
    ensures ok { OnOk result (Does ⟦<SharedTxn<'a, S> as RowRead>⟧.face txn.old (did_claim oid) txn.new) }
    ensures count { IfOk result (λ cut. cut ≤ (S.own txn.old.session.now).opening.cuts) }
    ensures err { IfErr result (λ stop. IsRefused ⟦<SharedTxn<'a, S> as RowRead>⟧.face StopsClaim txn.old (asked_claim oid) stop txn.new) }
{
    txn.session.tidy(txn.shared, oid)
}

/// Cuts off the versions of a key that nobody can read any more. It claims the key's record, where there is one.
pub fn tidy<'a, S: SharedSession>(
    txn: &mut SharedTxn<'a, S>,
    table: u8,
    key: u64,
) -> Result<Option<Answer>, AllocError>
    requires law { SameLaw S.law sound_law }
    requires active { ⟦<SharedTxn<'a, S> as RowRead>⟧.face.active txn.old }
    requires ran { (steps : List Step) × IsRunOf (kept_at (S.own txn.old.session.now) (S.seat txn.old.session.now)) steps }
    requires table { table < TABLES }
    ensures follows { ⟦<SharedTxn<'a, S> as RowRead>⟧.face.follows txn.old txn.new }
    ensures tried { IfOk result (λ tried. (f : View) → S.ends txn.new.session.now f → TriedOnce f (S.seat txn.old.session.now) (Command.Tidy table key) tried (S.own txn.old.session.now) (S.own txn.new.session.now)) }
{
    match find(txn, table, key) {
        Ok(None) => Ok(Some(Answer::Cut(0))),
        Ok(Some(oid)) => match tidy_object(txn, oid) {
            Ok(cells) => Ok(Some(Answer::Cut(cells))),
            Err(stop) => refused(stop),
        },
        Err(stop) => refused(stop),
    }
}
