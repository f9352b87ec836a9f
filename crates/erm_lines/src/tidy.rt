//! Cutting off the versions of a key.
ghost use Rattle.std.specs.Prelude.{◌≡◌, ◌<◌, ◌≤◌, ℕ, List, IfOk, IfErr, OnOk};
ghost use Rattle.erm_model.specs.RowTransaction.{Does, IsRefused, SameLaw, StopsClaim, asked_claim, did_claim};
ghost use Rattle.erm_model.specs.Run.{Step};
ghost use Rattle.erm_node.specs.Sound.{sound_law};
ghost use Rattle.erm_maps.specs.Runs.{IsRunOf, kept_at};
ghost use Rattle.erm_lines.specs.Whole.{WasAnswered};

use crate::stops::refusal;
use erm_model::{OID_LIMIT, Oid, RowRead, RowStop, TABLES};
use erm_report::Answer;
use erm_script::Command;
use erm_tree::find;
use erm_world::{RowWorld, WorldTxn};
use std::alloc::AllocError;

// Cuts off versions of an object, which the transaction claims. It answers how many, which is no more than a call cuts off at most.
fn tidy_object<'a, W: RowWorld>(txn: &mut WorldTxn<'a, W>, oid: Oid) -> Result<u32, RowStop>
    requires active { ⟦<WorldTxn<'a, W> as RowRead>⟧.face.active txn.old }
    requires object { oid < OID_LIMIT }
    ensures ok { OnOk result (Does ⟦<WorldTxn<'a, W> as RowRead>⟧.face txn.old (did_claim oid) txn.new) }
    ensures count { IfOk result (λ cut. cut ≤ (W.view txn.old.world.now).opening.cuts) }
    ensures err { IfErr result (λ stop. IsRefused ⟦<WorldTxn<'a, W> as RowRead>⟧.face StopsClaim txn.old (asked_claim oid) stop txn.new) }
{
    txn.world.tidy(txn.seat, oid)
}

/// Cuts off the versions of a key that nobody can read any more. It claims the key's record, where there is one.
pub fn tidy<'a, W: RowWorld>(
    txn: &mut WorldTxn<'a, W>,
    table: u8,
    key: u64,
) -> Result<Answer, AllocError>
    requires law { SameLaw W.law sound_law }
    requires active { ⟦<WorldTxn<'a, W> as RowRead>⟧.face.active txn.old }
    requires ran { (steps : List Step) × IsRunOf (kept_at (W.view txn.old.world.now) txn.old.seat) steps }
    requires table { table < TABLES }
    ensures same { txn.new.world.ghost_name ≡ txn.old.world.ghost_name }
    ensures stands { W.stands txn.new.world.now }
    ensures answered { IfOk result (λ a. WasAnswered (W.view txn.old.world.now) txn.old.seat (Command.Tidy table key) a (W.view txn.new.world.now)) }
{
    erm_maps::runs_are_ready::<W>();
    erm_maps::calls_are_runs::<W>();
    erm_tree::refused_calls_set_no_row::<WorldTxn<'a, W>>();
    erm_tree::looks_and_claims_set_no_row::<WorldTxn<'a, W>>();
    match find(txn, table, key) {
        Ok(None) => Ok(Answer::Cut(0)),
        Ok(Some(oid)) => match tidy_object(txn, oid) {
            Ok(cells) => Ok(Answer::Cut(cells)),
            Err(stop) => refusal(stop),
        },
        Err(stop) => refusal(stop),
    }
}
