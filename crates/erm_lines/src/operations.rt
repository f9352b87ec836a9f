//! The operations of a session's transaction on a table, each answered by a call of the tree.
ghost use Rattle.std.specs.Prelude.{◌≡◌, ◌<◌, ℕ, List, IfOk};
ghost use Rattle.erm_model.specs.RowTransaction.{SameLaw};
ghost use Rattle.erm_model.specs.Run.{Step};
ghost use Rattle.erm_node.specs.Sound.{sound_law};
ghost use Rattle.erm_maps.specs.Runs.{IsRunOf, kept_at};
ghost use Rattle.erm_lines.specs.Whole.{WasAnswered};

use crate::stops::refusal;
use erm_model::{Reply, RowRead, TABLES, Value};
use erm_report::Answer;
use erm_script::Command;
use erm_world::{RowWorld, WorldTxn};
use std::alloc::{AllocError, Global};

/// The value of a key.
pub fn get<'a, W: RowWorld>(
    txn: &mut WorldTxn<'a, W>,
    table: u8,
    key: u64,
) -> Result<Answer, AllocError>
    requires law { SameLaw W.law sound_law }
    requires active { ⟦<WorldTxn<'a, W> as RowRead>⟧.face.active txn.old }
    requires ran { (steps : List Step) × IsRunOf (kept_at (W.view txn.old.world.now) txn.old.seat) steps }
    requires table { table < TABLES }
    ensures same { txn.new.world.ghost_name ≡ txn.old.world.ghost_name }
    ensures stands { W.stands txn.new.world.now }
    ensures answered { IfOk result (λ a. WasAnswered (W.view txn.old.world.now) txn.old.seat (Command.Get table key) a (W.view txn.new.world.now)) }
{
    erm_maps::runs_are_ready::<W>();
    erm_maps::calls_are_runs::<W>();
    erm_tree::refused_calls_set_no_row::<WorldTxn<'a, W>>();
    match erm_tree::get(txn, table, key) {
        Ok(value) => Ok(Answer::Replied(Reply::Value(value))),
        Err(stop) => refusal(stop),
    }
}

/// Sets the value of a key.
pub fn put<'a, W: RowWorld>(
    txn: &mut WorldTxn<'a, W>,
    table: u8,
    key: u64,
    value: &Value,
) -> Result<Answer, AllocError>
    requires law { SameLaw W.law sound_law }
    requires active { ⟦<WorldTxn<'a, W> as RowRead>⟧.face.active txn.old }
    requires ran { (steps : List Step) × IsRunOf (kept_at (W.view txn.old.world.now) txn.old.seat) steps }
    requires table { table < TABLES }
    ensures same { txn.new.world.ghost_name ≡ txn.old.world.ghost_name }
    ensures stands { W.stands txn.new.world.now }
    ensures answered { IfOk result (λ a. WasAnswered (W.view txn.old.world.now) txn.old.seat (Command.Put table key value.now) a (W.view txn.new.world.now)) }
{
    erm_maps::runs_are_ready::<W>();
    erm_maps::calls_are_runs::<W>();
    erm_tree::refused_calls_set_no_row::<WorldTxn<'a, W>>();
    match erm_tree::put(txn, table, key, value) {
        Ok(()) => Ok(Answer::Replied(Reply::Done)),
        Err(stop) => refusal(stop),
    }
}

/// Takes the value of a key away.
pub fn del<'a, W: RowWorld>(
    txn: &mut WorldTxn<'a, W>,
    table: u8,
    key: u64,
) -> Result<Answer, AllocError>
    requires law { SameLaw W.law sound_law }
    requires active { ⟦<WorldTxn<'a, W> as RowRead>⟧.face.active txn.old }
    requires ran { (steps : List Step) × IsRunOf (kept_at (W.view txn.old.world.now) txn.old.seat) steps }
    requires table { table < TABLES }
    ensures same { txn.new.world.ghost_name ≡ txn.old.world.ghost_name }
    ensures stands { W.stands txn.new.world.now }
    ensures answered { IfOk result (λ a. WasAnswered (W.view txn.old.world.now) txn.old.seat (Command.Del table key) a (W.view txn.new.world.now)) }
{
    erm_maps::runs_are_ready::<W>();
    erm_maps::calls_are_runs::<W>();
    erm_tree::refused_calls_set_no_row::<WorldTxn<'a, W>>();
    match erm_tree::del(txn, table, key) {
        Ok(()) => Ok(Answer::Replied(Reply::Done)),
        Err(stop) => refusal(stop),
    }
}

/// The least key at or above `from` that has a value.
pub fn next<'a, W: RowWorld>(
    txn: &mut WorldTxn<'a, W>,
    table: u8,
    from: u64,
) -> Result<Answer, AllocError>
    requires law { SameLaw W.law sound_law }
    requires active { ⟦<WorldTxn<'a, W> as RowRead>⟧.face.active txn.old }
    requires ran { (steps : List Step) × IsRunOf (kept_at (W.view txn.old.world.now) txn.old.seat) steps }
    requires table { table < TABLES }
    ensures same { txn.new.world.ghost_name ≡ txn.old.world.ghost_name }
    ensures stands { W.stands txn.new.world.now }
    ensures answered { IfOk result (λ a. WasAnswered (W.view txn.old.world.now) txn.old.seat (Command.Next table from) a (W.view txn.new.world.now)) }
{
    erm_maps::runs_are_ready::<W>();
    erm_maps::calls_are_runs::<W>();
    erm_tree::refused_calls_set_no_row::<WorldTxn<'a, W>>();
    match erm_tree::next(txn, table, from) {
        Ok(found) => Ok(Answer::Replied(Reply::Pair(found))),
        Err(stop) => refusal(stop),
    }
}

/// The keys from `low` to `high`, these two too, that have a value.
pub fn scan<'a, W: RowWorld>(
    alloc: Global,
    txn: &mut WorldTxn<'a, W>,
    table: u8,
    low: u64,
    high: u64,
) -> Result<Answer, AllocError>
    requires law { SameLaw W.law sound_law }
    requires active { ⟦<WorldTxn<'a, W> as RowRead>⟧.face.active txn.old }
    requires ran { (steps : List Step) × IsRunOf (kept_at (W.view txn.old.world.now) txn.old.seat) steps }
    requires table { table < TABLES }
    ensures same { txn.new.world.ghost_name ≡ txn.old.world.ghost_name }
    ensures stands { W.stands txn.new.world.now }
    ensures answered { IfOk result (λ a. WasAnswered (W.view txn.old.world.now) txn.old.seat (Command.Scan table low high) a (W.view txn.new.world.now)) }
{
    erm_maps::runs_are_ready::<W>();
    erm_maps::calls_are_runs::<W>();
    match crate::scans::scan(alloc, txn, table, low, high)? {
        Ok(found) => Ok(Answer::Replied(Reply::Found(found))),
        Err(stop) => refusal(stop),
    }
}
