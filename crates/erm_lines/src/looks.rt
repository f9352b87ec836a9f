//! The looks of a safe snapshot at a table, each answered by a call of the tree. None is refused.
ghost use Rattle.std.specs.Prelude.{◌≡◌, ◌<◌, IfOk, IfSome, IsSome, None};
ghost use Rattle.erm_model.specs.declared.limits.TheConstants.{TABLES};
ghost use Rattle.erm_model.specs.declared.outcome.Phase.TheVariants.{Safe};
ghost use Rattle.erm_model.specs.RowTransaction.{SameLaw};
ghost use Rattle.erm_node.specs.Sound.{sound_law};
ghost use Rattle.erm_good_report.specs.Phases.{refusal_of};
ghost use Rattle.erm_good_report.specs.Transactions.{table_of};
ghost use Rattle.erm_world.specs.World.{IsSession, phase_at};
ghost use Rattle.erm_lines.specs.Whole.{WasWatched};

use crate::safe_txn::SafeTxn;
use crate::stops::refusal;
use erm_model::{Reply, RowRead, Seat, TABLES};
use erm_node::SoundRows;
use erm_report::Answer;
use erm_script::Command;
use erm_world::SafeWorld;
use std::alloc::{AllocError, Global};

// The value of a key.
fn get<'a, W: SafeWorld>(
    txn: &mut SafeTxn<'a, W>,
    table: u8,
    key: u64,
) -> Result<Answer, AllocError>
    requires active { ⟦<SafeTxn<'a, W> as RowRead>⟧.face.active txn.old }
    requires table { table < TABLES }
    ensures same { txn.new.world.ghost_name ≡ txn.old.world.ghost_name }
    ensures stands { W.stands txn.new.world.now }
    ensures answered { IfOk result (λ a. WasWatched (W.view txn.old.world.now) txn.old.seat (Command.Get table key) a (W.view txn.new.world.now)) }
{
    erm_maps::snapshots_find_rows::<SoundRows>();
    match erm_tree::get(txn, table, key) {
        Ok(value) => Ok(Answer::Replied(Reply::Value(value))),
        Err(stop) => refusal(stop),
    }
}

// The least key at or above `from` that has a value.
fn next<'a, W: SafeWorld>(
    txn: &mut SafeTxn<'a, W>,
    table: u8,
    from: u64,
) -> Result<Answer, AllocError>
    requires active { ⟦<SafeTxn<'a, W> as RowRead>⟧.face.active txn.old }
    requires table { table < TABLES }
    ensures same { txn.new.world.ghost_name ≡ txn.old.world.ghost_name }
    ensures stands { W.stands txn.new.world.now }
    ensures answered { IfOk result (λ a. WasWatched (W.view txn.old.world.now) txn.old.seat (Command.Next table from) a (W.view txn.new.world.now)) }
{
    erm_maps::snapshots_find_rows::<SoundRows>();
    match erm_tree::next(txn, table, from) {
        Ok(found) => Ok(Answer::Replied(Reply::Pair(found))),
        Err(stop) => refusal(stop),
    }
}

// The keys from `low` to `high`, these two too, that have a value.
fn scan<'a, W: SafeWorld>(
    alloc: Global,
    txn: &mut SafeTxn<'a, W>,
    table: u8,
    low: u64,
    high: u64,
) -> Result<Answer, AllocError>
    requires active { ⟦<SafeTxn<'a, W> as RowRead>⟧.face.active txn.old }
    requires table { table < TABLES }
    ensures same { txn.new.world.ghost_name ≡ txn.old.world.ghost_name }
    ensures stands { W.stands txn.new.world.now }
    ensures answered { IfOk result (λ a. WasWatched (W.view txn.old.world.now) txn.old.seat (Command.Scan table low high) a (W.view txn.new.world.now)) }
{
    erm_maps::snapshots_find_rows::<SoundRows>();
    match crate::scans::scan(alloc, txn, table, low, high)? {
        Ok(found) => Ok(Answer::Replied(Reply::Found(found))),
        Err(stop) => refusal(stop),
    }
}

/// Answers a look of a session that has a safe snapshot.
pub fn look<W: SafeWorld>(
    alloc: Global,
    world: &mut W,
    seat: Seat,
    command: &Command,
) -> Result<Answer, AllocError>
    requires law { SameLaw W.law sound_law }
    requires stands { W.stands world.old }
    requires session { IsSession (W.view world.old) seat }
    requires safe { phase_at (W.view world.old) seat ≡ Safe }
    requires free { refusal_of Safe command.now ≡ None }
    requires named { IsSome (table_of command.now) }
    requires table { IfSome (table_of command.now) (λ table. table < TABLES) }
    ensures stands { W.stands world.new }
    ensures answered { IfOk result (λ a. WasWatched (W.view world.old) seat command.now a (W.view world.new)) }
{
    let mut txn = SafeTxn { world, seat };
    match command {
        Command::Get { table, key } => get(&mut txn, *table, *key),
        Command::Next { table, from } => next(&mut txn, *table, *from),
        Command::Scan { table, low, high } => scan(alloc, &mut txn, *table, *low, *high),
        _ => unreachable!(),
    }
}
