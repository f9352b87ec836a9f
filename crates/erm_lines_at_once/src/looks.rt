//! The looks of a safe snapshot at a table, where its session shares its world with others. None waits, and none is refused.
ghost use Rattle.std.specs.Prelude.{◌≡◌, ◌<◌, IfOk, IfSome, IsSome, None};
ghost use Rattle.erm_model.specs.declared.limits.TheConstants.{TABLES};
ghost use Rattle.erm_model.specs.declared.outcome.Phase.TheVariants.{Safe};
ghost use Rattle.erm_model.specs.RowTransaction.{SameLaw};
ghost use Rattle.erm_node.specs.Sound.{sound_law};
ghost use Rattle.erm_good_report.specs.Phases.{refusal_of};
ghost use Rattle.erm_good_report.specs.Transactions.{table_of};
ghost use Rattle.erm_world.specs.World.{View, phase_at};
ghost use Rattle.erm_beside.specs.Calls.{Passes};
ghost use Rattle.erm_beside.specs.Laws.{GoesOnward};
ghost use Rattle.erm_lines_at_once.specs.Answers.{WasWatchedBeside};

use erm_beside::{SafeSession, SafeTxn, SharedSession};
use erm_lines::scan as look_for_pairs;
use erm_model::{Reply, RowRead, TABLES};
use erm_node::SoundRows;
use erm_report::Answer;
use erm_script::Command;
use std::alloc::{AllocError, Global};

// The value of a key.
fn get<'a, S: SafeSession>(txn: &mut SafeTxn<'a, S>, table: u8, key: u64) -> Answer
    requires law { SameLaw S.law sound_law }
    requires active { ⟦<SafeTxn<'a, S> as RowRead>⟧.face.active txn.old }
    requires table { table < TABLES }
    ensures follows { ⟦<SafeTxn<'a, S> as RowRead>⟧.face.follows txn.old txn.new }
    ensures answered { (f : View) → S.ends txn.new.session.now f → WasWatchedBeside f (S.seat txn.old.session.now) (Command.Get table key) result (S.own txn.old.session.now) (S.own txn.new.session.now) }
{
    match erm_tree::get(txn, table, key) {
        Ok(value) => Answer::Replied(Reply::Value(value)),
        Err(_) => unreachable!(),
    }
}

// The least key at or above `from` that has a value.
fn next<'a, S: SafeSession>(txn: &mut SafeTxn<'a, S>, table: u8, from: u64) -> Answer
    requires law { SameLaw S.law sound_law }
    requires active { ⟦<SafeTxn<'a, S> as RowRead>⟧.face.active txn.old }
    requires table { table < TABLES }
    ensures follows { ⟦<SafeTxn<'a, S> as RowRead>⟧.face.follows txn.old txn.new }
    ensures answered { (f : View) → S.ends txn.new.session.now f → WasWatchedBeside f (S.seat txn.old.session.now) (Command.Next table from) result (S.own txn.old.session.now) (S.own txn.new.session.now) }
{
    match erm_tree::next(txn, table, from) {
        Ok(found) => Answer::Replied(Reply::Pair(found)),
        Err(_) => unreachable!(),
    }
}

// The keys from `low` to `high`, these two too, that have a value. `Err` where memory ran out for them.
fn scan<'a, S: SafeSession>(
    alloc: Global,
    txn: &mut SafeTxn<'a, S>,
    table: u8,
    low: u64,
    high: u64,
) -> Result<Answer, AllocError>
    requires law { SameLaw S.law sound_law }
    requires active { ⟦<SafeTxn<'a, S> as RowRead>⟧.face.active txn.old }
    requires table { table < TABLES }
    ensures follows { ⟦<SafeTxn<'a, S> as RowRead>⟧.face.follows txn.old txn.new }
    ensures answered { IfOk result (λ a. (f : View) → S.ends txn.new.session.now f → WasWatchedBeside f (S.seat txn.old.session.now) (Command.Scan table low high) a (S.own txn.old.session.now) (S.own txn.new.session.now)) }
{
    match look_for_pairs(alloc, txn, table, low, high)? {
        Ok(found) => Ok(Answer::Replied(Reply::Found(found))),
        Err(_) => unreachable!(),
    }
}

// Answers a look of a safe snapshot.
fn look_by<'a, S: SafeSession>(
    alloc: Global,
    txn: &mut SafeTxn<'a, S>,
    command: &Command,
) -> Result<Answer, AllocError>
    requires law { SameLaw S.law sound_law }
    requires active { ⟦<SafeTxn<'a, S> as RowRead>⟧.face.active txn.old }
    requires free { refusal_of Safe command.now ≡ None }
    requires named { IsSome (table_of command.now) }
    requires table { IfSome (table_of command.now) (λ table. table < TABLES) }
    ensures follows { ⟦<SafeTxn<'a, S> as RowRead>⟧.face.follows txn.old txn.new }
    ensures answered { IfOk result (λ a. (f : View) → S.ends txn.new.session.now f → WasWatchedBeside f (S.seat txn.old.session.now) command.now a (S.own txn.old.session.now) (S.own txn.new.session.now)) }
{
    match command {
        Command::Get { table, key } => Ok(get(txn, *table, *key)),
        Command::Next { table, from } => Ok(next(txn, *table, *from)),
        Command::Scan { table, low, high } => scan(alloc, txn, *table, *low, *high),
        _ => unreachable!(),
    }
}

/// Answers a look of a session that has a safe snapshot. `Err` where memory ran out for what was found; also then the session is as it was.
pub fn look<S: SafeSession>(
    alloc: Global,
    session: &mut S,
    shared: &S::Shared,
    command: &Command,
) -> Result<Answer, AllocError>
    requires law { SameLaw S.law sound_law }
    requires stands { S.stands shared.now session.old }
    requires safe { phase_at (S.own session.old) (S.seat session.old) ≡ Safe }
    requires free { refusal_of Safe command.now ≡ None }
    requires named { IsSome (table_of command.now) }
    requires table { IfSome (table_of command.now) (λ table. table < TABLES) }
    ensures stands { S.stands shared.now session.new }
    ensures onward { GoesOnward (S.seat session.old) (S.seat session.new) (S.ends session.old) (S.ends session.new) }
    ensures passes { Passes (S.seat session.old) (S.own session.old) (S.own session.new) }
    ensures answered { IfOk result (λ a. (f : View) → S.ends session.new f → WasWatchedBeside f (S.seat session.old) command.now a (S.own session.old) (S.own session.new)) }
{
    erm_maps::snapshots_find_rows::<SoundRows>();
    let mut txn = SafeTxn { shared, session };
    look_by(alloc, &mut txn, command)
}
