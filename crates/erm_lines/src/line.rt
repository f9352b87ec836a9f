//! One line of a session.
ghost use Rattle.std.specs.Prelude.{◌≡◌, ◌<◌, ℕ, List, IfOk, IfSome, IsSome, None, OnOk};
ghost use Rattle.erm_model.specs.declared.limits.TheConstants.{TABLES};
ghost use Rattle.erm_model.specs.declared.outcome.Phase.TheVariants.{Active};
ghost use Rattle.erm_model.specs.RowTransaction.{SameLaw};
ghost use Rattle.erm_model.specs.Run.{Step};
ghost use Rattle.erm_node.specs.Sound.{sound_law};
ghost use Rattle.erm_maps.specs.Runs.{IsRunOf, kept_at};
ghost use Rattle.erm_good_report.specs.Phases.{HasNoSnapshot, need_of, refusal_of};
ghost use Rattle.erm_good_report.specs.Transactions.{table_of};
ghost use Rattle.erm_world.specs.World.{IsSession, phase_at};
ghost use Rattle.erm_lines.specs.Answers.{DidLine, KeepsReceipt};
ghost use Rattle.erm_lines.specs.Whole.{WasAnswered};

use crate::ends::{abort, begin, commit, seal, settle};
use crate::operations::{del, get, next, put, scan};
use crate::phases::{is_snapshot, refusal_of};
use crate::saves::{back, save};
use crate::snapshots::{begin_snapshot, watch};
use crate::tidy::tidy;
use erm_model::{Receipt, RowRead, Seat};
use erm_report::Answer;
use erm_script::{Command, ScriptLine};
use erm_world::{RowWorld, SafeWorld, WorldTxn};
use std::alloc::{AllocError, Global};

// Answers a command that names a table.
fn operate_by<'a, W: RowWorld>(
    alloc: Global,
    txn: &mut WorldTxn<'a, W>,
    command: &Command,
) -> Result<Answer, AllocError>
    requires law { SameLaw W.law sound_law }
    requires active { ⟦<WorldTxn<'a, W> as RowRead>⟧.face.active txn.old }
    requires ran { (steps : List Step) × IsRunOf (kept_at (W.view txn.old.world.now) txn.old.seat) steps }
    requires named { IsSome (table_of command.now) }
    requires table { IfSome (table_of command.now) (λ table. table < TABLES) }
    ensures same { txn.new.world.ghost_name ≡ txn.old.world.ghost_name }
    ensures stands { W.stands txn.new.world.now }
    ensures answered { IfOk result (λ a. WasAnswered (W.view txn.old.world.now) txn.old.seat command.now a (W.view txn.new.world.now)) }
{
    match command {
        Command::Get { table, key } => get(txn, *table, *key),
        Command::Put { table, key, value } => put(txn, *table, *key, value),
        Command::Del { table, key } => del(txn, *table, *key),
        Command::Next { table, from } => next(txn, *table, *from),
        Command::Scan { table, low, high } => scan(alloc, txn, *table, *low, *high),
        Command::Tidy { table, key } => tidy(txn, *table, *key),
        _ => unreachable!(),
    }
}

// The same of an active session of a world.
fn operate<W: RowWorld>(
    alloc: Global,
    world: &mut W,
    seat: Seat,
    command: &Command,
) -> Result<Answer, AllocError>
    requires law { SameLaw W.law sound_law }
    requires stands { W.stands world.old }
    requires session { IsSession (W.view world.old) seat }
    requires active { phase_at (W.view world.old) seat ≡ Active }
    requires ran { (steps : List Step) × IsRunOf (kept_at (W.view world.old) seat) steps }
    requires named { IsSome (table_of command.now) }
    requires table { IfSome (table_of command.now) (λ table. table < TABLES) }
    ensures stands { W.stands world.new }
    ensures answered { IfOk result (λ a. WasAnswered (W.view world.old) seat command.now a (W.view world.new)) }
{
    let mut txn = WorldTxn { world, seat };
    operate_by(alloc, &mut txn, command)
}

// Answers a command that the phase of a session without a snapshot allows, and keeps the receipt of the session's last commit.
fn run<W: SafeWorld>(
    alloc: Global,
    world: &mut W,
    seat: Seat,
    command: &Command,
    receipt: &mut Option<Receipt>,
) -> Result<Answer, AllocError>
    requires law { SameLaw W.law sound_law }
    requires stands { W.stands world.old }
    requires session { IsSession (W.view world.old) seat }
    requires plain { HasNoSnapshot (phase_at (W.view world.old) seat) }
    requires free { refusal_of (phase_at (W.view world.old) seat) command.now ≡ None }
    requires asks { IsSome (need_of command.now) }
    requires ran { phase_at (W.view world.old) seat ≡ Active → (steps : List Step) × IsRunOf (kept_at (W.view world.old) seat) steps }
    requires table { IfSome (table_of command.now) (λ table. table < TABLES) }
    ensures stands { W.stands world.new }
    ensures answered { IfOk result (λ a. WasAnswered (W.view world.old) seat command.now a (W.view world.new)) }
    ensures kept { OnOk result (KeepsReceipt (W.view world.old) seat receipt.old (W.view world.new) receipt.new) }
{
    match command {
        Command::Begin => begin(world, seat),
        Command::Safe => begin_snapshot(world, seat),
        Command::Save => save(world, seat),
        Command::Back { n } => Ok(back(world, seat, *n)),
        Command::Seal => Ok(seal(world, seat)),
        Command::Settle => Ok(settle(world, seat, receipt)),
        Command::Commit => Ok(commit(world, seat, receipt)),
        Command::Abort => Ok(abort(world, seat)),
        _ => operate(alloc, world, seat, command),
    }
}

/// Runs one line of a session, and gives its answer. Where its session has a transaction in progress, this is the run of some
/// operations. The line needs something of its session: it isn't one of `durable`, `flush` and `checkpoint`. It keeps the receipt of the session's
/// last commit, which is `None` where the session has committed nothing. `Err` where memory ran out.
pub fn answer_line<W: SafeWorld>(
    alloc: Global,
    world: &mut W,
    line: &ScriptLine,
    receipt: &mut Option<Receipt>,
) -> Result<Answer, AllocError>
    requires law { SameLaw W.law sound_law }
    requires stands { W.stands world.old }
    requires session { IsSession (W.view world.old) line.now.session }
    requires asks { IsSome (need_of line.now.command) }
    requires table { IfSome (table_of line.now.command) (λ table. table < TABLES) }
    requires ran { phase_at (W.view world.old) line.now.session ≡ Active → (steps : List Step) × IsRunOf (kept_at (W.view world.old) line.now.session) steps }
    ensures stands { W.stands world.new }
    ensures answered { IfOk result (λ a. DidLine (W.view world.old) line.now a (W.view world.new)) }
    ensures kept { OnOk result (KeepsReceipt (W.view world.old) line.now.session receipt.old (W.view world.new) receipt.new) }
{
    let phase = world.phase(line.session);
    if let Some(refusal) = refusal_of(phase, &line.command) {
        return Ok(refusal);
    }
    if is_snapshot(phase) {
        return watch(alloc, world, line.session, &line.command);
    }
    run(alloc, world, line.session, &line.command, receipt)
}
