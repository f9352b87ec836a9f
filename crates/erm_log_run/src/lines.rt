//! One line of a script: of a session, or of the log.
ghost use Rattle.std.specs.Prelude.{◌≡◌, ◌<◌, None, IfOk, IfSome, OnOk};
ghost use Rattle.erm_model.specs.RowTransaction.{SameLaw};
ghost use Rattle.erm_model.specs.declared.limits.TheConstants.{TABLES};
ghost use Rattle.erm_node.specs.Sound.{sound_law};
ghost use Rattle.erm_ckpt.specs.Slots.{removal_end};
ghost use Rattle.erm_good_report.specs.Transactions.{table_of};
ghost use Rattle.erm_world.specs.World.{IsSession};
ghost use Rattle.erm_lines.specs.Answers.{DidLine};
ghost use Rattle.erm_lines.specs.Executions.{DidMove, move_of};
ghost use Rattle.erm_lines.specs.Whole.{AreRunsNow};
ghost use Rattle.erm_log_run.specs.Keeping.{CountsFaults, IsHeld, Keeps, keeper_of};
ghost use Rattle.erm_log_run.specs.Lines.{AreReceipts, IsLineOf};
ghost use Rattle.erm_log_run.specs.Runs.{FailsOfLog, FlushesOnFault};
ghost use Rattle.erm_log_run.specs.Saving.{AreSaved, Removes, RemovesTo, end_by, end_of_command, saved_by};
ghost use Rattle.erm_log_run.specs.Starving.{WhereStarved};

use crate::{LineStop, RowsOf, Store, checkpoint_line, flush_line};
use erm_lines::{answer_durable, answer_line};
use erm_model::Receipt;
use erm_outside::Disk;
use erm_report::Answer;
use erm_script::{Command, ScriptLine};
use erm_world::{SafeWorld, ScriptWorld};
use std::alloc::{AllocError, Global};

// Runs one line of a session, which keeps up its receipt. `Err` where memory ran out.
fn session_line<W: SafeWorld>(
    alloc: Global,
    world: &mut W,
    line: &ScriptLine,
    receipts: &mut [Option<Receipt>],
) -> Result<Answer, AllocError>
    requires stands { W.stands world.old }
    requires law { SameLaw W.law sound_law }
    requires runs { AreRunsNow (W.view world.old) }
    requires session { IsSession (W.view world.old) line.now.session }
    requires no_flush { line.now.command ≡ Command.Flush → ⊥ }
    requires no_checkpoint { line.now.command ≡ Command.Checkpoint → ⊥ }
    requires table { IfSome (table_of line.now.command) (λ table. table < TABLES) }
    requires receipts { AreReceipts (W.view world.old) receipts.old }
    ensures stands { W.stands world.new }
    ensures answered { IfOk result (λ a. DidLine (W.view world.old) line.now a (W.view world.new)) }
    ensures receipts { OnOk result (AreReceipts (W.view world.new) receipts.new) }
{
    erm_maps::begun_transactions_are_runs();
    erm_maps::answers_stay();
    let place = usize::from(line.session - 1);
    let mut receipt = receipts[place];
    if let Command::Durable = line.command {
        return Ok(answer_durable(world, line.session, receipt.as_ref()));
    }
    let answer = answer_line(alloc, world, line, &mut receipt)?;
    receipts[place] = receipt;
    Ok(answer)
}

/// Runs one line of a script. The log's lines are run by the store, which keeps the log on its disk.
pub fn run_line<W: ScriptWorld, D: Disk>(
    alloc: Global,
    world: &mut W,
    store: &mut Store<D>,
    line: &ScriptLine,
    receipts: &mut [Option<Receipt>],
) -> Result<Answer, LineStop>
    requires stands { W.stands world.old }
    requires law { SameLaw W.law sound_law }
    requires runs { AreRunsNow (W.view world.old) }
    requires line { IsLineOf (W.view world.old) line.now }
    requires receipts { AreReceipts (W.view world.old) receipts.old }
    requires held { IsHeld W.rows_law.meets (keeper_of (W.log world.old) store.old (D.told store.old.disk)) }
    ensures stands { W.stands world.new }
    ensures moved { IfOk result (λ a. DidMove (W.view world.old) (move_of line.now a) (W.view world.new)) }
    ensures flushes { FlushesOnFault result (W.view world.old) (W.view world.new) }
    ensures of_log { FailsOfLog result line.now }
    ensures runs { OnOk result (AreRunsNow (W.view world.new)) }
    ensures opening { OnOk result ((W.view world.new).opening ≡ (W.view world.old).opening) }
    ensures receipts { OnOk result (AreReceipts (W.view world.new) receipts.new) }
    ensures keeps { Keeps W.rows_law.meets result (keeper_of (W.log world.old) store.old (D.told store.old.disk)) (keeper_of (W.log world.new) store.new (D.told store.new.disk)) }
    ensures saves { IfOk result (λ a. AreSaved (saved_by a None) (D.told store.new.disk) store.old.slots store.new.slots) }
    ensures removes { IfOk result (λ a. Removes W.rows_law.meets a (D.told store.old.disk) (D.told store.new.disk) store.old.slots store.new.slots) }
    ensures older { RemovesTo result (end_by store.old.slots None) (end_of_command line.now.command (removal_end store.old.slots)) (W.log world.old).flushed (W.log world.new).flushed (D.told store.old.disk) (D.told store.new.disk) }
    ensures counts { CountsFaults result (D.faults store.old.disk) (D.faults store.new.disk) }
    ensures spared { WhereStarved result (store.new ≡ store.old) }
{
    erm_maps::begun_transactions_are_runs();
    erm_maps::answers_stay();
    erm_lines::lines_keep_runs();
    erm_lines::lines_leave_the_log();
    erm_crash::held_logs_stay::<RowsOf<W>>();
    erm_crash::kept_logs_stay::<RowsOf<W>>();
    erm_told_log::met_logs_stay::<RowsOf<W>>();
    match line.command {
        Command::Flush => flush_line(world, store),
        Command::Checkpoint => checkpoint_line(world, store),
        _ => Ok(session_line(alloc, world, line, receipts)?),
    }
}
