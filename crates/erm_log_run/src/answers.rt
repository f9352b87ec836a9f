//! The lines of a script, one after another.
ghost use Rattle.std.specs.Prelude.{◌≡◌, [], OnOk};
ghost use Rattle.erm_model.specs.RowTransaction.{SameLaw};
ghost use Rattle.erm_node.specs.Sound.{sound_law};
ghost use Rattle.erm_lines.specs.Whole.{AreRunsNow};
ghost use Rattle.erm_log_run.specs.Acknowledged.{KeepsTold};
ghost use Rattle.erm_log_run.specs.Keeping.{CountsFaults, IsHeld, Keeps, keeper_of};
ghost use Rattle.erm_log_run.specs.Lines.{AreLinesOf, AreReceipts};
ghost use Rattle.erm_log_run.specs.Runs.{Ran};
ghost use Rattle.erm_log_run.specs.Saving.{AreSaved, RemovesTo, removed_to, removing_to, saved_at};
ghost use Rattle.erm_log_run.specs.Starving.{Starves, WhereStarved};

use crate::{LineStop, RowsOf, Store, run_line};
use erm_model::Receipt;
use erm_outside::Disk;
use erm_report::Answer;
use erm_script::ScriptLine;
use erm_world::ScriptWorld;
use std::alloc::Global;

/// Runs each line of a script, one after another, and adds their answers: up to the line at which the disk failed, where it did.
pub fn answer_all<W: ScriptWorld, D: Disk>(
    alloc: Global,
    world: &mut W,
    store: &mut Store<D>,
    script: &[ScriptLine],
    receipts: &mut [Option<Receipt>],
    answers: &mut Vec<Answer>,
) -> Result<(), LineStop>
    requires stands { W.stands world.old }
    requires law { SameLaw W.law sound_law }
    requires runs { AreRunsNow (W.view world.old) }
    requires lines { AreLinesOf (W.view world.old) script.now }
    requires receipts { AreReceipts (W.view world.old) receipts.old }
    requires none { answers.old.items ≡ [] }
    requires held { IsHeld W.rows_law.meets (keeper_of (W.log world.old) store.old (D.told store.old.disk)) }
    ensures stands { W.stands world.new }
    ensures ran { Ran result (W.view world.old) script.now answers.new.items (W.view world.new) }
    ensures keeps { Keeps W.rows_law.meets result (keeper_of (W.log world.old) store.old (D.told store.old.disk)) (keeper_of (W.log world.new) store.new (D.told store.new.disk)) }
    ensures told { KeepsTold W.rows_law.meets result answers.new.items (D.told store.old.disk) (keeper_of (W.log world.new) store.new (D.told store.new.disk)) }
    ensures saves { OnOk result (AreSaved (saved_at answers.new.items) (D.told store.old.disk) store.old.slots store.new.slots) }
    ensures older { RemovesTo result (λ _. removed_to store.old.slots answers.new.items) (removing_to store.old.slots script.now answers.new.items) (W.log world.old).flushed (W.log world.new).flushed (D.told store.old.disk) (D.told store.new.disk) }
    ensures counts { CountsFaults result (D.faults store.old.disk) (D.faults store.new.disk) }
    ensures starved { WhereStarved result (Starves W.rows_law.meets (W.view world.old) script.now (keeper_of (W.log world.old) store.old (D.told store.old.disk)) (D.told store.new.disk)) }
{
    erm_crash::kept_logs_begin::<RowsOf<W>>();
    for line in script {
        let answer = run_line(alloc, world, store, line, receipts)?;
        answers.push(answer)?;
    }
    Ok(())
}
