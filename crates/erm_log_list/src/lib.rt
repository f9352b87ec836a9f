//! The laws of the log: the newest rows below a place of it meet the law of rows; what is decided of it is a log list, which stays
//! and goes on. Each law is the contract of a function that does nothing.
#![tactic(auto)]

ghost use Rattle.std.specs.Prelude.{◌≡◌, ◌<◌, ◌≤◌, ℕ, List, ◌++◌, Some};
ghost use Rattle.erm_machine.specs.declared.event.Kind.{Kind};
ghost use Rattle.erm_machine.specs.Core.{Core};
ghost use Rattle.erm_machine.specs.Decided.{history_of};
ghost use Rattle.erm_machine.specs.Lawful.{opening_rows};
ghost use Rattle.erm_block.specs.declared.block.Block.{Block};
ghost use Rattle.erm_model.specs.History.{HasNewestRows};
ghost use Rattle.erm_model.specs.Rows.{Rows};
ghost use Rattle.erm_machine.specs.Sound.{Sound};
ghost use Rattle.erm_machine.specs.Step.{after_event};
ghost use Rattle.erm_sound.specs.Kept.{Keeps, SoundUnder};
ghost use Rattle.erm_log_list.specs.LogOf.{IsDecidedUpTo, IsLogUpTo};

use erm_model::RowLaw;

/// The newest rows below a place of the log, those that the commits below it leave, meet the law of rows.
pub fn newest_rows_meet_the_law<L: RowLaw>()
    ensures { (c : Core) (bound : ℕ) (rows : Rows) → SoundUnder L.law c → 0 < bound
        → HasNewestRows (history_of c.seats) (opening_rows c.shared) bound rows → L.law.meets rows }
{
    erm_core_ssn::commits_are_certified();
    erm_core_ssn::commits_are_a_snapshot_history();
    erm_core_ssn::reads_and_claims_are_snapshots();
    erm_core_ssn::newest_rows_stay_lawful::<L>();
}

/// Where all ranges below a place of the log are decided, and the last ends there, their blocks are a chain of the log list from the
/// opening's place on: its commits are what is committed below the place, and its rows the newest below it.
pub fn blocks_are_a_log_list<L: RowLaw>()
    ensures { (c : Core) (to : ℕ) → SoundUnder L.law c → IsDecidedUpTo c to → (blocks : List Block) × IsLogUpTo L.law c to blocks }
{
    newest_rows_meet_the_law::<L>();
    erm_block::spelling_size();
    erm_core_ssn::commits_are_certified();
    erm_core_ssn::commits_are_a_snapshot_history();
}

/// What is decided of the log stays: after each event the ranges below the place are still decided, and their blocks are the same.
pub fn logs_stay<L: RowLaw>()
    ensures decided { (c d : Core) (seat : ℕ) (kind : Kind) (to : ℕ) → Sound c → after_event c seat kind ≡ Some d
        → IsDecidedUpTo c to → IsDecidedUpTo d to }
    ensures blocks { (c d : Core) (seat : ℕ) (kind : Kind) (to : ℕ) (blocks : List Block) → SoundUnder L.law c → Keeps L.law c seat kind
        → after_event c seat kind ≡ Some d → IsDecidedUpTo c to → IsLogUpTo L.law c to blocks → IsLogUpTo L.law d to blocks }
{
    erm_sound::events_keep_sound();
    erm_sound::events_keep_law::<L>();
    erm_core_blocks::decided_transactions_stay();
    erm_block::one_spelling();
    blocks_are_a_log_list::<L>();
}

/// The log up to a place is one list of blocks, and up to a later place it goes on with more.
pub fn logs_go_on<L: RowLaw>()
    ensures one { (c : Core) (to : ℕ) (a b : List Block) → Sound c → IsLogUpTo L.law c to a → IsLogUpTo L.law c to b → a ≡ b }
    ensures more { (c : Core) (from to : ℕ) (a b : List Block) → Sound c → from ≤ to → IsLogUpTo L.law c from a → IsLogUpTo L.law c to b
        → (more : List Block) × (b ≡ a ++ more) }
{
    erm_block::one_spelling();
}
