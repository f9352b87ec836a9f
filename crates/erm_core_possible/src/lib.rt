//! The law that each transaction of the machine, whatever becomes of it, may have begun on rows that meet the law of rows. It is the
//! contract of a function that does nothing.
#![tactic(auto)]

ghost use Rattle.std.specs.Prelude.{ℕ};
ghost use Rattle.erm_model.specs.Member.{◌∈◌};
ghost use Rattle.erm_model.specs.Rows.{Rows};
ghost use Rattle.erm_machine.specs.declared.attempt.Attempt.{Attempt};
ghost use Rattle.erm_machine.specs.Core.{Core};
ghost use Rattle.erm_machine.specs.Facts.{all_of};
ghost use Rattle.erm_sound.specs.Kept.{SoundUnder};
ghost use Rattle.erm_core_view.specs.Views.{work_of};
ghost use Rattle.erm_world.specs.Laws.{FitsWork};

use erm_model::RowLaw;

/// Each transaction of each seat, in progress, committed, excluded or aborted, may have begun on some array of rows that meets the law:
/// the newest rows below its begin stamp are one. No seat need be between two calls.
pub fn attempts_are_possible<L: RowLaw>()
    ensures { (c : Core) (seat : ℕ) (t : Attempt) → SoundUnder L.law c → t ∈ all_of (c.seats seat)
        → (rows : Rows) × L.law.meets rows × FitsWork L.law (work_of t) rows }
{
    erm_core_ssn::commits_are_a_snapshot_history();
    erm_core_ssn::commits_are_certified();
    erm_core_ssn::reads_and_claims_are_snapshots();
    erm_core_ssn::prefixes_stand_alone();
    erm_core_ssn::serial_order_is_unique();
    erm_core_ssn::rows_run_serially();
    erm_core_ssn::versions_are_unique();
}
