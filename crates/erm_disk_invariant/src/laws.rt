//! Laws of runs on a disk. Each holds for every value, and its function does nothing.
ghost use Rattle.erm_disk_invariant.specs.Runs.{CutRunsKeep, NextRunsFind, RunsKeep, StarvedRunsKeep};

use erm_invariant::{Invariant, invariants_hold_below};
use erm_report_invariant::{answers_see_invariants, good_reports_keep_invariants};

/// Where the map found on the disk has an invariant, and each commit of the run keeps it when it is run alone, the map printed has it, and
/// so has each map that the commits leave in the printed order; each transaction told is answered from a map that has it; and each image
/// that a crash leaves recovers to one.
pub fn runs_keep_invariants<I: Invariant>()
    ensures { (invariant : I) → RunsKeep (I.holds invariant) }
{
    good_reports_keep_invariants::<I>();
    answers_see_invariants::<I>();
    invariants_hold_below::<I>();
}

/// The same of a run that the disk's fault cut off: of what was printed up to then, and of what a crash leaves.
pub fn cut_runs_keep_invariants<I: Invariant>()
    ensures { (invariant : I) → CutRunsKeep (I.holds invariant) }
{
    answers_see_invariants::<I>();
    invariants_hold_below::<I>();
}

/// The same of what a crash leaves of a run for which no memory was left.
pub fn starved_runs_keep_invariants<I: Invariant>()
    ensures { (invariant : I) → StarvedRunsKeep (I.holds invariant) }
{
    invariants_hold_below::<I>();
}

/// What the next run finds on the disk has the invariant, so that it goes on from there, wherever the run before was stopped.
pub fn next_runs_find_invariants<I: Invariant>()
    ensures { (invariant : I) → NextRunsFind (I.holds invariant) }
{
    invariants_hold_below::<I>();
}
