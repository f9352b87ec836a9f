//! Laws of runs on a disk whose sessions ran at once. Each holds for every value, and its function does nothing.
ghost use Rattle.erm_disk_invariant.specs.AtOnce.{CutRunsAtOnceKeep, RunsAtOnceKeep};

use erm_invariant::{Invariant, invariants_hold_below};
use erm_report_invariant::{answers_see_invariants, good_reports_keep_invariants};

/// Where the map found on the disk has an invariant, and each commit of the run keeps it when it is run alone, the map printed has it, and
/// so has each map that the commits leave in the printed order; each transaction told is answered from a map that has it; and each image
/// that a crash leaves recovers to one: whatever the interleaving of the sessions was.
pub fn runs_at_once_keep_invariants<I: Invariant>()
    ensures { (invariant : I) → RunsAtOnceKeep (I.holds invariant) }
{
    good_reports_keep_invariants::<I>();
    answers_see_invariants::<I>();
    invariants_hold_below::<I>();
}

/// The same of a run that the disk's fault cut off: of what was printed up to then, and of what a crash leaves.
pub fn cut_runs_at_once_keep_invariants<I: Invariant>()
    ensures { (invariant : I) → CutRunsAtOnceKeep (I.holds invariant) }
{
    invariants_hold_below::<I>();
}
