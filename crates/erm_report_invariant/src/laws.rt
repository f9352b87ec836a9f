//! Laws of reports. Each holds for every value, and its function does nothing.
ghost use Rattle.erm_report_invariant.specs.Reports.{AnswersSee, CommitsKeep, GoodReportsKeep};

use erm_invariant::{
    Invariant, invariants_hold_below, invariants_last_in_order, readers_keep_invariants,
};

/// The commits of a report keep an invariant where each transaction that is told to commit keeps it, by its operations that were answered.
pub fn commits_keep_invariants<I: Invariant>()
    ensures { (invariant : I) → CommitsKeep (I.holds invariant) }
{}

/// Where the map that a good report starts from has an invariant, and each commit that it tells keeps it when it is run alone, the map
/// after each commit in the printed order has it, and so has the map printed; and the replies of each commit, and of each snapshot among
/// them, are those on such a map.
pub fn good_reports_keep_invariants<I: Invariant>()
    ensures { (invariant : I) → GoodReportsKeep (I.holds invariant) }
{
    invariants_last_in_order::<I>();
    readers_keep_invariants::<I>();
}

/// Where the commits below each stamp are a serial run, each transaction told sees the invariant, whether or not it commits.
pub fn answers_see_invariants<I: Invariant>()
    ensures { (invariant : I) → AnswersSee (I.holds invariant) }
{
    invariants_hold_below::<I>();
}
