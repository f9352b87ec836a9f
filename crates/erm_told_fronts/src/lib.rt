//! The commits of a run below any stamp, as a serial run of their own: what a crash leaves is what these commits leave, with the replies
//! that they were given. Each law is the contract of a function that does nothing.
#![tactic(auto)]

ghost use Rattle.erm_told_fronts.specs.Fronts.{CoursesRunInFronts, ToldFrontsRun};
ghost use Rattle.erm_told_fronts.specs.Logs.{CoursesSee, LogsKeep};

use erm_invariant::{Invariant, invariants_hold_below};

/// Where what was said tells a world, its commits below any stamp, run in the serial order, give their replies.
pub fn told_fronts_run()
    ensures { ToldFrontsRun }
{
    erm_core_ssn::rows_run_serially();
    erm_core_ssn::serial_order_is_unique();
    erm_core_ssn::versions_are_unique();
    erm_core_ssn::prefixes_stand_alone();
}

/// The commits that a run so far tells, those below any stamp, give their replies in the serial order.
pub fn courses_run_in_fronts()
    ensures { CoursesRunInFronts }
{
    erm_told::executions_tell_sessions();
    erm_told::executions_go_on();
    told_fronts_run();
}

/// Where the map that a run starts from has an invariant, and each commit that it tells keeps it when it is run alone, each transaction
/// told is answered from a map that has it, also one that was refused.
pub fn courses_see_invariants<I: Invariant>()
    ensures { (invariant : I) → CoursesSee (I.holds invariant) }
{
    erm_told::executions_tell_sessions();
    erm_told::executions_go_on();
    erm_told_order::told_worlds_have_snapshots();
    courses_run_in_fronts();
    invariants_hold_below::<I>();
}

/// And the rows behind each block of its log stand for a map that has it.
pub fn logs_keep_invariants<I: Invariant>()
    ensures { (invariant : I) → LogsKeep (I.holds invariant) }
{
    courses_run_in_fronts();
    erm_told_crash::logs_tell_states();
    invariants_hold_below::<I>();
}
