//! What a report owes of the order of its commits, and of the replies of its transactions. Each law is the contract of a function
//! that does nothing.
#![tactic(auto)]

ghost use Rattle.erm_lines.specs.Laws.{PartsHaveSnapshots, RunsAreSerial, RunsHaveSnapshots};
ghost use Rattle.erm_told_order.specs.Told.{CoursesKeepSnapshots, ToldAreSerial, ToldAreSerialWithSnapshots, ToldHaveSafeSnapshots, ToldHaveSnapshots};

/// Where what was said tells a world, each transaction of it was answered as its operations are on the state below its begin stamp.
pub fn told_worlds_have_snapshots()
    ensures { ToldHaveSnapshots }
{
    erm_maps::histories_run_as_operations();
}

/// And its commits, run in the serial order, give their replies.
pub fn told_worlds_are_serial()
    ensures { ToldAreSerial }
{
    erm_core_ssn::serial_order_is_unique();
    erm_maps::histories_run_as_operations();
}

/// Each transaction that a report tells was answered as its operations are on the state below its begin stamp.
pub fn runs_have_snapshots()
    ensures { RunsHaveSnapshots }
{
    erm_told::executions_tell_sessions();
    erm_told::executions_go_on();
    told_worlds_have_snapshots();
}

/// The same of a run that was cut off, whose transactions may not be over.
pub fn parts_have_snapshots()
    ensures { PartsHaveSnapshots }
{
    erm_told::executions_tell_sessions();
    erm_told::executions_go_on();
    told_worlds_have_snapshots();
}

/// Run in the serial order, the commits that a report tells give their replies.
pub fn runs_are_serial()
    ensures { RunsAreSerial }
{
    erm_told::executions_tell_sessions();
    erm_told::executions_go_on();
    told_worlds_are_serial();
}

/// Where what was said tells a world, each snapshot that is kept safe is safe among the commits told, and was answered as its looks are on the
/// state below its begin stamp.
pub fn told_worlds_have_safe_snapshots()
    ensures { ToldHaveSafeSnapshots }
{
    erm_safe_laws::safe_stamps_divide();
    erm_maps::safe_replies_are_snapshots();
}

/// And its commits and the snapshots that ended, run in the serial order of all, give their replies.
pub fn told_worlds_are_serial_with_snapshots()
    ensures { ToldAreSerialWithSnapshots }
{
    told_worlds_are_serial();
    told_worlds_have_safe_snapshots();
    erm_safe_laws::safe_snapshots_run_among_commits();
}

/// Each snapshot that the lines of a run so far tell to be safe is so among the commits told, and was answered as its looks are on the state
/// below its begin stamp.
pub fn courses_keep_snapshots()
    ensures { CoursesKeepSnapshots }
{
    erm_told::executions_tell_sessions();
    erm_told::executions_go_on();
    erm_told::executions_keep_safe();
    erm_safe_world::calls_move_on();
    erm_safe_world::refusals_move_on();
    erm_safe_world::safe_stamps_stay_safe();
    told_worlds_have_safe_snapshots();
}
