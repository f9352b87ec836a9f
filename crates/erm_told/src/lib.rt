//! What an execution over a world tells: by the answers to its lines, each session's transactions are those that a report speaks of.
//! Each law is the contract of a function that does nothing.
#![tactic(auto)]

ghost use Rattle.erm_lines.specs.Laws.{ExecutionsGoOn, ExecutionsHold, ExecutionsTell, PartsCutFew, PartsHavePhases, PartsHaveStamps, RunsCloseSessions, RunsCutFew, RunsHavePhases, RunsHaveStamps, RunsTell};
ghost use Rattle.erm_told.specs.Snapshots.{ExecutionsKeepBegins, ExecutionsKeepSafe};

/// After any moves each session's transactions are those that the moves tell, and its phase is the one that the answers leave.
pub fn executions_tell_sessions()
    ensures { ExecutionsTell }
{
    erm_maps::begun_transactions_are_runs();
    erm_maps::answers_stay();
}

/// After any moves a session's transaction in progress holds as many savepoints as its lines tell.
pub fn executions_hold_savepoints()
    ensures { ExecutionsHold }
{
    erm_maps::begun_transactions_are_runs();
    erm_maps::answers_stay();
}

/// Sessions go on by moves, and the opening stays.
pub fn executions_go_on()
    ensures { ExecutionsGoOn }
{
    erm_maps::begun_transactions_are_runs();
    erm_maps::answers_stay();
}

/// The transactions of a run's sessions at its end are those that its report tells, whatever the order in which the sessions were closed.
pub fn runs_tell_sessions()
    ensures { RunsTell }
{
    executions_tell_sessions();
}

/// Each answer of a run fits the phase that the answers before it leave.
pub fn runs_have_phases()
    ensures { RunsHavePhases }
{
    executions_tell_sessions();
    executions_go_on();
}

/// Just the sessions that are not idle after the last line of a run are closed, each with an answer that closes it.
pub fn runs_close_sessions()
    ensures { RunsCloseSessions }
{
    executions_tell_sessions();
    executions_go_on();
}

/// The stamps that the report of a run tells agree.
pub fn runs_have_stamps()
    ensures { RunsHaveStamps }
{
    executions_tell_sessions();
    executions_go_on();
}

/// The same of a run that was cut off: each answer fits the phase that the answers before it leave.
pub fn parts_have_phases()
    ensures { PartsHavePhases }
{
    executions_tell_sessions();
    executions_go_on();
}

/// The stamps that the report of a run that was cut off tells agree, those of transactions that are not over too.
pub fn parts_have_stamps()
    ensures { PartsHaveStamps }
{
    executions_tell_sessions();
    executions_go_on();
}

/// No tidy of a run cuts off more versions than a call of its world does at most.
pub fn runs_cut_few()
    ensures { RunsCutFew }
{
    executions_go_on();
}

/// Nor does one of a run that was cut off.
pub fn parts_cut_few()
    ensures { PartsCutFew }
{
    executions_go_on();
}

/// A snapshot keeps its number and its begin stamp, until it is over and then.
pub fn executions_keep_begins()
    ensures { ExecutionsKeepBegins }
{
    erm_maps::begun_transactions_are_runs();
    erm_maps::answers_stay();
    executions_go_on();
}

/// A snapshot that was told safe stays so: its begin stamp is safe in each later world, and its replies are those on the rows below it.
pub fn executions_keep_safe()
    ensures { ExecutionsKeepSafe }
{
    erm_maps::begun_transactions_are_runs();
    erm_maps::answers_stay();
    erm_safe_world::calls_move_on();
    erm_safe_world::refusals_move_on();
    erm_safe_world::safe_stamps_stay_safe();
}
