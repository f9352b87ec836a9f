//! What an execution at once tells: by the answers to its lines, each session's transactions at the end are those that a report speaks of.
//! Each law is the contract of a function that does nothing.
#![tactic(auto)]

ghost use Rattle.erm_lines_at_once.specs.Laws.{RunsAtOnceAreSerial, RunsAtOnceCloseSessions, RunsAtOnceHavePhases, RunsAtOnceHaveSnapshots, RunsAtOnceHaveStamps, RunsAtOnceRise, RunsAtOnceTell};
ghost use Rattle.erm_lines_at_once.specs.Parts.{RunsInPartAreSerial, RunsInPartHavePhases, RunsInPartHaveSnapshots, RunsInPartHaveStamps, RunsInPartRise, RunsInPartTell};

/// Of an execution that is told in part: the transactions of the sessions are those told, each answer fits the phase that its session's earlier
/// answers leave, the stamps told agree, what a session met of others lies below its later begins, and each transaction told was answered
/// as its operations are on the state below its begin stamp. Run in the serial order, the commits told give their replies.
pub fn runs_in_part_are_told()
    ensures tell { RunsInPartTell }
    ensures phases { RunsInPartHavePhases }
    ensures stamps { RunsInPartHaveStamps }
    ensures rise { RunsInPartRise }
    ensures snapshots { RunsInPartHaveSnapshots }
    ensures serial { RunsInPartAreSerial }
{
    erm_maps::begun_transactions_are_runs();
    erm_maps::answers_stay();
    erm_told_order::told_worlds_have_snapshots();
    erm_told_order::told_worlds_are_serial();
}

/// The transactions of the sessions at the end are those that the report tells.
pub fn runs_at_once_tell()
    ensures { RunsAtOnceTell }
{
    runs_in_part_are_told();
}

/// Each answer fits the phase that its session's earlier answers leave.
pub fn runs_at_once_have_phases()
    ensures { RunsAtOnceHavePhases }
{
    runs_in_part_are_told();
}

/// Just the sessions that are not idle after their last lines are closed, each with an answer that closes it.
pub fn runs_at_once_close_sessions()
    ensures { RunsAtOnceCloseSessions }
{
    erm_maps::begun_transactions_are_runs();
    erm_maps::answers_stay();
}

/// The stamps that the report tells agree.
pub fn runs_at_once_have_stamps()
    ensures { RunsAtOnceHaveStamps }
{
    runs_in_part_are_told();
}

/// What a session met of others lies below its later begins.
pub fn runs_at_once_rise()
    ensures { RunsAtOnceRise }
{
    runs_in_part_are_told();
}

/// Each transaction that the report tells was answered as its operations are on the state below its begin stamp.
pub fn runs_at_once_have_snapshots()
    ensures { RunsAtOnceHaveSnapshots }
{
    runs_in_part_are_told();
}

/// Run in the serial order, the commits that the report tells give their replies.
pub fn runs_at_once_are_serial()
    ensures { RunsAtOnceAreSerial }
{
    runs_in_part_are_told();
}
