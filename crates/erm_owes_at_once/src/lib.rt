//! What the report of an execution at once owes to its answers, clause by clause together. Each law is the contract of a function that
//! does nothing.
#![tactic(auto)]

ghost use Rattle.erm_owes_at_once.specs.Laws.{RunsAtOnceOwe, RunsInPartOwe};

/// All that a report owes to its answers is so of an execution that is told in part, each line of whose script may have been run in part:
/// phases, stamps, the replies of each transaction on its snapshot, those of the commits and of the safe snapshots that ended in the serial
/// order, the causes of commits, of exclusions, of refusals, of what is told of the log, and of savepoints, what is owed of snapshots
/// that only read; and what was met lies below what is begun later.
pub fn runs_in_part_owe()
    ensures { RunsInPartOwe }
{
    erm_told_at_once::runs_in_part_are_told();
    erm_causes_at_once::runs_in_part_have_causes();
    erm_causes_at_once::runs_in_part_have_safe_snapshots();
    erm_causes_at_once::runs_in_part_tell_log();
    erm_limits_at_once::runs_in_part_refuse_for_room();
}

/// All that a report owes to its answers is so of an execution at once: phases, stamps, the replies of each transaction on its snapshot,
/// the causes of commits, of exclusions, of refusals, and of what is told of the log and of savepoints, what is owed of snapshots that only
/// read; and what was met lies below what is begun later.
pub fn runs_at_once_owe()
    ensures { RunsAtOnceOwe }
{
    erm_told_at_once::runs_in_part_are_told();
    erm_causes_at_once::runs_in_part_have_causes();
    erm_causes_at_once::runs_in_part_have_safe_snapshots();
    erm_causes_at_once::runs_in_part_tell_log();
    erm_limits_at_once::runs_in_part_refuse_for_room();
}
