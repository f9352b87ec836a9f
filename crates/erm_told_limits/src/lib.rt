//! What a report owes of the limits: the causes of refusals for want of reads, claims, cells and objects. Each law is the contract of
//! a function that does nothing.
#![tactic(auto)]

ghost use Rattle.erm_told_limits.specs.Limits.{CellsAreFull, ClaimsAreFew, EndHasCause, EndsAreInReach, FullHasCause, StampsAreInReach};

/// Each answer to a line that had no room has its cause in the lines so far: reads in the objects that there may be, claims in the
/// transaction's own lines, cells and objects in those of all sessions.
pub fn full_has_cause()
    ensures { FullHasCause }
{
    erm_core_ssn::rows_run_serially();
    erm_core_ssn::serial_order_is_unique();
    erm_core_ssn::versions_are_unique();
    erm_core_ssn::prefixes_stand_alone();
    erm_node::zero_rows_are_not_reached();
    erm_tree::calls_stay_in_their_table();
    erm_maps::begun_transactions_are_runs();
}

/// An answer that tells that cells are full has a count at the number of the run's own world's cells or above it, and the script's lines may claim so many.
pub fn cells_are_full()
    ensures { CellsAreFull }
{
    erm_core_ssn::rows_run_serially();
    erm_core_ssn::serial_order_is_unique();
    erm_core_ssn::versions_are_unique();
    erm_core_ssn::prefixes_stand_alone();
    erm_tree::calls_stay_in_their_table();
    erm_maps::begun_transactions_are_runs();
}

/// Each answer that tells of the end of the log, or of numbers, has its cause: the log's end is no further on than the lines so far may
/// have moved it, and numbers are never at their end.
pub fn end_has_cause()
    ensures { EndHasCause }
{
    erm_core_ssn::rows_run_serially();
    erm_core_ssn::serial_order_is_unique();
    erm_core_ssn::versions_are_unique();
    erm_core_ssn::prefixes_stand_alone();
    erm_tree::calls_stay_in_their_table();
    erm_maps::begun_transactions_are_runs();
}

/// No line begins, or draws a stamp, further on than the lines so far may have moved the log: each of them that draws moves it by a block at most.
pub fn stamps_are_in_reach()
    ensures { StampsAreInReach }
{
    erm_core_ssn::rows_run_serially();
    erm_core_ssn::serial_order_is_unique();
    erm_core_ssn::versions_are_unique();
    erm_core_ssn::prefixes_stand_alone();
    erm_tree::calls_stay_in_their_table();
    erm_maps::begun_transactions_are_runs();
}

/// The log's end is no further on than the lines so far may have moved it.
pub fn ends_are_in_reach()
    ensures { EndsAreInReach }
{
    erm_core_ssn::rows_run_serially();
    erm_core_ssn::serial_order_is_unique();
    erm_core_ssn::versions_are_unique();
    erm_core_ssn::prefixes_stand_alone();
    erm_tree::calls_stay_in_their_table();
    erm_maps::begun_transactions_are_runs();
}

/// A transaction that isn't over has claimed few objects, and no more than its lines so far may.
pub fn claims_are_few()
    ensures { ClaimsAreFew }
{
    erm_core_ssn::rows_run_serially();
    erm_core_ssn::serial_order_is_unique();
    erm_core_ssn::versions_are_unique();
    erm_core_ssn::prefixes_stand_alone();
    erm_tree::calls_stay_in_their_table();
    erm_maps::begun_transactions_are_runs();
}
