//! What an execution at once owes of the limits: the causes of refusals for want of reads, claims, cells and objects. Each law is the
//! contract of a function that does nothing.
#![tactic(auto)]

ghost use Rattle.erm_limits_at_once.specs.Laws.{RunsAtOnceFillCells, RunsAtOnceRefuseForRoom, RunsInPartFillCells, RunsInPartRefuseForRoom};

/// Of an execution that is told in part: each answer to a line that had no room has its cause in the whole script, and cells are full at the number
/// that the world has.
pub fn runs_in_part_refuse_for_room()
    ensures room { RunsInPartRefuseForRoom }
    ensures cells { RunsInPartFillCells }
{
    erm_core_ssn::rows_run_serially();
    erm_core_ssn::serial_order_is_unique();
    erm_core_ssn::versions_are_unique();
    erm_core_ssn::prefixes_stand_alone();
    erm_node::zero_rows_are_not_reached();
    erm_tree::calls_stay_in_their_table();
    erm_maps::begun_transactions_are_runs();
    erm_maps::answers_stay();
}

/// Each answer to a line that had no room has its cause in the script: for claims in the transaction's own lines so far, for reads in
/// these and in the objects that there may be, for cells and objects in the lines of all sessions. Cells are full at the number that the world has.
pub fn runs_at_once_refuse_for_room()
    ensures room { RunsAtOnceRefuseForRoom }
    ensures cells { RunsAtOnceFillCells }
{
    runs_in_part_refuse_for_room();
}
