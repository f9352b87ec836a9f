//! The windows of the transactions that the report of an execution at once tells are tight. The law is the contract of a function that
//! does nothing.
#![tactic(auto)]

ghost use Rattle.erm_tight_at_once.specs.Laws.{RunsAtOnceHaveTightWindows};

/// The window of each transaction that the report tells with its commit stamp is tight, whether it committed or was excluded.
pub fn runs_at_once_have_tight_windows()
    ensures { RunsAtOnceHaveTightWindows }
{
    erm_core_ssn::rows_run_serially();
    erm_core_ssn::serial_order_is_unique();
    erm_core_ssn::versions_are_unique();
    erm_core_ssn::prefixes_stand_alone();
    erm_node::nodes_are_read_back();
    erm_node::map_has_values_of_records();
    erm_record::record_values();
    erm_tree::calls_stay_in_their_table();
    erm_maps::begun_transactions_are_runs();
    erm_maps::answers_stay();
    erm_told_at_once::runs_at_once_tell();
}
