//! The windows of the transactions that a run's report tells are tight, and its objects are made by puts of new keys alone. Each law is the
//! contract of a function that does nothing.
#![tactic(auto)]

ghost use Rattle.erm_lines.specs.Laws.{RunsHaveTightWindows};
ghost use Rattle.erm_tight.specs.NewKeys.{KeysAreNewOnce, OidsAreFull};

/// The window of each transaction that a run's report tells with its commit stamp is tight, whether it committed or was excluded: its
/// predecessor stamp is at least that of each commit below its begin that overwrites the record of a key which it got, put or deleted, and
/// its successor stamp is at most that of the next commit that overwrites the record of a key which it read.
pub fn runs_have_tight_windows()
    ensures { RunsHaveTightWindows }
{
    erm_core_ssn::rows_run_serially();
    erm_core_ssn::serial_order_is_unique();
    erm_core_ssn::versions_are_unique();
    erm_core_ssn::prefixes_stand_alone();
    erm_node::nodes_are_read_back();
    erm_node::map_has_values_of_records();
    erm_record::record_values();
    erm_maps::begun_transactions_are_runs();
    erm_maps::answers_stay();
    erm_told::runs_tell_sessions();
}

/// Where objects are full, the lines so far put new keys, as many as make all the objects that may be made: a put of a key that a commit
/// below its transaction's begin had put so that the put stayed, as the lines before it tell, makes none.
pub fn oids_are_full()
    ensures { OidsAreFull }
{
    erm_core_ssn::rows_run_serially();
    erm_core_ssn::serial_order_is_unique();
    erm_core_ssn::versions_are_unique();
    erm_core_ssn::prefixes_stand_alone();
    erm_node::nodes_are_read_back();
    erm_node::map_has_values_of_records();
    erm_record::record_values();
    erm_tree::calls_stay_in_their_table();
    erm_maps::begun_transactions_are_runs();
    erm_maps::answers_stay();
    erm_told::executions_tell_sessions();
}

/// So many puts of one key that a commit has put make no objects: in a report that tells objects full behind a second one of them the key is new once.
pub fn keys_are_new_once()
    ensures { KeysAreNewOnce }
{}
