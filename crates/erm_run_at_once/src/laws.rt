//! The laws by which a run at once ends on a disk as it does, gathered.
ghost use Rattle.erm_run_at_once.specs.Laws.{EndLaws};

use crate::ran::{
    scripts_are_split, sessions_are_complete, sessions_did_some_works, sessions_did_works,
    sessions_leave_logs,
};

/// They hold: the function does nothing.
pub(crate) fn ends_have_laws()
    ensures { EndLaws }
{
    scripts_are_split();
    sessions_did_works();
    sessions_did_some_works();
    sessions_are_complete();
    sessions_leave_logs();
    erm_works::works_are_a_run();
    erm_works::works_are_a_cut_run();
    erm_works::works_are_a_starved_run();
    erm_works::works_may_be_merged();
    erm_disk_at_once::runs_at_once_end_on_disk();
    erm_disk_at_once::cut_runs_at_once_end_on_disk();
    erm_disk_at_once::starved_runs_at_once_end_on_disk();
    erm_disk_at_once::openings_are_left();
    erm_summary::summaries_are_in_tables();
    erm_node::same_rows_same_map();
    erm_node::map_has_values_of_records();
    erm_node::zero_rows_are_not_reached();
}
