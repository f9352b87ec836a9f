//! The laws by which programs end on a disk as they do, gathered.
ghost use Rattle.erm_client_disk.specs.Ends.{EndLaws};

use crate::laws::{ended_clients_are_done, ended_clients_outlive, openings_outlive};
use erm_closed_log::{closed_tables_have_logs, ranges_of_closed_tables_stand_apart};
use erm_core_end::shown_worlds_may_end;
use erm_node::SoundRows;

/// They hold: the function does nothing.
pub(crate) fn programs_have_laws()
    ensures { EndLaws }
{
    ended_clients_outlive();
    ended_clients_are_done();
    shown_worlds_may_end();
    closed_tables_have_logs::<SoundRows>();
    ranges_of_closed_tables_stand_apart::<SoundRows>();
    openings_outlive();
    erm_node::same_rows_same_map();
    erm_node::zero_rows_are_not_reached();
}
