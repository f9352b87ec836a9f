//! What sessions did on threads, as works in the world in which all ended, and the log of that world. Each law is the contract of a function
//! that does nothing.
ghost use Rattle.erm_run_at_once.specs.Ran.{ScriptsAreSplit, SessionsAreComplete, SessionsDidSomeWorks, SessionsDidWorks, SessionsLeaveLogs};

use erm_closed_log::{closed_tables_have_logs, ranges_of_closed_tables_stand_apart};
use erm_node::SoundRows;

/// The lines of a script at once, by session, are the script split in the world of a table that was just opened.
pub(crate) fn scripts_are_split()
    ensures { ScriptsAreSplit }
{}

/// Sessions that ran on threads, none of which lacked memory, did their works in the world in which all ended.
pub(crate) fn sessions_did_works()
    ensures { SessionsDidWorks }
{
    erm_core_end::shown_worlds_may_end();
}

/// All of them did their works, or some of them, where memory ran out.
pub(crate) fn sessions_did_some_works()
    ensures { SessionsDidSomeWorks }
{
    erm_core_end::shown_worlds_may_end();
}

/// Where the disk hasn't failed, each has answered all its lines and doesn't wait, and all of the log is flushed.
pub(crate) fn sessions_are_complete()
    ensures { SessionsAreComplete }
{}

/// The world in which they ended has a log, whose blocks are those that the desk flushed, and those tried at a turn at which the disk failed.
pub(crate) fn sessions_leave_logs()
    ensures { SessionsLeaveLogs }
{
    closed_tables_have_logs::<SoundRows>();
    ranges_of_closed_tables_stand_apart::<SoundRows>();
}
