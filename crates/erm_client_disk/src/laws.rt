//! Laws of what clients leave on a disk: each holds as it stands, and its function does nothing.
ghost use Rattle.erm_client_disk.specs.Laws.{EndedClientsAreDone, EndedClientsOutlive, OpeningsOutlive};

use erm_client::transcripts_are_a_run;
use erm_client_told::{
    starved_transcripts_tell_commits, starved_transcripts_tell_snapshots,
    transcripts_are_a_starved_run, transcripts_tell_commits,
};
use erm_crash::kept_images_may_open;
use erm_disk_at_once::{commits_are_left, commits_outlive};
use erm_node::SoundRows;
use erm_starved_at_once::starved_runs_tell;

/// Wherever clients were told to stop, or memory ran out for them within a line, and whatever the disk did at the desk's last turn, the commits that all their
/// transcripts tell outlive a crash.
pub fn ended_clients_outlive()
    ensures { EndedClientsOutlive }
{
    commits_outlive();
    transcripts_are_a_starved_run();
    starved_transcripts_tell_commits();
    starved_transcripts_tell_snapshots();
    starved_runs_tell();
}

/// Where none was told to stop, memory sufficed each, and the disk hasn't failed, their transcripts are a script that was run at once, and at the end the disk recovers to the map
/// behind all commits.
pub fn ended_clients_are_done()
    ensures { EndedClientsAreDone }
{
    commits_are_left();
    transcripts_are_a_run();
    transcripts_tell_commits();
    transcripts_are_a_starved_run();
    starved_transcripts_tell_commits();
    starved_transcripts_tell_snapshots();
    starved_runs_tell();
}

/// Where no program ran behind an opening, each image that a crash leaves recovers to the map found.
pub fn openings_outlive()
    ensures { OpeningsOutlive }
{
    kept_images_may_open::<SoundRows>();
}
