//! Laws of what transcripts tell: each holds as it stands, and its function does nothing.
ghost use Rattle.erm_client_told.specs.Starved.{StarvedTranscriptsTellCommits, StarvedTranscriptsTellSnapshots, TranscriptsAreAStarvedRun};
ghost use Rattle.erm_client_told.specs.Told.{TranscriptsAreACutRun, TranscriptsTellCommits, WholeTranscriptsTellCommits};

use erm_cut_at_once::cut_runs_close_unseen;
use erm_starved_at_once::starved_runs_tell;
use erm_told_at_once::runs_at_once_close_sessions;
use erm_works::works_are_a_cut_run;

/// Wherever clients were told to stop, their transcripts, one behind another, are a script that was cut off, with the answers to the first lines of each.
pub fn transcripts_are_a_cut_run()
    ensures { TranscriptsAreACutRun }
{
    works_are_a_cut_run();
}

/// The commits that this execution tells are just those that the transcripts tell: no session was decided behind its client. So it is of one that ran to
/// its end.
pub fn transcripts_tell_commits()
    ensures cut { TranscriptsTellCommits }
    ensures whole { WholeTranscriptsTellCommits }
{
    cut_runs_close_unseen();
    runs_at_once_close_sessions();
}

/// Where memory ran out for some clients within a line, of which their transcripts have nothing, and wherever others were told to stop, the transcripts are an
/// execution of their script all the same: of the clients that starved only what their last line did isn't told.
pub fn transcripts_are_a_starved_run()
    ensures { TranscriptsAreAStarvedRun }
{}

/// The commits that it tells are just those that the transcripts tell.
pub fn starved_transcripts_tell_commits()
    ensures { StarvedTranscriptsTellCommits }
{
    starved_runs_tell();
}

/// And each snapshot that a transcript tells to have ended was answered as on the state that those of these commits make that lie below its begin stamp.
pub fn starved_transcripts_tell_snapshots()
    ensures { StarvedTranscriptsTellSnapshots }
{
    starved_runs_tell();
}
