//! Laws of runs. Each holds for every value, and its function does nothing.
ghost use Rattle.std.specs.Prelude.{◌<◌, ℕ, List};
ghost use Rattle.erm_ckpt.specs.Recovered.{State};
ghost use Rattle.erm_crash.specs.Moments.{IsMoment, TearsApart};
ghost use Rattle.erm_model.specs.Committed.{Committed};
ghost use Rattle.erm_node.specs.Sound.{IsSound, sound_law};
ghost use Rattle.erm_outside.specs.Disk.{Step, contents};
ghost use Rattle.erm_recover.specs.Waiting.{OnceSettled, SinceSettled};
ghost use Rattle.erm_report.specs.declared.answer.Answer.{Answer};
ghost use Rattle.erm_log_run.specs.Acknowledged.{GoesOnFrom};
ghost use Rattle.erm_disk_run.specs.Crashes.{KeepsCommits, KeepsSince};
ghost use Rattle.erm_disk_run.specs.Found.{IsKept, ReadsAs};
ghost use Rattle.erm_disk_run.specs.Owed.{CoursesOwe};
ghost use Rattle.erm_disk_run.specs.TwoRuns.{HasCommits, KeepsOfBoth};

use erm_node::SoundRows;

/// The answers of a run so far, and the sessions that it closed, are what a report owes.
pub(crate) fn courses_owe_to_answers()
    ensures { CoursesOwe }
{
    erm_told::executions_tell_sessions();
    erm_told::executions_go_on();
    erm_told_order::told_worlds_have_snapshots();
    erm_causes::runs_touch_tables();
    erm_causes::runs_refuse_for_others();
    erm_causes::runs_tell_log();
    erm_causes::runs_tell_saves();
    erm_causes::runs_draw_in_reach();
    erm_causes::courses_have_safe_snapshots();
    erm_told_limits::full_has_cause();
    erm_told_limits::end_has_cause();
    erm_told_limits::stamps_are_in_reach();
}

/// Of two places that a run acknowledges the greater one was reached later: where it is greater than the place to which the disk recovered at the
/// moment of the lesser one, and at that moment the disk shows each block and each slot that was written whole, or none.
pub fn greater_places_are_reached_later()
    ensures { (commits : List Committed) (from : State) (a b : Answer) (place other : ℕ) (old new : List Step)
        → (one : KeepsSince commits from a place old new) (two : KeepsSince commits from b other old new)
        → TearsApart sound_law.meets one.mid (contents one.mid) → one.holds.found.at < other → GoesOnFrom one.mid two.mid }
{
    erm_ckpt::one_recovery::<SoundRows>();
}

/// Wherever a run is stopped, the disk that it leaves may be opened, if it shows then each block and each slot that was written whole, or none: so it
/// is of a whole run, also right behind a removal of a segment, and of one that was stopped while the log was being opened.
pub fn stopped_runs_may_be_followed()
    ensures runs { (commits : List Committed) (from : State) (old new now : List Step)
        → IsKept old → SinceSettled (KeepsCommits commits from from.at) old new → IsMoment old new now → TearsApart sound_law.meets now (contents now) → IsKept now }
    ensures openings { (commits : List Committed) (from : State) (old new now : List Step)
        → IsKept old → OnceSettled (KeepsCommits commits from from.at) old new → IsMoment old new now → TearsApart sound_law.meets now (contents now) → IsKept now }
{
    erm_ckpt::one_recovery::<SoundRows>();
}

/// What a run acknowledges is there in the next one, wherever the first was stopped, also with writes pending: what the disk then reads recovers
/// to all of it, and so does each image at each moment of the next run, before that has waited for what was pending and afterwards.
pub fn next_runs_keep_what_was_acknowledged()
    ensures found { (commits : List Committed) (from found : State) (a : Answer) (place : ℕ) (old entry : List Step)
        → KeepsSince commits from a place old entry → TearsApart sound_law.meets entry (contents entry) → ReadsAs found entry → IsSound found.rows
        → HasCommits commits from place found }
    ensures keeps { (first second : List Committed) (from found : State) (a : Answer) (place : ℕ) (old entry new : List Step)
        → KeepsSince first from a place old entry → HasCommits first from place found → SinceSettled (KeepsCommits second found found.at) entry new
        → KeepsOfBoth first from place second found entry new }
{
    erm_ckpt::one_recovery::<SoundRows>();
    erm_node::same_rows_same_map();
}
