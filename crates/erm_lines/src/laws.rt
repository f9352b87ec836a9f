//! Laws of lines. Their functions do nothing.
ghost use Rattle.std.specs.Prelude.{◌≡◌, ℕ};
ghost use Rattle.erm_report.specs.declared.answer.Answer.{Answer};
ghost use Rattle.erm_script.specs.declared.script.ScriptLine.{ScriptLine};
ghost use Rattle.erm_world.specs.World.{View};
ghost use Rattle.erm_lines.specs.Answers.{DidLine};
ghost use Rattle.erm_lines.specs.Executions.{DidEnd, DidLogLine};
ghost use Rattle.erm_lines.specs.Laws.{ClosesLeaveTheLog, LinesLeaveTheLog};
ghost use Rattle.erm_lines.specs.Whole.{AreRunsNow};

/// Where each transaction in progress is the run of some operations, each still is after a line of a session, after one of the log, and
/// after a session was closed. So the next line may be run.
pub fn lines_keep_runs()
    ensures lines { (v t : View) (l : ScriptLine) (a : Answer) → AreRunsNow v → DidLine v l a t → AreRunsNow t × (t.opening ≡ v.opening) }
    ensures logs { (v t : View) (l : ScriptLine) (a : Answer) → AreRunsNow v → DidLogLine v l a t → AreRunsNow t × (t.opening ≡ v.opening) }
    ensures ends { (v t : View) (seat : ℕ) (a : Answer) → AreRunsNow v → DidEnd v seat a t → AreRunsNow t × (t.opening ≡ v.opening) }
{
    erm_maps::begun_transactions_are_runs();
}

/// A line of a session, and a session's close, leave what the flusher and the pin say of the log.
pub fn lines_leave_the_log()
    ensures lines { LinesLeaveTheLog }
    ensures closes { ClosesLeaveTheLog }
{}
