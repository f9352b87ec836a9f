//! Laws of the definitions: each holds as it stands, and its function does nothing.
ghost use Rattle.std.specs.Prelude.{ℕ, ◌≤◌, List, [], length};
ghost use Rattle.erm_model.specs.declared.limits.TheConstants.{LAST_NUMBER};
ghost use Rattle.erm_model.specs.Member.{◌∈◌};
ghost use Rattle.erm_script.specs.declared.script.ScriptLine.{ScriptLine};
ghost use Rattle.erm_script.specs.Script.{IsInRange};
ghost use Rattle.erm_world.specs.World.{IsSession, View};
ghost use Rattle.erm_lines.specs.Executions.{IsOpened};
ghost use Rattle.erm_lines_at_once.specs.CutRuns.{IsCutRunAtOnce};
ghost use Rattle.erm_lines_at_once.specs.Executions.{IsRunAtOnce};

/// A script without lines is run at once in each world that was just opened, and all end in this as it was. So what is owed of each execution at
/// once isn't owed of none.
pub fn empty_scripts_run_at_once()
    ensures { (v : View) → IsOpened v → IsRunAtOnce v [] [] [] v }
{}

/// Each script, of lines in range that are those of sessions, may be cut off before its first answer, in a world that was just opened. So what is
/// owed of each execution that was cut off isn't owed of none, whatever the script.
pub fn scripts_may_be_cut_off_at_once()
    ensures { (v : View) (script : List ScriptLine) → IsOpened v → ((l : ScriptLine) → l ∈ script → IsInRange l.command × IsSession v l.session)
        → length script ≤ LAST_NUMBER → IsCutRunAtOnce v script (λ seat. 0) [] [] v }
{}
