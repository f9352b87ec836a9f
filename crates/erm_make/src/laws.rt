//! Laws of the workload. Each holds for every value, and its function does nothing.
ghost use Rattle.std.specs.Prelude.{◌≡◌, ℕ, ◌≤◌, List, true, false};
ghost use Rattle.erm_model.specs.declared.limits.TheConstants.{SESSIONS};
ghost use Rattle.erm_script.specs.declared.grammar.Grammar.{Grammar};
ghost use Rattle.erm_script.specs.declared.script.ScriptLine.{ScriptLine};
ghost use Rattle.erm_script.specs.Script.{IsScript};
ghost use Rattle.erm_make.specs.Draws.{draw};
ghost use Rattle.erm_make.specs.Texts.{lines_but_flushes, requests_but_flushes, script_text};
ghost use Rattle.erm_make.specs.Workload.{names_of, numbered, workload};

/// A workload is a script: its lines are those that its text spells, with its sessions, where there are flushes and no
/// threads. So is what is left of it without flushes, where there are just the commands of transactions on one key.
pub fn workloads_are_scripts()
    ensures whole { (g : Grammar) (count sessions : ℕ) → 1 ≤ count → 1 ≤ sessions → sessions ≤ SESSIONS
        → sessions ≤ g.sessions → g.log ≡ true → g.threads ≡ false
        → IsScript g (script_text (names_of count sessions) (numbered 1 (workload count sessions))) (names_of count sessions)
        (numbered 1 (workload count sessions)) }
    ensures but_flushes { (g : Grammar) (count sessions : ℕ) → 1 ≤ count → 1 ≤ sessions → sessions ≤ SESSIONS
        → sessions ≤ g.sessions
        → IsScript g (script_text (names_of count sessions) (lines_but_flushes (numbered 1 (workload count sessions))))
        (names_of count sessions) (numbered 1 (requests_but_flushes (workload count sessions))) }
{}

/// What is read from the text of a workload without flushes is that workload.
pub fn workloads_are_read_back()
    ensures { (g : Grammar) (count sessions : ℕ) (names : List (List ℕ)) (lines : List ScriptLine)
        → 1 ≤ count → 1 ≤ sessions → sessions ≤ SESSIONS → sessions ≤ g.sessions
        → IsScript g (script_text (names_of count sessions) (lines_but_flushes (numbered 1 (workload count sessions)))) names lines
        → (names ≡ names_of count sessions) × (lines ≡ numbered 1 (requests_but_flushes (workload count sessions))) }
{
    erm_script::scripts_have_one_reading();
}

/// The first keys that are drawn.
pub fn first_draws_are_known()
    ensures first { draw 0 ≡ 6 }
    ensures second { draw 1 ≡ 62 }
{}
