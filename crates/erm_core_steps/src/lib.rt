//! Steps of a session, one after another, and what a view of the sessions shows of them: what every world over the machine
//! stands on, whatever it keeps its state in. Most of it are lemmas; the law is the contract of a function that does nothing.
#![tactic(auto)]

ghost use Rattle.std.specs.Prelude.{ℕ};
ghost use Rattle.erm_machine.specs.Core.{Core};
ghost use Rattle.erm_core_steps.specs.Steps.{IsUnseen};

/// What a view doesn't show of steps of a session, it doesn't show of them together either.
pub fn unseen_steps_go_on()
    ensures none { (sessions seat : ℕ) (c : Core) → IsUnseen sessions seat c c }
    ensures both { (sessions seat : ℕ) (c d e : Core) → IsUnseen sessions seat c d → IsUnseen sessions seat d e → IsUnseen sessions seat c e }
{}
