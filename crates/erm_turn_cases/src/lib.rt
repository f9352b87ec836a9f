//! Sessions of one world, called by turns: each as one that shares the world with others, of which none goes on meanwhile.
#![tactic(auto)]

ghost use Rattle.erm_turn_cases.specs.Turns.{TurnsAreOwnRuns};

mod lines;
mod snapshots;
mod turns;

pub use lines::try_line;
pub use turns::turn;

/// In the world in which turns end, each session's own lines are a run of its own, while the others go on: by what each turn says. Where
/// all may end in that world, the turns are an execution at once.
pub fn turns_are_own_runs()
    ensures { TurnsAreOwnRuns }
{
    erm_safe_world::calls_move_on();
}
