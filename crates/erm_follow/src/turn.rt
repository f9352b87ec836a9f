//! The commits that wait, by turn.
ghost use Rattle.std.specs.Prelude.{◌≡◌, ◌<◌, ◌≤◌, IsTrue, false, IfOk, List, [], ◌∷◌, ◌++◌, drop, nat_lt};
ghost use Rattle.std.specs.List.{take_while};
ghost use Rattle.std.specs.BTreeSet.{btree_set_len, IsOrdered};
ghost use Rattle.erm_follow.specs.contracts.turn.TurnOrd.TheImpl as turn_order;
ghost use Rattle.erm_model.specs.declared.history.Commit.{Commit};
ghost use Rattle.erm_follow.specs.declared.seen.Broken.{Broken};
ghost use Rattle.erm_follow.specs.Waiting.{commit_of, commits_of_turns, IsLeastFrom};

use crate::Broken;
use erm_model::{Commit, Seat, Stamp};
use std::alloc::{AllocError, Global};
use std::cmp::Reverse;
use std::collections::BTreeSet;

/// A commit by what places it in the serial order: ascending, turns are in the serial order.
#[derive(Clone, Copy, PartialEq, Eq, PartialOrd, Ord)]
pub struct Turn {
    pub succ: Stamp,
    pub stamp: Reverse<Stamp>,
    pub seat: Seat,
    pub number: u32,
}

/// The turn of a commit.
pub fn turn_of(commit: Commit) -> Turn
    ensures { commit_of result ≡ commit }
{
    Turn {
        succ: commit.succ,
        stamp: Reverse(commit.stamp),
        seat: commit.seat,
        number: commit.number,
    }
}

/// The commits whose successor stamp is below a bound, in turn.
pub fn commits_below(
    alloc: Global,
    waiting: &BTreeSet<Turn>,
    bound: Stamp,
) -> Result<Vec<Commit>, AllocError>
    ensures below { IfOk result (λ lines.
        lines.items ≡ commits_of_turns (take_while (λ t. nat_lt t.succ bound) waiting.now.keys)) }
    ensures ordered { IsOrdered turn_order.ghosts.cmp waiting.now }
{
    waiting
        .iter()
        .take_while(|turn| turn.succ < bound)
        .map(|turn| Commit {
            seat: turn.seat,
            number: turn.number,
            stamp: turn.stamp.0,
            succ: turn.succ,
        })
        .collect(alloc)
}

/// Which of these commits, whose successor stamps lie below the safe stamp, breaks it: the one with the least stamp.
pub fn broken_by(safe: Stamp, commits: &[Commit]) -> Option<Broken>
    ensures { IsLeastFrom safe commits.now result }
{
    let mut least = None;
    for commit in commits {
        least = lesser(safe, least, commit);
    }
    least
}

// Which breaks the safe stamp, with one more commit.
fn lesser(safe: Stamp, least: Option<Broken>, commit: &Commit) -> Option<Broken>
    ensures { (commits : List Commit) → IsLeastFrom safe commits least
        → IsLeastFrom safe (commits ++ commit.now ∷ []) result }
{
    if commit.stamp < safe || !is_less(commit.stamp, least) {
        return least;
    }
    Some(Broken {
        safe,
        stamp: commit.stamp,
        succ: commit.succ,
    })
}

// Whether no commit that breaks the safe stamp has this stamp or a smaller one.
fn is_less(stamp: Stamp, least: Option<Broken>) -> bool
    ensures less { IsTrue result → (b : Broken) → least ≡ Some b → stamp < b.stamp }
    ensures more { result ≡ false → (b : Broken) × (least ≡ Some b) × (b.stamp ≤ stamp) }
{
    match least {
        Some(broken) => stamp < broken.stamp,
        None => true,
    }
}

/// Takes the first turns away.
pub fn drop_first(waiting: &mut BTreeSet<Turn>, count: usize)
    requires { count ≤ btree_set_len waiting.old }
    ensures { waiting.new.keys ≡ drop count waiting.old.keys }
{
    for _ in 0..count {
        waiting.pop_first();
    }
}
