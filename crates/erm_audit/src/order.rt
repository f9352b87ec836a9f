//! The serial order of commits.
ghost use Rattle.std.specs.Prelude.{◌≡◌, ◌<◌, IfOk, length, map, AllPairs, IsPermutation};
ghost use Rattle.std.specs.List.{range_with_len, enumerate_from};
ghost use Rattle.erm_model.specs.SerialOrder.{IsSerialOrder, StampsDiffer, rank_of_commit};
ghost use Rattle.erm_audit.specs.Order.{commits_at, HasTurnBefore};

use erm_model::{Commit, Stamp};
use std::alloc::{AllocError, Global};
use std::cmp::Reverse;

// What places a commit in the serial order, and where it stood: ascending, these are in the serial order.
#[derive(Clone, Copy, PartialEq, Eq, PartialOrd, Ord)]
struct Turn {
    succ: Stamp,
    stamp: Reverse<Stamp>,
    place: usize,
}

/// The places of the commits in the serial order: by successor stamp ascending, then by commit stamp descending. Of
/// commits that are equal in both, the one at the smaller place comes first.
pub fn serial_order(alloc: Global, commits: &[Commit]) -> Result<Vec<usize>, AllocError>
    ensures all { IfOk result (λ places.
        IsPermutation (range_with_len 0 (length commits.now)) places.items) }
    ensures in_turn { IfOk result (λ places. AllPairs (HasTurnBefore commits.now) places.items) }
    ensures serial { IfOk result (λ places. StampsDiffer rank_of_commit commits.now
        → IsSerialOrder rank_of_commit commits.now (commits_at commits.now places.items)) }
{
    let mut turns = turns_of(alloc, commits)?;
    turns.sort()?;
    places_of(alloc, &turns)
}

// The turns of the commits, as they stand.
fn turns_of(alloc: Global, commits: &[Commit]) -> Result<Vec<Turn>, AllocError>
    ensures { IfOk result (λ turns. turns.items
        ≡ map (λ c. record { succ = c.1.succ; stamp = record { 0 = c.1.stamp }; place = c.0 })
        (enumerate_from 0 commits.now)) }
{
    commits
        .iter()
        .enumerate()
        .map(|(place, commit)| Turn {
            succ: commit.succ,
            stamp: Reverse(commit.stamp),
            place,
        })
        .collect(alloc)
}

// Where the commits of these turns stood.
fn places_of(alloc: Global, turns: &[Turn]) -> Result<Vec<usize>, AllocError>
    ensures { IfOk result (λ places. places.items ≡ map (λ turn. turn.place) turns.now) }
{
    turns.iter().map(|turn| turn.place).collect(alloc)
}
