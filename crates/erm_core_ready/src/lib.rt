//! Which seat's next event isn't a wait, in the running machine.
#![tactic(auto)]

ghost use Rattle.std.specs.Prelude.{◌≡◌, ◌+◌, ◌<◌, ℕ, MatchBool, MatchOption};
ghost use Rattle.erm_machine.specs.Core.{Core};
ghost use Rattle.erm_machine.specs.Settling.{has_room};
ghost use Rattle.erm_machine.specs.Sound.{Sound};
ghost use Rattle.erm_core.specs.Cores.{core_of};
ghost use Rattle.erm_core_stall.specs.Waiting.{IsLeastPending, IsLeastSealed, IsPending, IsSealedAt, IsSealing, IsUnfinished, NoneSealed, NoneSeals, OnlyPending};
ghost use Rattle.erm_core_ready.specs.Next.{AllOver, FoundAt, FoundBelow, HasBegin, HasStamp, IsActing, IsNext};

use erm_core::State;
use erm_machine::{ANNOUNCERS, FLUSH_SEAT, Place, Task};
use erm_model::{Seat, Stamp};

// A sealed seat and its stamp, or one that isn't over and its begin stamp.
#[derive(Clone, Copy)]
struct Least {
    seat: Seat,
    stamp: Stamp,
}

// Whether the transaction, or the pin, isn't over.
fn is_unfinished(place: Place) -> bool
    ensures { MatchBool result (IsUnfinished place) (IsUnfinished place → ⊥) }
{
    !matches!(place, Place::Vacant | Place::Idle)
}

// Whether the state word is 1.
fn is_sealing(place: Place) -> bool
    ensures { MatchBool result (IsSealing place) (IsSealing place → ⊥) }
{
    matches!(place, Place::Sealing { .. } | Place::Drawn { .. })
}

// The stamp that is the state word.
fn sealed_at(place: Place) -> Option<Stamp>
    ensures { MatchOption result ((s : ℕ) → IsSealedAt s place → ⊥) (λ stamp. IsSealedAt stamp place) }
{
    match place {
        Place::Sealed { stamp, .. } | Place::Decided { stamp, .. } | Place::Leaving { stamp } => {
            Some(stamp)
        }
        _ => None,
    }
}

// Whether a snapshot looks whether it is safe.
fn is_pending(task: Task) -> bool
    ensures { MatchBool result (IsPending task) (IsPending task → ⊥) }
{
    matches!(task, Task::Surveys { .. } | Task::Behind { .. })
}

fn place_of(state: &State, seat: Seat) -> Place
    requires { seat < ANNOUNCERS }
    ensures { result ≡ ((core_of state.now).seats seat).place }
{
    state.seat(seat).place
}

fn task_of(state: &State, seat: Seat) -> Task
    requires { seat < ANNOUNCERS }
    ensures { result ≡ ((core_of state.now).seats seat).task }
{
    state.seat(seat).task
}

// Whether the seat has something to do but to look whether a snapshot is safe.
fn acts(state: &State, seat: Seat) -> bool
    requires { seat < ANNOUNCERS }
    ensures { MatchBool result (IsActing (core_of state.now) seat) (IsActing (core_of state.now) seat → ⊥) }
{
    is_unfinished(place_of(state, seat)) && !is_pending(task_of(state, seat))
}

// The begin stamp of a seat that isn't over.
fn begun_at(state: &State, seat: Seat) -> Option<Stamp>
    requires { seat < ANNOUNCERS }
    ensures { FoundAt (HasBegin (core_of state.now)) seat result }
{
    if is_unfinished(place_of(state, seat)) {
        Some(state.seat(seat).current.begin)
    } else {
        None
    }
}

// Whether the ring has room for the seat's block.
fn fits(state: &State, seat: Seat) -> bool
    requires { seat < ANNOUNCERS }
    ensures { result ≡ has_room (core_of state.now).shared.flushed ((core_of state.now).seats seat).current }
{
    state.seat(seat).current.has_room(state.flushed())
}

// A seat that seals.
fn sealing(state: &State) -> Option<Seat>
    requires sound { Sound (core_of state.now) }
    ensures { MatchOption result (NoneSeals (core_of state.now)) (λ seat. IsSealing ((core_of state.now).seats seat).place) }
{
    for seat in 0..ANNOUNCERS {
        if is_sealing(place_of(state, seat)) {
            return Some(seat);
        }
    }
    None
}

// The lesser one, of the least so far and one more.
fn lesser(least: Option<Least>, seat: Seat, stamp: Option<Stamp>) -> Option<Least>
    requires { seat < ANNOUNCERS }
    ensures sealed { (c : Core) → FoundAt (HasStamp c) seat stamp → FoundBelow (HasStamp c) seat least → FoundBelow (HasStamp c) (seat + 1) result }
    ensures begun { (c : Core) → FoundAt (HasBegin c) seat stamp → FoundBelow (HasBegin c) seat least → FoundBelow (HasBegin c) (seat + 1) result }
{
    match (stamp, least) {
        (None, _) => least,
        (Some(stamp), None) => Some(Least { seat, stamp }),
        (Some(stamp), Some(found)) => Some(if found.stamp <= stamp {
            found
        } else {
            Least { seat, stamp }
        }),
    }
}

// The seat that is sealed with the least stamp.
fn least_sealed(state: &State) -> Option<Least>
    requires sound { Sound (core_of state.now) }
    ensures { MatchOption result (NoneSealed (core_of state.now)) (λ found. (found.seat < ANNOUNCERS) × IsLeastSealed (core_of state.now) found.seat found.stamp) }
{
    let mut least = None;
    for seat in 0..ANNOUNCERS {
        least = lesser(least, seat, sealed_at(place_of(state, seat)));
    }
    least
}

// A seat that has something to do but to look whether a snapshot is safe.
fn acting(state: &State) -> Option<Seat>
    requires sound { Sound (core_of state.now) }
    ensures { MatchOption result (OnlyPending (core_of state.now)) (IsActing (core_of state.now)) }
{
    for seat in 0..ANNOUNCERS {
        if acts(state, seat) {
            return Some(seat);
        }
    }
    None
}

// The seat that isn't over with the least begin stamp, of equal ones the lowest.
fn earliest(state: &State) -> Option<Least>
    requires sound { Sound (core_of state.now) }
    ensures { MatchOption result (AllOver (core_of state.now)) (λ found. IsLeastPending (core_of state.now) found.seat) }
{
    let mut least = None;
    for seat in 0..ANNOUNCERS {
        least = lesser(least, seat, begun_at(state, seat));
    }
    least
}

/// The seat whose next event isn't a wait: one that seals; else the least sealed one, or the flush seat, for a turn, where the ring
/// has no room for that one's block; else one that begins or is active, and doesn't look whether its snapshot is safe; else, of those
/// that look so, the one with the least begin stamp, and of equal ones the lowest. None exactly where each transaction is over.
pub fn ready(state: &State) -> Option<Seat>
    requires sound { Sound (core_of state.now) }
    ensures { MatchOption result (AllOver (core_of state.now)) (IsNext (core_of state.now)) }
{
    erm_core_stall::nothing_stalls();
    if let Some(seat) = sealing(state) {
        return Some(seat);
    }
    if let Some(least) = least_sealed(state) {
        return Some(if fits(state, least.seat) {
            least.seat
        } else {
            FLUSH_SEAT
        });
    }
    if let Some(seat) = acting(state) {
        return Some(seat);
    }
    match earliest(state) {
        Some(found) => Some(found.seat),
        None => None,
    }
}
