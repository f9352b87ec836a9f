//! The laws that nothing stalls: in each sound state in which a transaction isn't over somebody's next event isn't a wait, and waits
//! go in no circle. Each law is the contract of a function that does nothing.
#![tactic(auto)]

ghost use Rattle.std.specs.Prelude.{◌≡◌, ◌≢◌, ◌⊎◌, ◌<◌, ℕ, Some, true, false};
ghost use Rattle.erm_machine.specs.declared.event.Kind.{Kind};
ghost use Rattle.erm_machine.specs.declared.limits.TheConstants.{FLUSH_SEAT};
ghost use Rattle.erm_machine.specs.Core.{Core};
ghost use Rattle.erm_machine.specs.Settling.{has_room};
ghost use Rattle.erm_machine.specs.Sound.{Sound};
ghost use Rattle.erm_machine.specs.Step.{after_event};
ghost use Rattle.erm_core_flush.specs.Turns.{turn_of};
ghost use Rattle.erm_core_stall.specs.Waiting.{flush_turn, level, seat_of, ActsOn, Actor, Chain, GoesOn, IsLeastPending, IsLeastSealed, IsPending, IsSealing, IsUnfinished, NoneSealed, NoneSeals, OnlyPending, TurnsForEver, TurnsOn, WaitsFor};

/// Each wait leads down: to one that seals, to a smaller stamp, or to the turn that makes room, which waits for a stamp below; from a
/// snapshot that looks whether it is safe, to one that has begun below it. So waits go in no circle.
pub fn waits_fall()
    ensures fall { (c : Core) (a b : Actor) → Sound c → WaitsFor c a b → level c b < level c a }
    ensures no_circle { (c : Core) (n : ℕ) (a : Actor) → Sound c → Chain c n a a → ⊥ }
{}

/// Each transaction that isn't over goes on or waits, and never both. Where something is to be flushed the flush seat's turn goes on,
/// or waits for a block.
pub fn each_goes_on_or_waits()
    ensures seats { (c : Core) (p : ℕ) → Sound c → IsUnfinished (c.seats p).place → GoesOn c p ⊎ ((b : Actor) × WaitsFor c (seat_of p) b) }
    ensures not_both { (c : Core) (p : ℕ) (b : Actor) → Sound c → WaitsFor c (seat_of p) b → GoesOn c p → ⊥ }
    ensures turns { (c : Core) → Sound c → c.shared.flushed < c.shared.tail → TurnsOn c ⊎ ((q : ℕ) × WaitsFor c flush_turn (seat_of q)) }
{}

/// Nothing stalls: where a transaction isn't over, somebody's next event isn't a wait. A seat that seals goes on; where none
/// seals, the least sealed one, or the flush seat's turn where the ring has no room for that one's block; where none is sealed, each
/// but a snapshot that looks whether it is safe; and where all look so, the one with the least begin stamp.
pub fn nothing_stalls()
    ensures somebody { (c : Core) (p : ℕ) → Sound c → IsUnfinished (c.seats p).place → (a : Actor) × ActsOn c a }
    ensures sealing { (c : Core) (p : ℕ) → Sound c → IsSealing (c.seats p).place → GoesOn c p }
    ensures sealed { (c : Core) (p stamp : ℕ) → Sound c → NoneSeals c → IsLeastSealed c p stamp
        → has_room c.shared.flushed (c.seats p).current ≡ true → GoesOn c p }
    ensures ring { (c : Core) (p stamp : ℕ) → Sound c → NoneSeals c → IsLeastSealed c p stamp
        → has_room c.shared.flushed (c.seats p).current ≡ false → TurnsOn c }
    ensures active { (c : Core) (p : ℕ) → Sound c → NoneSeals c → NoneSealed c → (IsPending (c.seats p).task → ⊥)
        → IsUnfinished (c.seats p).place → GoesOn c p }
    ensures pending { (c : Core) (p : ℕ) → Sound c → NoneSeals c → NoneSealed c → OnlyPending c → IsLeastPending c p → GoesOn c p }
{}

/// A turn ends: the flush seat doesn't take next steps of its turns for ever without storing a greater place flushed. An event of
/// another seat leaves the turn as it was.
pub fn turns_end()
    ensures ends { (run : ℕ → Core) → TurnsForEver run → ⊥ }
    ensures kept { (c d : Core) (other : ℕ) (kind : Kind) → other ≢ FLUSH_SEAT → after_event c other kind ≡ Some d → turn_of d ≡ turn_of c }
{}
