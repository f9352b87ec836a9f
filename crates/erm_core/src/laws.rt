//! Laws of room. Each is the contract of a function that does nothing.
ghost use Rattle.std.specs.Prelude.{◌≡◌, ◌≢◌, ◌+◌, ◌*◌, ◌≤◌, ℕ, true, Some, slice_get, vec_len};
ghost use Rattle.erm_machine.specs.declared.event.Kind.{Kind};
ghost use Rattle.erm_machine.specs.declared.event.Kind.TheVariants as kind;
ghost use Rattle.erm_machine.specs.declared.event.TailUse.TheVariants.{Begin};
ghost use Rattle.erm_machine.specs.declared.place.Place.TheVariants.{Idle};
ghost use Rattle.erm_machine.specs.declared.version.VersionAt.{VersionAt};
ghost use Rattle.erm_machine.specs.Words.{is_flusher};
ghost use Rattle.erm_seat.specs.declared.seat.SeatState.{SeatState};
ghost use Rattle.erm_core.specs.declared.need.Need.{Need};
ghost use Rattle.erm_core.specs.declared.need.Need.TheVariants as need;
ghost use Rattle.erm_core.specs.declared.state.State.{State};
ghost use Rattle.erm_core.specs.Cores.{core_of};
ghost use Rattle.erm_core.specs.Rooms.{ranges_in, AddsNothing, GoesOnAfter, HasCallRoom, HasRoom, HasSwapRoom, IsOfCall, IsOfNone, IsSteady, LeavesChain, LeavesNeed, LeavesRoom};

/// The room that was made for a call serves its steps. Most kinds of step need none; nor does the second load of a begin, nor a
/// pin of the flush seat, nor the draw of a range with a row for each claim at most.
pub fn rooms_serve()
    ensures call { (s : State) (seat : ℕ) (n : Need) (k : Kind) → HasCallRoom s seat n → IsOfCall n k → HasRoom s seat k }
    ensures none { (s : State) (seat : ℕ) (k : Kind) → ranges_in k ≡ 0 → IsOfNone k → HasRoom s seat k }
    ensures second { (s : State) (seat : ℕ) → ((core_of s).seats seat).place ≢ Idle → HasRoom s seat (kind.LoadTail Begin) }
    ensures pin { (s : State) (seat : ℕ) → is_flusher seat ≡ true → HasRoom s seat (kind.LoadTail Begin) }
    ensures draw { (s : State) (seat size : ℕ) → ((x : SeatState) → slice_get s.seats.items seat ≡ Some x → size ≤ 5 + 17 * vec_len x.current.writes) → HasRoom s seat (kind.AddTail size) }
    ensures swap { (s : State) (seat oid : ℕ) (v : VersionAt) → v.oid ≡ oid → HasSwapRoom s seat oid → HasRoom s seat (kind.SwapLink v) }
{}

/// The room that was made for a call lasts over steps of other seats, and over those of the own seat that add nothing, by their
/// kind or in fact; that of a claim over those that leave the object's chain. Its exchange leaves the room for the cut, which lasts as well.
pub fn rooms_last()
    ensures others { (s t : State) (p q : ℕ) (k : Kind) (n : Need) → LeavesRoom s t q k → p ≢ q → LeavesNeed k n → HasCallRoom s p n → HasCallRoom t p n }
    ensures own { (s t : State) (p : ℕ) (k : Kind) (n : Need) → LeavesRoom s t p k → AddsNothing k → LeavesNeed k n → HasCallRoom s p n → HasCallRoom t p n }
    ensures steady { (s t : State) (p : ℕ) (k : Kind) (n : Need) → LeavesRoom s t p k → GoesOnAfter k → IsSteady ((core_of s).seats p) ((core_of t).seats p) → LeavesNeed k n
        → HasCallRoom s p n → HasCallRoom t p n }
    ensures claim { (s t : State) (p oid seen number : ℕ) → LeavesRoom s t p (kind.Claim oid seen number) → HasCallRoom s p (need.Claim oid) → HasSwapRoom t p oid }
    ensures swap_others { (s t : State) (p q oid : ℕ) (k : Kind) → LeavesRoom s t q k → p ≢ q → LeavesChain k oid → HasSwapRoom s p oid → HasSwapRoom t p oid }
    ensures swap_own { (s t : State) (p oid : ℕ) (k : Kind) → LeavesRoom s t p k → AddsNothing k → LeavesChain k oid → HasSwapRoom s p oid → HasSwapRoom t p oid }
{}
