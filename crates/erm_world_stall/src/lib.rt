//! The laws of waits between sessions, whatever the world: they go in no circle, and the session sealed with the least stamp waits for
//! no other. Each law is the contract of a function that does nothing.
#![tactic(auto)]

ghost use Rattle.std.specs.Prelude.{◌≡◌, ◌<◌, ◌≤◌, ℕ};
ghost use Rattle.erm_model.specs.declared.row_stop.RowStop.TheVariants.{NotYet};
ghost use Rattle.erm_world.specs.declared.stops.Wait.{Wait};
ghost use Rattle.erm_world.specs.declared.stops.Wait.TheVariants.{Ring};
ghost use Rattle.erm_world.specs.Calls.{DidNotRead, DidNotSettle};
ghost use Rattle.erm_world.specs.World.{View};
ghost use Rattle.erm_world_stall.specs.Waiting.{bound_at, Chain, IsLeastSealed, NoneSealed, WaitsFor};

/// A session waits for one that is sealed below its own begin stamp or commit stamp, so waits go in no circle.
pub fn session_waits_fall()
    ensures fall { (v : View) (p q : ℕ) → WaitsFor v p q → bound_at v q < bound_at v p }
    ensures no_circle { (v : View) (n p : ℕ) → Chain v n p p → ⊥ }
{}

/// A settle of the session sealed with the least stamp waits for no other session, but for the ring; and not even for that once all
/// below its stamp is flushed. Where no session is sealed no read waits.
pub fn least_sealed_settles()
    ensures settles { (v t : View) (seat stamp : ℕ) (w : Wait) → IsLeastSealed v seat stamp → DidNotSettle v seat w t → w ≡ Ring v.flushed }
    ensures room { (v t : View) (seat stamp : ℕ) (w : Wait) → IsLeastSealed v seat stamp → stamp ≤ v.flushed → DidNotSettle v seat w t → ⊥ }
    ensures reads { (v t : View) (seat oid other seen : ℕ) → NoneSealed v → DidNotRead v seat oid (NotYet other seen) t → ⊥ }
{}
