//! The laws of calls of several steps: how far they may have come, that they go on, and that they end. Each law is the contract
//! of a function that does nothing.
#![tactic(auto)]

ghost use Rattle.std.specs.Prelude.{◌≡◌, ◌≢◌, ◌⊎◌, ◌<◌, ℕ, Some, true};
ghost use Rattle.erm_machine.specs.declared.event.Kind.{Kind};
ghost use Rattle.erm_machine.specs.declared.event.Kind.TheVariants as kind;
ghost use Rattle.erm_machine.specs.declared.limits.TheConstants.{OBJECT_LIMIT};
ghost use Rattle.erm_machine.specs.declared.task.Task.TheVariants as task;
ghost use Rattle.erm_machine.specs.Bounds.{OwnBounds};
ghost use Rattle.erm_machine.specs.Core.{Core};
ghost use Rattle.erm_machine.specs.Seat.{is_snapshot};
ghost use Rattle.erm_machine.specs.Sound.{Sound};
ghost use Rattle.erm_machine.specs.Step.{after_event};
ghost use Rattle.erm_machine.specs.Words.{is_session};
ghost use Rattle.erm_core_calls.specs.Ending.{ComesNearer, GoesOnForEver};
ghost use Rattle.erm_core_calls.specs.Going.{IsInCall, IsUnsafe, MayClaim, MayRegister, MayWrite, MovesOn, Registers, Claims, Waits, Written, next_kind};

/// From a sound state each event of each seat leads to one in which each call has come to a version, a claim or a word that is
/// there, and looks at another seat that has words.
pub fn bounds_are_kept()
    ensures seats { (c d : Core) (seat : ℕ) (kind : Kind) → Sound c → after_event c seat kind ≡ Some d
        → (p : ℕ) → OwnBounds p (d.seats p) }
{}

/// A call in progress goes on: in a sound state its seat's next step, whose kind its place and task tell, is taken and moves it
/// on, or it waits for another seat, which it has found sealed below its bound, or sealing, or, looking whether its snapshot is
/// safe, in a transaction that has begun below it; or its snapshot is found unsafe. A step that draws a range, or
/// stores a header, wants a block that fits, and there is always one. A session that has seen the counter of objects raises
/// it; the flush seat, which may see it too, can go on with a read of any object. A version that was found may be registered,
/// and a head that was found claimed, where the transaction has room for one more. A snapshot may end wherever it stands.
pub fn calls_go_on()
    ensures goes { (b : Written) (c : Core) (seat : ℕ) → Sound c → IsInCall (c.seats seat).place (c.seats seat).task
        → ((c.seats seat).task ≡ task.Numbers → is_session seat ≡ true) → MayWrite b (c.seats seat)
        → MovesOn c seat (next_kind b (c.seats seat)) ⊎ Waits c seat ⊎ IsUnsafe c seat }
    ensures blocks { (c : Core) (seat : ℕ) → Sound c → (b : Written) × MayWrite b (c.seats seat) }
    ensures numbers { (c : Core) (seat oid : ℕ) → Sound c → (c.seats seat).task ≡ task.Numbers → oid < OBJECT_LIMIT
        → MovesOn c seat (kind.LoadEntry oid) }
    ensures snapshots { (c : Core) (seat : ℕ) → Sound c → is_snapshot (c.seats seat).task ≡ true → MovesOn c seat (kind.StoreBegin 0) }
    ensures registers { (c : Core) (seat : ℕ) → Sound c → MayRegister seat (c.seats seat) → Registers c seat }
    ensures claims { (c : Core) (seat : ℕ) → Sound c → (m : MayClaim seat (c.seats seat)) → Claims c seat m.version.oid m.entry }
{}

/// A call in progress comes to its end: its seat's next step, where it moves it on, leaves less ahead; an event of another seat
/// leaves the seat's part as it was; so no seat takes next steps of its calls for ever without coming to a place between calls.
/// A begin, a seal and each call of an active transaction end by themselves, and a settle goes on to the end of its
/// transaction.
pub fn calls_end()
    ensures nearer { (b : Written) (c : Core) (seat : ℕ) → Sound c → IsInCall (c.seats seat).place (c.seats seat).task
        → (m : MovesOn c seat (next_kind b (c.seats seat))) → ComesNearer c seat (next_kind b (c.seats seat)) m }
    ensures kept { (c d : Core) (seat other : ℕ) (kind : Kind) → other ≢ seat → IsInCall (c.seats seat).place (c.seats seat).task
        → after_event c other kind ≡ Some d → d.seats seat ≡ c.seats seat }
    ensures ends { (seat : ℕ) (run : ℕ → Core) → GoesOnForEver seat run → ⊥ }
{}
