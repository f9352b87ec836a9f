//! What a step meets of other seats' transactions, in a sound state: what a refusal says of them is so. Each law is the
//! contract of a function that does nothing.
#![tactic(auto)]

ghost use Rattle.std.specs.Int.{bit_at};
ghost use Rattle.std.specs.Prelude.{◌≡◌, ◌≢◌, ◌⊎◌, ◌↔◌, ◌+◌, ◌<◌, ◌≤◌, ℕ, false, length};
ghost use Rattle.erm_model.specs.Member.{◌∈◌};
ghost use Rattle.erm_machine.specs.declared.attempt.Attempt.{Attempt};
ghost use Rattle.erm_machine.specs.declared.attempt.Decision.TheVariants.{Undecided};
ghost use Rattle.erm_machine.specs.declared.limits.TheConstants.{OBJECT_LIMIT, RING_WORDS};
ghost use Rattle.erm_machine.specs.declared.version.VersionAt.{VersionAt};
ghost use Rattle.erm_machine.specs.Core.{Core, version_at};
ghost use Rattle.erm_machine.specs.Decided.{DecisionFits, MayCommit, RunningFits, history_of};
ghost use Rattle.erm_machine.specs.Facts.{all_of, HasBegun};
ghost use Rattle.erm_machine.specs.Lives.{in_progress};
ghost use Rattle.erm_machine.specs.Settling.{has_room};
ghost use Rattle.erm_machine.specs.Sound.{Sound};
ghost use Rattle.erm_machine.specs.Words.{begin_of, is_clear, number_of, owner_of, state_of};
ghost use Rattle.erm_core_met.specs.Met.{HasGoneBack, HasVersionRead, IsBegunFrom, IsBelow, IsNewer, IsOwner};

/// An entry's owner is a seat whose transaction in progress has that number and has claimed the object.
pub fn owners_are_in_progress()
    ensures { (c : Core) (oid owner : ℕ) → Sound c → oid < OBJECT_LIMIT → 0 < owner → owner_of (c.shared.objects oid).entry ≡ owner
        → IsOwner c oid owner (number_of (c.shared.objects oid).entry) }
{}

/// A version that an undecided transaction finds at or above its begin stamp was made by a committed transaction of another
/// seat, with that stamp.
pub fn newer_versions_are_of_others()
    ensures { (c : Core) (seat oid place : ℕ) → Sound c → oid < OBJECT_LIMIT → place < length (c.shared.objects oid).versions
        → in_progress (c.seats seat).place ≡ 1 → (c.seats seat).current.decision ≡ Undecided
        → (c.seats seat).current.begin ≤ (version_at (c.shared.objects oid) place).words.stamp
        → IsNewer c seat oid (version_at (c.shared.objects oid) place).words.stamp }
{}

/// A seat that a look finds not clear is sealing, or has its stamp below the bound; and the seat whose bit stands at a version
/// has read it in its transaction in progress.
pub fn waits_are_for_others()
    ensures below { (c : Core) (other bound : ℕ) → Sound c → is_clear (state_of (c.seats other).place) bound ≡ false
        → IsBelow c other bound }
    ensures reader { (c : Core) (other : ℕ) (v : VersionAt) → Sound c → v.oid < OBJECT_LIMIT
        → v.place < length (c.shared.objects v.oid).versions
        → bit_at (version_at (c.shared.objects v.oid) v.place).words.readers other ≡ 1 → HasVersionRead c other v }
{}

/// A begin word that a snapshot finds standing is that of a transaction which begins there or later. While a seat has a begin stamp,
/// and hasn't cleared its begin word, that stands.
pub fn waits_have_a_cause()
    ensures cause { (c : Core) (other : ℕ) → Sound c → 0 < begin_of (c.seats other).place
        → IsBegunFrom c other (begin_of (c.seats other).place) }
    ensures stands { (c : Core) (other : ℕ) → Sound c → HasBegun (c.seats other).place → 0 < begin_of (c.seats other).place }
{}

/// A back word that isn't 0, as that which a snapshot finds at or above its begin stamp, is the stamp of a committed transaction of
/// that seat whose successor stamp is less.
pub fn unsafe_snapshots_have_a_cause()
    ensures { (c : Core) (other : ℕ) → Sound c → 0 < (c.seats other).back → HasGoneBack c other (c.seats other).back }
{}

/// The numbers of a decided range are the definitions' over all that is committed; those of a transaction that isn't decided
/// are theirs over a part of it.
pub fn numbers_are_of_commits()
    ensures decided { (c : Core) (seat : ℕ) (t : Attempt) → Sound c → t ∈ all_of (c.seats seat) → 0 < t.stamp → t.decision ≢ Undecided
        → DecisionFits (history_of c.seats) seat t }
    ensures running { (c : Core) (seat : ℕ) → Sound c → (c.seats seat).current.decision ≡ Undecided
        → MayCommit (c.seats seat).place (c.seats seat).task → RunningFits (history_of c.seats) c.shared.tail seat (c.seats seat) }
{}

/// The ring has no room for a block exactly where the block ends behind the place flushed and the ring's words.
pub fn full_rings_have_no_room()
    ensures { (c : Core) (seat : ℕ) → Sound c → 0 < (c.seats seat).current.stamp
        → (has_room c.shared.flushed (c.seats seat).current ≡ false)
        ↔ (c.shared.flushed + RING_WORDS < (c.seats seat).current.stamp + (c.seats seat).current.size) }
{}
