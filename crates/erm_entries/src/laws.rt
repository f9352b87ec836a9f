//! Laws of entries, for a caller with a view that is one of a sound state. Each holds for every value, and its function does
//! nothing.
ghost use Rattle.std.specs.Prelude.{◌≡◌, ◌<◌, ◌^◌, ℕ, Option};
ghost use Rattle.erm_entries.specs.Calls.{LeadsToSnapshot};
ghost use Rattle.erm_entries.specs.Spelling.{entry_of, owned_by};
ghost use Rattle.erm_machine.specs.declared.task.Task.TheVariants.{Walks};
ghost use Rattle.erm_machine.specs.declared.version.VersionAt.{VersionAt};
ghost use Rattle.erm_machine.specs.Core.{Core};
ghost use Rattle.erm_machine.specs.Facts.{Holds};
ghost use Rattle.erm_machine.specs.Sound.{Sound};
ghost use Rattle.erm_machine.specs.Words.{claimed, number_of, owner_of};

use erm_machine::OBJECT_LIMIT;

/// A claim leaves an entry's head, and sets its owner and number.
pub fn claimed_entries_are_spelled()
    ensures claimed { (word seat number : ℕ) → seat < 2 ^ 8
        → entry_of (claimed word seat number) ≡ owned_by seat number (entry_of word) }
    ensures example { claimed 5 1 2 ≡ 8606711813 }
{}

/// An entry's owner is the one seat that claims the object, and its number that of the seat's transaction.
pub fn entries_tell_their_owners()
    ensures owner { (c : Core) (q oid : ℕ) → Sound c → Holds (c.seats q) oid
        → owner_of (c.shared.objects oid).entry ≡ q }
    ensures number { (c : Core) (q oid : ℕ) → Sound c → Holds (c.seats q) oid
        → number_of (c.shared.objects oid).entry ≡ (c.seats q).current.number }
    ensures holder { (c : Core) (q oid : ℕ) → Sound c → oid < OBJECT_LIMIT → 0 < q
        → owner_of (c.shared.objects oid).entry ≡ q → Holds (c.seats q) oid }
{}

/// From a version in hand, whose stamp a read is to load, the walk leads to the version of the transaction's snapshot.
pub fn walks_lead_to_snapshots()
    ensures { (c : Core) (who : ℕ) (version : VersionAt) (head : Option ℕ) → Sound c → (c.seats who).task ≡ Walks version head
        → LeadsToSnapshot c who version }
{}
