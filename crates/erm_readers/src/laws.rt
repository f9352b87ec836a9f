//! Laws of sound states: what the bits of readers say, and what a settle sees of them. Each holds for every value, and its function
//! does nothing.
ghost use Rattle.std.specs.Int.{bit_at};
ghost use Rattle.std.specs.Prelude.{◌≡◌, ◌≢◌, ◌⊎◌, ℕ, ◌<◌, ◌≤◌, length};
ghost use Rattle.erm_machine.specs.declared.attempt.Attempt.{Attempt};
ghost use Rattle.erm_machine.specs.declared.attempt.Decision.TheVariants.{Commit};
ghost use Rattle.erm_machine.specs.declared.attempt.Read.{Read};
ghost use Rattle.erm_machine.specs.declared.task.Task.TheVariants.{ReadersLeft};
ghost use Rattle.erm_machine.specs.declared.version.VersionAt.{VersionAt};
ghost use Rattle.erm_machine.specs.Core.{Core, claim_at};
ghost use Rattle.erm_machine.specs.Decided.{writes_passed};
ghost use Rattle.erm_machine.specs.Readers.{bit_of, cleared};
ghost use Rattle.erm_machine.specs.Seat.{read_at};
ghost use Rattle.erm_machine.specs.Sound.{Sound};
ghost use Rattle.erm_machine.specs.Words.{with_bit};
ghost use Rattle.erm_model.specs.Member.{◌∈◌};
ghost use Rattle.erm_readers.specs.Calls.{words_of};
ghost use Rattle.erm_readers.specs.Laws.{IsReaderOf};

use erm_machine::OBJECT_LIMIT;

/// A seat's bit is set in each version that its transaction has read and not cleared yet.
pub fn readers_have_their_bits()
    ensures { (c : Core) (p : ℕ) (v : VersionAt) → Sound c → IsReaderOf (c.seats p) v → bit_of c.shared p v.oid v.place ≡ 1 }
{}

/// It is set in no other one.
pub fn bits_are_of_readers()
    ensures { (c : Core) (p : ℕ) (v : VersionAt) → Sound c → v.oid < OBJECT_LIMIT → v.place < length (c.shared.objects v.oid).versions
        → bit_of c.shared p v.oid v.place ≡ 1 → IsReaderOf (c.seats p) v }
{}

/// A committed transaction leaves its bit in each version read, or a reader stamp that is at least its own stamp.
pub fn committed_readers_leave_a_bit_or_a_stamp()
    ensures { (c : Core) (p k : ℕ) → Sound c → (c.seats p).current.decision ≡ Commit → k < length (c.seats p).current.reads
        → IsReaderOf (c.seats p) (read_at (c.seats p).current k).version
        ⊎ ((c.seats p).current.stamp ≤ (words_of c (read_at (c.seats p).current k).version).reader_stamp) }
{}

/// A committed transaction that is over leaves a reader stamp that is at least its own stamp in each version read.
pub fn committed_readers_over_leave_a_stamp()
    ensures { (c : Core) (p : ℕ) (over : Attempt) (read : Read) → Sound c → over ∈ (c.seats p).over → over.decision ≡ Commit → read ∈ over.reads
        → over.stamp ≤ (words_of c read.version).reader_stamp }
{}

/// While a settle looks at the readers of a version overwritten, each other reader with a stamp below its own is among the bits that
/// are left.
pub fn readers_below_are_looked_at()
    ensures { (c : Core) (p q write bits : ℕ) → Sound c → p ≢ q → (c.seats p).task ≡ ReadersLeft write bits
        → IsReaderOf (c.seats q) (claim_at (c.seats p).current write).version
        → 0 < (c.seats q).current.stamp → (c.seats q).current.stamp < (c.seats p).current.stamp → bit_at bits q ≡ 1 }
{}

/// Once it has passed the readers of a version overwritten, another reader has a stamp greater than its own, or none yet: then it
/// gets one from the tail on.
pub fn readers_passed_are_later()
    ensures { (c : Core) (p q write : ℕ) → Sound c → p ≢ q → 0 < (c.seats p).current.stamp
        → write < writes_passed (c.seats p).task (length (c.seats p).current.writes) → write < length (c.seats p).current.writes
        → IsReaderOf (c.seats q) (claim_at (c.seats p).current write).version
        → (((c.seats q).current.stamp ≡ 0) × ((c.seats p).current.stamp < c.shared.tail)) ⊎ ((c.seats p).current.stamp < (c.seats q).current.stamp) }
{}

/// Where the seats 1 and 3 alone are readers, the bits are 10.
pub fn bits_of_two_readers()
    ensures { with_bit (with_bit 0 1) 3 ≡ 10 }
{}
