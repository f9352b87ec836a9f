//! A session that shares its world with others.
ghost use Rattle.std.specs.Prelude.{◌≡◌, ◌<◌, ◌≤◌, ◌↔◌, ℕ, IfErr, IfOk, IsOk, OnOk};
ghost use Rattle.erm_model.specs.declared.limits.TheConstants.{OID_LIMIT, STOP};
ghost use Rattle.erm_model.specs.declared.outcome.Phase.TheVariants.{Active, Idle, Sealed};
ghost use Rattle.erm_model.specs.RowTransaction.{Law, asked_claim, asked_make, asked_read};
ghost use Rattle.erm_world.specs.Calls.{DidAbort, DidClaim, DidMake, DidRead, DidSeal, DidWrite};
ghost use Rattle.erm_world.specs.Laws.{IsLawfulWork, IsSerializable};
ghost use Rattle.erm_world.specs.Saves.{DidNotSave, DidSave, HasNoSave, WentBack};
ghost use Rattle.erm_world.specs.World.{View, phase_at, work_at};
ghost use Rattle.erm_beside.specs.Calls.{After, DidBeginBeside, DidSettleBeside, MayNotBeginBeside, NotClaimedBeside, NotMadeBeside, NotReadBeside, NotSettledBeside, Passes};
ghost use Rattle.erm_beside.specs.Ends.{MetBeside};
ghost use Rattle.erm_beside.specs.Laws.{GoesOnward, IsSound, IsWithin};

use erm_model::{Oid, Outcome, Phase, Receipt, Row, RowStop, Stamp};
use erm_world::{BeginStop, NoSave, NotFlushed, SaveStop, Wait};

/// A session that shares its world with others, which may go on at any time, between its calls and within them. Its meaning is its own
/// view: the world as far as the session knows it, in which only its own part counts, how the world was opened, and how far the log has come
/// at least. What a call met of others is said of each world in which all may end: it stays so.
pub trait SharedSession {
    /// What the sessions of one world share.
    type Shared;

    /// The law that its rows keep.
    ghost law: { Law };

    /// What the session knows.
    ghost own: { Self → View };

    /// Its seat, 1 or above.
    ghost seat: { Self → ℕ };

    /// It may be called on this.
    ghost stands: { Self.Shared → Self → Type 0 };

    /// All sessions may end in this world, as far as this one knows by now.
    ghost ends: { Self → View → Type 0 };

    /// Begins a transaction: the begin stamp, which is the end of the log, in words. None begins where the session knew the log to be at its
    /// end.
    fn begin(&mut self, shared: &Self::Shared) -> Result<Stamp, BeginStop>
        requires stands { stands shared.now self.old }
        requires idle { phase_at (own self.old) (seat self.old) ≡ Idle }
        ensures stands { stands shared.now self.new }
        ensures onward { GoesOnward (seat self.old) (seat self.new) (ends self.old) (ends self.new) }
        ensures below { IfOk result (λ begin. (own self.old).tail < STOP) }
        ensures ok { IfOk result (λ begin. After (seat self.old) (DidBeginBeside (seat self.old) begin) (own self.old) (own self.new)) }
        ensures err { IfErr result (λ stop. After (seat self.old) (MayNotBeginBeside (seat self.old) stop) (own self.old) (own self.new)) };

    /// Its phase.
    fn phase(&self, shared: &Self::Shared) -> Phase
        requires stands { stands shared.now self.now }
        ensures { result ≡ phase_at (own self.now) (seat self.now) };

    /// The row of an object as the transaction sees it: its own where it is claimed, else the newest below its begin stamp, which
    /// then counts as read.
    fn read(&mut self, shared: &Self::Shared, oid: Oid) -> Result<Row, RowStop>
        requires stands { stands shared.now self.old }
        requires active { phase_at (own self.old) (seat self.old) ≡ Active }
        requires object { oid < OID_LIMIT }
        ensures stands { stands shared.now self.new }
        ensures onward { GoesOnward (seat self.old) (seat self.new) (ends self.old) (ends self.new) }
        ensures ok { IfOk result (λ row. After (seat self.old) (λ u t. DidRead u (seat self.old) oid row t) (own self.old) (own self.new)) }
        ensures err { IfErr result (λ stop. After (seat self.old) (NotReadBeside (seat self.old) oid stop) (own self.old) (own self.new)) }
        ensures met { IfErr result (λ stop. (f : View) → ends self.new f → MetBeside f (seat self.old) (asked_read oid) stop (own self.old) (own self.new)) };

    /// Claims an object for writing. Its row stays, and counts as written.
    fn claim(&mut self, shared: &Self::Shared, oid: Oid) -> Result<(), RowStop>
        requires stands { stands shared.now self.old }
        requires active { phase_at (own self.old) (seat self.old) ≡ Active }
        requires object { oid < OID_LIMIT }
        ensures stands { stands shared.now self.new }
        ensures onward { GoesOnward (seat self.old) (seat self.new) (ends self.old) (ends self.new) }
        ensures ok { OnOk result (After (seat self.old) (λ u t. DidClaim u (seat self.old) oid t) (own self.old) (own self.new)) }
        ensures err { IfErr result (λ stop. After (seat self.old) (NotClaimedBeside (seat self.old) oid stop) (own self.old) (own self.new)) }
        ensures met { IfErr result (λ stop. (f : View) → ends self.new f → MetBeside f (seat self.old) (asked_claim oid) stop (own self.old) (own self.new)) };

    /// Sets the row of an object, and claims it where it isn't claimed yet. For a claimed object the answer is `Ok`.
    fn write(&mut self, shared: &Self::Shared, oid: Oid, row: &Row) -> Result<(), RowStop>
        requires stands { stands shared.now self.old }
        requires active { phase_at (own self.old) (seat self.old) ≡ Active }
        requires object { oid < OID_LIMIT }
        ensures stands { stands shared.now self.new }
        ensures onward { GoesOnward (seat self.old) (seat self.new) (ends self.old) (ends self.new) }
        ensures ok { OnOk result (After (seat self.old) (λ u t. DidWrite u (seat self.old) oid row.now t) (own self.old) (own self.new)) }
        ensures err { IfErr result (λ stop. After (seat self.old) (NotClaimedBeside (seat self.old) oid stop) (own self.old) (own self.new)) }
        ensures met { IfErr result (λ stop. (f : View) → ends self.new f → MetBeside f (seat self.old) (asked_claim oid) stop (own self.old) (own self.new)) };

    /// A new object, which nobody else gets.
    fn fresh(&mut self, shared: &Self::Shared) -> Result<Oid, RowStop>
        requires stands { stands shared.now self.old }
        requires active { phase_at (own self.old) (seat self.old) ≡ Active }
        ensures stands { stands shared.now self.new }
        ensures onward { GoesOnward (seat self.old) (seat self.new) (ends self.old) (ends self.new) }
        ensures object { IfOk result (λ oid. oid < OID_LIMIT) }
        ensures ok { IfOk result (λ oid. After (seat self.old) (λ u t. DidMake u (seat self.old) oid t) (own self.old) (own self.new)) }
        ensures err { IfErr result (λ stop. After (seat self.old) (NotMadeBeside (seat self.old) stop) (own self.old) (own self.new)) }
        ensures met { IfErr result (λ stop. (f : View) → ends self.new f → MetBeside f (seat self.old) asked_make stop (own self.old) (own self.new)) };

    /// Claims an object where it isn't claimed yet, and cuts off versions of it that nobody may read any more. It answers how many
    /// these were, which is no more than a call of this world cuts off at most.
    fn tidy(&mut self, shared: &Self::Shared, oid: Oid) -> Result<u32, RowStop>
        requires stands { stands shared.now self.old }
        requires active { phase_at (own self.old) (seat self.old) ≡ Active }
        requires object { oid < OID_LIMIT }
        ensures stands { stands shared.now self.new }
        ensures onward { GoesOnward (seat self.old) (seat self.new) (ends self.old) (ends self.new) }
        ensures ok { OnOk result (After (seat self.old) (λ u t. DidClaim u (seat self.old) oid t) (own self.old) (own self.new)) }
        ensures count { IfOk result (λ cut. cut ≤ (own self.old).opening.cuts) }
        ensures err { IfErr result (λ stop. After (seat self.old) (NotClaimedBeside (seat self.old) oid stop) (own self.old) (own self.new)) }
        ensures met { IfErr result (λ stop. (f : View) → ends self.new f → MetBeside f (seat self.old) (asked_claim oid) stop (own self.old) (own self.new)) };

    /// Saves the transaction's rows as they are, as one savepoint more: how many it holds then. They end with the transaction.
    fn save(&mut self, shared: &Self::Shared) -> Result<u32, SaveStop>
        requires stands { stands shared.now self.old }
        requires active { phase_at (own self.old) (seat self.old) ≡ Active }
        ensures stands { stands shared.now self.new }
        ensures onward { GoesOnward (seat self.old) (seat self.new) (ends self.old) (ends self.new) }
        ensures ok { IfOk result (λ held. After (seat self.old) (λ u t. DidSave u (seat self.old) held t) (own self.old) (own self.new)) }
        ensures err { IfErr result (λ stop. After (seat self.old) (λ u t. DidNotSave u (seat self.old) stop t) (own self.old) (own self.new)) };

    /// Goes back to the savepoint of this number, from 1: each row claimed since is that of the version overwritten, and each one claimed
    /// before is as it was then. The savepoints made since are gone, and this one stays. No claim is given up, and what was read or made
    /// stays so. It takes no memory.
    fn back(&mut self, shared: &Self::Shared, n: u32) -> Result<(), NoSave>
        requires stands { stands shared.now self.old }
        requires active { phase_at (own self.old) (seat self.old) ≡ Active }
        ensures stands { stands shared.now self.new }
        ensures onward { GoesOnward (seat self.old) (seat self.new) (ends self.old) (ends self.new) }
        ensures ok { OnOk result (After (seat self.old) (λ u t. WentBack u (seat self.old) n t) (own self.old) (own self.new)) }
        ensures err { IfErr result (λ stop. After (seat self.old) (λ u t. HasNoSave u (seat self.old) n stop.held t) (own self.old) (own self.new)) };

    /// Seals the transaction: its commit stamp, the place of the log, in words, where its block begins. The transaction keeps the
    /// law of rows.
    fn seal(&mut self, shared: &Self::Shared) -> Stamp
        requires stands { stands shared.now self.old }
        requires active { phase_at (own self.old) (seat self.old) ≡ Active }
        requires lawful { IsLawfulWork law (work_at (own self.old) (seat self.old)) }
        ensures stands { stands shared.now self.new }
        ensures onward { GoesOnward (seat self.old) (seat self.new) (ends self.old) (ends self.new) }
        ensures sealed { After (seat self.old) (λ u t. DidSeal u (seat self.old) result t) (own self.old) (own self.new) };

    /// Decides a sealed transaction by the Serial Safety Net, or says for what it waits.
    fn settle(&mut self, shared: &Self::Shared) -> Result<Outcome, Wait>
        requires stands { stands shared.now self.old }
        requires sealed { phase_at (own self.old) (seat self.old) ≡ Sealed }
        ensures stands { stands shared.now self.new }
        ensures onward { GoesOnward (seat self.old) (seat self.new) (ends self.old) (ends self.new) }
        ensures ok { IfOk result (λ outcome. After (seat self.old) (DidSettleBeside (seat self.old) outcome) (own self.old) (own self.new)) }
        ensures err { IfErr result (λ stop. After (seat self.old) (NotSettledBeside (seat self.old) stop) (own self.old) (own self.new)) };

    /// Whether a commit is on the disk: all words of the log below the receipt's end are synced.
    fn durable(&mut self, shared: &Self::Shared, receipt: &Receipt) -> Result<(), NotFlushed>
        requires stands { stands shared.now self.old }
        ensures stands { stands shared.now self.new }
        ensures onward { GoesOnward (seat self.old) (seat self.new) (ends self.old) (ends self.new) }
        ensures same { Passes (seat self.old) (own self.old) (own self.new) }
        ensures ok { IsOk result ↔ (receipt.now.end ≤ (own self.new).flushed) }
        ensures err { IfErr result (λ stop. stop.flushed ≡ (own self.new).flushed) };

    /// Ends the transaction: nothing that it wrote stays.
    fn abort(&mut self, shared: &Self::Shared)
        requires stands { stands shared.now self.old }
        requires active { phase_at (own self.old) (seat self.old) ≡ Active }
        ensures stands { stands shared.now self.new }
        ensures onward { GoesOnward (seat self.old) (seat self.new) (ends self.old) (ends self.new) }
        ensures aborted { After (seat self.old) (λ u t. DidAbort u (seat self.old) t) (own self.old) (own self.new) };

    /// What is so of it in every state.
    ghost sound: { (shared : Self.Shared) (s : Self) → stands shared s → IsSound law (own s) (seat s) };

    /// What it knows is within each world in which all may end: there it is in a later state.
    ghost within: { (s : Self) (f : View) → ends s f → IsWithin (seat s) (own s) f };

    /// There is a world in which all may end.
    ghost some: { (shared : Self.Shared) (s : Self) → stands shared s → (f : View) × ends s f };

    /// The transactions of a world in which all may end are serializable.
    ghost lasting: { (s : Self) (f : View) → ends s f → IsSerializable law f };
}
