//! A session with the pass of its seat, as one that shares its world with others.
ghost use Rattle.std.specs.Prelude.{◌≡◌, ◌≢◌, ◌<◌, ◌≤◌, ◌↔◌, IfErr, IfOk, IsOk, OnOk};
ghost use Rattle.erm_beside.specs.Calls.{After, DidBeginBeside, DidSettleBeside, MayNotBeginBeside, NotClaimedBeside, NotMadeBeside, NotReadBeside, NotSettledBeside, Passes};
ghost use Rattle.erm_beside.specs.Ends.{MetBeside};
ghost use Rattle.erm_beside.specs.Laws.{GoesOnward};
ghost use Rattle.erm_beside.proofs.Saved.{sound_with, within_with};
ghost use Rattle.erm_model.specs.declared.limits.TheConstants.{OID_LIMIT, STOP};
ghost use Rattle.erm_model.specs.declared.outcome.Phase.TheVariants.{Active, Idle, Sealed};
ghost use Rattle.erm_model.specs.declared.row_stop.RowStop.TheVariants as stops;
ghost use Rattle.erm_model.specs.RowTransaction.{asked_claim, asked_make, asked_read};
ghost use Rattle.erm_own_view.specs.Own.{MayCall, own_view};
ghost use Rattle.erm_own_view.proofs.Lawful.{ends_last, own_views_end, own_views_sound};
ghost use Rattle.erm_own_view.proofs.Own.{own_is};
ghost use Rattle.erm_table_world.proofs.Told.{told_claimed, told_few};
ghost use Rattle.erm_rows.specs.Claims.{TellsCount};
ghost use Rattle.erm_rows.specs.Reads.{WasOwnerMet};
ghost use Rattle.erm_ring.specs.Turns.{MayGather};
ghost use Rattle.erm_rule.specs.Books.{WasFlushed, book, both_books};
ghost use Rattle.erm_rule.specs.Steps.{Fits};
ghost use Rattle.erm_rule.specs.Views.{MayJoin, part_of, view};
ghost use Rattle.erm_seats.specs.Took.{TookBegin};
ghost use Rattle.erm_rule.specs.Went.{Went};
ghost use Rattle.erm_session.specs.Saving.{IsBackStep};
ghost use Rattle.erm_session.specs.Session.{IsSession};
ghost use Rattle.erm_session.specs.Took.{TookAnyTidy, TookClaimStop, TookNoObject, TookReadStop};
ghost use Rattle.erm_shared_session.specs.Stands.{Ends, Stands, bare_of, own_of, own_saves, seat_of, seat_saves};
ghost use Rattle.erm_shared_session.specs.Waits.{TookNoSettle, WasLookedAt};
ghost use Rattle.erm_world.specs.Calls.{DidAbort, DidClaim, DidMake, DidRead, DidSeal, DidWrite};
ghost use Rattle.erm_world.specs.Laws.{IsLawfulWork};
ghost use Rattle.erm_world.specs.Saves.{DidNotSave, DidSave, HasNoSave, WentBack, with_saves};
ghost use Rattle.erm_world.specs.World.{View, phase_at, work_at};
ghost use Rattle.erm_world.specs.declared.stops.SaveStop.TheVariants as save_stops;
ghost use Rattle.erm_world.specs.declared.stops.BeginStop.TheVariants as begin_stops;

use crate::met::{done_of, flushed_after, flushed_met, settled_of, tail_after, tail_met};
use erm_beside::SharedSession;
use erm_model::{Oid, Outcome, Phase, Receipt, Row, RowLaw, RowStop, Stamp};
use erm_rule::{Pass, Table, join};
use erm_session::Session;
use erm_world::{BeginStop, NoSave, NotFlushed, SaveStop, Wait};
use std::marker::PhantomData;

/// A session of the word table, with the pass of its seat alone. Its rows keep the law of `L`. It can't be let go: one that is idle gives its
/// pass back, and one that is sealed gives it to the flush seat's pass, by which the table is closed. One in progress is aborted first.
pub struct TableSession<L: RowLaw> {
    pub(crate) session: Session,
    pub(crate) pass: Pass,
    // How far the log has come at least, and how far it is synced at least, as the session has met it.
    pub(crate) tail: Stamp,
    flushed: Stamp,
    law: PhantomData<L>,
}

impl<L: RowLaw> TableSession<L> {
    /// A session with the pass of its seat, which is one of this table's and has seen the log's end there, and the log synced up to
    /// there, in words.
    pub fn new(
        _shared: &Table<L>,
        session: Session,
        pass: Pass,
        tail: Stamp,
        flushed: Stamp,
    ) -> Self
        requires fits { Fits _shared.now.words.shared.table_id pass }
        requires session { IsSession session (part_of (view pass) session.seat) }
        requires may { MayCall L.law session.seat tail flushed (book pass) }
        ensures stands { Stands L.law _shared.now result }
        ensures own { own_of result ≡ with_saves (seat_saves session (part_of (view pass) session.seat)) (own_view session.seat tail flushed (book pass)) }
        ensures seat { seat_of result ≡ session.seat }
    {
        TableSession {
            session,
            pass,
            tail,
            flushed,
            law: PhantomData,
        }
    }

    /// The pass of its seat: the session, which is idle, is given up.
    pub fn into_pass(self) -> Pass
        requires idle { phase_at (own_of self) (seat_of self) ≡ Idle }
        ensures { result ≡ self.pass }
    {
        let TableSession {
            session: _,
            pass,
            tail: _,
            flushed: _,
            law: _,
        } = self;
        pass
    }

    /// The pass of the flush seat, between two of its turns, takes in that of the session, which is given up. Its transaction isn't in progress;
    /// where it is sealed it stays undecided.
    pub fn join_into(self, shared: &Table<L>, flush: &mut Pass)
        requires stands { Stands L.law shared.now self }
        requires rests { phase_at (own_of self) (seat_of self) ≡ Active → ⊥ }
        requires fits { Fits shared.now.words.shared.table_id flush.old }
        requires gathers { MayGather (view flush.old) }
        requires joins { MayJoin (view flush.old) }
        ensures fits { Fits shared.now.words.shared.table_id flush.new }
        ensures joined { book flush.new ≡ both_books (book flush.old) (book self.pass) }
    {
        let TableSession {
            session: _,
            pass,
            tail: _,
            flushed: _,
            law: _,
        } = self;
        join(shared, flush, pass);
    }
}

impl<L: RowLaw> SharedSession for TableSession<L> {
    type Shared = Table<L>;

    ghost law = { L.law };

    ghost own = { λ s. own_of s };

    ghost seat = { λ s. seat_of s };

    ghost stands = { λ table s. Stands L.law table s };

    ghost ends = { λ s f. Ends L.law s f };

    /// Begins a transaction: the begin stamp, which is the end of the log, in words. It is refused, in this order, where the session has had
    /// its last number, 2^32 - 1, and where the log's end is at or above 2^60.
    fn begin(&mut self, shared: &Table<L>) -> Result<Stamp, BeginStop>
        requires stands { Stands L.law shared.now self.old }
        requires idle { phase_at (own_of self.old) (seat_of self.old) ≡ Idle }
        ensures stands { Stands L.law shared.now self.new }
        ensures onward { GoesOnward (seat_of self.old) (seat_of self.new) (Ends L.law self.old) (Ends L.law self.new) }
        ensures below { IfOk result (λ begin. (own_of self.old).tail < STOP) }
        ensures ok { IfOk result (λ begin. After (seat_of self.old) (DidBeginBeside (seat_of self.old) begin) (own_of self.old) (own_of self.new)) }
        ensures err { IfErr result (λ stop. After (seat_of self.old) (MayNotBeginBeside (seat_of self.old) stop) (own_of self.old) (own_of self.new)) }
        ensures memory { IfErr result (λ stop. stop ≢ begin_stops.Memory) }
        ensures loaded { IfOk result (λ begin. TookBegin L.law (seat_of self.old) begin (book self.old.pass) (book self.new.pass)) }
    {
        erm_own_view::own_views_go_on::<L>();
        erm_core_stays::numbers_rise();
        let begun = self.session.begin(shared, &mut self.pass);
        self.tail = tail_after(self.tail, &begun);
        begun
    }

    /// Its phase.
    fn phase(&self, _shared: &Table<L>) -> Phase
        requires stands { Stands L.law _shared.now self.now }
        ensures { result ≡ phase_at (own_of self.now) (seat_of self.now) }
    {
        self.session.phase()
    }

    /// The row of an object, below 2^14, as the transaction sees it: its own where it is claimed, else the newest below its begin stamp,
    /// which then counts as read. It never answers `Memory`. Where the transaction is excluded, both commits that closed its window are such
    /// in each world in which all may end.
    fn read(&mut self, shared: &Table<L>, oid: Oid) -> Result<Row, RowStop>
        requires stands { Stands L.law shared.now self.old }
        requires active { phase_at (own_of self.old) (seat_of self.old) ≡ Active }
        requires object { oid < OID_LIMIT }
        ensures stands { Stands L.law shared.now self.new }
        ensures onward { GoesOnward (seat_of self.old) (seat_of self.new) (Ends L.law self.old) (Ends L.law self.new) }
        ensures ok { IfOk result (λ row. After (seat_of self.old) (λ u t. DidRead u (seat_of self.old) oid row t) (own_of self.old) (own_of self.new)) }
        ensures err { IfErr result (λ stop. After (seat_of self.old) (NotReadBeside (seat_of self.old) oid stop) (own_of self.old) (own_of self.new)) }
        ensures memory { IfErr result (λ stop. stop ≢ stops.Memory) }
        ensures word { IfErr result (λ stop. WasOwnerMet (book self.old.pass) stop (book self.new.pass)) }
        ensures looked { IfErr result (λ stop. TookReadStop L.law (seat_of self.old) oid stop (book self.old.pass) (book self.new.pass)) }
        ensures met { IfErr result (λ stop. (f : View) → Ends L.law self.new f → MetBeside f (seat_of self.old) (asked_read oid) stop (own_of self.old) (own_of self.new)) }
    {
        erm_own_view::own_views_go_on::<L>();
        erm_core_stays::numbers_rise();
        erm_core_shown::states_show_the_history();
        let answer = self.session.read(shared, &mut self.pass, oid);
        self.tail = tail_met(self.tail, &answer);
        answer
    }

    /// Claims an object, below 2^14, for writing, if it isn't claimed yet. Its row stays, and counts as written. A claim is refused where as
    /// many objects are claimed as may be and where no cell is left; where another session's transaction owns the object, where a newer version was
    /// committed, and where the exclusion window known so far is closed, the transaction is aborted.
    fn claim(&mut self, shared: &Table<L>, oid: Oid) -> Result<(), RowStop>
        requires stands { Stands L.law shared.now self.old }
        requires active { phase_at (own_of self.old) (seat_of self.old) ≡ Active }
        requires object { oid < OID_LIMIT }
        ensures stands { Stands L.law shared.now self.new }
        ensures onward { GoesOnward (seat_of self.old) (seat_of self.new) (Ends L.law self.old) (Ends L.law self.new) }
        ensures ok { OnOk result (After (seat_of self.old) (λ u t. DidClaim u (seat_of self.old) oid t) (own_of self.old) (own_of self.new)) }
        ensures err { IfErr result (λ stop. After (seat_of self.old) (NotClaimedBeside (seat_of self.old) oid stop) (own_of self.old) (own_of self.new)) }
        ensures memory { IfErr result (λ stop. stop ≢ stops.Memory) }
        ensures met { IfErr result (λ stop. (f : View) → Ends L.law self.new f → MetBeside f (seat_of self.old) (asked_claim oid) stop (own_of self.old) (own_of self.new)) }
        ensures counted { IfErr result (λ stop. TellsCount (book self.old.pass) stop (book self.new.pass)) }
        ensures looked { IfErr result (λ stop. TookClaimStop L.law (seat_of self.old) oid stop (book self.old.pass) (book self.new.pass)) }
    {
        erm_own_view::own_views_go_on::<L>();
        erm_own_view::ends_have_owners::<L>();
        erm_own_view::ends_have_what_was::<L>();
        erm_core_stays::numbers_rise();
        erm_core_stays::owners_are_sessions();
        erm_core_shown::states_show_the_history();
        erm_world::histories_tell_commits();
        let claimed = self.session.claim(shared, &mut self.pass, oid);
        self.tail = tail_met(self.tail, &claimed);
        done_of(claimed)
    }

    /// Sets the row of an object, below 2^14, and claims it where it isn't claimed yet, or is refused as a claim is.
    fn write(&mut self, shared: &Table<L>, oid: Oid, row: &Row) -> Result<(), RowStop>
        requires stands { Stands L.law shared.now self.old }
        requires active { phase_at (own_of self.old) (seat_of self.old) ≡ Active }
        requires object { oid < OID_LIMIT }
        ensures stands { Stands L.law shared.now self.new }
        ensures onward { GoesOnward (seat_of self.old) (seat_of self.new) (Ends L.law self.old) (Ends L.law self.new) }
        ensures ok { OnOk result (After (seat_of self.old) (λ u t. DidWrite u (seat_of self.old) oid row.now t) (own_of self.old) (own_of self.new)) }
        ensures err { IfErr result (λ stop. After (seat_of self.old) (NotClaimedBeside (seat_of self.old) oid stop) (own_of self.old) (own_of self.new)) }
        ensures memory { IfErr result (λ stop. stop ≢ stops.Memory) }
        ensures met { IfErr result (λ stop. (f : View) → Ends L.law self.new f → MetBeside f (seat_of self.old) (asked_claim oid) stop (own_of self.old) (own_of self.new)) }
        ensures counted { IfErr result (λ stop. TellsCount (book self.old.pass) stop (book self.new.pass)) }
        ensures looked { IfErr result (λ stop. TookClaimStop L.law (seat_of self.old) oid stop (book self.old.pass) (book self.new.pass)) }
    {
        erm_own_view::own_views_go_on::<L>();
        erm_own_view::ends_have_owners::<L>();
        erm_own_view::ends_have_what_was::<L>();
        erm_core_stays::numbers_rise();
        erm_core_stays::owners_are_sessions();
        erm_core_shown::states_show_the_history();
        erm_world::histories_tell_commits();
        let written = self.session.write(shared, &mut self.pass, oid, row);
        self.tail = tail_met(self.tail, &written);
        written
    }

    /// A new object, which nobody else gets. It is refused where all objects that there may be are drawn: in each world in which all may end
    /// each of them was made.
    fn fresh(&mut self, shared: &Table<L>) -> Result<Oid, RowStop>
        requires stands { Stands L.law shared.now self.old }
        requires active { phase_at (own_of self.old) (seat_of self.old) ≡ Active }
        ensures stands { Stands L.law shared.now self.new }
        ensures onward { GoesOnward (seat_of self.old) (seat_of self.new) (Ends L.law self.old) (Ends L.law self.new) }
        ensures object { IfOk result (λ oid. oid < OID_LIMIT) }
        ensures ok { IfOk result (λ oid. After (seat_of self.old) (λ u t. DidMake u (seat_of self.old) oid t) (own_of self.old) (own_of self.new)) }
        ensures err { IfErr result (λ stop. After (seat_of self.old) (NotMadeBeside (seat_of self.old) stop) (own_of self.old) (own_of self.new)) }
        ensures memory { IfErr result (λ stop. stop ≢ stops.Memory) }
        ensures met { IfErr result (λ stop. (f : View) → Ends L.law self.new f → MetBeside f (seat_of self.old) asked_make stop (own_of self.old) (own_of self.new)) }
        ensures looked { IfErr result (λ stop. TookNoObject L.law (seat_of self.old) stop (book self.old.pass) (book self.new.pass)) }
    {
        erm_own_view::own_views_go_on::<L>();
        erm_own_view::ends_have_what_was::<L>();
        erm_core_stays::numbers_rise();
        self.session.fresh(shared, &mut self.pass)
    }

    /// Claims an object, below 2^14, where it isn't claimed yet, or is refused as a claim is, and cuts off versions of it that nobody may read any
    /// more: the count is how many these were, which is how many cells may be drawn anew.
    fn tidy(&mut self, shared: &Table<L>, oid: Oid) -> Result<u32, RowStop>
        requires stands { Stands L.law shared.now self.old }
        requires active { phase_at (own_of self.old) (seat_of self.old) ≡ Active }
        requires object { oid < OID_LIMIT }
        ensures stands { Stands L.law shared.now self.new }
        ensures onward { GoesOnward (seat_of self.old) (seat_of self.new) (Ends L.law self.old) (Ends L.law self.new) }
        ensures ok { OnOk result (After (seat_of self.old) (λ u t. DidClaim u (seat_of self.old) oid t) (own_of self.old) (own_of self.new)) }
        ensures count { IfOk result (λ cut. cut ≤ (own_of self.old).opening.cuts) }
        ensures took { IfOk result (λ cut. TookAnyTidy L.law (seat_of self.old) oid cut (book self.old.pass) (book self.new.pass)) }
        ensures err { IfErr result (λ stop. After (seat_of self.old) (NotClaimedBeside (seat_of self.old) oid stop) (own_of self.old) (own_of self.new)) }
        ensures memory { IfErr result (λ stop. stop ≢ stops.Memory) }
        ensures met { IfErr result (λ stop. (f : View) → Ends L.law self.new f → MetBeside f (seat_of self.old) (asked_claim oid) stop (own_of self.old) (own_of self.new)) }
        ensures counted { IfErr result (λ stop. TellsCount (book self.old.pass) stop (book self.new.pass)) }
        ensures looked { IfErr result (λ stop. TookClaimStop L.law (seat_of self.old) oid stop (book self.old.pass) (book self.new.pass)) }
    {
        erm_own_view::own_views_go_on::<L>();
        erm_own_view::ends_have_owners::<L>();
        erm_own_view::ends_have_what_was::<L>();
        erm_core_stays::numbers_rise();
        erm_core_stays::owners_are_sessions();
        erm_core_shown::states_show_the_history();
        erm_world::histories_tell_commits();
        erm_cells::spare_lists_fit();
        let tidied = self.session.tidy(shared, &mut self.pass, oid);
        self.tail = tail_met(self.tail, &tidied);
        tidied
    }

    /// Saves the rows of the transaction's claims as they are, as one savepoint more, eight at most: how many it holds then. They end with the
    /// transaction. It takes no memory, and looks at nothing that is shared.
    fn save(&mut self, _shared: &Table<L>) -> Result<u32, SaveStop>
        requires stands { Stands L.law _shared.now self.old }
        requires active { phase_at (own_of self.old) (seat_of self.old) ≡ Active }
        ensures stands { Stands L.law _shared.now self.new }
        ensures onward { GoesOnward (seat_of self.old) (seat_of self.new) (Ends L.law self.old) (Ends L.law self.new) }
        ensures ok { IfOk result (λ held. After (seat_of self.old) (λ u t. DidSave u (seat_of self.old) held t) (own_of self.old) (own_of self.new)) }
        ensures err { IfErr result (λ stop. After (seat_of self.old) (λ u t. DidNotSave u (seat_of self.old) stop t) (own_of self.old) (own_of self.new)) }
        ensures memory { IfErr result (λ stop. stop ≢ save_stops.Memory) }
        ensures pass { self.new.pass ≡ self.old.pass }
    {
        self.session.save()
    }

    /// Goes back to the savepoint of this number, from 1: each row claimed since is that of the version overwritten, and each one claimed
    /// before is as it was then. The savepoints made since are gone, and this one stays. No claim is given up, and what was read or made
    /// stays so. Words of the cells of its own claims alone are stored.
    fn back(&mut self, shared: &Table<L>, n: u32) -> Result<(), NoSave>
        requires stands { Stands L.law shared.now self.old }
        requires active { phase_at (own_of self.old) (seat_of self.old) ≡ Active }
        ensures stands { Stands L.law shared.now self.new }
        ensures onward { GoesOnward (seat_of self.old) (seat_of self.new) (Ends L.law self.old) (Ends L.law self.new) }
        ensures ok { OnOk result (After (seat_of self.old) (λ u t. WentBack u (seat_of self.old) n t) (own_of self.old) (own_of self.new)) }
        ensures err { IfErr result (λ stop. After (seat_of self.old) (λ u t. HasNoSave u (seat_of self.old) n stop.held t) (own_of self.old) (own_of self.new)) }
        ensures took { Went L.law (seat_of self.old) IsBackStep (book self.old.pass) (book self.new.pass) }
    {
        erm_own_view::own_views_go_on::<L>();
        self.session.back(shared, &mut self.pass, n)
    }

    /// Seals the transaction: its commit stamp, the place of the log, in words, where its block begins. The transaction keeps the law of
    /// rows.
    fn seal(&mut self, shared: &Table<L>) -> Stamp
        requires stands { Stands L.law shared.now self.old }
        requires active { phase_at (own_of self.old) (seat_of self.old) ≡ Active }
        requires lawful { IsLawfulWork L.law (work_at (own_of self.old) (seat_of self.old)) }
        ensures stands { Stands L.law shared.now self.new }
        ensures onward { GoesOnward (seat_of self.old) (seat_of self.new) (Ends L.law self.old) (Ends L.law self.new) }
        ensures sealed { After (seat_of self.old) (λ u t. DidSeal u (seat_of self.old) result t) (own_of self.old) (own_of self.new) }
    {
        erm_own_view::own_views_go_on::<L>();
        erm_core_stays::numbers_rise();
        let stamp = self.session.seal(shared, &mut self.pass);
        self.tail = stamp + self.session.size();
        stamp
    }

    /// Decides a sealed transaction by the Serial Safety Net, or says for what it waits: for the ring, which has no room for its block, or for
    /// another session, which was seen sealing or sealed below the stamp.
    fn settle(&mut self, shared: &Table<L>) -> Result<Outcome, Wait>
        requires stands { Stands L.law shared.now self.old }
        requires sealed { phase_at (own_of self.old) (seat_of self.old) ≡ Sealed }
        ensures stands { Stands L.law shared.now self.new }
        ensures onward { GoesOnward (seat_of self.old) (seat_of self.new) (Ends L.law self.old) (Ends L.law self.new) }
        ensures ok { IfOk result (λ outcome. After (seat_of self.old) (DidSettleBeside (seat_of self.old) outcome) (own_of self.old) (own_of self.new)) }
        ensures err { IfErr result (λ stop. After (seat_of self.old) (NotSettledBeside (seat_of self.old) stop) (own_of self.old) (own_of self.new)) }
        ensures word { IfErr result (λ stop. WasLookedAt (book self.old.pass) stop (book self.new.pass)) }
        ensures looked { IfErr result (λ stop. TookNoSettle L.law (seat_of self.old) stop (book self.old.pass) (book self.new.pass)) }
    {
        erm_own_view::own_views_go_on::<L>();
        erm_core_stays::numbers_rise();
        let settled = self.session.settle(shared, &mut self.pass);
        self.flushed = flushed_met(self.flushed, &settled);
        settled_of(settled)
    }

    /// Whether a commit is on the disk: all words of the log below the receipt's end are synced.
    fn durable(&mut self, shared: &Table<L>, receipt: &Receipt) -> Result<(), NotFlushed>
        requires stands { Stands L.law shared.now self.old }
        ensures stands { Stands L.law shared.now self.new }
        ensures onward { GoesOnward (seat_of self.old) (seat_of self.new) (Ends L.law self.old) (Ends L.law self.new) }
        ensures same { Passes (seat_of self.old) (own_of self.old) (own_of self.new) }
        ensures ok { IsOk result ↔ (receipt.now.end ≤ (own_of self.new).flushed) }
        ensures err { IfErr result (λ stop. stop.flushed ≡ (own_of self.new).flushed) }
        ensures looked { IfErr result (λ stop. WasFlushed (book self.old.pass) stop.flushed (book self.new.pass)) }
    {
        erm_own_view::own_views_go_on::<L>();
        erm_core_stays::numbers_rise();
        let looked = self.session.durable(shared, &mut self.pass, receipt);
        self.flushed = flushed_after(self.flushed, receipt.end, &looked);
        looked
    }

    /// Ends the transaction: nothing that it wrote stays.
    fn abort(&mut self, shared: &Table<L>)
        requires stands { Stands L.law shared.now self.old }
        requires active { phase_at (own_of self.old) (seat_of self.old) ≡ Active }
        ensures stands { Stands L.law shared.now self.new }
        ensures onward { GoesOnward (seat_of self.old) (seat_of self.new) (Ends L.law self.old) (Ends L.law self.new) }
        ensures aborted { After (seat_of self.old) (λ u t. DidAbort u (seat_of self.old) t) (own_of self.old) (own_of self.new) }
    {
        erm_own_view::own_views_go_on::<L>();
        self.session.abort(shared, &mut self.pass);
    }

    ghost sound = { λ table s standing. sound_with (own_saves s) L.law (bare_of s) (seat_of s)
        (λ active. told_claimed s.session (part_of (view s.pass) s.session.seat) standing.session (bare_of s) (own_is s.session.seat s.tail s.flushed (book s.pass)) active)
        (λ active. told_few s.session (part_of (view s.pass) s.session.seat) standing.session (bare_of s) (own_is s.session.seat s.tail s.flushed (book s.pass)) active)
        (own_views_sound L.law s.session.seat s.tail s.flushed (book s.pass) standing.may) };

    ghost within = { λ s f end. within_with (own_saves s) (seat_of s) (bare_of s) f end.within };

    ghost some = { λ table s standing. own_views_end L.law s.session.seat s.tail s.flushed (book s.pass) standing.may };

    ghost lasting = { λ s f end. ends_last L.law s.session.seat (book s.pass) (bare_of s) f end };
}
