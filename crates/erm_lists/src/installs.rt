//! The end of a transaction that is decided: a commit installs its versions, and nothing else stays of either.
ghost use Rattle.std.specs.Prelude.{◌≡◌, ◌<◌, ◌≤◌, MatchOption, slice_index_or, true};
ghost use Rattle.erm_core.specs.Cores.{core_of};
ghost use Rattle.erm_core_calls.specs.Going as calls;
ghost use Rattle.erm_core_view.specs.Steps.{RestsAt};
ghost use Rattle.erm_kept.specs.Attempts.{attempt_of};
ghost use Rattle.erm_machine.specs.declared.place.Place.TheVariants.{Idle};
ghost use Rattle.erm_machine.specs.declared.version.CellWord.TheVariants.{Stamp};
ghost use Rattle.erm_machine.specs.Seat.{is_decided};
ghost use Rattle.erm_sound.specs.Kept.{SoundUnder};
ghost use Rattle.erm_machine.specs.Words.{is_session};
ghost use Rattle.erm_core_steps.specs.Ends.{HasLeft, IsLeaving, is_ending};

use crate::Lists;
use erm_kept::AttemptState;
use erm_kept::words::is_commit;
use erm_machine::{CellWord, Kind, OwnCell, Place, Task};
use erm_model::{RowLaw, Seat, Stamp};

// The cell that a claim has for its own, or 0.
pub(crate) fn own_number(own: Option<OwnCell>) -> u32
    ensures { result ≡ calls.own_number own }
{
    match own {
        Some(own) => own.cell,
        None => 0,
    }
}

// The words of a cell before its row, in the order in which they are stored.
fn head_word(step: u8) -> CellWord
    ensures { result ≡ slice_index_or calls.head_words step Stamp }
{
    match step {
        0 => CellWord::Stamp,
        1 => CellWord::Link,
        2 => CellWord::Readers,
        3 => CellWord::ReaderStamp,
        4 => CellWord::Overwriter,
        5 => CellWord::OverwriterSucc,
        _ => CellWord::Stamp,
    }
}

// The last steps of an end: the own reader bits are cleared, and then the begin word.
fn next_clear(t: &AttemptState, cleared: usize) -> Kind
    ensures { result ≡ calls.next_clear (attempt_of t.now) cleared }
{
    if cleared < t.reads.len() {
        let version = t.read_at(cleared).version;
        return Kind::ClearReader { version };
    }
    Kind::StoreBegin { value: 0 }
}

// The next step of an excluded transaction: each entry is stored with its old head.
fn next_release(t: &AttemptState, ended: usize, cleared: usize) -> Kind
    ensures { result ≡ calls.next_release (attempt_of t.now) ended cleared }
{
    if ended < t.writes.len() {
        let version = t.claim_at(ended).version;
        return Kind::Install {
            oid: version.oid,
            head: version.cell,
        };
    }
    next_clear(t, cleared)
}

// The next step of an install of a claim.
fn next_install(t: &AttemptState, ended: usize, step: u8) -> Kind
    ensures { result ≡ calls.next_install (attempt_of t.now) ended step }
{
    let claim = t.claim_at(ended);
    let version = claim.version;
    let cell = own_number(claim.own);
    if step < 6 {
        let word = head_word(step);
        let value = t.head_value(&claim, word);
        return Kind::StoreCell {
            claim: ended,
            cell,
            word,
            value,
        };
    }
    match step {
        6 => Kind::StoreSucc {
            version,
            value: t.succ,
        },
        7 => Kind::StoreOverwriter {
            version,
            value: t.stamp,
        },
        _ => Kind::Install {
            oid: version.oid,
            head: cell,
        },
    }
}

// The next step of a commit whose claims are installed: where it goes back, its stamp is to stand in the own back word.
fn next_back(t: &AttemptState, back: Stamp, cleared: usize) -> Kind
    ensures { result ≡ calls.next_back (attempt_of t.now) back cleared }
{
    if is_commit(t.decision) && t.succ < t.stamp && back != t.stamp {
        return Kind::StoreBack { value: t.stamp };
    }
    next_clear(t, cleared)
}

// The next step of a commit: reader stamps are raised, then claims installed, and then the own back word may be stored.
fn next_commit(
    t: &AttemptState,
    back: Stamp,
    raised: usize,
    ended: usize,
    step: u8,
    cleared: usize,
) -> Kind
    ensures { result ≡ calls.next_commit (attempt_of t.now) back raised ended step cleared }
{
    if raised < t.reads.len() {
        return Kind::RaiseReader {
            version: t.read_at(raised).version,
            value: t.stamp,
        };
    }
    if ended < t.writes.len() {
        return next_install(t, ended, step);
    }
    next_back(t, back, cleared)
}

// The next step of a decided transaction.
fn next_end(t: &AttemptState, back: Stamp, task: Task) -> Kind
    ensures { result ≡ calls.next_end (attempt_of t.now) back task }
{
    match task {
        Task::Ends {
            raised,
            ended,
            step,
            cleared,
        } => {
            if is_commit(t.decision) {
                next_commit(t, back, raised, ended, step, cleared)
            } else {
                next_release(t, ended, cleared)
            }
        }
        _ => Kind::LoadFlushed,
    }
}

impl<L: RowLaw> Lists<L> {
    // The next step of the seat's end, or none where its begin word is cleared.
    fn next_leave(&self, seat: Seat) -> Option<Kind>
        requires session { is_session seat ≡ true }
        requires ending { is_ending ((core_of self.now.state).seats seat).place ≡ true }
        ensures { MatchOption result
            (IsLeaving ((core_of self.now.state).seats seat).place)
            (λ kind. (is_decided ((core_of self.now.state).seats seat).place ≡ true)
            × (kind ≡ calls.next_end ((core_of self.now.state).seats seat).current ((core_of self.now.state).seats seat).back
            ((core_of self.now.state).seats seat).task)) }
    {
        let x = self.state.seat(seat);
        match x.place {
            Place::Decided { .. } => Some(next_end(&x.current, x.back, x.task)),
            _ => None,
        }
    }

    // Ends the seat's decided transaction.
    pub(crate) fn leave(&mut self, seat: Seat)
        requires sound { SoundUnder L.law (core_of self.old.state) }
        requires session { is_session seat ≡ true }
        requires decided { is_ending ((core_of self.old.state).seats seat).place ≡ true }
        ensures sound { SoundUnder L.law (core_of self.new.state) }
        ensures sessions { self.new.sessions ≡ self.old.sessions }
        ensures rests { RestsAt seat Idle (core_of self.new.state) }
        ensures left { HasLeft self.old.sessions seat (core_of self.old.state) (core_of self.new.state) }
    {
        while let Some(kind) = self.next_leave(seat) {
            self.go(seat, kind);
        }
        self.go(seat, Kind::StoreState { value: 0 });
    }
}
