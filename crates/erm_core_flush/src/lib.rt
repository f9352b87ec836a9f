//! The laws of the flush seat's turns: what a gather finds, that it ends, and that what it gathered is cleared and flushed. Each
//! law is the contract of a function that does nothing.
#![tactic(auto)]

ghost use Rattle.std.specs.Prelude.{◌≡◌, ◌≢◌, ◌⊎◌, ◌+◌, ◌<◌, ◌≤◌, ℕ, Some, true, List, length, slice_index};
ghost use Rattle.erm_model.specs.Member.{◌∈◌};
ghost use Rattle.erm_machine.specs.declared.attempt.Attempt.{Attempt};
ghost use Rattle.erm_machine.specs.declared.event.Kind.{Kind};
ghost use Rattle.erm_machine.specs.declared.event.Kind.TheVariants as kind;
ghost use Rattle.erm_machine.specs.declared.event.TailUse.TheVariants as purpose;
ghost use Rattle.erm_machine.specs.declared.limits.TheConstants.{FLUSH_SEAT};
ghost use Rattle.erm_machine.specs.declared.part.Flushing.TheVariants as flushing;
ghost use Rattle.erm_machine.specs.Core.{Core};
ghost use Rattle.erm_machine.specs.Life.{is_between};
ghost use Rattle.erm_machine.specs.Log.{DecidedBelow, IsEnd};
ghost use Rattle.erm_machine.specs.Sound.{Sound};
ghost use Rattle.erm_machine.specs.Step.{after_event};
ghost use Rattle.erm_core_flush.specs.Turns.{Blocks, GathersNoMore, GathersOn, LogWord, MayGather, Turns, turn_of, words_of};

/// A gather begins at flushed wherever the flush seat is between two blocks, and clears nothing. Each step of it is taken, and
/// loads the log's word there, so that less is left; or the range there isn't decided, exactly where its header is 0, and the
/// gather is at its end.
pub fn gathers_go_on()
    ensures tail { (c : Core) → Sound c → is_between (turn_of c) ≡ true
        → Turns c (kind.LoadTail purpose.Gather) (flushing.Tail c.shared.tail) }
    ensures flushed { (c : Core) (tail : ℕ) → Sound c → turn_of c ≡ flushing.Tail tail
        → Turns c kind.LoadFlushed (flushing.Gathers tail c.shared.flushed c.shared.flushed c.shared.flushed c.shared.flushed) }
    ensures word { (c : Core) (tail from block next end : ℕ) → Sound c → turn_of c ≡ flushing.Gathers tail from block next end
        → MayGather tail from next end → GathersOn c tail from block next end ⊎ GathersNoMore c next end }
{}

/// Where something is gathered each word of it is cleared, and then flushed is stored: each of these steps is taken.
pub fn flushes_go_on()
    ensures first { (c : Core) (tail from block end : ℕ) → Sound c → turn_of c ≡ flushing.Gathers tail from block end end
        → from < end → Turns c (kind.ClearRing from) (flushing.Clears (from + 1) end) }
    ensures clears { (c : Core) (next to : ℕ) → Sound c → turn_of c ≡ flushing.Clears next to → next < to
        → Turns c (kind.ClearRing next) (flushing.Clears (next + 1) to) }
    ensures stores { (c : Core) (to : ℕ) → Sound c → turn_of c ≡ flushing.Clears to to
        → (t : Turns c (kind.StoreFlushed to) flushing.Still) × (t.after.shared.flushed ≡ to) }
{}

/// What is flushed stays so: the place flushed never falls, and all ranges below it are decided.
pub fn flushed_stays()
    ensures rises { (c d : Core) (seat : ℕ) (kind : Kind) → Sound c → after_event c seat kind ≡ Some d
        → c.shared.flushed ≤ d.shared.flushed }
    ensures decided { (c : Core) → Sound c → DecidedBelow c.seats c.shared.flushed }
{}

/// The log's word at a place, where its range is decided, is one and stays.
pub fn log_words_stay()
    ensures stay { (c d : Core) (seat place word : ℕ) (kind : Kind) → Sound c → after_event c seat kind ≡ Some d
        → LogWord c.seats place word → LogWord d.seats place word }
    ensures one { (c : Core) (place v w : ℕ) → Sound c → LogWord c.seats place v → LogWord c.seats place w → v ≡ w }
{}

/// Between two places where ranges end, up to the place gathered, decided ranges lie end to end; and words that are the log's at
/// each place there are the words of their blocks.
pub fn gathered_words_are_blocks()
    ensures { (c : Core) (from to : ℕ) → Sound c → IsEnd c.shared from → IsEnd c.shared to → from ≤ to
        → to ≤ (c.seats FLUSH_SEAT).gathered_to → (ts : List Attempt) × Blocks c.seats from ts to
        × ((words : List ℕ) → from + length words ≡ to
        → ((k : ℕ) → k < length words → LogWord c.seats (from + k) (slice_index words k)) → words ≡ words_of ts) }
{}
