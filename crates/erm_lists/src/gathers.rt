//! What a flusher gathers of the log, and says to be synced.
ghost use Rattle.std.specs.Prelude.{◌≡◌, ◌≤◌, ◌<◌, ◌+◌, IfSome, None, length, take};
ghost use Rattle.erm_core.specs.Cores.{core_of};
ghost use Rattle.erm_machine.specs.Log.{ring_at};
ghost use Rattle.erm_machine.specs.declared.limits.TheConstants.{FLUSH_SEAT, RING_WORDS};
ghost use Rattle.erm_sound.specs.Kept.{SoundUnder};
ghost use Rattle.erm_core_turns.specs.Turns.{HasCleared, HasGathered, HasToClear, IsAtStop, IsGathering, in_block, ring_words};
ghost use Rattle.erm_lists.specs.Logs.{KeepsSessions, lists_log};
ghost use Rattle.erm_lists.specs.Stands.{Stands};
ghost use Rattle.erm_world.specs.Log.{Gathers, gathered_to};

use crate::Lists;
use crate::steps::found;
use erm_machine::{FLUSH_SEAT, Flushing, Kind, TailUse};
use erm_model::{RowLaw, Stamp};
use erm_world::Gathered;

impl<L: RowLaw> Lists<L> {
    // Whether the flush seat is in the middle of a block that it gathers.
    fn in_block(&self) -> bool
        ensures { result ≡ in_block ((core_of self.now.state).seats FLUSH_SEAT).flushing }
    {
        match self.state.seat(FLUSH_SEAT).flushing {
            Flushing::Gathers { next, end, .. } => next < end,
            _ => false,
        }
    }

    // The next word of what is decided, if there is one.
    fn next_word(&mut self, from: Stamp, at: Stamp) -> Option<u64>
        requires sound { SoundUnder L.law (core_of self.old.state) }
        requires gathers { IsGathering from at (core_of self.old.state) }
        requires inside { at < from + RING_WORDS }
        ensures sound { SoundUnder L.law (core_of self.new.state) }
        ensures sessions { self.new.sessions ≡ self.old.sessions }
        ensures word { IfSome result (λ word. word ≡ ring_at (core_of self.old.state).shared at) }
        ensures some { IfSome result (λ word. HasGathered from (at + 1) (core_of self.old.state) (core_of self.new.state)) }
        ensures none { result ≡ None → HasGathered from at (core_of self.old.state) (core_of self.new.state) }
        ensures stop { result ≡ None → IsAtStop from at (core_of self.new.state) }
    {
        let inside = self.in_block();
        let end = self.state.tail();
        if inside {
            return Some(found(self.go(FLUSH_SEAT, Kind::LoadRing { at })));
        }
        if end <= at {
            return None;
        }
        let word = found(self.go(FLUSH_SEAT, Kind::LoadRing { at }));
        if word == 0 { None } else { Some(word) }
    }

    // Gathers the words from a place on, up to the first block that isn't decided or the log's end: how many these are.
    fn gather_words(&mut self, from: Stamp, words: &mut [u64]) -> usize
        requires sound { SoundUnder L.law (core_of self.old.state) }
        requires gathers { IsGathering from from (core_of self.old.state) }
        requires room { length words.old ≡ RING_WORDS }
        ensures sound { SoundUnder L.law (core_of self.new.state) }
        ensures sessions { self.new.sessions ≡ self.old.sessions }
        ensures room { length words.new ≡ RING_WORDS }
        ensures few { result ≤ RING_WORDS }
        ensures gathered { HasGathered from (from + result) (core_of self.old.state) (core_of self.new.state) }
        ensures stop { result < RING_WORDS → IsAtStop from (from + result) (core_of self.new.state) }
        ensures words { take result words.new ≡ ring_words (core_of self.old.state).shared from result }
    {
        for count in 0..words.len() {
            match self.next_word(from, from + count as u64) {
                Some(word) => words[count] = word,
                None => return count,
            }
        }
        words.len()
    }

    /// Gathers the words of the decided blocks from the place flushed on, up to the first that isn't decided or the log's end, into
    /// the front of `words`, which has room for the ring.
    pub fn gather(&mut self, words: &mut [u64]) -> Gathered
        requires stands { Stands L.law self.old }
        requires room { length words.old ≡ RING_WORDS }
        ensures stands { Stands L.law self.new }
        ensures keeps { KeepsSessions L.law self.old self.new }
        ensures room { length words.new ≡ RING_WORDS }
        ensures gathers { Gathers result (lists_log self.old) (lists_log self.new) words.new }
    {
        erm_log_list::blocks_are_a_log_list::<L>();
        erm_log_list::logs_go_on::<L>();
        self.go(
            FLUSH_SEAT,
            Kind::LoadTail {
                purpose: TailUse::Gather,
            },
        );
        let at = found(self.go(FLUSH_SEAT, Kind::LoadFlushed));
        let count = self.gather_words(at, words);
        let tail = self.state.tail();
        if 0 < count {
            return Gathered::Words {
                at,
                count: count as u64,
            };
        }
        if tail <= at {
            Gathered::Empty { at }
        } else {
            Gathered::Unfilled { at }
        }
    }

    // Clears the ring's words that were gathered.
    fn clear_words(&mut self, from: Stamp, end: Stamp)
        requires sound { SoundUnder L.law (core_of self.old.state) }
        requires gathered { HasToClear from end (core_of self.old.state) }
        ensures sound { SoundUnder L.law (core_of self.new.state) }
        ensures sessions { self.new.sessions ≡ self.old.sessions }
        ensures cleared { HasCleared end end (core_of self.old.state) (core_of self.new.state) }
    {
        for at in from..end {
            self.go(FLUSH_SEAT, Kind::ClearRing { at });
        }
    }

    /// Says that all words up to the end of what was gathered are synced.
    pub fn flushed_to(&mut self, end: Stamp)
        requires stands { Stands L.law self.old }
        requires end { end ≡ gathered_to (lists_log self.old) }
        requires above { (lists_log self.old).flushed < end }
        ensures stands { Stands L.law self.new }
        ensures keeps { KeepsSessions L.law self.old self.new }
        ensures flushed { lists_log self.new ≡ record (lists_log self.old) { flushed = end } }
    {
        erm_log_list::blocks_are_a_log_list::<L>();
        let from = self.state.flushed();
        self.clear_words(from, end);
        self.go(FLUSH_SEAT, Kind::StoreFlushed { value: end });
    }
}
