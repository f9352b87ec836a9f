//! Steps of the flush seat.
ghost use Rattle.std.specs.Prelude.{◌≡◌, ◌/◌, ◌<◌, if◌then◌else◌, false, Some, None};
ghost use Rattle.erm_machine.specs.Flushing as flushing_specs;
ghost use Rattle.erm_seat.specs.Parts.{part_of};
ghost use Rattle.erm_seat.specs.Rooms.{no_growth, GoesOn};

use crate::SeatState;
use erm_kept::words::is_vacant;
use erm_machine::{Flushing, LOG_END, RING_WORDS};
use erm_model::{RUN_UNIT, SIZE_UNIT, Stamp};

// The size that a header spells.
fn size_of(header: u64) -> u64
    ensures size { result ≡ flushing_specs.size_of header }
    ensures small { result < RUN_UNIT / SIZE_UNIT }
{
    header / SIZE_UNIT % (RUN_UNIT / SIZE_UNIT)
}

impl SeatState {
    pub(crate) fn load_flushed(&mut self, found: Stamp) -> bool
        ensures turn { flushing_specs.load_flushed found (part_of self.old) self.old.flushing ≡ (if result then Some (part_of self.new) else None) }
        ensures kept { result ≡ false → part_of self.new ≡ part_of self.old }
        ensures room { GoesOn no_growth self.old self.new }
    {
        if let Flushing::Tail { tail } = self.flushing {
            self.flushing = Flushing::Gathers {
                tail,
                from: found,
                block: found,
                next: found,
                end: found,
            };
            return true;
        }
        if is_vacant(self.place) {
            return false;
        }
        self.load_flushed_to_settle(found);
        true
    }

    // A word of the block in hand, which may be its last.
    fn gather_word(&mut self, tail: Stamp, from: Stamp, block: Stamp, next: Stamp, end: Stamp)
        requires next { next < LOG_END }
        ensures part { part_of self.new ≡ flushing_specs.gathered_word tail from block next end (part_of self.old) }
        ensures room { GoesOn no_growth self.old self.new }
    {
        if next + 1 == end {
            self.flushing = Flushing::Gathers {
                tail,
                from,
                block: end,
                next: end,
                end,
            };
            self.gathered_to = self.gathered_to.max(end);
        } else {
            self.flushing = Flushing::Gathers {
                tail,
                from,
                block,
                next: next + 1,
                end,
            };
        }
    }

    pub(crate) fn load_ring(&mut self, at: Stamp, found: u64) -> bool
        ensures turn { flushing_specs.load_ring at found (part_of self.old) self.old.flushing ≡ (if result then Some (part_of self.new) else None) }
        ensures kept { result ≡ false → part_of self.new ≡ part_of self.old }
        ensures room { GoesOn no_growth self.old self.new }
    {
        let Flushing::Gathers {
            tail,
            from,
            block,
            next,
            end,
        } = self.flushing
        else {
            return false;
        };
        if at != next || next >= LOG_END {
            return false;
        }
        if next < end {
            self.gather_word(tail, from, block, next, end);
            return true;
        }
        if next >= tail || next.saturating_sub(from) >= RING_WORDS {
            return false;
        }
        if found != 0 {
            self.gather_word(tail, from, next, next, next + size_of(found));
        }
        true
    }

    pub(crate) fn clear_ring(&mut self, at: Stamp) -> bool
        ensures turn { flushing_specs.clear_ring at (part_of self.old) self.old.flushing ≡ (if result then Some (part_of self.new) else None) }
        ensures kept { result ≡ false → part_of self.new ≡ part_of self.old }
        ensures room { GoesOn no_growth self.old self.new }
    {
        let (next, to) = match self.flushing {
            Flushing::Gathers {
                from,
                next,
                end,
                ..
            } if next == end => (from, next),
            Flushing::Clears { next, to } => (next, to),
            _ => return false,
        };
        if at != next || next >= LOG_END || next >= to {
            return false;
        }
        self.flushing = Flushing::Clears { next: next + 1, to };
        true
    }

    pub(crate) fn store_flushed(&mut self, value: Stamp) -> bool
        ensures turn { flushing_specs.store_flushed value (part_of self.old) self.old.flushing ≡ (if result then Some (part_of self.new) else None) }
        ensures kept { result ≡ false → part_of self.new ≡ part_of self.old }
        ensures room { GoesOn no_growth self.old self.new }
    {
        let Flushing::Clears { next, to } = self.flushing else {
            return false;
        };
        if next != to || value != to {
            return false;
        }
        self.flushing = Flushing::Still;
        true
    }
}
