//! A turn of the flush seat: what is decided of the log is gathered from the ring, and cleared there once it is synced.
ghost use Rattle.std.specs.Prelude.{◌≡◌, ◌⊎◌, ◌+◌, ◌<◌, ◌≤◌, ◌^◌, IfSome, IsSome, None, length};
ghost use Rattle.erm_machine.specs.declared.event.Kind.TheVariants.{ClearRing, LoadRing};
ghost use Rattle.erm_machine.specs.declared.limits.TheConstants.{FLUSH_SEAT, RING_WORDS};
ghost use Rattle.erm_machine.specs.Flushing as flushing_specs;
ghost use Rattle.erm_ring.specs.Turns.{DidClear, Gathers, MayClear, MayGather, NextIs};
ghost use Rattle.erm_world.specs.declared.gathered.Gathered.TheVariants.{Empty, Unfilled, Words};
ghost use Rattle.erm_rule.specs.Books.{book};
ghost use Rattle.erm_rule.specs.Steps.{Booked, Fits, Ready};
ghost use Rattle.erm_rule.specs.Views.{view, part_in};
ghost use Rattle.erm_ring.specs.Took.{TookClear, TookGather};
ghost use Rattle.erm_rule.specs.Went.{IsLoadStep, Went};

use erm_cells::{clear_ring, load_flushed, load_ring, store_flushed};
use erm_machine::{FLUSH_SEAT, TailUse};
use erm_model::{RUN_UNIT, RowLaw, SIZE_UNIT, Stamp};
use erm_rule::{Pass, Table, load_tail};
use erm_world::Gathered;

// The size that a header spells, in words.
fn size_of(header: u64) -> u64
    ensures size { result ≡ flushing_specs.size_of header }
    ensures low { result < 65536 }
{
    header / SIZE_UNIT % (RUN_UNIT / SIZE_UNIT)
}

// The next word of what is decided, at this place, and where its block ends. None: the tail that was loaded is reached, or the range that
// begins here isn't decided.
fn next_word<L: RowLaw>(
    t: &Table<L>,
    p: &mut Pass,
    tail: Stamp,
    at: Stamp,
    end: Stamp,
) -> Option<(u64, Stamp)>
    requires fits { Fits t.now.words.shared.table_id p.old }
    requires held { IsSome (part_in (view p.old) FLUSH_SEAT) }
    requires ready { (at < end) ⊎ (at < tail) → Ready (view p.old) FLUSH_SEAT (LoadRing at) }
    requires low { at < 2 ^ 63 }
    ensures fits { Fits t.now.words.shared.table_id p.new }
    ensures some { IfSome result (λ r. Booked L.law (book p.old) FLUSH_SEAT (LoadRing at) r.0 (book p.new) × NextIs at end r.0 r.1 × ((at < end) ⊎ (at < tail))) }
    ensures none { result ≡ None → (end ≤ at) × (((tail ≤ at) × (book p.new ≡ book p.old)) ⊎ ((at < tail) × Booked L.law (book p.old) FLUSH_SEAT (LoadRing at) 0 (book p.new))) }
    ensures loads { Went L.law FLUSH_SEAT IsLoadStep (book p.old) (book p.new) }
{
    if end <= at && tail <= at {
        return None;
    }
    let word = load_ring(t, p, FLUSH_SEAT, at);
    if at < end {
        return Some((word, end));
    }
    if word == 0 {
        return None;
    }
    Some((word, at + size_of(word)))
}

// What is said of so many words gathered from a place on, below this tail.
fn gathered(tail: Stamp, at: Stamp, count: usize) -> Gathered
    ensures words { 0 < count → result ≡ Words at count }
    ensures empty { count ≡ 0 → tail ≤ at → result ≡ Empty at }
    ensures unfilled { count ≡ 0 → at < tail → result ≡ Unfilled at }
{
    if 0 < count {
        return Gathered::Words {
            at,
            count: count as u64,
        };
    }
    if tail <= at {
        Gathered::Empty { at }
    } else {
        Gathered::Unfilled { at }
    }
}

/// Gathers the words of the decided blocks from the place flushed on, up to the first that isn't decided, the log's end, or the ring's,
/// into the front of `words`, which has room for the ring. Places are in words. A gather may begin anew as long as nothing was cleared
/// of the one before.
pub fn gather<L: RowLaw>(t: &Table<L>, p: &mut Pass, words: &mut [u64]) -> Gathered
    requires fits { Fits t.now.words.shared.table_id p.old }
    requires may { MayGather (view p.old) }
    requires room { length words.old ≡ RING_WORDS }
    ensures fits { Fits t.now.words.shared.table_id p.new }
    ensures room { length words.new ≡ RING_WORDS }
    ensures gathers { Gathers result (book p.old) words.new (book p.new) }
    ensures took { TookGather L.law result words.new (book p.old) (book p.new) }
    ensures loads { Went L.law FLUSH_SEAT IsLoadStep (book p.old) (book p.new) }
{
    let tail = load_tail(t, p, FLUSH_SEAT, TailUse::Gather);
    let from = load_flushed(t, p, FLUSH_SEAT);
    let mut end = from;
    for count in 0..words.len() {
        let Some((word, to)) = next_word(t, p, tail, from + count as u64, end) else {
            return gathered(tail, from, count);
        };
        words[count] = word;
        end = to;
    }
    gathered(tail, from, words.len())
}

/// Clears the ring's words that were gathered, up to this place, and then stores it as the place flushed. The caller has written and synced
/// them: no clause knows of a disk.
pub fn clear<L: RowLaw>(t: &Table<L>, p: &mut Pass, to: Stamp)
    requires fits { Fits t.now.words.shared.table_id p.old }
    requires may { MayClear to (view p.old) }
    ensures fits { Fits t.now.words.shared.table_id p.new }
    ensures cleared { DidClear (book p.old) to (book p.new) }
    ensures took { TookClear L.law to (book p.old) (book p.new) }
{
    let from = load_flushed(t, p, FLUSH_SEAT);
    for at in from..to {
        clear_ring(t, p, FLUSH_SEAT, at);
    }
    store_flushed(t, p, FLUSH_SEAT, to);
}
