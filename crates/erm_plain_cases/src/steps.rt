//! Steps of a world: calls of its sessions, many of one kind, and flush turns; and the first step of a case that is answered otherwise.
ghost use Rattle.std.specs.Prelude.{◌≡◌, length};
ghost use Rattle.erm_model.specs.declared.limits.TheConstants.{RING_WORDS};
ghost use Rattle.erm_world.specs.Laws.{IsLawfulWork};
ghost use Rattle.erm_world.specs.World.{Work};

use crate::calls::{Call, Reply, Turn, is_answered};
use crate::worlds::{in_lists, over_words};
use erm_model::{OID_LIMIT, Oid, RING_WORDS};
use erm_world::{Gathered, SafeWorld, ScriptWorld};
use std::alloc::{AllocError, Global};

// A call of the first session, on one object after another.
#[derive(Clone, Copy)]
pub(crate) enum Each {
    Claims,
    // Each word of the row is 7.
    Fills,
    Reads,
    Makes,
    // As many are held then as the object's number.
    Saves,
}

// A step, with what it is to answer.
#[derive(Clone, Copy)]
pub(crate) enum Step {
    // Calls of sessions.
    Turns(&'static [Turn]),
    // So many calls of the first session, on one object after another from this one on.
    Many(Each, Oid, u16),
    // So many transactions without a row, one after another, from 13 on.
    Commits(u16),
    // So many that each write one object's row, from 13 on, with a flush turn behind each.
    Draws(u32),
    // A flush turn.
    Flush(Gathered),
}

// The steps of a world that was just opened, and what they show.
pub(crate) type Case = (&'static str, &'static [Step]);

// The call on an object, and its answer.
fn turn_on(each: Each, oid: Oid) -> Turn {
    match each {
        Each::Claims => Turn(1, Call::Claim(oid), Reply::Done),
        Each::Fills => Turn(1, Call::Fill(oid, 7), Reply::Done),
        Each::Reads => Turn(1, Call::Read(oid), Reply::First(0)),
        Each::Makes => Turn(1, Call::Fresh, Reply::Made(oid)),
        Each::Saves => Turn(1, Call::Save, Reply::Saved(oid)),
    }
}

// Whether so many calls are answered.
fn are_answered<W: SafeWorld>(world: &mut W, each: Each, from: Oid, count: u16) -> bool
    requires stands { W.stands world.old }
    requires sessions { (W.view world.old).opening.sessions ≡ 3 }
    requires lawful { (work : Work) → IsLawfulWork W.law work }
    ensures stands { W.stands world.new }
    ensures sessions { (W.view world.new).opening.sessions ≡ 3 }
{
    for place in 0..count {
        let oid = from.saturating_add(place as u32);
        if !is_answered(world, &[turn_on(each, oid)]) {
            return false;
        }
    }
    true
}

// A transaction without a row, where so many were before it, from 13 on.
fn commit(k: u16) -> [Turn; 3] {
    let stamp = 13 + 5 * k as u64;
    let commits = [k as u64 + 1, stamp, stamp + 5, stamp, 0];
    [
        Turn(1, Call::Begin, Reply::At(stamp)),
        Turn(1, Call::Seal, Reply::At(stamp)),
        Turn(1, Call::Settle, Reply::Commits(commits)),
    ]
}

// Whether so many commit, one after another.
fn are_committed<W: SafeWorld>(world: &mut W, count: u16) -> bool
    requires stands { W.stands world.old }
    requires sessions { (W.view world.old).opening.sessions ≡ 3 }
    requires lawful { (work : Work) → IsLawfulWork W.law work }
    ensures stands { W.stands world.new }
    ensures sessions { (W.view world.new).opening.sessions ≡ 3 }
{
    for k in 0..count {
        if !is_answered(world, &commit(k)) {
            return false;
        }
    }
    true
}

// One flush turn: what was gathered, which is then said to be synced.
pub(crate) fn flush<W: ScriptWorld>(world: &mut W, words: &mut [u64]) -> Gathered
    requires stands { W.stands world.old }
    requires sessions { (W.view world.old).opening.sessions ≡ 3 }
    requires room { length words.old ≡ RING_WORDS }
    ensures stands { W.stands world.new }
    ensures sessions { (W.view world.new).opening.sessions ≡ 3 }
    ensures room { length words.new ≡ RING_WORDS }
{
    let gathered = world.gather(words);
    if let Gathered::Words { at, count } = gathered {
        if let Some(end) = at.checked_add(count) {
            world.flushed_to(end);
        }
    }
    gathered
}

// A transaction that writes an object's row, one object after another, where so many were before it, from 13 on.
fn draw(k: u32) -> [Turn; 4] {
    let stamp = 13 + 7 * k as u64;
    let behind = 7 * OID_LIMIT as u64;
    let pred = if k < OID_LIMIT { 0 } else { stamp - behind };
    let commits = [k as u64 + 1, stamp, stamp + 7, stamp, pred];
    [
        Turn(1, Call::Begin, Reply::At(stamp)),
        Turn(1, Call::Write(k % OID_LIMIT, 1), Reply::Done),
        Turn(1, Call::Seal, Reply::At(stamp)),
        Turn(1, Call::Settle, Reply::Commits(commits)),
    ]
}

// Whether so many commit, with a flush turn behind each.
fn are_drawn<W: ScriptWorld>(world: &mut W, words: &mut [u64], count: u32) -> bool
    requires stands { W.stands world.old }
    requires sessions { (W.view world.old).opening.sessions ≡ 3 }
    requires lawful { (work : Work) → IsLawfulWork W.law work }
    requires room { length words.old ≡ RING_WORDS }
    ensures stands { W.stands world.new }
    ensures sessions { (W.view world.new).opening.sessions ≡ 3 }
    ensures room { length words.new ≡ RING_WORDS }
{
    for k in 0..count {
        if !is_answered(world, &draw(k)) {
            return false;
        }
        flush(world, words);
    }
    true
}

// Whether a step is answered so.
pub(crate) fn does<W: ScriptWorld>(world: &mut W, words: &mut [u64], step: Step) -> bool
    requires stands { W.stands world.old }
    requires sessions { (W.view world.old).opening.sessions ≡ 3 }
    requires lawful { (work : Work) → IsLawfulWork W.law work }
    requires room { length words.old ≡ RING_WORDS }
    ensures stands { W.stands world.new }
    ensures sessions { (W.view world.new).opening.sessions ≡ 3 }
    ensures room { length words.new ≡ RING_WORDS }
{
    match step {
        Step::Turns(turns) => is_answered(world, turns),
        Step::Many(each, from, count) => are_answered(world, each, from, count),
        Step::Commits(count) => are_committed(world, count),
        Step::Draws(count) => are_drawn(world, words, count),
        Step::Flush(want) => flush(world, words) == want,
    }
}

// Whether each step is answered so.
fn does_all<W: ScriptWorld>(world: &mut W, words: &mut [u64], steps: &[Step]) -> bool
    requires stands { W.stands world.old }
    requires sessions { (W.view world.old).opening.sessions ≡ 3 }
    requires lawful { (work : Work) → IsLawfulWork W.law work }
    requires room { length words.old ≡ RING_WORDS }
{
    for step in steps {
        if !does(world, words, *step) {
            return false;
        }
    }
    true
}

// The same with room for the words of the ring.
fn does_so<W: ScriptWorld>(alloc: Global, world: &mut W, steps: &[Step]) -> Result<bool, AllocError>
    requires stands { W.stands world.old }
    requires sessions { (W.view world.old).opening.sessions ≡ 3 }
    requires lawful { (work : Work) → IsLawfulWork W.law work }
{
    let mut words = Vec::from_elem(alloc, 0, RING_WORDS as usize)?;
    Ok(does_all(world, &mut words, steps))
}

// The name of the first case that the world in lists answers otherwise.
pub(crate) fn first_in_lists(
    alloc: Global,
    cases: &[Case],
) -> Result<Option<&'static str>, AllocError> {
    for (name, steps) in cases {
        if !does_so(alloc, &mut in_lists(alloc, false)?, *steps)? {
            return Ok(Some(*name));
        }
    }
    Ok(None)
}

// And that over the word table.
pub(crate) fn first_over_words(
    alloc: Global,
    cases: &[Case],
) -> Result<Option<&'static str>, AllocError> {
    for (name, steps) in cases {
        if !does_so(alloc, &mut over_words(alloc)?, *steps)? {
            return Ok(Some(*name));
        }
    }
    Ok(None)
}
