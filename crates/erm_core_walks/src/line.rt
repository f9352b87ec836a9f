//! Lines of walks.
//!
//!     open SESSIONS TAIL FIRST CELLS     a new machine
//!     SEAT NAME NUMBERS                  a step
//!     SEAT each FROM TO NAME NUMBERS     a step for each number from one up to another, which stands behind the others, twice
//!     see SEAT NAME NUMBERS              the word that a step would meet
//!     task SEAT                          how far a seat has come in a call
//!     over SEAT                          the numbers of its last transaction that is over
//!     spare SEAT                         its spare cells
//!     gathered SEAT                      the end of the last block that it has gathered
//!     ready                              the seat whose next event isn't a wait
ghost use Rattle.erm_core.specs.Ready.{IsReady};

use crate::kinds::kind;
use crate::numbers::{Numbers, seat, sum};
use crate::opening::open;
use crate::told::{Answers, Told};
use erm_core::State;
use erm_core_ready::ready;
use erm_machine::{ANNOUNCERS, Event};
use erm_model::Seat;
use erm_seat::SeatState;
use std::alloc::{AllocError, Global};

/// Takes what a line says, and tells what was found.
pub fn walk(alloc: Global, state: &mut State, line: &str) -> Result<Told, AllocError>
    requires { IsReady state.old }
    ensures { IsReady state.new }
{
    if line.is_empty() || line.starts_with('#') {
        return Ok(Told::Nothing);
    }
    let words: Vec<&str> = line.split(' ').collect(alloc)?;
    let words = words.as_slice();
    let first = word(words, 0);
    match first {
        "open" => {
            *state = open(alloc, &numbers(words, 1))?;
            Ok(Told::Nothing)
        }
        "see" => Ok(see(state, words)),
        "ready" => Ok(Told::Ready(ready(state))),
        "task" | "over" | "spare" | "gathered" => Ok(look(state, first, number(words, 1))),
        _ => step(state, words),
    }
}

// A word of a line.
fn word<'a>(words: &[&'a str], at: usize) -> &'a str {
    match words.get(at) {
        Some(word) => *word,
        None => "",
    }
}

// A number of a line.
fn number(words: &[&str], at: usize) -> u64 {
    sum(word(words, at)).unwrap_or(0)
}

// The numbers of a line from a word on.
fn numbers(words: &[&str], from: usize) -> Numbers {
    let mut numbers = [0; 6];
    for k in 0..6 {
        numbers[k] = number(words, from.saturating_add(k));
    }
    numbers
}

// The word that a step would meet.
fn see(state: &State, words: &[&str]) -> Told {
    match kind(word(words, 2), &numbers(words, 3)) {
        Some(kind) => Told::Word(state.word(seat(number(words, 1)), kind)),
        None => Told::Unknown,
    }
}

// What a seat keeps.
fn look(state: &State, name: &str, number: u64) -> Told {
    let seat = seat(number);
    if seat < ANNOUNCERS {
        kept(state.seat(seat), name)
    } else {
        Told::Unknown
    }
}

fn kept(x: &SeatState, name: &str) -> Told {
    match name {
        "task" => Told::Task(x.task),
        "spare" => Told::Spare(x.spare.len()),
        "gathered" => Told::Gathered(x.gathered_to),
        _ => match x.over.last() {
            Some(t) => Told::Over(t.stamp, t.succ, t.pred, t.decision),
            None => Told::Unknown,
        },
    }
}

// A step, or one for each of some numbers.
fn step(state: &mut State, words: &[&str]) -> Result<Told, AllocError>
    requires { IsReady state.old }
    ensures { IsReady state.new }
{
    let by = seat(number(words, 0));
    if word(words, 1) == "each" {
        return each(state, by, words);
    }
    match kind(word(words, 1), &numbers(words, 2)) {
        Some(kind) => Ok(Told::One(state.take(Event { seat: by, kind })?)),
        None => Ok(Told::Unknown),
    }
}

// A step for each number from one up to another.
fn each(state: &mut State, by: Seat, words: &[&str]) -> Result<Told, AllocError>
    requires { IsReady state.old }
    ensures { IsReady state.new }
{
    let mut numbers = numbers(words, 5);
    let last = words.len().saturating_sub(5).min(4);
    let mut answers = Answers {
        done: 0,
        words: 0,
        sum: 0,
        failed: 0,
    };
    for k in number(words, 2)..number(words, 3) {
        numbers[last] = k;
        numbers[last + 1] = k;
        let Some(kind) = kind(word(words, 4), &numbers) else {
            return Ok(Told::Unknown);
        };
        answers.add(state.take(Event { seat: by, kind })?);
    }
    Ok(Told::Many(answers))
}
