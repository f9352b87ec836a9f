//! Causes of refusals.
ghost use Rattle.std.specs.Prelude.{◌≡◌, List, Some, IfOk};
ghost use Rattle.std.specs.List.{slice_get};
ghost use Rattle.erm_report.specs.declared.answer.Answer.{Answer as AnyAnswer};
ghost use Rattle.erm_explain.specs.Books.{AreSeats};
ghost use Rattle.erm_explain.specs.Named.{IsCause, IsItself};
ghost use Rattle.erm_explain.specs.ByBooks.{HasTold, IsExcluded, IsNewer, IsOwned, line_or_missing, places_with, window_of};

use crate::books::Books;
use crate::links::{Link, Sought, Touch, find_link, find_over, is_below};
use crate::told::Told;
use crate::works_on_map;
use erm_model::{Seat, Stamp};
use erm_report::Answer;
use erm_script::ScriptLine;
use std::alloc::{AllocError, Global};

/// Why a line was refused, by the places of lines in the script.
#[derive(Clone, Copy, Debug, PartialEq, Eq)]
pub enum Cause {
    /// It wasn't refused, or its answer says the cause itself.
    Itself,
    /// Another transaction's line writes where this line goes.
    Line(Link),
    /// The exclusion window is closed: a commit must come behind this transaction, and one before it.
    Window {
        /// What must come behind: a line of it overwrote what an own one touched.
        after: Link,
        /// What must come before: a line of it touched what an own one touched.
        before: Link,
    },
    /// The report doesn't have the cause, so it isn't a good one of a run whose lines were run in turn.
    Missing,
}

/// The cause of what the line at a place was answered, with the books of the lines before.
pub fn cause_of(
    alloc: Global,
    books: &Books,
    script: &[ScriptLine],
    place: usize,
    line: &ScriptLine,
    answer: &Answer,
) -> Result<Cause, AllocError>
    requires seats { AreSeats books.now }
    requires line { slice_get script.now place ≡ Some line.now }
    ensures itself { IfOk result (λ cause. IsItself answer.now cause) }
    ensures names { IfOk result (λ cause. (answers : List AnyAnswer) → HasTold script.now answers place books.now → slice_get answers place ≡ Some answer.now
        → IsCause script.now answers place line.now answer.now cause) }
{
    match answer {
        Answer::Owned { seat, number } => {
            Ok(owner(books, script, place, line.session, *seat, *number))
        }
        Answer::Newer { stamp } => Ok(newer(books, script, place, line.session, *stamp)),
        Answer::Excluded { stamp, succ, pred } => {
            window(
                alloc,
                books,
                script,
                place,
                line,
                Some(*stamp),
                (*succ, *pred),
            )
        }
        Answer::ExcludedEarly { succ, pred } => {
            window(alloc, books, script, place, line, None, (*succ, *pred))
        }
        _ => Ok(Cause::Itself),
    }
}

// The line of another session's transaction of this number that writes in the table of the line at a place.
fn owner(
    books: &Books,
    script: &[ScriptLine],
    place: usize,
    session: Seat,
    seat: Seat,
    number: u32,
) -> Cause
    requires seats { AreSeats books.now }
    ensures { IsOwned books.now script.now place session seat number result }
{
    if seat == session {
        return Cause::Missing;
    }
    let wanted = u64::from(number);
    match &books.current[usize::from(seat)] {
        Some(told) if told.number == wanted => {
            line_or_missing(find_link(script, Touch::Overwrites, &told.lines, &[place]))
        }
        _ => Cause::Missing,
    }
}

// The line of the commit of this stamp, of another session and not below the own begin, that writes in the table of the line at a place.
fn newer(books: &Books, script: &[ScriptLine], place: usize, session: Seat, stamp: Stamp) -> Cause
    requires seats { AreSeats books.now }
    ensures { IsNewer books.now script.now place session stamp result }
{
    match &books.current[usize::from(session)] {
        Some(own) => {
            let sought = Sought::Newer {
                session,
                begin: own.begin,
                stamp,
            };
            line_or_missing(find_over(script, sought, &books.over, &[place]))
        }
        None => Cause::Missing,
    }
}

fn line_or_missing(found: Option<Link>) -> Cause
    ensures { result ≡ line_or_missing found }
{
    match found {
        Some(link) => Cause::Line(link),
        None => Cause::Missing,
    }
}

// The lines of the commits that close the window of a session's transaction, with its line at a place.
fn window(
    alloc: Global,
    books: &Books,
    script: &[ScriptLine],
    place: usize,
    line: &ScriptLine,
    bound: Option<Stamp>,
    ends: (Stamp, Stamp),
) -> Result<Cause, AllocError>
    requires seats { AreSeats books.now }
    ensures { IfOk result (λ cause. IsExcluded books.now script.now place line.now bound ends.0 ends.1 cause) }
{
    let (succ, pred) = ends;
    let Some(own) = &books.current[usize::from(line.session)] else {
        return Ok(Cause::Missing);
    };
    if pred < succ || !is_below(pred, bound) {
        return Ok(Cause::Missing);
    }
    let owns = places_with(alloc, own, line, place)?;
    let after = Sought::After {
        begin: own.begin,
        bound,
        succ,
    };
    let before = Sought::Before { stamp: pred };
    Ok(window_of(
        find_over(script, after, &books.over, &owns),
        find_over(script, before, &books.over, &owns),
    ))
}

// The places of a transaction's lines, with that of a line more, if it works on the map.
fn places_with(
    alloc: Global,
    own: &Told,
    line: &ScriptLine,
    place: usize,
) -> Result<Vec<usize>, AllocError>
    ensures { IfOk result (λ places. places.items ≡ places_with own.now line.now place) }
{
    let mut places = Vec::from_slice(alloc, &own.lines)?;
    if works_on_map(&line.command) {
        places.push(place)?;
    }
    Ok(places)
}

fn window_of(after: Option<Link>, before: Option<Link>) -> Cause
    ensures { result ≡ window_of after before }
{
    match (after, before) {
        (Some(after), Some(before)) => Cause::Window { after, before },
        _ => Cause::Missing,
    }
}
