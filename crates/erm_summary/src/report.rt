//! The lines of a report, from its answers.
ghost use Rattle.std.specs.Prelude.{◌≡◌, ℕ, ◌+◌, ◌-◌, ◌^◌, ◌<◌, [], ◌∷◌, ◌++◌, length, map, IfOk, OnOk};
ghost use Rattle.std.specs.List.{zip};
ghost use Rattle.erm_good_report.specs.GoodReport.{close_line};
ghost use Rattle.erm_report.specs.declared.line.Line.TheVariants as line;
ghost use Rattle.erm_script.specs.Script.{name_of};
ghost use Rattle.erm_summary.specs.Told.{closed_of};
ghost use Rattle.erm_summary.specs.Summary.{Summarizes, at_places, opening_at, order_told};

use crate::{ClosedSession, ToldCommit, commits_told, map_after, order_of};
use erm_model::{LOG_END, Map, Name, Pair, Seat, Stamp};
use erm_report::{Answer, Line};
use erm_script::ScriptLine;
use std::alloc::{AllocError, Global};

/// What a report starts from.
#[derive(Drop)]
pub struct Start {
    pub map: Map,
    /// Where the opening's block stands in the log.
    pub stamp: Stamp,
    pub run: u64,
}

/// The lines of the report of a script that was answered so, and of which these sessions were closed at the end.
pub fn report_of(
    alloc: Global,
    start: Start,
    names: &[Name],
    script: &[ScriptLine],
    answers: Vec<Answer>,
    closed: Vec<ClosedSession>,
) -> Result<Vec<Line>, AllocError>
    requires few { length names.now < 2 ^ 8 }
    requires short { length script.now + length closed.items < 2 ^ 32 }
    ensures { IfOk result (λ lines. (rows first : ℕ) → Summarizes (opening_at start rows first) names.now script.now answers.items
        (map closed_of closed.items) lines.items) }
{
    let commits = commits_told(alloc, names.len() as Seat, script, &answers, &closed)?;
    let order = order_of(alloc, &commits)?;
    let Start { map, stamp, run } = start;
    let pairs = map_after(alloc, map, script, &answers, &commits, &order)?;
    let mut lines = Vec::new(alloc);
    lines.push(Line::Open { stamp, run })?;
    lines.append(&mut lines_of_answers(alloc, script, answers)?)?;
    lines.append(&mut lines_of_closes(alloc, names, closed)?)?;
    push_order(names, &commits, &order, &mut lines)?;
    push_map(pairs, &mut lines)?;
    lines.push(Line::End)?;
    Ok(lines)
}

// The lines of the answers.
fn lines_of_answers(
    alloc: Global,
    script: &[ScriptLine],
    answers: Vec<Answer>,
) -> Result<Vec<Line>, AllocError>
    ensures { IfOk result (λ lines. lines.items ≡ map (λ p. line.Answer p.0.line p.1) (zip script.now answers.items)) }
{
    script
        .iter()
        .zip(answers)
        .map(|(line, answer)| Line::Answer {
            line: line.line,
            answer,
        })
        .collect(alloc)
}

// The lines of the sessions that were closed.
fn lines_of_closes(
    alloc: Global,
    names: &[Name],
    closed: Vec<ClosedSession>,
) -> Result<Vec<Line>, AllocError>
    ensures { IfOk result (λ lines. lines.items ≡ map (λ c. close_line names.now (closed_of c)) closed.items) }
{
    closed
        .into_iter()
        .map(|close| Line::Close {
            session: name(names, close.session),
            answer: close.answer,
        })
        .collect(alloc)
}

// Adds the lines of the commits and snapshots, in this order.
fn push_order(
    names: &[Name],
    commits: &[ToldCommit],
    order: &[usize],
    lines: &mut Vec<Line>,
) -> Result<(), AllocError>
    ensures { OnOk result (lines.new.items ≡ lines.old.items ++ line.Order (length commits.now)
        ∷ map (order_told names.now) (at_places commits.now order.now)) }
{
    lines.push(Line::Order {
        commits: commits.len(),
    })?;
    for place in order {
        if let Some(commit) = commits.get(*place) {
            lines.push(line_of(names, commit))?;
        }
    }
    Ok(())
}

// The line of one of the order: a commit has its stamp within the log, and a snapshot that ended has one above it.
fn line_of(names: &[Name], commit: &ToldCommit) -> Line
    ensures { result ≡ order_told names.now commit.now }
{
    let session = name(names, commit.session);
    if commit.stamp < LOG_END {
        Line::Commit {
            session,
            number: commit.number,
            stamp: commit.stamp,
            succ: commit.succ,
            pred: commit.pred,
        }
    } else {
        Line::Safe {
            session,
            number: commit.number,
            at: commit.succ,
        }
    }
}

// Adds the lines of the map.
fn push_map(pairs: Vec<Pair>, lines: &mut Vec<Line>) -> Result<(), AllocError>
    ensures { OnOk result (lines.new.items ≡ lines.old.items ++ line.Map (length pairs.items) ∷ map line.Pair pairs.items) }
{
    lines.push(Line::Map { pairs: pairs.len() })?;
    for pair in pairs {
        lines.push(Line::Pair(pair))?;
    }
    Ok(())
}

// The name of a session, which counts from 1.
fn name(names: &[Name], session: Seat) -> Name
    ensures { result ≡ name_of names.now session }
{
    match names.get(usize::from(session.saturating_sub(1))) {
        Some(name) => name.copied(),
        None => Name::empty(),
    }
}
