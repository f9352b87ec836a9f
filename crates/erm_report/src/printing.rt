//! The words of lines. Where memory runs out, what was there stays in front of what was added.
#![tactic(auto, using(crate::proofs::Fronts::take_front))]

ghost use Rattle.std.specs.Prelude.{◌≡◌, ◌++◌, ◌-◌, ◌<◌, ◌∷◌, OnOk, OnErr, codes, decimal, length, take};
ghost use Rattle.erm_report.specs.declared.line.Line.TheVariants as line;
ghost use Rattle.erm_report.specs.Printable.{FitsAnswer, FitsTypes, IsInTables};
ghost use Rattle.erm_report.specs.Texts.{line_text, words_text, fault_word, pair_text};
ghost use Rattle.erm_report.specs.Turns.{IsTurn};

mod answer;
mod part;

use crate::{Answer, Line};
use answer::push_answer;
use erm_model::{Name, Pair, Seat, Stamp};
use erm_script::FaultKind;
use part::{push_count, push_name, push_stamps, push_value};
use std::alloc::AllocError;

/// The line for a source that failed.
pub const READ_FAULT: &[u8] = b"read fault\n";

/// The line for a script with too many bytes.
pub const TOO_LONG: &[u8] = b"too long\n";

/// The line for want of memory.
pub const NO_MEMORY: &[u8] = b"no memory\n";

/// The line for a disk without a place to start from.
pub const NO_BASE: &[u8] = b"no base\n";

/// The line for a disk that failed outside the lines of a script.
pub const DISK_FAULT: &[u8] = b"disk fault\n";

/// Adds the text of a line at the end. The numbers and values of a line that was added fit their types, where its table is one
/// of those that there are.
pub fn push_line(out: &mut Vec<u8>, line: &Line) -> Result<(), AllocError>
    ensures ok { OnOk result (out.new.items ≡ out.old.items ++ line_text line.now) }
    ensures fits { OnOk result (IsInTables line.now → FitsTypes line.now) }
    ensures front { OnErr result (take (length out.old.items) out.new.items ≡ out.old.items) }
{
    push_words(out, line)?;
    out.extend_from_slice(b"\n")
}

// the words of a line, without its end
fn push_words(out: &mut Vec<u8>, line: &Line) -> Result<(), AllocError>
    ensures ok { OnOk result (out.new.items ≡ out.old.items ++ words_text line.now) }
    ensures fits { OnOk result (IsInTables line.now → FitsTypes line.now) }
    ensures front { OnErr result (take (length out.old.items) out.new.items ≡ out.old.items) }
{
    match line {
        Line::Open { stamp, run } => push_opened(out, b"open ", *stamp, *run),
        Line::Answer { line, answer } => push_numbered(out, *line, answer),
        Line::Close { session, answer } => push_closed(out, session, answer),
        Line::Order { commits } => push_count(out, b"order ", *commits as u64),
        Line::Commit { .. } | Line::Safe { .. } => push_turn(out, line),
        Line::Map { pairs } => push_count(out, b"map ", *pairs as u64),
        Line::Pair(pair) => push_pair(out, pair),
        Line::End => out.extend_from_slice(b"end"),
        Line::DiskFault => push_status(out, DISK_FAULT),
        Line::Recovered { stamp, run } => push_opened(out, b"recovered ", *stamp, *run),
        Line::Audited { base, stamp, run } => push_audited(out, *base, *stamp, *run),
        Line::LoggedCommit {
            seat,
            number,
            stamp,
            succ,
        } => push_logged(out, *seat, *number, (*stamp, *succ)),
        Line::Checkpointed { stamp } => push_count(out, b"checkpoint ", *stamp),
        Line::Made { count, sessions } => push_made(out, *count, *sessions),
        Line::Committed { count } => push_count(out, b"committed ", *count as u64),
        Line::Excluded { count } => push_count(out, b"excluded ", *count as u64),
        Line::Owned { count } => push_count(out, b"owned ", *count as u64),
        Line::Pairs { count } => push_count(out, b"pairs ", *count as u64),
        Line::BadLine { line, kind } => push_bad_line(out, *line, *kind),
        Line::ReadFault => push_status(out, READ_FAULT),
        Line::TooLong => push_status(out, TOO_LONG),
        Line::NoMemory => push_status(out, NO_MEMORY),
        Line::NoBase => push_status(out, NO_BASE),
        Line::RunsEnd { run } => push_count(out, b"end run ", *run),
        Line::LogEnd { tail } => push_count(out, b"end log ", *tail),
    }
}

// the words of a line that is known, without its end
fn push_status(out: &mut Vec<u8>, text: &[u8]) -> Result<(), AllocError>
    requires { 0 < length text.now }
    ensures ok { OnOk result (out.new.items ≡ out.old.items ++ take (length text.now - 1) text.now) }
    ensures front { OnErr result (take (length out.old.items) out.new.items ≡ out.old.items) }
{
    out.extend_from_slice(&text[..text.len() - 1])
}

// a word and a stamp, and the run
fn push_opened(out: &mut Vec<u8>, words: &[u8], stamp: Stamp, run: u64) -> Result<(), AllocError>
    ensures ok { OnOk result (out.new.items ≡ out.old.items ++ (words.now ++ decimal stamp ++ codes " run " ++ decimal run)) }
    ensures front { OnErr result (take (length out.old.items) out.new.items ≡ out.old.items) }
{
    push_count(out, words, stamp)?;
    push_count(out, b" run ", run)
}

fn push_numbered(out: &mut Vec<u8>, number: u32, answer: &Answer) -> Result<(), AllocError>
    ensures ok { OnOk result (out.new.items ≡ out.old.items ++ words_text (line.Answer number answer.now)) }
    ensures fits { OnOk result (FitsAnswer answer.now) }
    ensures front { OnErr result (take (length out.old.items) out.new.items ≡ out.old.items) }
{
    push_count(out, b"", u64::from(number))?;
    push_answer(out, answer)
}

fn push_closed(out: &mut Vec<u8>, session: &Name, answer: &Answer) -> Result<(), AllocError>
    ensures ok { OnOk result (out.new.items ≡ out.old.items ++ words_text (line.Close session.now answer.now)) }
    ensures fits { OnOk result (FitsAnswer answer.now) }
    ensures front { OnErr result (take (length out.old.items) out.new.items ≡ out.old.items) }
{
    push_name(out, b"close ", session)?;
    push_answer(out, answer)
}

// the words of a line that tells of a turn, without its end
fn push_turn(out: &mut Vec<u8>, line: &Line) -> Result<(), AllocError>
    requires { IsTurn line.now }
    ensures ok { OnOk result (out.new.items ≡ out.old.items ++ words_text line.now) }
    ensures fits { OnOk result (FitsTypes line.now) }
    ensures front { OnErr result (take (length out.old.items) out.new.items ≡ out.old.items) }
{
    match line {
        Line::Commit {
            session,
            number,
            stamp,
            succ,
            pred,
        } => push_commit(out, session, *number, (*stamp, *succ, *pred)),
        Line::Safe {
            session,
            number,
            at,
        } => push_safe(out, session, *number, *at),
        _ => unreachable!(),
    }
}

fn push_commit(
    out: &mut Vec<u8>,
    session: &Name,
    number: u32,
    stamps: (Stamp, Stamp, Stamp),
) -> Result<(), AllocError>
    ensures ok { OnOk result (out.new.items ≡ out.old.items ++ words_text (line.Commit session.now number stamps.0 stamps.1 stamps.2)) }
    ensures front { OnErr result (take (length out.old.items) out.new.items ≡ out.old.items) }
{
    push_name(out, b"commit ", session)?;
    push_count(out, b" ", u64::from(number))?;
    let (stamp, succ, pred) = stamps;
    push_stamps(out, b" stamp ", stamp, succ, pred)
}

fn push_safe(out: &mut Vec<u8>, session: &Name, number: u32, at: Stamp) -> Result<(), AllocError>
    ensures ok { OnOk result (out.new.items ≡ out.old.items ++ words_text (line.Safe session.now number at)) }
    ensures front { OnErr result (take (length out.old.items) out.new.items ≡ out.old.items) }
{
    push_name(out, b"safe ", session)?;
    push_count(out, b" ", u64::from(number))?;
    push_count(out, b" at ", at)
}

fn push_audited(out: &mut Vec<u8>, base: Stamp, stamp: Stamp, run: u64) -> Result<(), AllocError>
    ensures ok { OnOk result (out.new.items ≡ out.old.items ++ words_text (line.Audited base stamp run)) }
    ensures front { OnErr result (take (length out.old.items) out.new.items ≡ out.old.items) }
{
    push_count(out, b"audit ", base)?;
    push_count(out, b" to ", stamp)?;
    push_count(out, b" run ", run)
}

fn push_logged(
    out: &mut Vec<u8>,
    seat: Seat,
    number: u32,
    stamps: (Stamp, Stamp),
) -> Result<(), AllocError>
    ensures ok { OnOk result (out.new.items ≡ out.old.items ++ words_text (line.LoggedCommit seat number stamps.0 stamps.1)) }
    ensures front { OnErr result (take (length out.old.items) out.new.items ≡ out.old.items) }
{
    push_count(out, b"commit ", u64::from(seat))?;
    push_count(out, b" ", u64::from(number))?;
    push_count(out, b" stamp ", stamps.0)?;
    push_count(out, b" succ ", stamps.1)
}

fn push_made(out: &mut Vec<u8>, count: u32, sessions: Seat) -> Result<(), AllocError>
    ensures ok { OnOk result (out.new.items ≡ out.old.items ++ words_text (line.Made count sessions)) }
    ensures front { OnErr result (take (length out.old.items) out.new.items ≡ out.old.items) }
{
    push_count(out, b"made ", u64::from(count))?;
    push_count(out, b" sessions ", u64::from(sessions))
}

fn push_bad_line(out: &mut Vec<u8>, number: u32, kind: FaultKind) -> Result<(), AllocError>
    ensures ok { OnOk result (out.new.items ≡ out.old.items ++ words_text (line.BadLine number kind)) }
    ensures front { OnErr result (take (length out.old.items) out.new.items ≡ out.old.items) }
{
    push_count(out, b"script ", u64::from(number))?;
    out.extend_from_slice(b" ")?;
    out.extend_from_slice(fault_word(kind))
}

// the word of a kind of fault
fn fault_word(kind: FaultKind) -> &'static [u8]
    ensures { result.now ≡ fault_word kind }
{
    match kind {
        FaultKind::Threads => b"threads",
        FaultKind::Name => b"name",
        FaultKind::Sessions => b"sessions",
        FaultKind::Command => b"command",
        FaultKind::Args => b"args",
        FaultKind::Number => b"number",
        FaultKind::Value => b"value",
    }
}

fn push_pair(out: &mut Vec<u8>, pair: &Pair) -> Result<(), AllocError>
    ensures ok { OnOk result (out.new.items ≡ out.old.items ++ pair_text pair.now) }
    ensures fits { OnOk result (IsInTables (line.Pair pair.now) → FitsTypes (line.Pair pair.now)) }
    ensures front { OnErr result (take (length out.old.items) out.new.items ≡ out.old.items) }
{
    let (table, key) = (pair.key.table, pair.key.key);
    push_count(out, b"pair ", u64::from(table))?;
    push_count(out, b" ", key)?;
    push_value(out, b" ", &pair.value)
}
