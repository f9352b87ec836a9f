//! The lines of a run at once that the disk's fault cut off.
ghost use Rattle.std.specs.Prelude.{◌≡◌, ◌+◌, ◌-◌, ◌<◌, ◌≤◌, [], ◌∷◌, ◌++◌, true, false, IfOk, length, map, slice_index, slice_set, vec_capacity, vec_len};
ghost use Rattle.erm_model.specs.Member.{◌∈◌};
ghost use Rattle.erm_good_at_once.specs.CutReports.{answered_of};
ghost use Rattle.erm_good_report.specs.GoodReport.{answer_lines};
ghost use Rattle.erm_joined.specs.Merged.{AreFirst};
ghost use Rattle.erm_script.specs.declared.script.ScriptLine.{ScriptLine as LineOfScript};
ghost use Rattle.erm_threads.specs.Parts.{IsSeatOf};
ghost use Rattle.erm_run_at_once.specs.Told.{TellsCut};

use erm_joined::merge;
use erm_model::Stamp;
use erm_report::{Answer, Line};
use erm_script::ScriptLine;
use std::alloc::{AllocError, Global};

// Adds a line, for which there is room.
fn add(lines: &mut Vec<Line>, line: Line)
    requires room { vec_len lines.old < vec_capacity lines.old }
    ensures added { lines.new.items ≡ lines.old.items ++ line ∷ [] }
    ensures len { vec_len lines.new ≡ vec_len lines.old + 1 }
    ensures capacity { vec_capacity lines.old ≤ vec_capacity lines.new }
{
    let _ = lines.push(line);
}

// How many answers each session has, by seat from 1 on.
fn count_answers(alloc: Global, parts: &[Vec<Answer>]) -> Result<Vec<usize>, AllocError>
    ensures counts { IfOk result (λ counts. counts.items ≡ map (λ p. length p.items) parts.now) }
{
    parts.iter().map(|part| part.len()).collect(alloc)
}

// Whether a session has an answer left, which is taken off.
fn take_one(counts: &mut [usize], line: &ScriptLine) -> bool
    requires { IsSeatOf (length counts.old) line.now }
    ensures some { result ≡ true → 0 < slice_index counts.old (line.now.session - 1) }
    ensures none { result ≡ false → slice_index counts.old (line.now.session - 1) ≡ 0 }
    ensures taken { counts.new ≡ slice_set counts.old (line.now.session - 1) (slice_index counts.old (line.now.session - 1) - 1) }
{
    let count = &mut counts[usize::from(line.session) - 1];
    if *count == 0 {
        return false;
    }
    *count -= 1;
    true
}

// Adds the lines of answers, for which there is room: of each session its first lines are answered, so many as are counted.
fn add_answered(
    lines: &mut Vec<Line>,
    script: &[ScriptLine],
    counts: &mut [usize],
    answers: Vec<Answer>,
)
    requires seats { (l : LineOfScript) → l ∈ script.now → IsSeatOf (length counts.old) l }
    requires room { vec_len lines.old + length script.now ≤ vec_capacity lines.old }
    ensures added { lines.new.items ≡ lines.old.items ++ answer_lines (answered_of (λ seat. slice_index counts.old (seat - 1)) script.now) answers.items }
    ensures len { vec_len lines.new ≤ vec_len lines.old + length script.now }
    ensures capacity { vec_capacity lines.old ≤ vec_capacity lines.new }
{
    let mut answers = answers.into_iter();
    for line in script {
        if !take_one(counts, line) {
            continue;
        }
        if let Some(answer) = answers.next() {
            let line = line.line;
            add(lines, Line::Answer { line, answer });
        }
    }
}

/// The lines of a run at once that the disk's fault cut off: the opening, the answers to the first lines of each session, in the order of the
/// script, and the fault. They are put into `lines`, which is empty and has room for them.
pub(crate) fn cut_report(
    alloc: Global,
    mut lines: Vec<Line>,
    stamp: Stamp,
    run: u64,
    script: &[ScriptLine],
    parts: Vec<Vec<Answer>>,
) -> Result<Vec<Line>, AllocError>
    requires seats { (l : LineOfScript) → l ∈ script.now → IsSeatOf (vec_len parts) l }
    requires first { AreFirst script.now (map (λ p. p.items) parts.items) }
    requires none { lines.items ≡ [] }
    requires room { length script.now + 2 ≤ vec_capacity lines }
    ensures { IfOk result (λ told. TellsCut stamp run script.now (map (λ p. p.items) parts.items) told.items) }
{
    let mut counts = count_answers(alloc, &parts)?;
    let answers = merge(alloc, script, parts)?;
    add(&mut lines, Line::Open { stamp, run });
    add_answered(&mut lines, script, &mut counts, answers);
    add(&mut lines, Line::DiskFault);
    Ok(lines)
}
