//! The lines of a run that the disk's fault cut off.
ghost use Rattle.std.specs.Prelude.{◌≡◌, ◌+◌, ◌<◌, ◌≤◌, [], ◌∷◌, ◌++◌, length, slice_index_or, slice_set, vec_capacity, vec_len};
ghost use Rattle.std.specs.List.{slice_get};
ghost use Rattle.erm_good_report.specs.GoodReport.{answer_lines, fault_line};
ghost use Rattle.erm_report.specs.declared.answer.Answer.TheVariants.{NoReceipt};
ghost use Rattle.erm_report.specs.declared.line.Line.TheVariants as line;

use erm_model::Stamp;
use erm_report::{Answer, Line};
use erm_script::ScriptLine;
use std::mem::replace;

// Adds a line, for which there is room.
fn add(lines: &mut Vec<Line>, line: Line)
    requires room { vec_len lines.old < vec_capacity lines.old }
    ensures added { lines.new.items ≡ lines.old.items ++ line ∷ [] }
    ensures len { vec_len lines.new ≡ vec_len lines.old + 1 }
    ensures capacity { vec_capacity lines.old ≤ vec_capacity lines.new }
{
    let _ = lines.push(line);
}

// An answer, which is taken away.
fn take_answer(answers: &mut Vec<Answer>, place: usize) -> Answer
    requires { place < length answers.old.items }
    ensures answer { result ≡ slice_index_or answers.old.items place NoReceipt }
    ensures taken { answers.new.items ≡ slice_set answers.old.items place NoReceipt }
{
    replace(&mut answers[place], Answer::NoReceipt)
}

// Adds the lines of the answers, for which there is room.
fn add_answers(lines: &mut Vec<Line>, script: &[ScriptLine], mut answers: Vec<Answer>)
    requires most { length answers.items ≤ length script.now }
    requires room { vec_len lines.old + length answers.items ≤ vec_capacity lines.old }
    ensures added { lines.new.items ≡ lines.old.items ++ answer_lines script.now answers.items }
    ensures len { vec_len lines.new ≡ vec_len lines.old + length answers.items }
    ensures capacity { vec_capacity lines.old ≤ vec_capacity lines.new }
{
    for place in 0..answers.len() {
        let answer = take_answer(&mut answers, place);
        let line = script[place].line;
        add(lines, Line::Answer { line, answer });
    }
}

// The line at which the disk failed: that of the script behind those answered, where there is one.
fn fault(script: &[ScriptLine], answered: usize) -> Line
    ensures { result ≡ fault_line (slice_get script.now answered) }
{
    match script.get(answered) {
        Some(line) => Line::Answer {
            line: line.line,
            answer: Answer::DiskFault,
        },
        None => Line::DiskFault,
    }
}

/// The lines of a run that the disk's fault cut off: the opening, those answered, and the fault. They are put into `lines`, which is
/// empty and has room for them.
pub fn cut_report(
    mut lines: Vec<Line>,
    stamp: Stamp,
    run: u64,
    script: &[ScriptLine],
    answers: Vec<Answer>,
) -> Vec<Line>
    requires none { lines.items ≡ [] }
    requires most { length answers.items ≤ length script.now }
    requires room { length answers.items + 2 ≤ vec_capacity lines }
    ensures { result.items ≡ line.Open stamp run ∷ answer_lines script.now answers.items ++ fault_line (slice_get script.now (length answers.items)) ∷ [] }
{
    let answered = answers.len();
    add(&mut lines, Line::Open { stamp, run });
    add_answers(&mut lines, script, answers);
    add(&mut lines, fault(script, answered));
    lines
}
