//! The causes of all answers of a report.
ghost use Rattle.std.specs.Prelude.{◌≡◌, ◌+◌, List, Some, IfOk, OnOk};
ghost use Rattle.std.specs.List.{slice_get};
ghost use Rattle.erm_report.specs.declared.answer.Answer.{Answer as AnyAnswer};
ghost use Rattle.erm_script.specs.declared.script.ScriptLine.{ScriptLine as AnyLine};
ghost use Rattle.erm_explain.specs.Books.{AreSeats};
ghost use Rattle.erm_explain.specs.ByBooks.{HasTold};
ghost use Rattle.erm_explain.specs.Named.{AreCauses};

use crate::books::Books;
use crate::cause::{Cause, cause_of};
use erm_report::Answer;
use erm_script::{NO_SESSION, ScriptLine};
use std::alloc::{AllocError, Global};

/// The causes of the answers of a report to the lines of its script, one by one.
pub fn explain(
    alloc: Global,
    script: &[ScriptLine],
    answers: &[Answer],
) -> Result<Vec<Cause>, AllocError>
    ensures { IfOk result (λ causes. AreCauses script.now answers.now causes.items) }
{
    let mut books = Books::new(alloc)?;
    let mut causes = Vec::new(alloc);
    let count = script.len().min(answers.len());
    for place in 0..count {
        let line = &script[place];
        let answer = &answers[place];
        let cause = cause_of(alloc, &books, script, place, line, answer)?;
        causes.push(cause)?;
        hear_line(&mut books, alloc, line, place, answer)?;
    }
    Ok(causes)
}

// Takes down what a line was answered, if it names a session.
fn hear_line(
    books: &mut Books,
    alloc: Global,
    line: &ScriptLine,
    place: usize,
    answer: &Answer,
) -> Result<(), AllocError>
    requires seats { AreSeats books.old }
    ensures seats { OnOk result (AreSeats books.new) }
    ensures told { OnOk result ((script : List AnyLine) (answers : List AnyAnswer) → slice_get script place ≡ Some line.now → slice_get answers place ≡ Some answer.now
        → HasTold script answers place books.old → HasTold script answers (place + 1) books.new) }
{
    if line.session == NO_SESSION {
        return Ok(());
    }
    books.hear(alloc, line, place, answer)
}
