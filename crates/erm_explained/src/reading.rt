//! A report behind its script.
ghost use Rattle.std.specs.Prelude.{◌≡◌, ◌≤◌, ◌++◌, length, IfSome};

use crate::answer::read_answer;
use erm_report::Answer;
use erm_script::ScriptLine;
use std::alloc::{AllocError, Global};

/// Where the report begins in the bytes of a script with its report behind: at the first line that begins with `open` and a digit, as
/// no line of a script does; or at the end.
pub fn report_start(bytes: &[u8]) -> usize
    ensures { result ≤ length bytes.now }
{
    let mut at: usize = 0;
    for line in bytes.split(|b| *b == b'\n') {
        if opens(line) {
            return at.min(bytes.len());
        }
        at = at.saturating_add(line.len() + 1);
    }
    bytes.len()
}

// Whether bytes begin with the first words of a report.
fn opens(bytes: &[u8]) -> bool {
    bytes.starts_with(b"open ") && bytes.get(5).is_some_and(|b| b.is_ascii_digit())
}

// The first line with its end, and what follows it.
fn cut(bytes: &[u8]) -> Option<(&[u8], &[u8])>
    ensures { IfSome result (λ parts. bytes.now ≡ parts.0.now ++ parts.1.now) }
{
    let end = bytes.iter().position(|b| *b == b'\n')?;
    Some(bytes.split_at(end + 1))
}

/// The answers of a report to the first lines of its script: to all, unless a line spells no answer.
pub fn read_answers(
    alloc: Global,
    script: &[ScriptLine],
    report: &[u8],
) -> Result<Vec<Answer>, AllocError> {
    let mut answers = Vec::new(alloc);
    let Some((_, mut rest)) = cut(report) else {
        return Ok(answers);
    };
    for line in script {
        let Some((first, others)) = cut(rest) else {
            break;
        };
        let Some(answer) = read_answer(alloc, first, line.line, &line.command)? else {
            break;
        };
        answers.push(answer)?;
        rest = others;
    }
    Ok(answers)
}
