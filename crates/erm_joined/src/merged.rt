//! The answers of all sessions, put back in the order of the script's lines.
ghost use Rattle.std.specs.Prelude.{◌≡◌, ◌+◌, ◌-◌, ◌<◌, ◌++◌, ◌∷◌, ℕ, [], IfNone, IfOk, length, map, slice_index_or, option_to_list, vec_len};
ghost use Rattle.std.specs.Vec.Iter.{into_iter_items};
ghost use Rattle.erm_model.specs.Member.{◌∈◌};
ghost use Rattle.erm_script.specs.declared.script.ScriptLine.{ScriptLine};
ghost use Rattle.erm_good_at_once.specs.CutReports.{answered_of};
ghost use Rattle.erm_threads.specs.Merged.{own_answers};
ghost use Rattle.erm_threads.specs.Parts.{IsSeatOf};
ghost use Rattle.erm_joined.specs.Merged.{AreAll, AreFirst, AreMerged, counts_of};

use erm_report::Answer;
use erm_script::ScriptLine;
use std::alloc::{AllocError, Global};
use std::vec::IntoIter;

// Each part, from its first answer on.
fn cursors(
    alloc: Global,
    parts: Vec<Vec<Answer>>,
) -> Result<Vec<IntoIter<Answer, Global>>, AllocError>
    ensures same { IfOk result (λ rests. map into_iter_items rests.items ≡ map (λ p. p.items) parts.items) }
{
    let mut rests = Vec::with_capacity(alloc, parts.len())?;
    for part in parts {
        rests.push(part.into_iter())?;
    }
    Ok(rests)
}

// The next answer of a line's session, which is taken away, or `None` where none is left.
fn next_of(rests: &mut [IntoIter<Answer, Global>], line: &ScriptLine) -> Option<Answer>
    requires seat { IsSeatOf (length rests.old) line.now }
    ensures many { length rests.new ≡ length rests.old }
    ensures own { (k : ℕ) (d : _) → k < length rests.old → into_iter_items (slice_index_or rests.old k d) ≡ own_answers (k + 1) (line.now ∷ []) (option_to_list result) ++ into_iter_items (slice_index_or rests.new k d) }
    ensures none { IfNone result ((d : _) → into_iter_items (slice_index_or rests.old (line.now.session - 1) d) ≡ []) }
{
    rests[usize::from(line.session) - 1].next()
}

/// The answers of sessions to their first lines, by seat from 1 on, put in the order of a script's lines: each of these lines has its answer.
/// Where all lines of each session were answered, these are the script's.
pub fn merge(
    alloc: Global,
    script: &[ScriptLine],
    parts: Vec<Vec<Answer>>,
) -> Result<Vec<Answer>, AllocError>
    requires seats { (l : ScriptLine) → l ∈ script.now → IsSeatOf (vec_len parts) l }
    requires first { AreFirst script.now (map (λ p. p.items) parts.items) }
    ensures merged { IfOk result (λ answers. AreMerged (answered_of (counts_of (map (λ p. p.items) parts.items)) script.now) (map (λ p. p.items) parts.items) answers.items) }
    ensures whole { AreAll script.now (map (λ p. p.items) parts.items) → IfOk result (λ answers. AreMerged script.now (map (λ p. p.items) parts.items) answers.items) }
{
    let mut rests = cursors(alloc, parts)?;
    let mut answers = Vec::with_capacity(alloc, script.len())?;
    for line in script {
        if let Some(answer) = next_of(rests.as_mut_slice(), line) {
            answers.push(answer)?;
        }
    }
    Ok(answers)
}
