//! The counts.
ghost use Rattle.std.specs.Prelude.{◌≡◌};
ghost use Rattle.erm_made.specs.Counts.{count, is_commit, is_exclusion, is_pair, meets_owner, tells};

use erm_report::{Answer, Line};

/// What the lines of a report tell of the transactions of its script, in numbers.
#[derive(Clone, Copy, Drop)]
pub struct Made {
    /// How many committed.
    pub committed: u64,
    /// How many were excluded.
    pub excluded: u64,
    /// How many met an owner.
    pub owned: u64,
    /// How many keys have a value in the end.
    pub pairs: u64,
}

/// The counts of the lines of a report, its close lines and its map among them.
pub fn counts_of(lines: &[Line]) -> Made
    ensures committed { result.committed ≡ count (tells is_commit) lines.now }
    ensures excluded { result.excluded ≡ count (tells is_exclusion) lines.now }
    ensures owned { result.owned ≡ count (tells meets_owner) lines.now }
    ensures pairs { result.pairs ≡ count is_pair lines.now }
{
    Made {
        committed: commits(lines) as u64,
        excluded: exclusions(lines) as u64,
        owned: owners(lines) as u64,
        pairs: pairs(lines) as u64,
    }
}

// how many lines tell a commit
fn commits(lines: &[Line]) -> usize
    ensures { result ≡ count (tells is_commit) lines.now }
{
    lines.iter().filter(|line| tells_commit(line)).count()
}

// how many tell an exclusion
fn exclusions(lines: &[Line]) -> usize
    ensures { result ≡ count (tells is_exclusion) lines.now }
{
    lines.iter().filter(|line| tells_exclusion(line)).count()
}

// how many tell an owner
fn owners(lines: &[Line]) -> usize
    ensures { result ≡ count (tells meets_owner) lines.now }
{
    lines.iter().filter(|line| tells_owner(line)).count()
}

// how many tell a key's value
fn pairs(lines: &[Line]) -> usize
    ensures { result ≡ count is_pair lines.now }
{
    lines.iter().filter(|line| is_pair(line)).count()
}

// whether a line, or a session's end, is answered that the transaction committed
fn tells_commit(line: &Line) -> bool
    ensures { result ≡ tells is_commit line.now }
{
    matches!(
        line,
        Line::Answer {
            answer: Answer::Committed { .. },
            ..
        } | Line::Close {
            answer: Answer::Committed { .. },
            ..
        }
    )
}

// whether it is answered that the transaction was excluded, before its seal or after it
fn tells_exclusion(line: &Line) -> bool
    ensures { result ≡ tells is_exclusion line.now }
{
    match line {
        Line::Answer { answer, .. } | Line::Close { answer, .. } => {
            matches!(
                answer,
                Answer::Excluded { .. } | Answer::ExcludedEarly { .. }
            )
        }
        _ => false,
    }
}

// whether it is answered that the transaction met an owner
fn tells_owner(line: &Line) -> bool
    ensures { result ≡ tells meets_owner line.now }
{
    matches!(
        line,
        Line::Answer {
            answer: Answer::Owned { .. },
            ..
        } | Line::Close {
            answer: Answer::Owned { .. },
            ..
        }
    )
}

// whether a line tells a key's value in the end
fn is_pair(line: &Line) -> bool
    ensures { result ≡ is_pair line.now }
{
    matches!(line, Line::Pair(_))
}
