//! The counts of a report by hand, and the text of those of the least workload.
use crate::lines::{text_of, value};
use erm_made::{Made, counts_of, made_lines};
use erm_model::{Key, Name, Pair};
use erm_report::{Answer, Line};
use std::alloc::AllocError;

// What the least workload prints, as a model apart from this one prints it.
const LEAST: &[u8] = b"made 1 sessions 1
committed 17
excluded 0
owned 0
pairs 64
end
";

// The counts of a report with an answer of each kind that is counted, to lines and to a session at the end, and others beside them.
fn counted() -> Made {
    let (stamp, succ, pred) = (13, 13, 0);
    let report = [
        Line::Open { stamp: 8, run: 1 },
        answered(1, Answer::Began(13)),
        answered(2, Answer::Committed { stamp, succ, pred }),
        answered(3, Answer::Excluded { stamp, succ, pred }),
        answered(4, Answer::ExcludedEarly { succ, pred }),
        answered(5, Answer::Owned { seat: 1, number: 1 }),
        answered(6, Answer::Newer { stamp }),
        closed(Answer::Committed { stamp, succ, pred }),
        Line::Order { commits: 2 },
        Line::Map { pairs: 1 },
        Line::Pair(Pair {
            key: Key { table: 0, key: 10 },
            value: value(b""),
        }),
        Line::End,
    ];
    counts_of(&report)
}

fn answered(line: u32, answer: Answer) -> Line {
    Line::Answer { line, answer }
}

fn closed(answer: Answer) -> Line {
    Line::Close {
        session: Name::empty(),
        answer,
    }
}

// Whether these are the counts.
fn are_counts(made: &Made) -> bool {
    made.committed == 2 && made.excluded == 2 && made.owned == 1 && made.pairs == 1
}

#[test]
fn answers_and_pairs_are_counted(rt: HostRuntime) {
    assert!(rt; are_counts(&counted()));
}

#[test]
fn counts_are_printed(rt: HostRuntime) -> Result<(), AllocError> {
    let made = Made {
        committed: 17,
        excluded: 0,
        owned: 0,
        pairs: 64,
    };
    let lines = made_lines(rt.alloc(), 1, 1, &made)?;
    assert_eq!(rt; text_of(rt.alloc(), &lines)?.as_slice(), LEAST);
    Ok(())
}
