//! The text of each kind of line, once.
ghost use Rattle.std.specs.Prelude.{◌≤◌, length};

use crate::lines::{text_of, value};
use erm_model::{Key, LAST_RUN, NAME_BYTES, Name, Pair, Pairs, Reply, STOP};
use erm_report::{
    Answer, DISK_FAULT, Line, NO_BASE, NO_MEMORY, READ_FAULT, TOO_LONG, Text, texts_determine_lines,
};
use erm_script::FaultKind;
use std::alloc::{AllocError, Global};

// The lines of answers that tell what was done, to the seventh line of a script.
const DONE: &[u8] = b"7 value 00ff
7 value -
7 none
7 ok
7 pair 18446744073709551615 00ff
7 none
7 pairs 2 10 aa 20 -
7 pairs 0
7 cut 1
7 saved 1
7 back 4294967295
7 begin 13
7 safe 38
7 sealed 18
7 committed 18 succ 17 pred 0
7 excluded at 91 succ 69 pred 70
7 aborted
7 ended
7 durable 13
7 flushed 69
7 empty 69
7 checkpoint 91
";

// Those of answers that refuse, to the eighth.
const REFUSED: &[u8] = b"8 not idle
8 no transaction
8 is sealed
8 not sealed
8 read only
8 not safe
8 log end 1152921504606846976
8 numbers end
8 wait 48 69
8 unsafe 2 47
8 wait ring 13
8 owned 1 2
8 newer 69
8 excluded succ 69 pred 91
8 reads full
8 writes full
8 cells full 65536
8 oids full 16384
8 saves full
8 no save 0
8 not flushed 13
8 no receipt
8 unfilled 69
8 disk fault
";

// The lines of a report that are no answers.
const REPORT: &[u8] = b"open 8 run 1
close s1 aborted
order 2
commit s1 3 stamp 18 succ 17 pred 13
safe s1 4 at 38
map 0
pair 15 0 -
end
disk fault
";

// The lines of other commands, and lines in place of a report.
const OTHERS: &[u8] = b"recovered 69 run 2
audit 8 to 113 run 2
commit 2 3 stamp 91 succ 69
checkpoint 96
made 200 sessions 4
committed 17
excluded 1
owned 2
pairs 64
script 4 command
end run 17592186044415
end log 1152921504606846976
";

fn name(bytes: &[u8]) -> Name
    requires { length bytes.now ≤ NAME_BYTES }
{
    Name::new(bytes).unwrap()
}

// Two keys with their values.
fn pairs(alloc: Global) -> Result<Pairs, AllocError> {
    let mut pairs = Vec::new(alloc);
    pairs.push((10, value(b"\xaa")))?;
    pairs.push((20, value(b"")))?;
    Ok(Pairs::new(pairs))
}

// The lines of answers to the seventh line of a script, and to the eighth.
fn seventh(answer: Answer) -> Line {
    Line::Answer { line: 7, answer }
}

fn eighth(answer: Answer) -> Line {
    Line::Answer { line: 8, answer }
}

// The text of answers that tell what was done.
fn done(alloc: Global) -> Result<Text, AllocError> {
    let found = pairs(alloc)?;
    let lines = [
        seventh(Answer::Replied(Reply::Value(Some(value(b"\x00\xff"))))),
        seventh(Answer::Replied(Reply::Value(Some(value(b""))))),
        seventh(Answer::Replied(Reply::Value(None))),
        seventh(Answer::Replied(Reply::Done)),
        seventh(Answer::Replied(Reply::Pair(Some((u64::MAX, value(b"\x00\xff")))))),
        seventh(Answer::Replied(Reply::Pair(None))),
        seventh(Answer::Replied(Reply::Found(found))),
        seventh(Answer::Replied(Reply::Found(Pairs::new(Vec::new(alloc))))),
        seventh(Answer::Cut(1)),
        seventh(Answer::Saved { held: 1 }),
        seventh(Answer::Back { n: u32::MAX }),
        seventh(Answer::Began(13)),
        seventh(Answer::Safe(38)),
        seventh(Answer::Sealed(18)),
        seventh(committed()),
        seventh(excluded()),
        seventh(Answer::Aborted),
        seventh(Answer::Ended),
        seventh(Answer::Durable(13)),
        seventh(Answer::Flushed(69)),
        seventh(Answer::Empty(69)),
        seventh(Answer::Checkpointed(91)),
    ];
    text_of(alloc, &lines)
}

fn committed() -> Answer {
    Answer::Committed {
        stamp: 18,
        succ: 17,
        pred: 0,
    }
}

fn excluded() -> Answer {
    Answer::Excluded {
        stamp: 91,
        succ: 69,
        pred: 70,
    }
}

// The text of answers that refuse.
fn refusals(alloc: Global) -> Result<Text, AllocError> {
    let lines = [
        eighth(Answer::NotIdle),
        eighth(Answer::NoTransaction),
        eighth(Answer::IsSealed),
        eighth(Answer::NotSealed),
        eighth(Answer::ReadOnly),
        eighth(Answer::NotSafe),
        eighth(Answer::LogEnd { tail: STOP }),
        eighth(Answer::NumbersEnd),
        eighth(Answer::WaitSeat { seat: 48, seen: 69 }),
        eighth(Answer::Unsafe { seat: 2, stamp: 47 }),
        eighth(Answer::WaitRing { flushed: 13 }),
        eighth(Answer::Owned { seat: 1, number: 2 }),
        eighth(Answer::Newer { stamp: 69 }),
        eighth(Answer::ExcludedEarly { succ: 69, pred: 91 }),
        eighth(Answer::ReadsFull),
        eighth(Answer::WritesFull),
        eighth(Answer::CellsFull { drawn: 65_536 }),
        eighth(Answer::OidsFull { drawn: 16_384 }),
        eighth(Answer::SavesFull),
        eighth(Answer::NoSave { held: 0 }),
        eighth(Answer::NotFlushed { flushed: 13 }),
        eighth(Answer::NoReceipt),
        eighth(Answer::Unfilled(69)),
        eighth(Answer::DiskFault),
    ];
    text_of(alloc, &lines)
}

#[test]
fn answers(rt: HostRuntime) -> Result<(), AllocError> {
    assert_eq!(rt; done(rt.alloc())?.as_slice(), DONE);
    assert_eq!(rt; refusals(rt.alloc())?.as_slice(), REFUSED);
    Ok(())
}

// The text of the lines of a report that are no answers.
fn of_a_report(alloc: Global) -> Result<Text, AllocError> {
    let lines = [
        Line::Open { stamp: 8, run: 1 },
        Line::Close {
            session: name(b"s1"),
            answer: Answer::Aborted,
        },
        Line::Order { commits: 2 },
        Line::Commit {
            session: name(b"s1"),
            number: 3,
            stamp: 18,
            succ: 17,
            pred: 13,
        },
        Line::Safe {
            session: name(b"s1"),
            number: 4,
            at: 38,
        },
        Line::Map { pairs: 0 },
        Line::Pair(Pair {
            key: Key { table: 15, key: 0 },
            value: value(b""),
        }),
        Line::End,
        Line::DiskFault,
    ];
    text_of(alloc, &lines)
}

// The text of the lines of other commands, and of lines in place of a report.
fn others(alloc: Global) -> Result<Text, AllocError> {
    let lines = [
        Line::Recovered { stamp: 69, run: 2 },
        Line::Audited {
            base: 8,
            stamp: 113,
            run: 2,
        },
        Line::LoggedCommit {
            seat: 2,
            number: 3,
            stamp: 91,
            succ: 69,
        },
        Line::Checkpointed { stamp: 96 },
        Line::Made {
            count: 200,
            sessions: 4,
        },
        Line::Committed { count: 17 },
        Line::Excluded { count: 1 },
        Line::Owned { count: 2 },
        Line::Pairs { count: 64 },
        Line::BadLine {
            line: 4,
            kind: FaultKind::Command,
        },
        Line::RunsEnd { run: LAST_RUN },
        Line::LogEnd { tail: STOP },
    ];
    text_of(alloc, &lines)
}

#[test]
fn other_lines(rt: HostRuntime) -> Result<(), AllocError> {
    assert_eq!(rt; of_a_report(rt.alloc())?.as_slice(), REPORT);
    assert_eq!(rt; others(rt.alloc())?.as_slice(), OTHERS);
    texts_determine_lines();
    Ok(())
}

// The texts that are there without memory, and what they are.
const KEPT: [(&[u8], &[u8]); 5] = [
    (READ_FAULT, b"read fault\n"),
    (TOO_LONG, b"too long\n"),
    (NO_MEMORY, b"no memory\n"),
    (NO_BASE, b"no base\n"),
    (DISK_FAULT, b"disk fault\n"),
];

// The line of one of them.
fn kept_line(place: usize) -> Line {
    match place {
        0 => Line::ReadFault,
        1 => Line::TooLong,
        2 => Line::NoMemory,
        3 => Line::NoBase,
        _ => Line::DiskFault,
    }
}

// The first that isn't the text of its line.
fn first_other(alloc: Global) -> Result<Option<usize>, AllocError> {
    for place in 0..KEPT.len() {
        let (kept, wanted) = KEPT[place];
        let text = text_of(alloc, &[kept_line(place)])?;
        if text.as_slice() != wanted || kept != wanted {
            return Ok(Some(place));
        }
    }
    Ok(None)
}

#[test]
fn kept_texts(rt: HostRuntime) -> Result<(), AllocError> {
    assert_eq!(rt; first_other(rt.alloc())?, None);
    Ok(())
}
