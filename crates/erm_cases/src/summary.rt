//! Four reports by hand: write skew, one whose serial order is not that of the stamps, one of a snapshot that only reads, and one of a
//! transaction that goes back to its savepoints.
ghost use Rattle.std.specs.Prelude.{◌≤◌, IfOk, length};

use crate::lines::{text_of, value};
use erm_model::{Map, Reply, SESSIONS, Stamp, VALUE_BYTES};
use erm_report::{Answer, Text};
use erm_script::{Grammar, Script, parse};
use erm_summary::{ClosedSession, Start, report_of};
use std::alloc::Global;
use std::test::Fail;

// All sessions and commands.
const ALL: Grammar = Grammar {
    sessions: SESSIONS,
    index: true,
    log: true,
    checkpoints: true,
    threads: false,
};

const SKEW: &[u8] = b"a begin
a put 0 10 aa
a put 0 20 bb
a commit
a begin
b begin
a get 0 10
a get 0 20
b get 0 10
b get 0 20
a put 0 10 a1
b put 0 20 b1
a commit
b commit
";

const SKEW_REPORT: &[u8] = b"open 8 run 1
1 begin 13
2 ok
3 ok
4 committed 13 succ 13 pred 0
5 begin 38
6 begin 38
7 value aa
8 value bb
9 value aa
10 value bb
11 ok
12 ok
13 committed 38 succ 38 pred 13
14 excluded at 47 succ 38 pred 38
order 2
commit a 1 stamp 13 succ 13 pred 0
commit a 2 stamp 38 succ 38 pred 13
map 2
pair 0 10 a1
pair 0 20 bb
end
";

// Three sessions: one reads what another overwrites, and commits later; one meets an owner; two are closed at the end.
const THREE: &[u8] = b"a begin
b begin
c begin
a get 1 5
b put 1 5 01
b put 1 6 02
c put 1 5 03
c put 1 7 04
b commit
a put 1 7 06
a commit
b begin
b del 1 6
b put 2 0 -
b seal
b put 2 1 07
c begin
c del 1 5
flush
";

const THREE_REPORT: &[u8] = b"open 104 run 2
1 begin 113
2 begin 113
3 begin 113
4 none
5 ok
6 ok
7 owned 2 1
8 no transaction
9 committed 113 succ 113 pred 0
10 ok
11 committed 140 succ 113 pred 0
12 begin 160
13 ok
14 ok
15 sealed 160
16 is sealed
17 begin 180
18 ok
19 flushed 160
close b committed 160 succ 160 pred 113
close c aborted
order 3
commit a 1 stamp 140 succ 113 pred 0
commit b 1 stamp 113 succ 113 pred 0
commit b 2 stamp 160 succ 160 pred 113
map 4
pair 1 5 01
pair 1 7 06
pair 2 0 -
pair 3 1 ff
end
";

// A snapshot that is safe at once, and stands before a transaction that began at its stamp.
const SAFE: &[u8] = b"a begin
a put 0 10 aa
a put 0 20 bb
a commit
c safe
c get 0 10
a begin
a put 0 10 c1
a commit
c get 0 10
c commit
";

const SAFE_REPORT: &[u8] = b"open 8 run 1
1 begin 13
2 ok
3 ok
4 committed 13 succ 13 pred 0
5 safe 38
6 value aa
7 begin 38
8 ok
9 committed 38 succ 38 pred 13
10 value aa
11 ended
order 3
commit a 1 stamp 13 succ 13 pred 0
safe c 1 at 38
commit a 2 stamp 38 succ 38 pred 13
map 2
pair 0 10 c1
pair 0 20 bb
end
";

// A transaction that goes back to its second savepoint, to none, and to its first.
const BACK: &[u8] = b"a begin
a put 0 10 aa
a commit
a begin
a put 0 10 b1
a save
a put 0 10 c1
a put 0 20 c2
a save
a del 0 10
a back 2
a get 0 10
a back 3
a back 1
a put 0 30 d3
a commit
";

const BACK_REPORT: &[u8] = b"open 8 run 1
1 begin 13
2 ok
3 committed 13 succ 13 pred 0
4 begin 33
5 ok
6 saved 1
7 ok
8 ok
9 saved 2
10 ok
11 back 2
12 value c1
13 no save 2
14 back 1
15 ok
16 committed 33 succ 33 pred 13
order 2
commit a 1 stamp 13 succ 13 pred 0
commit a 2 stamp 33 succ 33 pred 13
map 2
pair 0 10 b1
pair 0 30 d3
end
";

fn found(bytes: &[u8]) -> Answer
    requires { length bytes.now ≤ VALUE_BYTES }
{
    Answer::Replied(Reply::Value(Some(value(bytes))))
}

fn done() -> Answer {
    Answer::Replied(Reply::Done)
}

fn committed(stamp: Stamp, succ: Stamp, pred: Stamp) -> Answer {
    Answer::Committed { stamp, succ, pred }
}

fn skew_answers() -> [Answer; 14] {
    [
        Answer::Began(13),
        done(),
        done(),
        committed(13, 13, 0),
        Answer::Began(38),
        Answer::Began(38),
        found(b"\xaa"),
        found(b"\xbb"),
        found(b"\xaa"),
        found(b"\xbb"),
        done(),
        done(),
        committed(38, 38, 13),
        Answer::Excluded {
            stamp: 47,
            succ: 38,
            pred: 38,
        },
    ]
}

fn three_answers() -> [Answer; 19] {
    [
        Answer::Began(113),
        Answer::Began(113),
        Answer::Began(113),
        Answer::Replied(Reply::Value(None)),
        done(),
        done(),
        Answer::Owned { seat: 2, number: 1 },
        Answer::NoTransaction,
        committed(113, 113, 0),
        done(),
        committed(140, 113, 0),
        Answer::Began(160),
        done(),
        done(),
        Answer::Sealed(160),
        Answer::IsSealed,
        Answer::Began(180),
        done(),
        Answer::Flushed(160),
    ]
}

fn safe_answers() -> [Answer; 11] {
    [
        Answer::Began(13),
        done(),
        done(),
        committed(13, 13, 0),
        Answer::Safe(38),
        found(b"\xaa"),
        Answer::Began(38),
        done(),
        committed(38, 38, 13),
        found(b"\xaa"),
        Answer::Ended,
    ]
}

fn back_answers() -> [Answer; 16] {
    [
        Answer::Began(13),
        done(),
        committed(13, 13, 0),
        Answer::Began(33),
        done(),
        Answer::Saved { held: 1 },
        done(),
        done(),
        Answer::Saved { held: 2 },
        done(),
        Answer::Back { n: 2 },
        found(b"\xc1"),
        Answer::NoSave { held: 2 },
        Answer::Back { n: 1 },
        done(),
        committed(33, 33, 13),
    ]
}

fn three_closed() -> [ClosedSession; 2] {
    [
        ClosedSession {
            session: 2,
            answer: committed(160, 160, 113),
        },
        ClosedSession {
            session: 3,
            answer: Answer::Aborted,
        },
    ]
}

// A script of at most 1,000 bytes and 100 sessions.
fn script_of(alloc: Global, text: &[u8]) -> Result<Script, Fail>
    ensures few { IfOk result (λ script. length script.names.items ≤ 100) }
    ensures short { IfOk result (λ script. length script.lines.items ≤ 1001) }
{
    let Ok(script) = parse(alloc, &text[..text.len().min(1_000)], ALL) else {
        return Err(Fail::new("no script"));
    };
    if script.names.len() > 100 {
        return Err(Fail::new("too many sessions"));
    }
    Ok(script)
}

// The text of the report of a script.
fn report(
    alloc: Global,
    script: &Script,
    start: Start,
    answers: Vec<Answer>,
    closed: Vec<ClosedSession>,
) -> Result<Text, Fail>
    requires few { length script.now.names.items ≤ 100 }
    requires short { length script.now.lines.items ≤ 1001 }
{
    if closed.len() > 1000 {
        return Err(Fail::new("too many are closed"));
    }
    let lines = report_of(alloc, start, &script.names, &script.lines, answers, closed)?;
    Ok(text_of(alloc, &lines)?)
}

// The text of the report of a script that closes no session, from an empty map on.
fn report_from_empty(alloc: Global, text: &[u8], answers: Vec<Answer>) -> Result<Text, Fail> {
    let script = script_of(alloc, text)?;
    let start = Start {
        map: Map::new(alloc),
        stamp: 8,
        run: 1,
    };
    report(alloc, &script, start, answers, Vec::new(alloc))
}

#[test]
fn write_skew(rt: HostRuntime) -> Result<(), Fail> {
    let answers = Vec::from_array(rt.alloc(), skew_answers())?;
    let text = report_from_empty(rt.alloc(), SKEW, answers)?;
    assert_eq!(rt; text.as_slice(), SKEW_REPORT);
    Ok(())
}

#[test]
fn a_snapshot_in_its_place(rt: HostRuntime) -> Result<(), Fail> {
    let answers = Vec::from_array(rt.alloc(), safe_answers())?;
    let text = report_from_empty(rt.alloc(), SAFE, answers)?;
    assert_eq!(rt; text.as_slice(), SAFE_REPORT);
    Ok(())
}

#[test]
fn what_stays_of_a_transaction(rt: HostRuntime) -> Result<(), Fail> {
    let answers = Vec::from_array(rt.alloc(), back_answers())?;
    let text = report_from_empty(rt.alloc(), BACK, answers)?;
    assert_eq!(rt; text.as_slice(), BACK_REPORT);
    Ok(())
}

// A map in which one key has a value.
fn started(alloc: Global) -> Result<Start, Fail> {
    let mut map = Map::new(alloc);
    map.insert(3, 1, value(b"\xff"))?;
    Ok(Start {
        map,
        stamp: 104,
        run: 2,
    })
}

#[test]
fn an_order_that_is_not_that_of_stamps(rt: HostRuntime) -> Result<(), Fail> {
    let alloc = rt.alloc();
    let script = script_of(alloc, THREE)?;
    let start = started(alloc)?;
    let answers = Vec::from_array(alloc, three_answers())?;
    let closed = Vec::from_array(alloc, three_closed())?;
    let text = report(alloc, &script, start, answers, closed)?;
    assert_eq!(rt; text.as_slice(), THREE_REPORT);
    Ok(())
}
