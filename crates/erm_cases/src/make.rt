//! The text of the least workload, and cases of others, as a model apart from this one prints them.
use erm_make::{MOST_TRANSACTIONS, make, text_but_flushes};
use erm_model::{SESSIONS, Seat};
use erm_script::{Command, Script, ScriptLine};
use std::alloc::{AllocError, Global};

// One transaction of one session.
const ONE: &[u8] = b"s1 begin
s1 put 0 0 -
s1 put 0 1 -
s1 put 0 2 -
s1 put 0 3 -
s1 commit
s1 begin
s1 put 0 4 -
s1 put 0 5 -
s1 put 0 6 -
s1 put 0 7 -
s1 commit
s1 begin
s1 put 0 8 -
s1 put 0 9 -
s1 put 0 10 -
s1 put 0 11 -
s1 commit
s1 begin
s1 put 0 12 -
s1 put 0 13 -
s1 put 0 14 -
s1 put 0 15 -
s1 commit
s1 begin
s1 put 0 16 -
s1 put 0 17 -
s1 put 0 18 -
s1 put 0 19 -
s1 commit
s1 begin
s1 put 0 20 -
s1 put 0 21 -
s1 put 0 22 -
s1 put 0 23 -
s1 commit
s1 begin
s1 put 0 24 -
s1 put 0 25 -
s1 put 0 26 -
s1 put 0 27 -
s1 commit
s1 begin
s1 put 0 28 -
s1 put 0 29 -
s1 put 0 30 -
s1 put 0 31 -
s1 commit
s1 begin
s1 put 0 32 -
s1 put 0 33 -
s1 put 0 34 -
s1 put 0 35 -
s1 commit
s1 begin
s1 put 0 36 -
s1 put 0 37 -
s1 put 0 38 -
s1 put 0 39 -
s1 commit
s1 begin
s1 put 0 40 -
s1 put 0 41 -
s1 put 0 42 -
s1 put 0 43 -
s1 commit
s1 begin
s1 put 0 44 -
s1 put 0 45 -
s1 put 0 46 -
s1 put 0 47 -
s1 commit
s1 begin
s1 put 0 48 -
s1 put 0 49 -
s1 put 0 50 -
s1 put 0 51 -
s1 commit
s1 begin
s1 put 0 52 -
s1 put 0 53 -
s1 put 0 54 -
s1 put 0 55 -
s1 commit
s1 begin
s1 put 0 56 -
s1 put 0 57 -
s1 put 0 58 -
s1 put 0 59 -
s1 commit
s1 begin
s1 put 0 60 -
s1 put 0 61 -
s1 put 0 62 -
s1 put 0 63 -
s1 commit
s1 begin
s1 get 0 6
s1 get 0 62
s1 put 0 6 0000000000000000
s1 commit
";

// The end of the greatest workload's text.
const GREATEST_END: &[u8] = b"s16 put 0 21 000000000001869f
s1 commit
s2 commit
s3 commit
s4 commit
s5 commit
s6 commit
s7 commit
s8 commit
s9 commit
s10 commit
s11 commit
s12 commit
s13 commit
s14 commit
s15 commit
s16 commit
";

// A workload, and what is known of it.
struct Case {
    count: u32,
    sessions: Seat,
    // how many sessions have a line
    names: usize,
    lines: usize,
    // the numbers of the lines that ask for a flush
    flushes: &'static [u32],
    // how many bytes its text has, and the last of them
    bytes: usize,
    end: &'static [u8],
}

const CASES: [Case; 6] = [
    Case {
        count: 1,
        sessions: 48,
        names: 1,
        lines: 102,
        flushes: &[97],
        bytes: 1260,
        end: b"s1 put 0 6 0000000000000000\ns1 commit\n",
    },
    Case {
        count: 3,
        sessions: 2,
        names: 2,
        lines: 112,
        flushes: &[97],
        bytes: 1402,
        end: b"s2 commit\ns1 begin\ns1 get 0 11\ns1 get 0 59\ns1 put 0 11 0000000000000002\ns1 commit\n",
    },
    Case {
        count: 100,
        sessions: 48,
        names: 48,
        lines: 597,
        flushes: &[97],
        bytes: 8729,
        end: b"s4 put 0 5 0000000000000063\ns1 commit\ns2 commit\ns3 commit\ns4 commit\n",
    },
    Case {
        count: 128,
        sessions: 1,
        names: 1,
        lines: 739,
        flushes: &[97, 418, 739],
        bytes: 10_343,
        end: b"s1 get 0 30\ns1 put 0 57 000000000000007f\ns1 commit\n",
    },
    Case {
        count: 130,
        sessions: 2,
        names: 2,
        lines: 748,
        flushes: &[97, 738],
        bytes: 10_487,
        end: b"s2 get 0 32\ns2 put 0 51 0000000000000081\ns1 commit\ns2 commit\n",
    },
    Case {
        count: 200,
        sessions: 4,
        names: 4,
        lines: 1097,
        flushes: &[97],
        bytes: 15_492,
        end: b"s4 put 0 37 00000000000000c7\ns1 commit\ns2 commit\ns3 commit\ns4 commit\n",
    },
];

// whether a line asks for a flush just where one of these has its number
fn is_flush_at(line: &ScriptLine, flushes: &[u32]) -> bool {
    matches!(line.command, Command::Flush) == flushes.iter().any(|number| *number == line.line)
}

#[test]
fn one_transaction_is_written_out(rt: HostRuntime) -> Result<(), AllocError> {
    let script = make(rt.alloc(), 1, 1)?;
    let text = text_but_flushes(rt.alloc(), &script)?;
    assert_eq!(rt; text.as_slice(), ONE);
    Ok(())
}

// Whether a script has what is known of its workload.
fn has_lines(script: &Script, case: &Case) -> bool {
    script.names.len() == case.names
        && script.lines.len() == case.lines
        && script
            .lines
            .iter()
            .all(|line| is_flush_at(line, case.flushes))
}

// Whether a text has so many bytes, and ends so.
fn ends_so(text: &[u8], bytes: usize, end: &[u8]) -> bool {
    text.len() == bytes && text.ends_with(end)
}

fn is_made_so(alloc: Global, case: &Case) -> Result<bool, AllocError> {
    if case.count < 1 || MOST_TRANSACTIONS < case.count {
        return Ok(false);
    }
    if case.sessions < 1 || SESSIONS < case.sessions {
        return Ok(false);
    }
    let script = make(alloc, case.count, case.sessions)?;
    if !has_lines(&script, case) {
        return Ok(false);
    }
    let text = text_but_flushes(alloc, &script)?;
    Ok(ends_so(text.as_slice(), case.bytes, case.end))
}

#[test]
fn workloads_have_these_lines(rt: HostRuntime) -> Result<(), AllocError> {
    for case in &CASES {
        assert!(rt; is_made_so(rt.alloc(), case)?);
    }
    Ok(())
}

#[test]
fn the_greatest_workload_is_made(rt: HostRuntime) -> Result<(), AllocError> {
    let script = make(rt.alloc(), MOST_TRANSACTIONS, SESSIONS)?;
    assert!(rt; script.names.len() == 48 && script.lines.len() == 500_129);
    let text = text_but_flushes(rt.alloc(), &script)?;
    assert!(rt; ends_so(text.as_slice(), 7_560_010, GREATEST_END));
    Ok(())
}
