//! One script, lines by their kinds of fault, and one session too many.
use erm_model::{SESSIONS, Seat};
use erm_script::{
    Command, FaultKind, Grammar, NO_SESSION, ParseError, Script, ScriptFault, ScriptLine, parse,
};
use std::alloc::Global;

// All sessions and commands.
const ALL: Grammar = Grammar {
    sessions: SESSIONS,
    index: true,
    log: true,
    checkpoints: true,
    threads: false,
};

// The same for sessions on threads of their own.
const THREADS: Grammar = Grammar {
    threads: true,
    ..ALL
};

// One session, and the commands of transactions on single keys.
const FEW: Grammar = Grammar {
    sessions: 1,
    index: false,
    log: false,
    checkpoints: false,
    threads: false,
};

// A line for each command, and skipped ones.
const SCRIPT: &[u8] = b"# each command
b begin
a begin

a get 0 1
a put 15 18446744073709551615 00ff
a del 0 1
a next 0 18446744073709551615
a scan 3 1 2
b tidy 0 1
flush
a seal
a settle
b commit
b abort
a durable
checkpoint
a safe
a save
a back 4294967295";

// A command in short: a letter for its kind, its table, and its numbers.
type Short = (u8, u8, u64, u64);

// The number of each line that is not skipped, its session, and its command.
const PLACES: [(u32, Seat, Short); 18] = [
    (2, 1, (b'b', 0, 0, 0)),
    (3, 2, (b'b', 0, 0, 0)),
    (5, 2, (b'g', 0, 1, 0)),
    (6, 2, (b'p', 15, u64::MAX, 0x1_00ff)),
    (7, 2, (b'd', 0, 1, 0)),
    (8, 2, (b'n', 0, u64::MAX, 0)),
    (9, 2, (b's', 3, 1, 2)),
    (10, 1, (b't', 0, 1, 0)),
    (11, NO_SESSION, (b'F', 0, 0, 0)),
    (12, 2, (b'S', 0, 0, 0)),
    (13, 2, (b'D', 0, 0, 0)),
    (14, 1, (b'C', 0, 0, 0)),
    (15, 1, (b'A', 0, 0, 0)),
    (16, 2, (b'L', 0, 0, 0)),
    (17, NO_SESSION, (b'K', 0, 0, 0)),
    (18, 2, (b'W', 0, 0, 0)),
    (19, 2, (b'V', 0, 0, 0)),
    (20, 2, (b'B', 0, 4_294_967_295, 0)),
];

// Lines, and the kind of fault of each.
const LINES: [(&[u8], Grammar, Option<FaultKind>); 61] = [
    (b"flush", ALL, None),
    (b"checkpoint", ALL, None),
    (b"flush begin", ALL, None),
    (b"a begin", ALL, None),
    (b"a get 0 1", ALL, None),
    (b"a next 0 1", ALL, None),
    (b"a scan 0 2 1", ALL, None),
    (b"a tidy 0 1", ALL, None),
    (b"a durable", ALL, None),
    (b"a get 0 1", THREADS, None),
    (b"a durable", THREADS, None),
    (b"a safe", THREADS, None),
    (b"a save", ALL, None),
    (b"a save", THREADS, None),
    (b"a save", FEW, None),
    (b"a back 0", ALL, None),
    (b"a back 4294967295", THREADS, None),
    (b"a get 0 1", FEW, None),
    (b"flush", THREADS, Some(FaultKind::Threads)),
    (b"checkpoint", THREADS, Some(FaultKind::Threads)),
    (b"A begin", ALL, Some(FaultKind::Name)),
    (b"checkpoint 1", ALL, Some(FaultKind::Name)),
    (b"123456789 begin", ALL, Some(FaultKind::Name)),
    (b"A frob", ALL, Some(FaultKind::Name)),
    (b"A frob", THREADS, Some(FaultKind::Name)),
    (b"a frob", ALL, Some(FaultKind::Command)),
    (b"a", ALL, Some(FaultKind::Command)),
    (b"a flush", ALL, Some(FaultKind::Command)),
    (b"a checkpoint", ALL, Some(FaultKind::Command)),
    (b"flush 1", ALL, Some(FaultKind::Command)),
    (b"a frob 16", ALL, Some(FaultKind::Command)),
    (b"flush", FEW, Some(FaultKind::Command)),
    (b"checkpoint", FEW, Some(FaultKind::Command)),
    (b"a next 0 1", FEW, Some(FaultKind::Command)),
    (b"a scan 0 1 2", FEW, Some(FaultKind::Command)),
    (b"a tidy 0 1", FEW, Some(FaultKind::Command)),
    (b"a durable", FEW, Some(FaultKind::Command)),
    (b"safe", ALL, Some(FaultKind::Command)),
    (b"save", ALL, Some(FaultKind::Command)),
    (b"a get 0", ALL, Some(FaultKind::Args)),
    (b"a next 0", ALL, Some(FaultKind::Args)),
    (b"a scan 0 1", ALL, Some(FaultKind::Args)),
    (b"a scan 0 1 2 3", ALL, Some(FaultKind::Args)),
    (b"a tidy 0 1 2", ALL, Some(FaultKind::Args)),
    (b"a durable 0", ALL, Some(FaultKind::Args)),
    (b"a safe 0", ALL, Some(FaultKind::Args)),
    (b"a save 1", ALL, Some(FaultKind::Args)),
    (b"a back", ALL, Some(FaultKind::Args)),
    (b"a back 1 x", ALL, Some(FaultKind::Args)),
    (b"a put 16 abc", ALL, Some(FaultKind::Args)),
    (b"a get 16 1", ALL, Some(FaultKind::Number)),
    (b"a next 0 01", ALL, Some(FaultKind::Number)),
    (b"a back 01", ALL, Some(FaultKind::Number)),
    (b"a back 4294967296", ALL, Some(FaultKind::Number)),
    (b"a back 18446744073709551616", ALL, Some(FaultKind::Number)),
    (b"a scan 0 1 x", ALL, Some(FaultKind::Number)),
    (b"a scan 16 1 2", ALL, Some(FaultKind::Number)),
    (b"a put 16 1 abc", ALL, Some(FaultKind::Number)),
    (b"a put 0 1 abc", ALL, Some(FaultKind::Value)),
    (b"a put 0 1 AB", ALL, Some(FaultKind::Value)),
    (b"a put 0 1 -", ALL, None),
];

// One session more than there may be, and behind it a line with a fault of an earlier kind.
const NAMES: &[u8] = b"s1 begin
s2 begin
s3 begin
s4 begin
s5 begin
s6 begin
s7 begin
s8 begin
s9 begin
s10 begin
s11 begin
s12 begin
s13 begin
s14 begin
s15 begin
s16 begin
s17 begin
s18 begin
s19 begin
s20 begin
s21 begin
s22 begin
s23 begin
s24 begin
s25 begin
s26 begin
s27 begin
s28 begin
s29 begin
s30 begin
s31 begin
s32 begin
s33 begin
s34 begin
s35 begin
s36 begin
s37 begin
s38 begin
s39 begin
s40 begin
s41 begin
s42 begin
s43 begin
s44 begin
s45 begin
s46 begin
s47 begin
s48 begin
s49 begin\nA begin";

// What is wrong with a script of at most 1,000 bytes, if something is.
fn fault(alloc: Global, script: &[u8], grammar: Grammar) -> Option<ScriptFault> {
    match parse(alloc, &script[..script.len().min(1_000)], grammar) {
        Err(ParseError::Fault(fault)) => Some(fault),
        _ => None,
    }
}

// The bytes of a value behind a 1, as one number.
fn number_of(bytes: &[u8]) -> u64 {
    let mut number: u64 = 1;
    for byte in bytes {
        number = number.wrapping_mul(256).wrapping_add(*byte as u64);
    }
    number
}

// A command in short.
fn short(command: &Command) -> Short {
    match command {
        Command::Begin => (b'b', 0, 0, 0),
        Command::Get { table, key } => (b'g', *table, *key, 0),
        Command::Put { table, key, value } => (b'p', *table, *key, number_of(value.as_slice())),
        Command::Del { table, key } => (b'd', *table, *key, 0),
        Command::Next { table, from } => (b'n', *table, *from, 0),
        Command::Scan { table, low, high } => (b's', *table, *low, *high),
        Command::Tidy { table, key } => (b't', *table, *key, 0),
        Command::Flush => (b'F', 0, 0, 0),
        Command::Seal => (b'S', 0, 0, 0),
        Command::Settle => (b'D', 0, 0, 0),
        Command::Commit => (b'C', 0, 0, 0),
        Command::Abort => (b'A', 0, 0, 0),
        Command::Durable => (b'L', 0, 0, 0),
        Command::Checkpoint => (b'K', 0, 0, 0),
        Command::Safe => (b'W', 0, 0, 0),
        Command::Save => (b'V', 0, 0, 0),
        Command::Back { n } => (b'B', 0, u64::from(*n), 0),
    }
}

// Whether these are the lines of the script.
fn are_lines(lines: &[ScriptLine]) -> bool {
    for (line, want) in lines.iter().zip(PLACES) {
        if (line.line, line.session, short(&line.command)) != want {
            return false;
        }
    }
    lines.len() == PLACES.len()
}

// Whether this is the script.
fn is_script(parsed: Result<Script, ParseError>) -> bool {
    match parsed {
        Ok(script) => script.names.len() == 2 && are_lines(&script.lines),
        Err(_) => false,
    }
}

#[test]
fn one_script(rt: HostRuntime) {
    assert!(rt; is_script(parse(rt.alloc(), SCRIPT, ALL)));
}

// The first line with another fault than is said.
fn first_other(alloc: Global) -> Option<&'static [u8]> {
    for (line, grammar, want) in &LINES {
        if fault(alloc, *line, *grammar).map(|fault| fault.kind) != *want {
            return Some(*line);
        }
    }
    None
}

#[test]
fn lines_by_their_kinds_of_fault(rt: HostRuntime) {
    assert_eq!(rt; first_other(rt.alloc()), None);
}

#[test]
fn one_session_too_many(rt: HostRuntime) {
    let found = fault(rt.alloc(), NAMES, ALL);
    assert!(rt; found.map(|fault| (fault.line, fault.kind)) == Some((49, FaultKind::Sessions)));
}
