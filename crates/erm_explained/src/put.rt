//! The causes of a report's refusals, from a source to a sink.
use crate::reading::{read_answers, report_start};
use crate::text::push_causes;
use erm_explain::explain;
use erm_outside::{Failed, Sink, Source, put_all};
use erm_script::{Grammar, ParseError, parse};
use std::alloc::{AllocError, Global};

/// The most bytes that a script with its report has.
const MOST_BYTES: usize = 1_073_741_824;

/// How many bytes are asked for at a time.
const CHUNK_BYTES: usize = 65_536;

/// What a script may have: all that there is, but for threads.
const GRAMMAR: Grammar = Grammar {
    sessions: 48,
    index: true,
    log: true,
    checkpoints: true,
    threads: false,
};

/// Why no causes are told.
#[derive(Clone, Copy, Debug, PartialEq, Eq)]
enum Stop {
    /// The script isn't in the grammar.
    BadScript,
    /// The source failed.
    ReadFault,
    /// Memory ran out.
    Memory,
    /// There are too many bytes.
    TooLong,
}

impl From<AllocError> for Stop {
    fn from(_error: AllocError) -> Stop {
        Stop::Memory
    }
}

impl From<Failed> for Stop {
    fn from(_error: Failed) -> Stop {
        Stop::ReadFault
    }
}

impl From<ParseError> for Stop {
    fn from(error: ParseError) -> Stop {
        match error {
            ParseError::Memory => Stop::Memory,
            ParseError::Fault(_) => Stop::BadScript,
        }
    }
}

/// Reads a script with its report behind, puts the causes of its refusals, and answers the status: 0; 3 where the script isn't in the
/// grammar; 4 and 5 where the source or the sink failed; 8 where memory ran out; 9 where there are more than 2^30 bytes.
pub fn put_causes<S: Source, K: Sink>(alloc: Global, source: &mut S, sink: &mut K) -> u8 {
    match causes_text(alloc, source) {
        Ok(text) => match put_all(sink, &text) {
            Ok(()) => 0,
            Err(_) => 5,
        },
        Err(Stop::BadScript) => 3,
        Err(Stop::ReadFault) => 4,
        Err(Stop::Memory) => 8,
        Err(Stop::TooLong) => 9,
    }
}

// The text of the causes.
fn causes_text<S: Source>(alloc: Global, source: &mut S) -> Result<Vec<u8>, Stop> {
    let bytes = read_all(alloc, source)?;
    let (script, report) = bytes.split_at(report_start(&bytes));
    if script.len() > MOST_BYTES {
        return Err(Stop::TooLong);
    }
    let script = parse(alloc, script, GRAMMAR)?;
    let answers = read_answers(alloc, &script.lines, report)?;
    let causes = explain(alloc, &script.lines, &answers)?;
    let mut text = Vec::new(alloc);
    push_causes(&mut text, &script.names, &script.lines, &causes)?;
    Ok(text)
}

// All bytes of a source.
fn read_all<S: Source>(alloc: Global, source: &mut S) -> Result<Vec<u8>, Stop> {
    let mut bytes = Vec::new(alloc);
    let mut chunk = [0; CHUNK_BYTES];
    for _take in 0..u64::MAX {
        let count = source.take(&mut chunk)?;
        if count == 0 {
            return Ok(bytes);
        }
        if bytes.len() > MOST_BYTES {
            break;
        }
        bytes.extend_from_slice(&chunk[..count])?;
    }
    Err(Stop::TooLong)
}
