//! The top call over memory.
use crate::device::Device;
use erm_outside_mem::{MemSink, MemSource, OpenGate};
use erm_top::ermia;
use std::alloc::{AllocError, Global};
use std::sync::Wait;
use std::thread::Threads;

/// How a call of the program ended.
#[derive(Drop)]
pub struct Outcome {
    /// The exit status.
    pub status: u8,
    /// The bytes that were put.
    pub bytes: Vec<u8>,
    /// The disk, as it was left.
    pub device: Device,
}

impl Outcome {
    /// What was put. Bytes that are no text count as none.
    pub fn text(&self) -> &str {
        str::from_utf8(self.bytes.as_slice()).unwrap_or("")
    }

    /// Whether the call ended with this status, and put just this.
    pub fn is(&self, status: u8, report: &str) -> bool {
        self.status == status && self.bytes.as_slice() == report.as_bytes()
    }
}

/// Calls the program with these words over this source, this sink and this disk.
pub fn call<R: Threads + Wait + Sync>(
    rt: &R,
    alloc: Global,
    words: &[String],
    mut source: MemSource,
    mut sink: MemSink,
    device: Device,
) -> Result<Outcome, AllocError> {
    let ended = ermia(rt, alloc, words, &mut source, &mut sink, device, &OpenGate);
    Ok(Outcome {
        status: ended.status,
        bytes: Vec::from_slice(alloc, sink.as_slice())?,
        device: ended.disk,
    })
}

/// The words of a line, with a space between each two.
pub fn words_of(alloc: Global, line: &str) -> Result<Vec<String>, AllocError> {
    let mut words = Vec::new(alloc);
    for word in line.split(' ') {
        words.push(String::from_str(alloc, word)?)?;
    }
    Ok(words)
}

/// Calls the program with the words of this line, the first of which is its name, over this script, with so many bytes a
/// call of source and sink.
pub fn call_over<R: Threads + Wait + Sync>(
    rt: &R,
    alloc: Global,
    line: &str,
    script: &[u8],
    per_call: usize,
    device: Device,
) -> Result<Outcome, AllocError> {
    let words = words_of(alloc, line)?;
    let source = MemSource::new(Vec::from_slice(alloc, script)?, per_call.max(1));
    let sink = MemSink::new(alloc, per_call.max(1));
    call(rt, alloc, &words, source, sink, device)
}

/// The same on an empty disk.
pub fn call_anew<R: Threads + Wait + Sync>(
    rt: &R,
    alloc: Global,
    line: &str,
    script: &[u8],
    per_call: usize,
) -> Result<Outcome, AllocError> {
    call_over(rt, alloc, line, script, per_call, Device::new(alloc))
}
