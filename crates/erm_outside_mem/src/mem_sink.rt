//! A sink in memory whose calls may be made short, and made to fail.
ghost use Rattle.std.specs.Prelude.{◌≡◌, ◌<◌, ◌≤◌, ◌+◌, ◌⊎◌, ◌++◌, [], length, take, min, Some, IsErr, IfOk, OnErr};
ghost use Rattle.std.specs.List.Sorted.{IsPermutation};
ghost use Rattle.erm_outside_mem.specs.Calls.{no_calls, IsToFail, CountsCall};

use crate::calls::Calls;
use erm_outside::{Failed, Sink};
use std::alloc::{AllocError, Global};
use std::marker::Model;

/// A sink that keeps the bytes in memory, and writes at most so many a call. A call fails where it is to fail and, in a sink
/// without room for its bytes, where memory is refused.
#[derive(Drop)]
pub struct MemSink {
    bytes: Vec<u8>,
    per_call: usize,
    calls: Calls,
}

impl Model for MemSink {
    ghost use Rattle.std.specs.Prelude.{◌<◌, vec_capacity};
    ghost use Rattle.erm_outside_mem.specs.Streams.{SinkState};

    ghost Value = { SinkState };

    ghost view = { λ s. record { written = s.bytes.items; room = vec_capacity s.bytes; per_call = s.per_call; calls = s.calls } };

    ghost invariant = { λ s. 0 < s.per_call };
}

impl MemSink {
    /// A sink that nothing was written to, that writes at most `per_call` bytes a call, and has no room yet.
    pub fn new(alloc: Global, per_call: usize) -> Self
        requires { 0 < per_call }
        ensures { result ≡ record { written = []; room = 0; per_call = per_call; calls = no_calls } }
    {
        MemSink {
            bytes: Vec::new(alloc),
            per_call,
            calls: Calls::new(alloc),
        }
    }

    /// A sink like that of [`new`](Self::new) with room for `room` bytes: up to them it takes no memory.
    pub fn with_room(alloc: Global, per_call: usize, room: usize) -> Result<Self, AllocError>
        requires { 0 < per_call }
        ensures { IfOk result (λ sink. sink ≡ record { written = []; room = room; per_call = per_call; calls = no_calls }) }
    {
        Ok(MemSink {
            bytes: Vec::with_capacity(alloc, room)?,
            per_call,
            calls: Calls::new(alloc),
        })
    }

    /// The same sink, of which these calls fail: by their numbers from 1, in place of those named before.
    pub fn failing(mut self, calls: Vec<u64>) -> Self
        ensures failing { IsPermutation calls.items result.calls.failing }
        ensures others { result
            ≡ record self { calls = record self.calls { failing = result.calls.failing } } }
    {
        self.calls.set_failing(calls);
        self
    }

    /// The bytes that were written.
    pub fn as_slice(&self) -> &[u8]
        ensures { result.now ≡ self.now.written }
    {
        &self.bytes
    }
}

impl Sink for MemSink {
    ghost faults = { λ s. s.calls.faults };

    ghost written = { λ s. Some s.written };

    fn put(&mut self, piece: &[u8]) -> Result<usize, Failed>
        // It fails where it is to fail, and else nowhere but without room, where memory may be refused.
        ensures fails { IsToFail self.old.calls → IsErr result }
        ensures cause { IsErr result → IsToFail self.old.calls ⊎ (self.old.room < length self.old.written + min (length piece.now) self.old.per_call) }
        ensures counted { CountsCall self.old.calls self.new.calls result }
        ensures count { IfOk result (λ n. n ≡ min (length piece.now) self.old.per_call) }
        ensures some { 0 < length piece.now → IfOk result (λ n. 1 ≤ n) }
        ensures written { IfOk result (λ n. self.new.written ≡ self.old.written ++ take n piece.now) }
        ensures kept { OnErr result (self.new.written ≡ self.old.written) }
        ensures per_call { self.new.per_call ≡ self.old.per_call }
        ensures room { self.old.room ≤ self.new.room }
    {
        self.calls.begin()?;
        let count = piece.len().min(self.per_call);
        match self.bytes.extend_from_slice(&piece[..count]) {
            Ok(()) => Ok(count),
            Err(_) => Err(self.calls.fail()),
        }
    }
}
