//! A source in memory whose calls may be made short, and made to fail.
ghost use Rattle.std.specs.Prelude.{◌≡◌, ◌<◌, ◌↔◌, ◌++◌, [], length, take, drop, min, Some, IsErr, IfOk, OnErr};
ghost use Rattle.std.specs.List.Sorted.{IsPermutation};
ghost use Rattle.erm_outside_mem.specs.Calls.{no_calls, IsToFail, CountsCall};

use crate::SteadySource;
use crate::calls::Calls;
use erm_outside::{Failed, Source};
use std::marker::Model;

/// A source over bytes in memory, which hands out at most so many a call.
#[derive(Drop)]
pub struct MemSource {
    source: SteadySource,
    per_call: usize,
    calls: Calls,
}

impl Model for MemSource {
    ghost use Rattle.std.specs.Prelude.{◌<◌};
    ghost use Rattle.erm_outside_mem.specs.Streams.{SourceState};

    ghost Value = { SourceState };

    ghost view = { λ s. record { left = s.source; per_call = s.per_call; calls = s.calls } };

    ghost invariant = { λ s. 0 < s.per_call };
}

impl MemSource {
    /// A source that gives these bytes, at most `per_call` of them a call.
    pub fn new(bytes: Vec<u8>, per_call: usize) -> Self
        requires { 0 < per_call }
        ensures { result ≡ record { left = bytes.items; per_call = per_call; calls = no_calls } }
    {
        let calls = Calls::new(*bytes.allocator());
        MemSource {
            source: SteadySource::new(bytes),
            per_call,
            calls,
        }
    }

    /// The same source, of which these calls fail: by their numbers from 1, in place of those named before.
    pub fn failing(mut self, calls: Vec<u64>) -> Self
        ensures failing { IsPermutation calls.items result.calls.failing }
        ensures others { result
            ≡ record self { calls = record self.calls { failing = result.calls.failing } } }
    {
        self.calls.set_failing(calls);
        self
    }
}

impl Source for MemSource {
    ghost faults = { λ s. s.calls.faults };

    ghost left = { λ s. Some s.left };

    fn take(&mut self, buf: &mut [u8]) -> Result<usize, Failed>
        requires { 0 < length buf.old }
        ensures fails { IsErr result ↔ IsToFail self.old.calls }
        ensures counted { CountsCall self.old.calls self.new.calls result }
        ensures count { IfOk result
            (λ n. n ≡ min (length self.old.left) (min self.old.per_call (length buf.old))) }
        ensures end { IfOk result (λ n. n ≡ 0 → self.old.left ≡ []) }
        ensures buffer { IfOk result (λ n. buf.new ≡ take n self.old.left ++ drop n buf.old) }
        ensures rest { IfOk result (λ n. self.new.left ≡ drop n self.old.left) }
        ensures unchanged { OnErr result (buf.new ≡ buf.old) }
        ensures kept { OnErr result (self.new.left ≡ self.old.left) }
        ensures per_call { self.new.per_call ≡ self.old.per_call }
    {
        self.calls.begin()?;
        let most = buf.len().min(self.per_call);
        self.source.take(&mut buf[..most])
    }
}
