//! A source in memory that never fails.
ghost use Rattle.std.specs.Prelude.{◌≡◌, ◌++◌, length, take, drop, min, Some};

use erm_outside::{Failed, Source};
use std::marker::Model;

/// A source over bytes in memory. No call of it fails.
#[derive(Drop)]
pub struct SteadySource {
    bytes: Vec<u8>,
    taken: usize,
}

impl Model for SteadySource {
    ghost use Rattle.std.specs.Prelude.{ℕ, ◌≤◌, List, drop, vec_len};

    ghost Value = { List ℕ };

    ghost view = { λ s. drop s.taken s.bytes.items };

    ghost invariant = { λ s. s.taken ≤ vec_len s.bytes };
}

impl SteadySource {
    /// A source that gives these bytes.
    pub fn new(bytes: Vec<u8>) -> Self
        ensures { result ≡ bytes.items }
    {
        SteadySource { bytes, taken: 0 }
    }
}

impl Source for SteadySource {
    ghost faults = { λ _. 0 };

    ghost left = { λ bytes. Some bytes };

    fn take(&mut self, buf: &mut [u8]) -> Result<usize, Failed>
        ensures count { result ≡ Ok (min (length self.old) (length buf.old)) }
        ensures rest { self.new ≡ drop (length buf.old) self.old }
        ensures buffer { buf.new ≡ take (length buf.old) self.old ++ drop (length self.old) buf.old }
    {
        let rest = &self.bytes[self.taken..];
        let count = rest.len().min(buf.len());
        buf[..count].copy_from_slice(&rest[..count]);
        self.taken += count;
        Ok(count)
    }
}
