//! The calls of an object: how many there were, which are to fail, and how many failed.
ghost use Rattle.std.specs.Prelude.{◌≡◌, ◌<◌, ◌↔◌, IsTrue, IsErr, IsSomeAnd, Some, Contains};
ghost use Rattle.std.specs.List.Sorted.{IsPermutation, IsSorted};
ghost use Rattle.std.specs.Ordering.{nat_cmp};
ghost use Rattle.erm_outside.specs.Faults.{next};
ghost use Rattle.erm_outside_mem.specs.Calls.{no_calls, IsToFail, CountsCall};

use erm_outside::Failed;
use std::alloc::Global;
use std::marker::Model;

/// Counts the calls of an object and its faults. Both counts stand still at `u64::MAX`.
#[derive(Drop)]
pub struct Calls {
    count: u64,
    failing: Vec<u64>,
    last: Option<u64>,
    faults: u64,
}

impl Model for Calls {
    ghost use Rattle.std.specs.Ordering.{nat_cmp};
    ghost use Rattle.std.specs.List.Sorted.{IsSorted};
    ghost use Rattle.erm_outside_mem.specs.Calls.{CallState};

    ghost Value = { CallState };

    ghost view = { λ c. record { count = c.count; failing = c.failing.items; last = c.last; faults = c.faults } };

    ghost invariant = { λ c. IsSorted nat_cmp c.failing.items };
}

impl Calls {
    /// No calls so far, and none that is to fail.
    pub fn new(alloc: Global) -> Self
        ensures { result ≡ no_calls }
    {
        Calls {
            count: 0,
            failing: Vec::new(alloc),
            last: None,
            faults: 0,
        }
    }

    /// The calls that are to fail, by their numbers from 1, in place of those named before.
    pub fn set_failing(&mut self, mut failing: Vec<u64>)
        ensures failing { IsPermutation failing.items self.new.failing }
        ensures others { self.new ≡ record self.old { failing = self.new.failing } }
    {
        failing.sort_unstable();
        self.failing = failing;
    }

    /// Each call behind this many is to fail too.
    pub fn set_last(&mut self, last: u64)
        ensures { self.new ≡ record self.old { last = Some last } }
    {
        self.last = Some(last);
    }

    /// How many calls there were.
    pub fn count(&self) -> u64
        ensures { result ≡ self.now.count }
    {
        self.count
    }

    /// Counts a call, and fails it if it is to fail.
    pub fn begin(&mut self) -> Result<(), Failed>
        ensures fails { IsErr result ↔ IsToFail self.old }
        ensures counted { CountsCall self.old self.new result }
    {
        self.count = one_more(self.count);
        if is_among(&self.failing, self.count) || is_behind(self.last, self.count) {
            return Err(self.fail());
        }
        Ok(())
    }

    /// Counts a fault of the call that has begun.
    pub fn fail(&mut self) -> Failed
        ensures { self.new ≡ record self.old { faults = next self.old.faults } }
    {
        self.faults = one_more(self.faults);
        Failed
    }
}

/// Counts on, up to `u64::MAX`.
pub fn one_more(count: u64) -> u64
    ensures { result ≡ next count }
{
    count.saturating_add(1)
}

/// Whether a number lies behind the last that passes, if there is a last.
fn is_behind(last: Option<u64>, number: u64) -> bool
    ensures { IsTrue result ↔ IsSomeAnd last (λ last. last < number) }
{
    match last {
        Some(last) => last < number,
        None => false,
    }
}

/// Whether a number is among these, which ascend.
fn is_among(numbers: &[u64], number: u64) -> bool
    requires { IsSorted nat_cmp numbers.now }
    ensures { IsTrue result ↔ Contains numbers.now number }
{
    numbers.binary_search(&number).is_ok()
}
