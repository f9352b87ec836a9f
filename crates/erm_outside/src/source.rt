//! Where bytes come from.
ghost use Rattle.std.specs.Prelude.{◌≡◌, ◌<◌, ◌≤◌, ℕ, List, Option, length, IfOk, OnOk, OnErr, IfSome};
ghost use Rattle.erm_outside.specs.Faults.{Rose};
ghost use Rattle.erm_outside.specs.Source.{Takes};

use crate::Failed;

/// A stream of bytes that is read from its front to its end.
pub trait Source {
    /// How often it has failed. It stands still at 2^64 - 1.
    ghost faults: { Self → ℕ };

    /// The bytes that are left, or `None` where it doesn't tell.
    ghost left: { Self → Option (List ℕ) };

    /// Takes bytes from the front into `buf`, at most as many as fit, and answers how many. 0 is the end.
    /// A call that fails takes nothing.
    fn take(&mut self, buf: &mut [u8]) -> Result<usize, Failed>
        requires { 0 < length buf.old }
        ensures within { IfOk result (λ n. n ≤ length buf.old) }
        ensures taken { IfOk result (λ n. IfSome (left self.old) (λ bytes. Takes bytes n buf.new (left self.new))) }
        ensures kept { OnErr result (left self.new ≡ left self.old) }

        // The count rises exactly where the call fails.
        ensures sound { OnOk result (faults self.new ≡ faults self.old) }
        ensures failed { OnErr result (Rose (faults self.old) (faults self.new)) };
}
