//! Where bytes go.
ghost use Rattle.std.specs.Prelude.{◌≡◌, ◌<◌, ◌≤◌, ℕ, List, Option, length, IfOk, OnOk, OnErr};
ghost use Rattle.erm_outside.specs.Faults.{Rose};
ghost use Rattle.erm_outside.specs.Sink.{Writes, Puts, PutsFront};

use crate::Failed;

/// A stream of bytes that is written at its end.
pub trait Sink {
    /// How often it has failed. It stands still at 2^64 - 1.
    ghost faults: { Self → ℕ };

    /// The bytes that were written, or `None` where it doesn't tell.
    ghost written: { Self → Option (List ℕ) };

    /// Writes bytes from the front of `piece`, and answers how many: at least one of a piece that isn't empty.
    /// A call that fails writes nothing.
    fn put(&mut self, piece: &[u8]) -> Result<usize, Failed>
        ensures within { IfOk result (λ n. n ≤ length piece.now) }
        ensures some { 0 < length piece.now → IfOk result (λ n. 1 ≤ n) }
        ensures written { IfOk result (λ n. Writes piece.now n (written self.old) (written self.new)) }
        ensures kept { OnErr result (written self.new ≡ written self.old) }

        // The count rises exactly where the call fails.
        ensures sound { OnOk result (faults self.new ≡ faults self.old) }
        ensures failed { OnErr result (Rose (faults self.old) (faults self.new)) };
}

/// Puts all of the bytes, or as many as the sink takes before it fails.
pub fn put_all<K: Sink>(sink: &mut K, bytes: &[u8]) -> Result<(), Failed>
    ensures all { OnOk result (Puts bytes.now (K.written sink.old) (K.written sink.new)) }
    ensures front { OnErr result (PutsFront bytes.now (K.written sink.old) (K.written sink.new)) }
    ensures sound { OnOk result (K.faults sink.new ≡ K.faults sink.old) }
    ensures failed { OnErr result (Rose (K.faults sink.old) (K.faults sink.new)) }
{
    let mut at = 0;
    while at < bytes.len() {
        at += sink.put(&bytes[at..])?;
    }
    Ok(())
}
