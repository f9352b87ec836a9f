//! A sink over a writer.
ghost use Rattle.std.specs.Prelude.{◌≡◌, ◌<◌, ◌≤◌, length, None, IfOk, OnErr, IsSome};
ghost use Rattle.erm_outside.specs.Sink.{Writes};
ghost use Rattle.erm_outside_real.specs.Faults.{CountsFault};

use erm_outside::{Failed, Sink};
use std::io::Write;
use std::marker::Model;

/// A sink over a writer, such as standard output. Each error of the writer is a fault, and so is a write that takes no
/// byte of a piece that isn't empty. It tells what was written where its writer does.
///
/// It doesn't flush, so give it a writer with no buffer: what a call has put is then out of the process.
#[derive(Drop)]
pub struct WriterSink<W: Write> {
    writer: W,
    // Whether the writer tells what it holds.
    tells: bool,
    faults: u64,
}

impl<W: Write> Model for WriterSink<W> {
    ghost use Rattle.std.specs.Prelude.{◌≡◌, true, IsSome};
    ghost use Rattle.erm_outside_real.specs.Streams.{WriterState, known_if};

    ghost Value = { WriterState };

    ghost view = { λ s. record { contents = known_if s.tells (W.contents s.writer); faults = s.faults } };

    ghost invariant = { λ s. s.tells ≡ true → IsSome (W.contents s.writer) };
}

impl<W: Write> WriterSink<W> {
    /// A sink that writes behind what the writer holds, and doesn't tell it.
    pub fn new(writer: W) -> Self
        ensures { result ≡ record { contents = None; faults = 0 } }
    {
        WriterSink {
            writer,
            tells: false,
            faults: 0,
        }
    }

    /// The same over a writer that tells what it holds.
    pub fn telling(writer: W) -> Self
        requires { IsSome (W.contents writer) }
        ensures { result ≡ record { contents = W.contents writer; faults = 0 } }
    {
        WriterSink {
            writer,
            tells: true,
            faults: 0,
        }
    }
}

impl<W: Write> Sink for WriterSink<W> {
    ghost faults = { λ s. s.faults };

    ghost written = { λ s. s.contents };

    fn put(&mut self, piece: &[u8]) -> Result<usize, Failed>
        ensures within { IfOk result (λ n. n ≤ length piece.now) }
        ensures some { 0 < length piece.now → IfOk result (λ n. 1 ≤ n) }
        ensures written { IfOk result (λ n. Writes piece.now n self.old.contents self.new.contents) }
        ensures kept { OnErr result (self.new.contents ≡ self.old.contents) }
        ensures counted { CountsFault self.old.faults self.new.faults result }
    {
        match self.writer.write(piece) {
            Ok(count) if 0 < count || piece.is_empty() => Ok(count),
            _ => {
                self.faults = self.faults.saturating_add(1);
                Err(Failed)
            }
        }
    }
}
