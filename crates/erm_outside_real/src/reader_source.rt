//! A source over a reader.
ghost use Rattle.std.specs.Prelude.{◌≡◌, ◌<◌, ◌≤◌, length, None, IfOk, IfSome, OnErr, IsSome};
ghost use Rattle.erm_outside.specs.Source.{Takes};
ghost use Rattle.erm_outside_real.specs.Faults.{CountsFault};

use erm_outside::{Failed, Source};
use std::io::Read;
use std::marker::Model;

/// A source over a reader, such as standard input. Each error of the reader is a fault. It tells what is left where
/// its reader does.
#[derive(Drop)]
pub struct ReaderSource<R: Read> {
    reader: R,
    // Whether the reader tells what it has left.
    tells: bool,
    faults: u64,
}

impl<R: Read> Model for ReaderSource<R> {
    ghost use Rattle.std.specs.Prelude.{◌≡◌, true, IsSome};
    ghost use Rattle.erm_outside_real.specs.Streams.{ReaderState, known_if};

    ghost Value = { ReaderState };

    ghost view = { λ s. record { remaining = known_if s.tells (R.remaining s.reader); faults = s.faults } };

    ghost invariant = { λ s. s.tells ≡ true → IsSome (R.remaining s.reader) };
}

impl<R: Read> ReaderSource<R> {
    /// A source of what the reader gives from here on, which doesn't tell it.
    pub fn new(reader: R) -> Self
        ensures { result ≡ record { remaining = None; faults = 0 } }
    {
        ReaderSource {
            reader,
            tells: false,
            faults: 0,
        }
    }

    /// The same over a reader that tells what it has left.
    pub fn telling(reader: R) -> Self
        requires { IsSome (R.remaining reader) }
        ensures { result ≡ record { remaining = R.remaining reader; faults = 0 } }
    {
        ReaderSource {
            reader,
            tells: true,
            faults: 0,
        }
    }
}

impl<R: Read> Source for ReaderSource<R> {
    ghost faults = { λ s. s.faults };

    ghost left = { λ s. s.remaining };

    fn take(&mut self, buf: &mut [u8]) -> Result<usize, Failed>
        requires { 0 < length buf.old }
        ensures within { IfOk result (λ n. n ≤ length buf.old) }
        ensures taken { IfOk result (λ n. IfSome self.old.remaining (λ bytes. Takes bytes n buf.new self.new.remaining)) }
        ensures kept { OnErr result (self.new.remaining ≡ self.old.remaining) }
        ensures counted { CountsFault self.old.faults self.new.faults result }
    {
        match self.reader.read(buf) {
            Ok(count) => Ok(count),
            Err(_) => {
                self.faults = self.faults.saturating_add(1);
                Err(Failed)
            }
        }
    }
}
