//! Streams that are waited for.
ghost use Rattle.std.specs.Prelude.{◌≡◌, IsErr, IsTrue};

use std::io;
use std::io::{Read, Write};
use std::time::{Clock, Duration};

/// How long a stream that isn't ready is left alone, in milliseconds.
const PAUSE: u64 = 1;

/// A reader or writer that is asked again where a signal interrupts a call, and where it isn't ready: a standard output that
/// doesn't block fails so while a pipe is full. Other errors are handed on.
#[derive(Drop)]
pub struct Patient<S, C> {
    stream: S,
    clock: C,
}

impl<S, C: Clock> Patient<S, C> {
    /// The stream, which is waited for by this clock.
    pub fn new(stream: S, clock: C) -> Self
        ensures { result ≡ record { stream = stream; clock = clock } }
    {
        Patient { stream, clock }
    }

    // Whether a call is to be made again. A stream that isn't ready is left alone before.
    fn is_to_repeat(&self, done: &io::Result<usize>) -> bool
        ensures { IsTrue result → IsErr done.now }
    {
        let Err(error) = done else {
            return false;
        };
        match error.kind() {
            io::ErrorKind::Interrupted => true,
            io::ErrorKind::WouldBlock => {
                self.clock.sleep(Duration::from_millis(PAUSE));
                true
            }
            _ => false,
        }
    }
}

impl<S: Write, C: Clock> Write for Patient<S, C> {
    ghost contents = { λ s. S.contents s.stream };

    fn write(&mut self, buf: &[u8]) -> io::Result<usize> {
        for _ in 0..u64::MAX {
            let done = self.stream.write(buf);
            if !self.is_to_repeat(&done) {
                return done;
            }
        }
        Err(io::Error::from(io::ErrorKind::TimedOut))
    }

    fn flush(&mut self) -> io::Result<()> {
        self.stream.flush()
    }
}

impl<S: Read, C: Clock> Read for Patient<S, C> {
    ghost remaining = { λ s. S.remaining s.stream };

    fn read(&mut self, buf: &mut [u8]) -> io::Result<usize> {
        for _ in 0..u64::MAX {
            let done = self.stream.read(buf);
            if !self.is_to_repeat(&done) {
                return done;
            }
        }
        Err(io::Error::from(io::ErrorKind::TimedOut))
    }
}
