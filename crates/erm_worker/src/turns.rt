//! What a worker does between its calls.
ghost use Rattle.std.specs.Prelude.{◌≡◌, Bool, false};

use erm_outside::Place;
use erm_world::Wait;

/// What is in a line's way.
#[derive(Clone, Copy, Debug, PartialEq, Eq)]
pub enum Why {
    /// Another session: its transaction is sealing or sealed, and isn't decided; or what it has in progress had begun before the own snapshot.
    Session,
    /// The ring, which has no room for the transaction's block before a flush.
    Ring,
    /// The disk: the session's last commit isn't on it yet.
    Disk,
}

impl Why {
    /// What is in the way of a transaction that is to be decided.
    pub fn of(wait: &Wait) -> Why {
        match wait {
            Wait::Ring { .. } => Why::Ring,
            Wait::Seat { .. } => Why::Session,
        }
    }
}

/// What a worker does between its calls: no call of its session. Nothing else is said of it but that it tells the worker to stop, and whether it has told
/// it that memory ran out elsewhere.
pub trait Turns {
    /// The worker was told to stop.
    ghost told: { Self → Type 0 };

    /// The worker was told that memory ran out for another one.
    ghost starved: { Self → Bool };

    /// Passes a place of its session, which may wait.
    fn pass(&mut self, place: Place);

    /// Waits for what is in the way, or does something about it: whether the worker tries again.
    fn wait(&mut self, why: Why) -> bool
        ensures told { result ≡ false → told self.new };

    /// Whether the worker goes on with its next line.
    fn goes_on(&mut self) -> bool
        ensures told { result ≡ false → told self.new };

    /// Whether the worker was told that memory ran out for another one.
    fn is_starved(&self) -> bool
        ensures told { result ≡ starved self.now };

    /// Tells the other workers that memory ran out for this one, so that they stop.
    fn tell_starved(&mut self);
}
