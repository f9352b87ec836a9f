//! A gate that holds one session up until another has gone on.
use crossbeam_utils::Backoff;
use erm_model::Seat;
use erm_outside::{Gate, Place};
use std::sync::Wait;
use std::sync::atomic::{AtomicU64, Ordering};

/// How often a session that is held looks again, at most.
const MOST_TURNS: u32 = 1_000_000;

/// The session that is held, and the one for which it is held.
const HELD: Seat = 1;

const AWAITED: Seat = 2;

/// How many transactions the awaited session begins before the other one goes on.
const BEGINS: u64 = 2;

/// A gate that holds session 1 between a transaction's seal and its settling until session 2 has passed its second begin, or for 1,000,000
/// turns, after which it has expired.
#[derive(Drop)]
pub struct HoldFirst {
    // How many begins the awaited session has passed.
    begins: AtomicU64,
    // How often the held session went on for want of turns.
    expired: AtomicU64,
}

impl HoldFirst {
    /// A gate that no session has passed.
    pub fn new() -> HoldFirst {
        HoldFirst {
            begins: AtomicU64::new(0),
            expired: AtomicU64::new(0),
        }
    }

    /// Whether the held session once went on though the other one hadn't begun so often.
    pub fn has_expired(&self) -> bool {
        self.expired.load(Ordering::SeqCst) != 0
    }

    // Waits until the awaited session has begun so often.
    fn hold(&self) {
        let backoff = Backoff::new();
        for _ in 0..MOST_TURNS {
            if self.begins.load(Ordering::SeqCst) >= BEGINS {
                return;
            }
            backoff.snooze();
        }
        self.expired.fetch_add(1, Ordering::SeqCst);
    }
}

impl Gate for HoldFirst {
    fn pass<W: Wait>(&self, _rt: &W, seat: Seat, place: Place) {
        match (seat, place) {
            (HELD, Place::Sealed) => self.hold(),
            (AWAITED, Place::Begin) => {
                self.begins.fetch_add(1, Ordering::SeqCst);
            }
            _ => {}
        }
    }
}
