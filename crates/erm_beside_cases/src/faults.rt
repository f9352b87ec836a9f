//! A fault of the disk that one session meets, while another waits for that session alone.
ghost use Rattle.std.specs.Prelude.{◌≡◌, IfOk, map, vec_len};
ghost use Rattle.erm_run_beside.specs.Jobs.{AreLines};

use crate::meeting::Meeting;
use crate::runs::{are_first, checked, line, put, ran};
use erm_model::Seat;
use erm_outside::{Gate, Place};
use erm_run_beside::SessionWork;
use erm_script::{Command, ScriptLine};
use std::alloc::{AllocError, Global};
use std::sync::Wait;
use std::sync::atomic::{AtomicU64, Ordering};
use std::test::Fail;

// The call that first writes a block of the sessions: with 13 calls the log of an empty disk is opened.
const FIRST_WRITE: u64 = 14;

// A gate at which the second session's begin and the end of the first one's second seal wait for each other.
#[derive(Drop)]
struct BehindSeal {
    meeting: Meeting,
    // How many transactions the first session has sealed.
    sealed: AtomicU64,
}

impl BehindSeal {
    // A gate that no session has passed.
    fn new() -> BehindSeal {
        BehindSeal {
            meeting: Meeting::new(),
            sealed: AtomicU64::new(0),
        }
    }

    // Counts a seal of the first session. Behind the second one it waits.
    fn count_seal(&self) {
        if self.sealed.fetch_add(1, Ordering::SeqCst) == 1 {
            self.meeting.come();
        }
    }
}

impl Gate for BehindSeal {
    fn pass<W: Wait>(&self, _rt: &W, seat: Seat, place: Place) {
        match (seat, place) {
            (1, Place::Sealed) => self.count_seal(),
            (2, Place::Begin) => self.meeting.come(),
            _ => {}
        }
    }
}

// The lines of the first session: it commits, seals another transaction, and waits until its commit is on the disk.
fn first(alloc: Global) -> Result<Vec<ScriptLine>, AllocError> {
    let lines = vec![in alloc;
        line(1, Command::Begin),
        line(1, put(1)),
        line(1, Command::Commit),
        line(1, Command::Begin),
        line(1, put(0)),
        line(1, Command::Seal),
        line(1, Command::Durable),
    ]?;
    Ok(lines)
}

// The lines of the second: it reads what the first one's sealed transaction has written, so it waits until that is decided.
fn second(alloc: Global) -> Result<Vec<ScriptLine>, AllocError> {
    let lines = vec![in alloc;
        line(2, Command::Begin),
        line(2, Command::Get { table: 0, key: 10 }),
    ]?;
    Ok(lines)
}

// The lines of both.
fn parts(alloc: Global) -> Result<Vec<Vec<ScriptLine>>, Fail>
    ensures many { IfOk result (λ parts. vec_len parts ≡ 2) }
    ensures lines { IfOk result (λ parts. AreLines (map (λ p. p.items) parts.items)) }
{
    let first = first(alloc)?;
    let second = second(alloc)?;
    checked(vec![in alloc; first, second]?)
}

// Whether a session was answered just so, and then told to halt.
fn was_cut(work: &SessionWork, letters: &[u8]) -> bool {
    work.answers.len() == letters.len()
        && are_first(&work.answers, letters)
        && work.closed.is_none()
        && !work.lacked
}

// Whether both were: the first waits for the disk, and the second for the first.
fn were_cut(works: &[SessionWork]) -> bool {
    works.len() == 2 && was_cut(&works[0], b"bdcbds") && was_cut(&works[1], b"b")
}

// The disk fails in a turn that the first session takes, which halts. The second asks nothing of the disk, and what it waits for is decided by
// nobody any more: it would wait for ever, if it weren't told.
#[test]
fn a_fault_reaches_a_session_that_waits(rt: HostRuntime) -> Result<(), Fail> {
    let gate = BehindSeal::new();
    let (_, ran) = ran(&rt, rt.alloc(), FIRST_WRITE, &gate, parts(rt.alloc())?)?;
    assert!(rt;
        !gate.meeting.has_expired(),
        "the second began behind the seal"
    );
    assert!(rt; ran.failed, "a call of the disk failed");
    assert!(rt; were_cut(&ran.sessions), "both were told to halt");
    Ok(())
}
