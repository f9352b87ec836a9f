//! Ten sessions on threads, on a disk that does what it is asked, and on one of which a call fails.
ghost use Rattle.std.specs.Prelude.{◌≡◌, IfOk, map, vec_len};
ghost use Rattle.erm_run_beside.specs.Jobs.{AreLines};

use crate::runs::{are_first, checked, has_put, left, line, put, ran};
use erm_model::Seat;
use erm_outside_mem::{MemDisk, OpenGate, Silent};
use erm_run_beside::SessionWork;
use erm_script::{Command, ScriptLine};
use std::alloc::Global;
use std::test::Fail;

const SESSIONS: Seat = 10;

// How many lines each session has.
const LINES: usize = 8;

// So many calls of an empty disk open its log.
const OPENING: u64 = 13;

// A case: the call of the disk that fails, and whether one that the sessions' blocks need is among them. The first turn that finds a
// block writes it, and then waits for it.
const CASES: [(u64, bool); 3] = [(0, false), (OPENING + 1, true), (OPENING + 2, true)];

// A session's lines: it sets a key of a table of its own, and waits until that lasts; then it sets and reads one that all set.
fn part(alloc: Global, seat: Seat) -> Result<Vec<ScriptLine>, Fail> {
    let lines = vec![in alloc;
        line(seat, Command::Begin),
        line(seat, put(seat)),
        line(seat, Command::Commit),
        line(seat, Command::Durable),
        line(seat, Command::Begin),
        line(seat, put(0)),
        line(seat, Command::Get { table: 0, key: 10 }),
        line(seat, Command::Commit),
    ]?;
    Ok(lines)
}

// The lines of all sessions.
fn parts(alloc: Global) -> Result<Vec<Vec<ScriptLine>>, Fail>
    ensures many { IfOk result (λ parts. vec_len parts ≡ SESSIONS) }
    ensures lines { IfOk result (λ parts. AreLines (map (λ p. p.items) parts.items)) }
{
    let mut parts = Vec::new(alloc);
    for seat in 0..SESSIONS {
        let lines = part(alloc, seat + 1)?;
        parts.push(lines)?;
    }
    checked(parts)
}

// Whether a session did its lines: all of them, or those up to the one that the disk's failure cut, which waits for the disk.
fn is_as(work: &SessionWork, failed: bool) -> bool {
    let answers = work.answers.as_slice();
    let is_cut_so = if failed {
        answers.len() <= 3
    } else {
        answers.len() == LINES
    };
    !work.lacked && work.closed.is_none() && is_cut_so && are_first(answers, b"bdclb")
}

// Whether each session did.
fn are_as(works: &[SessionWork], failed: bool) -> bool {
    for work in works {
        if !is_as(work, failed) {
            return false;
        }
    }
    works.len() == SESSIONS as usize
}

// How many of the sessions' own keys have a value in the map that a disk recovers to.
fn count_own(alloc: Global, disk: &Silent<MemDisk>) -> Result<u32, Fail> {
    let map = left(alloc, disk)?;
    let mut count: u32 = 0;
    for table in 1..11u8 {
        if has_put(&map, table) {
            count = count.saturating_add(1);
        }
    }
    Ok(count)
}

// Each session's own key lasts, and is on the disk after a crash, unless the disk failed; and then all are told to halt.
#[test]
fn ten_sessions_run(rt: HostRuntime) -> Result<(), Fail> {
    let alloc = rt.alloc();
    for (fails, failed) in CASES {
        let (disk, ran) = ran(&rt, alloc, fails, &OpenGate, parts(alloc)?)?;
        assert!(rt;
            ran.failed == failed && are_as(&ran.sessions, failed),
            "{fails}"
        );
        let own = count_own(alloc, &disk)?;
        assert!(rt; own == if failed { 0 } else { 10 }, "{fails}: {own}");
    }
    Ok(())
}
