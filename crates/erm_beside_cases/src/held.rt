//! A session that is held between the seal and the settling of its transaction, while another goes on.
ghost use Rattle.std.specs.Prelude.{◌≡◌, IfOk, map, vec_len};
ghost use Rattle.erm_run_beside.specs.Jobs.{AreLines};

use crate::runs::{checked, has_put, left, line, put, ran};
use erm_outside_mem::HoldFirst;
use erm_script::{Command, ScriptLine};
use std::alloc::{AllocError, Global};
use std::test::Fail;

// The lines of the first session.
fn first(alloc: Global) -> Result<Vec<ScriptLine>, AllocError> {
    let lines = vec![in alloc;
        line(1, Command::Begin),
        line(1, put(0)),
        line(1, Command::Commit),
    ]?;
    Ok(lines)
}

// The lines of the second.
fn second(alloc: Global) -> Result<Vec<ScriptLine>, AllocError> {
    let lines = vec![in alloc;
        line(2, Command::Begin),
        line(2, put(1)),
        line(2, Command::Commit),
        line(2, Command::Begin),
        line(2, Command::Commit),
    ]?;
    Ok(lines)
}

// The lines of both.
fn parts(alloc: Global) -> Result<Vec<Vec<ScriptLine>>, Fail>
    ensures many { IfOk result (λ parts. vec_len parts ≡ 2) }
    ensures lines { IfOk result (λ parts. AreLines (map (λ p. p.items) parts.items)) }
{
    let first = first(alloc)?;
    let second = second(alloc)?;
    checked(vec![in alloc; first, second]?)
}

// The second session commits and begins again while the first is held: a lock round a transaction, or round a line, would keep it out.
#[test]
fn another_session_goes_on_beside_one_that_is_held(rt: HostRuntime) -> Result<(), Fail> {
    let gate = HoldFirst::new();
    let (disk, ran) = ran(&rt, rt.alloc(), 0, &gate, parts(rt.alloc())?)?;
    assert!(rt; !gate.has_expired(), "the other session began again");
    assert!(rt; !ran.failed, "the disk did what it was asked");
    let map = left(rt.alloc(), &disk)?;
    assert!(rt; has_put(&map, 0), "the first session's commit lasts");
    assert!(rt; has_put(&map, 1), "so does the second one's");
    Ok(())
}
