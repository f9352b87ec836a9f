//! The text of a workload, given to a run: what it tells over the word table is what it tells over the world in lists, byte by byte.
ghost use Rattle.std.specs.Prelude.{◌≡◌, ◌≤◌, length};
ghost use Rattle.erm_model.specs.declared.limits.TheConstants.{SESSIONS};
ghost use Rattle.erm_disk_cases.specs.declared.worlds.TheConstants.{MOST_BYTES};

use crate::told::{empty, text_of};
use erm_disk_run::{run_in_lists, run_on_disk};
use erm_make::{make, text_but_flushes};
use erm_model::SESSIONS;
use erm_script::{Grammar, parse};
use std::alloc::{AllocError, Global};
use std::process::Abort;
use std::test::Fail;

/// The most bytes of a text.
const MOST_BYTES: usize = 100_000;

// Which scripts the command `run` takes.
fn run_grammar() -> Grammar
    ensures { result.sessions ≡ SESSIONS }
{
    Grammar {
        sessions: SESSIONS,
        index: true,
        log: true,
        checkpoints: true,
        threads: false,
    }
}

// Whether these bytes are a script that is run to its end over both worlds, each on an empty disk, and tells the same.
fn is_told_alike(alloc: Global, bytes: &[u8]) -> Result<bool, AllocError>
    requires { length bytes.now ≤ MOST_BYTES }
{
    let Ok(script) = parse(alloc, bytes, run_grammar()) else {
        return Ok(false);
    };
    let over_words = run_on_disk(alloc, empty(alloc), &script.names, &script.lines);
    let in_lists = run_in_lists(alloc, empty(alloc), &script.names, &script.lines);
    match (over_words.ended, in_lists.ended) {
        (Ok(one), Ok(other)) => {
            Ok(text_of(alloc, &one)?.as_slice() == text_of(alloc, &other)?.as_slice())
        }
        _ => Ok(false),
    }
}

#[test]
fn a_workload_is_told_alike(rt: HostRuntime) -> Result<(), Fail> {
    let alloc = rt.alloc();
    let text = text_but_flushes(alloc, &make(alloc, 200, 4)?)?;
    assert!(rt; text.len() <= MOST_BYTES);
    assert!(rt; is_told_alike(alloc, &text)?);
    Ok(())
}
