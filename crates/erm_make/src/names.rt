//! The names of sessions.
ghost use Rattle.std.specs.Prelude.{◌≡◌, ◌≤◌, IfOk};
ghost use Rattle.erm_model.specs.declared.limits.TheConstants.{SESSIONS};
ghost use Rattle.erm_make.specs.Workload.{first_names, session_name};

use erm_model::{Name, Seat};
use itoa::Buffer;
use std::alloc::{AllocError, Global};

/// The names of the first sessions.
pub fn names(alloc: Global, sessions: Seat) -> Result<Vec<Name>, AllocError>
    requires { sessions ≤ SESSIONS }
    ensures { IfOk result (λ names. names.items ≡ first_names sessions) }
{
    let mut names = Vec::with_capacity(alloc, sessions as usize)?;
    for place in 0..sessions {
        names.push(name(alloc, place + 1)?)?;
    }
    Ok(names)
}

// the name of a session
fn name(alloc: Global, seat: Seat) -> Result<Name, AllocError>
    requires { seat ≤ SESSIONS }
    ensures { IfOk result (λ name. name ≡ session_name seat) }
{
    let mut buffer = Buffer::new();
    let mut bytes = Vec::new(alloc);
    bytes.push(b's')?;
    bytes.extend_from_slice(buffer.format(seat).as_bytes())?;
    Ok(Name::new(&bytes).unwrap())
}
