//! The whole workload.
ghost use Rattle.std.specs.Prelude.{◌≡◌, ◌+◌, ◌*◌, ◌≤◌, IfOk, length};
ghost use Rattle.erm_model.specs.declared.limits.TheConstants.{SESSIONS};
ghost use Rattle.erm_make.specs.Workload.{names_of, numbered, workload};

use crate::batches::{push_batch, push_flush_after};
use crate::draws::Draws;
use crate::load::push_load;
use crate::names::names;
use erm_model::Seat;
use erm_script::{Script, ScriptLine};
use std::alloc::{AllocError, Global};

/// The most transactions, besides those of the load, that a workload has.
pub const MOST_TRANSACTIONS: u32 = 100_000;

/// Makes the script of a workload: sixteen transactions that load the keys, and then so many of so many sessions, in
/// batches of one for each session. It has no session without a line. `Err` where memory ran out.
pub fn make(alloc: Global, count: u32, sessions: Seat) -> Result<Script, AllocError>
    requires some { 1 ≤ count }
    requires most { count ≤ MOST_TRANSACTIONS }
    requires one { 1 ≤ sessions }
    requires few { sessions ≤ SESSIONS }
    ensures names { IfOk result (λ script. script.names.items ≡ names_of count sessions) }
    ensures lines { IfOk result (λ script. script.lines.items ≡ numbered 1 (workload count sessions)) }
    ensures short { IfOk result (λ script. length script.lines.items ≤ 97 + 6 * count) }
{
    let names = names(alloc, count.min(u32::from(sessions)) as Seat)?;
    let lines = lines(alloc, count, sessions)?;
    Ok(Script { names, lines })
}

// the lines of the script
fn lines(alloc: Global, count: u32, sessions: Seat) -> Result<Vec<ScriptLine>, AllocError>
    requires most { count ≤ MOST_TRANSACTIONS }
    requires one { 1 ≤ sessions }
    ensures lines { IfOk result (λ lines. lines.items ≡ numbered 1 (workload count sessions)) }
    ensures short { IfOk result (λ lines. length lines.items ≤ 97 + 6 * count) }
{
    let mut lines = Vec::new(alloc);
    push_load(&mut lines)?;
    let mut draws = Draws::new();
    let most = u32::from(sessions);
    for number in 0..count.div_ceil(most) {
        let first = number * most;
        let size = most.min(count - first) as Seat;
        push_batch(&mut lines, &mut draws, first, size)?;
        push_flush_after(&mut lines, number)?;
    }
    Ok(lines)
}
