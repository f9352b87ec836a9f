//! Walks through the orders of steps of the core machine. The input is a walk, a line for each step; the output is the same lines,
//! each with what the machine answers. A line that begins with '#' says what follows.
#![tactic(auto)]

mod kinds;
mod line;
mod numbers;
mod opening;
mod told;

use anyhow::Result;
use line::walk;
use opening::open;

fn main(rt: HostRuntime) -> Result<()> {
    let mut state = open(rt.alloc(), &[0; 6])?;
    for line in rt.lines(rt.alloc()) {
        let line = line?;
        let told = walk(rt.alloc(), &mut state, line.as_str())?;
        println!(rt; "{line}{told}")?;
    }
    Ok(())
}
