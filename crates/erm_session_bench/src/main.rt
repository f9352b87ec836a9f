//! Runs transactions of one session on the words that threads share, to measure it: each reads two objects and writes the first of them, with a
//! flush turn, without a disk, for each hundred. The argument is how many transactions there are.
#![tactic(auto)]

mod transactions;

use anyhow::{Context, Result};
use std::env;

fn main(rt: HostRuntime) -> Result<()> {
    let words: Vec<String> = env::args(&rt)?.collect(rt.alloc())?;
    let word = words.get(1).context("how many transactions?")?;
    let count: u64 = word.parse().context("a number of transactions")?;
    let commits = transactions::run(rt.alloc(), count)?;
    println!(rt; "{count} transactions, {commits} commits")?;
    Ok(())
}
