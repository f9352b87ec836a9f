//! Cases of two clients side by side over empty tables, of which each makes its calls between those of the other, and of two tellers. And two withdrawals
//! that are played on the engine, and on snapshots without exclusion. They stand apart, so that no crate is proved a second time with its tests.
#![tactic(auto)]

#[cfg(test)]
mod audits;
#[cfg(test)]
mod calls;
#[cfg(test)]
mod clients;
#[cfg(test)]
mod planted;
#[cfg(test)]
mod skew;
#[cfg(test)]
mod tellers;
#[cfg(test)]
mod tests;
