//! Cases of the calls on words that threads share: single steps, side by side and one after the other. They stand apart, so
//! that no crate is proved a second time with its tests.
#![tactic(auto)]

#[cfg(test)]
mod entries;
#[cfg(test)]
mod precommit;
#[cfg(test)]
mod readers;
#[cfg(test)]
mod seats;
#[cfg(test)]
mod skew;
