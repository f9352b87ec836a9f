//! Cases of sessions over the word table: on threads, from the opening of a disk in memory to what it recovers to; of two that are inside a call
//! at once; and of two in turn, up to the table's close. They stand apart, so that no crate is proved a second time with its tests.
#![tactic(auto)]

#[cfg(test)]
mod faults;
#[cfg(test)]
mod held;
#[cfg(test)]
mod meeting;
#[cfg(test)]
mod meets;
#[cfg(test)]
mod races;
#[cfg(test)]
mod runs;
#[cfg(test)]
mod sessions;
#[cfg(test)]
mod turns;
