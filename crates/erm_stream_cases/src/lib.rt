//! Cases of streams of a log: what is put of a disk, what is read of a stream, followed and kept of it. Their words come from another
//! program. They stand apart, so that no crate is proved a second time with its tests.
#![tactic(auto)]

#[cfg(test)]
mod follow;
#[cfg(test)]
mod follow_run;
#[cfg(test)]
mod replica_rows;
#[cfg(test)]
mod replicate;
#[cfg(test)]
mod ship;
#[cfg(test)]
mod stream;
#[cfg(test)]
mod words;
