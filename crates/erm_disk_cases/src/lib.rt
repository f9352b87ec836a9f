//! Cases of files and folders, of slots, and of logs that are read back, opened and told, whose words come from another program; and of
//! checkpoints and runs on a disk in memory. They stand
//! apart, so that no crate is proved a second time with its tests.
#![tactic(auto)]

#[cfg(test)]
mod checkpoint;
#[cfg(test)]
mod checkpoints;
#[cfg(test)]
mod ckpt;
#[cfg(test)]
mod inspect;
#[cfg(test)]
mod outside_real;
#[cfg(test)]
mod recover;
#[cfg(test)]
mod runs;
#[cfg(test)]
mod told;
#[cfg(test)]
mod worlds;
