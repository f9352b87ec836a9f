//! Cases of the words written to a disk, and of the flusher over the world in lists: blocks that cross a segment's end, and each
//! call of the disk failing. They stand apart, so that no crate is proved a second time with its tests.
#![tactic(auto)]

#[cfg(test)]
mod turns;
#[cfg(test)]
mod words;
