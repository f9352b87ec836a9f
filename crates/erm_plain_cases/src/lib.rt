//! Cases of worlds: calls of three sessions in turn, savepoints and snapshots that only read among them, and the limits of a transaction, of the
//! objects and of the ring, in lists and over the word table; what is cut, and cells that run out, over the word table; and flush turns and pins between
//! commits, in lists. They stand apart, so that no crate is proved a second time with its tests.
#![tactic(auto)]

#[cfg(test)]
mod calls;
#[cfg(test)]
mod fills;
#[cfg(test)]
mod flushes;
#[cfg(test)]
mod rows;
#[cfg(test)]
mod saves;
#[cfg(test)]
mod snapshots;
#[cfg(test)]
mod steps;
#[cfg(test)]
mod worlds;
