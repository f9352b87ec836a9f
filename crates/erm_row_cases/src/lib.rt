//! Cases of the database map, transactions with savepoints, rows of records, log blocks and nodes, whose expected values come
//! from outside: what no clause says. They stand apart, so that no crate is proved a second time with its tests.
#![tactic(auto)]

#[cfg(test)]
mod block;
#[cfg(test)]
mod model;
#[cfg(test)]
mod node;
#[cfg(test)]
mod record;
#[cfg(test)]
mod saves;
