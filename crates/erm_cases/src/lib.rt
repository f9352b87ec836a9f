//! Cases of the crates below, whose expected values come from outside: what no clause says. They stand apart, so that no
//! crate is proved a second time with its tests.
#![tactic(auto)]

#[cfg(test)]
mod audit;
#[cfg(test)]
mod bytes;
#[cfg(test)]
mod command_line;
#[cfg(test)]
mod histories;
#[cfg(test)]
mod layout;
#[cfg(test)]
mod lines;
#[cfg(test)]
mod made;
#[cfg(test)]
mod make;
#[cfg(test)]
mod outside;
#[cfg(test)]
mod phantom;
#[cfg(test)]
mod report;
#[cfg(test)]
mod script;
#[cfg(test)]
mod segment;
#[cfg(test)]
mod summary;
