//! Tests of the tables and of the networks that are built from them. They stand in a crate of their
//! own, since a crate with tests is proved twice.
#![tactic(auto)]

#[cfg(test)]
mod candidates;
#[cfg(test)]
mod networks;
#[cfg(test)]
mod points;
#[cfg(test)]
mod rows;
#[cfg(test)]
mod stations;
