//! Tests of plans and of the limits that they meet, from networks to verdicts, stacks of factors and
//! displacements. They stand in a crate of their own, since a crate with tests is proved twice.
#![tactic(auto)]

#[cfg(test)]
mod certificates;
#[cfg(test)]
mod grids;
#[cfg(test)]
mod moves;
#[cfg(test)]
mod plans;
#[cfg(test)]
mod stacks;
#[cfg(test)]
mod verdicts;
