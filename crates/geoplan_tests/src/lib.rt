//! Whole runs of the top call over shelves and sinks in memory, and of the system, and the listings
//! of the report. What they are to answer comes from worked examples and from another program. They
//! stand in a crate of their own, since a crate with tests is proved twice.
#![tactic(auto)]

#[cfg(test)]
mod adapters;
#[cfg(test)]
mod branching;
#[cfg(test)]
mod candidates;
#[cfg(test)]
mod check;
#[cfg(test)]
mod counts;
#[cfg(test)]
mod failures;
#[cfg(test)]
mod files;
#[cfg(test)]
mod fixtures;
#[cfg(test)]
mod generated;
#[cfg(test)]
mod largest;
#[cfg(test)]
mod log_parts;
#[cfg(test)]
mod migrate;
#[cfg(test)]
mod plan;
#[cfg(test)]
mod points;
#[cfg(test)]
mod rows;
#[cfg(test)]
mod scripts;
#[cfg(test)]
mod stations;
#[cfg(test)]
mod wide_lines;
#[cfg(test)]
mod words;
