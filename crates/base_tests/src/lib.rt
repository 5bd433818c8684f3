//! Tests of the lowest layer: whole numbers, decimals, lent parts, coefficients, records of tables,
//! shelves and sinks. They stand in a crate of their own, since a crate with tests is proved twice.
#![tactic(auto)]

#[cfg(test)]
mod coefficients;
#[cfg(test)]
mod decimals;
#[cfg(test)]
mod records;
#[cfg(test)]
mod rows_and_lines;
#[cfg(test)]
mod shelves;
#[cfg(test)]
mod whole_numbers;
