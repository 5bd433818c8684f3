//! The entries of a row from the terms of its equation.
ghost use Rattle.std.specs.Prelude.{◌≡◌, ◌++◌, [], ◌∷◌, ◌≤◌, ◌<◌, ◌^◌, length, if◌then◌else◌, IfOk, OnOk};
ghost use Rattle.candidate_tables.specs.Accepted.{IsBetween};
ghost use Rattle.design_rows.specs.Bounds.{AreTerms, total_of};
ghost use Rattle.design_rows.specs.Equations.{observed};
ghost use Rattle.design_rows.specs.Rows.{coefficient_at, entries_of, is_entry, row_of};

use crate::columns::{Columns, is_same};
use crate::term::Term;
use coefficient_round::weight_of;
use geo_base::NoMemory;
use geo_model::{Row, Unknown};
use std::alloc::Global;

// The coefficient of an unknown.
fn coefficient_at(terms: &[Term], wanted: Unknown) -> i64
    requires { total_of terms.now < 2 ^ 23 }
    ensures { result ≡ coefficient_at terms.now wanted }
{
    let mut sum = 0;
    for &term in terms {
        if is_same(wanted, term.unknown) {
            sum += term.coefficient;
        }
    }
    sum
}

// Adds an entry where it is not 0.
fn push_entry(entries: &mut Vec<(u32, i64)>, column: u32, size: i64) -> Result<(), NoMemory>
    ensures { OnOk result (entries.new.items ≡ entries.old.items ++ (if is_entry (column, size) then (column, size) ∷ [] else [])) }
{
    if size != 0 {
        entries.push((column, size))?;
    }
    Ok(())
}

// The entries of a row: the coefficient of each unknown at its number, without those that are 0.
fn entries_of(
    alloc: Global,
    unknowns: &[Unknown],
    terms: &[Term],
) -> Result<Vec<(u32, i64)>, NoMemory>
    requires few { length unknowns.now ≤ 4000 }
    requires total { total_of terms.now < 2 ^ 23 }
    ensures { IfOk result (λ entries. entries.items ≡ entries_of unknowns.now terms.now) }
{
    let mut entries = Vec::new(alloc);
    for (column, unknown) in unknowns.iter().enumerate() {
        let size = coefficient_at(terms, *unknown);
        push_entry(&mut entries, column as u32, size)?;
    }
    Ok(entries)
}

// The row of an equation of these terms that is observed with this standard deviation in
// hundredths.
pub(crate) fn row_of(
    alloc: Global,
    columns: &Columns,
    terms: &[Term],
    deviation: u32,
) -> Result<Row, NoMemory>
    requires terms { AreTerms terms.now }
    requires deviation { IsBetween deviation }
    ensures { IfOk result (λ row. row ≡ row_of columns.now (observed terms.now deviation)) }
{
    let entries = entries_of(alloc, columns.unknowns(), terms)?;
    Ok(Row::new(entries, weight_of(deviation)))
}
