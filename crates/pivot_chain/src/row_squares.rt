//! The squares that a room keeps for rows.
ghost use Rattle.std.specs.Prelude.{◌≡◌, ◌≤◌, pos, ◌*ℤ◌, Some, length, slice_get, IfOk};
ghost use Rattle.geo_model.specs.Values.{row_square};
ghost use Rattle.pivot_chain.specs.Room.{HasEachLength};

use geo_base::NoMemory;
use geo_model::{Row, Square};
use std::alloc::Global;

// A row has at most six entries.
const LENGTHS: usize = 7;

// A redundancy of 1, in thousandths.
const WHOLE: i128 = 1000;

// A square for each number of entries that a row may have.
pub(crate) fn squares_by_length(alloc: Global) -> Result<Vec<Square>, NoMemory>
    ensures { IfOk result (λ squares. HasEachLength 7 squares.items) }
{
    let mut squares = Vec::new(alloc);
    'lengths: for count in 0..LENGTHS {
        let entries = vec![in alloc; (0u32, 0i64); count]?;
        squares.push(Square { beta: 1, entries })?;
    }
    Ok(squares)
}

// The weight of the square of a row.
fn row_factor(row: &Row) -> i128
    ensures { result ≡ pos 1000 *ℤ row.now.weight }
{
    WHOLE * row.weight() as i128
}

// Writes entries over those of a square, which are as many, and another weight.
fn write_square(square: &mut Square, beta: i128, entries: &[(u32, i64)])
    requires { length square.old.entries ≡ length entries.now }
    ensures beta { square.new.beta ≡ beta }
    ensures entries { square.new.entries ≡ entries.now }
{
    square.beta = beta;
    square.entries.as_mut_slice().copy_from_slice(entries);
}

// Makes the square of as many entries as a row has that of the row: 1000 times its weight. It takes no
// memory.
pub(crate) fn write_row(squares: &mut [Square], row: &Row)
    requires kept { HasEachLength 7 squares.old }
    requires short { length row.now.entries ≤ 6 }
    ensures kept { HasEachLength 7 squares.new }
    ensures square { slice_get squares.new (length row.now.entries) ≡ Some (row_square row.now) }
{
    let beta = row_factor(row);
    let entries = row.entries();
    write_square(&mut squares[entries.len()], beta, entries);
}
