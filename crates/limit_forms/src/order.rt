//! The order of the unknowns.
ghost use Rattle.std.specs.Prelude.{◌≡◌, ◌+◌, ◌<◌, ◌≤◌, length, take, ◌++◌};
ghost use Rattle.std.specs.List.{filter, range_with_len};
ghost use Rattle.limit_forms.specs.Grid.{has_column, occurs, order_of, is_in_part};

use geo_model::Square;

// Whether a linear form has an entry in a column.
fn names_column(entries: &[(u32, i64)], column: u32) -> bool
    ensures { result ≡ has_column entries.now column }
{
    entries.iter().any(|entry| entry.0 == column)
}

// Whether an unknown occurs in the squares.
fn is_loaded(squares: &[Square], unknown: u32) -> bool
    ensures { result ≡ occurs squares.now unknown }
{
    for square in squares {
        if names_column(square.entries.as_slice(), unknown) {
            return true;
        }
    }
    false
}

/// The unknowns that occur in the squares of a limit, or the others.
#[derive(Clone, Copy, Debug, PartialEq, Eq)]
pub enum OrderPart {
    Loaded,
    Rest,
}

// Whether an unknown is in a part.
fn is_in_part(squares: &[Square], part: OrderPart, unknown: u32) -> bool
    ensures { result ≡ is_in_part squares.now part unknown }
{
    let loaded = is_loaded(squares, unknown);
    match part {
        OrderPart::Loaded => loaded,
        OrderPart::Rest => !loaded,
    }
}

// Writes the unknowns of a part from place `from` on, and answers the place after them.
fn fill(order: &mut [u32], squares: &[Square], from: usize, part: OrderPart) -> usize
    requires few { length order.old ≤ 64 }
    requires room { from + length (filter (is_in_part squares.now part) (range_with_len 0 (length order.old))) ≤ length order.old }
    ensures next { result ≡ from + length (filter (is_in_part squares.now part) (range_with_len 0 (length order.old))) }
    ensures written { take result order.new ≡ take from order.old ++ filter (is_in_part squares.now part) (range_with_len 0 (length order.old)) }
{
    let mut next = from;
    for unknown in 0..order.len() {
        if is_in_part(squares, part, unknown as u32) {
            order[next] = unknown as u32;
            next += 1;
        }
    }
    next
}

/// Writes the unknowns in their order: those that occur in the squares, then the rest.
pub fn take_order(order: &mut [u32], squares: &[Square])
    requires { length order.old ≤ 64 }
    ensures { order.new ≡ order_of (length order.old) squares.now }
{
    let filled = fill(order, squares, 0, OrderPart::Loaded);
    let _all = fill(order, squares, filled, OrderPart::Rest);
}
