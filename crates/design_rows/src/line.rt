//! The line between two points, and the coefficients that its parts give.
ghost use Rattle.std.specs.Prelude.{◌≡◌, ◌<◌, ◌≤◌, ◌^◌, length, unsigned_abs};
ghost use Rattle.candidate_tables.specs.Lines.{length_squared};
ghost use Rattle.coefficient_round.specs.Coefficient.{radian, coefficient_scale};
ghost use Rattle.design_rows.specs.Equations.{cosine, p_coefficient, q_coefficient, sine, x_part, y_part};

use coefficient_round::{dir_coef, dist_coef};
use point_tables::Points;

// A number for each of the two parts of a line, along x and along y.
#[derive(Clone, Copy)]
pub(crate) struct LineParts {
    pub(crate) x: i64,
    pub(crate) y: i64,
}

// The parts of the line between two points, in millimetres.
fn line_between(points: &Points, from: u32, to: u32) -> LineParts
    requires from { from < length points.now }
    requires to { to < length points.now }
    ensures x { result.x ≡ x_part points.now from to }
    ensures y { result.y ≡ y_part points.now from to }
    ensures x_size { unsigned_abs result.x < 2 ^ 62 }
    ensures y_size { unsigned_abs result.y < 2 ^ 62 }
{
    LineParts {
        x: points.x(to) - points.x(from),
        y: points.y(to) - points.y(from),
    }
}

// 10000 times the cosine and the sine of the bearing.
pub(crate) fn distance_parts(points: &Points, from: u32, to: u32) -> LineParts
    requires from { from < length points.now }
    requires to { to < length points.now }
    requires least { 10 ^ 6 ≤ length_squared points.now from to }
    requires most { length_squared points.now from to ≤ 10 ^ 16 }
    ensures x { result.x ≡ cosine points.now from to }
    ensures y { result.y ≡ sine points.now from to }
    ensures x_size { unsigned_abs result.x ≤ coefficient_scale }
    ensures y_size { unsigned_abs result.y ≤ coefficient_scale }
{
    let line = line_between(points, from, to);
    LineParts {
        x: dist_coef(line.x, line.x, line.y),
        y: dist_coef(line.y, line.x, line.y),
    }
}

// 10000 times the change of the bearing in cc by a millimetre: that by y, from the part along x,
// and that by x, from the part along y.
pub(crate) fn direction_parts(points: &Points, from: u32, to: u32) -> LineParts
    requires from { from < length points.now }
    requires to { to < length points.now }
    requires least { 10 ^ 8 ≤ length_squared points.now from to }
    requires most { length_squared points.now from to ≤ 10 ^ 16 }
    ensures x { result.x ≡ q_coefficient points.now from to }
    ensures y { result.y ≡ p_coefficient points.now from to }
    ensures x_size { unsigned_abs result.x ≤ radian }
    ensures y_size { unsigned_abs result.y ≤ radian }
{
    let line = line_between(points, from, to);
    LineParts {
        x: dir_coef(line.x, line.x, line.y),
        y: dir_coef(line.y, line.x, line.y),
    }
}
