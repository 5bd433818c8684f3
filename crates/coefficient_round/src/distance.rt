ghost use Rattle.coefficient_round.specs.Coefficient.{IsDistanceCoefficient, distance_coefficient, greatest_reached, coefficient_scale, square, square_length};
ghost use Rattle.std.specs.Prelude.{◌≡◌, ◌+◌, ◌-◌, ◌*◌, ◌^◌, ◌<◌, ◌≤◌, ◌⊎◌, unsigned_abs};

use crate::line::length_squared;
use crate::units::SCALE;
use geo_base::root_floor;

/// The coefficient of a distance for one part of its line, which is from 1 m to 100 km long: 10000
/// times `part` over the length, rounded to the nearest; no tie can occur. So it is 10000 times the
/// cosine or the sine of the bearing, from -10000 to 10000. The parts of the line are in
/// millimetres. It is the derivative of the distance equation of plane networks; the unit and the
/// rounding are this project's own.
pub fn dist_coef(part: i64, dx: i64, dy: i64) -> i64
    requires of_line { (part ≡ dx) ⊎ (part ≡ dy) }
    requires least { 10 ^ 6 ≤ square_length dx dy }
    requires most { square_length dx dy ≤ 10 ^ 16 }
    ensures value { result ≡ distance_coefficient part dx dy }
    ensures rounded { IsDistanceCoefficient part (square_length dx dy) result }
    ensures size { unsigned_abs result ≤ coefficient_scale }
{
    let size = coefficient_size(u128::from(part.unsigned_abs()), length_squared(dx, dy));
    if part < 0 {
        0 - size as i64
    } else {
        size as i64
    }
}

// The size of the coefficient, for a part that is not longer than its line.
fn coefficient_size(part: u128, length_squared: u128) -> u64
    requires some { 0 < length_squared }
    requires most { length_squared ≤ 10 ^ 16 }
    requires within { square part ≤ length_squared }
    ensures value { result ≡ greatest_reached part length_squared coefficient_scale }
    ensures reached { 0 < result → square (2 * result - 1) * length_squared ≤ 4 * square coefficient_scale * square part }
    ensures next_above { 4 * square coefficient_scale * square part < square (2 * result + 1) * length_squared }
    ensures size { result ≤ coefficient_scale }
{
    let ratio_squared = 4 * SCALE * SCALE * (part * part) / length_squared;
    (root_floor(ratio_squared) + 1) / 2
}
