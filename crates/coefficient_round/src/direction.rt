ghost use Rattle.coefficient_round.specs.Coefficient.{direction_coefficient, radian, coefficient_scale, square_length};
ghost use Rattle.geo_base.specs.Division.{IsNearest};
ghost use Rattle.std.specs.Prelude.{◌≡◌, ◌*◌, ◌^◌, ◌≤◌, ◌⊎◌, ◌*ℤ◌, pos, unsigned_abs};

use crate::line::length_squared;
use crate::units::{RADIAN, SCALE};
use geo_base::nearest;

/// The coefficient of a direction for one part of its line, which is from 10 m to 100 km long:
/// 636620 cc (a radian) times 10000 times `part` over the square of the length, rounded to the
/// nearest, a tie away from zero. So it is 10000 times the change of the bearing in cc by a
/// millimetre of displacement, up to the sign. The parts of the line are in millimetres. It is the
/// derivative of the bearing equation of plane networks; the units and the rounding are this
/// project's own.
pub fn dir_coef(part: i64, dx: i64, dy: i64) -> i64
    requires of_line { (part ≡ dx) ⊎ (part ≡ dy) }
    requires least { 10 ^ 8 ≤ square_length dx dy }
    requires most { square_length dx dy ≤ 10 ^ 16 }
    ensures value { result ≡ direction_coefficient part dx dy }
    ensures nearest { IsNearest (pos (radian * coefficient_scale) *ℤ part) (pos (square_length dx dy)) result }
    ensures size { unsigned_abs result ≤ radian }
{
    let change = RADIAN * SCALE as i128 * i128::from(part);
    nearest(change, length_squared(dx, dy) as i128) as i64
}
