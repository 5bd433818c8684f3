ghost use Rattle.coefficient_round.specs.Coefficient.{square, weight_for};
ghost use Rattle.geo_base.specs.Division.{IsNearest};
ghost use Rattle.std.specs.Prelude.{◌≡◌, ◌^◌, ◌≤◌, ◌≤ℤ◌, pos};

use geo_base::nearest;

/// The weight of an observation with a standard deviation of `u` hundredths of a millimetre
/// or cc, from 0.10 to 100.00 of them: 10^8 over the square of `u`, rounded to the nearest; no tie
/// can occur. So a deviation of 1.00 has the weight 10000. Weights as inverse squares of deviations
/// are those of any textbook of adjustment; the scale and the rounding are this project's own.
pub fn weight_of(u: u32) -> i64
    requires least { 10 ≤ u }
    requires most { u ≤ 10000 }
    ensures value { result ≡ weight_for u }
    ensures nearest { IsNearest (pos (10 ^ 8)) (pos (square u)) result }
    ensures least { pos 1 ≤ℤ result }
    ensures most { result ≤ℤ pos 1000000 }
{
    nearest(100_000_000, i128::from(u) * i128::from(u)) as i64
}
