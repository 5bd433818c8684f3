ghost use Rattle.geo_base.specs.Division.{IsCeiling, IsFloor, IsNearest, ceil_of, floor_of, nearest_of};
ghost use Rattle.std.specs.Prelude.{◌≡◌, ◌+◌, ◌*◌, ◌^◌, ◌<◌, ◌≤◌, pos, neg_ℤ, ◌*ℤ◌, ◌<ℤ◌, ◌≤ℤ◌, unsigned_abs};

/// `n / d`, rounded down.
pub fn floor_div(n: i128, d: i128) -> i128
    requires positive { pos 0 <ℤ d }
    requires not_least { unsigned_abs n < 2 ^ 127 }
    ensures value { result ≡ floor_of n d }
    ensures floor { IsFloor n d result }
    ensures size { unsigned_abs result ≤ unsigned_abs n }
{
    n.div_euclid(d)
}

/// `n / d`, rounded up.
pub fn ceil_div(n: i128, d: i128) -> i128
    requires positive { pos 0 <ℤ d }
    requires not_least { unsigned_abs n < 2 ^ 127 }
    ensures value { result ≡ ceil_of n d }
    ensures ceiling { IsCeiling n d result }
    ensures size { unsigned_abs result ≤ unsigned_abs n }
{
    minus(floor_div(minus(n), d))
}

/// The whole number nearest to `n / d`. A tie goes away from zero.
pub fn nearest(n: i128, d: i128) -> i128
    requires positive { pos 0 <ℤ d }
    requires divisor_size { d ≤ℤ pos (2 ^ 125) }
    requires size { unsigned_abs n ≤ 2 ^ 125 }
    ensures value { result ≡ nearest_of n d }
    ensures nearest { IsNearest n d result }
{
    if n < 0 {
        ceil_div(2 * n - d, 2 * d)
    } else {
        floor_div(2 * n + d, 2 * d)
    }
}

// `-z`.
fn minus(z: i128) -> i128
    requires { unsigned_abs z < 2 ^ 127 }
    ensures { result ≡ neg_ℤ z }
{
    0 - z
}
