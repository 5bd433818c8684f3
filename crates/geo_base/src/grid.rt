ghost use Rattle.geo_base.specs.Grid.{IsExponent, IsShifted, IsWholeShift, exponent_of, shift_of};
ghost use Rattle.std.specs.Prelude.{◌≡◌, ◌+◌, ◌*◌, ◌^◌, ◌<◌, ◌≤◌, pos, negsuc, neg_ℤ, ◌*ℤ◌, ◌<ℤ◌, ◌≤ℤ◌, unsigned_abs, IsTrue, ◌↔◌};

/// `n / 2^e`, rounded down, and whether `n / 2^e` is a whole number.
pub fn shift_floor(n: i128, e: i32) -> (i128, bool)
    requires low { neg_ℤ (pos 60) ≤ℤ e }
    requires high { e ≤ℤ pos 60 }
    requires size { e <ℤ pos 0 → unsigned_abs n * 2 ^ unsigned_abs e < 2 ^ 126 }
    ensures value { result.0 ≡ shift_of n e }
    ensures shifted { IsShifted n e result.0 }
    ensures whole { IsTrue result.1 ↔ IsWholeShift n e }
{
    if e < 0 {
        (n * power(e.unsigned_abs()), true)
    } else {
        let d = power(e as u32);
        (n.div_euclid(d), n.rem_euclid(d) == 0)
    }
}

/// The exponent `e` with `2^58 <= v / 2^(2 e) < 2^60`, and 0 where `v` is 0.
pub fn grid_exponent(v: i128) -> i32
    requires low { pos 0 ≤ℤ v }
    requires high { v <ℤ pos (2 ^ 100) }
    ensures value { result ≡ exponent_of v }
    ensures exponent { pos 0 <ℤ v → IsExponent v result }
    ensures least { negsuc 28 ≤ℤ result }
    ensures most { result ≤ℤ pos 20 }
    ensures zero { v ≡ pos 0 → result ≡ pos 0 }
{
    if v == 0 {
        return 0;
    }
    ((129 - v.leading_zeros()) / 2) as i32 - 30
}

// `2^k`.
fn power(k: u32) -> i128
    requires { k ≤ 60 }
    ensures { result ≡ pos (2 ^ k) }
{
    1i128 << k
}
