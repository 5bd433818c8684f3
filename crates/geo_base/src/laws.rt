//! Laws of rounded numbers. Each function is its contract: it does nothing.
ghost use Rattle.geo_base.specs.Division.{IsCeiling, IsFloor, IsNearest, ceil_of, floor_of, nearest_of};
ghost use Rattle.geo_base.specs.Grid.{IsExponent, IsShifted, exponent_of, shift_of};
ghost use Rattle.geo_base.specs.Root.{IsRoot};
ghost use Rattle.std.specs.Prelude.{◌≡◌, ℕ, ℤ, ◌^◌, ◌<ℤ◌, pos, ◌↔◌};

/// The quotients rounded down, up and to the nearest are the only numbers that meet their
/// inequalities, for a divisor above 0.
pub fn rounded_quotients_are_unique()
    ensures floor { (n d q : ℤ) → pos 0 <ℤ d → IsFloor n d q ↔ (q ≡ floor_of n d) }
    ensures ceiling { (n d q : ℤ) → pos 0 <ℤ d → IsCeiling n d q ↔ (q ≡ ceil_of n d) }
    ensures nearest { (n d q : ℤ) → pos 0 <ℤ d → IsNearest n d q ↔ (q ≡ nearest_of n d) }
{}

/// The shifted number and the exponent of a number above 0 are the only numbers that meet their
/// inequalities, and a number has one root alone.
pub fn shifts_exponents_and_roots_are_unique()
    ensures shift { (n e q : ℤ) → IsShifted n e q ↔ (q ≡ shift_of n e) }
    ensures exponent { (v e : ℤ) → pos 0 <ℤ v → v <ℤ pos (2 ^ 100) → IsExponent v e ↔ (e ≡ exponent_of v) }
    ensures root { (n r s : ℕ) → IsRoot n r → IsRoot n s → r ≡ s }
{}
