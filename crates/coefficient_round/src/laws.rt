ghost use Rattle.coefficient_round.specs.Coefficient.{IsDistanceCoefficient, direction_coefficient, distance_coefficient, radian, coefficient_scale, square, square_length, weight_for};
ghost use Rattle.geo_base.specs.Division.{IsNearest};
ghost use Rattle.std.specs.Prelude.{◌≡◌, ℕ, ℤ, ◌*◌, ◌^◌, ◌<◌, ◌≤◌, ◌⊎◌, ◌*ℤ◌, ◌<ℤ◌, ◌≤ℤ◌, pos, unsigned_abs};

/// The coefficient of a distance is the one number that its inequalities allow.
pub fn distance_coefficients_are_rounded()
    ensures rounded { (part dx dy : ℤ) → (part ≡ dx) ⊎ (part ≡ dy) → 0 < square_length dx dy → IsDistanceCoefficient part (square_length dx dy) (distance_coefficient part dx dy) }
    ensures size { (part dx dy : ℤ) → unsigned_abs (distance_coefficient part dx dy) ≤ coefficient_scale }
    ensures only { (part : ℤ) (length_squared : ℕ) (c d : ℤ) → IsDistanceCoefficient part length_squared c → IsDistanceCoefficient part length_squared d → c ≡ d }
{}

/// The coefficients of directions along lines of 10 m and more, and the weights of deviations of
/// 0.10 and more, are the nearest whole numbers.
pub fn directions_and_weights_are_nearest()
    ensures direction { (part dx dy : ℤ) → (part ≡ dx) ⊎ (part ≡ dy) → 10 ^ 8 ≤ square_length dx dy → IsNearest (pos (radian * coefficient_scale) *ℤ part) (pos (square_length dx dy)) (direction_coefficient part dx dy) }
    ensures direction_size { (part dx dy : ℤ) → (part ≡ dx) ⊎ (part ≡ dy) → 10 ^ 8 ≤ square_length dx dy → unsigned_abs (direction_coefficient part dx dy) ≤ radian }
    ensures weight { (u : ℕ) → 10 ≤ u → IsNearest (pos (10 ^ 8)) (pos (square u)) (weight_for u) }
    ensures weight_size { (u : ℕ) → 10 ≤ u → u ≤ 10000 → (pos 1 ≤ℤ weight_for u) × (weight_for u ≤ℤ pos 1000000) }
    ensures only { (n d p q : ℤ) → pos 0 <ℤ d → IsNearest n d p → IsNearest n d q → p ≡ q }
{}
