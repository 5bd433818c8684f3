//! Laws of numbers. Each function has an empty body: what it ensures is a theorem.

ghost use Rattle.coefficient_round.specs.Coefficient.{direction_coefficient, weight_for};
ghost use Rattle.std.specs.Prelude.{◌≡◌, ℕ, ℤ, ◌≤◌, ◌⊎◌, ◌+ℤ◌, ◌-ℤ◌, ◌*ℤ◌, ◌≤ℤ◌, pos, unsigned_abs};

/// The coefficients of a direction are at most 5000 where both parts of its line are 800 m and more.
pub fn far_directions_are_small()
    ensures { (part dx dy : ℤ) → (part ≡ dx) ⊎ (part ≡ dy) → 800000 ≤ unsigned_abs dx → 800000 ≤ unsigned_abs dy → unsigned_abs (direction_coefficient part dx dy) ≤ 5000 }
{}

/// The weights of the standard deviations 10.00, 15.00 and 8.00.
pub fn generated_weights()
    ensures ten { weight_for 1000 ≡ pos 100 }
    ensures fifteen { (pos 44 ≤ℤ weight_for 1500) × (weight_for 1500 ≤ℤ pos 45) }
    ensures eight { (pos 1 ≤ℤ weight_for 800) × (weight_for 800 ≤ℤ pos 157) }
{}

/// The square of a form with small coefficients, and of a sum, is bounded by the squares of its
/// variables.
pub fn squares_of_forms()
    ensures form { (size : ℕ) (a b u v : ℤ) → unsigned_abs a ≤ size → unsigned_abs b ≤ size → ((a *ℤ u +ℤ b *ℤ v) *ℤ (a *ℤ u +ℤ b *ℤ v)) ≤ℤ (pos 2 *ℤ (pos size *ℤ pos size) *ℤ (u *ℤ u +ℤ v *ℤ v)) }
    ensures sum { (p q : ℤ) → ((p +ℤ q) *ℤ (p +ℤ q)) ≤ℤ (pos 2 *ℤ (p *ℤ p +ℤ q *ℤ q)) }
{}

/// Where the energy of a row is at most four times what others of the network have, its redundancy
/// number is at least a fifth: 200 thousandths. The whole energy times 800 is at least 1000 times
/// the weight times the square of the row's form.
pub fn rest_bears_row()
    ensures { (weight square rest whole : ℤ) → (weight *ℤ square +ℤ rest) ≤ℤ whole → (weight *ℤ square) ≤ℤ (pos 4 *ℤ rest) → (pos 1000 *ℤ weight *ℤ square) ≤ℤ (pos 800 *ℤ whole) }
{}
