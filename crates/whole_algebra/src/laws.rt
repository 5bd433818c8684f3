//! Laws of whole numbers. Each function here has an empty body: what it ensures is a theorem.

ghost use Rattle.std.specs.Prelude.{◌≡◌, ℤ, pos, ◌+ℤ◌, ◌*ℤ◌, neg_ℤ, ◌≤ℤ◌, List, map, ◌++◌};
ghost use Rattle.whole_algebra.specs.Sums.{int_sum, dot};

/// The whole numbers are a commutative ring.
#[tactic(auto, using(crate::proofs::Ring::mul_assoc, crate::proofs::Ring::mul_add))]
pub fn whole_numbers_are_a_ring()
    ensures sum_turns { (a b : ℤ) → a +ℤ b ≡ b +ℤ a }
    ensures sum_regroups { (a b c : ℤ) → (a +ℤ b) +ℤ c ≡ a +ℤ (b +ℤ c) }
    ensures zero_adds_nothing { (a : ℤ) → a +ℤ pos 0 ≡ a }
    ensures opposite_undoes { (a : ℤ) → a +ℤ neg_ℤ a ≡ pos 0 }
    ensures product_turns { (a b : ℤ) → a *ℤ b ≡ b *ℤ a }
    ensures product_regroups { (a b c : ℤ) → (a *ℤ b) *ℤ c ≡ a *ℤ (b *ℤ c) }
    ensures one_keeps { (a : ℤ) → a *ℤ pos 1 ≡ a }
    ensures product_distributes { (a b c : ℤ) → a *ℤ (b +ℤ c) ≡ a *ℤ b +ℤ a *ℤ c }
{}

/// Sums, products and factors keep the order.
#[tactic(auto, using(crate::proofs::Order::square_nonneg, crate::proofs::Order::mul_nonneg, crate::proofs::Order::mul_le_mul))]
pub fn products_keep_the_order()
    ensures square { (a : ℤ) → pos 0 ≤ℤ (a *ℤ a) }
    ensures product { (a b : ℤ) → pos 0 ≤ℤ a → pos 0 ≤ℤ b → pos 0 ≤ℤ (a *ℤ b) }
    ensures factor { (a b c : ℤ) → pos 0 ≤ℤ a → b ≤ℤ c → (a *ℤ b) ≤ℤ (a *ℤ c) }
{}

/// Sums of lists go together with joining and with a common factor.
#[tactic(auto, using(crate::proofs::SumLaws::sum_laws))]
pub fn sums_go_together()
    ensures joined { (xs ys : List ℤ) → int_sum (xs ++ ys) ≡ int_sum xs +ℤ int_sum ys }
    ensures scaled { (a : ℤ) (xs : List ℤ) → int_sum (map (λ x. a *ℤ x) xs) ≡ a *ℤ int_sum xs }
    ensures dot_turns { (xs ys : List ℤ) → dot xs ys ≡ dot ys xs }
    ensures dot_scales { (a : ℤ) (xs ys : List ℤ) → dot (map (λ x. a *ℤ x) xs) ys ≡ a *ℤ dot xs ys }
{}
