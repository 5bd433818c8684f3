//! Laws of matrices made of numbered unknowns, and of the whole-number grid on which they are judged.

ghost use Rattle.std.specs.Prelude.{◌≡◌, ℕ, ◌*◌, ◌≤◌, ℤ, pos, ◌+ℤ◌, ◌*ℤ◌, ◌≤ℤ◌, ◌<ℤ◌, List, length, map, replicate};
ghost use Rattle.whole_algebra.specs.Sums.{dot};
ghost use Rattle.whole_algebra.specs.Matrices.{at, quad, diagonal, lower_over, upper_over, IsTriangle};
ghost use Rattle.whole_algebra.specs.Chains.{size_limit, met, refuted, chains_outcome};
ghost use Rattle.whole_algebra.specs.Grid.{times_lists, scaled, packed};

/// Forms of packed matrices add up with their numbers, and the products of a row's numbers give the
/// square of the row.
#[tactic(auto, using(crate::proofs::GridLaws::quad_packed_laws))]
pub fn packed_forms_are_sums_of_squares()
    ensures sum { (a : ℤ) (f g : ℕ → ℕ → ℤ) (unknowns : List ℕ) (x : List ℤ)
        → quad (packed (λ i j. f i j +ℤ a *ℤ g i j) unknowns) x
        ≡ quad (packed f unknowns) x +ℤ a *ℤ quad (packed g unknowns) x }
    ensures square { (row : ℕ → ℤ) (unknowns : List ℕ) (x : List ℤ)
        → quad (packed (λ i j. row i *ℤ row j) unknowns) x
        ≡ dot (map row unknowns) x *ℤ dot (map row unknowns) x }
{}

/// The verdict on the two grid matrices of a matrix says of its own form what its name says. Each row
/// and column is scaled by a number that divides p, and the result is divided by d.
#[tactic(auto, using(crate::proofs::GridLaws::grid_laws))]
pub fn grid_verdicts_are_sound()
    ensures met_everywhere { (n : ℕ) (m : List (List ℤ)) (scale parts : List ℤ) (d p : ℤ)
        → IsTriangle n m → length scale ≡ n → length parts ≡ n → pos 0 <ℤ d → pos 0 <ℤ p
        → times_lists scale parts ≡ replicate n p
        → chains_outcome (lower_over d (scaled scale m)) (upper_over d (scaled scale m)) ≡ met
        → (x : List ℤ) → pos 0 ≤ℤ quad m x }
    ensures refuted_somewhere { (n : ℕ) (m : List (List ℤ)) (scale : List ℤ) (d h : ℤ)
        → IsTriangle n m → length scale ≡ n → pos 0 <ℤ d → n ≤ 64
        → ((i : ℕ) → at (diagonal (upper_over d (scaled scale m))) i ≤ℤ h)
        → (h +ℤ pos (64 * n)) ≤ℤ size_limit
        → chains_outcome (lower_over d (scaled scale m)) (upper_over d (scaled scale m)) ≡ refuted
        → (x : List ℤ) × (length x ≡ n) × (quad m x <ℤ pos 0) }
{}
