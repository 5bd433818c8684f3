//! Laws of quadratic forms of symmetric matrices, each kept as the list of its rows from the diagonal on.

ghost use Rattle.std.specs.Prelude.{◌≡◌, ℕ, ℤ, pos, ◌+ℤ◌, ◌*ℤ◌, ◌≤ℤ◌, ◌<ℤ◌, List, ◌∷◌};
ghost use Rattle.whole_algebra.specs.Sums.{dot};
ghost use Rattle.whole_algebra.specs.Matrices.{quad, schur, lower_over, upper_over, IsTriangle};
ghost use Rattle.whole_algebra.specs.Grid.{SameFirstRows};

/// A pivot times the form is a square and the form of what the pivot leaves.
#[tactic(auto, using(crate::proofs::Square::completed_square))]
pub fn pivot_completes_the_square()
    ensures { (a : ℤ) (b : List ℤ) (m : List (List ℤ)) (x : ℤ) (y : List ℤ)
        → a *ℤ quad ((a ∷ b) ∷ m) (x ∷ y)
        ≡ (a *ℤ x +ℤ dot b y) *ℤ (a *ℤ x +ℤ dot b y) +ℤ quad (schur a b m) y }
{}

/// A matrix divided by a positive number and rounded, with the slack of each row on its diagonal,
/// bounds the form from below and from above.
#[tactic(auto, using(crate::proofs::Slack::lower_is_below, crate::proofs::Slack::upper_is_above))]
pub fn slack_covers_the_rounding()
    ensures below { (a : ℤ) (m : List (List ℤ)) (x : List ℤ)
        → pos 0 <ℤ a → (a *ℤ quad (lower_over a m) x) ≤ℤ quad m x }
    ensures above { (a : ℤ) (m : List (List ℤ)) (x : List ℤ)
        → pos 0 <ℤ a → quad m x ≤ℤ (a *ℤ quad (upper_over a m) x) }
{}

/// The first rows of a rounded matrix depend on the entries of those rows and columns alone: on
/// the first rows of the matrix, each from the diagonal on, and so do their slacks.
pub fn first_rows_are_rounded_alone()
    ensures lower { (a : ℤ) (n count : ℕ) (m o : List (List ℤ))
        → pos 0 <ℤ a → IsTriangle n m → IsTriangle n o → SameFirstRows count m o
        → SameFirstRows count (lower_over a m) (lower_over a o) }
    ensures upper { (a : ℤ) (n count : ℕ) (m o : List (List ℤ))
        → pos 0 <ℤ a → IsTriangle n m → IsTriangle n o → SameFirstRows count m o
        → SameFirstRows count (upper_over a m) (upper_over a o) }
{}
