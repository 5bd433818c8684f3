//! Laws of interval chains: what a chain of rounded pivots shows of a quadratic form.

ghost use Rattle.std.specs.Prelude.{◌≡◌, neg_ℤ, ◌*ℤ◌, ◌∷◌, ℕ, ◌+◌, ◌*◌, ◌<◌, ◌≤◌, ℤ, pos, ◌+ℤ◌, ◌≤ℤ◌, ◌<ℤ◌, List, length, IsTrue, IsFalse};
ghost use Rattle.whole_algebra.specs.Matrices.{at, quad, diagonal, lower_over, upper_over, IsTriangle};
ghost use Rattle.whole_algebra.specs.Rounding.{floor_over};
ghost use Rattle.whole_algebra.specs.Chains.{size_limit, step_of, pivot, stops, lower_chain, upper_chain, met, refuted, open_at, chains_outcome, matrix_after};

/// Where the lower chain of a matrix doesn't stop, its form is negative on no list of whole numbers.
#[tactic(auto, using(crate::proofs::VerdictLaws::lower_sound))]
pub fn lower_chain_is_sound()
    ensures { (n : ℕ) (m : List (List ℤ)) (x : List ℤ)
        → IsTriangle n m → IsFalse (stops (lower_chain m)) → pos 0 ≤ℤ quad m x }
{}

/// Where the upper chain of a matrix stops, its form is negative on some list of whole numbers.
/// The matrix has at most 64 rows, and its diagonal leaves room for the slack of each step.
#[tactic(auto, using(crate::proofs::VerdictLaws::upper_refutes))]
pub fn upper_chain_refutes()
    ensures { (n : ℕ) (m : List (List ℤ)) (h : ℤ)
        → IsTriangle n m → n ≤ 64 → ((i : ℕ) → at (diagonal m) i ≤ℤ h)
        → (h +ℤ pos (64 * n)) ≤ℤ size_limit → IsTrue (stops (upper_chain m))
        → (x : List ℤ) × (length x ≡ n) × (quad m x <ℤ pos 0) }
{}

/// The verdict on a lower and an upper matrix says of their forms what its name says. An open one
/// names a step and two numbers with 0 between them.
#[tactic(auto, using(crate::proofs::VerdictLaws::verdict_laws))]
pub fn verdicts_are_sound()
    ensures met_everywhere { (n : ℕ) (lower upper : List (List ℤ)) (x : List ℤ)
        → IsTriangle n lower → chains_outcome lower upper ≡ met → pos 0 ≤ℤ quad lower x }
    ensures refuted_somewhere { (n : ℕ) (lower upper : List (List ℤ)) (h : ℤ)
        → IsTriangle n upper → n ≤ 64 → ((i : ℕ) → at (diagonal upper) i ≤ℤ h)
        → (h +ℤ pos (64 * n)) ≤ℤ size_limit → chains_outcome lower upper ≡ refuted
        → (x : List ℤ) × (length x ≡ n) × (quad upper x <ℤ pos 0) }
    ensures open_between { (n : ℕ) (lower upper : List (List ℤ)) (k : ℕ) (lo hi : ℤ)
        → IsTriangle n lower → chains_outcome lower upper ≡ open_at k lo hi
        → (lo ≤ℤ pos 0) × (pos 0 ≤ℤ hi) × (0 < k) × (k ≤ n) }
{}

/// A pivot is the first entry of its row and above 0, and what two numbers beside it take off an
/// entry is at most 2^61 in size.
pub fn pivot_keeps_sizes()
    ensures { (a : ℤ) (b : List ℤ) (v : ℤ) (i j : ℕ)
        → step_of (a ∷ b) ≡ pivot v
        → (v ≡ a) × (pos 0 <ℤ a)
        × (neg_ℤ size_limit ≤ℤ floor_over a (neg_ℤ (at b i *ℤ at b j)))
        × (floor_over a (neg_ℤ (at b i *ℤ at b j)) ≤ℤ size_limit) }
{}

/// In a lower chain the diagonal entries of the matrices stay at most as high as those of the first
/// one. In an upper chain of at most 64 rows they grow by at most 64 a step.
pub fn diagonals_stay_low()
    ensures lower { (t : ℕ) (m : List (List ℤ)) (h : ℤ) → ((i : ℕ) → at (diagonal m) i ≤ℤ h)
        → (i : ℕ) → at (diagonal (matrix_after lower_over t m)) i ≤ℤ h }
    ensures upper { (n t : ℕ) (m : List (List ℤ)) (h : ℤ)
        → IsTriangle n m → n ≤ 64 → ((i : ℕ) → at (diagonal m) i ≤ℤ h)
        → (i : ℕ) → at (diagonal (matrix_after upper_over t m)) i ≤ℤ (h +ℤ pos (64 * t)) }
{}
