//! Laws of chains. Each function is its contract: it does nothing.
ghost use Rattle.std.specs.Prelude.{ℕ, ℤ, List};
ghost use Rattle.whole_algebra.specs.Matrices.{IsTriangle};
ghost use Rattle.whole_algebra.specs.Chains.{chain_rows};
ghost use Rattle.whole_algebra.specs.Grid.{SameFirstRows};
ghost use Rattle.chain_step.specs.Step.{over_of};
ghost use Rattle.chain_step.specs.declared.side.Side.{Side as SideOf};

/// Equal first rows of two matrices give equal first rows of their chains.
#[tactic(auto, using(crate::proofs::SameRows::chain_rows_same))]
pub fn equal_first_rows_give_equal_chains()
    ensures { (side : SideOf) (steps n count : ℕ) (m o : List (List ℤ)) → IsTriangle n m → IsTriangle n o
        → SameFirstRows count m o
        → SameFirstRows count (chain_rows (over_of side) steps m) (chain_rows (over_of side) steps o) }
{}
