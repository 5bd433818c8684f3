//! Laws of plans and limits. Each function is its contract: it does nothing.
ghost use Rattle.std.specs.Prelude.{ℕ, ◌<◌, ◌^◌, ℤ, pos, ◌*ℤ◌, ◌≤ℤ◌, List, Bool, unsigned_abs};
ghost use Rattle.geo_model.specs.Row.{Displaced, RowOf, IsNarrow, IsRow, form_at, row_energy};
ghost use Rattle.geo_model.specs.Candidate.{CandidateOf};
ghost use Rattle.geo_model.specs.Energy.{energy};
ghost use Rattle.geo_model.specs.Limit.{SquareOf, IsLoad, load};
ghost use Rattle.geo_model.specs.Network.{NetworkOf, IsNetwork};
ghost use Rattle.geo_model.specs.Meeting.{LargerPlansKeepLimits};
ghost use Rattle.geo_model.specs.Prices.{LargerPlansCostMore};
ghost use Rattle.geo_model.specs.Dual.{PlansCostTheDualBound};

/// A limit that a plan meets is met by every larger plan.
pub fn larger_plans_keep_limits()
    ensures { LargerPlansKeepLimits }
{}

/// A larger plan costs at least as much, whatever the prices of candidates and stations.
pub fn larger_plans_cost_more()
    ensures { LargerPlansCostMore }
{}

/// At a displacement whose entries are at most 2 ^ 15 in size no sum over a network leaves 128 bits:
/// neither a row's form, nor its energy, that of a plan, or a limit's factor times it, nor its load.
pub fn sums_stay_within_128_bits()
    ensures form { (row : RowOf) (x : Displaced) → IsRow row → IsNarrow x → unsigned_abs (form_at row.entries x) < 2 ^ 38 }
    ensures row { (row : RowOf) (x : Displaced) → IsRow row → IsNarrow x → unsigned_abs (row_energy row x) < 2 ^ 96 }
    ensures plan { (network : NetworkOf) (plan : List Bool) (x : Displaced) → IsNetwork network → IsNarrow x
        → unsigned_abs (energy network.candidates plan x) < 2 ^ 105 }
    ensures scaled { (network : NetworkOf) (plan : List Bool) (alpha : ℤ) (x : Displaced) → IsNetwork network → IsNarrow x
        → pos 1 ≤ℤ alpha → alpha ≤ℤ pos 1000000 → unsigned_abs (alpha *ℤ energy network.candidates plan x) < 2 ^ 125 }
    ensures load { (unknowns : ℕ) (candidates : List CandidateOf) (alpha : ℤ) (squares : List SquareOf) (x : Displaced)
        → IsLoad unknowns candidates alpha squares → IsNarrow x → unsigned_abs (load squares x) < 2 ^ 120 }
{}

/// Each plan of a node that satisfies covering inequalities costs at least the dual bound of their
/// multipliers, whatever the prices of candidates and stations.
pub fn plans_cost_the_dual_bound()
    ensures { PlansCostTheDualBound }
{}
