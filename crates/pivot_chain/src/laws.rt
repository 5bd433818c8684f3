//! Laws of verdicts. Each function is its contract: it does nothing.
ghost use Rattle.std.specs.Prelude.{◌≡◌, ℕ, ◌≤◌, ℤ, pos, ◌≤ℤ◌, List, Bool, length};
ghost use Rattle.geo_model.specs.Row.{Displaced};
ghost use Rattle.geo_model.specs.Energy.{IsWithin};
ghost use Rattle.geo_model.specs.Limit.{LimitOf};
ghost use Rattle.geo_model.specs.Network.{NetworkOf, IsNetwork, IsLimit};
ghost use Rattle.geo_model.specs.Meeting.{MeetsLimit, MeetsLimits, Breaks};
ghost use Rattle.geo_model.specs.Verdicts.{IsCertifiedBy};
ghost use Rattle.geo_model.specs.declared.verdict.Verdict.TheVariants.{Met, Refuted, Open};
ghost use Rattle.pivot_chain.specs.Verdict.{verdict_of};

/// A plan whose verdict on a limit is Met meets the limit: the inequality holds at every
/// displacement.
pub fn met_is_sound()
    ensures { (network : NetworkOf) (plan : List Bool) (limit : LimitOf)
        → IsNetwork network → IsLimit network limit
        → verdict_of network plan limit ≡ Met → MeetsLimit network plan limit }
{}

/// Where the verdict of a plan on a limit is Refuted, some displacement breaks the limit.
pub fn refuted_is_sound()
    ensures { (network : NetworkOf) (plan : List Bool) (limit : LimitOf)
        → IsNetwork network → IsLimit network limit
        → verdict_of network plan limit ≡ Refuted → (x : Displaced) × Breaks network plan limit x }
{}

/// An open verdict names two numbers with 0 between them, and a step of an unknown.
pub fn open_intervals_contain_zero()
    ensures interval { (network : NetworkOf) (plan : List Bool) (limit : LimitOf) (step : ℕ) (lo hi : ℤ)
        → verdict_of network plan limit ≡ Open step lo hi → (lo ≤ℤ pos 0) × (pos 0 ≤ℤ hi) }
    ensures step { (network : NetworkOf) (plan : List Bool) (limit : LimitOf) (step : ℕ) (lo hi : ℤ)
        → verdict_of network plan limit ≡ Open step lo hi → (1 ≤ step) × (step ≤ length network.unknowns) }
{}

/// A plan that is certified by its verdicts meets the limits at all displacements.
pub fn certified_plans_meet_limits()
    ensures { (network : NetworkOf) (plan : List Bool)
        → IsNetwork network → IsCertifiedBy (verdict_of network) network plan → MeetsLimits network plan }
{}

/// Where the verdict of a plan on a limit is Refuted, no plan within it meets the limit.
pub fn refuted_plans_fail()
    ensures { (network : NetworkOf) (plan upper : List Bool) (limit : LimitOf)
        → IsNetwork network → IsLimit network limit → IsWithin plan upper
        → verdict_of network upper limit ≡ Refuted → MeetsLimit network plan limit → ⊥ }
{}
