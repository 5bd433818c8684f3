//! Laws of normal matrices. Each function is its contract: it does nothing.
ghost use Rattle.std.specs.Prelude.{◌≡◌, ℕ, ◌<◌, ◌^◌, ℤ, pos, ◌*ℤ◌, ◌≤ℤ◌, List, Bool, All, map, unsigned_abs};
ghost use Rattle.whole_algebra.specs.Matrices.{quad};
ghost use Rattle.whole_algebra.specs.Grid.{packed};
ghost use Rattle.geo_model.specs.Row.{Displaced};
ghost use Rattle.geo_model.specs.Candidate.{CandidateOf, IsCandidate};
ghost use Rattle.geo_model.specs.Energy.{energy};
ghost use Rattle.geo_model.specs.Network.{NetworkOf, IsNetwork};
ghost use Rattle.normal_matrix.specs.Entries.{normal_entry, HasEachOnce};

/// The energy of a displacement under a plan is the quadratic form of the plan's normal matrix.
pub fn energy_is_the_form_of_the_normal_matrix()
    ensures { (n : ℕ) (candidates : List CandidateOf) (plan : List Bool) (unknowns : List ℕ) (x : Displaced)
        → All (IsCandidate n) candidates → HasEachOnce n unknowns
        → energy candidates plan x ≡ quad (packed (normal_entry candidates plan) unknowns) (map x unknowns) }
{}

/// The entries of the normal matrix of each plan of a network are below 2 ^ 71 in size, and those of
/// a limit's factor times it below 2 ^ 91.
pub fn entries_are_small()
    ensures plan { (network : NetworkOf) (plan : List Bool) (i j : ℕ)
        → IsNetwork network → unsigned_abs (normal_entry network.candidates plan i j) < 2 ^ 71 }
    ensures scaled { (network : NetworkOf) (plan : List Bool) (alpha : ℤ) (i j : ℕ)
        → IsNetwork network → pos 1 ≤ℤ alpha → alpha ≤ℤ pos 1000000
        → unsigned_abs (alpha *ℤ normal_entry network.candidates plan i j) < 2 ^ 91 }
{}
