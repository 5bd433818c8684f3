//! Laws of rows. Each function has an empty body: what it ensures is a theorem.

ghost use Rattle.gen_law.specs.RowSums.{RowsAreSums, UnknownsMove, OthersAreUnmoved, DistanceEnergy, DirectionEnergy, AngleEnergy, DifferenceEnergy};

/// The form of a row is the sum over the terms of its equation: each coefficient times the
/// displacement of its unknown, which is 0 for a fixed coordinate.
pub fn rows_are_sums_of_terms()
    ensures sums { RowsAreSums }
    ensures moved { UnknownsMove }
    ensures fixed { OthersAreUnmoved }
{}

/// The energy of each kind of row at a displacement, for any points and unknowns.
pub fn energies_by_kind()
    ensures distance { DistanceEnergy }
    ensures direction { DirectionEnergy }
    ensures angle { AngleEnergy }
    ensures difference { DifferenceEnergy }
{}
