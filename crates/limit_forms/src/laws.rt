//! Laws of the form of a limit and of its grid. Each function is its contract: it does nothing.
ghost use Rattle.std.specs.Prelude.{◌≡◌, ℕ, suc, ◌+◌, ◌<◌, ◌≤◌, ◌^◌, ℤ, pos, ◌-ℤ◌, ◌*ℤ◌, ◌≤ℤ◌, ◌<ℤ◌, List, Bool, length, map, unsigned_abs};
ghost use Rattle.whole_algebra.specs.Matrices.{at, diagonal, quad, lower_over, upper_over, IsTriangle};
ghost use Rattle.whole_algebra.specs.Chains.{met, refuted, chains_outcome, matrix_after};
ghost use Rattle.whole_algebra.specs.Grid.{times_lists, row_at, SameFirstRows};
ghost use Rattle.geo_model.specs.Row.{Displaced};
ghost use Rattle.geo_model.specs.Energy.{energy};
ghost use Rattle.geo_model.specs.Limit.{SquareOf, IsLoad, load};
ghost use Rattle.geo_model.specs.Network.{NetworkOf, IsNetwork};
ghost use Rattle.limit_forms.specs.Grid.{order_of, scales_of, form_matrix, grid_step, lower_grid, upper_grid, IsLight, AgreeOnFirst};

/// The quadratic form of a limit's matrix is the factor times the energy, less the load.
pub fn form_is_energy_less_load()
    ensures { (network : NetworkOf) (plan : List Bool) (alpha : ℤ) (squares : List SquareOf) (x : Displaced)
        → IsNetwork network → IsLoad (length network.unknowns) network.candidates alpha squares
        → quad (form_matrix network plan alpha squares) (map x (order_of (length network.unknowns) squares))
        ≡ alpha *ℤ energy network.candidates plan x -ℤ load squares x }
{}

/// The lower grid matrix lies below the form, and the upper one above it, at every list of whole
/// numbers: the form is taken at that list in the units of the grid.
pub fn grid_matrices_surround_the_form()
    ensures below { (network : NetworkOf) (plan : List Bool) (alpha : ℤ) (squares : List SquareOf) (z : List ℤ)
        → (grid_step *ℤ quad (lower_grid network plan alpha squares) z)
        ≤ℤ quad (form_matrix network plan alpha squares) (times_lists (scales_of network alpha squares) z) }
    ensures above { (network : NetworkOf) (plan : List Bool) (alpha : ℤ) (squares : List SquareOf) (z : List ℤ)
        → quad (form_matrix network plan alpha squares) (times_lists (scales_of network alpha squares) z)
        ≤ℤ (grid_step *ℤ quad (upper_grid network plan alpha squares) z) }
{}

/// Both grid matrices are triangles of as many rows as there are unknowns. Their entries stay below
/// 2 ^ 109 in size, and their heads are at most 2 ^ 60 + 64.
pub fn grid_matrices_are_small()
    ensures lower_shape { (network : NetworkOf) (plan : List Bool) (alpha : ℤ) (squares : List SquareOf)
        → IsTriangle (length network.unknowns) (lower_grid network plan alpha squares) }
    ensures upper_shape { (network : NetworkOf) (plan : List Bool) (alpha : ℤ) (squares : List SquareOf)
        → IsTriangle (length network.unknowns) (upper_grid network plan alpha squares) }
    ensures lower_size { (network : NetworkOf) (plan : List Bool) (alpha : ℤ) (squares : List SquareOf) (i k : ℕ)
        → IsNetwork network → IsLoad (length network.unknowns) network.candidates alpha squares
        → unsigned_abs (at (row_at (lower_grid network plan alpha squares) i) k) < 2 ^ 109 }
    ensures upper_size { (network : NetworkOf) (plan : List Bool) (alpha : ℤ) (squares : List SquareOf) (i k : ℕ)
        → IsNetwork network → IsLoad (length network.unknowns) network.candidates alpha squares
        → unsigned_abs (at (row_at (upper_grid network plan alpha squares) i) k) < 2 ^ 109 }
    ensures lower_heads { (network : NetworkOf) (plan : List Bool) (alpha : ℤ) (squares : List SquareOf) (i : ℕ)
        → IsNetwork network → IsLoad (length network.unknowns) network.candidates alpha squares
        → at (diagonal (lower_grid network plan alpha squares)) i ≤ℤ pos (2 ^ 60 + 64) }
    ensures upper_heads { (network : NetworkOf) (plan : List Bool) (alpha : ℤ) (squares : List SquareOf) (i : ℕ)
        → IsNetwork network → IsLoad (length network.unknowns) network.candidates alpha squares
        → at (diagonal (upper_grid network plan alpha squares)) i ≤ℤ pos (2 ^ 60 + 64) }
{}

/// Beside the diagonal the entries of both grid matrices stay below 2 ^ 71 in size, where the load of
/// the limit is small against the energy of all candidates or has no entry there itself.
pub fn entries_beside_the_diagonal_are_small()
    ensures lower { (network : NetworkOf) (plan : List Bool) (alpha : ℤ) (squares : List SquareOf) (i k : ℕ)
        → IsNetwork network → IsLoad (length network.unknowns) network.candidates alpha squares → IsLight network alpha squares
        → unsigned_abs (at (row_at (lower_grid network plan alpha squares) i) (suc k)) < 2 ^ 71 }
    ensures upper { (network : NetworkOf) (plan : List Bool) (alpha : ℤ) (squares : List SquareOf) (i k : ℕ)
        → IsNetwork network → IsLoad (length network.unknowns) network.candidates alpha squares → IsLight network alpha squares
        → unsigned_abs (at (row_at (upper_grid network plan alpha squares) i) (suc k)) < 2 ^ 71 }
{}

/// The diagonal entries of the matrices of both chains stay below 2 ^ 61.
pub fn grid_chains_stay_low()
    ensures lower { (network : NetworkOf) (plan : List Bool) (alpha : ℤ) (squares : List SquareOf) (t i : ℕ)
        → IsNetwork network → IsLoad (length network.unknowns) network.candidates alpha squares
        → at (diagonal (matrix_after lower_over t (lower_grid network plan alpha squares))) i <ℤ pos (2 ^ 61) }
    ensures upper { (network : NetworkOf) (plan : List Bool) (alpha : ℤ) (squares : List SquareOf) (t i : ℕ)
        → IsNetwork network → IsLoad (length network.unknowns) network.candidates alpha squares
        → t ≤ length network.unknowns
        → at (diagonal (matrix_after upper_over t (upper_grid network plan alpha squares))) i <ℤ pos (2 ^ 61) }
{}

/// The first rows of both grid matrices depend on the entries of those rows and columns alone: two
/// plans whose normal matrices agree there have the same first rows.
pub fn first_grid_rows_depend_on_their_entries()
    ensures lower { (network : NetworkOf) (plan other : List Bool) (alpha : ℤ) (squares : List SquareOf) (count : ℕ)
        → AgreeOnFirst count network plan other squares
        → SameFirstRows count (lower_grid network plan alpha squares) (lower_grid network other alpha squares) }
    ensures upper { (network : NetworkOf) (plan other : List Bool) (alpha : ℤ) (squares : List SquareOf) (count : ℕ)
        → AgreeOnFirst count network plan other squares
        → SameFirstRows count (upper_grid network plan alpha squares) (upper_grid network other alpha squares) }
{}

/// The verdict on the two grid matrices decides the limit: met, no displacement breaks it; refuted,
/// some displacement does.
pub fn grid_verdicts_decide_limits()
    ensures met_everywhere { (network : NetworkOf) (plan : List Bool) (alpha : ℤ) (squares : List SquareOf) (x : Displaced)
        → IsNetwork network → IsLoad (length network.unknowns) network.candidates alpha squares
        → chains_outcome (lower_grid network plan alpha squares) (upper_grid network plan alpha squares) ≡ met
        → load squares x ≤ℤ (alpha *ℤ energy network.candidates plan x) }
    ensures refuted_somewhere { (network : NetworkOf) (plan : List Bool) (alpha : ℤ) (squares : List SquareOf)
        → IsNetwork network → IsLoad (length network.unknowns) network.candidates alpha squares
        → chains_outcome (lower_grid network plan alpha squares) (upper_grid network plan alpha squares) ≡ refuted
        → (x : Displaced) × ((alpha *ℤ energy network.candidates plan x) <ℤ load squares x) }
{}
