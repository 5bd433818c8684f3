//! A law of the grid matrices of the limits of tables. The function is its contract: it does nothing.
ghost use Rattle.net_build.specs.SmallGrids.{BuiltGridsAreSmall};

/// Under each plan both grid matrices of each limit of the network of accepted tables have entries
/// below 2 ^ 71 in size beside the diagonal.
pub fn built_grids_are_small()
    ensures { BuiltGridsAreSmall }
{}
