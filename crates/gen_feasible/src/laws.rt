//! Laws of generated networks. Each function has an empty body: what it ensures is a theorem.
ghost use Rattle.gen_feasible.specs.Feasible.{GeneratedNetworksAreFeasible, GeneratedNetworksAreOfOneSize, GeneratedTablesAreFeasible};

/// The network of each seed has 17 unknowns, 28 candidates with 48 rows, and 58 limits.
pub fn generated_networks_are_of_one_size()
    ensures { GeneratedNetworksAreOfOneSize }
{}

/// The plan of all candidates meets every limit of the network of each seed, for all
/// displacements.
pub fn generated_networks_are_feasible()
    ensures { GeneratedNetworksAreFeasible }
{}

/// The generated tables of each seed and their network have no fault, the network is of this size,
/// and the plan of all candidates meets every limit. So such tables are never refused, and some plan
/// of theirs meets the limits.
pub fn generated_tables_are_feasible()
    ensures { GeneratedTablesAreFeasible }
{}
