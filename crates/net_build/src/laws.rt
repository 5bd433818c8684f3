//! Laws of the networks of tables. Each function is its contract: it does nothing.
ghost use Rattle.net_build.specs.Bounds.{BuiltNetworksAreNetworks};
ghost use Rattle.net_build.specs.Values.{BuiltLimitsBearValues};

/// The network of accepted tables without a network fault, with a redundancy limit of at most 999
/// thousandths, is within the bounds of networks and has at most 576 limits.
pub fn built_networks_are_networks()
    ensures { BuiltNetworksAreNetworks }
{}

/// Each limit of the network of accepted tables keeps the bounds of the limits of a network with each
/// of its values: an axis or a height from 0.1 to 100.0 mm, a redundancy from 0.001 to 0.999.
pub fn built_limits_bear_values()
    ensures { BuiltLimitsBearValues }
{}
