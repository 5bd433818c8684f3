ghost use Rattle.std.specs.Prelude.{◌≡◌, ◌↔◌, ◌<◌, None, length, IsTrue, IfSome, IfNone};
ghost use Rattle.bound_log.specs.LogTree.{IsOpenAt};
ghost use Rattle.branch_bound.specs.Explored.{IsNode};

use geo_model::{Network, Node};

/// A candidate to split a node on, and what it is worth for its price.
#[derive(Clone, Copy, Debug, PartialEq, Eq)]
pub struct Choice {
    pub candidate: u32,
    pub worth: u128,
}

/// Whether a node leaves a candidate open.
pub fn is_open(network: &Network, node: &Node, candidate: u32) -> bool
    requires node { IsNode network.now node.now }
    requires candidate { candidate < length network.now.candidates }
    ensures { IsTrue result ↔ IsOpenAt network.now node.now candidate }
{
    node.upper.has(candidate) && !node.inside.has(candidate)
}

/// The better of a choice so far and an offered one: it gives way only to an open candidate worth more.
pub fn better(
    network: &Network,
    node: &Node,
    offered: Choice,
    found: Option<Choice>,
) -> Option<Choice>
    requires node { IsNode network.now node.now }
    requires candidate { offered.candidate < length network.now.candidates }
    requires found { IfSome found (λ choice. IsOpenAt network.now node.now choice.candidate) }
    ensures open { IfSome result (λ choice. IsOpenAt network.now node.now choice.candidate) }
    ensures none { IfNone result ((found ≡ None) × (IsOpenAt network.now node.now offered.candidate → ⊥)) }
{
    if !is_open(network, node, offered.candidate) {
        return found;
    }
    if let Some(choice) = found {
        if choice.worth >= offered.worth {
            return Some(choice);
        }
    }
    Some(offered)
}
