//! The nodes of a log that are still open.
ghost use Rattle.std.specs.Prelude.{◌≡◌, ◌+◌, ◌-◌, ◌↔◌, ◌<◌, List, [], ◌∷◌, Some, true, length, drop, slice_get, slice_set, All, IfOk, IsTrue};
ghost use Rattle.geo_model.specs.Nodes.{all_plans};
ghost use Rattle.geo_model.specs.declared.plan.Node.{Node as NodeOf};
ghost use Rattle.bound_log.specs.LogTree.{with_chosen, without_chosen};
ghost use Rattle.log_check.specs.Places.{HasEntries};

use geo_base::NoMemory;
use geo_model::{Node, Plan};
use std::alloc::Global;
use std::marker::Model;
use std::mem;

/// How many places there are: a node that is split leaves a candidate open, of which there are at
/// most 256, so no more nodes are open at once.
const NODE_PLACES: usize = 257;

/// The open nodes of a log, the next one first. Its places are all taken at the start: the open
/// nodes stand in the last ones, and one spare node stands outside, so that a copy can be written
/// beside the node that it is of.
#[derive(Drop)]
pub struct OpenNodes {
    places: Vec<Node>,
    spare: Node,
    free: usize,
    count: u32,
}

impl Model for OpenNodes {
    ghost use Rattle.std.specs.Prelude.{drop};
    ghost use Rattle.log_check.specs.Places.{OpenOf, ArePlaces};

    ghost Value = { OpenOf };

    ghost view = { λ a. record { candidates = a.count; nodes = drop a.free a.places.items } };

    ghost invariant = { λ a. ArePlaces a.count a.places.items a.spare a.free };
}

impl OpenNodes {
    /// All places, with the node of all plans of `count` candidates open. Refused for want of
    /// memory alone.
    #[tactic(auto, using(crate::proofs::PlaceLemmas::places_made))]
    pub fn new(alloc: Global, count: u32) -> Result<OpenNodes, NoMemory>
        ensures { IfOk result (λ made. made ≡ record { candidates = count; nodes = all_plans count ∷ [] }) }
    {
        let mut places = Vec::new(alloc);
        for _place in 0..NODE_PLACES {
            places.push(Node::whole(alloc, count)?)?;
        }
        let spare = Node::whole(alloc, count)?;
        Ok(OpenNodes {
            places,
            spare,
            free: NODE_PLACES - 1,
            count,
        })
    }

    /// Whether no node is open.
    pub fn is_empty(&self) -> bool
        ensures { IsTrue result ↔ self.now.nodes ≡ [] }
    {
        self.free == NODE_PLACES
    }

    /// The next node.
    pub fn top(&self) -> &Node
        requires { 0 < length self.now.nodes }
        ensures { (node : NodeOf) (rest : List NodeOf) → self.now.nodes ≡ node ∷ rest → result.now ≡ node }
    {
        &self.places[self.free]
    }

    /// Closes the next node.
    pub fn pop(&mut self)
        requires { 0 < length self.old.nodes }
        ensures { (node : NodeOf) (rest : List NodeOf) → self.old.nodes ≡ node ∷ rest →
            self.new ≡ record { candidates = self.old.candidates; nodes = rest } }
    {
        self.free += 1;
    }

    /// Splits the next node on a candidate that it leaves open: the child that chooses the
    /// candidate comes first, then the child that leaves it out. It takes no memory.
    pub fn split(&mut self, candidate: u32)
        requires some { 0 < length self.old.nodes }
        requires few { length self.old.nodes < 257 }
        requires candidate { candidate < self.old.candidates }
        ensures { (node : NodeOf) (rest : List NodeOf) → self.old.nodes ≡ node ∷ rest →
            self.new ≡ record { candidates = self.old.candidates; nodes = with_chosen node candidate ∷ without_chosen node candidate ∷ rest } }
    {
        let count = self.count;
        let at = self.free;
        split_place(&mut self.places, &mut self.spare, at, count, candidate);
        self.free = at - 1;
    }
}

// Writes the children of the node at a place: the one that leaves the candidate out in its own
// place, and the one that chooses it in the place before. The node that stood there becomes the
// spare one.
fn split_place(places: &mut Vec<Node>, spare: &mut Node, at: usize, count: u32, candidate: u32)
    requires long { All (HasEntries count) places.old.items }
    requires spare_long { HasEntries count spare.old }
    requires before { 0 < at }
    requires within { at < length places.old.items }
    requires candidate { candidate < count }
    ensures children { (node : NodeOf) → slice_get places.old.items at ≡ Some node →
        places.new.items ≡ slice_set (slice_set places.old.items at (without_chosen node candidate)) (at - 1) (with_chosen node candidate) }
    ensures spare { slice_get places.old.items (at - 1) ≡ Some spare.new }
{
    choose_copy(&places[at], spare, count, candidate);
    leave_out(&mut places[at], count, candidate);
    mem::swap(&mut places[at - 1], spare);
}

// Makes a node the child of another one that chooses the candidate.
fn choose_copy(from: &Node, to: &mut Node, count: u32, candidate: u32)
    requires from { HasEntries count from.now }
    requires to { HasEntries count to.old }
    requires candidate { candidate < count }
    ensures { to.new ≡ with_chosen from.now candidate }
{
    copy_plan(&from.inside, &mut to.inside, count);
    copy_plan(&from.upper, &mut to.upper, count);
    to.inside.set(candidate, true);
}

// Makes a node its child that leaves the candidate out.
fn leave_out(node: &mut Node, count: u32, candidate: u32)
    requires long { HasEntries count node.old }
    requires candidate { candidate < count }
    ensures { node.new ≡ without_chosen node.old candidate }
{
    node.upper.set(candidate, false);
}

// Makes a plan the same as another one of as many candidates.
#[tactic(auto, using(crate::proofs::PlaceLemmas::copied_more, crate::proofs::PlaceLemmas::copied_all))]
fn copy_plan(from: &Plan, to: &mut Plan, count: u32)
    requires from { length from.now ≡ count }
    requires to { length to.old ≡ count }
    ensures { to.new ≡ from.now }
{
    for i in 0..count {
        to.set(i, from.has(i));
    }
}
