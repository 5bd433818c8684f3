//! How far a replay has come.
ghost use Rattle.std.specs.Prelude.{◌≡◌, ◌<◌, ◌≤◌, ℕ, List, [], ◌∷◌, length, map, IfOk};
ghost use Rattle.geo_model.specs.Network.{IsNetwork};
ghost use Rattle.geo_model.specs.Dual.{dual_bound};
ghost use Rattle.geo_model.specs.Prices.{price_of, prices_of};
ghost use Rattle.geo_model.specs.Nodes.{all_plans};
ghost use Rattle.geo_model.specs.declared.plan.Node.{Node as NodeOf};
ghost use Rattle.bound_log.specs.declared.bound.Bound.TheVariants.{NoPlan, AtLeast};
ghost use Rattle.bound_log.specs.Bound.{lesser};
ghost use Rattle.bound_log.specs.Counted.{counts_of};
ghost use Rattle.bound_log.specs.CutText.{CutTextOf};
ghost use Rattle.bound_log.specs.DualText.{weighed_text};
ghost use Rattle.bound_log.specs.LogTree.{IsDualLineAt, leaf_bound};
ghost use Rattle.bound_log.specs.Rules.{IsAllowedLine};
ghost use Rattle.bound_log.specs.declared.log_leaf.LogLeaf.TheVariants as log_leaf;
ghost use Rattle.bound_log.specs.declared.log_line.LogLine.TheVariants as log_line;
ghost use Rattle.log_check.specs.LineRoom.{IsLineRoom};
ghost use Rattle.log_check.specs.Places.{IsReady};
ghost use Rattle.log_check.specs.Running.{line_bound};
ghost use Rattle.log_check.specs.Taking.{EndsAt, Takes};

use crate::dual::dual_bound_at;
use crate::line_room::LineRoom;
use crate::named_cuts::NamedCuts;
use crate::open_nodes::OpenNodes;
use bound_log::{Bound, LineKind, LogFormat, LogLeaf, LogLine, Shares, count_line};
use geo_base::NoMemory;
use geo_model::{Counts, Network, cost};
use std::alloc::Global;

/// What the lines so far leave: how many there are, the first line of a log among them, the format
/// that this one tells, the cuts that are named, the nodes that are open, the least bound of the
/// leaves, and the lines counted by their kinds.
#[derive(Drop)]
pub struct Progress {
    pub lines: u64,
    pub format: LogFormat,
    pub cuts: NamedCuts,
    pub stack: OpenNodes,
    pub bound: Bound,
    pub counts: Counts,
}

impl Progress {
    /// Before the first line: the root is open. Refused for want of memory alone.
    pub fn new(alloc: Global, network: &Network) -> Result<Progress, NoMemory>
        ensures lines { IfOk result (λ made. made.lines ≡ 0) }
        ensures stack { IfOk result (λ made. made.stack ≡ record { candidates = length network.now.candidates; nodes = all_plans (length network.now.candidates) ∷ [] }) }
        ensures cuts { IfOk result (λ made. made.cuts ≡ []) }
        ensures bound { IfOk result (λ made. made.bound ≡ NoPlan) }
        ensures counts { IfOk result (λ made. made.counts ≡ counts_of []) }
        ensures few { length network.now.candidates ≤ 256 }
        ensures bounds { IsNetwork network.now }
    {
        let stack = OpenNodes::new(alloc, network.candidates().len() as u32)?;
        let cuts = NamedCuts::new(alloc)?;
        Ok(Progress {
            lines: 0,
            format: LogFormat::First,
            cuts,
            stack,
            bound: Bound::NoPlan,
            counts: Counts::none(),
        })
    }

    /// Takes a line that is allowed at the next node, which is to be numbered yet. It takes no
    /// memory.
    pub fn take(&mut self, network: &Network, room: &mut LineRoom, line: &LogLine<'_>)
        requires room { IsLineRoom network.now room.old }
        requires ready { IsReady network.now self.old.stack }
        requires some { 0 < length self.old.stack.nodes }
        requires allowed { (node : NodeOf) (rest : List NodeOf) → self.old.stack.nodes ≡ node ∷ rest → IsAllowedLine network.now node line.now }
        ensures taken { (node : NodeOf) (rest : List NodeOf) → self.old.stack.nodes ≡ node ∷ rest →
            Takes node rest line.now (line_bound network.now node line.now) self.old self.new }
        ensures kept { IsLineRoom network.now room.new }
    {
        count_line(&mut self.counts, line.kind());
        match line {
            LogLine::Split(candidate) => self.stack.split(*candidate as u32),
            LogLine::Leaf(leaf) => self.close(network, room, leaf),
        }
    }

    // Closes the next node with the bound of a leaf that is allowed there.
    fn close(&mut self, network: &Network, room: &mut LineRoom, leaf: &LogLeaf<'_>)
        requires room { IsLineRoom network.now room.old }
        requires ready { IsReady network.now self.old.stack }
        requires some { 0 < length self.old.stack.nodes }
        requires allowed { (node : NodeOf) (rest : List NodeOf) → self.old.stack.nodes ≡ node ∷ rest → IsAllowedLine network.now node (log_line.Leaf leaf.now) }
        ensures ends { (node : NodeOf) (rest : List NodeOf) → self.old.stack.nodes ≡ node ∷ rest →
            EndsAt rest (leaf_bound network.now node leaf.now) self.old self.new }
        ensures kept { IsLineRoom network.now room.new }
    {
        match leaf {
            LogLeaf::Cost => self.close_at_price(network),
            LogLeaf::Pivot(_) | LogLeaf::Cut(_) => self.stack.pop(),
            LogLeaf::Dual(divisor, shares) => self.close_at_dual(network, room, *divisor, shares),
        }
    }

    // Closes the next node, with the price of what it chooses as its bound.
    fn close_at_price(&mut self, network: &Network)
        requires ready { IsReady network.now self.old.stack }
        requires some { 0 < length self.old.stack.nodes }
        ensures { (node : NodeOf) (rest : List NodeOf) → self.old.stack.nodes ≡ node ∷ rest →
            EndsAt rest (AtLeast (price_of network.now node.inside)) self.old self.new }
    {
        let price = cost(network, &self.stack.top().inside);
        self.bound = lesser_bound(self.bound, u128::from(price));
        self.stack.pop();
    }

    // Closes the next node, with the dual bound of a line's shares as its bound.
    fn close_at_dual(
        &mut self,
        network: &Network,
        room: &mut LineRoom,
        divisor: u64,
        shares: &Shares<'_>,
    )
        requires room { IsLineRoom network.now room.old }
        requires ready { IsReady network.now self.old.stack }
        requires some { 0 < length self.old.stack.nodes }
        requires allowed { (node : NodeOf) (rest : List NodeOf) → self.old.stack.nodes ≡ node ∷ rest → IsDualLineAt network.now node divisor shares.now }
        ensures ends { (node : NodeOf) (rest : List NodeOf) → self.old.stack.nodes ≡ node ∷ rest →
            EndsAt rest (AtLeast (dual_bound (prices_of network.now) divisor (map (weighed_text network.now) shares.now) node)) self.old self.new }
        ensures kept { IsLineRoom network.now room.new }
    {
        let least = dual_bound_at(network, room, self.stack.top(), divisor, shares);
        self.bound = lesser_bound(self.bound, least);
        self.stack.pop();
    }

    /// Takes a leaf at the next node whose cut is broken, which is to be numbered yet.
    pub fn end_at_cut(&mut self)
        requires { 0 < length self.old.stack.nodes }
        ensures { (cut : CutTextOf) (node : NodeOf) (rest : List NodeOf) → self.old.stack.nodes ≡ node ∷ rest →
            Takes node rest (log_line.Leaf (log_leaf.Cut cut)) NoPlan self.old self.new }
    {
        count_line(&mut self.counts, LineKind::Cut);
        self.stack.pop();
    }

    /// Takes a leaf at the next node with this dual bound, which is to be numbered yet.
    pub fn end_at_dual(&mut self, least: u128)
        requires { 0 < length self.old.stack.nodes }
        ensures { (divisor : ℕ) (shares : List (ℕ × CutTextOf)) (node : NodeOf) (rest : List NodeOf) → self.old.stack.nodes ≡ node ∷ rest →
            Takes node rest (log_line.Leaf (log_leaf.Dual divisor shares)) (AtLeast least) self.old self.new }
    {
        count_line(&mut self.counts, LineKind::Dual);
        self.bound = lesser_bound(self.bound, least);
        self.stack.pop();
    }
}

// The lesser of a bound and a price.
fn lesser_bound(bound: Bound, price: u128) -> Bound
    ensures { result ≡ lesser bound (AtLeast price) }
{
    match bound {
        Bound::NoPlan => Bound::AtLeast(price),
        Bound::AtLeast(least) => Bound::AtLeast(least.min(price)),
    }
}
