//! The cuts that a search tries at its nodes.
ghost use Rattle.std.specs.Prelude.{◌≡◌, ◌↔◌, ◌+◌, ◌<◌, ◌≤◌, ◌∷◌, [], ℕ, true, false, Any, None, Ok, length, map, IsTrue, slice_get, Some, IfOk, IfSome, IfNone, OnOk, OnErr};
ghost use Rattle.geo_model.specs.Limit.{LimitOf};
ghost use Rattle.geo_model.specs.Network.{IsNetwork};
ghost use Rattle.cut_pool.specs.Cut.{CutOf};
ghost use Rattle.bound_log.specs.CutText.{text_of_cut};
ghost use Rattle.bound_log.specs.LogTree.{IsBrokenBy, IsOpenAt};
ghost use Rattle.idle_splits.specs.Idle.{IsDearByUnit, IsLoadedAt};
ghost use Rattle.idle_splits.specs.UnitCuts.{IsUnitCut, unit_move};
ghost use Rattle.idle_splits.specs.UnitShares.{ShowsDear};
ghost use Rattle.branch_bound.specs.Cuts.{IsCutFor, IsSearchPool, HasPoints, HasUnitAt, AreCutsFor, GotCuts, IsBrokenCut, IsUnitWritable, IsDualWritable, named_cuts};
ghost use Rattle.branch_bound.specs.Naming.{text_at};
ghost use Rattle.branch_bound.specs.Spelled.{PutsNames};
ghost use Rattle.branch_bound.specs.Explored.{IsNode, CutsOff};
ghost use Rattle.branch_bound.specs.Found.{IsTrueBest, IsPast, best_bound};

use crate::best::Best;
use crate::choice::is_open;
use crate::cut_sums::CutSums;
use crate::inherited::Inherited;
use crate::limit_verdicts::is_owned_by;
use crate::missing::unit_load;
use crate::names::Names;
use bound_log::put_named;
use cut_pool::{Cut, CutPool, cut_of};
use dual_ascent::Dual;
use dual_bound::leaf_bound;
use fixed_point::ONE;
use geo_base::NoMemory;
use geo_model::{Displacement, Network, Node, Plan, breaks, cost};
use idle_splits::{IdleTest, UnitShare, unit_cut, unit_move};
use pivot_chain::is_in_force;
use proposer::{BoundBy, Forced, Proposal, Proposer};
use std::alloc::Global;
use std::marker::Model;

/// So many cuts of displacements by 1 in one unknown at most: past them such a displacement gives none,
/// and the verdicts decide alone.
const MOST_CUTS: u32 = 4096;

/// So many cuts in all, for which a log has names: past them no proposal gives one.
const MOST_IN_ALL: u32 = 65536;

/// How often cuts are sought for the linear program of a node: at the root, and below it.
const ROOT_ROUNDS: u32 = 60;

const ROUNDS: u32 = 2;

/// So many cuts each time, of which the shares lack a fiftieth or more.
const SOUGHT: usize = 8;

const LACKING: i64 = ONE / 50;

/// The cuts that a search tries, with what they reach under the upper plan that was tried last, the
/// test by which it looks for idle splits, the names that its log has given, and what proposes further
/// cuts, bounds and candidates. Contracts see neither the sums nor what proposes.
#[derive(Drop)]
pub struct Cuts {
    pool: CutPool,
    sums: CutSums,
    idle: IdleTest,
    names: Names,
    proposer: Proposer,
    // The multipliers of the linear program of the node, where it was solved and ended below the price
    // of the best plan.
    dual: Option<Dual>,
    // A candidate on which a split was proposed without a linear program of the node.
    forced: Option<u32>,
    // How often cuts are sought at the next node.
    rounds: u32,
}

impl Model for Cuts {
    ghost use Rattle.branch_bound.specs.Cuts.{SearchCuts};

    ghost Value = { SearchCuts };

    ghost view = { λ cuts. record { pool = cuts.pool; idle = cuts.idle; names = cuts.names } };
}

impl Cuts {
    /// The cuts of a network's limits and of the displacements by 1 in one unknown whose load isn't 0:
    /// those of the axis and height limits, by the order of the unknowns, and then the others, by the
    /// order of the limits. None of them is named. Refused for want of memory alone.
    pub fn of_units(alloc: Global, network: &Network) -> Result<Cuts, NoMemory>
        ensures cuts { IfOk result (AreCutsFor network.now) }
        ensures names { IfOk result (λ cuts. named_cuts cuts ≡ []) }
    {
        let pool = unit_cuts(alloc, network)?;
        let sums = CutSums::new(alloc, network, &pool)?;
        let idle = IdleTest::new(alloc, network)?;
        let proposer = Proposer::new(alloc, network)?;
        // That no two cuts are the same, for the proof.
        let _distinct = pool.len();
        Ok(Cuts {
            pool,
            sums,
            idle,
            names: Names::new(alloc),
            proposer,
            dual: None,
            forced: None,
            rounds: ROOT_ROUNDS,
        })
    }

    /// The name of the cut of a number in the log. Where it has none yet it gets the next one, and the
    /// line that says so is appended. Refused for want of memory alone.
    pub fn name(
        &mut self,
        network: &Network,
        out: &mut Vec<u8>,
        number: u32,
    ) -> Result<u32, NoMemory>
        requires cuts { AreCutsFor network.now self.old }
        requires number { number < length self.old.pool }
        ensures puts { OnOk result (PutsNames (named_cuts self.old) out.old.items out.new.items (named_cuts self.new)) }
        ensures name { IfOk result (λ name. slice_get (named_cuts self.new) name ≡ Some (text_at self.old.pool number)) }
        ensures cuts { OnOk result (AreCutsFor network.now self.new) }
        ensures pool { self.new.pool ≡ self.old.pool }
    {
        if let Some(name) = self.names.get(number) {
            return Ok(name);
        }
        // The network's bounds, for the proof.
        let _bounds = network.candidates();
        put_named(out, self.pool.get(number))?;
        let name = self.names.add(number)?;
        Ok(name)
    }

    /// The number of the cut of a limit and of the displacement by 1 in one unknown.
    pub fn unit_number(
        &self,
        alloc: Global,
        network: &Network,
        limit: u32,
        unknown: u32,
    ) -> Result<u32, NoMemory>
        requires unknown { unknown < length network.now.unknowns }
        requires there { HasUnitAt network.now self.now.pool limit unknown }
        ensures inside { IfOk result (λ number. number < length self.now.pool) }
        ensures number { IfOk result (λ number. (cut : CutOf) → slice_get self.now.pool number ≡ Some cut → (cut.limit ≡ limit) × (cut.x ≡ unit_move (length network.now.unknowns) unknown)) }
    {
        let x = unit_move(alloc, network, unknown)?;
        Ok(number_of(&self.pool, limit, &x))
    }

    /// The number of the first cut that the plans of a node break, of those that the node may inherit.
    /// It takes no memory.
    pub fn first_broken(
        &mut self,
        network: &Network,
        node: &Node,
        inherited: &Inherited,
    ) -> Option<u32>
        requires cuts { AreCutsFor network.now self.old }
        requires node { IsNode network.now node.now }
        ensures kept { self.new ≡ self.old }
        ensures bounds { IsNetwork network.now }
        ensures found { IfSome result (IsBrokenCut network.now node.now self.new) }
    {
        // The network's bounds, for the proof.
        let _bounds = network.candidates();
        // The child that chooses a candidate follows its parent, whose upper plan it has.
        if inherited.chosen.is_none() {
            self.sums.take(network, &node.upper);
        }
        let first = self.sums.first().min(self.pool.len());
        let recent = self.sums.recent();
        match self.broken_in(network, node, inherited, 0, first) {
            Some(number) => Some(number),
            None => self.broken_in(network, node, inherited, recent, self.pool.len()),
        }
    }

    // The number of the first cut of some that all plans of a node break.
    fn broken_in(
        &self,
        network: &Network,
        node: &Node,
        inherited: &Inherited,
        from: u32,
        to: u32,
    ) -> Option<u32>
        requires cuts { AreCutsFor network.now self.now }
        requires node { IsNode network.now node.now }
        requires to { to ≤ length self.now.pool }
        ensures { IfSome result (IsBrokenCut network.now node.now self.now) }
    {
        for number in from..to {
            if self.breaks(network, node, inherited, number) {
                return Some(number);
            }
        }
        None
    }

    /// A share of a unit cut that shows that a node costs more than the best plan, if one does. It takes
    /// no memory.
    pub fn dear_share(&mut self, network: &Network, node: &Node, best: &Best) -> Option<UnitShare>
        requires cuts { AreCutsFor network.now self.old }
        requires node { IsNode network.now node.now }
        requires kept { IsTrueBest network.now best.now }
        ensures found { IfSome result (ShowsDear network.now node.now (best_bound network.now best.now)) }
        ensures none { IfNone result ((number unknown candidate : ℕ) → IsDearByUnit network.now node.now (best_bound network.now best.now) number unknown candidate → ⊥) }
        ensures writable { IfSome result (IsUnitWritable network.now self.new.pool) }
        ensures same { self.new ≡ self.old }
        ensures bounds { IsNetwork network.now }
    {
        // The network's bounds, for the proof.
        let _bounds = network.candidates();
        match best {
            Best::NoPlan => None,
            Best::Certified(plan) => self
                .idle
                .dear_share(network, node, cost(network, plan) as u128),
            Best::Unsettled(plan) => self
                .idle
                .dear_share(network, node, cost(network, plan) as u128),
        }
    }

    /// Goes to a node, of which the proposals speak then. Refused for want of memory alone.
    pub fn visit(&mut self, alloc: Global, network: &Network, node: &Node) -> Result<(), NoMemory>
        requires node { IsNode network.now node.now }
        ensures same { self.new ≡ self.old }
    {
        self.dual = None;
        self.forced = None;
        self.proposer.visit(alloc, network, node)
    }

    /// The number of a cut that the plans of a node break, whose displacement is proposed at the node:
    /// it is added to the pool. Refused for want of memory alone.
    pub fn refuting_cut(
        &mut self,
        alloc: Global,
        network: &Network,
        node: &Node,
        inherited: &Inherited,
    ) -> Result<Option<u32>, NoMemory>
        requires cuts { AreCutsFor network.now self.old }
        requires node { IsNode network.now node.now }
        ensures got { OnOk result (GotCuts network.now self.old self.new) }
        ensures found { IfOk result (λ found. IfSome found (IsBrokenCut network.now node.now self.new)) }
    {
        let Some(proposal) = self.refuting_proposal(alloc, network, node)? else {
            return Ok(None);
        };
        let number = self.len();
        if !self.add(alloc, network, node, proposal)? {
            return Ok(None);
        }
        if !self.breaks(network, node, inherited, number) {
            return Ok(None);
        }
        Ok(Some(number))
    }

    // A limit and a displacement that the plans of the node may break, if any are proposed.
    fn refuting_proposal(
        &mut self,
        alloc: Global,
        network: &Network,
        node: &Node,
    ) -> Result<Option<Proposal>, NoMemory>
        requires node { IsNode network.now node.now }
        ensures same { self.new ≡ self.old }
    {
        self.proposer.refuting(alloc, network, node)
    }

    // How many cuts there are.
    fn len(&self) -> u32
        ensures { result ≡ length self.now.pool }
    {
        self.pool.len()
    }

    /// A dual bound of shares of the cuts that is past the best plan at a node, where one is found: of
    /// shares that are known, or else, where no split is proposed without it, of the node's linear
    /// program. Cuts that are sought for it are added to the pool. Refused for want of memory alone.
    pub fn dual_past(
        &mut self,
        alloc: Global,
        network: &Network,
        node: &Node,
        best: &Best,
    ) -> Result<Option<Dual>, NoMemory>
        requires cuts { AreCutsFor network.now self.old }
        requires node { IsNode network.now node.now }
        requires kept { IsTrueBest network.now best.now }
        ensures got { OnOk result (GotCuts network.now self.old self.new) }
        ensures found { IfOk result (λ found. IfSome found (λ dual. CutsOff network.now node.now best.now self.new.pool dual.d dual.shares.items)) }
        ensures writable { IfOk result (λ found. IfSome found (IsDualWritable self.new.pool)) }
    {
        if let Some(dual) = self.bound_past(alloc, network, node, best, BoundBy::KnownShares)? {
            return Ok(Some(dual));
        }
        if self.is_forced(network)? {
            return Ok(None);
        }
        self.program_past(alloc, network, node, best)
    }

    // Whether a split is proposed of which one child ends at once, without a linear program.
    fn is_forced(&mut self, network: &Network) -> Result<bool, NoMemory>
        ensures same { self.new ≡ self.old }
    {
        let forced = self.proposer.forced(network)?;
        self.forced = forced.map(|forced| forced.candidate);
        Ok(self.forced.is_some())
    }

    // The dual bound of the node's linear program, where it is past the best plan.
    fn program_past(
        &mut self,
        alloc: Global,
        network: &Network,
        node: &Node,
        best: &Best,
    ) -> Result<Option<Dual>, NoMemory>
        requires cuts { AreCutsFor network.now self.old }
        requires node { IsNode network.now node.now }
        requires kept { IsTrueBest network.now best.now }
        ensures got { OnOk result (GotCuts network.now self.old self.new) }
        ensures found { IfOk result (λ found. IfSome found (λ dual. CutsOff network.now node.now best.now self.new.pool dual.d dual.shares.items)) }
        ensures writable { IfOk result (λ found. IfSome found (IsDualWritable self.new.pool)) }
    {
        let rounds = self.rounds;
        self.rounds = ROUNDS;
        for _ in 0..rounds {
            if let Some(dual) = self.bound_past(alloc, network, node, best, BoundBy::Program)? {
                return Ok(Some(dual));
            }
            if !self.add_sought(alloc, network, node)? {
                return Ok(None);
            }
        }
        self.bound_past(alloc, network, node, best, BoundBy::Program)
    }

    // The dual bound that is proposed under the cuts of the pool, where it is past the best plan.
    fn bound_past(
        &mut self,
        alloc: Global,
        network: &Network,
        node: &Node,
        best: &Best,
        by: BoundBy,
    ) -> Result<Option<Dual>, NoMemory>
        requires cuts { AreCutsFor network.now self.old }
        requires node { IsNode network.now node.now }
        requires kept { IsTrueBest network.now best.now }
        ensures same { self.new ≡ self.old }
        ensures found { IfOk result (λ found. IfSome found (λ dual. CutsOff network.now node.now best.now self.new.pool dual.d dual.shares.items)) }
        ensures writable { IfOk result (λ found. IfSome found (IsDualWritable self.new.pool)) }
    {
        // The network's bounds, for the proof.
        let _bounds = network.candidates();
        let price = price_of(network, best);
        let Some(dual) = self
            .proposer
            .bound_by(alloc, network, node, &self.pool, price, by)?
        else {
            return Ok(None);
        };
        let shares = dual.shares.as_slice();
        let reached = leaf_bound(network, node, dual.d, shares, &self.pool);
        if !is_past(network, best, reached) {
            self.dual = Some(dual);
            return Ok(None);
        }
        Ok(Some(dual))
    }

    // Adds the cuts that are sought for the linear program of the node, and answers whether there were
    // any.
    fn add_sought(
        &mut self,
        alloc: Global,
        network: &Network,
        node: &Node,
    ) -> Result<bool, NoMemory>
        requires cuts { AreCutsFor network.now self.old }
        requires node { IsNode network.now node.now }
        ensures got { OnOk result (GotCuts network.now self.old self.new) }
    {
        let proposals = self.sought_proposals(alloc, network)?;
        let before = self.len();
        for proposal in proposals {
            let _is_new = self.add(alloc, network, node, proposal)?;
        }
        Ok(self.len() > before)
    }

    // Displacements whose cuts the shares of the node's linear program lack.
    fn sought_proposals(
        &mut self,
        alloc: Global,
        network: &Network,
    ) -> Result<Vec<Proposal>, NoMemory>
        ensures same { self.new ≡ self.old }
    {
        self.proposer.separate(alloc, network, LACKING, SOUGHT)
    }

    // Adds the cut of a proposal, where it names a limit and an entry for each unknown, there is room
    // for it and it isn't there yet, and answers whether it did.
    fn add(
        &mut self,
        alloc: Global,
        network: &Network,
        node: &Node,
        proposal: Proposal,
    ) -> Result<bool, NoMemory>
        requires cuts { AreCutsFor network.now self.old }
        requires node { IsNode network.now node.now }
        ensures got { OnOk result (GotCuts network.now self.old self.new) }
        ensures added { IfOk result (λ added. added ≡ true → length self.new.pool ≡ length self.old.pool + 1) }
    {
        let number = self.pool.len();
        if number >= MOST_IN_ALL || !is_for(network, &proposal) {
            return Ok(false);
        }
        let Proposal { limit, x } = proposal;
        // The displacement's bounds, for the proof.
        let _bounds = x.entries();
        let cut = cut_of(alloc, network, limit, x)?;
        let is_new = self.pool.add(cut)?;
        if !is_new {
            return Ok(false);
        }
        // That no two cuts are the same, for the proof.
        let _distinct = self.pool.len();
        let added = self.pool.get(number);
        self.sums.follow(network, added, &node.upper)?;
        Ok(true)
    }

    /// An open candidate on which a split is proposed after a bound: one of which one child ends at once,
    /// by what was known before the bound or by the bound itself, or the one that lifts the bound most.
    /// Refused for want of memory alone.
    pub fn split_candidate(
        &mut self,
        alloc: Global,
        network: &Network,
        node: &Node,
        best: &Best,
    ) -> Result<Option<u32>, NoMemory>
        requires node { IsNode network.now node.now }
        requires kept { IsTrueBest network.now best.now }
        ensures open { IfOk result (λ found. IfSome found (λ candidate. IsOpenAt network.now node.now candidate)) }
        ensures same { self.new ≡ self.old }
    {
        if let Some(candidate) = self.forced {
            return Ok(where_open(network, node, candidate));
        }
        if let Some(candidate) = self.fixed_candidate(alloc, network, node, best)? {
            return Ok(Some(candidate));
        }
        match self.proposer.split(network, node)? {
            Some(candidate) => Ok(where_open(network, node, candidate)),
            None => Ok(None),
        }
    }

    // The first open candidate that the last bound fixes.
    fn fixed_candidate(
        &mut self,
        alloc: Global,
        network: &Network,
        node: &Node,
        best: &Best,
    ) -> Result<Option<u32>, NoMemory>
        requires node { IsNode network.now node.now }
        requires kept { IsTrueBest network.now best.now }
        ensures open { IfOk result (λ found. IfSome found (λ candidate. IsOpenAt network.now node.now candidate)) }
        ensures same { self.new ≡ self.old }
    {
        let Some(price) = price_of(network, best) else {
            return Ok(None);
        };
        let Some(dual) = &self.dual else {
            return Ok(None);
        };
        let fixed = self.proposer.fixed(alloc, &self.pool, dual, price)?;
        Ok(first_open(network, node, fixed.as_slice()))
    }

    /// A plan that is proposed once after a bound, where it costs less than the best one. Refused for
    /// want of memory alone.
    pub fn offered_plan(
        &mut self,
        alloc: Global,
        network: &Network,
        best: &Best,
    ) -> Result<Option<Plan>, NoMemory>
        requires kept { IsTrueBest network.now best.now }
        ensures long { IfOk result (λ found. IfSome found (λ plan. length plan ≡ length network.now.candidates)) }
        ensures same { self.new ≡ self.old }
    {
        if self.dual.is_none() {
            return Ok(None);
        }
        self.dual = None;
        let price = price_of(network, best).unwrap_or(u64::MAX);
        self.proposer.offer(alloc, network, price)
    }

    // Whether all plans of a node break the cut of a number.
    fn breaks(&self, network: &Network, node: &Node, inherited: &Inherited, number: u32) -> bool
        requires cuts { AreCutsFor network.now self.now }
        requires node { IsNode network.now node.now }
        requires number { number < length self.now.pool }
        ensures { result ≡ true → IsBrokenCut network.now node.now self.now number }
    {
        if !self.sums.may_break(number) {
            return false;
        }
        breaks_node(network, node, inherited, self.pool.get(number))
    }
}

// The price of the best plan, if there is one.
fn price_of(network: &Network, best: &Best) -> Option<u64>
    requires kept { IsTrueBest network.now best.now }
{
    match best {
        Best::NoPlan => None,
        Best::Certified(plan) => Some(cost(network, plan)),
        Best::Unsettled(plan) => Some(cost(network, plan)),
    }
}

// The first of some candidates that a node leaves open.
fn first_open(network: &Network, node: &Node, fixed: &[Forced]) -> Option<u32>
    requires node { IsNode network.now node.now }
    ensures { IfSome result (λ candidate. IsOpenAt network.now node.now candidate) }
{
    for forced in fixed {
        if let Some(candidate) = where_open(network, node, forced.candidate) {
            return Some(candidate);
        }
    }
    None
}

// A candidate of any number, where there is one of it that the node leaves open.
fn where_open(network: &Network, node: &Node, candidate: u32) -> Option<u32>
    requires node { IsNode network.now node.now }
    ensures { IfSome result (λ found. IsOpenAt network.now node.now found) }
{
    if candidate as usize >= network.candidates().len() {
        return None;
    }
    if !is_open(network, node, candidate) {
        return None;
    }
    Some(candidate)
}

// Whether a price is past the best plan.
fn is_past(network: &Network, best: &Best, price: u128) -> bool
    requires kept { IsTrueBest network.now best.now }
    ensures { IsTrue result ↔ IsPast network.now best.now price }
{
    match best {
        Best::NoPlan => false,
        Best::Certified(plan) => u128::from(cost(network, plan)) <= price,
        Best::Unsettled(plan) => u128::from(cost(network, plan)) < price,
    }
}

// Whether all plans of a node break a cut. At a node whose parent breaks none only the limits of the
// candidate that it chose last are asked.
fn breaks_node(network: &Network, node: &Node, inherited: &Inherited, cut: &Cut) -> bool
    requires cut { IsCutFor network.now cut.now }
    requires node { IsNode network.now node.now }
    ensures { result ≡ true → IsBrokenBy network.now node.now (text_of_cut cut.now) }
{
    if let Some(candidate) = inherited.chosen {
        if !is_owned_by(network, cut.limit, candidate) {
            return false;
        }
    }
    // The displacement's bounds, for the proof.
    let _bounds = cut.x.entries();
    if !is_in_force(network, &node.inside, cut.limit) {
        return false;
    }
    breaks(network, &node.upper, cut.limit, &cut.x)
}

// Whether a proposal names a limit of the network and has an entry for each unknown.
fn is_for(network: &Network, proposal: &Proposal) -> bool
    ensures limit { result ≡ true → proposal.now.limit < length network.now.limits }
    ensures places { result ≡ true → length proposal.now.x ≡ length network.now.unknowns }
{
    if proposal.limit as usize >= network.limits().len() {
        return false;
    }
    proposal.x.entries().len() == network.unknowns().len()
}

// The number of the cut of a limit and a displacement.
fn number_of(pool: &CutPool, limit: u32, x: &Displacement) -> u32
    requires { Any (λ cut. (cut.limit ≡ limit) × (cut.x ≡ x.now)) pool.now }
    ensures inside { result < length pool.now }
    ensures number { (cut : CutOf) → slice_get pool.now result ≡ Some cut → (cut.limit ≡ limit) × (cut.x ≡ x.now) }
{
    for number in 0..pool.len() {
        if is_of(pool.get(number), limit, x) {
            return number;
        }
    }
    unreachable!()
}

// Whether a cut is that of a limit and a displacement.
fn is_of(cut: &Cut, limit: u32, x: &Displacement) -> bool
    ensures same { result ≡ true → (cut.now.limit ≡ limit) × (cut.now.x ≡ x.now) }
    ensures apart { result ≡ false → (cut.now.limit ≡ limit) × (cut.now.x ≡ x.now) → ⊥ }
{
    cut.limit == limit && cut.x.entries() == x.entries()
}

// The cut of the axis or height limit that the displacement by 1 in an unknown loads, if one does.
fn point_cut(alloc: Global, network: &Network, unknown: u32) -> Result<Option<Cut>, NoMemory>
    requires unknown { unknown < length network.now.unknowns }
    ensures unit { IfOk result (λ found. IfSome found (IsUnitCut network.now unknown)) }
    ensures none { result ≡ Ok None → (number : ℕ) (limit : LimitOf) → IsLoadedAt network.now number unknown limit → ⊥ }
{
    for limit in 0..network.limits().len() as u32 {
        match unit_cut(alloc, network, limit, unknown)? {
            Some(cut) => return Ok(Some(cut)),
            None => {}
        }
    }
    Ok(None)
}

// Adds the cut of the axis or height limit that the displacement by 1 in an unknown loads, if one
// does.
fn add_point_cut(
    alloc: Global,
    network: &Network,
    unknown: u32,
    pool: &mut CutPool,
) -> Result<(), NoMemory>
    requires unknown { unknown < length network.now.unknowns }
    requires cuts { HasPoints network.now pool.old unknown }
    ensures { OnOk result (HasPoints network.now pool.new (unknown + 1)) }
{
    // The network's bounds, for the proof.
    let _bounds = network.candidates();
    match point_cut(alloc, network, unknown)? {
        Some(cut) => {
            let _is_new = pool.add(cut)?;
            Ok(())
        }
        None => Ok(()),
    }
}

// The cuts of the axis and height limits and of the displacements by 1 in one unknown that load them:
// at most one for each unknown.
fn point_cuts(alloc: Global, network: &Network) -> Result<CutPool, NoMemory>
    ensures { IfOk result (IsSearchPool network.now) }
{
    // The network's bounds, for the proof.
    let _bounds = network.candidates();
    let mut pool = CutPool::new(alloc);
    for unknown in 0..network.unknowns().len() as u32 {
        add_point_cut(alloc, network, unknown, &mut pool)?;
    }
    Ok(pool)
}

// The cuts of all limits and of the displacements by 1 in one unknown whose load isn't 0.
fn unit_cuts(alloc: Global, network: &Network) -> Result<CutPool, NoMemory>
    ensures { IfOk result (IsSearchPool network.now) }
{
    let mut pool = point_cuts(alloc, network)?;
    for limit in 0..network.limits().len() as u32 {
        add_unit_cuts(alloc, network, limit, &mut pool)?;
    }
    Ok(pool)
}

// Adds the cuts of a limit and of the displacements by 1 in one unknown whose load isn't 0.
fn add_unit_cuts(
    alloc: Global,
    network: &Network,
    limit: u32,
    pool: &mut CutPool,
) -> Result<(), NoMemory>
    requires limit { limit < length network.now.limits }
    requires cuts { IsSearchPool network.now pool.old }
    ensures { OnOk result (IsSearchPool network.now pool.new) }
{
    for unknown in 0..network.unknowns().len() as u32 {
        if unit_load(&network.limits()[limit as usize], unknown) > 0 {
            add_unit_cut(alloc, network, limit, unknown, pool)?;
        }
    }
    Ok(())
}

// Adds the cut of a limit and of the displacement by 1 in one unknown, where there is room for it.
fn add_unit_cut(
    alloc: Global,
    network: &Network,
    limit: u32,
    unknown: u32,
    pool: &mut CutPool,
) -> Result<(), NoMemory>
    requires limit { limit < length network.now.limits }
    requires unknown { unknown < length network.now.unknowns }
    requires cuts { IsSearchPool network.now pool.old }
    ensures { OnOk result (IsSearchPool network.now pool.new) }
{
    if pool.len() >= MOST_CUTS {
        return Ok(());
    }
    let x = unit_move(alloc, network, unknown)?;
    // The displacement's bounds, for the proof.
    let _bounds = x.entries();
    let cut = cut_of(alloc, network, limit, x)?;
    let _is_new = pool.add(cut)?;
    Ok(())
}
