ghost use Rattle.std.specs.Prelude.{◌≡◌, ◌<◌, Some, true, false, length, slice_get, All, IfOk, IfSome};
ghost use Rattle.dual_ascent.specs.Duals.{IsDualWithin};

use crate::bound_by::BoundBy;
use crate::fixing::Fixing;
use crate::forced::Forced;
use crate::levels::{Entered, Levels};
use crate::relaxation::Relaxation;
use crate::rounded_plan::RoundedPlan;
use crate::splitting::Splitting;
use crate::watch::Watch;
use cut_pool::CutPool;
use dual_ascent::{Dual, dual_of, price_shift};
use geo_base::NoMemory;
use geo_model::{Network, Node, Plan, breaks};
use scaled_network::{Bearing, Mark, Marks, ScaledNetwork};
use separation::{Proposal, Separation, Sought, displacement_of};
use std::alloc::Global;

// The greatest entries to which a displacement that breaks a limit is rounded: coarse ones first,
// which serve more often.
const GREATEST: [i64; 4] = [1, 4, 32, 32768];

// A plan is rounded each of the first so many times that it is asked for, and later each time of so
// many.
const ALWAYS_ROUNDED: u32 = 300;

const ROUNDED_EACH: u32 = 8;

// What a bound is past a price at least, in parts of the price's unit, as a power of two: 2^-6.
const PAST_BITS: u32 = 26;

/// What proposes to a search, at one node after the other: the nodes may come in any order, and those
/// below one another are found out fastest. All of it may be wrong; only the shapes are proved.
///
/// At a node a search asks in this order: `visit`; `refuting`, `bound_by` known shares and `forced`,
/// which need no linear program; `bound`, and `separate` and `bound` again as long as that adds cuts to
/// its pool; `fixed`, `offer` and `split`, which take the shares of the last bound.
#[derive(Drop)]
pub struct Proposer {
    network: ScaledNetwork,
    price_shift: u32,
    levels: Levels,
    // What the present node says of each candidate.
    marks: Marks,
    bearing: Bearing,
    watch: Watch,
    relaxation: Relaxation,
    separation: Separation,
    fixing: Fixing,
    splitting: Splitting,
    rounded: RoundedPlan,
    // How often a plan was asked for.
    asked: u32,
    entries: Vec<i32>,
}

impl Proposer {
    /// What proposes for a network. Refused for want of memory alone.
    pub fn new(alloc: Global, network: &Network) -> Result<Proposer, NoMemory> {
        let scaled = ScaledNetwork::new(alloc, network)?;
        Ok(Proposer {
            relaxation: Relaxation::new(alloc, network, &scaled)?,
            network: scaled,
            price_shift: price_shift(network),
            levels: Levels::new(alloc),
            marks: Marks::new(alloc),
            bearing: Bearing::new(alloc),
            watch: Watch::new(alloc),
            separation: Separation::new(alloc),
            fixing: Fixing::new(alloc),
            splitting: Splitting::new(alloc),
            rounded: RoundedPlan::new(alloc),
            asked: 0,
            entries: Vec::new(alloc),
        })
    }

    /// Goes to a node, of which the other calls speak then. Its plans have an entry for each candidate
    /// of the network.
    pub fn visit(&mut self, alloc: Global, network: &Network, node: &Node) -> Result<(), NoMemory>
        requires inside { length node.now.inside ≡ length network.now.candidates }
        requires upper { length node.now.upper ≡ length network.now.candidates }
    {
        self.marks.read(network, node)?;
        let entered = self.levels.enter(alloc, &self.marks)?;
        let Some(level) = self.levels.present_mut() else {
            return Ok(());
        };
        let prices = self.relaxation.prices();
        match entered {
            Entered::Same => {}
            Entered::Below => level.descend(&self.network, &mut self.bearing, &self.marks)?,
            Entered::Anew => level.start(&self.network, &mut self.bearing, prices, &self.marks)?,
        }
        self.watch.measure(&self.network, &mut self.bearing, level)
    }

    /// A limit in force that the upper plan of the node breaks, and a displacement that breaks it, if
    /// one is found.
    pub fn refuting(
        &mut self,
        alloc: Global,
        network: &Network,
        node: &Node,
    ) -> Result<Option<Proposal>, NoMemory>
        requires upper { length node.now.upper ≡ length network.now.candidates }
        ensures proposal { IfOk result (λ found. IfSome found (λ proposal. (proposal.limit < length network.now.limits) × (length proposal.x ≡ length network.now.unknowns))) }
    {
        let Some(limit) = self.watch.broken_limit() else {
            return Ok(None);
        };
        let Some(level) = self.levels.present() else {
            return Ok(None);
        };
        self.bearing.look_at_none(&self.network);
        let _strength = self
            .bearing
            .find_direction(&self.network, &level.upper, limit)?;
        if limit as usize >= network.limits().len() {
            return Ok(None);
        }
        self.rounded_breaking(alloc, network, node, limit)
    }

    // The first rounding of the direction found last that breaks a limit under the upper plan.
    fn rounded_breaking(
        &mut self,
        alloc: Global,
        network: &Network,
        node: &Node,
        limit: u32,
    ) -> Result<Option<Proposal>, NoMemory>
        requires upper { length node.now.upper ≡ length network.now.candidates }
        requires limit { limit < length network.now.limits }
        ensures proposal { IfOk result (λ found. IfSome found (λ proposal. (proposal.limit < length network.now.limits) × (length proposal.x ≡ length network.now.unknowns))) }
    {
        for greatest in GREATEST {
            self.bearing
                .round(&self.network, greatest, &mut self.entries)?;
            let x = displacement_of(alloc, network, self.entries.as_slice())?;
            if breaks(network, &node.upper, limit, &x) {
                return Ok(Some(Proposal { limit, x }));
            }
        }
        Ok(None)
    }

    /// An open candidate on which a split has a child that ends at once: one that the multipliers fix
    /// which a node above was left with, so that the child ends by them; one whose own limits the upper
    /// plan breaks, or one without which a limit in force is broken.
    pub fn forced(&mut self, network: &Network) -> Result<Option<Forced>, NoMemory>
        ensures { IfOk result (λ found. IfSome found (λ forced. forced.candidate < length network.now.candidates)) }
    {
        let Some(level) = self.levels.present() else {
            return Ok(None);
        };
        if let Some(fixed) = level.first_fixed() {
            return Ok(in_range(network, Some(fixed)));
        }
        let found = match self
            .watch
            .shut_owner(&self.network, &mut self.bearing, level)
        {
            Some(shut) => Some(shut),
            None => self.watch.needed(&self.network, &mut self.bearing, level)?,
        };
        Ok(in_range(network, found))
    }

    /// Multipliers for cuts of the pool, for a dual bound of the node: those of its linear program
    /// under the cuts that the pool has by now. It stops where the bound is past `price`, that of the
    /// best plan, if there is one. None where no cut serves, or numbers got too large.
    pub fn bound(
        &mut self,
        alloc: Global,
        network: &Network,
        node: &Node,
        pool: &CutPool,
        price: Option<u64>,
    ) -> Result<Option<Dual>, NoMemory>
        requires inside { length node.now.inside ≡ length network.now.candidates }
        requires limits { All (λ cut. cut.limit < length network.now.limits) pool.now }
        ensures dual { IfOk result (λ found. IfSome found (IsDualWithin network.now node.now pool.now)) }
    {
        if let Some(price) = price
            && let Some(dual) = self.known_bound(alloc, network, node, pool, price)?
        {
            return Ok(Some(dual));
        }
        let most = self.past(price);
        let Some(level) = self.levels.present_mut() else {
            return Ok(None);
        };
        let end = self.relaxation.solve(&self.network, level, pool, most)?;
        let multipliers = self.relaxation.multipliers();
        level.keep(end, multipliers)?;
        match end {
            Some(end) => dual_of(alloc, network, node, pool, end, multipliers),
            None => Ok(None),
        }
    }

    /// A dual bound of the node as `bound` answers it, or only one that is known without a linear program.
    pub fn bound_by(
        &mut self,
        alloc: Global,
        network: &Network,
        node: &Node,
        pool: &CutPool,
        price: Option<u64>,
        by: BoundBy,
    ) -> Result<Option<Dual>, NoMemory>
        requires inside { length node.now.inside ≡ length network.now.candidates }
        requires limits { All (λ cut. cut.limit < length network.now.limits) pool.now }
        ensures dual { IfOk result (λ found. IfSome found (IsDualWithin network.now node.now pool.now)) }
    {
        match (by, price) {
            (BoundBy::Program, _) => self.bound(alloc, network, node, pool, price),
            (BoundBy::KnownShares, Some(price)) => {
                self.known_bound(alloc, network, node, pool, price)
            }
            (BoundBy::KnownShares, None) => Ok(None),
        }
    }

    // The dual bound of the last multipliers that are known at the node, where it is the price or more:
    // so the other child of a split on a candidate that was fixed needs no linear program.
    fn known_bound(
        &mut self,
        alloc: Global,
        network: &Network,
        node: &Node,
        pool: &CutPool,
        price: u64,
    ) -> Result<Option<Dual>, NoMemory>
        requires inside { length node.now.inside ≡ length network.now.candidates }
        requires limits { All (λ cut. cut.limit < length network.now.limits) pool.now }
        ensures dual { IfOk result (λ found. IfSome found (IsDualWithin network.now node.now pool.now)) }
    {
        let Some(level) = self.levels.present() else {
            return Ok(None);
        };
        let Some(end) = level.end else {
            return Ok(None);
        };
        let multipliers = level.multipliers.as_slice();
        let Some(dual) = dual_of(alloc, network, node, pool, end, multipliers)? else {
            return Ok(None);
        };
        let fixing = &mut self.fixing;
        if fixing.is_past(&self.network, level, pool, &dual, price)? {
            return Ok(Some(dual));
        }
        Ok(None)
    }

    // What a bound is past a price, as a tableau has prices: a little above the price less 1, since
    // prices are whole.
    fn past(&self, price: Option<u64>) -> i64 {
        let Some(price) = price else {
            return i64::MAX;
        };
        let shift = 32u32.saturating_sub(self.price_shift);
        let below = price.saturating_sub(1).min(1 << 60) as u128;
        let little = 1u128.wrapping_shl(PAST_BITS.saturating_sub(self.price_shift));
        let past = below.wrapping_shl(shift).wrapping_add(little);
        past.min(1 << 61) as i64
    }

    /// Displacements whose cuts the shares of the node's linear program lack more than `least` of, in
    /// fixed point with 32 fractional bits: at most `most`, those first that lack most. Where their cuts
    /// are added to the pool, the next bound takes them.
    pub fn separate(
        &mut self,
        alloc: Global,
        network: &Network,
        least: i64,
        most: usize,
    ) -> Result<Vec<Proposal>, NoMemory>
        ensures proposals { IfOk result (λ proposals. All (λ proposal. (proposal.limit < length network.now.limits) × (length proposal.x ≡ length network.now.unknowns)) proposals.items) }
    {
        let sought = Sought {
            scaled: &self.network,
            marks: &self.marks,
            shares: self.relaxation.shares(),
            least,
            most,
        };
        self.separation.propose(alloc, network, &sought)
    }

    /// The open candidates that a dual bound of the node fixes, where the best plan has this price: the
    /// other child of a split on one ends by the same multipliers. `forced` proposes them one after the
    /// other at the nodes below.
    pub fn fixed(
        &mut self,
        alloc: Global,
        pool: &CutPool,
        dual: &Dual,
        price: u64,
    ) -> Result<Vec<Forced>, NoMemory> {
        let mut fixed = Vec::new(alloc);
        let Some(level) = self.levels.present_mut() else {
            return Ok(fixed);
        };
        self.fixing.find(&self.network, level, pool, dual, price)?;
        fixed.extend_from_slice(level.fixed.as_slice())?;
        Ok(fixed)
    }

    /// An open candidate to split the node on, by the linear program that was solved last.
    pub fn split(&mut self, network: &Network, node: &Node) -> Result<Option<u32>, NoMemory>
        requires inside { length node.now.inside ≡ length network.now.candidates }
        requires upper { length node.now.upper ≡ length network.now.candidates }
        ensures inside { IfOk result (λ found. IfSome found (λ candidate. slice_get node.now.inside candidate ≡ Some false)) }
        ensures upper { IfOk result (λ found. IfSome found (λ candidate. slice_get node.now.upper candidate ≡ Some true)) }
    {
        let Some(level) = self.levels.present() else {
            return Ok(None);
        };
        let shares = self.relaxation.shares();
        let chosen = self.splitting.choose(
            &self.network,
            &mut self.bearing,
            level,
            &self.watch,
            shares,
        )?;
        let Some(candidate) = chosen else {
            return Ok(None);
        };
        if (candidate as usize) < network.candidates().len()
            && !node.inside.has(candidate)
            && node.upper.has(candidate)
        {
            return Ok(Some(candidate));
        }
        Ok(None)
    }

    /// A plan that may meet the limits, rounded from the shares of the linear program that was solved
    /// last, where it costs less than `price`. It is sought each of the first times that it is asked
    /// for, and later now and then.
    pub fn offer(
        &mut self,
        alloc: Global,
        network: &Network,
        price: u64,
    ) -> Result<Option<Plan>, NoMemory>
        ensures { IfOk result (λ found. IfSome found (λ plan. length plan ≡ length network.now.candidates)) }
    {
        self.asked = self.asked.saturating_add(1);
        if self.asked > ALWAYS_ROUNDED && self.asked % ROUNDED_EACH != 0 {
            return Ok(None);
        }
        let Some(level) = self.levels.present() else {
            return Ok(None);
        };
        let shares = self.relaxation.shares();
        let stations = self.relaxation.station_shares();
        if !self.rounded.round(&self.network, level, shares, stations)? {
            return Ok(None);
        }
        if self.rounded.plan().price(&self.network) >= price {
            return Ok(None);
        }
        Ok(Some(self.rounded.plan().plan().plan(alloc, network)?))
    }
}

// A candidate of any number, where the network has one of it.
fn in_range(network: &Network, found: Option<Forced>) -> Option<Forced>
    ensures { IfSome result (λ forced. forced.candidate < length network.now.candidates) }
{
    match found {
        Some(forced) if (forced.candidate as usize) < network.candidates().len() => Some(forced),
        _ => None,
    }
}
