ghost use Rattle.std.specs.Prelude.{◌≡◌, ◌↔◌, ◌+◌, ◌*◌, ◌<◌, ◌≤◌, ◌^◌, ℕ, pos, ◌<ℤ◌, true, Ok, None, Some, length, slice_get, IfOk, IfSome, OnOk};
ghost use Rattle.whole_algebra.specs.Matrices.{at};
ghost use Rattle.geo_model.specs.Limit.{LimitOf, is_point_limit, load};
ghost use Rattle.cut_pool.specs.Cut.{cover};
ghost use Rattle.idle_splits.specs.Idle.{IsLoadedAt};
ghost use Rattle.idle_splits.specs.UnitCuts.{unit_move, IsUnitCut, HasCover, HasUnitCut, KeepsUnitCuts, Grows, AreUnitCuts};

use crate::offer::{RatedCandidate, offers_of};
use cut_pool::{Cut, CutPool, cut_of};
use geo_base::NoMemory;
use geo_model::{Displacement, Limit, LimitKind, Network, load};
use std::alloc::Global;

/// The cuts of a network's axis and height limits and the displacements by 1 in one unknown that
/// load them, each with its unknown: at most one for each limit and unknown.
#[derive(Debug, Drop)]
pub struct UnitCuts {
    pub(crate) pool: CutPool,
    // The number of the unknown of each cut, by the cut's number.
    pub(crate) unknowns: Vec<u32>,
    // The candidates as each cut sees them, by the cut's number.
    pub(crate) offers: Vec<Vec<RatedCandidate>>,
}

impl UnitCuts {
    /// The unit cuts of a network. Refused for want of memory alone.
    pub fn new(alloc: Global, network: &Network) -> Result<UnitCuts, NoMemory>
        ensures { IfOk result (AreUnitCuts network.now) }
    {
        let mut cuts = UnitCuts {
            pool: CutPool::new(alloc),
            unknowns: Vec::new(alloc),
            offers: Vec::new(alloc),
        };
        for number in 0..network.limits().len() as u32 {
            cuts.add_limit(alloc, network, number)?;
        }
        Ok(cuts)
    }

    // Adds the cuts of a limit.
    fn add_limit(&mut self, alloc: Global, network: &Network, number: u32) -> Result<(), NoMemory>
        requires number { number < length network.now.limits }
        requires kept { KeepsUnitCuts network.now self.old }
        requires few { length self.old.pool ≤ number * 64 }
        ensures grows { OnOk result (Grows network.now self.old self.new) }
        ensures has { OnOk result ((unknown : ℕ) → HasUnitCut network.now self.new.pool number unknown) }
        ensures few { OnOk result (length self.new.pool ≤ (number + 1) * 64) }
    {
        for unknown in 0..network.unknowns().len() as u32 {
            self.add_unknown(alloc, network, number, unknown)?;
        }
        Ok(())
    }

    // Adds the cut of a limit and the displacement by 1 in an unknown, where that loads it.
    fn add_unknown(
        &mut self,
        alloc: Global,
        network: &Network,
        number: u32,
        unknown: u32,
    ) -> Result<(), NoMemory>
        requires number { number < length network.now.limits }
        requires unknown { unknown < length network.now.unknowns }
        requires kept { KeepsUnitCuts network.now self.old }
        requires few { length self.old.pool < 2 ^ 31 }
        ensures grows { OnOk result (Grows network.now self.old self.new) }
        ensures has { OnOk result (HasUnitCut network.now self.new.pool number unknown) }
        ensures few { OnOk result (length self.new.pool ≤ length self.old.pool + 1) }
    {
        match unit_cut(alloc, network, number, unknown)? {
            Some(cut) => self.keep(alloc, network, cut, unknown),
            None => Ok(()),
        }
    }

    // Keeps a unit cut, where it isn't there.
    fn keep(
        &mut self,
        alloc: Global,
        network: &Network,
        cut: Cut,
        unknown: u32,
    ) -> Result<(), NoMemory>
        requires unit { IsUnitCut network.now unknown cut }
        requires kept { KeepsUnitCuts network.now self.old }
        requires few { length self.old.pool < 2 ^ 31 }
        ensures grows { OnOk result (Grows network.now self.old self.new) }
        ensures has { OnOk result (HasCover self.new.pool (cover cut)) }
        ensures few { OnOk result (length self.new.pool ≤ length self.old.pool + 1) }
    {
        let offers = offers_of(alloc, network, &cut)?;
        if self.pool.add(cut)? {
            self.unknowns.push(unknown)?;
            self.offers.push(offers)?;
        }
        Ok(())
    }
}

/// The displacement by 1 in an unknown. Refused for want of memory alone.
pub fn unit_move(alloc: Global, network: &Network, unknown: u32) -> Result<Displacement, NoMemory>
    requires { unknown < length network.now.unknowns }
    ensures { IfOk result (λ x. x ≡ unit_move (length network.now.unknowns) unknown) }
{
    let mut x = Displacement::new(alloc, network.unknowns().len() as u32)?;
    x.set(unknown, 1);
    Ok(x)
}

// Whether a limit is one of a point's axis or height.
fn is_of_point(limit: &Limit) -> bool
    ensures { result ≡ is_point_limit limit.now.kind }
{
    match limit.kind {
        LimitKind::Axis(_point) => true,
        LimitKind::Height(_point) => true,
        LimitKind::Redundancy(_candidate, _row) => false,
        LimitKind::Added(_number) => false,
    }
}

// Whether a limit is one of a point's axis or height, and has a load at a displacement.
fn is_loaded(network: &Network, number: u32, x: &Displacement) -> bool
    requires number { number < length network.now.limits }
    requires displacement { length x.now ≡ length network.now.unknowns }
    ensures { (limit : LimitOf) → slice_get network.now.limits number ≡ Some limit
        → (result ≡ true) ↔ ((is_point_limit limit.kind ≡ true) × (pos 0 <ℤ load limit.squares (at x.now))) }
{
    let limits = network.limits();
    is_of_point(&limits[number as usize]) && load(network, number, x) > 0
}

/// The cut of an axis or height limit, by its number, and of the displacement by 1 in an unknown,
/// where that loads it. Refused for want of memory alone.
pub fn unit_cut(
    alloc: Global,
    network: &Network,
    number: u32,
    unknown: u32,
) -> Result<Option<Cut>, NoMemory>
    requires number { number < length network.now.limits }
    requires unknown { unknown < length network.now.unknowns }
    ensures unit { IfOk result (λ found. IfSome found (IsUnitCut network.now unknown)) }
    ensures number { IfOk result (λ found. IfSome found (λ cut. cut.limit ≡ number)) }
    ensures none { result ≡ Ok None → (limit : LimitOf) → IsLoadedAt network.now number unknown limit → ⊥ }
{
    let x = unit_move(alloc, network, unknown)?;
    if is_loaded(network, number, &x) {
        return Ok(Some(cut_of(alloc, network, number, x)?));
    }
    Ok(None)
}
