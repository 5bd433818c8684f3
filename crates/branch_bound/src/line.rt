//! The lines that the search writes.
ghost use Rattle.std.specs.Prelude.{◌≡◌, ◌<◌, ◌∷◌, ◌++◌, [], Some, length, map, All, OnOk, IfOk, IfErr};
ghost use Rattle.bound_log.specs.DualText.{texts_of_shares};
ghost use Rattle.bound_log.specs.Meanings.{found_share, found_use};
ghost use Rattle.bound_log.specs.UseText.{uses_of};
ghost use Rattle.bound_log.specs.declared.log_leaf.LogLeaf.TheVariants as log_leaf;
ghost use Rattle.bound_log.specs.declared.log_line.LogLine.TheVariants as log_line;
ghost use Rattle.branch_bound.specs.Cuts.{AreCutsFor, IsDualWritable, IsUnitWritable, IsWritable, log_line_of, named_cuts, unit_text};
ghost use Rattle.branch_bound.specs.Explored.{AddsText, BreaksText};
ghost use Rattle.branch_bound.specs.Naming.{text_at};
ghost use Rattle.branch_bound.specs.Spelled.{PutsLine, PutsNames};

use crate::cuts::Cuts;
use crate::node_line::NodeLine;
use crate::search_fault::SearchFault;
use bound_log::{put_cost, put_dual2, put_pivot, put_split, put_use};
use cut_pool::Share;
use dual_ascent::Dual;
use geo_base::NoMemory;
use geo_model::Network;
use idle_splits::UnitShare;
use shelf_io::{Shelf, WriteAnswer};
use std::alloc::Global;

/// Appends the line of a leaf whose cut has this number in the pool, and its name before it.
fn put_cut(
    network: &Network,
    out: &mut Vec<u8>,
    cuts: &mut Cuts,
    number: u32,
) -> Result<(), NoMemory>
    requires cuts { AreCutsFor network.now cuts.old }
    requires number { number < length cuts.old.pool }
    ensures put { OnOk result (PutsLine (named_cuts cuts.old) out.old.items out.new.items (log_line.Leaf (log_leaf.Cut (text_at cuts.old.pool number))) (named_cuts cuts.new)) }
    ensures cuts { OnOk result (AreCutsFor network.now cuts.new) }
    ensures pool { cuts.new.pool ≡ cuts.old.pool }
{
    let name = cuts.name(network, out, number)?;
    put_use(out, name)?;
    Ok(())
}

/// Appends the line of a dual bound of one share of a unit cut, and the cut's name before it.
fn put_unit_dual(
    alloc: Global,
    network: &Network,
    out: &mut Vec<u8>,
    cuts: &mut Cuts,
    share: UnitShare,
) -> Result<(), NoMemory>
    requires cuts { AreCutsFor network.now cuts.old }
    requires share { IsUnitWritable network.now cuts.old.pool share }
    ensures put { OnOk result (PutsLine (named_cuts cuts.old) out.old.items out.new.items (log_line.Leaf (log_leaf.Dual share.d (unit_text share ∷ []))) (named_cuts cuts.new)) }
    ensures cuts { OnOk result (AreCutsFor network.now cuts.new) }
    ensures pool { cuts.new.pool ≡ cuts.old.pool }
{
    let number = cuts.unit_number(alloc, network, share.limit, share.unknown)?;
    let name = cuts.name(network, out, number)?;
    let shares = [Share {
        y: share.y,
        cut: name,
    }];
    put_dual2(out, share.d, &shares)?;
    Ok(())
}

/// The shares of a dual bound with the names of their cuts. Appends the names that are new.
fn named_shares(
    alloc: Global,
    network: &Network,
    out: &mut Vec<u8>,
    cuts: &mut Cuts,
    dual: &Dual,
) -> Result<Vec<Share>, NoMemory>
    requires cuts { AreCutsFor network.now cuts.old }
    requires dual { IsDualWritable cuts.old.pool dual.now }
    ensures names { OnOk result (PutsNames (named_cuts cuts.old) out.old.items out.new.items (named_cuts cuts.new)) }
    ensures uses { IfOk result (λ shares. map (found_use (named_cuts cuts.new)) (uses_of shares.items) ≡ map found_share (texts_of_shares cuts.old.pool dual.now.shares.items)) }
    ensures cuts { OnOk result (AreCutsFor network.now cuts.new) }
    ensures pool { cuts.new.pool ≡ cuts.old.pool }
{
    let mut shares = Vec::new(alloc);
    for share in dual.shares.as_slice() {
        let name = cuts.name(network, out, share.cut)?;
        shares.push(Share {
            y: share.y,
            cut: name,
        })?;
    }
    Ok(shares)
}

/// Appends the line of a dual bound of shares of cuts of the pool, and their new names before it.
fn put_named_dual(
    alloc: Global,
    network: &Network,
    out: &mut Vec<u8>,
    cuts: &mut Cuts,
    dual: &Dual,
) -> Result<(), NoMemory>
    requires cuts { AreCutsFor network.now cuts.old }
    requires dual { IsDualWritable cuts.old.pool dual.now }
    ensures put { OnOk result (PutsLine (named_cuts cuts.old) out.old.items out.new.items (log_line.Leaf (log_leaf.Dual dual.now.d (texts_of_shares cuts.old.pool dual.now.shares.items))) (named_cuts cuts.new)) }
    ensures cuts { OnOk result (AreCutsFor network.now cuts.new) }
    ensures pool { cuts.new.pool ≡ cuts.old.pool }
{
    let shares = named_shares(alloc, network, out, cuts, dual)?;
    put_dual2(out, dual.d, shares.as_slice())?;
    Ok(())
}

/// Appends the line of a node, and before it the lines that name its cuts, where they have no name
/// yet.
pub fn put_line_of(
    alloc: Global,
    network: &Network,
    out: &mut Vec<u8>,
    cuts: &mut Cuts,
    line: &NodeLine,
) -> Result<(), NoMemory>
    requires cuts { AreCutsFor network.now cuts.old }
    requires line { IsWritable network.now cuts.old.pool line.now }
    ensures put { OnOk result (PutsLine (named_cuts cuts.old) out.old.items out.new.items (log_line_of cuts.old.pool line.now) (named_cuts cuts.new)) }
    ensures cuts { OnOk result (AreCutsFor network.now cuts.new) }
    ensures pool { cuts.new.pool ≡ cuts.old.pool }
{
    match line {
        NodeLine::Split(candidate) => put_split(out, *candidate),
        NodeLine::Cost => put_cost(out),
        NodeLine::Pivot(limit) => put_pivot(out, *limit),
        NodeLine::Cut(number) => put_cut(network, out, cuts, *number),
        NodeLine::UnitDual(share) => put_unit_dual(alloc, network, out, cuts, *share),
        NodeLine::Dual(dual) => put_named_dual(alloc, network, out, cuts, dual),
    }
}

/// Appends a piece under the started name.
pub fn write_piece<H: Shelf>(shelf: &mut H, name: &str, piece: &[u8]) -> Result<(), SearchFault>
    requires { (H.state shelf.old).started ≡ Some name.now }
    ensures added { OnOk result (AddsText name.now piece.now (H.state shelf.old) (H.state shelf.new)) }
    ensures refused { IfErr result (λ why. BreaksText name.now piece.now why (H.state shelf.old) (H.state shelf.new)) }
{
    match shelf.append(name, piece) {
        Ok(()) => Ok(()),
        Err(WriteAnswer::Failed) => Err(SearchFault::WriteFault),
        Err(WriteAnswer::NoMemory) => Err(SearchFault::NoMemory),
    }
}
