ghost use Rattle.std.specs.Prelude.{◌≡◌, ◌^◌, ◌<◌, ◌≤◌, length, sum_by, All, IfOk, OnOk, None};
ghost use Rattle.geo_model.specs.Network.{IsNetwork};
ghost use Rattle.point_tables.specs.Accepted.{IsAccepted};
ghost use Rattle.point_tables.specs.declared.fault.TableName.TheVariants as table;
ghost use Rattle.point_tables.specs.Columns.{Answers};
ghost use Rattle.candidate_tables.specs.Accepted.{AreCandidates};
ghost use Rattle.design_rows.specs.Unknowns.{unknowns_of};
ghost use Rattle.net_build.specs.Build.{limits_of, network_fault, network_of};

use crate::candidates::candidates_of;
use crate::counts::{count_rows, fault_of};
use crate::point_limits::point_limits;
use crate::redundancy::push_redundancies;
use candidate_tables::Candidates;
use design_rows::Columns;
use geo_base::NoMemory;
use geo_model::{Candidate, Limit, Network};
use point_tables::{Points, TableAnswer, TableFault, TableName};
use std::alloc::Global;

// The limits: those of the points, which are accepted, and then, where `q` is not 0, those of the
// candidates.
fn limits_of(
    alloc: Global,
    points: &Points,
    columns: &Columns,
    candidates: &[Candidate],
    q: u32,
) -> Result<Vec<Limit>, NoMemory>
    requires few { length candidates.now < 2 ^ 32 }
    requires rows { sum_by (λ candidate. length candidate.rows) candidates.now < 2 ^ 32 }
    requires redundancy { q ≤ 999 }
    ensures limits { IfOk result (λ limits. limits.items ≡ limits_of q points.now columns.now candidates.now) }
    ensures accepted { OnOk result (All IsAccepted points.now) }
{
    let mut limits = point_limits(alloc, points, columns)?;
    if q == 0 {
        return Ok(limits);
    }
    push_redundancies(&mut limits, alloc, q, candidates)?;
    Ok(limits)
}

// The network of tables that have no network fault.
fn network_of(
    alloc: Global,
    points: &Points,
    candidates: &Candidates,
    columns: &Columns,
    q: u32,
) -> Result<Network, NoMemory>
    requires numbered { columns.now ≡ unknowns_of points.now candidates.now }
    requires accepted { AreCandidates points.now candidates.now }
    requires small { network_fault points.now candidates.now ≡ None }
    requires redundancy { q ≤ 999 }
    ensures network { IfOk result (λ network. network ≡ network_of points.now candidates.now q) }
    ensures bounds { IfOk result IsNetwork }
    ensures few { IfOk result (λ network. length network.limits ≤ 576) }
{
    let built = candidates_of(alloc, points, candidates, columns)?;
    let limits = limits_of(alloc, points, columns, built.as_slice(), q)?;
    let unknowns = Vec::from_slice(alloc, columns.unknowns())?;
    Ok(Network::new(unknowns, built, limits))
}

/// Makes the network of these points and candidates, with the limits of the new points and, where
/// `q` is not 0, a limit of `q` thousandths on the redundancy of each row, which is in force where
/// its candidate is chosen. Coordinates are counted in millimetres and orientations in cc. A
/// point's limits, in tenths of a millimetre, are on the semi-major axis of its standard ellipse and
/// on the standard deviation of its height, with a variance factor of 1, as any textbook of
/// adjustment has them; the form of each limit is this project's own. The answer is a fault of the
/// network exactly where there are more than 64 unknowns, or else more than 512 rows; its number is
/// their count. Otherwise it is refused for want of memory alone. So a network has at most 576
/// limits. The candidates were read against these points.
pub fn build(
    alloc: Global,
    points: &Points,
    candidates: &Candidates,
    q: u32,
) -> Result<Network, TableAnswer>
    requires redundancy { q ≤ 999 }
    requires accepted { AreCandidates points.now candidates.now }
    ensures answer { Answers table.Network (network_fault points.now candidates.now) (network_of points.now candidates.now q) result }
    ensures bounds { IfOk result IsNetwork }
    ensures few { IfOk result (λ network. length network.limits ≤ 576) }
{
    let columns = match Columns::number(alloc, points, candidates) {
        Ok(columns) => columns,
        Err(_) => return Err(TableAnswer::NoMemory),
    };
    let unknowns = columns.unknowns().len() as u32;
    if let Some((number, kind)) = fault_of(unknowns, count_rows(candidates)) {
        return Err(TableAnswer::Fault(TableFault {
            table: TableName::Network,
            number,
            kind,
        }));
    }
    match network_of(alloc, points, candidates, &columns, q) {
        Ok(network) => Ok(network),
        Err(_) => Err(TableAnswer::NoMemory),
    }
}
