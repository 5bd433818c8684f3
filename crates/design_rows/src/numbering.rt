//! The unknowns in the order of their numbers.
ghost use Rattle.std.specs.Prelude.{◌≡◌, ◌≤◌, ◌++◌, length, IfOk, OnOk};
ghost use Rattle.std.specs.List.{enumerate_from, flat_map};
ghost use Rattle.point_tables.specs.declared.record.PointRecord.{PointRecord};
ghost use Rattle.design_rows.specs.Unknowns.{coordinates, height_coordinates, is_oriented, orientation, plane_coordinates, turns_with};

use candidate_tables::{CandidateRecord, Candidates};
use geo_base::NoMemory;
use geo_model::{Component, Unknown};
use point_tables::{Part, PointRecord, Points};
use std::alloc::Global;

// Adds x and y of a point where its plane part is new.
fn push_plane(unknowns: &mut Vec<Unknown>, point: u32, plane: Part) -> Result<(), NoMemory>
    ensures { OnOk result (unknowns.new.items ≡ unknowns.old.items ++ plane_coordinates point plane) }
{
    if let Part::New(_) = plane {
        unknowns.push(Unknown {
            point,
            component: Component::X,
        })?;
        unknowns.push(Unknown {
            point,
            component: Component::Y,
        })?;
    }
    Ok(())
}

// Adds z of a point where its height part is new.
fn push_height(unknowns: &mut Vec<Unknown>, point: u32, height: Part) -> Result<(), NoMemory>
    ensures { OnOk result (unknowns.new.items ≡ unknowns.old.items ++ height_coordinates point height) }
{
    if let Part::New(_) = height {
        unknowns.push(Unknown {
            point,
            component: Component::Z,
        })?;
    }
    Ok(())
}

// Adds the unknown coordinates of a point.
fn push_coordinates(
    unknowns: &mut Vec<Unknown>,
    place: u32,
    point: &PointRecord,
) -> Result<(), NoMemory>
    ensures { OnOk result (unknowns.new.items ≡ unknowns.old.items ++ coordinates (place, point.now)) }
{
    push_plane(unknowns, place, point.plane)?;
    push_height(unknowns, place, point.height)?;
    Ok(())
}

// The unknown coordinates of all points.
pub(crate) fn coordinates_of(alloc: Global, points: &Points) -> Result<Vec<Unknown>, NoMemory>
    ensures value { IfOk result (λ unknowns. unknowns.items ≡ flat_map coordinates (enumerate_from 0 points.now)) }
    ensures few { length points.now ≤ 1000 }
{
    let mut unknowns = Vec::new(alloc);
    for place in 0..points.len() {
        push_coordinates(&mut unknowns, place, points.get(place))?;
    }
    Ok(unknowns)
}

// Whether a candidate is observed against the orientation of a point.
fn turns_with(place: u32, candidate: &CandidateRecord) -> bool
    ensures { result ≡ turns_with place candidate.now }
{
    candidate.kind.rules().has_orientation && candidate.from == place
}

// Whether a point has an orientation.
fn is_oriented(candidates: &Candidates, place: u32) -> bool
    ensures { result ≡ is_oriented candidates.now place }
{
    for k in 0..candidates.len() {
        if turns_with(place, candidates.get(k)) {
            return true;
        }
    }
    false
}

// Adds the unknown orientation of a point, if it has one.
fn push_orientation(
    unknowns: &mut Vec<Unknown>,
    candidates: &Candidates,
    place: u32,
) -> Result<(), NoMemory>
    ensures { OnOk result ((point : PointRecord) → unknowns.new.items ≡ unknowns.old.items ++ orientation candidates.now (place, point)) }
{
    if is_oriented(candidates, place) {
        unknowns.push(Unknown {
            point: place,
            component: Component::Turn,
        })?;
    }
    Ok(())
}

// Adds the orientations of all stations.
pub(crate) fn push_orientations(
    unknowns: &mut Vec<Unknown>,
    points: &Points,
    candidates: &Candidates,
) -> Result<(), NoMemory>
    ensures { OnOk result (unknowns.new.items ≡ unknowns.old.items ++ flat_map (orientation candidates.now) (enumerate_from 0 points.now)) }
{
    for place in 0..points.len() {
        push_orientation(unknowns, candidates, place)?;
    }
    Ok(())
}
