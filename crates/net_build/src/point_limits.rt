//! The limits of new points: on the semi-major axes of their standard ellipses, and on the standard
//! deviations of their heights, both with a variance factor of 1.
ghost use Rattle.std.specs.Prelude.{◌≡◌, ◌≤◌, ◌++◌, All, IfOk, OnOk};
ghost use Rattle.point_tables.specs.Accepted.{IsAccepted, IsPart};
ghost use Rattle.net_build.specs.Build.{axis_limit, height_limit, limits_of_part, limits_of_point, point_limits, square_on};

use design_rows::Columns;
use geo_base::NoMemory;
use geo_model::{Component, Limit, LimitKind, Square, Unknown};
use point_tables::{Part, PointRecord, Points};
use std::alloc::Global;

// The factor of the square of an unknown: with it, and the scales of coefficients and weights, a limit
// is in tenths of a millimetre.
const SQUARE_FACTOR: i128 = 100_000_000_000_000;

// 10^14 times the square of a component of a point.
fn square_on(
    alloc: Global,
    columns: &Columns,
    point: u32,
    component: Component,
) -> Result<Square, NoMemory>
    ensures { IfOk result (λ square. square ≡ square_on columns.now (record { point = point; component = component })) }
{
    let mut entries = Vec::new(alloc);
    if let Some(column) = columns.find(Unknown { point, component }) {
        entries.push((column, 1))?;
    }
    Ok(Square {
        beta: SQUARE_FACTOR,
        entries,
    })
}

// The limit on the semi-major axis of a point's standard ellipse (with a variance factor of 1), in
// tenths of a millimetre.
fn axis_limit(alloc: Global, columns: &Columns, point: u32, tenths: u32) -> Result<Limit, NoMemory>
    requires { tenths ≤ 1000 }
    ensures { IfOk result (λ limit. limit ≡ axis_limit columns.now point tenths) }
{
    let mut squares = Vec::new(alloc);
    squares.push(square_on(alloc, columns, point, Component::X)?)?;
    squares.push(square_on(alloc, columns, point, Component::Y)?)?;
    let tenths = tenths as i64;
    Ok(Limit {
        kind: LimitKind::Axis(point),
        owner: None,
        alpha: tenths * tenths,
        squares,
    })
}

// The limit on the standard deviation of a point's height, in tenths of a millimetre.
fn height_limit(
    alloc: Global,
    columns: &Columns,
    point: u32,
    tenths: u32,
) -> Result<Limit, NoMemory>
    requires { tenths ≤ 1000 }
    ensures { IfOk result (λ limit. limit ≡ height_limit columns.now point tenths) }
{
    let mut squares = Vec::new(alloc);
    squares.push(square_on(alloc, columns, point, Component::Z)?)?;
    let tenths = tenths as i64;
    Ok(Limit {
        kind: LimitKind::Height(point),
        owner: None,
        alpha: tenths * tenths,
        squares,
    })
}

// Adds the limit on the semi-major axis of a point, if its plane part is new.
fn push_axis(
    limits: &mut Vec<Limit>,
    alloc: Global,
    columns: &Columns,
    place: u32,
    plane: Part,
) -> Result<(), NoMemory>
    requires { IsPart plane }
    ensures { OnOk result (limits.new.items ≡ limits.old.items ++ limits_of_part (axis_limit columns.now place) plane) }
{
    if let Part::New(tenths) = plane {
        limits.push(axis_limit(alloc, columns, place, tenths)?)?;
    }
    Ok(())
}

// Adds the limit on a point's height, if its height part is new.
fn push_height(
    limits: &mut Vec<Limit>,
    alloc: Global,
    columns: &Columns,
    place: u32,
    height: Part,
) -> Result<(), NoMemory>
    requires { IsPart height }
    ensures { OnOk result (limits.new.items ≡ limits.old.items ++ limits_of_part (height_limit columns.now place) height) }
{
    if let Part::New(tenths) = height {
        limits.push(height_limit(alloc, columns, place, tenths)?)?;
    }
    Ok(())
}

// Adds the limits of a point.
fn push_limits(
    limits: &mut Vec<Limit>,
    alloc: Global,
    columns: &Columns,
    place: u32,
    point: &PointRecord,
) -> Result<(), NoMemory>
    requires { IsAccepted point.now }
    ensures { OnOk result (limits.new.items ≡ limits.old.items ++ limits_of_point columns.now (place, point.now)) }
{
    push_axis(limits, alloc, columns, place, point.plane)?;
    push_height(limits, alloc, columns, place, point.height)?;
    Ok(())
}

// The limits of the points, in their order, all of which are accepted.
pub(crate) fn point_limits(
    alloc: Global,
    points: &Points,
    columns: &Columns,
) -> Result<Vec<Limit>, NoMemory>
    ensures limits { IfOk result (λ limits. limits.items ≡ point_limits points.now columns.now) }
    ensures accepted { OnOk result (All IsAccepted points.now) }
{
    let mut limits = Vec::new(alloc);
    'points: for place in 0..points.len() {
        push_limits(&mut limits, alloc, columns, place, points.get(place))?;
    }
    Ok(limits)
}
