//! The lines of the axes and heights of new points.
ghost use Rattle.std.specs.Prelude.{◌≡◌, ◌+◌, ◌++◌, ◌<◌, ◌≤◌, Some, length, slice_get, pos, IfOk, OnOk};
ghost use Rattle.text_num.specs.DecimalText.{decimal_text};
ghost use Rattle.point_tables.specs.Accepted.{IsAccepted, IsPart};
ghost use Rattle.net_build.specs.Build.{limits_of_part, limits_of_point};
ghost use Rattle.pivot_chain.specs.Room.{IsRoomOf};
ghost use Rattle.plan_report.specs.Reported.{IsReported, StandFrom};
ghost use Rattle.plan_report.specs.ReportText.{values_text, length_text, part_text, point_lines};
ghost use Rattle.plan_report.specs.RowsText.{numbered};
ghost use Rattle.plan_report.specs.Shown.{length_limit, limited_part};

use crate::length_kind::LengthKind;
use crate::reported::Reported;
use crate::shown::shown_length;
use geo_base::NoMemory;
use pivot_chain::ChainRoom;
use point_tables::{Name, Part, PointRecord};
use text_num::put_decimal;

// Appends a number of units of the last place.
fn put_units(text: &mut Vec<u8>, value: u32, places: u32) -> Result<(), NoMemory>
    requires { places ≤ 3 }
    ensures { OnOk result (text.new.items ≡ text.old.items ++ decimal_text (pos value) places) }
{
    put_decimal(text, i64::from(value), places)
}

/// Appends what is shown, and the limit, and ends the line.
pub(crate) fn put_values(
    text: &mut Vec<u8>,
    places: u32,
    shown: u32,
    limit: u32,
) -> Result<(), NoMemory>
    requires { places ≤ 3 }
    ensures { OnOk result (text.new.items ≡ text.old.items ++ values_text places shown limit) }
{
    text.extend_from_slice(b",")?;
    put_units(text, shown, places)?;
    text.extend_from_slice(b",")?;
    put_units(text, limit, places)?;
    text.extend_from_slice(b"\n")?;
    Ok(())
}

// Appends the line of an axis or a height.
fn put_length(
    text: &mut Vec<u8>,
    kind: LengthKind,
    name: &Name,
    shown: u32,
    limit: u32,
) -> Result<(), NoMemory>
    ensures { OnOk result (text.new.items ≡ text.old.items ++ length_text kind name.now shown limit) }
{
    text.extend_from_slice(kind.word())?;
    text.extend_from_slice(name.bytes())?;
    put_values(text, 1, shown, limit)
}

// Appends the line of a part of a point, where it is new, and answers the number of the next limit.
fn put_part(
    text: &mut Vec<u8>,
    room: &mut ChainRoom,
    reported: &Reported<'_>,
    kind: LengthKind,
    place: u32,
    point: &PointRecord,
    number: u32,
) -> Result<u32, NoMemory>
    requires reported { IsReported reported.now }
    requires room { IsRoomOf reported.now.network.now room.old }
    requires bounds { IsPart (limited_part kind point.now) }
    requires number { StandFrom reported.now.network.now.limits number (limits_of_part (length_limit kind reported.now.network.now.unknowns place) (limited_part kind point.now)) }
    ensures text { OnOk result (text.new.items ≡ text.old.items ++ part_text reported.now.network.now reported.now.plan.now kind place point.now.name (limited_part kind point.now)) }
    ensures next { IfOk result (λ next. next ≡ number + length (limits_of_part (length_limit kind reported.now.network.now.unknowns place) (limited_part kind point.now))) }
    ensures room { IsRoomOf reported.now.network.now room.new }
{
    let network = reported.network;
    // The network's bounds, for the proof.
    let _bounds = network.candidates();
    let Part::New(limit) = kind.part(point) else {
        return Ok(number);
    };
    let shown = shown_length(room, network, reported.plan, number, limit);
    put_length(text, kind, &point.name, shown, limit)?;
    Ok(number + 1)
}

// Appends the lines of a point, and answers the number of the next limit.
fn put_point(
    text: &mut Vec<u8>,
    room: &mut ChainRoom,
    reported: &Reported<'_>,
    place: u32,
    point: &PointRecord,
    number: u32,
) -> Result<u32, NoMemory>
    requires reported { IsReported reported.now }
    requires room { IsRoomOf reported.now.network.now room.old }
    requires accepted { IsAccepted point.now }
    requires number { StandFrom reported.now.network.now.limits number (limits_of_point reported.now.network.now.unknowns (place, point.now)) }
    ensures text { OnOk result (text.new.items ≡ text.old.items ++ point_lines reported.now.network.now reported.now.plan.now place point.now) }
    ensures next { IfOk result (λ next. next ≡ number + length (limits_of_point reported.now.network.now.unknowns (place, point.now))) }
    ensures room { IsRoomOf reported.now.network.now room.new }
{
    let next = put_part(text, room, reported, LengthKind::Axis, place, point, number)?;
    let last = put_part(text, room, reported, LengthKind::Height, place, point, next)?;
    Ok(last)
}

/// Appends the lines of the axes and heights of new points, in the order of the points.
pub(crate) fn put_points(
    text: &mut Vec<u8>,
    room: &mut ChainRoom,
    reported: &Reported<'_>,
) -> Result<(), NoMemory>
    requires reported { IsReported reported.now }
    requires room { IsRoomOf reported.now.network.now room.old }
    ensures text { OnOk result (text.new.items ≡ text.old.items ++ numbered (point_lines reported.now.network.now reported.now.plan.now) 0 reported.now.points.now) }
    ensures room { IsRoomOf reported.now.network.now room.new }
{
    let points = reported.points;
    let mut number = 0;
    'points: for place in 0..points.len() {
        number = put_point(text, room, reported, place, points.get(place), number)?;
    }
    Ok(())
}
