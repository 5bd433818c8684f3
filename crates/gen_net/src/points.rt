ghost use Rattle.std.specs.Prelude.{◌≡◌, ◌+◌, ◌*◌, ◌<◌, ◌≤◌, ◌++◌, OnOk, IfOk};
ghost use Rattle.gen_net.specs.Fields.{field, metres};
ghost use Rattle.gen_net.specs.Draws.{drawn};
ghost use Rattle.gen_net.specs.Points.{place_text, fixed_line, new_line, fixed_lines, new_lines, points_text};

use crate::draws::Draws;
use crate::fields::{put_field, put_metres, put_tenths};
use geo_base::NoMemory;
use std::alloc::Global;

/// How many draws the points take.
pub const POINT_DRAWS: u32 = 37;

/// The place of a point in metres, to which less than `spread` millimetres are added.
#[derive(Clone, Copy)]
struct Place {
    x: u32,
    y: u32,
    spread: u32,
}

/// Appends a coordinate of so many metres and less than `spread` mm more.
fn put_coordinate(
    text: &mut Vec<u8>,
    draws: &mut Draws,
    m: u32,
    spread: u32,
) -> Result<(), NoMemory>
    requires m { m ≤ 5000 }
    requires some { 0 < spread }
    requires near { spread ≤ 200000 }
    requires few { draws.old.1 ≤ 1000 }
    ensures put { OnOk result (text.new.items ≡ text.old.items ++ field (metres (1000 * m + drawn draws.old.0 draws.old.1 spread))) }
    ensures further { OnOk result (draws.new ≡ (draws.old.0, draws.old.1 + 1)) }
{
    put_metres(text, 1000 * m + draws.draw(spread))
}

/// Appends the name and the coordinates of a point.
fn put_place(
    text: &mut Vec<u8>,
    draws: &mut Draws,
    name: &[u8],
    place: Place,
) -> Result<(), NoMemory>
    requires x { place.x ≤ 5000 }
    requires y { place.y ≤ 5000 }
    requires some { 0 < place.spread }
    requires near { place.spread ≤ 200000 }
    requires few { draws.old.1 ≤ 900 }
    ensures put { OnOk result (text.new.items ≡ text.old.items ++ place_text draws.old.0 draws.old.1 name.now place.x place.y place.spread) }
    ensures further { OnOk result (draws.new ≡ (draws.old.0, draws.old.1 + 3)) }
{
    put_field(text, name)?;
    put_coordinate(text, draws, place.x, place.spread)?;
    put_coordinate(text, draws, place.y, place.spread)?;
    put_coordinate(text, draws, 100, 50_000)
}

/// Appends the line of a fixed point.
#[tactic(auto, unfolding(crate::specs::Points::fixed_line))]
fn put_fixed(
    text: &mut Vec<u8>,
    draws: &mut Draws,
    name: &[u8],
    x: u32,
    y: u32,
) -> Result<(), NoMemory>
    requires x { x ≤ 5000 }
    requires y { y ≤ 5000 }
    requires few { draws.old.1 ≤ 900 }
    ensures put { OnOk result (text.new.items ≡ text.old.items ++ fixed_line draws.old.0 draws.old.1 name.now x y) }
    ensures further { OnOk result (draws.new ≡ (draws.old.0, draws.old.1 + 3)) }
{
    let place = Place {
        x,
        y,
        spread: 100_000,
    };
    put_place(text, draws, name, place)?;
    text.extend_from_slice(b"fixed,fixed\n")?;
    Ok(())
}

/// Appends the line of a new point.
#[tactic(auto, unfolding(crate::specs::Points::new_line))]
fn put_new(
    text: &mut Vec<u8>,
    draws: &mut Draws,
    name: &[u8],
    x: u32,
    y: u32,
) -> Result<(), NoMemory>
    requires x { x ≤ 5000 }
    requires y { y ≤ 5000 }
    requires few { draws.old.1 ≤ 900 }
    ensures put { OnOk result (text.new.items ≡ text.old.items ++ new_line draws.old.0 draws.old.1 name.now x y) }
    ensures further { OnOk result (draws.new ≡ (draws.old.0, draws.old.1 + 5)) }
{
    let place = Place {
        x,
        y,
        spread: 200_000,
    };
    put_place(text, draws, name, place)?;
    put_tenths(text, 75 + draws.draw(6))?;
    text.extend_from_slice(b",")?;
    put_tenths(text, 110 + draws.draw(11))?;
    text.extend_from_slice(b"\n")?;
    Ok(())
}

/// Appends the fixed points, the corners of a square of 4 km.
fn put_fixed_points(text: &mut Vec<u8>, draws: &mut Draws) -> Result<(), NoMemory>
    requires { draws.old.1 ≡ 0 }
    ensures put { OnOk result (text.new.items ≡ text.old.items ++ fixed_lines draws.old.0) }
    ensures further { OnOk result (draws.new ≡ (draws.old.0, 12)) }
{
    put_fixed(text, draws, b"F1", 1000, 1000)?;
    put_fixed(text, draws, b"F2", 1000, 5000)?;
    put_fixed(text, draws, b"F3", 5000, 1000)?;
    put_fixed(text, draws, b"F4", 5000, 5000)
}

/// Appends the new points, which lie within the square.
fn put_new_points(text: &mut Vec<u8>, draws: &mut Draws) -> Result<(), NoMemory>
    requires { draws.old.1 ≡ 12 }
    ensures put { OnOk result (text.new.items ≡ text.old.items ++ new_lines draws.old.0) }
    ensures further { OnOk result (draws.new ≡ (draws.old.0, 37)) }
{
    put_new(text, draws, b"N1", 2000, 2000)?;
    put_new(text, draws, b"N2", 2000, 4000)?;
    put_new(text, draws, b"N3", 3000, 3000)?;
    put_new(text, draws, b"N4", 4000, 2000)?;
    put_new(text, draws, b"N5", 4000, 4000)
}

/// The points table of a seed of at most 999999: four fixed points and five new ones with their
/// limits. Coordinates are in metres with 3 places, limits in millimetres with 1 place. Refused for
/// want of memory alone. The table is this project's own.
#[tactic(auto, unfolding(crate::specs::Points::points_text))]
pub fn gen_points(alloc: Global, seed: u32) -> Result<Vec<u8>, NoMemory>
    requires { seed ≤ 999999 }
    ensures { IfOk result (λ text. text.items ≡ points_text seed) }
{
    let mut draws = Draws::new(seed);
    let mut text = Vec::from_slice(alloc, b"name,x,y,z,plane,height\n")?;
    put_fixed_points(&mut text, &mut draws)?;
    put_new_points(&mut text, &mut draws)?;
    Ok(text)
}
