ghost use Rattle.std.specs.Prelude.{◌≡◌, ◌+◌, ◌*◌, ◌-◌, ◌<◌, ◌≤◌, ◌++◌, codes, OnOk, IfOk};
ghost use Rattle.std.specs.Fmt.{decimal};
ghost use Rattle.gen_net.specs.Draws.{drawn};
ghost use Rattle.gen_net.specs.Fields.{field, label};
ghost use Rattle.gen_net.specs.Candidates.{candidate_line, vector_line, distance_line, direction_line, angle_line, level_line, fixed_name as name_of_fixed, vector_pair, vector_lines, drawn_distance, distance_lines, direction_lines, angle_lines, level_lines, candidates_text};

use crate::draws::Draws;
use crate::fields::{put_field, put_label};
use crate::points::POINT_DRAWS;
use geo_base::NoMemory;
use std::alloc::Global;
use text_num::put_whole;

/// What the candidates of a kind have in common: the letter of their names, the word of the kind,
/// the standard deviations as they stand in the table, and the prices, `prices` of them from
/// `least` on.
#[derive(Clone, Copy)]
struct KindTraits<'a> {
    letter: &'a [u8],
    word: &'a [u8],
    sd: &'a [u8],
    sdh: &'a [u8],
    least: u32,
    prices: u32,
}

/// The names of the points of a candidate: station, target and, for an angle, its foresight.
#[derive(Clone, Copy)]
struct PointNames<'a> {
    from: &'a [u8],
    to: &'a [u8],
    to2: &'a [u8],
}

/// The name of the fixed point that is counted from 0.
#[tactic(auto, using(std::proofs::lemmas::Fmt::decimal_digit))]
fn fixed_name(count: u32) -> &'static [u8]
    requires { count < 4 }
    ensures { result.now ≡ name_of_fixed count }
{
    match count {
        0 => b"F1",
        1 => b"F2",
        2 => b"F3",
        _ => b"F4",
    }
}

/// The name of a new point.
#[tactic(auto, using(std::proofs::lemmas::Fmt::decimal_digit))]
fn new_name(number: u32) -> &'static [u8]
    requires some { 1 ≤ number }
    requires few { number ≤ 5 }
    ensures { result.now ≡ label (codes "N") number }
{
    match number {
        1 => b"N1",
        2 => b"N2",
        3 => b"N3",
        4 => b"N4",
        _ => b"N5",
    }
}

/// Appends the names of the points of a candidate.
fn put_ends(text: &mut Vec<u8>, ends: PointNames<'_>) -> Result<(), NoMemory>
    ensures { let e = ends.entry in OnOk result (text.new.items ≡ text.old.items ++ (field e.from.now ++ (field e.to.now ++ field e.to2.now))) }
{
    put_field(text, ends.from)?;
    put_field(text, ends.to)?;
    put_field(text, ends.to2)
}

/// Appends the standard deviations of a kind.
fn put_deviations(text: &mut Vec<u8>, kind: KindTraits<'_>) -> Result<(), NoMemory>
    ensures { let k = kind.entry in OnOk result (text.new.items ≡ text.old.items ++ (field k.sd.now ++ field k.sdh.now)) }
{
    put_field(text, kind.sd)?;
    put_field(text, kind.sdh)
}

/// Appends a price and ends the line.
#[tactic(auto, unfolding(text_num::specs::Whole::whole_text))]
fn put_price(text: &mut Vec<u8>, price: u32) -> Result<(), NoMemory>
    ensures { OnOk result (text.new.items ≡ text.old.items ++ (decimal price ++ codes "\n")) }
{
    put_whole(text, i128::from(price))?;
    text.extend_from_slice(b"\n")?;
    Ok(())
}

/// Appends the line of a candidate, whose price is drawn.
fn put_line(
    text: &mut Vec<u8>,
    draws: &mut Draws,
    kind: KindTraits<'_>,
    number: u32,
    ends: PointNames<'_>,
) -> Result<(), NoMemory>
    requires some { 0 < kind.prices }
    requires cheap { kind.least + kind.prices ≤ 1000 }
    requires few { draws.old.1 ≤ 900 }
    ensures put { let k = kind.entry in let e = ends.entry in OnOk result (text.new.items ≡ text.old.items ++ candidate_line (label k.letter.now number) k.word.now e.from.now e.to.now e.to2.now k.sd.now k.sdh.now (k.least + drawn draws.old.0 draws.old.1 k.prices)) }
    ensures further { OnOk result (draws.new ≡ (draws.old.0, draws.old.1 + 1)) }
{
    put_label(text, kind.letter, number)?;
    put_field(text, kind.word)?;
    put_ends(text, ends)?;
    put_deviations(text, kind)?;
    put_price(text, kind.least + draws.draw(kind.prices))
}

/// Appends the line of a vector.
#[tactic(auto, unfolding(crate::specs::Candidates::vector_line))]
fn put_vector(
    text: &mut Vec<u8>,
    draws: &mut Draws,
    number: u32,
    from: &[u8],
    to: &[u8],
) -> Result<(), NoMemory>
    requires { draws.old.1 ≤ 900 }
    ensures put { OnOk result (text.new.items ≡ text.old.items ++ vector_line draws.old.0 draws.old.1 number from.now to.now) }
    ensures further { OnOk result (draws.new ≡ (draws.old.0, draws.old.1 + 1)) }
{
    let kind = KindTraits {
        letter: b"v",
        word: b"vector",
        sd: b"10.00",
        sdh: b"15.00",
        least: 40,
        prices: 20,
    };
    put_line(text, draws, kind, number, PointNames { from, to, to2: b"" })
}

/// Appends the line of a distance.
#[tactic(auto, unfolding(crate::specs::Candidates::distance_line))]
fn put_distance(
    text: &mut Vec<u8>,
    draws: &mut Draws,
    number: u32,
    from: &[u8],
    to: &[u8],
) -> Result<(), NoMemory>
    requires { draws.old.1 ≤ 900 }
    ensures put { OnOk result (text.new.items ≡ text.old.items ++ distance_line draws.old.0 draws.old.1 number from.now to.now) }
    ensures further { OnOk result (draws.new ≡ (draws.old.0, draws.old.1 + 1)) }
{
    let kind = KindTraits {
        letter: b"d",
        word: b"distance",
        sd: b"8.00",
        sdh: b"",
        least: 150,
        prices: 50,
    };
    put_line(text, draws, kind, number, PointNames { from, to, to2: b"" })
}

/// Appends the line of a direction.
#[tactic(auto, unfolding(crate::specs::Candidates::direction_line))]
fn put_direction(
    text: &mut Vec<u8>,
    draws: &mut Draws,
    number: u32,
    from: &[u8],
    to: &[u8],
) -> Result<(), NoMemory>
    requires { draws.old.1 ≤ 900 }
    ensures put { OnOk result (text.new.items ≡ text.old.items ++ direction_line draws.old.0 draws.old.1 number from.now to.now) }
    ensures further { OnOk result (draws.new ≡ (draws.old.0, draws.old.1 + 1)) }
{
    let kind = KindTraits {
        letter: b"r",
        word: b"direction",
        sd: b"10.00",
        sdh: b"",
        least: 150,
        prices: 50,
    };
    put_line(text, draws, kind, number, PointNames { from, to, to2: b"" })
}

/// Appends the line of an angle from `to` to `to2`.
#[tactic(auto, unfolding(crate::specs::Candidates::angle_line))]
fn put_angle(
    text: &mut Vec<u8>,
    draws: &mut Draws,
    number: u32,
    from: &[u8],
    to: &[u8],
    to2: &[u8],
) -> Result<(), NoMemory>
    requires { draws.old.1 ≤ 900 }
    ensures put { OnOk result (text.new.items ≡ text.old.items ++ angle_line draws.old.0 draws.old.1 number from.now to.now to2.now) }
    ensures further { OnOk result (draws.new ≡ (draws.old.0, draws.old.1 + 1)) }
{
    let kind = KindTraits {
        letter: b"a",
        word: b"angle",
        sd: b"15.00",
        sdh: b"",
        least: 150,
        prices: 50,
    };
    put_line(text, draws, kind, number, PointNames { from, to, to2 })
}

/// Appends the line of a level.
#[tactic(auto, unfolding(crate::specs::Candidates::level_line))]
fn put_level(
    text: &mut Vec<u8>,
    draws: &mut Draws,
    number: u32,
    from: &[u8],
    to: &[u8],
) -> Result<(), NoMemory>
    requires { draws.old.1 ≤ 900 }
    ensures put { OnOk result (text.new.items ≡ text.old.items ++ level_line draws.old.0 draws.old.1 number from.now to.now) }
    ensures further { OnOk result (draws.new ≡ (draws.old.0, draws.old.1 + 1)) }
{
    let kind = KindTraits {
        letter: b"l",
        word: b"level",
        sd: b"10.00",
        sdh: b"",
        least: 100,
        prices: 50,
    };
    put_line(text, draws, kind, number, PointNames { from, to, to2: b"" })
}

/// Appends the two vectors to a new point, from two of the fixed points.
#[tactic(auto, unfolding(crate::specs::Candidates::vector_pair))]
fn put_vector_pair(text: &mut Vec<u8>, draws: &mut Draws, number: u32) -> Result<(), NoMemory>
    requires some { 1 ≤ number }
    requires known { number ≤ 5 }
    requires few { draws.old.1 ≤ 800 }
    ensures put { OnOk result (text.new.items ≡ text.old.items ++ vector_pair draws.old.0 draws.old.1 number) }
    ensures further { OnOk result (draws.new ≡ (draws.old.0, draws.old.1 + 4)) }
{
    let first = draws.draw(4);
    let second = (first + 1 + draws.draw(3)) % 4;
    let to = new_name(number);
    put_vector(text, draws, 2 * number - 1, fixed_name(first), to)?;
    put_vector(text, draws, 2 * number, fixed_name(second), to)
}

/// Appends the vectors.
fn put_vectors(text: &mut Vec<u8>, draws: &mut Draws) -> Result<(), NoMemory>
    requires { draws.old.1 ≡ 37 }
    ensures put { OnOk result (text.new.items ≡ text.old.items ++ vector_lines draws.old.0) }
    ensures further { OnOk result (draws.new ≡ (draws.old.0, 57)) }
{
    put_vector_pair(text, draws, 1)?;
    put_vector_pair(text, draws, 2)?;
    put_vector_pair(text, draws, 3)?;
    put_vector_pair(text, draws, 4)?;
    put_vector_pair(text, draws, 5)
}

/// Appends the distance from a new point to one of the fixed points.
#[tactic(auto, unfolding(crate::specs::Candidates::drawn_distance))]
fn put_drawn_distance(text: &mut Vec<u8>, draws: &mut Draws, number: u32) -> Result<(), NoMemory>
    requires some { 1 ≤ number }
    requires known { number ≤ 5 }
    requires few { draws.old.1 ≤ 800 }
    ensures put { OnOk result (text.new.items ≡ text.old.items ++ drawn_distance draws.old.0 draws.old.1 number) }
    ensures further { OnOk result (draws.new ≡ (draws.old.0, draws.old.1 + 2)) }
{
    let to = fixed_name(draws.draw(4));
    put_distance(text, draws, number, new_name(number), to)
}

/// Appends the distances.
fn put_distances(text: &mut Vec<u8>, draws: &mut Draws) -> Result<(), NoMemory>
    requires { draws.old.1 ≡ 57 }
    ensures put { OnOk result (text.new.items ≡ text.old.items ++ distance_lines draws.old.0) }
    ensures further { OnOk result (draws.new ≡ (draws.old.0, 68)) }
{
    put_drawn_distance(text, draws, 1)?;
    put_drawn_distance(text, draws, 2)?;
    put_drawn_distance(text, draws, 3)?;
    put_drawn_distance(text, draws, 4)?;
    put_drawn_distance(text, draws, 5)?;
    put_distance(text, draws, 6, b"N1", b"N3")
}

/// Appends the directions.
fn put_directions(text: &mut Vec<u8>, draws: &mut Draws) -> Result<(), NoMemory>
    requires { draws.old.1 ≡ 68 }
    ensures put { OnOk result (text.new.items ≡ text.old.items ++ direction_lines draws.old.0) }
    ensures further { OnOk result (draws.new ≡ (draws.old.0, 72)) }
{
    put_direction(text, draws, 1, b"N2", b"F1")?;
    put_direction(text, draws, 2, b"N2", b"F4")?;
    put_direction(text, draws, 3, b"N4", b"F2")?;
    put_direction(text, draws, 4, b"N4", b"F3")
}

/// Appends the angles.
fn put_angles(text: &mut Vec<u8>, draws: &mut Draws) -> Result<(), NoMemory>
    requires { draws.old.1 ≡ 72 }
    ensures put { OnOk result (text.new.items ≡ text.old.items ++ angle_lines draws.old.0) }
    ensures further { OnOk result (draws.new ≡ (draws.old.0, 76)) }
{
    put_angle(text, draws, 1, b"N1", b"F2", b"F3")?;
    put_angle(text, draws, 2, b"N3", b"F1", b"F4")?;
    put_angle(text, draws, 3, b"N4", b"F1", b"F4")?;
    put_angle(text, draws, 4, b"N5", b"F2", b"F3")
}

/// Appends the levels.
fn put_levels(text: &mut Vec<u8>, draws: &mut Draws) -> Result<(), NoMemory>
    requires { draws.old.1 ≡ 76 }
    ensures put { OnOk result (text.new.items ≡ text.old.items ++ level_lines draws.old.0) }
    ensures further { OnOk result (draws.new ≡ (draws.old.0, 80)) }
{
    put_level(text, draws, 1, b"F1", b"N1")?;
    put_level(text, draws, 2, b"N1", b"N2")?;
    put_level(text, draws, 3, b"N2", b"N3")?;
    put_level(text, draws, 4, b"F4", b"N5")
}

/// The candidates table of a seed of at most 999999: ten vectors, six distances, four directions,
/// four angles and four levels between its points. Their draws follow those of the points.
/// Standard deviations have 2 places and are in millimetres, those of directions and angles in cc.
/// Refused for want of memory alone. The table is this project's own.
#[tactic(auto, unfolding(crate::specs::Candidates::candidates_text))]
pub fn gen_candidates(alloc: Global, seed: u32) -> Result<Vec<u8>, NoMemory>
    requires { seed ≤ 999999 }
    ensures { IfOk result (λ text. text.items ≡ candidates_text seed) }
{
    let mut draws = Draws::new(seed);
    draws.skip(POINT_DRAWS);
    let mut text = Vec::from_slice(alloc, b"name,kind,from,to,to2,sd,sdh,price\n")?;
    put_vectors(&mut text, &mut draws)?;
    put_distances(&mut text, &mut draws)?;
    put_directions(&mut text, &mut draws)?;
    put_angles(&mut text, &mut draws)?;
    put_levels(&mut text, &mut draws)?;
    Ok(text)
}
