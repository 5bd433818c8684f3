//! The displacement that a line of a log spells, written into room that stands.
ghost use Rattle.std.specs.Prelude.{◌≡◌, ◌≤◌, ℕ, true, pos, length, replicate};
ghost use Rattle.whole_algebra.specs.Matrices.{at};
ghost use Rattle.bound_log.specs.CutText.{displaced_by};
ghost use Rattle.bound_log.specs.Rules.{is_displacement};

use bound_log::CutText;
use geo_model::Displacement;

/// The most by which an unknown moves in a line of a log.
const MOST_MOVED: u128 = 32768;

/// Writes the displacement of a cut, and says whether its pairs are one: no more than unknowns, in
/// the order of the unknowns, each by at most 32768 in size and not by 0. It takes no memory.
pub fn write_moves(x: &mut Displacement, cut: &CutText<'_>) -> bool
    requires { length x.old ≤ 64 }
    ensures are { result ≡ is_displacement (length x.old) cut.now.pairs }
    ensures written { result ≡ true → (i : ℕ) → displaced_by cut.now.pairs i ≡ at x.new i }
    ensures long { length x.new ≡ length x.old }
{
    let unknowns = x.entries().len() as u64;
    clear(x, unknowns as u32);
    if cut.count() > unknowns {
        return false;
    }
    let mut pairs = cut.pairs();
    let mut least = 0u64;
    'pairs: while let Some((unknown, by)) = pairs.next() {
        if unknown < least || unknown >= unknowns {
            return false;
        }
        if by == 0 || by.unsigned_abs() > MOST_MOVED {
            return false;
        }
        x.set(unknown as u32, by as i32);
        least = unknown + 1;
    }
    true
}

// Moves no unknown.
fn clear(x: &mut Displacement, unknowns: u32)
    requires { length x.old ≡ unknowns }
    ensures { x.new ≡ replicate unknowns (pos 0) }
{
    for i in 0..unknowns {
        x.set(i, 0);
    }
}
