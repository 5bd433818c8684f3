ghost use Rattle.std.specs.Prelude.{◌↔◌, IsTrue};
ghost use Rattle.psd_cert.specs.Sizes.{RowFits, Fits};

use chain_step::PIVOT_SIZE;
use lent_parts::Tri;

/// Whether all entries are at most `2^61` in size.
pub fn fits(first: &Tri) -> bool
    ensures { IsTrue result ↔ Fits first.now }
{
    for k in 0..first.size() {
        if !row_fits(first.row(k)) {
            return false;
        }
    }
    true
}

// Whether all numbers of a row are at most `2^61` in size.
fn row_fits(row: &[i128]) -> bool
    ensures { IsTrue result ↔ RowFits row.now }
{
    row.iter().all(|z| z.unsigned_abs() <= PIVOT_SIZE as u128)
}
