use crate::TriRow;
use std::marker::Model;

/// The first rows of a triangle, lent for reading: at most 64. Contracts see it as their list.
#[derive(Debug, Drop)]
pub struct Rows<'a> {
    rows: &'a [TriRow],
}

impl<'a> Model for Rows<'a> {
    ghost use Rattle.std.specs.Prelude.{List, ℤ, ◌≤◌, length};

    ghost Value = { List (List ℤ) };

    ghost view = { λ rows. rows.rows.now };

    ghost invariant = { λ rows. length rows.rows.now ≤ 64 };
}

impl<'a> Rows<'a> {
    ghost use Rattle.std.specs.Prelude.{◌≡◌, ◌<◌, ◌≤◌, length};
    ghost use Rattle.lent_parts.specs.Triangle.{tri_row};

    // The rows of a list.
    pub(crate) fn of(rows: &'a [TriRow]) -> Rows<'a>
        requires { length rows.now ≤ 64 }
        ensures { result ≡ rows.now }
    {
        Rows { rows }
    }

    /// The number of these rows.
    pub fn size(&self) -> u32
        ensures rows { result ≡ length self.now }
        ensures most { result ≤ 64 }
    {
        self.rows.len() as u32
    }

    /// Row `j`, from the diagonal on.
    pub fn row(&self, j: u32) -> &'a [i128]
        requires { j < length self.now }
        ensures { result.now ≡ tri_row self.now j }
    {
        self.rows[j as usize].entries()
    }
}
