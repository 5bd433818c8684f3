ghost use Rattle.std.specs.Prelude.{◌≡◌};

use std::marker::Model;

/// A weighted row of the design matrix: entries of column and coefficient, columns ascending, and
/// a weight from 1 to 1000000. Contracts see it as a record of the two.
#[derive(Debug, Drop)]
pub struct Row {
    entries: Vec<(u32, i64)>,
    weight: i64,
}

impl Model for Row {
    ghost use Rattle.geo_model.specs.Row.{RowOf, IsRow};

    ghost Value = { RowOf };

    ghost view = { λ row. record { entries = row.entries.items; weight = row.weight } };

    ghost invariant = { λ row. IsRow (record { entries = row.entries.items; weight = row.weight }) };
}

impl Row {
    ghost use Rattle.geo_model.specs.Row.{IsRow};

    /// The row of these entries and this weight. It takes no memory.
    ///
    /// There are at most 6 entries, columns ascend, no coefficient is 0, each is below 2^21 in size
    /// and all sizes together are below 2^23. The weight is from 1 to 1000000.
    pub fn new(entries: Vec<(u32, i64)>, weight: i64) -> Row
        requires { IsRow (record { entries = entries.items; weight = weight }) }
        ensures { result ≡ record { entries = entries.items; weight = weight } }
    {
        Row { entries, weight }
    }

    /// The entries: each a column and its coefficient.
    pub fn entries(&self) -> &[(u32, i64)]
        ensures { result.now ≡ self.now.entries }
    {
        self.entries.as_slice()
    }

    /// The weight, from 1 to 1000000.
    pub fn weight(&self) -> i64
        ensures { result ≡ self.now.weight }
    {
        self.weight
    }
}
