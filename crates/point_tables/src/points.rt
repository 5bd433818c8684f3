ghost use Rattle.std.specs.Prelude.{◌≡◌, ◌↔◌, ◌≢◌, ◌<◌, ◌≤◌, ◌^◌, ℕ, length, Some, IsNone, slice_get, unsigned_abs};
ghost use Rattle.point_tables.specs.Accepted.{ArePoints, IsAccepted};
ghost use Rattle.point_tables.specs.Coordinates.{x_at, y_at};
ghost use Rattle.point_tables.specs.Names.{place_of};
ghost use Rattle.point_tables.specs.PointTable.{point_names};

use crate::record::PointRecord;
use std::marker::Model;
use table_columns::NamedRecords;

/// The points of an accepted table, in its order. Contracts see them as the list of their records.
#[derive(Drop)]
pub struct Points {
    records: NamedRecords<PointRecord>,
}

impl Model for Points {
    ghost use Rattle.std.specs.Prelude.{List};
    ghost use Rattle.point_tables.specs.declared.record.PointRecord.{PointRecord};
    ghost use Rattle.point_tables.specs.Accepted.{ArePoints};

    ghost Value = { List PointRecord };

    ghost view = { λ points. points.records };

    ghost invariant = { λ points. ArePoints points.records };
}

impl Points {
    // The points that these records are.
    pub(crate) fn of(records: NamedRecords<PointRecord>) -> Points
        requires { ArePoints records }
        ensures { result ≡ records }
    {
        Points { records }
    }

    /// How many points there are.
    pub fn len(&self) -> u32
        ensures value { result ≡ length self.now }
        ensures few { result ≤ 1000 }
    {
        self.records.len()
    }

    /// Point `k`, counted from 0.
    pub fn get(&self, k: u32) -> &PointRecord
        requires { k < length self.now }
        ensures value { slice_get self.now k ≡ Some result.now }
        ensures accepted { IsAccepted result.now }
    {
        self.records.get(k)
    }

    /// The coordinate x of point `k` in millimetres, and 0 where it has none.
    pub fn x(&self, k: u32) -> i64
        requires { k < length self.now }
        ensures value { result ≡ x_at self.now k }
        ensures size { unsigned_abs result ≤ 10 ^ 11 }
    {
        self.get(k).x.unwrap_or(0)
    }

    /// The coordinate y of point `k` in millimetres, and 0 where it has none.
    pub fn y(&self, k: u32) -> i64
        requires { k < length self.now }
        ensures value { result ≡ y_at self.now k }
        ensures size { unsigned_abs result ≤ 10 ^ 11 }
    {
        self.get(k).y.unwrap_or(0)
    }

    /// The number of the point of this name, counted from 0. None where no point has it.
    pub fn find(&self, name: &[u8]) -> Option<u32>
        ensures place { result ≡ place_of name.now (point_names self.now) }
        ensures found { (k : ℕ) → (result ≡ Some k) ↔ (slice_get (point_names self.now) k ≡ Some name.now) }
        ensures none { IsNone result ↔ ((k : ℕ) → slice_get (point_names self.now) k ≢ Some name.now) }
    {
        self.records.find(name)
    }
}
