use table_columns::{Name, NamedRecord};

/// What setting up an instrument at a point costs, as a record of the table gives it.
#[derive(Debug, Drop)]
pub struct StationRecord {
    /// The name of the point, which no other record has.
    pub name: Name,
    /// The number of the point in the points table, counted from 0.
    pub point: u32,
    /// The price, a whole number up to 1000000000 in the office's own unit.
    pub price: u64,
}

impl NamedRecord for StationRecord {
    ghost name_of = { λ station. station.name };

    fn name(&self) -> &[u8] {
        self.name.bytes()
    }
}
