use crate::part::Part;
use table_columns::{Name, NamedRecord};

/// A point, as a record of the table gives it.
#[derive(Debug, Drop)]
pub struct PointRecord {
    /// Its name, which no other point has.
    pub name: Name,
    /// Its approximate coordinate x in millimetres, if one is given, of at most 10^11 in size.
    pub x: Option<i64>,
    /// Its approximate coordinate y, likewise.
    pub y: Option<i64>,
    /// Its approximate height, likewise.
    pub z: Option<i64>,
    /// Its plane part: a point that has one has x and y. A limit is in tenths of a millimetre.
    pub plane: Part,
    /// Its height part: a point that has one has z. A limit is in tenths of a millimetre.
    pub height: Part,
}

impl NamedRecord for PointRecord {
    ghost name_of = { λ point. point.name };

    fn name(&self) -> &[u8] {
        self.name.bytes()
    }
}
