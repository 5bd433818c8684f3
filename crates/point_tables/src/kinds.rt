ghost use Rattle.std.specs.Prelude.{◌≡◌};
ghost use Rattle.point_tables.specs.Columns.{shape_of};

use crate::fault::FaultKind;
use table_columns::{NameKinds, NumberKinds, Shape};

/// The kinds of fault of a name.
pub const NAME_KINDS: NameKinds<FaultKind> = NameKinds {
    name: FaultKind::Name,
    twice: FaultKind::Twice,
};

/// The kinds of fault of a number.
pub const NUMBER_KINDS: NumberKinds<FaultKind> = NumberKinds {
    number: FaultKind::Number,
    range: FaultKind::Range,
};

impl FaultKind {
    /// What is asked of a record whose number is at most `most` and which has so many fields.
    pub fn shape(most: u16, fields: usize) -> Shape<FaultKind>
        ensures { result ≡ shape_of most fields }
    {
        Shape {
            most,
            fields,
            header: FaultKind::Header,
            too_many: FaultKind::TooMany,
            other_fields: FaultKind::Fields,
            not_utf8: FaultKind::Utf8,
        }
    }
}
