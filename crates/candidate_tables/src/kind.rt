ghost use Rattle.std.specs.Prelude.{◌≡◌};
ghost use Rattle.std.specs.Str.{bytes_eq};
ghost use Rattle.table_columns.specs.Read.{Reads};
ghost use Rattle.candidate_tables.specs.CandidateTable.{kind_rules};
ghost use Rattle.candidate_tables.specs.Read.{IsKindOf};
ghost use Rattle.candidate_tables.specs.Kinds.{kind_named, rules_of};

use crate::kind_rules::{KindRules, LineBounds};
use point_tables::FaultKind;

/// What a candidate observes.
#[derive(Clone, Copy, Debug, PartialEq, Eq)]
pub enum Kind {
    /// The length of a line.
    Distance,
    /// The bearing of a line, against the station's orientation.
    Direction,
    /// The turn at a vertex from a backsight to a foresight.
    Angle,
    /// The difference of two heights.
    Level,
    /// The three differences of two points' coordinates.
    Vector,
}

// The largest square of the length of a line, in square millimetres: that of 100 km.
const MOST_SQUARE: u128 = 10_000_000_000_000_000;

// The bounds of lines of at least 1 m.
const FROM_1_M: Option<LineBounds> = Some(LineBounds {
    least: 1_000_000,
    greatest: MOST_SQUARE,
});

// The bounds of lines of at least 10 m.
const FROM_10_M: Option<LineBounds> = Some(LineBounds {
    least: 100_000_000,
    greatest: MOST_SQUARE,
});

// The rules of a kind of one row that names two points and asks nothing of them.
const PLAIN: KindRules = KindRules {
    word: "",
    has_foresight: false,
    has_height_deviation: false,
    needs_plane: false,
    needs_height: false,
    line: None,
    rows: 1,
    has_orientation: false,
    occupies_station: false,
};

const DISTANCE: KindRules = KindRules {
    word: "distance",
    needs_plane: true,
    line: FROM_1_M,
    occupies_station: true,
    ..PLAIN
};

const DIRECTION: KindRules = KindRules {
    word: "direction",
    needs_plane: true,
    line: FROM_10_M,
    has_orientation: true,
    occupies_station: true,
    ..PLAIN
};

const ANGLE: KindRules = KindRules {
    word: "angle",
    has_foresight: true,
    needs_plane: true,
    line: FROM_10_M,
    occupies_station: true,
    ..PLAIN
};

const LEVEL: KindRules = KindRules {
    word: "level",
    needs_height: true,
    ..PLAIN
};

const VECTOR: KindRules = KindRules {
    word: "vector",
    has_height_deviation: true,
    needs_plane: true,
    needs_height: true,
    rows: 3,
    ..PLAIN
};

impl Kind {
    /// What the kind asks of a record, and what it gives to a network.
    #[tactic(auto, unfolding(crate::specs::Kinds::rules_of))]
    pub fn rules(self) -> KindRules
        ensures { result ≡ rules_of self }
    {
        match self {
            Kind::Distance => DISTANCE,
            Kind::Direction => DIRECTION,
            Kind::Angle => ANGLE,
            Kind::Level => LEVEL,
            Kind::Vector => VECTOR,
        }
    }

    // Whether a text is its word.
    fn is_named(self, text: &[u8]) -> bool
        ensures { result ≡ bytes_eq text.now (rules_of self).word }
    {
        text == self.rules().word.as_bytes()
    }
}

// Every kind.
const KINDS: [Kind; 5] = [
    Kind::Distance,
    Kind::Direction,
    Kind::Angle,
    Kind::Level,
    Kind::Vector,
];

// The kind whose word a text is.
fn kind_named(text: &[u8]) -> Option<Kind>
    ensures { result ≡ kind_named text.now }
{
    KINDS.iter().copied().find(|kind| kind.is_named(text))
}

// The kind of a record.
#[tactic(auto, unfolding(table_rows::specs::Faults::first_broken, crate::specs::CandidateTable::kind_rules))]
pub(crate) fn read_kind(text: &[u8]) -> Result<Kind, FaultKind>
    ensures { Reads (kind_rules text.now) (IsKindOf text.now) result }
{
    match kind_named(text) {
        Some(kind) => Ok(kind),
        None => Err(FaultKind::Kind),
    }
}
