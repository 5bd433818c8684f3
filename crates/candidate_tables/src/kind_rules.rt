use std::marker::Model;

/// The bounds of the squares of the lengths of lines, in square millimetres.
#[derive(Clone, Copy)]
pub struct LineBounds {
    pub least: u128,
    pub greatest: u128,
}

/// What a kind of observation asks of a record of the candidates table, and what it gives to a
/// network.
#[derive(Drop)]
pub struct KindRules {
    /// The word for it in the table.
    pub word: &'static str,
    /// Whether a third point is named.
    pub has_foresight: bool,
    /// Whether there is a standard deviation of the height.
    pub has_height_deviation: bool,
    /// Whether the points that are named need a plane part.
    pub needs_plane: bool,
    /// Whether the points that are named need a height part.
    pub needs_height: bool,
    /// The bounds of its lines, if they have any.
    pub line: Option<LineBounds>,
    /// How many rows it gives.
    pub rows: u32,
    /// Whether its station has an orientation.
    pub has_orientation: bool,
    /// Whether an instrument is set up at its first point.
    pub occupies_station: bool,
}

impl Model for KindRules {
    ghost use Rattle.candidate_tables.specs.Kinds.{KindRulesOf};

    ghost Value = { KindRulesOf };

    ghost view = { λ rules. record { word = rules.word.now; has_foresight = rules.has_foresight; has_height_deviation = rules.has_height_deviation; needs_plane = rules.needs_plane; needs_height = rules.needs_height; line = rules.line; rows = rules.rows; has_orientation = rules.has_orientation; occupies_station = rules.occupies_station } };
}
