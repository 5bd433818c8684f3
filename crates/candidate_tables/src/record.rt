use crate::kind::Kind;
use table_columns::{Name, NamedRecord};

/// A candidate for an observation, as a record of the table gives it.
#[derive(Debug, Drop)]
pub struct CandidateRecord {
    /// Its name, which no other candidate has.
    pub name: Name,
    pub kind: Kind,
    /// The number of the station in the points table, counted from 0: for an angle its vertex.
    pub from: u32,
    /// The number of the target: for an angle its backsight.
    pub to: u32,
    /// The number of the foresight, if the kind has one.
    pub to2: Option<u32>,
    /// The standard deviation: in hundredths of a millimetre for a distance, a level and the plane part of a vector, in
    /// hundredths of a cc (400 gon are 4000000 cc) for a direction and an angle.
    pub sd: u32,
    /// The standard deviation of the height in hundredths of a millimetre, if the kind has one.
    pub sdh: Option<u32>,
    /// The price, a whole number up to 1000000000 in the office's own unit.
    pub price: u64,
}

impl NamedRecord for CandidateRecord {
    ghost name_of = { λ candidate. candidate.name };

    fn name(&self) -> &[u8] {
        self.name.bytes()
    }
}
