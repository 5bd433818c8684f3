ghost use Rattle.std.specs.Prelude.{◌≡◌, option_map};

use std::marker::Model;

/// The bytes of two tables, and of a table of stations where one is given.
#[derive(Drop)]
pub struct TableBytes {
    points: Vec<u8>,
    candidates: Vec<u8>,
    stations: Option<Vec<u8>>,
}

impl Model for TableBytes {
    ghost use Rattle.std.specs.Prelude.{option_map};
    ghost use Rattle.geoplan.specs.Loading.{TableBytesOf};

    ghost Value = { TableBytesOf };

    ghost view = { λ bytes. record { points = bytes.points.items; candidates = bytes.candidates.items; stations = option_map (λ given. given.items) bytes.stations } };
}

impl TableBytes {
    /// These bytes.
    pub fn new(points: Vec<u8>, candidates: Vec<u8>, stations: Option<Vec<u8>>) -> TableBytes
        ensures { result ≡ record { points = points.items; candidates = candidates.items; stations = option_map (λ given. given.items) stations } }
    {
        TableBytes {
            points,
            candidates,
            stations,
        }
    }

    /// The bytes of the points table.
    pub fn points(&self) -> &[u8]
        ensures { result.now ≡ self.now.points }
    {
        self.points.as_slice()
    }

    /// The bytes of the candidates table.
    pub fn candidates(&self) -> &[u8]
        ensures { result.now ≡ self.now.candidates }
    {
        self.candidates.as_slice()
    }

    /// The bytes of the table of stations, where one is given.
    pub fn stations(&self) -> Option<&[u8]>
        ensures { option_map (λ given. given.now) result ≡ self.now.stations }
    {
        match &self.stations {
            Some(stations) => Some(stations.as_slice()),
            None => None,
        }
    }
}
