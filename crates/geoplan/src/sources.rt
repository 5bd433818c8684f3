ghost use Rattle.std.specs.Prelude.{◌≡◌, [], ◌∷◌, option_map, IfSome};
ghost use Rattle.geoplan.specs.CommandOf.{name_of, no_sources, sources_from, with_name};
ghost use Rattle.geoplan.specs.CommandView.{roles_for, sources_view, HasShortNumbers};
ghost use Rattle.geoplan.specs.declared.file_kind.FileKind.TheVariants as kind;
ghost use Rattle.geoplan.specs.declared.shape.WordShape.TheVariants as shape;

use crate::file_kind::FileKind;
use crate::words::{are_distinct, is_same};
use text_num::read_digits;

/// What the further words of a command give: the names of its files, the redundancy that is asked
/// of each observation, in thousandths, at most 999, the seed of a generated network, at most
/// 999999, and the name of a table of stations, if one is given. What none of them stands for is
/// empty, or 0.
#[derive(Clone, Copy)]
pub struct Sources<'a> {
    pub points: &'a str,
    pub candidates: &'a str,
    pub redundancy: u32,
    pub stations: Option<&'a str>,
    pub log: &'a str,
    pub new_log: &'a str,
    pub script: &'a str,
    pub seed: u32,
}

impl<'a> Sources<'a> {
    /// Two tables, by their names, and nothing else.
    fn named(points: &'a str, candidates: &'a str) -> Sources<'a>
        ensures sources { sources_view result ≡ with_name kind.Candidates candidates.entry.now (with_name kind.Points points.entry.now no_sources) }
        ensures within { HasShortNumbers result }
    {
        Sources {
            points,
            candidates,
            redundancy: 0,
            stations: None,
            log: "",
            new_log: "",
            script: "",
            seed: 0,
        }
    }

    /// Two tables, by their names.
    pub fn of_tables(points: &'a str, candidates: &'a str) -> Option<Sources<'a>>
        ensures sources { option_map sources_view result
            ≡ sources_from (roles_for shape.Tables) (points.entry.now ∷ candidates.entry.now ∷ []) }
        ensures within { IfSome result HasShortNumbers }
    {
        if is_same(points, candidates) {
            return None;
        }
        Some(Sources::named(points, candidates))
    }

    /// A seed of 1 to 6 digits.
    pub fn of_seed(seed: &str) -> Option<Sources<'a>>
        ensures sources { option_map sources_view result ≡ sources_from (roles_for shape.Seed) (seed.now ∷ []) }
        ensures within { IfSome result HasShortNumbers }
    {
        match read_digits(seed.as_bytes(), 6) {
            None => None,
            Some(seed) => {
                let mut given = Sources::named("", "");
                given.seed = seed as u32;
                Some(given)
            }
        }
    }

    /// A seed of 1 to 6 digits, and two tables, by their names.
    pub fn of_seed_and_tables(
        seed: &str,
        points: &'a str,
        candidates: &'a str,
    ) -> Option<Sources<'a>>
        ensures sources { option_map sources_view result
            ≡ sources_from (roles_for shape.SeedAndTables) (seed.now ∷ points.entry.now ∷ candidates.entry.now ∷ []) }
        ensures within { IfSome result HasShortNumbers }
    {
        if is_same(points, candidates) {
            return None;
        }
        match read_digits(seed.as_bytes(), 6) {
            None => None,
            Some(seed) => {
                let mut given = Sources::named(points, candidates);
                given.seed = seed as u32;
                Some(given)
            }
        }
    }

    /// Two tables, a redundancy of 1 to 3 digits, and a file of a kind.
    pub fn of_job(
        points: &'a str,
        candidates: &'a str,
        redundancy: &str,
        kind: FileKind,
        file: &'a str,
    ) -> Option<Sources<'a>>
        ensures sources { option_map sources_view result ≡ sources_from (roles_for (shape.Job kind))
            (points.entry.now ∷ candidates.entry.now ∷ redundancy.now ∷ file.entry.now ∷ []) }
        ensures within { IfSome result HasShortNumbers }
    {
        if is_same(points, candidates) || is_same(points, file) || is_same(candidates, file) {
            return None;
        }
        match read_digits(redundancy.as_bytes(), 3) {
            None => None,
            Some(redundancy) => {
                let mut given = Sources::named(points, candidates);
                given.redundancy = redundancy as u32;
                Some(given.with_name(kind, file))
            }
        }
    }

    /// Two tables, a redundancy of 1 to 3 digits, a log, and the name of a new one.
    pub fn of_migration(
        points: &'a str,
        candidates: &'a str,
        redundancy: &str,
        log: &'a str,
        new_log: &'a str,
    ) -> Option<Sources<'a>>
        ensures sources { option_map sources_view result ≡ sources_from (roles_for shape.Migration)
            (points.entry.now ∷ candidates.entry.now ∷ redundancy.now ∷ log.entry.now ∷ new_log.entry.now ∷ []) }
        ensures within { IfSome result HasShortNumbers }
    {
        if !are_distinct(points, candidates, log, new_log) {
            return None;
        }
        match read_digits(redundancy.as_bytes(), 3) {
            None => None,
            Some(redundancy) => {
                let mut given = Sources::named(points, candidates);
                given.redundancy = redundancy as u32;
                given.log = log;
                given.new_log = new_log;
                Some(given)
            }
        }
    }

    /// What a job has, and a table of stations.
    pub fn of_job_with_stations(
        points: &'a str,
        candidates: &'a str,
        redundancy: &str,
        kind: FileKind,
        file: &'a str,
        stations: &'a str,
    ) -> Option<Sources<'a>>
        ensures sources { option_map sources_view result ≡ sources_from (roles_for (shape.JobWithStations kind))
            (points.entry.now ∷ candidates.entry.now ∷ redundancy.now ∷ file.entry.now ∷ stations.entry.now ∷ []) }
        ensures within { IfSome result HasShortNumbers }
    {
        if is_same(points, stations) || is_same(candidates, stations) || is_same(file, stations) {
            return None;
        }
        match Sources::of_job(points, candidates, redundancy, kind, file) {
            Some(given) => Some(given.with_name(FileKind::Stations, stations)),
            None => None,
        }
    }

    /// What a migration has, and a table of stations.
    pub fn of_migration_with_stations(
        points: &'a str,
        candidates: &'a str,
        redundancy: &str,
        log: &'a str,
        new_log: &'a str,
        stations: &'a str,
    ) -> Option<Sources<'a>>
        ensures sources { option_map sources_view result ≡ sources_from (roles_for shape.MigrationWithStations)
            (points.entry.now ∷ candidates.entry.now ∷ redundancy.now ∷ log.entry.now ∷ new_log.entry.now ∷ stations.entry.now ∷ []) }
        ensures within { IfSome result HasShortNumbers }
    {
        if is_same(points, stations)
            || is_same(candidates, stations)
            || is_same(log, stations)
            || is_same(new_log, stations)
        {
            return None;
        }
        match Sources::of_migration(points, candidates, redundancy, log, new_log) {
            Some(given) => Some(given.with_name(FileKind::Stations, stations)),
            None => None,
        }
    }

    /// With the name of a file.
    fn with_name(self, kind: FileKind, name: &'a str) -> Sources<'a>
        ensures sources { sources_view result ≡ with_name kind name.entry.now (sources_view self.entry) }
        ensures redundancy { result.redundancy ≡ self.entry.redundancy }
        ensures seed { result.seed ≡ self.entry.seed }
    {
        let mut given = self;
        match kind {
            FileKind::Points => given.points = name,
            FileKind::Candidates => given.candidates = name,
            FileKind::Stations => given.stations = Some(name),
            FileKind::Log => given.log = name,
            FileKind::NewLog => given.new_log = name,
            FileKind::Script => given.script = name,
        }
        given
    }

    /// The name of a file.
    pub fn name(&self, kind: FileKind) -> &'a str
        ensures { result.now ≡ name_of (sources_view self.now) kind }
    {
        match kind {
            FileKind::Points => self.points,
            FileKind::Candidates => self.candidates,
            FileKind::Stations => self.stations.unwrap_or(""),
            FileKind::Log => self.log,
            FileKind::NewLog => self.new_log,
            FileKind::Script => self.script,
        }
    }
}
