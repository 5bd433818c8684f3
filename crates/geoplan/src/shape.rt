ghost use Rattle.std.specs.Prelude.{◌≡◌};
ghost use Rattle.geoplan.specs.CommandView.{job_roles, migration_roles, roles_for};

use crate::file_kind::FileKind;

/// What the further words of a command stand for.
#[derive(Clone, Copy, Debug, PartialEq, Eq)]
pub enum WordShape {
    /// Two tables.
    Tables,
    /// Two tables, a redundancy, and a file of this kind.
    Job(FileKind),
    /// The same, and a table of stations.
    JobWithStations(FileKind),
    /// Two tables, a redundancy, a log, and the name of a new one.
    Migration,
    /// The same, and a table of stations.
    MigrationWithStations,
    /// A seed, and the two tables that are generated from it.
    SeedAndTables,
    /// A seed.
    Seed,
}

impl WordShape {
    /// That of a job with a file of this kind, of so many words.
    pub fn job(last: FileKind, further: u32) -> WordShape
        ensures { roles_for result ≡ job_roles last further }
    {
        if further == 5 {
            return WordShape::JobWithStations(last);
        }
        WordShape::Job(last)
    }

    /// That of a migration, of so many words.
    pub fn migration(further: u32) -> WordShape
        ensures { roles_for result ≡ migration_roles further }
    {
        if further == 6 {
            return WordShape::MigrationWithStations;
        }
        WordShape::Migration
    }
}
