ghost use Rattle.std.specs.Prelude.{◌≡◌};
ghost use Rattle.geoplan.specs.CommandOf.{verb_of, roles_by};
ghost use Rattle.geoplan.specs.CommandView.{roles_for};
ghost use Rattle.geoplan.specs.Loading.{more_kinds, listed};

use crate::file_kind::FileKind;
use crate::shape::WordShape;
use crate::words::is_same;

/// What a command does.
#[derive(Clone, Copy, Debug, PartialEq, Eq)]
pub enum Verb {
    /// Searches for the cheapest plan, and writes the log that proves it.
    Plan,
    /// Lists unknowns and rows.
    Rows,
    /// Replays a log.
    Check,
    /// Answers a script of trials.
    Trial,
    /// Writes the two tables of a seed.
    Gen,
    /// Searches the network of a seed, and shows how the search went.
    Bench,
    /// Writes a log in format 2 under another name.
    Migrate,
}

impl Verb {
    /// The one of a word, if there is one.
    pub fn of(word: &str) -> Option<Verb>
        ensures { result ≡ verb_of word.now }
    {
        if is_same(word, "plan") {
            Some(Verb::Plan)
        } else if is_same(word, "rows") {
            Some(Verb::Rows)
        } else if is_same(word, "check") {
            Some(Verb::Check)
        } else if is_same(word, "trial") {
            Some(Verb::Trial)
        } else if is_same(word, "gen") {
            Some(Verb::Gen)
        } else if is_same(word, "bench") {
            Some(Verb::Bench)
        } else if is_same(word, "migrate") {
            Some(Verb::Migrate)
        } else {
            None
        }
    }

    /// What so many further words of it stand for.
    pub fn shape(self, further: u32) -> WordShape
        ensures { roles_by self further ≡ roles_for result }
    {
        match self {
            Verb::Plan | Verb::Check => WordShape::job(FileKind::Log, further),
            Verb::Rows => WordShape::Tables,
            Verb::Trial => WordShape::job(FileKind::Script, further),
            Verb::Gen => WordShape::SeedAndTables,
            Verb::Bench => WordShape::Seed,
            Verb::Migrate => WordShape::migration(further),
        }
    }

    /// The file that it reads after the two tables, if there is one.
    pub fn read_after_tables(self) -> Option<FileKind>
        ensures { more_kinds self ≡ listed result }
    {
        match self {
            Verb::Plan | Verb::Rows | Verb::Gen | Verb::Bench => None,
            Verb::Check | Verb::Migrate => Some(FileKind::Log),
            Verb::Trial => Some(FileKind::Script),
        }
    }
}
