ghost use Rattle.std.specs.Prelude.{◌≡◌, ◌≤◌, length, option_map, drop, IfSome};
ghost use Rattle.std.specs.List.{list_all};
ghost use Rattle.geoplan.specs.CommandOf.{is_plain, command_from, command_of, sources_from};
ghost use Rattle.geoplan.specs.CommandView.{roles_for, sources_view, HasShortNumbers, command_view};
ghost use Rattle.geoplan.specs.declared.shape.WordShape.TheVariants as shape;

use crate::file_kind::FileKind;
use crate::shape::WordShape;
use crate::sources::Sources;
use crate::verb::Verb;
use crate::words::Words;

/// A command: what it does, and what its further words give.
#[derive(Clone, Copy)]
pub struct Command<'a> {
    pub verb: Verb,
    pub sources: Sources<'a>,
}

impl<'a> Command<'a> {
    /// The command of a command line, where its words are accepted. Its numbers have as few digits as
    /// is said of them.
    #[tactic(auto, unfolding(crate::specs::CommandOf::command_of))]
    pub fn of(words: &'a Words) -> Option<Command<'a>>
        ensures command { option_map command_view result ≡ command_of words.now }
        ensures within { IfSome result (λ command. HasShortNumbers command.sources) }
    {
        if !are_plain(words) {
            return None;
        }
        Command::from_plain(words)
    }

    /// The command of words that are all plain.
    fn from_plain(words: &'a Words) -> Option<Command<'a>>
        ensures command { option_map command_view result ≡ command_from words.now }
        ensures within { IfSome result (λ command. HasShortNumbers command.sources) }
    {
        if words.len() < 2 {
            return None;
        }
        let verb = match Verb::of(words.get(1)) {
            Some(verb) => verb,
            None => return None,
        };
        match sources_of(verb.shape(words.len() - 2), words) {
            Some(sources) => Some(Command { verb, sources }),
            None => None,
        }
    }
}

/// What the words after that of the command give, which are as many as its shape asks for.
fn sources_of<'a>(shape: WordShape, words: &'a Words) -> Option<Sources<'a>>
    requires { 2 ≤ length words.now }
    ensures sources { option_map sources_view result ≡ sources_from (roles_for shape) (drop 2 words.now) }
    ensures within { IfSome result HasShortNumbers }
{
    match shape {
        WordShape::Job(last) => {
            if words.len() != 6 {
                return None;
            }
            Sources::of_job(words.get(2), words.get(3), words.get(4), last, words.get(5))
        }
        WordShape::JobWithStations(last) => job_with_stations(last, words),
        WordShape::Migration => {
            if words.len() != 7 {
                return None;
            }
            let (points, candidates) = (words.get(2), words.get(3));
            Sources::of_migration(points, candidates, words.get(4), words.get(5), words.get(6))
        }
        WordShape::MigrationWithStations => migration_with_stations(words),
        WordShape::Tables => {
            if words.len() != 4 {
                return None;
            }
            Sources::of_tables(words.get(2), words.get(3))
        }
        WordShape::SeedAndTables => {
            if words.len() != 5 {
                return None;
            }
            Sources::of_seed_and_tables(words.get(2), words.get(3), words.get(4))
        }
        WordShape::Seed => {
            if words.len() != 3 {
                return None;
            }
            Sources::of_seed(words.get(2))
        }
    }
}

/// What the words after that of the command give where they are those of a job with a table of
/// stations.
fn job_with_stations<'a>(last: FileKind, words: &'a Words) -> Option<Sources<'a>>
    requires { 2 ≤ length words.now }
    ensures sources { option_map sources_view result ≡ sources_from (roles_for (shape.JobWithStations last)) (drop 2 words.now) }
    ensures within { IfSome result HasShortNumbers }
{
    if words.len() != 7 {
        return None;
    }
    let (points, candidates, redundancy) = (words.get(2), words.get(3), words.get(4));
    let (file, stations) = (words.get(5), words.get(6));
    Sources::of_job_with_stations(points, candidates, redundancy, last, file, stations)
}

/// .. where they are those of a migration with a table of stations.
fn migration_with_stations<'a>(words: &'a Words) -> Option<Sources<'a>>
    requires { 2 ≤ length words.now }
    ensures sources { option_map sources_view result ≡ sources_from (roles_for shape.MigrationWithStations) (drop 2 words.now) }
    ensures within { IfSome result HasShortNumbers }
{
    if words.len() != 8 {
        return None;
    }
    let (points, candidates, redundancy) = (words.get(2), words.get(3), words.get(4));
    let (log, new_log, stations) = (words.get(5), words.get(6), words.get(7));
    Sources::of_migration_with_stations(points, candidates, redundancy, log, new_log, stations)
}

/// Whether a word isn't empty and doesn't begin with `-`.
fn is_plain(word: &str) -> bool
    ensures { result ≡ is_plain word.now }
{
    !word.is_empty() && word.as_bytes()[0] != b'-'
}

/// Whether each word after the program's name is plain.
fn are_plain(words: &Words) -> bool
    ensures { result ≡ list_all is_plain (drop 1 words.now) }
{
    for k in 1..words.len() {
        if !is_plain(words.get(k)) {
            return false;
        }
    }
    true
}
