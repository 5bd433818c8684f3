ghost use Rattle.std.specs.Prelude.{◌≡◌};
ghost use Rattle.geoplan.specs.CommandOf.{most_of};

/// What a file of a command holds.
#[derive(Clone, Copy, Debug, PartialEq, Eq)]
pub enum FileKind {
    Points,
    Candidates,
    Stations,
    Log,
    /// A log that is written beside the one that is read.
    NewLog,
    Script,
}

impl FileKind {
    /// The most bytes of such a file, where it is read: a new log is read as a log, by another command.
    pub fn most_bytes(self) -> u64
        ensures { result ≡ most_of self }
    {
        match self {
            FileKind::Points | FileKind::Candidates | FileKind::Stations | FileKind::Script =>
                1048576,
            FileKind::Log | FileKind::NewLog => 268435456,
        }
    }
}
