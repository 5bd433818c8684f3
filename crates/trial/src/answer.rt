/// The answer to a command.
#[derive(Clone, Copy, Debug)]
pub enum Reply {
    /// The plan is changed, or changed back.
    Done,
    NoCandidate,
    TakenAlready,
    NotTaken,
    /// As many changes aren't taken back as there may be.
    TooDeep,
    NothingToUndo,
    /// The plan is shown.
    Shown,
    TooManyShows,
    NotACommand,
}
