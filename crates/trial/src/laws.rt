//! What an undo does. The function is its contract: it does nothing.
ghost use Rattle.trial.specs.Session.{UndoTakesChangesBack};

/// After a change that is done, an undo leaves the session as it was before the change.
pub fn undo_takes_changes_back()
    ensures { UndoTakesChangesBack }
{}
