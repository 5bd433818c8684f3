ghost use Rattle.std.specs.Prelude.{◌↔◌, IsTrue};
ghost use Rattle.shelf_io.specs.FailingCalls.{AwaitsCalls, IsNextFailing, CountsCall};

/// Counts calls from 1 on, and knows the numbers of those that are to fail. The count stands still at its end.
#[derive(Drop)]
pub(crate) struct FailingCalls {
    failing: Vec<u64>,
    made: u64,
}

impl FailingCalls {
    pub(crate) fn new(failing: Vec<u64>) -> FailingCalls
        ensures { AwaitsCalls failing.items result }
    {
        FailingCalls { failing, made: 0 }
    }

    /// Counts a call, and says whether it is to fail.
    pub(crate) fn next_fails(&mut self) -> bool
        ensures fails { IsTrue result ↔ IsNextFailing self.old }
        ensures counts { CountsCall self.old self.new }
    {
        self.made = self.made.saturating_add(1);
        self.failing.contains(&self.made)
    }
}
