ghost use Rattle.std.specs.Prelude.{◌≡◌};
ghost use Rattle.normal_matrix.specs.Changes.{sign_of};

/// What happens to the rows of a candidate: they come into the sums, or leave them.
#[derive(Clone, Copy, Debug, PartialEq, Eq)]
pub enum Change {
    Add,
    Remove,
}

impl Change {
    /// 1 for rows that come in, -1 for rows that leave.
    pub fn sign(self) -> i64
        ensures { result ≡ sign_of self }
    {
        match self {
            Change::Add => 1,
            Change::Remove => -1,
        }
    }
}
