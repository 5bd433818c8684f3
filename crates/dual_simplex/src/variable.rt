use fixed_point::ONE;

/// What a slack without an upper bound has in its place.
pub(crate) const UNBOUNDED: i64 = 1 << 61;

/// What a variable stands for: the share of a candidate, the slack of a cut, each by its number, or the
/// slack of a link, by the number of its candidate.
#[derive(Clone, Copy)]
pub(crate) enum Role {
    Candidate(u32),
    Slack(u32),
    Link(u32),
}

/// A variable and its bounds, in fixed point.
#[derive(Clone, Copy)]
pub(crate) struct Variable {
    pub name: Role,
    pub low: i64,
    pub high: i64,
}

impl Variable {
    /// The share of a candidate, from 0 to 1.
    pub fn candidate(number: u32) -> Variable {
        Variable {
            name: Role::Candidate(number),
            low: 0,
            high: ONE,
        }
    }

    /// The slack of a cut, from 0.
    pub fn slack(cut: u32) -> Variable {
        Variable {
            name: Role::Slack(cut),
            low: 0,
            high: UNBOUNDED,
        }
    }

    /// The slack of a candidate's link, from 0.
    pub fn link(candidate: u32) -> Variable {
        Variable {
            name: Role::Link(candidate),
            low: 0,
            high: UNBOUNDED,
        }
    }

    /// How far the bounds are apart.
    pub fn range(self) -> i64 {
        self.high.wrapping_sub(self.low)
    }

    /// Whether there is no upper bound.
    pub fn is_unbounded(self) -> bool {
        self.high == UNBOUNDED
    }

    /// Whether the bounds are one number.
    pub fn is_fixed(self) -> bool {
        self.low == self.high
    }

    /// Whether this is the slack of a cut or of a link.
    pub fn is_slack(self) -> bool {
        match self.name {
            Role::Candidate(_) => false,
            Role::Slack(_) | Role::Link(_) => true,
        }
    }

    /// Whether this is the share of that candidate.
    pub fn is_candidate(self, number: u32) -> bool {
        match self.name {
            Role::Candidate(candidate) => candidate == number,
            Role::Slack(_) | Role::Link(_) => false,
        }
    }
}

/// A variable that stands at one of its bounds: a column of the tableau.
#[derive(Clone, Copy)]
pub(crate) struct Column {
    pub variable: Variable,
    pub is_high: bool,
}

impl Column {
    /// The bound at which the variable stands.
    pub fn position(self) -> i64 {
        if self.is_high {
            self.variable.high
        } else {
            self.variable.low
        }
    }

    /// A change of the variable, in the direction in which it can move off its bound.
    pub fn inward(self, change: i64) -> i64 {
        if self.is_high {
            change.wrapping_neg()
        } else {
            change
        }
    }
}

/// A variable that depends on those of the columns: a row of the tableau, and its present value.
#[derive(Clone, Copy)]
pub(crate) struct Basic {
    pub variable: Variable,
    pub value: i64,
}
