ghost use Rattle.std.specs.Prelude.{◌≡◌};
ghost use Rattle.verdict_cli.specs.Answer.{refusal_of};

use point_tables::{TableAnswer, TableName};

/// Why there are no verdicts.
#[derive(Clone, Copy, Debug, PartialEq, Eq)]
pub enum InputRefusal {
    /// The first line isn't four numbers within their bounds, or fewer bytes follow than it says.
    Request,
    /// A table, or the network of both, has a fault.
    Table(TableName),
    /// A line isn't a plan with one digit for each candidate.
    Plan,
    /// Memory ran out.
    NoMemory,
}

/// The refusal that a table, or the network of both, asks for.
pub fn refusal_of(answer: TableAnswer) -> InputRefusal
    ensures { result ≡ refusal_of answer }
{
    match answer {
        TableAnswer::Fault(fault) => InputRefusal::Table(fault.table),
        TableAnswer::NoMemory => InputRefusal::NoMemory,
    }
}

impl InputRefusal {
    /// The line that tells it, with LF.
    pub fn line(self) -> &'static [u8] {
        match self {
            InputRefusal::Request => b"first line not understood\n",
            InputRefusal::Table(TableName::Points) => b"points refused\n",
            InputRefusal::Table(TableName::Candidates) => b"candidates refused\n",
            InputRefusal::Table(TableName::Network) => b"network refused\n",
            InputRefusal::Plan => b"plan not understood\n",
            InputRefusal::NoMemory => b"out of memory\n",
        }
    }

    /// The status with which the program ends.
    pub fn status(self) -> u8 {
        match self {
            InputRefusal::Request | InputRefusal::Plan => 2,
            InputRefusal::Table(_) => 3,
            InputRefusal::NoMemory => 7,
        }
    }
}
