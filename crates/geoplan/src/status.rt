ghost use Rattle.std.specs.Prelude.{◌≡◌};

/// How a command ended.
#[derive(Clone, Copy, Debug, PartialEq, Eq)]
pub enum Status {
    Found,
    NoPlan,
    WordsRefused,
    TableRefused,
    Undecided,
    ReadFault,
    WriteFault,
    NoMemory,
    LogRefused,
    FileTooLong,
    TooManyCuts,
}

impl Status {
    ghost use Rattle.geoplan.specs.Codes.{code_of, after_failed_put};

    /// The exit status of the program.
    pub fn code(self) -> u8
        ensures { result ≡ code_of self }
    {
        match self {
            Status::Found => 0,
            Status::NoPlan => 1,
            Status::WordsRefused => 2,
            Status::TableRefused => 3,
            Status::Undecided => 4,
            Status::ReadFault => 5,
            Status::WriteFault => 6,
            Status::NoMemory => 7,
            Status::LogRefused => 8,
            Status::FileTooLong => 9,
            Status::TooManyCuts => 15,
        }
    }

    /// The status where the text of this one could not be printed: a report's is a write fault, and a
    /// refusal stays what it is.
    pub fn after_failed_put(self) -> Status
        ensures { result ≡ after_failed_put self }
    {
        match self {
            Status::Found | Status::NoPlan | Status::Undecided => Status::WriteFault,
            other => other,
        }
    }
}
