use geo_base::NoMemory;

/// Why a search ended without an answer: a write of the log failed, or memory ran out.
#[derive(Clone, Copy, Debug, PartialEq, Eq)]
pub enum SearchFault {
    WriteFault,
    NoMemory,
}

impl From<NoMemory> for SearchFault {
    ghost use Rattle.std.specs.Prelude.{◌≡◌};
    ghost use Rattle.branch_bound.specs.declared.search_fault.SearchFault.TheVariants.{NoMemory};

    ghost from_gives = { λ _ made. made ≡ NoMemory };

    fn from(_refused: NoMemory) -> SearchFault {
        SearchFault::NoMemory
    }
}
