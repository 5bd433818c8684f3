use point_tables::TableAnswer;
use std::alloc::AllocError;

/// Why tables give no network.
#[derive(Debug, Drop)]
pub enum Unfit {
    /// A table or the network of both has a fault, or memory ran out.
    Refused(TableAnswer),
    /// The network hasn't the sizes that the tables tell, or the redundancy isn't below 1000.
    Sizes,
}

impl From<TableAnswer> for Unfit {
    fn from(answer: TableAnswer) -> Unfit {
        Unfit::Refused(answer)
    }
}

impl From<AllocError> for Unfit {
    fn from(_refused: AllocError) -> Unfit {
        Unfit::Refused(TableAnswer::NoMemory)
    }
}
