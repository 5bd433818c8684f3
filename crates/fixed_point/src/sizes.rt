// What numbers are to stay below in size: 2^60, which is 2^28 in fixed point.
const LIMIT: i64 = 1 << 60;

/// Whether numbers that were seen are below 2^60 as they are stored, which is 2^28 in fixed point.
/// Above it products get close to 64 bits. It costs two instructions a number and no comparison.
#[derive(Clone, Copy)]
pub struct Sizes {
    // The numbers plus 2^60, joined bit by bit.
    bits: u64,
}

impl Sizes {
    /// No number was seen.
    pub fn new() -> Sizes {
        Sizes { bits: 0 }
    }

    /// These numbers and one more.
    #[inline(always)]
    pub fn with(self, number: i64) -> Sizes {
        Sizes {
            bits: self.bits | number.wrapping_add(LIMIT).cast_unsigned(),
        }
    }

    /// The numbers of both.
    #[inline(always)]
    pub fn join(self, other: Sizes) -> Sizes {
        Sizes {
            bits: self.bits | other.bits,
        }
    }

    /// Whether a number was not from -2^60 to 2^60 - 1.
    pub fn is_passed(self) -> bool {
        self.bits >> 61 != 0
    }
}
