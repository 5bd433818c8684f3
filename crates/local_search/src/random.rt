/// Numbers that look random: the same ones in each run.
#[derive(Clone, Copy)]
pub struct Random {
    state: u64,
}

impl Random {
    /// The numbers from the first one on.
    pub fn new() -> Random {
        Random {
            state: 0x9e37_79b9_7f4a_7c15,
        }
    }

    /// The next number below `count`; 0 where that is 0. Its generator is Marsaglia's xorshift of 64
    /// bits with the shifts 13, 7 and 17.
    pub fn below(&mut self, count: u32) -> u32 {
        let mut state = self.state;
        state ^= state.wrapping_shl(13);
        state ^= state.wrapping_shr(7);
        state ^= state.wrapping_shl(17);
        self.state = state;
        let upper = state.wrapping_shr(32);
        (upper.wrapping_mul(count as u64) >> 32).min(u32::MAX as u64) as u32
    }
}
