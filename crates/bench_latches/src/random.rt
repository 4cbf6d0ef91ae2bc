//! Numbers without a pattern.

/// Numbers from a seed, by Marsaglia's xorshift.
#[derive(Clone, Copy)]
pub struct CellRandom {
    state: u64,
}

impl CellRandom {
    pub fn new(seed: u64) -> CellRandom {
        CellRandom {
            state: seed.wrapping_add(88172645463325252),
        }
    }

    pub fn draw(&mut self) -> u64 {
        let mut state = self.state;
        state ^= state << 13;
        state ^= state >> 7;
        state ^= state << 17;
        self.state = state;
        state.wrapping_mul(2685821657736338717)
    }
}
