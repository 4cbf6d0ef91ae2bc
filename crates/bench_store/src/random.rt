//! Numbers without a pattern.

use graph_model::NoMemory;
use std::alloc::Global;

/// Numbers from a seed, by Marsaglia's xorshift.
#[derive(Clone, Copy)]
pub struct Random {
    state: u64,
}

impl Random {
    pub fn new(seed: u64) -> Random {
        Random {
            state: seed.wrapping_add(88172645463325252),
        }
    }

    pub fn draw(&mut self) -> u64 {
        let mut state = self.state;
        state ^= state << 13;
        state ^= state >> 7;
        state ^= state << 17;
        self.state = state;
        state.wrapping_mul(2685821657736338717)
    }

    /// A number below the count, which is less than 2 to the power 32.
    pub fn below(&mut self, count: u64) -> u64 {
        (self.draw() >> 32).wrapping_mul(count) >> 32
    }
}

/// The numbers below the count, which is at most 2 to the power 20, in an order that is drawn.
pub fn drawn_order(alloc: Global, count: u64, random: &mut Random) -> Result<Vec<u64>, NoMemory> {
    let mut order = Vec::new(alloc);
    for n in 0..count {
        order.push(random.draw() << 20 | n)?;
    }
    order.sort_unstable();
    for n in order.iter_mut() {
        *n %= 1048576;
    }
    Ok(order)
}
