//! Numbers that look random.

use std::alloc::{AllocError, Global};

/// Numbers that look random, by Marsaglia's shifts of 64 bits.
#[derive(Clone, Copy)]
pub struct Noise {
    state: u64,
}

impl Noise {
    /// The numbers of a seed.
    pub fn new(seed: u64) -> Noise {
        Noise {
            state: seed.wrapping_mul(0x9E37_79B9_7F4A_7C15) | 1,
        }
    }

    /// The next number.
    pub fn next(&mut self) -> u64 {
        let mut x = self.state;
        x ^= x << 13;
        x ^= x >> 7;
        x ^= x << 17;
        self.state = x;
        x
    }

    /// The next number below a bound, or 0 where the bound is.
    pub fn below(&mut self, bound: u32) -> u32 {
        ((self.next() >> 32) % u64::from(bound.max(1))) as u32
    }
}

/// So many bytes that look random, up to 7 more.
pub fn bytes_of(alloc: Global, noise: &mut Noise, size: usize) -> Result<Vec<u8>, AllocError> {
    let mut bytes = Vec::with_capacity(alloc, size.saturating_add(8))?;
    for _ in 0..size / 8 {
        bytes.extend_from_slice(&noise.next().to_le_bytes())?;
    }
    Ok(bytes)
}
