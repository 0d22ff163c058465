//! Memory that runs out: all of it is taken, and a little is left for a call.

use std::alloc::{AllocError, Global};

type Blocks = Vec<Vec<u8>>;

/// The most blocks that are held.
const BLOCKS: usize = 250_000;

/// Takes blocks of one size, as long as the heap gives them.
fn take_blocks(alloc: Global, size: usize, blocks: &mut Blocks) {
    for _ in 0..BLOCKS {
        let Ok(block) = Vec::with_capacity(alloc, size) else {
            return;
        };
        if blocks.len() >= BLOCKS || blocks.push(block).is_err() {
            return;
        }
    }
}

/// Takes blocks of falling sizes, as long as the heap gives them. It keeps small blocks that were given
/// back for the next that asks for their very size, so each small size is taken by itself.
fn take_all(alloc: Global, largest: usize, blocks: &mut Blocks) {
    let mut size = largest;
    for _ in 0..48 {
        if size <= 1024 {
            break;
        }
        take_blocks(alloc, size, blocks);
        size /= 2;
    }
    for units in 1..=64usize {
        take_blocks(alloc, 1040 - 16 * units, blocks);
    }
}

/// Regions of memory, one for each step.
fn regions_of(alloc: Global, steps: usize, size: usize) -> Result<Blocks, AllocError> {
    let mut regions: Blocks = Vec::with_capacity(alloc, steps)?;
    for _ in 0..steps {
        let region = Vec::with_capacity(alloc, size)?;
        regions.push(region)?;
    }
    Ok(regions)
}

/// All memory, taken, but for a region for each step of a test.
#[derive(Drop)]
pub struct Scarce {
    blocks: Blocks,
    regions: Blocks,
    size: usize,
}

impl Scarce {
    /// Takes all memory, and keeps a region of so many bytes for each of so many steps.
    pub fn new(alloc: Global, steps: usize, size: usize) -> Result<Scarce, AllocError> {
        let mut blocks: Blocks = Vec::with_capacity(alloc, BLOCKS)?;
        let regions = regions_of(alloc, steps, size)?;
        take_all(alloc, 1 << 46, &mut blocks);
        Ok(Scarce {
            blocks,
            regions,
            size,
        })
    }

    /// Begins a step: gives a region back and takes its front again, so that so many bytes are left, in one
    /// piece.
    pub fn leave(&mut self, alloc: Global, bytes: usize) -> Result<(), AllocError> {
        drop(self.regions.pop());
        let front = Vec::with_capacity(alloc, self.size.saturating_sub(bytes))?;
        self.blocks.push(front)?;
        Ok(())
    }

    /// Ends a step: takes all that was left or given back.
    pub fn take_back(&mut self, alloc: Global) {
        take_all(alloc, self.size, &mut self.blocks);
    }
}
