//! What is kept of a block.
ghost use Rattle.std.specs.Prelude.{◌≡◌, ◌≤◌, [], length, IfOk};

use std::alloc::{AllocError, Allocator, Global};
use std::marker::Model;

/// The most bytes of short results: with the stop and their length they are 24, and an entry of the ledger takes 48.
const SHORT: usize = 19;

/// What is kept of a block: where it stops, from 0, not included, and its results, each with a TAB in front of it.
///
/// It has 32 bytes. Short results are in them, and take no allocation.
#[derive(Drop)]
pub(crate) struct KeptBlock<A: Allocator = Global> {
    storage: Storage<A>,
}

/// Where the stop and the results are, by how many bytes the results have.
#[derive(Drop)]
enum Storage<A: Allocator> {
    Short(ShortBlock),
    Long(Box<LongBlock<A>, A>),
}

/// A block with at most 19 bytes of results. The bytes beyond are 0.
#[derive(Drop)]
struct ShortBlock {
    stop: u32,
    bytes: [u8; SHORT],
    len: u8,
}

impl Model for ShortBlock {
    ghost use Rattle.std.specs.Prelude.{take, ◌≤◌};
    ghost use Rattle.iv_blocks.specs.KeptBlocks.{Kept};

    ghost Value = { Kept };

    ghost view = { λ b. record { stop = b.stop; results = take b.len b.bytes } };

    ghost invariant = { λ b. b.len ≤ 19 };
}

impl ShortBlock {
    /// A copy of the results.
    fn copy_of(stop: u32, results: &[u8]) -> ShortBlock
        requires { length results.now ≤ 19 }
        ensures { result ≡ record { stop = stop; results = results.now } }
    {
        let mut bytes = [0; SHORT];
        let (used, _beyond) = bytes.split_at_mut(results.len());
        used.copy_from_slice(results);
        ShortBlock {
            stop,
            bytes,
            len: results.len() as u8,
        }
    }

    fn results(&self) -> &[u8]
        ensures { result.now ≡ self.now.results }
    {
        &self.bytes[..usize::from(self.len)]
    }
}

/// A block with results of any length.
#[derive(Drop)]
struct LongBlock<A: Allocator> {
    stop: u32,
    results: Vec<u8, A>,
}

impl<A: Allocator> Model for LongBlock<A> {
    ghost use Rattle.iv_blocks.specs.KeptBlocks.{Kept};

    ghost Value = { Kept };

    ghost view = { λ b. record { stop = b.stop; results = b.results.items } };
}

impl<A: Allocator> LongBlock<A> {
    /// A copy of the results.
    fn copy_of(alloc: A, stop: u32, results: &[u8]) -> Result<LongBlock<A>, AllocError>
        ensures { IfOk result (λ b. b ≡ record { stop = stop; results = results.now }) }
    {
        let mut copy = Vec::with_capacity(alloc, results.len())?;
        copy.extend_from_slice(results)?;
        Ok(LongBlock {
            stop,
            results: copy,
        })
    }
}

impl<A: Allocator> Model for KeptBlock<A> {
    ghost use Rattle.iv_blocks.specs.KeptBlocks.{Kept};
    ghost use Rattle.iv_blocks.specs.Inside.BlockStorage.{block_at};

    ghost Value = { Kept };

    ghost view = { λ b. block_at b.storage };
}

impl<A: Allocator> KeptBlock<A> {
    /// A block without results.
    pub(crate) fn plain(stop: u32) -> Self
        ensures { result ≡ record { stop = stop; results = [] } }
    {
        KeptBlock {
            storage: Storage::Short(ShortBlock::copy_of(stop, &[])),
        }
    }

    /// Where it stops.
    pub(crate) fn stop(&self) -> u32
        ensures { result ≡ self.now.stop }
    {
        match &self.storage {
            Storage::Short(block) => block.stop,
            Storage::Long(block) => block.stop,
        }
    }

    /// Its results, empty if there are no summaries.
    pub(crate) fn results(&self) -> &[u8]
        ensures { result.now ≡ self.now.results }
    {
        match &self.storage {
            Storage::Short(block) => block.results(),
            Storage::Long(block) => block.results.as_slice(),
        }
    }
}

// Long results take two allocations, so the allocator is used twice.
impl<A: Allocator + Copy> KeptBlock<A> {
    /// A block with these results, copied.
    pub(crate) fn copy_of(alloc: A, stop: u32, results: &[u8]) -> Result<Self, AllocError>
        ensures { IfOk result (λ b. b ≡ record { stop = stop; results = results.now }) }
    {
        let storage = match results.len() {
            ..=SHORT => Storage::Short(ShortBlock::copy_of(stop, results)),
            _ => Storage::Long(Box::new(alloc, LongBlock::copy_of(alloc, stop, results)?)?),
        };
        Ok(KeptBlock { storage })
    }
}
