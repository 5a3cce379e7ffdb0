//! The blocks of a track: a state of kept views.
ghost use Rattle.std.specs.Prelude.{◌≡◌};
ghost use Rattle.iv_blocks.specs.KeptBlocks.{AreBlocksOf, block_steps};

use crate::block_ledger::BlockLedger;
use crate::entries::{entries_of, stops_of};
use crate::group::Group;
use crate::options::BlockOptions;
use iv_cover::Kept;
use iv_ledger::{Meter, Natural};
use iv_lines::{Genome, RecordRef};
use iv_track::Track;
use std::alloc::{AllocError, Allocator, Global};
use std::marker::Model;

/// The blocks of a track's records: where each stops and its results, by the rank of its sequence, its side, and its start.
///
/// It is one ledger, beside the options, and knows no length of a sequence.
#[derive(Drop)]
pub struct Blocks<A: Allocator + Copy = Global> {
    pub(crate) options: BlockOptions,
    pub(crate) alloc: A,
    pub(crate) ledger: BlockLedger<A>,
}

impl<A: Allocator + Copy> Model for Blocks<A> {
    ghost use Rattle.iv_blocks.specs.Inside.StoredBlocks.{KeepsResults};
    ghost use Rattle.iv_blocks.specs.KeptBlocks.{KeptBlocks};

    ghost Value = { KeptBlocks };

    ghost view = { λ b. record { options = b.options; entries = b.ledger.entries } };

    ghost invariant = { λ b. KeepsResults b.options b.ledger };
}

impl<A: Allocator + Copy> Kept<A> for Blocks<A> {
    type Settings = BlockOptions;

    ghost built_for = { λ kept. kept.options };

    ghost is_right = { λ kept names records. AreBlocksOf kept.options names records kept.entries };

    ghost repair_steps = { block_steps };

    /// It allocates only the ledger, the results that are kept, and, while it is built, the members of a block.
    /// If strands are together, the ledger is built at once from one walk over the track; else the blocks are inserted one by one.
    fn build(
        alloc: A,
        options: BlockOptions,
        track: &Track<A>,
        genome: &Genome<A>,
        meter: &mut Meter,
    ) -> Result<Blocks<A>, AllocError> {
        if options.is_by_intervals() {
            let stops = stops_of(alloc, options.distance, track, meter)?.finish(Natural)?;
            return Ok(Blocks {
                options,
                alloc,
                ledger: BlockLedger::plain(stops),
            });
        }
        if !options.stranded {
            let blocks = entries_of(alloc, &options, track, genome, meter)?.finish(Natural)?;
            return Ok(Blocks {
                options,
                alloc,
                ledger: BlockLedger::with_results(blocks),
            });
        }
        let mut blocks = Blocks {
            options,
            alloc,
            ledger: BlockLedger::new(alloc, !options.summaries.as_slice().is_empty()),
        };
        for seq in 0..genome.count() {
            blocks.insert_sequence(track, genome, seq, meter)?;
        }
        Ok(blocks)
    }

    /// The blocks that the record reaches become one with it.
    fn added(
        &mut self,
        track: &Track<A>,
        genome: &Genome<A>,
        feature: &RecordRef<'_>,
        meter: &mut Meter,
    ) -> Result<(), AllocError> {
        let Some(group) = Group::of(self.options.stranded, feature) else {
            return Ok(());
        };
        let (start, stop) = bounds_of(feature);
        let (low, high) = self.join_before(group, start, stop, meter);
        let high = self.join_after(group, start, high, meter);
        self.insert_block(track, genome, group, low, high, meter)
    }

    /// The record's block is taken out, and the others that were in it are inserted as blocks again. Where these begin and
    /// stop is found from the records near it. Without summaries, nothing is changed if another record from its start on reaches as far.
    fn removed(
        &mut self,
        track: &Track<A>,
        genome: &Genome<A>,
        feature: &RecordRef<'_>,
        meter: &mut Meter,
    ) -> Result<(), AllocError> {
        let Some(group) = Group::of(self.options.stranded, feature) else {
            return Ok(());
        };
        let (start, end) = bounds_of(feature);
        let Some((low, high)) = self.before(group, start, meter) else {
            unreachable!()
        };
        if self.stays_covered(track, group, start, end, meter) {
            return Ok(());
        }
        self.remove_block(group, low, meter);
        self.split_block(track, genome, group, (low, high), (start, end), meter)
    }
}

/// Where a record starts and stops.
pub(crate) fn bounds_of(feature: &RecordRef<'_>) -> (u32, u32)
    ensures { result ≡ (feature.now.start, feature.now.stop) }
{
    feature.lemma_of_interval();
    (feature.start() as u32, feature.stop() as u32)
}
