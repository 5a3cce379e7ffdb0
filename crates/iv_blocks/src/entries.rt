//! The blocks of a track as the entries of a ledger, made in one walk over its records: with their results, or where they stop.
ghost use Rattle.std.specs.Prelude.{◌≡◌, ◌++◌, ◌∷◌, [], None, false, map, IfOk, OnOk};
ghost use Rattle.iv_lines.specs.Ordered.{AreInOrder};
ghost use Rattle.iv_cover.specs.Inside.RemainingBlocks.{remaining_blocks};
ghost use Rattle.iv_cover.specs.Inside.TrackBlocks.{with_members};
ghost use Rattle.iv_blocks.specs.Groups.{listed};
ghost use Rattle.iv_blocks.specs.Inside.UnstrandedBlocks.{kept_entry, stop_entry};

use crate::group::Key;
use crate::joined_blocks::{BlockMembers, JoinedBlocks};
use crate::kept_block::KeptBlock;
use crate::options::BlockOptions;
use iv_cover::results_in;
use iv_ledger::{LedgerBuilder, Meter};
use iv_lines::{Genome, Interval, RecordRef};
use iv_track::{Track, TrackRecords};
use std::alloc::{AllocError, Allocator};

/// Where each block of a track stops, strands together, by key.
pub(crate) fn stops_of<A: Allocator + Copy>(
    alloc: A,
    distance: u32,
    track: &Track<A>,
    meter: &mut Meter,
) -> Result<LedgerBuilder<Key, u32, A>, AllocError>
    ensures entries { IfOk result (λ built. built ≡ map stop_entry (remaining_blocks distance None track.now.records)) }
    ensures order { OnOk result (AreInOrder track.now.records) }
{
    let mut built = LedgerBuilder::new(alloc)?;
    let mut blocks = JoinedBlocks::of(track.walk(0, 0, meter), distance);
    while let Some(block) = blocks.next(meter) {
        built.push(key_of(block), block.stop)?;
    }
    Ok(built)
}

/// The blocks of a track, strands together, each as it is kept, by key.
pub(crate) fn entries_of<A: Allocator + Copy>(
    alloc: A,
    options: &BlockOptions,
    track: &Track<A>,
    genome: &Genome<A>,
    meter: &mut Meter,
) -> Result<LedgerBuilder<Key, KeptBlock<A>, A>, AllocError>
    ensures entries { IfOk result (λ built. built ≡ map (kept_entry genome.now (listed options.now.summaries)) (remaining_blocks options.now.distance None track.now.records)) }
    ensures order { OnOk result (AreInOrder track.now.records) }
{
    let mut built = LedgerBuilder::new(alloc)?;
    let mut blocks = JoinedBlocks::of(track.walk(0, 0, meter), options.distance);
    let mut members = Vec::new(alloc);
    let mut memory = Vec::new(alloc);
    while let Some((block, found)) = blocks.next_with_members(meter) {
        gather(found, &mut members, meter)?;
        memory = push_entry(alloc, options, genome, block, &members, memory, &mut built)?;
    }
    Ok(built)
}

/// Puts the members of a block into a list, and nothing else.
fn gather<'a, A: Allocator + Copy>(
    mut members: BlockMembers<TrackRecords<'a, A>>,
    gathered: &mut Vec<RecordRef<'a>, A>,
    meter: &mut Meter,
) -> Result<(), AllocError>
    ensures { OnOk result (gathered.new.items ≡ members.entry) }
{
    gathered.clear();
    while let Some(member) = members.next(meter) {
        gathered.push(member)?;
    }
    Ok(())
}

/// Makes the results of a block over its members, and adds it after the others. The results are written in the memory of a
/// text that is no longer needed, and copied from there. That memory is the answer.
fn push_entry<A: Allocator + Copy>(
    alloc: A,
    options: &BlockOptions,
    genome: &Genome<A>,
    block: Interval,
    members: &[RecordRef<'_>],
    memory: Vec<u8, A>,
    built: &mut LedgerBuilder<Key, KeptBlock<A>, A>,
) -> Result<Vec<u8, A>, AllocError>
    ensures { OnOk result (built.new ≡ built.old ++ kept_entry genome.now (listed options.now.summaries) (with_members block members.now) ∷ []) }
{
    let name = genome.name_or_empty(block.seq);
    let results = results_in(alloc, options.summaries.as_slice(), name, members, memory)?;
    let kept = KeptBlock::copy_of(alloc, block.stop, results.as_slice())?;
    built.push(key_of(block), kept)?;
    Ok(results)
}

/// Where a block is kept if strands are together.
fn key_of(block: Interval) -> Key
    ensures { result ≡ (block.seq, false, block.start) }
{
    (block.seq, false, block.start)
}
