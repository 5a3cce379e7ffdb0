//! The rows of a cluster: of a track, of one region of it, or of the records of a file.
ghost use Rattle.std.specs.List.{flat_map, take_while};
ghost use Rattle.std.specs.Prelude.{◌≡◌, ◌<◌, ◌+◌, ◌^◌, All, length};
ghost use Rattle.iv_bytes.specs.Sinks.{Puts};
ghost use Rattle.iv_lines.specs.Ordered.{AreInOrder};
ghost use Rattle.iv_lines.specs.Read.{IsOnGenome, Fits};
ghost use Rattle.iv_lines.specs.Named.{names_of};
ghost use Rattle.iv_ledger.specs.Steps.{TakesUpTo};
ghost use Rattle.iv_track.specs.Regions.{near};
ghost use Rattle.iv_blocks.specs.Inside.BlockSweeps.{numbered_row};
ghost use Rattle.iv_blocks.specs.Inside.BlockCursor.{starts_until, drop_while, TakesForEach};
ghost use Rattle.iv_blocks.specs.RegionRows.{cluster_text_in};
ghost use Rattle.iv_blocks.specs.Groups.{plain_options};
ghost use Rattle.iv_blocks.specs.KeptBlocks.{AreBlocksOf};
ghost use Rattle.iv_blocks.specs.MergeRows.{all_blocks};
ghost use Rattle.iv_blocks.specs.ClusterRows.{blocks_until, cluster_text};

use crate::block_cursor::{BlockCursor, BlocksAhead};
use crate::blocks::Blocks;
use crate::joined_blocks::{BlockMembers, JoinedBlocks};
use iv_bytes::{Sink, WriteFault};
use iv_ledger::Meter;
use iv_lines::{Genome, put_numbered};
use iv_places::PlacedRecords;
use iv_track::{Region, Track};
use std::alloc::Allocator;

impl<A: Allocator + Copy> Blocks<A> {
    /// Prints a `cluster`: a row for each record, of its columns and the number of its block, counted from 1 over the whole track.
    ///
    /// One walk over the track, and one over the blocks beside it: at most one step for each record and each block, and four
    /// more. It takes no memory. On a fault the sink has taken a prefix of the rows.
    pub fn print_cluster<S: Sink>(
        &self,
        track: &Track<A>,
        genome: &Genome<A>,
        meter: &mut Meter,
        sink: &mut S,
    ) -> Result<(), WriteFault>
        requires joined { self.now.options ≡ plain_options self.now.options.distance }
        requires right { AreBlocksOf self.now.options (names_of genome.now) track.now.records self.now.entries }
        requires fit { All (Fits genome.now track.now.width) track.now.records }
        ensures text { Puts (S.state sink.old) (S.state sink.new) result (cluster_text self.now.options.distance genome.now track.now.records) }
        ensures steps { TakesUpTo meter.old meter.new (4 + length track.now.records + length (all_blocks self.now.options genome.now track.now.records)) }
    {
        // There are so few blocks that 64 bits number them.
        let _few = self.ledger.len();
        let mut ahead = BlockCursor::of(self, meter);
        let mut number: u64 = 0;
        let mut records = track.walk(0, 0, meter);
        while let Some(feature) = records.next(meter) {
            number += count_until(&mut ahead, feature.seq(), feature.start(), meter);
            put_numbered(sink, genome, &feature, number)?;
        }
        Ok(())
    }

    /// Prints the rows of a `cluster` whose record shares a position with the region, with the numbers that they have among all.
    ///
    /// One walk over the records near the region, and one over the blocks up to it, which are counted: at most one step for each
    /// of them, and four more. It takes no memory. On a fault the sink has taken a prefix of the rows.
    pub fn print_cluster_in<S: Sink>(
        &self,
        region: Region,
        track: &Track<A>,
        genome: &Genome<A>,
        meter: &mut Meter,
        sink: &mut S,
    ) -> Result<(), WriteFault>
        requires region { region.start < region.stop }
        requires joined { self.now.options ≡ plain_options self.now.options.distance }
        requires right { AreBlocksOf self.now.options (names_of genome.now) track.now.records self.now.entries }
        requires fit { All (Fits genome.now track.now.width) track.now.records }
        ensures text { Puts (S.state sink.old) (S.state sink.new) result (cluster_text_in self.now.options.distance genome.now track.now.records region.seq region.start region.stop) }
        ensures steps { TakesUpTo meter.old meter.new (4 + length (near region track.now.records) + blocks_until self.now.options.distance genome.now track.now.records region.seq region.stop) }
    {
        // There are so few blocks that 64 bits number them, and the records are in order.
        let _few = self.ledger.len();
        let _ordered = track.len();
        let mut ahead = BlockCursor::of(self, meter);
        let mut number: u64 = 0;
        let mut hits = track.hits(region, meter);
        while let Some(feature) = hits.next(meter) {
            number += count_until(&mut ahead, feature.seq(), feature.start(), meter);
            put_numbered(sink, genome, &feature, number)?;
        }
        Ok(())
    }
}

/// Goes past the blocks that start at this position of the sequence of this rank, or before it, and counts them.
fn count_until<A: Allocator + Copy>(
    ahead: &mut BlockCursor<'_, A>,
    seq: u32,
    position: u64,
    meter: &mut Meter,
) -> u64
    requires few { length ahead.old < 2 ^ 64 }
    ensures count { result ≡ length (take_while (starts_until seq position) ahead.old) }
    ensures past { ahead.new ≡ drop_while (starts_until seq position) ahead.old }
    ensures steps { TakesForEach meter.old meter.new ahead.old ahead.new }
{
    let mut count: u64 = 0;
    while ahead.next_until(seq, position, meter).is_some() {
        count += 1;
    }
    count
}

/// Puts a row for each record: its columns, and the number of its block, counted from 1 over all sequences.
///
/// The records are in the order of a track and are on the genome. One sweep over them, and no memory. On a fault the sink has
/// taken a prefix of the text.
pub fn put_cluster<A: Allocator + Copy, S: Sink>(
    distance: u32,
    records: &PlacedRecords<'_>,
    genome: &Genome<A>,
    sink: &mut S,
) -> Result<(), WriteFault>
    requires order { AreInOrder records.now }
    requires on_genome { All (IsOnGenome genome.now) records.now }
    ensures { Puts (S.state sink.old) (S.state sink.new) result (cluster_text distance genome.now records.now) }
{
    // There are so few records, and so few blocks, that 64 bits number them.
    let _few = records.len();
    let mut number: u64 = 0;
    let mut blocks = JoinedBlocks::of(records.again(), distance);
    while let Some((_, members)) = blocks.next_with_members(&mut ()) {
        number += 1;
        put_members(members, number, genome, sink)?;
    }
    Ok(())
}

/// Puts the rows of a block's members, with the number of the block after their columns.
fn put_members<A: Allocator + Copy, S: Sink>(
    mut members: BlockMembers<PlacedRecords<'_>>,
    number: u64,
    genome: &Genome<A>,
    sink: &mut S,
) -> Result<(), WriteFault>
    ensures { Puts (S.state sink.old) (S.state sink.new) result (flat_map (numbered_row genome.now number) members.entry) }
{
    while let Some(member) = members.next(&mut ()) {
        put_numbered(sink, genome, &member, number)?;
    }
    Ok(())
}
