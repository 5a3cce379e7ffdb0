//! The rows of a merge of a track, or of one region of it.
ghost use Rattle.std.specs.Prelude.{◌≡◌, ◌+◌, All, length, ◌*◌, ◌<◌};
ghost use Rattle.iv_bytes.specs.Sinks.{Puts};
ghost use Rattle.iv_lines.specs.Named.{names_of};
ghost use Rattle.iv_lines.specs.Read.{Fits};
ghost use Rattle.iv_ledger.specs.Steps.{TakesUpTo};
ghost use Rattle.iv_blocks.specs.KeptBlocks.{AreBlocksOf, Kept};
ghost use Rattle.iv_blocks.specs.MergeRows.{all_blocks, block_row, merge_text};
ghost use Rattle.iv_blocks.specs.Inside.StoredBlocks.{entry_shown};
ghost use Rattle.iv_blocks.specs.Inside.Texts.{entry_row};
ghost use Rattle.std.specs.List.{flat_map, take_while};
ghost use Rattle.iv_lines.specs.Genome.{sequence_name};
ghost use Rattle.iv_blocks.specs.Groups.{listed, sides};
ghost use Rattle.iv_blocks.specs.Inside.Groups.{is_minus};
ghost use Rattle.iv_blocks.specs.Inside.Lookups.{kept_in};
ghost use Rattle.iv_blocks.specs.Inside.Regions.{ReachesFrom, goes_on};
ghost use Rattle.iv_blocks.specs.RegionRows.{blocks_in, side_blocks_in, merge_text_in};

use crate::block_ledger::{BlockEntry, LedgerWalk};
use crate::blocks::Blocks;
use crate::group::{Group, Key, Side};
use crate::repair::of_group;
use iv_bytes::{Sink, WriteFault, put_pieces};
use iv_ledger::Meter;
use iv_lines::{Genome, RowBuffer};
use iv_track::{Region, Track};
use std::alloc::Allocator;

impl<A: Allocator + Copy> Blocks<A> {
    /// Prints a `merge`: a row for each block. One walk over the blocks: at most two steps more than there are, and no memory.
    /// On a fault the sink has taken a prefix of the rows.
    pub fn print_merge<S: Sink>(
        &self,
        track: &Track<A>,
        genome: &Genome<A>,
        meter: &mut Meter,
        sink: &mut S,
    ) -> Result<(), WriteFault>
        requires right { AreBlocksOf self.now.options (names_of genome.now) track.now.records self.now.entries }
        requires fit { All (Fits genome.now track.now.width) track.now.records }
        ensures text { Puts (S.state sink.old) (S.state sink.new) result (merge_text self.now.options genome.now track.now.records) }
        ensures steps { TakesUpTo meter.old meter.new (2 + length (all_blocks self.now.options genome.now track.now.records)) }
    {
        let walk = self.ledger.walk_all(meter);
        put_blocks(walk, None, genome, meter, sink)
    }

    /// Prints the rows of a `merge` whose block shares a position with the region.
    ///
    /// At most 3 steps more than there are rows, or 6 with strands apart, however many blocks there are elsewhere. On a fault the sink
    /// has taken a prefix of the rows.
    pub fn print_merge_in<S: Sink>(
        &self,
        region: Region,
        track: &Track<A>,
        genome: &Genome<A>,
        meter: &mut Meter,
        sink: &mut S,
    ) -> Result<(), WriteFault>
        requires region { region.start < region.stop }
        requires right { AreBlocksOf self.now.options (names_of genome.now) track.now.records self.now.entries }
        requires fit { All (Fits genome.now track.now.width) track.now.records }
        ensures text { Puts (S.state sink.old) (S.state sink.new) result (merge_text_in self.now.options genome.now track.now.records region.seq region.start region.stop) }
        ensures steps { TakesUpTo meter.old meter.new (3 * length (sides self.now.options.stranded) + length (blocks_in self.now.options genome.now track.now.records region.seq region.start region.stop)) }
    {
        if !self.options.stranded {
            return self.print_side_in(Side::Both, region, track, genome, meter, sink);
        }
        self.print_side_in(Side::Plus, region, track, genome, meter, sink)?;
        self.print_side_in(Side::Minus, region, track, genome, meter, sink)
    }

    /// Prints the rows of a side's blocks that share a position with the region. At most 3 steps more than there are rows.
    fn print_side_in<S: Sink>(
        &self,
        side: Side,
        region: Region,
        track: &Track<A>,
        genome: &Genome<A>,
        meter: &mut Meter,
        sink: &mut S,
    ) -> Result<(), WriteFault>
        requires right { AreBlocksOf self.now.options (names_of genome.now) track.now.records self.now.entries }
        requires fit { All (Fits genome.now track.now.width) track.now.records }
        ensures text { Puts (S.state sink.old) (S.state sink.new) result (flat_map (block_row (sequence_name genome.now region.seq) (listed self.now.options.summaries))
            (side_blocks_in self.now.options genome.now track.now.records region.seq region.start region.stop (is_minus side))) }
        ensures steps { TakesUpTo meter.old meter.new (3 + length (side_blocks_in self.now.options genome.now track.now.records region.seq region.start region.stop (is_minus side))) }
    {
        let group = Group {
            seq: region.seq,
            side,
        };
        let low = self.reaching_from(group, region.start, track, genome, meter);
        let walk = self.ledger.walk(&group.key(low), meter);
        put_blocks(walk, Some((group, region.stop)), genome, meter, sink)
    }

    /// Where the group's blocks begin that stop past the position: those that start here or later do, and the others don't. One
    /// step.
    fn reaching_from(
        &self,
        group: Group,
        position: u64,
        track: &Track<A>,
        genome: &Genome<A>,
        meter: &mut Meter,
    ) -> u32
        requires right { AreBlocksOf self.now.options (names_of genome.now) track.now.records self.now.entries }
        requires fit { All (Fits genome.now track.now.width) track.now.records }
        ensures low { ReachesFrom (kept_in self.now.entries group) position result }
        ensures steps { TakesUpTo meter.old meter.new 1 }
    {
        // No block starts past the end of its sequence.
        let end = genome.length_u32(group.seq).unwrap_or(0);
        let last = u64::from(end).min(position) as u32;
        match self.before(group, last, meter) {
            Some((start, stop)) => {
                if u64::from(stop) > position {
                    start
                } else {
                    last
                }
            }
            None => last,
        }
    }
}

/// Puts the rows of the blocks of a walk: of all, or of those before the first that is of another group or starts at this position or
/// later. One step for each row, and one more.
fn put_blocks<A: Allocator + Copy, S: Sink>(
    mut walk: LedgerWalk<'_, A>,
    until: Option<(Group, u64)>,
    genome: &Genome<A>,
    meter: &mut Meter,
    sink: &mut S,
) -> Result<(), WriteFault>
    ensures text { Puts (S.state sink.old) (S.state sink.new) result (flat_map (entry_row genome.now) (take_while (goes_on until) walk.entry)) }
    ensures steps { TakesUpTo meter.old meter.new (1 + length (take_while (goes_on until) walk.entry)) }
{
    while let Some(block) = walk.next(meter) {
        if !goes_on(until, block.key) {
            return Ok(());
        }
        put_block(genome, block, sink)?;
    }
    Ok(())
}

/// Whether a walk goes on at the block that is kept at a key.
fn goes_on(until: Option<(Group, u64)>, key: Key) -> bool
    ensures { (block : Kept) → result ≡ goes_on until (key, block) }
{
    let Some((group, stop)) = until else {
        return true;
    };
    match of_group(group, key, 0) {
        Some((start, _)) => u64::from(start) < stop,
        None => false,
    }
}

/// How many bytes of results are put together with the columns before them.
const MOST_TOGETHER: usize = 149;

/// Puts the row of a block: its sequence's name, start, stop and results.
fn put_block<A: Allocator + Copy, S: Sink>(
    genome: &Genome<A>,
    block: BlockEntry<'_>,
    sink: &mut S,
) -> Result<(), WriteFault>
    ensures { Puts (S.state sink.old) (S.state sink.new) result (entry_row genome.now (entry_shown block.entry)) }
{
    let (seq, _, start) = block.key;
    let name = genome.name_or_empty(seq);
    let (start, stop, results) = (u64::from(start), u64::from(block.stop), block.results);
    let mut end = RowBuffer::new();
    if results.len() > MOST_TOGETHER {
        end.put_after_numbers(name, start, stop, sink)?;
        return put_pieces(sink, &[results, b"\n"]);
    }
    end.prepend_byte(b'\n');
    end.prepend(results);
    end.put_after_numbers(name, start, stop, sink)
}
