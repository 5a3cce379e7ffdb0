//! The rows of a complement: of a track, of one region of it, or of the records of a file.
ghost use Rattle.std.specs.Prelude.{◌≡◌, ◌+◌, All, not, length, OnOk, ◌<◌, ◌≤◌, ◌==◌, ◌&&◌, ◌||◌, nat_le, ℕ, [], Some, if◌then◌else◌};
ghost use Rattle.std.specs.List.{flat_map, take_while};
ghost use Rattle.iv_bytes.specs.Sinks.{Puts};
ghost use Rattle.iv_lines.specs.Ordered.{AreInOrder};
ghost use Rattle.iv_lines.specs.Read.{IsOnGenome, Fits};
ghost use Rattle.iv_lines.specs.Genome.{seq_count, sequence_name};
ghost use Rattle.iv_lines.specs.Named.{names_of};
ghost use Rattle.iv_ledger.specs.Steps.{TakesUpTo};
ghost use Rattle.iv_blocks.specs.Inside.BlockCursor.{gap_between, gaps_between, starts_until, drop_while, texts, TakesForEach};
ghost use Rattle.iv_blocks.specs.KeptBlocks.{AreBlocksOf, Kept};
ghost use Rattle.iv_blocks.specs.ComplementRows.{gap_row, complement_text};
ghost use Rattle.iv_blocks.specs.Groups.{plain_options};
ghost use Rattle.iv_blocks.specs.MergeRows.{all_blocks};
ghost use Rattle.iv_blocks.specs.Inside.Regions.{BeginsGap, gaps_from, kept_on};
ghost use Rattle.iv_blocks.specs.RegionRows.{gaps_in, complement_text_in};

use crate::block_cursor::{BlockCursor, BlocksAhead};
use crate::blocks::Blocks;
use crate::group::{Group, Side};
use crate::joined_blocks::JoinedBlocks;
use iv_bytes::{Sink, WriteFault};
use iv_ledger::Meter;
use iv_lines::{Genome, put_interval};
use iv_places::PlacedRecords;
use iv_track::{Region, Track};
use std::alloc::Allocator;

impl<A: Allocator + Copy> Blocks<A> {
    /// Prints a `complement`: a row for each maximal interval that no block covers, of all sequences, or if `limited`, of
    /// those with a block.
    ///
    /// One walk over the blocks: at most two steps more than there are, and no memory. Lengths are those of this genome.
    /// On a fault the sink has taken a prefix of the rows.
    pub fn print_complement<S: Sink>(
        &self,
        limited: bool,
        track: &Track<A>,
        genome: &Genome<A>,
        meter: &mut Meter,
        sink: &mut S,
    ) -> Result<(), WriteFault>
        requires joined { self.now.options ≡ plain_options 0 }
        requires right { AreBlocksOf self.now.options (names_of genome.now) track.now.records self.now.entries }
        requires fit { All (Fits genome.now track.now.width) track.now.records }
        ensures text { Puts (S.state sink.old) (S.state sink.new) result (complement_text limited genome.now track.now.records) }
        ensures steps { TakesUpTo meter.old meter.new (2 + length (all_blocks self.now.options genome.now track.now.records)) }
    {
        let mut ahead = BlockCursor::of(self, meter);
        put_gaps(limited, genome, &mut ahead, meter, sink)
    }

    /// Prints the rows of a `complement` whose interval shares a position with the region. If `limited`, there is none on a sequence
    /// without a block.
    ///
    /// At most 2 steps more than there are rows, however many blocks there are elsewhere. Lengths are those of this genome. On a
    /// fault the sink has taken a prefix of the rows.
    pub fn print_complement_in<S: Sink>(
        &self,
        limited: bool,
        region: Region,
        track: &Track<A>,
        genome: &Genome<A>,
        meter: &mut Meter,
        sink: &mut S,
    ) -> Result<(), WriteFault>
        requires region { region.start < region.stop }
        requires joined { self.now.options ≡ plain_options 0 }
        requires right { AreBlocksOf self.now.options (names_of genome.now) track.now.records self.now.entries }
        requires fit { All (Fits genome.now track.now.width) track.now.records }
        ensures text { Puts (S.state sink.old) (S.state sink.new) result (complement_text_in limited genome.now track.now.records region.seq region.start region.stop) }
        ensures steps { TakesUpTo meter.old meter.new (2 + length (gaps_in limited genome.now track.now.records region.seq region.start region.stop)) }
    {
        let group = Group {
            seq: region.seq,
            side: Side::Both,
        };
        // No block starts past the end of its sequence.
        let end = genome.length_u32(region.seq).unwrap_or(0);
        let last = u64::from(end).min(region.start) as u32;
        match self.before(group, last, meter) {
            Some((_, low)) => {
                self.print_gaps_from(low, limited, region, track, genome, meter, sink)
            }
            None => { self.print_gaps_from(0, limited, region, track, genome, meter, sink) }
        }
    }

    /// Prints the rows of the gaps from `low` on that share a position with the region. A gap may begin at `low`, and the blocks from
    /// there on start past the region's start.
    ///
    /// At most one step more than there are rows.
    fn print_gaps_from<S: Sink>(
        &self,
        low: u32,
        limited: bool,
        region: Region,
        track: &Track<A>,
        genome: &Genome<A>,
        meter: &mut Meter,
        sink: &mut S,
    ) -> Result<(), WriteFault>
        requires joined { self.now.options ≡ plain_options 0 }
        requires right { AreBlocksOf self.now.options (names_of genome.now) track.now.records self.now.entries }
        requires fit { All (Fits genome.now track.now.width) track.now.records }
        requires begins { BeginsGap (kept_on self.now.entries region.seq) low }
        requires past { (x : ℕ) (b : Kept) → low ≤ x → kept_on self.now.entries region.seq x ≡ Some b → region.start < x }
        ensures text { Puts (S.state sink.old) (S.state sink.new) result (flat_map (gap_row (sequence_name genome.now region.seq)) (gaps_from limited genome.now track.now.records region.seq region.start region.stop low)) }
        ensures steps { TakesUpTo meter.old meter.new (1 + length (gaps_from limited genome.now track.now.records region.seq region.start region.stop low)) }
    {
        let group = Group {
            seq: region.seq,
            side: Side::Both,
        };
        let name = genome.name_or_empty(region.seq);
        let mut low = low;
        'gaps: while u64::from(low) < region.stop {
            let Some((next, high)) = self.from(group, low, meter) else {
                let end = genome.length_or_zero(region.seq);
                return put_last_gap(limited, name, low as u64, end, region.start, sink);
            };
            put_gap(name, low as u64, next as u64, sink)?;
            low = high;
        }
        Ok(())
    }
}

/// Puts the gaps between blocks, of all sequences, or if `limited`, of those with a block, and goes past the blocks.
fn put_gaps<B: BlocksAhead, A: Allocator + Copy, S: Sink>(
    limited: bool,
    genome: &Genome<A>,
    blocks: &mut B,
    counter: &mut B::Meter,
    sink: &mut S,
) -> Result<(), WriteFault>
    ensures text { Puts (S.state sink.old) (S.state sink.new) result (texts (not limited) genome.now 0 (seq_count genome.now) (B.left blocks.old)) }
    ensures steps { TakesForEach (B.steps counter.old) (B.steps counter.new) (B.left blocks.old) (B.left blocks.new) }
{
    for seq in 0..genome.count() {
        let name = genome.name_or_empty(seq);
        let length = genome.length_or_zero(seq);
        put_sequence(!limited, name, seq, length, blocks, counter, sink)?;
    }
    Ok(())
}

/// Puts the gaps of one sequence, and goes past its blocks. If it has no block, it is one gap, if `empty_wanted`.
fn put_sequence<B: BlocksAhead, S: Sink>(
    empty_wanted: bool,
    name: &[u8],
    seq: u32,
    length: u64,
    blocks: &mut B,
    counter: &mut B::Meter,
    sink: &mut S,
) -> Result<(), WriteFault>
    ensures text { Puts (S.state sink.old) (S.state sink.new) result (flat_map (gap_row name.now) (gaps_between empty_wanted 0 length (take_while (starts_until seq length) (B.left blocks.old)))) }
    ensures past { OnOk result (B.left blocks.new ≡ drop_while (starts_until seq length) (B.left blocks.old)) }
    ensures steps { TakesForEach (B.steps counter.old) (B.steps counter.new) (B.left blocks.old) (B.left blocks.new) }
{
    let mut shown = empty_wanted;
    let mut start: u64 = 0;
    while let Some(block) = blocks.next_until(seq, length, counter) {
        put_gap(name, start, block.start as u64, sink)?;
        start = block.stop as u64;
        shown = true;
    }
    if !shown {
        return Ok(());
    }
    put_gap(name, start, length, sink)
}

/// Puts the row of a gap, as [`put_interval`] does, if it has a position.
fn put_gap<S: Sink>(name: &[u8], start: u64, stop: u64, sink: &mut S) -> Result<(), WriteFault>
    ensures { Puts (S.state sink.old) (S.state sink.new) result (flat_map (gap_row name.now) (gap_between start stop)) }
{
    if start >= stop {
        return Ok(());
    }
    put_interval(name, start, stop, sink)
}

/// Puts the row of the gap after the last block, if it has a position past `start`. If `limited`, a gap that begins at 0 isn't shown:
/// its sequence has no block.
fn put_last_gap<S: Sink>(
    limited: bool,
    name: &[u8],
    low: u64,
    end: u64,
    start: u64,
    sink: &mut S,
) -> Result<(), WriteFault>
    ensures { Puts (S.state sink.old) (S.state sink.new) result (flat_map (gap_row name.now) (if (limited && (low == 0)) || nat_le end start then [] else gap_between low end)) }
{
    if (limited && low == 0) || end <= start {
        return Ok(());
    }
    put_gap(name, low, end, sink)
}

/// Puts a row for each maximal interval that no record covers, of all sequences, or if `limited`, of those with a record.
///
/// The records are in the order of a track and are on the genome. One sweep over them, and no memory. On a fault the sink has
/// taken a prefix of the text.
pub fn put_complement<A: Allocator + Copy, S: Sink>(
    limited: bool,
    records: &PlacedRecords<'_>,
    genome: &Genome<A>,
    sink: &mut S,
) -> Result<(), WriteFault>
    requires order { AreInOrder records.now }
    requires on_genome { All (IsOnGenome genome.now) records.now }
    ensures { Puts (S.state sink.old) (S.state sink.new) result (complement_text limited genome.now records.now) }
{
    let mut blocks = JoinedBlocks::of(records.again(), 0);
    put_gaps(limited, genome, &mut blocks, &mut (), sink)
}
