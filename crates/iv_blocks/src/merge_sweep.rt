//! The rows of a merge of the records of a file, in one sweep.
ghost use Rattle.std.specs.Prelude.{◌≡◌, ◌≤◌, All, IfOk, length, filter, vec_capacity};
ghost use Rattle.iv_bytes.specs.Sinks.{Puts};
ghost use Rattle.iv_lines.specs.Ordered.{AreInOrder};
ghost use Rattle.iv_lines.specs.Read.{IsOnGenome};
ghost use Rattle.iv_cover.specs.Results.{HasRoom};
ghost use Rattle.iv_cover.specs.Inside.TrackBlocks.{with_members};
ghost use Rattle.iv_blocks.specs.Inside.BlockSweeps.{interval_row};
ghost use Rattle.iv_blocks.specs.IntervalOptions.{IsByIntervals};
ghost use Rattle.iv_blocks.specs.declared.options.BlockOptions.{BlockOptions};
ghost use Rattle.iv_blocks.specs.Groups.{listed};
ghost use Rattle.iv_blocks.specs.Inside.Groups.{is_on};
ghost use Rattle.iv_blocks.specs.MergeRows.{merge_text};
ghost use Rattle.iv_blocks.specs.Inside.MergeSweeps.{group_row, group_rows, sequence_rows};

use crate::group::Side;
use crate::joined_blocks::{BlockMembers, JoinedBlocks};
use crate::options::BlockOptions;
use crate::side_records::SideRecords;
use iv_bytes::{Sink, WriteFault, put_all};
use iv_cover::{ColumnSummary, Value, asks_distinct, put_results};
use iv_lines::{Genome, Interval, RowBuffer, put_interval};
use iv_places::PlacedRecords;
use std::alloc::{AllocError, Allocator, Global};
use std::marker::Model;

/// The options of a merge, the records of a file, and if a summary is `distinct`, room for a value of each.
#[derive(Drop)]
pub struct MergeSweep<'t, A: Allocator = Global> {
    options: BlockOptions,
    records: PlacedRecords<'t>,
    // The values of one block, while its row is printed.
    values: Vec<Value<'t>, A>,
}

impl<'t, A: Allocator> Model for MergeSweep<'t, A> {
    ghost use Rattle.std.specs.Prelude.{List, length, vec_capacity};
    ghost use Rattle.iv_lines.specs.RecordValue.{RecordValue};
    ghost use Rattle.iv_blocks.specs.Groups.{listed};
    ghost use Rattle.iv_blocks.specs.declared.options.BlockOptions.{BlockOptions};
    ghost use Rattle.iv_cover.specs.Results.{HasRoom};

    ghost Value = { BlockOptions × List RecordValue };

    ghost view = { λ s. (s.options, s.records) };

    ghost invariant = { λ s. HasRoom (vec_capacity s.values) (length s.records) (listed s.options.summaries) };
}

impl<'t, A: Allocator + Copy> MergeSweep<'t, A> {
    /// A sweep over the records. It takes all the memory that it needs: none if no summary is `distinct`.
    pub fn new(
        alloc: A,
        options: BlockOptions,
        records: PlacedRecords<'t>,
    ) -> Result<Self, AllocError>
        ensures { IfOk result (λ s. s ≡ (options, records.entry)) }
    {
        let room = if asks_distinct(options.summaries.as_slice()) {
            records.len()
        } else {
            0
        };
        let values = Vec::with_capacity(alloc, room)?;
        Ok(MergeSweep {
            options,
            records,
            values,
        })
    }

    /// Prints a row for each block: the name of its sequence, start and stop, and the results over its records. It takes no
    /// memory.
    ///
    /// The records are in the order of a track, and are on the genome. They are left as they are. On a fault the sink has taken
    /// a prefix of the text.
    pub fn print<S: Sink>(&mut self, genome: &'t Genome<A>, sink: &mut S) -> Result<(), WriteFault>
        requires order { AreInOrder self.old.1 }
        requires on_genome { All (IsOnGenome genome.now) self.old.1 }
        ensures text { Puts (S.state sink.old) (S.state sink.new) result (merge_text self.old.0 genome.now self.old.1) }
        ensures same { self.new ≡ self.old }
    {
        let mut left = self.records.again();
        for seq in 0..genome.count() {
            let name = genome.name_or_empty(seq);
            let (here, later) = left.split_sequence(seq);
            put_sequence(&self.options, name, &here, &mut self.values, sink)?;
            left = later;
        }
        Ok(())
    }
}

/// Puts the rows of the blocks of records of one sequence, side by side.
pub(crate) fn put_sequence<'t, A: Allocator, S: Sink>(
    options: &BlockOptions,
    name: &'t [u8],
    records: &PlacedRecords<'t>,
    values: &mut Vec<Value<'t>, A>,
    sink: &mut S,
) -> Result<(), WriteFault>
    requires room { HasRoom (vec_capacity values.old) (length records.now) (listed options.now.summaries) }
    ensures text { Puts (S.state sink.old) (S.state sink.new) result (sequence_rows options.now name.now records.now) }
    ensures room { vec_capacity values.old ≤ vec_capacity values.new }
{
    if !options.stranded {
        return put_side(options, name, Side::Both, records, values, sink);
    }
    put_side(options, name, Side::Plus, records, values, sink)?;
    put_side(options, name, Side::Minus, records, values, sink)
}

/// Puts the rows of the blocks of those of the records that are on a side.
fn put_side<'t, A: Allocator, S: Sink>(
    options: &BlockOptions,
    name: &'t [u8],
    side: Side,
    records: &PlacedRecords<'t>,
    values: &mut Vec<Value<'t>, A>,
    sink: &mut S,
) -> Result<(), WriteFault>
    requires room { HasRoom (vec_capacity values.old) (length records.now) (listed options.now.summaries) }
    ensures text { Puts (S.state sink.old) (S.state sink.new) result (group_rows options.now name.now (filter (is_on side) records.now)) }
    ensures room { vec_capacity values.old ≤ vec_capacity values.new }
{
    let summaries = options.summaries.as_slice();
    let on_side = SideRecords::of(records.again(), side);
    let mut blocks = JoinedBlocks::of(on_side, options.distance);
    while let Some((block, members)) = blocks.next_with_members(&mut ()) {
        put_block(summaries, name, block, &members, values, sink)?;
    }
    Ok(())
}

/// Puts the row of a block: its sequence's name, start and stop, and the results over its records.
fn put_block<'t, A: Allocator, S: Sink>(
    summaries: &[ColumnSummary],
    name: &'t [u8],
    block: Interval,
    members: &BlockMembers<SideRecords<'t>>,
    values: &mut Vec<Value<'t>, A>,
    sink: &mut S,
) -> Result<(), WriteFault>
    requires room { HasRoom (vec_capacity values.old) (length members.now) summaries.now }
    ensures text { Puts (S.state sink.old) (S.state sink.new) result (group_row name.now summaries.now (with_members block members.now)) }
    ensures room { vec_capacity values.old ≤ vec_capacity values.new }
{
    let (start, stop) = (u64::from(block.start), u64::from(block.stop));
    RowBuffer::new().put_after_numbers(name, start, stop, sink)?;
    put_results(summaries, name, members, values, sink)?;
    put_all(sink, b"\n")
}

/// Puts a row for each block of records at most `distance` bases apart: its sequence's name, start and stop.
///
/// The records are in the order of a track and are on the genome. One sweep over them, and no memory. On a fault the sink has
/// taken a prefix of the text.
pub fn put_merge<A: Allocator + Copy, S: Sink>(
    distance: u32,
    records: &PlacedRecords<'_>,
    genome: &Genome<A>,
    sink: &mut S,
) -> Result<(), WriteFault>
    requires order { AreInOrder records.now }
    requires on_genome { All (IsOnGenome genome.now) records.now }
    ensures { (o : BlockOptions) → IsByIntervals distance o → Puts (S.state sink.old) (S.state sink.new) result (merge_text o genome.now records.now) }
{
    let mut blocks = JoinedBlocks::of(records.again(), distance);
    while let Some(block) = blocks.next(&mut ()) {
        put_interval_row(block, genome, sink)?;
    }
    Ok(())
}

/// Puts the row of a block: its sequence's name, start and stop.
fn put_interval_row<A: Allocator + Copy, S: Sink>(
    block: Interval,
    genome: &Genome<A>,
    sink: &mut S,
) -> Result<(), WriteFault>
    ensures { Puts (S.state sink.old) (S.state sink.new) result (interval_row genome.now block) }
{
    let name = genome.name_or_empty(block.seq);
    put_interval(name, u64::from(block.start), u64::from(block.stop), sink)
}
