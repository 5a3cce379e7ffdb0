//! The blocks of a walk over records, and the records of a block.
ghost use Rattle.std.specs.Prelude.{◌≡◌, All, List, [], None, ◌≤◌, take, length};
ghost use Rattle.iv_lines.specs.Genome.{Sequences};
ghost use Rattle.iv_lines.specs.Ordered.{AreInOrder};
ghost use Rattle.iv_lines.specs.Read.{IsOnGenome};
ghost use Rattle.iv_lines.specs.RecordValue.{RecordValue};
ghost use Rattle.iv_ledger.specs.Steps.{TakesUpTo};
ghost use Rattle.iv_cover.specs.Inside.RemainingBlocks.{remaining_blocks};
ghost use Rattle.iv_cover.specs.Inside.TrackBlocks.{blocks_of, GivesFirst};
ghost use Rattle.iv_blocks.specs.Inside.JoinedBlocks.{GivesBlock, IsFirstOf, first_start};
ghost use Rattle.std.specs.Option.{option_map};
ghost use Rattle.iv_cover.specs.RecordWalks.{GivesRecord, ahead_of};

use iv_cover::{RecordWalk, ahead_again, look_ahead, next_of};
use iv_lines::Interval;
use std::marker::Model;

/// The blocks that remain of a walk over records.
///
/// Records of one sequence that overlap, are book-ended or are at most `distance` bases apart are in one
/// block. Blocks come by the sequence's rank, and then by start. The model is the list of those that are left,
/// each with the records that are in it. No call takes memory.
#[derive(Drop)]
pub(crate) struct JoinedBlocks<W: RecordWalk> {
    records: W,
    // The record that closed the block before.
    ahead: Option<W::Record>,
    distance: u32,
}

impl<W: RecordWalk> Model for JoinedBlocks<W> {
    ghost use Rattle.std.specs.Prelude.{List, None};
    ghost use Rattle.iv_cover.specs.Inside.RemainingBlocks.{remaining_blocks};
    ghost use Rattle.std.specs.Option.{option_map};
    ghost use Rattle.iv_cover.specs.RecordWalks.{ahead_of};
    ghost use Rattle.iv_cover.specs.Inside.TrackBlocks.{BlockWithMembers};

    ghost Value = { List BlockWithMembers };

    ghost view = { λ b. remaining_blocks b.distance None (ahead_of (option_map W.Record.as_record b.ahead) (W.left b.records)) };
}

impl<W: RecordWalk> JoinedBlocks<W> {
    /// The blocks of the records that a walk has left.
    ///
    /// If these are in the order of a track, they are the blocks of the definition for every genome that the records are on.
    pub(crate) fn of(records: W, distance: u32) -> Self
        ensures left { result ≡ remaining_blocks distance None (W.left records) }
        ensures blocks { AreInOrder (W.left records) → (g : Sequences) → All (IsOnGenome g) (W.left records) → result ≡ blocks_of distance g (W.left records) }
    {
        JoinedBlocks {
            records,
            ahead: None,
            distance,
        }
    }

    /// The next block, `None` after the last. It reads the walk up to the first record of the block after it.
    #[inline(always)]
    pub(crate) fn next(&mut self, meter: &mut W::Meter) -> Option<Interval>
        ensures { GivesFirst self.old result self.new }
    {
        let (block, _) = self.next_counted(meter)?;
        Some(block)
    }

    /// The next block and the records that are in it, in their order; `None` after the last. It goes as far as `next`.
    pub(crate) fn next_with_members(
        &mut self,
        meter: &mut W::Meter,
    ) -> Option<(Interval, BlockMembers<W>)>
        ensures { GivesBlock self.old result self.new }
    {
        let first = ahead_again::<W>(&self.ahead);
        let records = self.records.again();
        let (block, count) = self.next_counted(meter)?;
        Some((block, BlockMembers::of(first, records, count)))
    }

    /// Where the next block starts: the rank of its sequence, and the position. `None` if no block is left. At most one step.
    #[inline(always)]
    pub(crate) fn next_start(&mut self, meter: &mut W::Meter) -> Option<(u32, u32)>
        ensures start { result ≡ first_start self.old }
        ensures same { self.new ≡ self.old }
        ensures steps { TakesUpTo (W.steps meter.old) (W.steps meter.new) 1 }
    {
        look_ahead(&mut self.ahead, &mut self.records, meter);
        let first = W::interval(self.ahead.as_ref()?);
        Some((first.seq, first.start))
    }

    /// The next block, and how many records are in it.
    #[inline(always)]
    fn next_counted(&mut self, meter: &mut W::Meter) -> Option<(Interval, u64)>
        ensures { IsFirstOf self.old result self.new }
    {
        self.records.lemma_of_few();
        let first = next_of(&mut self.ahead, &mut self.records, meter)?;
        let mut block = W::interval(&first);
        let mut count: u64 = 1;
        while let Some(record) = self.records.next(meter) {
            let next = W::interval(&record);
            if !block.is_joined_by(next, self.distance) {
                self.ahead = Some(record);
                return Some((block, count));
            }
            block = block.with(next);
            count += 1;
        }
        Some((block, count))
    }
}

/// The records that are in a block, one after another, on a walk of their own: so many of those that a walk had left before it.
///
/// The model is the list of those that are left. No call takes memory.
#[derive(Drop)]
pub(crate) struct BlockMembers<W: RecordWalk> {
    // The record that was read ahead, before those of the walk.
    first: Option<W::Record>,
    records: W,
    count: u64,
}

impl<W: RecordWalk> Model for BlockMembers<W> {
    ghost use Rattle.std.specs.Prelude.{◌≤◌, List, length, take};
    ghost use Rattle.iv_lines.specs.RecordValue.{RecordValue};
    ghost use Rattle.std.specs.Option.{option_map};
    ghost use Rattle.iv_cover.specs.RecordWalks.{ahead_of};

    ghost Value = { List RecordValue };

    ghost view = { λ m. take m.count (ahead_of (option_map W.Record.as_record m.first) (W.left m.records)) };

    ghost invariant = { λ m. m.count ≤ length (ahead_of (option_map W.Record.as_record m.first) (W.left m.records)) };
}

impl<W: RecordWalk> BlockMembers<W> {
    /// So many records from the front: the one that was read ahead, if there is one, and those of the walk.
    pub(crate) fn of(first: Option<W::Record>, records: W, count: u64) -> Self
        requires { count ≤ length (ahead_of (option_map W.Record.as_record first) (W.left records)) }
        ensures { result ≡ take count (ahead_of (option_map W.Record.as_record first) (W.left records)) }
    {
        BlockMembers {
            first,
            records,
            count,
        }
    }

    /// How many are left.
    pub(crate) fn len(&self) -> u64
        ensures { result ≡ length self.now }
    {
        self.count
    }

    /// The next record, `None` after the last. A call is at most one step.
    pub(crate) fn next(&mut self, meter: &mut W::Meter) -> Option<W::Record>
        ensures first { GivesRecord W.Record.as_record self.old result self.new }
        ensures steps { TakesUpTo (W.steps meter.old) (W.steps meter.new) 1 }
    {
        if self.count == 0 {
            return None;
        }
        self.count -= 1;
        next_of(&mut self.first, &mut self.records, meter)
    }

    /// The same records once more.
    pub(crate) fn again(&self) -> Self
        ensures { result ≡ self.now }
    {
        BlockMembers::of(
            ahead_again::<W>(&self.first),
            self.records.again(),
            self.count,
        )
    }
}
