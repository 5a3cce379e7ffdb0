//! Blocks in order, read one ahead.
ghost use Rattle.std.specs.Prelude.{◌≡◌, ℕ, List, [], None, map};
ghost use Rattle.std.specs.Map.Iter.{TakesFirst};
ghost use Rattle.iv_lines.specs.declared.interval.Interval.{Interval};
ghost use Rattle.iv_ledger.specs.Steps.{TakesUpTo};
ghost use Rattle.iv_blocks.specs.Inside.BlockCursor.{interval_of, starts_until, GivesPassing, TakesForEach};

use crate::block_ledger::LedgerWalk;
use crate::blocks::Blocks;
use crate::joined_blocks::JoinedBlocks;
use iv_ledger::Meter;
use iv_lines::Interval;
use iv_places::PlacedRecords;
use std::alloc::Allocator;
use std::marker::Model;

/// Blocks in order, of which the next is taken if it starts early enough.
pub(crate) trait BlocksAhead {
    /// Counts the steps of calls.
    type Meter;

    /// The blocks that are left.
    ghost left: { Self → List Interval };
    /// How many steps are counted.
    ghost steps: { Self.Meter → ℕ };

    /// The next block, if it starts at this position of the sequence of this rank, or before it.
    ///
    /// At most one step for a block, and none if there is no such block.
    fn next_until(&mut self, seq: u32, position: u64, counter: &mut Self::Meter) -> Option<Interval>
        ensures next { GivesPassing (starts_until seq position) (left self.old) result (left self.new) }
        ensures steps { TakesForEach (steps counter.old) (steps counter.new) (left self.old) (left self.new) };
}

/// The blocks that remain, in order.
///
/// Its model is the list of them.
#[derive(Drop)]
pub(crate) struct BlockCursor<'a, A: Allocator + Copy> {
    walk: LedgerWalk<'a, A>,
    // The block that was read ahead, `None` after the last.
    next: Option<Interval>,
}

impl<'a, A: Allocator + Copy> Model for BlockCursor<'a, A> {
    ghost use Rattle.std.specs.Prelude.{◌≡◌, List, [], None, map};
    ghost use Rattle.iv_lines.specs.declared.interval.Interval.{Interval};
    ghost use Rattle.iv_cover.specs.RecordWalks.{ahead_of};
    ghost use Rattle.iv_blocks.specs.Inside.BlockCursor.{interval_of};

    ghost Value = { List Interval };

    ghost view = { λ a. ahead_of a.next (map interval_of a.walk) };

    ghost invariant = { λ a. a.next ≡ None → a.walk ≡ [] };
}

impl<'a, A: Allocator + Copy> BlockCursor<'a, A> {
    /// All blocks, from the first on. At most 2 steps.
    pub(crate) fn of(blocks: &'a Blocks<A>, meter: &mut Meter) -> BlockCursor<'a, A>
        ensures all { result ≡ map interval_of blocks.now.entries }
        ensures steps { TakesUpTo meter.old meter.new 2 }
    {
        let mut walk = blocks.ledger.walk_all(meter);
        let next = read(&mut walk, meter);
        BlockCursor { walk, next }
    }
}

impl<'a, A: Allocator + Copy> BlocksAhead for BlockCursor<'a, A> {
    type Meter = Meter;

    ghost left = { λ blocks. blocks };

    ghost steps = { λ meter. meter };

    fn next_until(&mut self, seq: u32, position: u64, meter: &mut Meter) -> Option<Interval> {
        let block = self.next?;
        if !is_until(block, seq, position) {
            return None;
        }
        self.next = read(&mut self.walk, meter);
        Some(block)
    }
}

/// Whether the block starts at this position of the sequence of this rank, or before it.
fn is_until(block: Interval, seq: u32, position: u64) -> bool
    ensures { result ≡ starts_until seq position block }
{
    block.seq < seq || (block.seq == seq && u64::from(block.start) <= position)
}

/// Where the next block is, `None` after the last. One step.
fn read<A: Allocator + Copy>(walk: &mut LedgerWalk<'_, A>, meter: &mut Meter) -> Option<Interval>
    ensures next { TakesFirst (λ b. b) (map interval_of walk.old) result (map interval_of walk.new) }
    ensures last { result ≡ None → walk.new ≡ [] }
    ensures step { TakesUpTo meter.old meter.new 1 }
{
    let entry = walk.next(meter)?;
    let (seq, _, start) = entry.key;
    Some(Interval {
        seq,
        start,
        stop: entry.stop,
    })
}

impl<'t> BlocksAhead for JoinedBlocks<PlacedRecords<'t>> {
    ghost use Rattle.iv_blocks.specs.Inside.BlockSweeps.{interval_of as interval_joined};

    /// A sweep counts no steps.
    type Meter = ();

    ghost left = { λ blocks. map interval_joined blocks };

    ghost steps = { λ _. 0 };

    fn next_until(&mut self, seq: u32, position: u64, _counter: &mut ()) -> Option<Interval> {
        let (next_seq, start) = self.next_start(&mut ())?;
        if next_seq > seq || (next_seq == seq && u64::from(start) > position) {
            return None;
        }
        self.next(&mut ())
    }
}
