//! Changes of depth that remain, and a walk over those that are kept, sequence by sequence.
ghost use Rattle.std.specs.Prelude.{◌≡◌, ◌<◌, ℕ, OnSome};
ghost use Rattle.std.specs.Map.Iter.{TakesFirst};
ghost use Rattle.iv_lines.specs.Genome.{Sequences};
ghost use Rattle.iv_ledger.specs.Steps.{TakesUpTo};
ghost use Rattle.iv_track.specs.Inside.Steps.{TakesForEach};
ghost use Rattle.iv_depth.specs.Inside.DepthChanges.{Gives};

use crate::changes::Changes;
use iv_ledger::{Meter, Walk};
use std::alloc::Allocator;
use std::marker::Model;

/// The changes of depth that remain, by position, on one sequence or more.
pub(crate) trait DepthChanges {
    /// Counts the steps to the next change.
    type Meter;

    /// What the meter reads.
    ghost reading: { Self.Meter → ℕ };

    /// How many changes there are at most.
    ghost left: { Self → ℕ };

    /// They are the changes of a depth by rank and position, from a position of the sequence of this rank on. The depth before that
    /// position is the last number.
    ghost are_of: { Self → Sequences → (ℕ → ℕ → ℕ) → ℕ → ℕ → ℕ → Type 0 };

    /// They are the changes of a depth by rank and position, from the sequence of this rank on.
    ghost are_past: { Self → Sequences → (ℕ → ℕ → ℕ) → ℕ → Type 0 };

    /// The next position of the sequence of this rank at which the depth changes, and by how much. `None` if there is none.
    ///
    /// At most one step for a change, and none if there is no change.
    fn next_on(&mut self, seq: u32, meter: &mut Self::Meter) -> Option<(u64, i64)>
        ensures change { Gives are_of are_past seq self.old result self.new }
        ensures fewer { OnSome result (left self.new < left self.old) }
        ensures steps { TakesForEach (reading meter.old) (reading meter.new) (left self.old) (left self.new) };
}

/// The changes that remain, by the sequence's rank, and then by position.
///
/// Its model is the list of their entries.
#[derive(Drop)]
pub(crate) struct ChangeCursor<'a, A: Allocator + Copy> {
    walk: Walk<'a, (u32, u32), i64, A>,
    // The entry that was read ahead, `None` after the last.
    ahead: Option<((u32, u32), i64)>,
}

impl<'a, A: Allocator + Copy> Model for ChangeCursor<'a, A> {
    ghost use Rattle.std.specs.Prelude.{◌≡◌, [], None};
    ghost use Rattle.iv_depth.specs.Changes.{Entries};
    ghost use Rattle.iv_cover.specs.RecordWalks.{ahead_of};

    ghost Value = { Entries };

    ghost view = { λ c. ahead_of c.ahead c.walk };

    ghost invariant = { λ c. c.ahead ≡ None → c.walk ≡ [] };
}

impl<'a, A: Allocator + Copy> ChangeCursor<'a, A> {
    /// All changes, from the first on. At most 2 steps.
    pub(crate) fn of(changes: &'a Changes<A>, meter: &mut Meter) -> ChangeCursor<'a, A>
        ensures all { result ≡ changes.now }
        ensures steps { TakesUpTo meter.old meter.new 2 }
    {
        let mut walk = changes.walk_all(meter);
        let ahead = read(&mut walk, meter);
        ChangeCursor { walk, ahead }
    }
}

impl<'a, A: Allocator + Copy> DepthChanges for ChangeCursor<'a, A> {
    ghost use Rattle.std.specs.Prelude.{length};
    ghost use Rattle.iv_depth.specs.Inside.Walks.{AreAhead};

    type Meter = Meter;

    ghost reading = { λ meter. meter };

    ghost left = { λ entries. length entries };

    ghost are_of = { λ entries g f seq from d. AreAhead g f seq from d entries };

    ghost are_past = { λ entries g f seq. AreAhead g f seq 0 0 entries };

    fn next_on(&mut self, seq: u32, meter: &mut Meter) -> Option<(u64, i64)> {
        let ((change_seq, position), change) = self.ahead?;
        if change_seq != seq {
            return None;
        }
        self.ahead = read(&mut self.walk, meter);
        Some((u64::from(position), change))
    }
}

/// The next entry, `None` after the last. One step.
fn read<A: Allocator + Copy>(
    walk: &mut Walk<'_, (u32, u32), i64, A>,
    meter: &mut Meter,
) -> Option<((u32, u32), i64)>
    ensures next { TakesFirst (λ e. e) walk.old result walk.new }
    ensures step { TakesUpTo meter.old meter.new 1 }
{
    let (key, change) = walk.next(meter)?;
    Some((*key, *change))
}
