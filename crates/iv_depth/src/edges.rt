//! Where the records of a walk start and where they stop, sequence by sequence, and the net changes of depth there.
ghost use Rattle.std.specs.Prelude.{◌≡◌, ◌≤◌, [], length, All, IfOk, ◌+◌, ◌<◌, MatchOption, OnSome};
ghost use Rattle.iv_lines.specs.Ordered.{AreInOrder};
ghost use Rattle.iv_depth.specs.Inside.SequenceEdges.{TakesSequence, WritesSequence};
ghost use Rattle.iv_depth.specs.Inside.Edges.{BeginsElse, GivesChange, IsLeast, Passes, Rise, edge_count};

use iv_cover::{RecordWalk, next_of};
use iv_places::order_neighbors;
use std::alloc::{AllocError, Allocator, Global};
use std::marker::Model;

/// Where records start and, beside these, where they stop, each from the least on: those that remain.
#[derive(Drop)]
pub(crate) struct Edges<'a> {
    pub(crate) starts: &'a [u32],
    pub(crate) stops: &'a [u32],
}

impl<'a> Model for Edges<'a> {
    ghost use Rattle.std.specs.Prelude.{◌<◌, ◌^◌, length};
    ghost use Rattle.iv_depth.specs.Inside.Edges.{Remaining};

    ghost Value = { Remaining };

    ghost view = { λ e. record { starts = e.starts.now; stops = e.stops.now } };

    ghost invariant = { λ e. (length e.starts.now < 2 ^ 63) × (length e.stops.now < 2 ^ 63) };
}

impl<'a> Edges<'a> {
    /// The next position at which not as many start as stop, and how many more start there. `None` if there is none.
    pub(crate) fn next_change(&mut self) -> Option<(u32, i64)>
        ensures change { GivesChange self.old result self.new }
        ensures no_more { edge_count self.new ≤ edge_count self.old }
        ensures fewer { OnSome result (edge_count self.new < edge_count self.old) }
    {
        while let Some(position) = least(self.starts, self.stops) {
            let (begun, starts) = pass(self.starts, position);
            let (ended, stops) = pass(self.stops, position);
            self.starts = starts;
            self.stops = stops;
            if begun != ended {
                return Some((position, begun as i64 - ended as i64));
            }
        }
        None
    }
}

/// The least position of a start or a stop.
fn least(starts: &[u32], stops: &[u32]) -> Option<u32>
    ensures { MatchOption result ((starts.now ≡ []) × (stops.now ≡ [])) (λ position. IsLeast starts.now stops.now position) }
{
    match (starts.first(), stops.first()) {
        (Some(start), Some(stop)) => Some(*start.min(stop)),
        (Some(position), None) | (None, Some(position)) => Some(*position),
        (None, None) => None,
    }
}

/// How many are at the position, if it is the least, and those after it.
fn pass(items: &[u32], position: u32) -> (usize, &[u32])
    ensures passed { Rise position items.now → Passes position result.0 (position + 1) items.now result.1.now }
    ensures none { result.0 ≡ 0 → BeginsElse position items.now }
    ensures len { result.0 + length result.1.now ≡ length items.now }
{
    let mut count = 0;
    let mut left = items;
    while let Some((item, others)) = left.split_first() {
        if *item != position {
            return (count, left);
        }
        count += 1;
        left = others;
    }
    (count, left)
}

/// The records that are left of a walk, and where those of one sequence start and where they stop.
#[derive(Drop)]
pub(crate) struct SequenceEdges<W: RecordWalk, A: Allocator = Global> {
    records: W,
    // The record that was read ahead of those: it was on a later sequence.
    ahead: Option<W::Record>,
    starts: Vec<u32, A>,
    stops: Vec<u32, A>,
}

impl<W: RecordWalk, A: Allocator> Model for SequenceEdges<W, A> {
    ghost use Rattle.std.specs.Prelude.{◌≤◌, length, vec_capacity};
    ghost use Rattle.std.specs.Option.{option_map};
    ghost use Rattle.iv_cover.specs.RecordWalks.{ahead_of};
    ghost use Rattle.iv_depth.specs.Inside.SequenceEdges.{Gathered};

    ghost Value = { Gathered };

    ghost view = { λ e. record { left = ahead_of (option_map W.Record.as_record e.ahead) (W.left e.records); starts = e.starts.items; stops = e.stops.items } };

    ghost invariant = { λ e.
        let few = length (ahead_of (option_map W.Record.as_record e.ahead) (W.left e.records)) in
        (few ≤ vec_capacity e.starts) × (few ≤ vec_capacity e.stops) };
}

impl<W: RecordWalk, A: Allocator + Copy> SequenceEdges<W, A> {
    /// Before the first of at most `count` records. It takes all the memory that it will need: 8 bytes for each, of which those of the
    /// records of one sequence are used.
    pub(crate) fn of(alloc: A, records: W, count: usize) -> Result<Self, AllocError>
        requires { length (W.left records) ≤ count }
        ensures { IfOk result (λ e. e.left ≡ W.left records) }
    {
        let starts = Vec::with_capacity(alloc, count)?;
        let stops = Vec::with_capacity(alloc, count)?;
        Ok(SequenceEdges {
            records,
            ahead: None,
            starts,
            stops,
        })
    }

    /// Goes over the records on the sequence of this rank, which come next: where they start and where they stop is known then.
    pub(crate) fn gather(&mut self, seq: u32, meter: &mut W::Meter)
        requires order { AreInOrder self.old.left }
        requires from { All (λ r. seq ≤ r.seq) self.old.left }
        ensures { TakesSequence seq self.old.left self.new }
    {
        self.starts.clear();
        self.stops.clear();
        self.take_records(seq, meter);
        order_neighbors(self.stops.as_mut_slice(), |before, here| *before > *here);
        self.stops.sort_unstable();
    }

    /// Writes where the records on the sequence of this rank start and stop, up to the first one on another.
    fn take_records(&mut self, seq: u32, meter: &mut W::Meter)
        requires order { AreInOrder self.old.left }
        requires from { All (λ r. seq ≤ r.seq) self.old.left }
        requires starts { self.old.starts ≡ [] }
        requires stops { self.old.stops ≡ [] }
        ensures { WritesSequence seq self.old self.new }
    {
        while let Some(record) = next_of(&mut self.ahead, &mut self.records, meter) {
            let interval = W::interval(&record);
            if interval.seq != seq {
                self.ahead = Some(record);
                return;
            }
            self.starts.push_reserved(interval.start);
            self.stops.push_reserved(interval.stop);
        }
    }

    /// Where the records that were gone over start and stop.
    pub(crate) fn edges(&self) -> Edges<'_>
        ensures { result ≡ record { starts = self.now.starts; stops = self.now.stops } }
    {
        Edges {
            starts: self.starts.as_slice(),
            stops: self.stops.as_slice(),
        }
    }
}
