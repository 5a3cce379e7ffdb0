//! Groups of records that may be in one block with one another, and the walk over the members of one.
ghost use Rattle.std.specs.Prelude.{◌≡◌, if◌then◌else◌, not, Bool, true, false, length, MatchOption};
ghost use Rattle.std.specs.Iterator.{YieldsFirst};
ghost use Rattle.iv_lines.specs.Ordered.{AreInOrder};
ghost use Rattle.iv_ledger.specs.Steps.{TakesUpTo};
ghost use Rattle.iv_blocks.specs.Inside.Groups.{is_in_group, between_on, is_apart, is_minus as is_minus_side, is_on, members_between};
ghost use Rattle.iv_blocks.specs.Groups.{is_on_side, is_strand};
ghost use Rattle.iv_blocks.specs.Inside.MembersLeft.{TakesForEach, end_step};
ghost use Rattle.iv_blocks.specs.Inside.Insertion.{key_of};

use iv_ledger::Meter;
use iv_lines::{RecordRef, Strand};
use iv_track::{Track, TrackRecords};
use std::alloc::Allocator;
use std::marker::Model;

/// Where a block is kept: the rank of its sequence, whether its records are those on `-` if strands are apart, and its start.
pub(crate) type Key = (u32, bool, u32);

/// Which records of a sequence may be in one block with one another: all, or those of one strand.
#[derive(Clone, Copy, PartialEq, Eq)]
pub(crate) enum Side {
    Both,
    Plus,
    Minus,
}

impl Side {
    /// The side that records of this strand are on; with strands apart, `None` if they are on neither.
    fn of(stranded: bool, strand: Option<Strand>) -> Option<Side>
        ensures { MatchOption result
            ((minus : Bool) → (if stranded then is_strand minus strand else not minus) ≡ false)
            (λ side. (is_apart side ≡ stranded) × ((if stranded then is_strand (is_minus_side side) strand else not (is_minus_side side)) ≡ true)) }
    {
        if !stranded {
            return Some(Side::Both);
        }
        match strand {
            Some(Strand::Plus) => Some(Side::Plus),
            Some(Strand::Minus) => Some(Side::Minus),
            _ => None,
        }
    }

    /// Whether it is the strand `-`.
    pub(crate) fn is_minus(self) -> bool
        ensures { result ≡ is_minus_side self }
    {
        matches!(self, Side::Minus)
    }

    /// Whether the record is on this side. If both are one, its line isn't looked at.
    pub(crate) fn has(self, feature: &RecordRef<'_>) -> bool
        ensures { result ≡ is_on self feature.now }
    {
        match self {
            Side::Both => true,
            Side::Plus | Side::Minus => self.has_strand(feature.strand()),
        }
    }

    /// Whether records of this strand are on this side.
    fn has_strand(self, strand: Option<Strand>) -> bool
        ensures { result ≡ (if is_apart self then is_strand (is_minus_side self) strand else not (is_minus_side self)) }
    {
        match self {
            Side::Both => true,
            Side::Plus => matches!(strand, Some(Strand::Plus)),
            Side::Minus => matches!(strand, Some(Strand::Minus)),
        }
    }
}

/// Records that may be in one block with one another: those of a sequence, or of one strand of it.
#[derive(Clone, Copy, Drop)]
pub(crate) struct Group {
    /// The rank of the sequence.
    pub(crate) seq: u32,
    pub(crate) side: Side,
}

impl Group {
    /// The group that the record is in; with strands apart, `None` if it is on neither of them.
    pub(crate) fn of(stranded: bool, feature: &RecordRef<'_>) -> Option<Group>
        ensures { MatchOption result
            ((minus : Bool) → is_on_side stranded minus feature.now ≡ false)
            (λ g. (is_apart g.side ≡ stranded) × (is_in_group stranded g.seq (is_minus_side g.side) feature.now ≡ true)) }
    {
        let side = Side::of(stranded, feature.strand())?;
        Some(Group {
            seq: feature.seq(),
            side,
        })
    }

    /// Whether the record is in the group.
    pub(crate) fn has(self, feature: &RecordRef<'_>) -> bool
        ensures { result ≡ is_in_group (is_apart self.side) self.seq (is_minus_side self.side) feature.now }
    {
        feature.seq() == self.seq && self.side.has_strand(feature.strand())
    }

    /// Where its block with this start is kept.
    pub(crate) fn key(self, start: u32) -> Key
        ensures { result ≡ key_of self start }
    {
        (self.seq, self.side.is_minus(), start)
    }
}

/// The records of a group that start within a range, in the order of the track: an iterator whose `next` counts its steps.
///
/// Its model is the list of those that are left, with how many records it goes past for them.
#[derive(Drop)]
pub(crate) struct Members<'a, A: Allocator + Copy> {
    records: TrackRecords<'a, A>,
    group: Group,
    to: u32,
}

impl<'a, A: Allocator + Copy> Model for Members<'a, A> {
    ghost use Rattle.std.specs.Prelude.{length};
    ghost use Rattle.iv_blocks.specs.Inside.MembersLeft.{MembersLeft, IsAhead};
    ghost use Rattle.iv_blocks.specs.Inside.Groups.{between_on, members_between};

    ghost Value = { MembersLeft };

    ghost view = { λ m. record { members = members_between m.group 0 m.to m.records; passed_records = length (between_on m.group.seq 0 m.to m.records) } };

    ghost invariant = { λ m. IsAhead m.group.seq m.records };
}

impl<'a, A: Allocator + Copy> Members<'a, A> {
    /// The records of the group that start at `from` or after, and below `to`. At most 1 step.
    pub(crate) fn of(
        track: &'a Track<A>,
        group: Group,
        from: u32,
        to: u32,
        meter: &mut Meter,
    ) -> Members<'a, A>
        ensures members { result ≡ record { members = members_between group from to track.now.records; passed_records = length (between_on group.seq from to track.now.records) } }
        ensures ordered { AreInOrder track.now.records }
        ensures steps { TakesUpTo meter.old meter.new 1 }
    {
        // If the range is empty, a walk may not be able to begin at its start.
        let (from, to) = if from < to { (from, to) } else { (0, 0) };
        Members {
            records: track.walk(group.seq, u64::from(from), meter),
            group,
            to,
        }
    }

    /// The next record, `None` after the last.
    ///
    /// A call takes at most one step for each record of the sequence that it goes past, and one more to find the end.
    pub(crate) fn next(&mut self, meter: &mut Meter) -> Option<RecordRef<'a>>
        ensures member { YieldsFirst (λ m. m.members) self.old result self.new }
        ensures steps { TakesForEach meter.old meter.new self.old self.new (end_step result) }
    {
        while let Some(feature) = self.records.next(meter) {
            if feature.seq() != self.group.seq || feature.start() >= u64::from(self.to) {
                return None;
            }
            if self.group.has(&feature) {
                return Some(feature);
            }
        }
        None
    }
}
