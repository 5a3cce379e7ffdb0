//! A region, which is an interval of a sequence, and the records of a track that share a position with it.
ghost use Rattle.std.specs.Prelude.{◌≡◌};
ghost use Rattle.iv_track.specs.Regions.{overlaps, TakesForPassed, end_step};
ghost use Rattle.iv_track.specs.Tracked.{is_from};
ghost use Rattle.std.specs.Iterator.{YieldsFirst};

use crate::track_records::TrackRecords;
use iv_ledger::Meter;
use iv_lines::RecordRef;
use std::alloc::{Allocator, Global};
use std::marker::Model;

/// An interval of the sequence of this rank, 0-based and half-open.
#[derive(Clone, Copy, Debug, PartialEq, Eq)]
pub struct Region {
    /// The rank of the sequence in the genome.
    pub seq: u32,
    /// The start, from 0.
    pub start: u64,
    /// The end, not included.
    pub stop: u64,
}

impl Region {
    /// Whether a record is on the region's sequence and shares a position with the region.
    pub(crate) fn overlaps(&self, feature: &RecordRef<'_>) -> bool
        ensures { result ≡ overlaps self.now.seq self.now.start self.now.stop feature.now }
    {
        feature.seq() == self.seq && feature.start() < self.stop && self.start < feature.stop()
    }

    /// Whether a record starts at the region's end or after it, or is on a later sequence.
    pub(crate) fn ends_before(&self, feature: &RecordRef<'_>) -> bool
        ensures { result ≡ is_from self.now.seq self.now.stop feature.now }
    {
        self.seq
            .cmp(&feature.seq())
            .then(self.stop.cmp(&feature.start()))
            .is_le()
    }
}

/// A walk over the records of a track that share a position with a region, in its order: an iterator whose `next` counts its
/// steps.
///
/// A record comes once for each of its copies. Its model is the list of the records that are left, with how many records of the
/// track the walk may still pass.
#[derive(Drop)]
pub struct TrackHits<'a, A: Allocator + Copy = Global> {
    pub(crate) records: TrackRecords<'a, A>,
    pub(crate) at: Region,
}

impl<'a, A: Allocator + Copy> Model for TrackHits<'a, A> {
    ghost use Rattle.std.specs.Prelude.{length};
    ghost use Rattle.iv_lines.specs.Ordered.{AreInOrder};
    ghost use Rattle.iv_track.specs.Regions.{HitsLeft, hits};
    ghost use Rattle.iv_track.specs.Inside.Tracked.{starting_before};

    ghost Value = { HitsLeft };

    ghost view = { λ h. record { records = hits h.records h.at.seq h.at.start h.at.stop; passes = length (starting_before h.at h.records) } };

    ghost invariant = { λ h. AreInOrder h.records };
}

impl<'a, A: Allocator + Copy> TrackHits<'a, A> {
    /// The next record, `None` after the last. A call is at most one step for each record that it passes, and the last call
    /// at most another.
    pub fn next(&mut self, meter: &mut Meter) -> Option<RecordRef<'a>>
        ensures feature { YieldsFirst (λ h. h.records) self.old result self.new }
        ensures steps { TakesForPassed meter.old meter.new self.old self.new (end_step result) }
    {
        while let Some(feature) = self.records.next(meter) {
            if self.at.overlaps(&feature) {
                return Some(feature);
            }
            if self.at.ends_before(&feature) {
                return None;
            }
        }
        None
    }
}
