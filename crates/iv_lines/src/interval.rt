//! An interval of a sequence, and the order of a track among intervals.
ghost use Rattle.std.specs.Prelude.{◌≡◌, ◌+◌, ◌==◌, ◌&&◌, nat_le, max, refl};
ghost use Rattle.std.specs.Ordering.{as_partial_cmp, eq_by_cmp};
ghost use Rattle.std.specs.Cmp.{partial_equiv_from_equiv, eq_by_cmp_equiv, partial_order_from_agreeing_total};
ghost use Rattle.iv_lines.specs.Intervals.{interval_cmp, interval_of, intervals_total};
ghost use Rattle.iv_lines.specs.RecordValue.{IsPlaced};

use crate::bed_record::BedRecord;
use std::cmp::Ordering;

/// An interval of a sequence, 0-based and half-open.
///
/// Its order is the order of a track among records that have nothing but their intervals: by rank, start and end.
#[derive(Clone, Copy, Debug)]
pub struct Interval {
    /// The rank of the sequence in the genome.
    pub seq: u32,
    /// The start, from 0.
    pub start: u32,
    /// The end, not included.
    pub stop: u32,
}

impl Interval {
    /// The interval of a record. That it has 32 bits is what `lemma_of_interval` of each kind of record shows.
    pub fn of<R: BedRecord>(feature: &R) -> Interval
        requires { IsPlaced (R.as_record feature.now) }
        ensures { result ≡ interval_of (R.as_record feature.now) }
    {
        Interval {
            seq: feature.seq(),
            start: feature.start() as u32,
            stop: feature.stop() as u32,
        }
    }

    /// Whether another is on the same sequence and starts at most `distance` bases past this one's end.
    pub fn is_joined_by(self, next: Interval, distance: u32) -> bool
        ensures { result ≡ ((next.seq == self.seq) && nat_le next.start (self.stop + distance)) }
    {
        let gap = next.start.saturating_sub(self.stop);
        next.seq == self.seq && gap <= distance
    }

    /// This interval and another, which starts no earlier: it ends where the later of the two does.
    pub fn with(self, next: Interval) -> Interval
        ensures { result ≡ record self { stop = max self.stop next.stop } }
    {
        self.part(self.start, self.stop.max(next.stop))
    }

    /// The part of it from one position to another, which is not included.
    pub fn part(self, start: u32, stop: u32) -> Interval
        ensures { result ≡ record self { start = start; stop = stop } }
    {
        Interval {
            seq: self.seq,
            start,
            stop,
        }
    }
}

// The comparisons are written out: derived ones would be proved as another term than the order that contracts name.
impl PartialEq for Interval {
    ghost eq = { eq_by_cmp interval_cmp };

    ghost laws = { partial_equiv_from_equiv (eq_by_cmp_equiv intervals_total) };

    fn eq(&self, other: &Interval) -> bool {
        self.cmp(other).is_eq()
    }
}

impl Eq for Interval {
    ghost laws = { eq_by_cmp_equiv intervals_total };
}

impl PartialOrd for Interval {
    ghost partial_cmp = { as_partial_cmp interval_cmp };

    ghost laws = { partial_order_from_agreeing_total interval_cmp intervals_total (λ _ _. refl) (λ _ _. refl) };

    fn partial_cmp(&self, other: &Interval) -> Option<Ordering> {
        Some(self.cmp(other))
    }
}

impl Ord for Interval {
    ghost cmp = { interval_cmp };

    ghost total = { intervals_total };

    ghost matches_partial_cmp = { λ _ _. refl };

    ghost matches_eq = { λ _ _. refl };

    #[inline(always)]
    fn cmp(&self, other: &Interval) -> Ordering {
        if self.seq != other.seq {
            return self.seq.cmp(&other.seq);
        }
        if self.start != other.start {
            return self.start.cmp(&other.start);
        }
        self.stop.cmp(&other.stop)
    }
}
