//! The order of a track's places: it owns the rests of their lines.
ghost use Rattle.std.specs.Prelude.{◌≡◌};
ghost use Rattle.iv_lines.specs.RecordValue.{record_cmp, records_total};
ghost use Rattle.iv_places.specs.Inside.Places.{IsPlace, record_at};

use iv_ledger::{Keeps, Lends, Order, Seeks};
use iv_lines::{Interval, Record, RecordRef};
use iv_places::{Place, Rests};
use std::alloc::{AllocError, Allocator};
use std::cmp::Ordering;

/// The order of a track among places, and the rests that they mean, all of records of one width.
#[derive(Drop)]
pub(crate) struct ByRest<A: Allocator> {
    rests: Rests<A>,
}

impl<A: Allocator + Copy> ByRest<A> {
    /// The order of places of these rests.
    pub(crate) fn of(rests: Rests<A>) -> Self
        ensures { result.rests ≡ rests }
    {
        ByRest { rests }
    }
}

/// A number for a first guess: the sequence and the start.
fn number_of(interval: Interval) -> u64 {
    (u64::from(interval.seq) << 32) | u64::from(interval.start)
}

impl<A: Allocator + Copy> Order<Place> for ByRest<A> {
    type Seen = Record;

    ghost read = { λ o p. record_at o.rests.width o.rests.bytes p };

    ghost cmp = { record_cmp };

    ghost IsKey = { λ o p. IsPlace o.rests.width o.rests.bytes p };

    fn abbreviation(&self, key: &Place) -> u64 {
        number_of(key.interval)
    }

    ghost total = { records_total };
}

impl<'q, A: Allocator + Copy> Seeks<Place, RecordRef<'q>> for ByRest<A> {
    ghost sought = { λ r. r };

    fn guess(&self, probe: &RecordRef<'q>) -> u64 {
        number_of(probe.interval())
    }

    fn compare(&self, probe: &RecordRef<'q>, key: &Place) -> Ordering {
        self.rests.compare(probe, key)
    }
}

impl<'q, A: Allocator + Copy> Keeps<Place, RecordRef<'q>> for ByRest<A> {
    fn keep(&mut self, probe: RecordRef<'q>) -> Result<Place, AllocError> {
        self.rests.keep(&probe)
    }
}

impl<'a, A: Allocator + Copy> Lends<'a, Place> for ByRest<A> {
    type Lent = RecordRef<'a>;

    ghost lent = { λ r. r };

    fn lend(&'a self, key: &'a Place) -> RecordRef<'a> {
        self.rests.record(*key)
    }
}
