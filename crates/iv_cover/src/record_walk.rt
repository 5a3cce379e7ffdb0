//! Walks over records: those of a track, and those of a file; and the record that is read ahead of one.
ghost use Rattle.std.specs.Prelude.{◌≡◌, ◌<◌, ◌^◌, ℕ, List, length, [], None};
ghost use Rattle.iv_lines.specs.Intervals.{interval_of};
ghost use Rattle.iv_lines.specs.RecordValue.{RecordValue};
ghost use Rattle.iv_ledger.specs.Steps.{TakesUpTo};
ghost use Rattle.iv_cover.specs.RecordWalks.{GivesRecord, ShowsNext, ahead_of};
ghost use Rattle.std.specs.Option.{option_map};

use iv_ledger::Meter;
use iv_lines::{BedRecord, Interval, RecordRef};
use iv_places::PlacedRecords;
use iv_track::TrackRecords;
use std::alloc::Allocator;

/// A walk over records, which can be begun again from where it is. No call takes memory.
pub trait RecordWalk: Drop {
    /// A record as the walk gives it.
    type Record: BedRecord;
    /// Counts the steps of calls.
    type Meter: Drop;

    /// The records that are left.
    ghost left: { Self → List RecordValue };
    /// How many steps are counted.
    ghost steps: { Self.Meter → ℕ };

    /// The next record, `None` after the last. A call is at most one step.
    fn next(&mut self, meter: &mut Self::Meter) -> Option<Self::Record>
        ensures first { GivesRecord Self.Record.as_record (left self.old) result (left self.new) }
        ensures steps { TakesUpTo (steps meter.old) (steps meter.new) 1 };

    /// The interval of the next record, `None` after the last: the walk stays where it is. A call is at most one step.
    fn next_interval(&self, meter: &mut Self::Meter) -> Option<Interval>
        ensures next { ShowsNext (left self.now) result }
        ensures steps { TakesUpTo (steps meter.old) (steps meter.new) 1 };

    /// The same walk once more, from where it is now. It is no step.
    fn again(&self) -> Self
        ensures { left result ≡ left self.now };

    /// The interval of a record.
    fn interval(given: &Self::Record) -> Interval
        ensures { result ≡ interval_of (Self.Record.as_record given.now) };

    /// The same record once more.
    fn record_again(given: &Self::Record) -> Self::Record
        ensures { Self.Record.as_record result ≡ Self.Record.as_record given.now };

    /// A meter that has counted no step yet.
    fn meter() -> Self::Meter
        ensures { steps result ≡ 0 };

    /// How many steps a meter has counted.
    fn read(meter: &Self::Meter) -> u64
        ensures { result ≡ steps meter.now };

    /// A lemma for callers' proofs: 63 bits count the records that are left. The call does nothing.
    fn lemma_of_few(&self)
        ensures { length (left self.now) < 2 ^ 63 };
}

impl<'a, A: Allocator + Copy> RecordWalk for TrackRecords<'a, A> {
    type Record = RecordRef<'a>;

    type Meter = Meter;

    ghost left = { λ records. records };

    ghost steps = { λ meter. meter };

    #[inline(always)]
    fn next(&mut self, meter: &mut Meter) -> Option<RecordRef<'a>> {
        self.next(meter)
    }

    #[inline(always)]
    fn next_interval(&self, meter: &mut Meter) -> Option<Interval> {
        let feature = self.again().next(meter)?;
        Some(feature.interval())
    }

    fn again(&self) -> Self {
        self.again()
    }

    #[inline(always)]
    fn interval(given: &RecordRef<'a>) -> Interval {
        given.lemma_of_interval();
        Interval::of(given)
    }

    #[inline(always)]
    fn record_again(given: &RecordRef<'a>) -> RecordRef<'a> {
        given.again()
    }

    fn meter() -> Meter {
        Meter::new()
    }

    fn read(meter: &Meter) -> u64 {
        meter.steps()
    }

    fn lemma_of_few(&self) {
        self.lemma_of_few()
    }
}

impl<'t> RecordWalk for PlacedRecords<'t> {
    type Record = RecordRef<'t>;

    /// Records of a file are walked over without a step.
    type Meter = ();

    ghost left = { λ records. records };

    ghost steps = { λ _. 0 };

    #[inline(always)]
    fn next(&mut self, _meter: &mut ()) -> Option<RecordRef<'t>> {
        Iterator::next(self)
    }

    #[inline(always)]
    fn next_interval(&self, _meter: &mut ()) -> Option<Interval> {
        let place = self.places().first()?;
        Some(place.interval)
    }

    #[inline(always)]
    fn again(&self) -> Self {
        self.again()
    }

    #[inline(always)]
    fn interval(given: &RecordRef<'t>) -> Interval {
        given.lemma_of_interval();
        Interval::of(given)
    }

    #[inline(always)]
    fn record_again(given: &RecordRef<'t>) -> RecordRef<'t> {
        given.again()
    }

    #[inline(always)]
    fn meter()
        ensures { ◌≡◌ {A = ℕ} 0 0 }
    {}

    #[inline(always)]
    fn read(_meter: &()) -> u64
        ensures { result ≡ 0 }
    {
        0
    }

    fn lemma_of_few(&self) {
        self.lemma_of_few()
    }
}

/// The record that was read ahead, or the next of the walk. At most one step.
#[inline(always)]
pub fn next_of<W: RecordWalk>(
    ahead: &mut Option<W::Record>,
    records: &mut W,
    meter: &mut W::Meter,
) -> Option<W::Record>
    ensures none { ahead.new ≡ None }
    ensures first { GivesRecord W.Record.as_record (ahead_of (option_map W.Record.as_record ahead.old) (W.left records.old)) result (W.left records.new) }
    ensures steps { TakesUpTo (W.steps meter.old) (W.steps meter.new) 1 }
{
    match ahead.take() {
        Some(record) => Some(record),
        None => records.next(meter),
    }
}

/// Reads the next record of the walk ahead, unless one was. At most one step.
#[inline(always)]
pub fn look_ahead<W: RecordWalk>(
    ahead: &mut Option<W::Record>,
    records: &mut W,
    meter: &mut W::Meter,
)
    ensures same { ahead_of (option_map W.Record.as_record ahead.new) (W.left records.new) ≡ ahead_of (option_map W.Record.as_record ahead.old) (W.left records.old) }
    ensures none { ahead.new ≡ None → W.left records.new ≡ [] }
    ensures steps { TakesUpTo (W.steps meter.old) (W.steps meter.new) 1 }
{
    if ahead.is_some() {
        return;
    }
    *ahead = records.next(meter);
}

/// The record that was read ahead once more, if there is one.
pub fn ahead_again<W: RecordWalk>(ahead: &Option<W::Record>) -> Option<W::Record>
    ensures { option_map W.Record.as_record result ≡ option_map W.Record.as_record ahead.now }
{
    match ahead {
        Some(record) => Some(W::record_again(record)),
        None => None,
    }
}
