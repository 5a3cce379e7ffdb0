//! Places: the intervals of records, and where the rests of their lines begin; and the records at places, lent one after another.
ghost use Rattle.std.specs.Prelude.{◌≡◌, ◌<◌, ◌≤◌, ◌^◌, ◌==◌, nat_lt, [], ◌∷◌, All, IfOk, MatchOption, filter, length, map, slice_get, take, drop};
ghost use Rattle.std.specs.Iterator.{YieldsFirst, item_count};
ghost use Rattle.iv_lines.specs.RecordValue.{IsPlaced};
ghost use Rattle.iv_lines.specs.Ordered.{AreInOrder};
ghost use Rattle.iv_lines.specs.CoveredPositions.{on};
ghost use Rattle.iv_places.specs.Inside.Places.{HasBase, IsPlace, interval_in, records_at, record_at, rest_at, rest_start};
ghost use Rattle.iv_lines.specs.Intervals.{interval_of};

use bstr::ByteSlice;
use iv_lines::{Interval, Record, RecordRef};
use std::alloc::{AllocError, Allocator};
use std::marker::Model;

/// A record's interval, and where the rest of its line begins among all rests.
#[derive(Clone, Copy, Debug)]
pub struct Place {
    /// The record's interval, 0-based and half-open.
    pub interval: Interval,
    /// How many times four bytes are before its rest. At width 3 it isn't looked at.
    pub(crate) rest: u32,
}

impl Place {
    /// That of a record of three columns.
    pub fn of_interval(interval: Interval) -> Place
        ensures { result ≡ record { interval = interval; rest = 0 } }
    {
        Place { interval, rest: 0 }
    }
}

/// The rest at a place: up to the next line feed. It is empty past the end.
pub(crate) fn rest_at(rests: &[u8], place: Place) -> &[u8]
    ensures { result.now ≡ rest_at rests.now (rest_start place) }
{
    let from = 4 * place.rest as usize;
    if from > rests.len() {
        return &[];
    }
    let left = &rests[from..];
    match left.find_byte(b'\n') {
        Some(feed) => &left[..feed],
        None => left,
    }
}

/// The record at a place. At width 3 no rest is looked at.
#[inline(always)]
pub(crate) fn record_of(rests: &[u8], width: u8, place: Place) -> RecordRef<'_>
    requires { IsPlace width rests.now place }
    ensures { result ≡ record_at width rests.now place }
{
    if width < 4 {
        return RecordRef::of_rest(place.interval, &[], width);
    }
    RecordRef::of_rest(place.interval, rest_at(rests, place), width)
}

/// Consecutive records, all of one width: lent, as a slice is. No call takes memory.
#[derive(Debug, Drop)]
pub struct PlacedRecords<'t> {
    rests: &'t [u8],
    places: &'t [Place],
    width: u8,
}

impl<'t> Model for PlacedRecords<'t> {
    ghost use Rattle.std.specs.Prelude.{All, List};
    ghost use Rattle.iv_lines.specs.RecordValue.{RecordValue};
    ghost use Rattle.iv_places.specs.Inside.Places.{IsPlace, records_at};

    ghost Value = { List RecordValue };

    ghost view = { λ r. records_at r.width r.rests.now r.places.now };

    ghost invariant = { λ r. All (IsPlace r.width r.rests.now) r.places.now };
}

impl<'t> PlacedRecords<'t> {
    /// The records at these places.
    pub(crate) fn of_places(rests: &'t [u8], places: &'t [Place], width: u8) -> PlacedRecords<'t>
        requires { All (IsPlace width rests.now) places.now }
        ensures { result ≡ records_at width rests.now places.now }
    {
        PlacedRecords {
            rests,
            places,
            width,
        }
    }

    /// The same records once more.
    pub fn again(&self) -> PlacedRecords<'t>
        ensures { result ≡ self.now }
    {
        PlacedRecords {
            rests: self.rests,
            places: self.places,
            width: self.width,
        }
    }

    /// How many records there are.
    pub fn len(&self) -> usize
        ensures { result ≡ length self.now }
    {
        self.places.len()
    }

    /// A lemma for callers' proofs: 63 bits count the records. The call does nothing.
    pub fn lemma_of_few(&self)
        ensures { length self.now < 2 ^ 63 }
    {
        let _few = self.places.len();
    }

    /// Whether there is none.
    pub fn is_empty(&self) -> bool
        ensures { result ≡ (length self.now == 0) }
    {
        self.places.is_empty()
    }

    /// The record at an index from 0, `None` past the last.
    pub fn get(&self, index: usize) -> Option<RecordRef<'t>>
        ensures { result ≡ slice_get self.now index }
    {
        let place = *self.places.get(index)?;
        Some(record_of(self.rests, self.width, place))
    }

    /// The first record, if there is one.
    pub fn first(&self) -> Option<RecordRef<'t>>
        ensures { result ≡ slice_get self.now 0 }
    {
        self.get(0)
    }

    /// The first record and those after it, `None` if there is no record.
    pub fn split_first(&self) -> Option<(RecordRef<'t>, PlacedRecords<'t>)>
        ensures { MatchOption result (self.now ≡ []) (λ p. self.now ≡ p.0 ∷ p.1) }
    {
        let (place, rest) = self.places.split_first()?;
        Some((
            record_of(self.rests, self.width, *place),
            PlacedRecords::of_places(self.rests, rest, self.width),
        ))
    }

    /// So many records from the front, and those after them.
    pub fn split_at(&self, count: usize) -> (PlacedRecords<'t>, PlacedRecords<'t>)
        requires { count ≤ length self.now }
        ensures front { result.0 ≡ take count self.now }
        ensures back { result.1 ≡ drop count self.now }
    {
        let (front, back) = self.places.split_at(count);
        (
            PlacedRecords::of_places(self.rests, front, self.width),
            PlacedRecords::of_places(self.rests, back, self.width),
        )
    }

    /// A copy of each record, in their order, which owns its columns.
    ///
    /// # Errors
    ///
    /// An allocation failed.
    pub fn to_records<A: Allocator + Copy>(&self, alloc: A) -> Result<Vec<Record<A>, A>, AllocError>
        ensures { IfOk result (λ records. records.items ≡ self.now) }
    {
        let mut records = Vec::with_capacity(alloc, self.len())?;
        for record in self.again() {
            records.push(record.to_record(alloc)?)?;
        }
        Ok(records)
    }

    /// The records on the sequence of this rank, and those on later ones.
    pub fn split_sequence(&self, seq: u32) -> (PlacedRecords<'t>, PlacedRecords<'t>)
        requires order { AreInOrder self.now }
        requires from { All (λ r. seq ≤ r.seq) self.now }
        ensures here { result.0 ≡ on seq self.now }
        ensures later { result.1 ≡ filter (λ r. nat_lt seq r.seq) self.now }
    {
        self.split_at(
            self.places
                .partition_point(|place| place.interval.seq <= seq),
        )
    }

    /// The places of the records, in their order.
    pub fn places(&self) -> &'t [Place]
        ensures spots { map interval_in result.now ≡ map interval_of self.now }
        ensures some { All HasBase result.now }
    {
        self.places
    }
}

impl<'t> Iterator for PlacedRecords<'t> {
    type Item = RecordRef<'t>;

    ghost next_gives = { YieldsFirst (λ records. records) };

    ghost remaining = { item_count (λ records. records) };

    /// The first record that is left.
    fn next(&mut self) -> Option<RecordRef<'t>> {
        let (place, others) = self.places.split_first()?;
        self.places = others;
        Some(record_of(self.rests, self.width, *place))
    }
}
