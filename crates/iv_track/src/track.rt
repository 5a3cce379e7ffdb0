//! A track.
ghost use Rattle.std.specs.Prelude.{◌≡◌, ◌+◌, ◌-◌, ◌*◌, ◌^◌, ◌<◌, ◌≤◌, [], length, Some, None, IfOk, IfErr, OnOk, OnErr, All, vec_len};
ghost use Rattle.std.specs.List.{filter};
ghost use Rattle.std.specs.Map.{values_of};
ghost use Rattle.iv_lines.specs.Ordered.{AreInOrder, copies, ordered};
ghost use Rattle.iv_lines.specs.Intervals.{record_of_interval};
ghost use Rattle.iv_track.specs.Regions.{hits, longest, near};
ghost use Rattle.iv_track.specs.Edits.{RefusesAdd, RefusesRemove, RefusesReplace, with_record, without_record, with_replaced};
ghost use Rattle.iv_ledger.specs.Steps.{TakesUpTo, ticked};
ghost use Rattle.iv_track.specs.Copies.{expanded};
ghost use Rattle.iv_track.specs.Tracked.{different_records, most_records};
ghost use Rattle.iv_track.specs.Inside.Tracked.{BeginsFrom};

use crate::by_rest::ByRest;
use crate::counted::count_copies;
use crate::length_classes::{LengthClasses, length_class};
use crate::region::{Region, TrackHits};
use crate::track_records::{TrackEntries, TrackRecords};
use iv_ledger::{Ledger, Meter, Walk};
use iv_lines::{Fault, Interval, Record, RecordRef};
use iv_places::{Place, Places, Rests};
use std::alloc::{AllocError, Allocator, Global};
use std::marker::Model;

/// Why an edit of a track is refused: `Absent` (E11), `Full` (E12) or `NoMemory` (E22).
pub type EditFault = Fault;

/// Records in the order of a track, with their copies, all of one width.
///
/// Its model is the one ordered list of its records, with copies repeated, with the width and the limit.
#[derive(Drop)]
pub struct Track<A: Allocator + Copy = Global> {
    ledger: Ledger<Place, u32, A, ByRest<A>>,
    len: u32,
    limit: u32,
    width: u8,
    // About how long the records are, for where a walk over hits begins.
    lengths: LengthClasses,
    // How many different records were removed since the map was built: their rests are still held.
    removed: u32,
}

impl<A: Allocator + Copy> Model for Track<A> {
    ghost use Rattle.iv_track.specs.Copies.{expanded};
    ghost use Rattle.iv_track.specs.Tracked.{Tracked};
    ghost use Rattle.iv_track.specs.Inside.Tracked.{AreParts};

    ghost Value = { Tracked };

    ghost view = { λ t. record { records = expanded t.ledger; width = t.width; limit = t.limit } };

    ghost invariant = { λ t. AreParts t.ledger t.len t.width t.limit t.lengths };
}

impl<A: Allocator + Copy> Track<A> {
    ghost use Rattle.iv_track.specs.Tracked.{Tracked, next_from, next_after, is_from};

    /// A track without a record; nothing is allocated. It keeps the allocator for its records.
    ///
    /// Each later record has this width, 3 to 6. The limit is at most 100,000,000 records.
    pub fn new(alloc: A, width: u8, limit: u32) -> Self
        requires { limit ≤ most_records }
        ensures { result ≡ record { records = []; width = width; limit = limit } }
    {
        Track {
            ledger: Ledger::with_order(alloc, ByRest::of(Rests::new(alloc, width))),
            len: 0,
            limit,
            width,
            lengths: LengthClasses::new(),
            removed: 0,
        }
    }

    /// The track of these records: they are sorted, unless they are in order, and the map is built from them at once.
    /// It is for callers outside this repository.
    ///
    /// The limit is at most 100,000,000 records. There are no more records than the limit, and each has the width.
    pub fn from_records(
        alloc: A,
        width: u8,
        limit: u32,
        records: Vec<Record<A>, A>,
    ) -> Result<Self, AllocError>
        requires limit { limit ≤ most_records }
        requires few { vec_len records ≤ limit }
        requires width { All (λ r. r.width ≡ width) records.items }
        ensures { IfOk result (λ t. t ≡ record { records = ordered records.items; width = width; limit = limit }) }
    {
        let Some(first) = records.as_slice().first() else {
            return Ok(Track::new(alloc, width, limit));
        };
        let width = first.as_ref().width();
        let places = Places::of_records(alloc, width, records.as_slice())?;
        Track::from_places(alloc, limit, places)
    }

    /// The track of these records, which are sorted, unless they are in order.
    ///
    /// The limit is at most 100,000,000 records. There are no more records than the limit.
    pub fn from_places(alloc: A, limit: u32, places: Places<A>) -> Result<Self, AllocError>
        requires limit { limit ≤ most_records }
        requires few { length places.records ≤ limit }
        ensures { IfOk result (λ t. t ≡ record { records = ordered places.records; width = places.width; limit = limit }) }
    {
        let mut places = places;
        places.sort(alloc)?;
        let width = places.width();
        let len = places.records().len() as u32;
        let lengths = LengthClasses::of(&places.records());
        let ledger = count_copies(alloc, places)?;
        Ok(Track {
            ledger,
            len,
            limit,
            width,
            lengths,
            removed: 0,
        })
    }

    /// How many records there are, copies counted.
    ///
    /// At most one above the limit: `stage` lets one more in, so that a replace can add before it takes.
    pub fn len(&self) -> u32
        ensures len { result ≡ length self.now.records }
        ensures ordered { AreInOrder self.now.records }
        ensures room { result ≤ self.now.limit + 1 }
        ensures bounded { self.now.limit ≤ most_records }
    {
        self.len
    }

    /// How many records `add` lets in, at most 100,000,000.
    pub fn limit(&self) -> u32
        ensures { result ≡ self.now.limit }
    {
        self.limit
    }

    /// How many columns each record has.
    pub fn width(&self) -> u8
        ensures { result ≡ self.now.width }
    {
        self.width
    }

    /// How many copies of the record are there, 0 if it is absent. At most 2 steps.
    pub fn copies(&self, feature: &RecordRef<'_>, meter: &mut Meter) -> u32
        ensures value { result ≡ copies self.now.records feature.now }
        ensures ordered { AreInOrder self.now.records }
        ensures steps { TakesUpTo meter.old meter.new 2 }
    {
        self.ledger.get(feature, meter).copied().unwrap_or(0)
    }

    /// Adds a record without a look at the limit. At most 3 steps.
    ///
    /// The track holds at most its limit before, and may hold one more afterwards; the record has its width. This
    /// is the first half of a replace, which adds the new record before it takes the old one, so that a refusal
    /// changes nothing. It is public so that a caller can make such an edit of its own: add first, and take only
    /// once that has succeeded.
    ///
    /// # Errors
    ///
    /// E22: an allocation failed, which happens for a record without a copy alone. The track is unchanged.
    pub fn stage(&mut self, feature: &RecordRef<'_>, meter: &mut Meter) -> Result<(), AllocError>
        requires room { length self.old.records ≤ self.old.limit }
        requires width { feature.now.width ≡ self.old.width }
        ensures ok { OnOk result (self.new ≡ with_record feature.now self.old) }
        ensures memory { OnErr result (copies self.old.records feature.now ≡ 0) }
        ensures err { OnErr result (self.new ≡ self.old) }
        ensures steps { TakesUpTo meter.old meter.new 3 }
    {
        feature.lemma_of_interval();
        // After this read the width is known to be one of a record.
        let _width = feature.width();
        let class = length_class(feature);
        let count = self.ledger.get(feature, meter).copied().unwrap_or(0);
        self.ledger.put(feature.again(), count + 1, meter)?;
        self.lengths.add(class);
        self.len += 1;
        Ok(())
    }

    /// Adds a record of the track's width. At most 8 steps.
    ///
    /// # Errors
    ///
    /// E12 exactly if the track holds its limit or more, else E22, and that only for a record without a
    /// copy. The track is unchanged.
    pub fn add(&mut self, feature: &RecordRef<'_>, meter: &mut Meter) -> Result<(), EditFault>
        requires { feature.now.width ≡ self.old.width }
        ensures room { OnOk result (length self.old.records < self.old.limit) }
        ensures ok { OnOk result (self.new ≡ with_record feature.now self.old) }
        ensures why { IfErr result (RefusesAdd self.old feature.now) }
        ensures err { OnErr result (self.new ≡ self.old) }
        ensures steps { TakesUpTo meter.old meter.new 8 }
    {
        if self.len >= self.limit {
            return Err(EditFault::Full);
        }
        self.stage(feature, meter)?;
        Ok(())
    }

    /// The first record on this sequence from this start on, or on a later sequence, and how many copies of it there are.
    /// It is for callers outside this repository.
    ///
    /// At most 2 steps, and no memory.
    pub fn at_or_after(
        &self,
        seq: u32,
        start: u64,
        meter: &mut Meter,
    ) -> Option<(RecordRef<'_>, u32)>
        ensures next { result ≡ next_from self.now.records seq start }
        ensures steps { TakesUpTo meter.old meter.new 2 }
    {
        // After this read what the map is is known.
        let _len = self.len;
        let (seq, start) = first_place(seq, start)?;
        let (feature, count) = self.ledger.at_or_after(&least_at(seq, start), meter)?;
        Some((feature, *count))
    }

    /// The first record after this one, and how many copies of it there are. At most 2 steps, and no memory.
    /// It is for callers outside this repository.
    pub fn after(&self, feature: &RecordRef<'_>, meter: &mut Meter) -> Option<(RecordRef<'_>, u32)>
        ensures next { result ≡ next_after self.now.records feature.now }
        ensures steps { TakesUpTo meter.old meter.new 2 }
    {
        let (next, count) = self.ledger.after(feature, meter)?;
        Some((next, *count))
    }

    /// The records on this sequence from this start on, and on later sequences, copies repeated.
    ///
    /// The start is below 2^32 - 1, which a caller tests. To begin is one step, and each call of the walk's `next` at
    /// most another.
    pub fn walk(&self, seq: u32, start: u64, meter: &mut Meter) -> TrackRecords<'_, A>
        requires { start < 2 ^ 32 - 1 }
        ensures records { result ≡ filter (is_from seq start) self.now.records }
        ensures ordered { AreInOrder self.now.records }
        ensures steps { TakesUpTo meter.old meter.new 1 }
    {
        TrackRecords {
            entries: self.entries_from(seq, start as u32, meter),
            held: None,
        }
    }

    /// The different records on this sequence from this start on, and on later sequences, each with the number of its copies.
    ///
    /// The start is below 2^32 - 1, which a caller tests. To begin is one step, and each call of the walk's `next` another.
    pub fn entries(&self, seq: u32, start: u64, meter: &mut Meter) -> TrackEntries<'_, A>
        requires { start < 2 ^ 32 - 1 }
        ensures records { expanded result ≡ filter (is_from seq start) self.now.records }
        ensures each { length result ≡ different_records (filter (is_from seq start) self.now.records) }
        ensures step { meter.new ≡ ticked meter.old }
    {
        TrackEntries {
            entries: self.entries_from(seq, start as u32, meter),
        }
    }

    /// The entries of the map for the records on this sequence from this start on, and on later sequences. To begin is one step.
    fn entries_from(
        &self,
        seq: u32,
        start: u32,
        meter: &mut Meter,
    ) -> Walk<'_, Place, u32, A, ByRest<A>>
        requires { start < 2 ^ 32 - 1 }
        ensures records { expanded result ≡ filter (is_from seq start) self.now.records }
        ensures each { length result ≡ different_records (filter (is_from seq start) self.now.records) }
        ensures present { All (λ n. 0 < n) (values_of result) }
        ensures few { length (expanded result) < 2 ^ 32 }
        ensures ordered { AreInOrder self.now.records }
        ensures step { meter.new ≡ ticked meter.old }
    {
        self.ledger.walk(&least_at(seq, start), meter)
    }

    /// The records that share a position with a region, copies repeated.
    ///
    /// The region has a position. To begin is at most one step, and each call of the walk's `next` at most another for each record
    /// that it passes. It passes only records near the region, and takes no memory.
    pub fn hits(&self, at: Region, meter: &mut Meter) -> TrackHits<'_, A>
        requires { at.start < at.stop }
        ensures records { result.records ≡ hits self.now.records at.seq at.start at.stop }
        ensures passes { result.passes ≤ length (near at self.now.records) }
        ensures few { length result.records ≤ most_records + 1 }
        ensures steps { TakesUpTo meter.old meter.new 1 }
    {
        let _few = self.len();
        // A record that ends after the region's start begins from here on.
        let from = (at.start + 1).saturating_sub(self.length_bound());
        TrackHits {
            records: self.walk_from(at.seq, from, meter),
            at,
        }
    }

    /// How many records cover a position, 0-based, of the sequence of this rank, copies counted.
    ///
    /// The position is below 2^64 - 1. At most two steps more than there are records near it, and no memory.
    pub fn depth_at(&self, seq: u32, position: u64, meter: &mut Meter) -> u64
        requires { position < 2 ^ 64 - 1 }
        ensures depth { result ≡ length (hits self.now.records seq position (position + 1)) }
        ensures steps { TakesUpTo meter.old meter.new (2 + length (near (record { seq = seq; start = position; stop = position + 1 }) self.now.records)) }
    {
        let at = Region {
            seq,
            start: position,
            stop: position + 1,
        };
        let mut hits = self.hits(at, meter);
        let mut depth = 0;
        while let Some(_) = hits.next(meter) {
            depth += 1;
        }
        depth
    }

    /// The records on this sequence from this start on, and on later sequences, copies repeated. At most one step.
    fn walk_from(&self, seq: u32, start: u64, meter: &mut Meter) -> TrackRecords<'_, A>
        ensures records { result ≡ filter (is_from seq start) self.now.records }
        ensures steps { TakesUpTo meter.old meter.new 1 }
    {
        // After this read what the map is is known.
        let _len = self.len;
        let Some((seq, start)) = first_place(seq, start) else {
            return TrackRecords {
                entries: self.ledger.none(),
                held: None,
            };
        };
        TrackRecords {
            entries: self.entries_from(seq, start, meter),
            held: None,
        }
    }

    /// A number of positions that no record has more than. It is at most twice the greatest number that one has.
    pub fn length_bound(&self) -> u64
        ensures up_to { All (λ r. r.stop ≤ r.start + result) self.now.records }
        ensures near { result ≤ 2 * longest self.now.records }
    {
        self.lengths.bound()
    }

    /// Takes one copy of a record out. At most 3 steps, and no memory.
    ///
    /// # Errors
    ///
    /// E11 exactly if no copy is there. The track is unchanged.
    pub fn remove(&mut self, feature: &RecordRef<'_>, meter: &mut Meter) -> Result<(), EditFault>
        ensures there { OnOk result (0 < copies self.old.records feature.now) }
        ensures ok { OnOk result (self.new ≡ without_record feature.now self.old) }
        ensures why { IfErr result (RefusesRemove self.old feature.now) }
        ensures err { OnErr result (self.new ≡ self.old) }
        ensures was_ordered { AreInOrder self.old.records }
        ensures steps { TakesUpTo meter.old meter.new 3 }
    {
        let Some(count) = self.ledger.get(feature, meter).copied() else {
            return Err(EditFault::Absent);
        };
        self.lengths.remove(length_class(feature));
        if count == 1 {
            self.ledger.take(feature, meter);
            self.removed = self.removed.saturating_add(1);
        } else {
            let _ = self.ledger.set(feature, count - 1, meter);
        }
        self.len -= 1;
        Ok(())
    }

    /// Frees the columns after the third of removed records, if more were removed than there are records.
    ///
    /// It goes over all records then, a step for each different one, and takes memory for another map of them. Without it nothing
    /// changes.
    pub fn pack(&mut self, alloc: A, meter: &mut Meter)
        ensures { self.new ≡ self.old }
    {
        if self.width == 3 || self.removed <= self.len || self.len > self.limit {
            return;
        }
        if let Ok(packed) = self.packed(alloc, meter) {
            *self = packed;
        }
    }

    /// The same track, without what is held of removed records. It holds at most its limit.
    fn packed(&self, alloc: A, meter: &mut Meter) -> Result<Track<A>, AllocError>
        requires { length self.now.records ≤ self.now.limit }
        ensures { IfOk result (λ packed. packed ≡ self.now) }
    {
        if self.len == 0 {
            return Ok(Track::new(alloc, self.width, self.limit));
        }
        let mut places = Places::empty(alloc);
        let mut records = self.walk(0, 0, meter);
        while let Some(record) = records.next(meter) {
            places.hold(&record)?;
        }
        // After this read the width is known to be that of each record.
        let _width = places.width();
        Track::from_places(alloc, self.limit, places)
    }

    /// Adds the new record, of the track's width, and takes one copy of the old one. At most 8 steps.
    ///
    /// The track holds at most its limit before; a full track is no hindrance. It is for callers outside this repository: a session makes
    /// the same calls itself, and updates its views between them.
    ///
    /// # Errors
    ///
    /// E11 exactly if no copy of the old record is there, else E22, and that only for a new record without a
    /// copy. The track is unchanged.
    pub fn replace(
        &mut self,
        old: &RecordRef<'_>,
        new: &RecordRef<'_>,
        meter: &mut Meter,
    ) -> Result<(), EditFault>
        requires room { length self.old.records ≤ self.old.limit }
        requires width { new.now.width ≡ self.old.width }
        ensures there { OnOk result (0 < copies self.old.records old.now) }
        ensures ok { OnOk result (self.new ≡ with_replaced old.now new.now self.old) }
        ensures why { IfErr result (RefusesReplace self.old old.now new.now) }
        ensures err { OnErr result (self.new ≡ self.old) }
        ensures steps { TakesUpTo meter.old meter.new 8 }
    {
        if self.copies(old, meter) == 0 {
            return Err(EditFault::Absent);
        }
        self.stage(new, meter)?;
        match self.remove(old, meter) {
            Ok(()) => Ok(()),
            Err(_) => unreachable!(),
        }
    }
}

/// A bound for searches: in the order of a track no record that starts at this position of a sequence or after it comes before it, and
/// each that starts before it does.
fn least_at<'a>(seq: u32, start: u32) -> RecordRef<'a>
    requires { start < 2 ^ 32 - 1 }
    ensures { result ≡ record_of_interval (record { seq = seq; start = start; stop = start + 1 }) }
{
    RecordRef::of_interval(Interval {
        seq,
        start,
        stop: start + 1,
    })
}

/// From which start of which sequence the records are that are on this sequence from this start on, or on a later one. `None` if
/// there can be none.
fn first_place(seq: u32, start: u64) -> Option<(u32, u32)>
    ensures { BeginsFrom seq start result }
{
    if start < u64::from(u32::MAX) {
        return Some((seq, start as u32));
    }
    // No record starts so late.
    let next = seq.checked_add(1)?;
    Some((next, 0))
}
