//! The second file: its records in track order, and how long they are.
ghost use Rattle.std.specs.Prelude.{◌≡◌, ◌+◌, ◌-◌, ◌^◌, ◌<◌, ◌≤◌, length, filter, min, All, IfOk, IfErr, OnOk, OnErr, vec_len};
ghost use Rattle.iv_lines.specs.Ordered.{AreInOrder, copies, ordered};
ghost use Rattle.iv_track.specs.Edits.{RefusesAdd, RefusesRemove, RefusesReplace, with_record, without_record, with_replaced};
ghost use Rattle.iv_ledger.specs.Steps.{TakesUpTo};
ghost use Rattle.iv_track.specs.Tracked.{is_from, most_records};
ghost use Rattle.iv_track.specs.Regions.{hits};
ghost use Rattle.iv_pair.specs.Inside.Lengths.{AreLengths, AreUpTo};

use crate::hits::Hits;
use crate::lengths::{Lengths, length_of, lengths_of, longest, lower, raise};
use iv_ledger::Meter;
use iv_lines::RecordRef;
use iv_places::Places;
use iv_track::{EditFault, Track, TrackRecords};
use std::alloc::{AllocError, Allocator, Global};
use std::marker::Model;

/// The second file: its records in the order of a track, with their copies, and how many there are of each length.
///
/// Its model is that of its track.
#[derive(Drop)]
pub struct Second<A: Allocator + Copy = Global> {
    alloc: A,
    track: Track<A>,
    lengths: Lengths<A>,
}

impl<A: Allocator + Copy> Model for Second<A> {
    ghost use Rattle.iv_track.specs.Tracked.{Tracked};
    ghost use Rattle.iv_pair.specs.Inside.Lengths.{IsSecond};

    ghost Value = { Tracked };

    ghost view = { λ s. s.track };

    ghost invariant = { λ s. IsSecond s.lengths s.track };
}

impl<A: Allocator + Copy> Second<A> {
    /// The second file of these records.
    ///
    /// The limit is at most 100,000,000 records. There are no more records than the limit.
    pub fn new(alloc: A, limit: u32, records: Places<A>) -> Result<Self, AllocError>
        requires limit { limit ≤ most_records }
        requires few { length records.records ≤ limit }
        ensures { IfOk result (λ s. s ≡ record { records = ordered records.records; width = records.width; limit = limit }) }
    {
        let mut meter = Meter::new();
        let track = Track::from_places(alloc, limit, records)?;
        let lengths = lengths_of(alloc, &track, &mut meter)?;
        Ok(Second {
            alloc,
            track,
            lengths,
        })
    }

    /// How many records there are, copies counted.
    pub fn len(&self) -> u32
        ensures len { result ≡ length self.now.records }
        ensures ordered { AreInOrder self.now.records }
        ensures room { result ≤ self.now.limit + 1 }
        ensures bounded { self.now.limit ≤ most_records }
    {
        self.track.len()
    }

    /// How many columns each record has.
    pub fn width(&self) -> u8
        ensures { result ≡ self.now.width }
    {
        self.track.width()
    }

    /// How many records there may be, at most 100,000,000.
    pub fn limit(&self) -> u32
        ensures { result ≡ self.now.limit }
    {
        self.track.limit()
    }

    /// Adds a record of the width. At most 16 steps.
    ///
    /// # Errors
    ///
    /// E12 exactly if there are as many records as the limit, else E22, and that only for a record without a copy.
    /// All is as before.
    pub fn add(&mut self, feature: &RecordRef<'_>, meter: &mut Meter) -> Result<(), EditFault>
        requires { feature.now.width ≡ self.old.width }
        ensures room { OnOk result (length self.old.records < self.old.limit) }
        ensures ok { OnOk result (self.new ≡ with_record feature.now self.old) }
        ensures why { IfErr result (RefusesAdd self.old feature.now) }
        ensures err { OnErr result (self.new ≡ self.old) }
        ensures steps { TakesUpTo meter.old meter.new 16 }
    {
        if self.track.len() >= self.track.limit() {
            return Err(EditFault::Full);
        }
        stage(&mut self.track, &mut self.lengths, feature, meter)?;
        Ok(())
    }

    /// Takes one copy of a record out. At most 16 steps, and no memory.
    ///
    /// # Errors
    ///
    /// E11 exactly if no copy is there. All is as before.
    pub fn remove(&mut self, feature: &RecordRef<'_>, meter: &mut Meter) -> Result<(), EditFault>
        ensures there { OnOk result (0 < copies self.old.records feature.now) }
        ensures ok { OnOk result (self.new ≡ without_record feature.now self.old) }
        ensures why { IfErr result (RefusesRemove self.old feature.now) }
        ensures err { OnErr result (self.new ≡ self.old) }
        ensures steps { TakesUpTo meter.old meter.new 16 }
    {
        remove_record(&mut self.track, &mut self.lengths, feature, meter)?;
        Ok(())
    }

    /// Adds the new record, of the width, and takes one copy of the old one. At most 16 steps.
    ///
    /// It is not refused if there are as many records as the limit.
    ///
    /// # Errors
    ///
    /// E11 exactly if no copy of the old record is there, else E22, and that only for a new record without a copy.
    /// All is as before.
    pub fn replace(
        &mut self,
        old: &RecordRef<'_>,
        new: &RecordRef<'_>,
        meter: &mut Meter,
    ) -> Result<(), EditFault>
        requires { new.now.width ≡ self.old.width }
        ensures there { OnOk result (0 < copies self.old.records old.now) }
        ensures ok { OnOk result (self.new ≡ with_replaced old.now new.now self.old) }
        ensures why { IfErr result (RefusesReplace self.old old.now new.now) }
        ensures err { OnErr result (self.new ≡ self.old) }
        ensures steps { TakesUpTo meter.old meter.new 16 }
    {
        if self.track.copies(old, meter) == 0 {
            return Err(EditFault::Absent);
        }
        stage(&mut self.track, &mut self.lengths, new, meter)?;
        match remove_record(&mut self.track, &mut self.lengths, old, meter) {
            Ok(()) => Ok(()),
            Err(_) => unreachable!(),
        }
    }

    /// Frees what is held of removed records, as [`Track::pack`] does.
    pub fn pack(&mut self, meter: &mut Meter)
        ensures { self.new ≡ self.old }
    {
        self.track.pack(self.alloc, meter);
    }

    /// The records on the sequence of this rank that share a position with an interval, in the order of a track, copies repeated.
    ///
    /// The interval is 0-based and half-open, and has a position. Records that end where it starts, or start where it ends,
    /// are none of them. It copies no record, and takes no memory.
    pub fn hits(&self, seq: u32, start: u64, stop: u64) -> Hits<'_, TrackRecords<'_, A>>
        requires { start < stop }
        ensures hits { result ≡ hits self.now.records seq start stop }
        ensures ordered { AreInOrder self.now.records }
        ensures few { length result < 2 ^ 32 }
    {
        let mut meter = Meter::new();
        let from = first_start(start, self.longest(seq, &mut meter));
        Hits::of(&[], self.walk(seq, from, &mut meter), seq, start, stop)
    }

    /// A length that no record on the sequence of this rank exceeds.
    pub(crate) fn longest(&self, seq: u32, meter: &mut Meter) -> u64
        ensures { AreUpTo seq result self.now.records }
    {
        longest(&self.lengths, seq, meter)
    }

    /// The allocator of its memory.
    pub(crate) fn allocator(&self) -> A {
        self.alloc
    }

    /// The records on the sequence of this rank from this start on, and on later sequences.
    pub(crate) fn walk(&self, seq: u32, start: u64, meter: &mut Meter) -> TrackRecords<'_, A>
        requires { start < 2 ^ 32 - 1 }
        ensures records { result ≡ filter (is_from seq start) self.now.records }
        ensures ordered { AreInOrder self.now.records }
        ensures few { length self.now.records < 2 ^ 32 }
    {
        // 32 bits count the records of a track.
        let _few = self.track.len();
        self.track.walk(seq, start, meter)
    }
}

/// The earliest start from which a record of at most `longest` bases can reach past a position.
///
/// It is one that a walk may begin at.
pub(crate) fn first_start(position: u64, longest: u64) -> u64
    requires { position < 2 ^ 64 - 1 }
    ensures { result ≡ min (position + 1 - longest) (2 ^ 32 - 2) }
{
    (position + 1)
        .saturating_sub(longest)
        .min(u64::from(u32::MAX) - 1)
}

/// Adds a record of the track's width, without a look at the limit, and counts its length. At most 7 steps.
///
/// The track holds at most its limit before, and may hold one more afterwards.
///
/// # Errors
///
/// An allocation failed, which happens for a record without a copy alone. The track is unchanged. If it is the track that
/// has no memory, the length was counted before, and is no longer counted, which takes no memory.
fn stage<A: Allocator + Copy>(
    track: &mut Track<A>,
    lengths: &mut Lengths<A>,
    feature: &RecordRef<'_>,
    meter: &mut Meter,
) -> Result<(), AllocError>
    requires counted { AreLengths lengths.old track.old.records }
    requires room { length track.old.records ≤ track.old.limit }
    requires width { feature.now.width ≡ track.old.width }
    ensures ok { OnOk result (track.new ≡ with_record feature.now track.old) }
    ensures memory { OnErr result (copies track.old.records feature.now ≡ 0) }
    ensures err { OnErr result (track.new ≡ track.old) }
    ensures counted { AreLengths lengths.new track.new.records }
    ensures steps { TakesUpTo meter.old meter.new 7 }
{
    // 32 bits count the records of a track.
    let _few = track.len();
    let length = length_of(feature);
    raise(lengths, length, meter)?;
    match track.stage(feature, meter) {
        Ok(()) => Ok(()),
        Err(refused) => {
            lower(lengths, length, meter);
            Err(refused)
        }
    }
}

/// Takes one copy of a record out, and no longer counts its length. At most 5 steps, and no memory.
///
/// # Errors
///
/// E11 exactly if no copy is there. The track is unchanged.
fn remove_record<A: Allocator + Copy>(
    track: &mut Track<A>,
    lengths: &mut Lengths<A>,
    feature: &RecordRef<'_>,
    meter: &mut Meter,
) -> Result<(), EditFault>
    requires counted { AreLengths lengths.old track.old.records }
    ensures there { OnOk result (0 < copies track.old.records feature.now) }
    ensures ok { OnOk result (track.new ≡ without_record feature.now track.old) }
    ensures why { IfErr result (RefusesRemove track.old feature.now) }
    ensures err { OnErr result (track.new ≡ track.old) }
    ensures was_ordered { AreInOrder track.old.records }
    ensures counted { AreLengths lengths.new track.new.records }
    ensures steps { TakesUpTo meter.old meter.new 5 }
{
    track.remove(feature, meter)?;
    lower(lengths, length_of(feature), meter);
    Ok(())
}
