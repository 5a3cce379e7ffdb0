//! The records of a second file, as a search for hits goes over them; and a copy that has its intervals alone.
ghost use Rattle.std.specs.Prelude.{◌≡◌, ◌-◌, ◌<◌, ◌^◌, IfSome, List, IfOk, map};
ghost use Rattle.iv_lines.specs.Ordered.{AreInOrder};
ghost use Rattle.iv_lines.specs.RecordValue.{RecordValue};
ghost use Rattle.iv_pair.specs.Inside.HitFinder.{HitAlike};
ghost use Rattle.iv_lines.specs.Intervals.{bare};
ghost use Rattle.iv_places.specs.Inside.Places.{HasBase, place_at};

use crate::hits::is_from;
use crate::second::{Second, first_start};
use iv_cover::RecordWalk;
use iv_ledger::Meter;
use iv_lines::{Interval, RecordRef};
use iv_places::{Place, PlacedRecords, Places};
use iv_track::TrackRecords;
use std::alloc::{AllocError, Allocator, Global};
use std::marker::Model;

/// The records of a second file, in the order of a track, and walks over them.
pub(crate) trait SecondRecords<W: RecordWalk>: Drop {
    /// The records.
    ghost records: { Self → List RecordValue };

    /// A walk over all of them.
    fn walk(&self, meter: &mut W::Meter) -> W
        ensures { W.left result ≡ records self.now };

    /// A walk that begins past the first record of one that is given, if there is such a walk: each record that it leaves out ends at
    /// this position of the sequence of this rank, or before it.
    fn skip_to(&mut self, seq: u32, start: u64, ahead: &W, meter: &mut W::Meter) -> Option<W>
        requires start { start < 2 ^ 64 - 1 }
        requires order { AreInOrder (records self.old) }
        ensures alike { IfSome result (λ walk. HitAlike seq start (W.left walk) (records self.old)) }
        ensures order { IfSome result (λ walk. AreInOrder (W.left walk)) }
        ensures same { records self.new ≡ records self.old };
}

/// Those of a file: no walk begins later than another.
impl<'t> SecondRecords<PlacedRecords<'t>> for PlacedRecords<'t> {
    ghost records = { λ records. records };

    #[inline(always)]
    fn walk(&self, _meter: &mut ()) -> PlacedRecords<'t> {
        self.again()
    }

    #[inline(always)]
    fn skip_to(
        &mut self,
        _seq: u32,
        _start: u64,
        _ahead: &PlacedRecords<'t>,
        _meter: &mut (),
    ) -> Option<PlacedRecords<'t>> {
        None
    }
}

/// Those of a second file that is kept in a session. A walk begins from the longest length before a position.
#[derive(Drop)]
pub(crate) struct KeptRecords<'a, A: Allocator + Copy = Global> {
    second: &'a Second<A>,
    // No record on the sequence of this rank has more positions than this.
    seq: u32,
    longest: u64,
}

impl<'a, A: Allocator + Copy> Model for KeptRecords<'a, A> {
    ghost use Rattle.std.specs.Prelude.{List};
    ghost use Rattle.iv_lines.specs.RecordValue.{RecordValue};
    ghost use Rattle.iv_pair.specs.Inside.Lengths.{AreUpTo};

    ghost Value = { List RecordValue };

    ghost view = { λ k. k.second.now.records };

    ghost invariant = { λ k. AreUpTo k.seq k.longest k.second.now.records };
}

impl<'a, A: Allocator + Copy> KeptRecords<'a, A> {
    /// The records of a second file.
    pub(crate) fn of(second: &'a Second<A>, meter: &mut Meter) -> Self
        ensures { result ≡ second.now.records }
    {
        let longest = second.longest(0, meter);
        KeptRecords {
            second,
            seq: 0,
            longest,
        }
    }
}

impl<'a, A: Allocator + Copy> SecondRecords<TrackRecords<'a, A>> for KeptRecords<'a, A> {
    ghost records = { λ records. records };

    fn walk(&self, meter: &mut Meter) -> TrackRecords<'a, A> {
        self.second.walk(0, 0, meter)
    }

    fn skip_to(
        &mut self,
        seq: u32,
        start: u64,
        ahead: &TrackRecords<'a, A>,
        meter: &mut Meter,
    ) -> Option<TrackRecords<'a, A>> {
        if seq != self.seq {
            self.longest = self.second.longest(seq, meter);
            self.seq = seq;
        }
        let from = first_start(start, self.longest);
        if begins_from(ahead, seq, from, meter) {
            return None;
        }
        Some(self.second.walk(seq, from, meter))
    }
}

/// Whether the first of the records is from a start on. If it is, a walk from there would begin no later.
fn begins_from<W: RecordWalk>(walk: &W, seq: u32, from: u64, meter: &mut W::Meter) -> bool {
    match walk.next_interval(meter) {
        Some(next) => is_from(next, seq, from),
        None => true,
    }
}

/// The intervals of a second file, in its order, copies repeated: 16 bytes for each.
pub(crate) fn intervals_of<A: Allocator + Copy>(
    second: &Second<A>,
    meter: &mut Meter,
) -> Result<Places<A>, AllocError>
    ensures { IfOk result (λ copy. copy.records ≡ map bare second.now.records) }
{
    let mut places = Vec::with_capacity(second.allocator(), second.len() as usize)?;
    let mut records = second.walk(0, 0, meter);
    while let Some(feature) = records.next(meter) {
        places.push(place_of(&feature))?;
    }
    Ok(Places::of_intervals(places))
}

/// The place of a record of which only the interval is looked at.
fn place_of(feature: &RecordRef<'_>) -> Place
    ensures is { result ≡ place_at feature.now 0 }
    ensures base { HasBase result }
{
    feature.lemma_of_interval();
    Place::of_interval(Interval::of(feature))
}
