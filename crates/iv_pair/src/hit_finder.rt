//! The hits of one interval after another, and the rows of records that come with them.
ghost use Rattle.std.specs.Prelude.{◌≡◌, ◌+◌, ◌-◌, ◌<◌, ◌≤◌, ◌^◌, ◌++◌, [], List, None, OnOk, filter, length, map, true};
ghost use Rattle.std.specs.Iterator.{YieldsFirstBy, item_count};
ghost use Rattle.iv_bytes.specs.Sinks.{Puts};
ghost use Rattle.iv_lines.specs.CoveredPositions.{covers};
ghost use Rattle.iv_lines.specs.Intervals.{interval_of};
ghost use Rattle.iv_lines.specs.Ordered.{AreInOrder};
ghost use Rattle.iv_lines.specs.RecordValue.{RecordValue};
ghost use Rattle.iv_pair.specs.CoverAlone.{GiveRowsAlike};
ghost use Rattle.iv_pair.specs.PairRows.{pair_rows};
ghost use Rattle.iv_pair.specs.Inside.HitFinder.{AllCover, HitAlike, IsOnward};
ghost use Rattle.iv_pair.specs.Inside.PairTexts.{PutsSome};
ghost use Rattle.iv_track.specs.Regions.{hits};

use crate::hits::{Hits, is_from};
use crate::pair_rows::{PairOutput, put_pair_rows};
use crate::second_records::SecondRecords;
use iv_bytes::{Sink, WriteFault};
use iv_cover::RecordWalk;
use iv_lines::{BedRecord, Genome, Interval};
use std::alloc::{Allocator, Global};
use std::iter::empty;
use std::marker::Model;

/// How many records a search looks at one after another, before it skips those in between.
const FEW: u32 = 8;

/// The hits of one interval after another.
///
/// A search goes on from the position of the one before, as long as intervals come in the order of a track. It carries the
/// records that it has passed and that reach past its position, as many as it has room for, and doesn't go on if it has none:
/// so the records that it carries and those ahead have all hits. If the next position is far ahead, it skips what is between.
#[derive(Drop)]
pub(crate) struct HitFinder<N: SecondRecords<W>, W: RecordWalk, A: Allocator = Global> {
    second: N,
    carried: Vec<W::Record, A>,
    walk: W,
    meter: W::Meter,
    // The interval that was sought last.
    seq: u32,
    start: u64,
    stop: u64,
}

impl<N: SecondRecords<W>, W: RecordWalk, A: Allocator> Model for HitFinder<N, W, A> {
    ghost use Rattle.std.specs.Prelude.{◌++◌, map};
    ghost use Rattle.iv_pair.specs.Inside.HitFinder.{Finding, StandsAt};
    ghost use Rattle.iv_track.specs.Regions.{hits};

    ghost Value = { Finding };

    ghost view = { λ f. record { records = N.records f.second; seq = f.seq; start = f.start; stop = f.stop; found = map W.Record.as_record f.carried.items ++ hits (W.left f.walk) f.seq f.start f.stop } };

    ghost invariant = { λ f. StandsAt (N.records f.second) (map W.Record.as_record f.carried.items) (W.left f.walk) f.seq f.start };
}

impl<N: SecondRecords<W>, W: RecordWalk, A: Allocator> HitFinder<N, W, A> {
    ghost use Rattle.iv_pair.specs.Inside.HitFinder.{IsSameSearch};

    /// It is at the first record. It carries records in this vector, as many as it has room for.
    pub(crate) fn of(second: N, room: Vec<W::Record, A>) -> Self
        requires order { AreInOrder (N.records second) }
        requires none { room.items ≡ [] }
        ensures { result.records ≡ N.records second }
    {
        let mut meter = W::meter();
        let walk = second.walk(&mut meter);
        walk.lemma_of_few();
        HitFinder {
            second,
            carried: room,
            walk,
            meter,
            seq: 0,
            start: 0,
            stop: 0,
        }
    }

    /// Seeks the records that share a position with an interval. `hits` then has them.
    #[inline(always)]
    pub(crate) fn seek(&mut self, seq: u32, start: u64, stop: u64)
        requires { start < stop }
        ensures found { self.new.found ≡ hits self.old.records seq start stop }
        ensures same { self.new.records ≡ self.old.records }
    {
        self.go_to(seq, start, stop);
        if take_begun(
            &mut self.carried,
            &mut self.walk,
            seq,
            start,
            FEW,
            &mut self.meter,
        ) {
            return;
        }
        self.skip();
        take_begun(
            &mut self.carried,
            &mut self.walk,
            seq,
            start,
            u32::MAX,
            &mut self.meter,
        );
    }

    /// Goes to an interval: on from where the search is, if that isn't past its start, and else to the first record.
    #[inline(always)]
    fn go_to(&mut self, seq: u32, start: u64, stop: u64)
        ensures same { self.new.records ≡ self.old.records }
        ensures there { (self.new.seq ≡ seq) × (self.new.start ≡ start) × (self.new.stop ≡ stop) }
    {
        let goes_on = is_onward(self.seq, self.start, seq, start);
        self.seq = seq;
        self.start = start;
        self.stop = stop;
        if goes_on {
            keep::<W, A>(&mut self.carried, seq, start);
            return;
        }
        self.carried.clear();
        self.walk = self.second.walk(&mut self.meter);
        self.walk.lemma_of_few();
    }

    /// Skips records ahead that have no hit from here on, if it is known where to go on.
    fn skip(&mut self)
        requires { self.old.start < 2 ^ 64 - 1 }
        ensures { IsSameSearch self.old self.new }
    {
        let Some(walk) = self
            .second
            .skip_to(self.seq, self.start, &self.walk, &mut self.meter)
        else {
            return;
        };
        walk.lemma_of_few();
        self.carried.clear();
        self.walk = walk;
    }

    /// Whether it is plain that no record shares a position with the interval that was sought last: none is carried, and the next one
    /// starts at its end or later.
    #[inline(always)]
    pub(crate) fn has_none(&mut self) -> bool
        ensures none { result ≡ true → self.old.found ≡ [] }
        ensures ordered { AreInOrder self.old.records }
        ensures same { self.new ≡ self.old }
    {
        if !self.carried.as_slice().is_empty() {
            return false;
        }
        match self.walk.next_interval(&mut self.meter) {
            Some(next) => is_from(next, self.seq, self.stop),
            None => true,
        }
    }

    /// The records that share a position with the interval that was sought last, in the order of a track.
    #[inline(always)]
    pub(crate) fn hits(&self) -> Hits<'_, W>
        ensures found { result ≡ self.now.found }
        ensures ordered { AreInOrder self.now.records }
    {
        Hits::of(
            self.carried.as_slice(),
            self.walk.again(),
            self.seq,
            self.start,
            self.stop,
        )
    }
}

/// Whether the position `to` of the sequence of rank `to_seq` is the position `at` of sequence `seq` or after it.
#[inline(always)]
fn is_onward(seq: u32, at: u64, to_seq: u32, to: u64) -> bool
    ensures { result ≡ true → IsOnward seq at to_seq to }
{
    seq < to_seq || seq == to_seq && at <= to
}

/// Goes on over records that start at this position or before it, at most so many, and carries those that reach past it. It stops
/// at one of them if there is no room. Answers whether it came to one that starts later, or to the end.
#[inline(always)]
fn take_begun<W: RecordWalk, A: Allocator>(
    carried: &mut Vec<W::Record, A>,
    walk: &mut W,
    seq: u32,
    start: u64,
    most: u32,
    meter: &mut W::Meter,
) -> bool
    requires start { start < 2 ^ 64 - 1 }
    requires ordered { AreInOrder (W.left walk.old) }
    requires cover { AllCover seq start (map W.Record.as_record carried.old.items) }
    ensures ordered { AreInOrder (W.left walk.new) }
    ensures few { length carried.new.items + length (W.left walk.new) ≤ length carried.old.items + length (W.left walk.old) }
    ensures cover { AllCover seq start (map W.Record.as_record carried.new.items) }
    ensures alike { HitAlike seq start (map W.Record.as_record carried.new.items ++ W.left walk.new) (map W.Record.as_record carried.old.items ++ W.left walk.old) }
{
    for _ in 0..most {
        let Some(next) = walk.next_interval(meter) else {
            return true;
        };
        if is_from(next, seq, start + 1) {
            return true;
        }
        if !covers(next, seq, start) {
            walk.next(meter);
            continue;
        }
        if carried.len() == carried.capacity() {
            return false;
        }
        if let Some(feature) = walk.next(meter) {
            carried.push_reserved(feature);
        }
    }
    false
}

/// Drops those of the records that don't have this position.
#[inline(always)]
fn keep<W: RecordWalk, A: Allocator>(records: &mut Vec<W::Record, A>, seq: u32, position: u64)
    ensures { map W.Record.as_record records.new.items ≡ filter (covers seq position) (map W.Record.as_record records.old.items) }
{
    if records.as_slice().is_empty() {
        return;
    }
    records.retain(|feature| covers(W::interval(feature), seq, position));
}

/// Whether an interval has this position of this sequence.
#[inline(always)]
fn covers(next: Interval, seq: u32, position: u64) -> bool
    ensures { (r : RecordValue) → next ≡ interval_of r → result ≡ covers seq position r }
{
    next.seq == seq && u64::from(next.start) <= position && position < u64::from(next.stop)
}

/// Puts the rows of the records that a walk has left, each beside its hits.
///
/// If `looks` says how many hits to look at, it stops after the record with which it has looked at so many. On a fault the sink has
/// taken a prefix of the text.
#[inline(always)]
pub(crate) fn put_by_hits<
    A: Allocator + Copy,
    W: RecordWalk,
    N: SecondRecords<V>,
    V: RecordWalk,
    S: Sink,
>(
    output: PairOutput,
    records: &mut W,
    finder: &mut HitFinder<N, V, A>,
    looks: Option<u64>,
    genome: &Genome<A>,
    meter: &mut W::Meter,
    sink: &mut S,
) -> Result<(), WriteFault>
    ensures text { (second : List RecordValue) → GiveRowsAlike output finder.old.records second → PutsSome output genome.now second (W.left records.old) (W.left records.new) (S.state sink.old) (S.state sink.new) result }
    ensures same { finder.new.records ≡ finder.old.records }
    ensures all { looks ≡ None → OnOk result (W.left records.new ≡ []) }
{
    let counts = looks.is_some();
    let most = looks.unwrap_or(u64::MAX);
    let mut looked = 0;
    while let Some(feature) = records.next(meter) {
        put_beside(output, finder, &feature, counts, &mut looked, genome, sink)?;
        if counts && looked > most {
            return Ok(());
        }
    }
    Ok(())
}

/// Puts the rows of a record beside its hits, and counts how many were looked at, if that is wanted.
#[inline(always)]
fn put_beside<A: Allocator + Copy, R: BedRecord, N: SecondRecords<V>, V: RecordWalk, S: Sink>(
    output: PairOutput,
    finder: &mut HitFinder<N, V, A>,
    feature: &R,
    counts: bool,
    looked: &mut u64,
    genome: &Genome<A>,
    sink: &mut S,
) -> Result<(), WriteFault>
    ensures text { Puts (S.state sink.old) (S.state sink.new) result (pair_rows output genome.now (R.as_record feature.now) finder.old.records) }
    ensures same { finder.new.records ≡ finder.old.records }
    ensures base { (R.as_record feature.now).start < (R.as_record feature.now).stop }
{
    finder.seek(feature.seq(), feature.start(), feature.stop());
    if finder.has_none() {
        return put_pair_rows(output, genome, feature, empty::<V::Record>(), sink);
    }
    let hits = finder.hits();
    hits.lemma_of_few();
    if !counts {
        return put_pair_rows(output, genome, feature, hits, sink);
    }
    put_pair_rows(output, genome, feature, CountedHits { hits, looked }, sink)
}

/// Hits of which it is counted how many are looked at: an iterator. Its model is the list of those that are left.
#[derive(Drop)]
struct CountedHits<'a, W: RecordWalk> {
    hits: Hits<'a, W>,
    looked: &'a mut u64,
}

impl<'a, W: RecordWalk> Model for CountedHits<'a, W> {
    ghost use Rattle.std.specs.Prelude.{List};
    ghost use Rattle.iv_lines.specs.RecordValue.{RecordValue};

    ghost Value = { List RecordValue };

    ghost view = { λ h. h.hits };
}

impl<'a, W: RecordWalk> Iterator for CountedHits<'a, W> {
    type Item = W::Record;

    ghost next_gives = { YieldsFirstBy W.Record.as_record (λ h. h) };

    ghost remaining = { item_count (λ h. h) };

    fn next(&mut self) -> Option<W::Record> {
        let before = self.hits.steps();
        let next = self.hits.next();
        let steps = self.hits.steps().saturating_sub(before);
        *self.looked = self.looked.saturating_add(steps).saturating_add(1);
        next
    }
}
