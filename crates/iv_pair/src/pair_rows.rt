//! The rows of an intersect or a subtract: those of one record and its hits, and those of all records of a track.
ghost use Rattle.std.specs.Prelude.{◌≡◌, [], IfOk, IsTrue, List, OnErr};
ghost use Rattle.std.specs.Iterator.{AlwaysYields, UpTo};
ghost use Rattle.iv_bytes.specs.Sinks.{Puts};
ghost use Rattle.iv_lines.specs.Ordered.{AreInOrder};
ghost use Rattle.iv_lines.specs.RecordValue.{RecordValue};
ghost use Rattle.iv_pair.specs.Hits.{hits_of};
ghost use Rattle.iv_pair.specs.PairRows.{pair_rows, pair_text};
ghost use Rattle.iv_pair.specs.Inside.PairTexts.{NeedsIntervalsAlone};

use crate::hit_finder::{HitFinder, put_by_hits};
use crate::hits::Hits;
use crate::intersect::{IntersectOutput, put_intersect};
use crate::pair_sweep::{PairSweep, join_beside};
use crate::second::{Second, first_start};
use crate::second_records::{KeptRecords, intervals_of};
use crate::subtract::put_subtract;
use iv_bytes::{Sink, WriteFault};
use iv_cover::RecordWalk;
use iv_ledger::Meter;
use iv_lines::{BedRecord, Genome, RecordRef};
use iv_track::{Track, TrackRecords};
use std::alloc::{AllocError, Allocator};

/// Which rows are put of a record and its hits.
#[derive(Clone, Copy, Debug, PartialEq, Eq)]
pub enum PairOutput {
    /// Those of an intersect.
    Intersect(IntersectOutput),
    /// Those of a subtract; if `whole`, only whole records are taken away: `-A`.
    Subtract { whole: bool },
}

/// How many hits are looked at for each record of the second file before a copy of it is made.
const LOOKS_FOR_EACH: u64 = 4;

/// How many records of a second file a search carries at most in a session.
const MOST_CARRIED: usize = 64;

/// Puts the rows of each record of the track, in its order, as bedtools intersect or subtract does.
///
/// One walk over the track. It needs no memory: it takes a little to carry records if there is some; and if many hits of
/// `intersect -c` or `subtract` were looked at, it tries to copy the intervals of the second file, and goes on without if an
/// allocation fails. On a fault the sink has taken a prefix of the text.
pub fn print_pairs<A: Allocator + Copy, S: Sink>(
    output: PairOutput,
    track: &Track<A>,
    second: &Second<A>,
    genome: &Genome<A>,
    meter: &mut Meter,
    sink: &mut S,
) -> Result<(), WriteFault>
    ensures { Puts (S.state sink.old) (S.state sink.new) result (pair_text output genome.now track.now.records second.now.records) }
{
    // The records of both files are in order.
    let _len = track.len();
    let len = second.len();
    let mut records = track.walk(0, 0, meter);
    let room = room_for(second.allocator(), MOST_CARRIED);
    let mut finder = HitFinder::of(KeptRecords::of(second, meter), room);
    if !is_helped_by_copy(output) {
        return put_by_hits(output, &mut records, &mut finder, None, genome, meter, sink);
    }
    let looks = LOOKS_FOR_EACH * u64::from(len);
    put_by_hits(
        output,
        &mut records,
        &mut finder,
        Some(looks),
        genome,
        meter,
        sink,
    )?;
    if records.again().next(meter).is_none() {
        return Ok(());
    }
    if let Ok(put) = put_by_copy(output, records.again(), second, genome, meter, sink) {
        return put;
    }
    put_by_hits(output, &mut records, &mut finder, None, genome, meter, sink)
}

/// Room for so many records, or for none if an allocation fails.
fn room_for<'a, A: Allocator + Copy>(alloc: A, count: usize) -> Vec<RecordRef<'a>, A>
    ensures { result.items ≡ [] }
{
    match Vec::with_capacity(alloc, count) {
        Ok(room) => room,
        Err(_) => Vec::new(alloc),
    }
}

/// Whether a copy of the intervals of the second file helps these rows, if many hits are looked at. The other rows stop at the first
/// hit, or print each.
fn is_helped_by_copy(output: PairOutput) -> bool
    ensures { IsTrue result → NeedsIntervalsAlone output }
{
    match output {
        PairOutput::Subtract { whole } => !whole,
        PairOutput::Intersect(IntersectOutput::Count) => true,
        PairOutput::Intersect(_) => false,
    }
}

/// Puts the rows of records beside a copy of the second file, which has its intervals alone.
///
/// # Errors
///
/// An allocation failed. Nothing was put.
fn put_by_copy<A: Allocator + Copy, S: Sink>(
    output: PairOutput,
    records: TrackRecords<'_, A>,
    second: &Second<A>,
    genome: &Genome<A>,
    meter: &mut Meter,
    sink: &mut S,
) -> Result<Result<(), WriteFault>, AllocError>
    requires rows { NeedsIntervalsAlone output }
    requires first { AreInOrder records }
    requires second { AreInOrder second.now.records }
    ensures text { IfOk result (λ put. Puts (S.state sink.old) (S.state sink.new) put (pair_text output genome.now records.entry second.now.records)) }
    ensures alone { OnErr result (sink.new ≡ sink.old) }
{
    let mut copy = intervals_of(second, meter)?;
    join_beside(output, &mut copy);
    let sweep = PairSweep::new(second.allocator(), output, copy.records())?;
    Ok(sweep.print(records, genome, meter, sink))
}

/// Puts the rows of one record beside a second file. It takes no memory.
///
/// On a fault the sink has taken a prefix of their text.
pub fn put_pair<A: Allocator + Copy, S: Sink>(
    output: PairOutput,
    feature: &RecordRef<'_>,
    second: &Second<A>,
    genome: &Genome<A>,
    sink: &mut S,
) -> Result<(), WriteFault>
    ensures { Puts (S.state sink.old) (S.state sink.new) result (pair_rows output genome.now feature.now second.now.records) }
{
    feature.lemma_of_interval();
    let mut meter = Meter::new();
    let from = first_start(feature.start(), second.longest(feature.seq(), &mut meter));
    let records = second.walk(feature.seq(), from, &mut meter);
    put_among(output, feature, records, genome, sink)
}

/// Puts the rows of one record beside its hits among the records that a walk has left.
fn put_among<A: Allocator + Copy, W: RecordWalk, S: Sink>(
    output: PairOutput,
    feature: &RecordRef<'_>,
    records: W,
    genome: &Genome<A>,
    sink: &mut S,
) -> Result<(), WriteFault>
    requires { AreInOrder (W.left records) }
    ensures { (second : List RecordValue) → AreInOrder second → hits_of (W.left records) feature.now ≡ hits_of second feature.now → Puts (S.state sink.old) (S.state sink.new) result (pair_rows output genome.now feature.now second) }
{
    records.lemma_of_few();
    feature.lemma_of_interval();
    let hits = Hits::of(&[], records, feature.seq(), feature.start(), feature.stop());
    hits.lemma_of_few();
    put_pair_rows(output, genome, feature, hits, sink)
}

/// Puts the rows of one record and its hits, in the order of a track, which any iterator may give.
///
/// On a fault the sink has taken a prefix of their text.
pub fn put_pair_rows<
    A: Allocator + Copy,
    R: BedRecord,
    T: BedRecord,
    H: Iterator<Item = T>,
    S: Sink,
>(
    output: PairOutput,
    genome: &Genome<A>,
    feature: &R,
    hits: H,
    sink: &mut S,
) -> Result<(), WriteFault>
    requires starts { H.can_next hits }
    requires few { UpTo (H.remaining hits) u64.MAX }
    ensures { (second : List RecordValue) → AreInOrder second → AlwaysYields H.next_gives T.as_record hits (hits_of second (R.as_record feature.now)) → Puts (S.state sink.old) (S.state sink.new) result (pair_rows output genome.now (R.as_record feature.now) second) }
{
    match output {
        PairOutput::Intersect(output) => put_intersect(output, genome, feature, hits, sink),
        PairOutput::Subtract { whole } => put_subtract(whole, genome, feature, hits, sink),
    }
}
