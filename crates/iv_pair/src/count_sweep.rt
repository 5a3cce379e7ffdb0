//! How many hits each record has, in one sweep over the records of two files.
ghost use Rattle.std.specs.Prelude.{◌≡◌, ◌<◌, ◌≤◌, IfOk, List, count_by, length, map};
ghost use Rattle.std.specs.List.Sorted.{IsPermutation};
ghost use Rattle.iv_bytes.specs.Sinks.{Puts};
ghost use Rattle.iv_lines.specs.Ordered.{AreInOrder};
ghost use Rattle.iv_lines.specs.RecordValue.{RecordValue};
ghost use Rattle.iv_pair.specs.Inside.Counts.{AreEndsOf, EndsAscend, StartsAscend, end_by, end_of, is_before, is_up_to, place_before};
ghost use Rattle.iv_pair.specs.PairRows.{pair_text};
ghost use Rattle.iv_pair.specs.CoverAlone.{GiveRowsAlike};
ghost use Rattle.iv_pair.specs.declared.intersect.IntersectOutput.TheVariants.{Count};
ghost use Rattle.iv_pair.specs.declared.pair_rows.PairOutput.TheVariants.{Intersect};

use crate::intersect::put_count;
use iv_bytes::{Sink, WriteFault};
use iv_cover::RecordWalk;
use iv_lines::{BedRecord, Genome};
use iv_places::{Place, PlacedRecords};
use std::alloc::{AllocError, Allocator};

/// How many places are looked at one after another, before a search goes over those that are left.
const FEW: usize = 8;

/// Puts for each record of the first list, in its order, its line with the number of its hits, as `bedtools intersect -c` does.
///
/// That is how many of the second list begin before its stop, less how many end at its start or before it. So it takes no walk over
/// the hits, and no memory. Both lists are in order. On a fault the sink has taken a prefix of the text.
pub(crate) fn put_counts<A: Allocator + Copy, W: RecordWalk, S: Sink>(
    first: W,
    second: &PlacedRecords<'_>,
    ends: &[End],
    genome: &Genome<A>,
    meter: &mut W::Meter,
    sink: &mut S,
) -> Result<(), WriteFault>
    requires first { AreInOrder (W.left first) }
    requires second { AreInOrder second.now }
    requires ends { AreEndsOf ends.now second.now }
    ensures { (other : List RecordValue) → GiveRowsAlike (Intersect Count) second.now other → Puts (S.state sink.old) (S.state sink.new) result (pair_text (Intersect Count) genome.now (W.left first) other) }
{
    let mut first = first;
    let places = second.places();
    let mut begun = 0;
    let mut ended = 0;
    while let Some(feature) = first.next(meter) {
        let seq = feature.seq();
        let start = feature.start();
        ended = pass_ends(ends, ended, seq, start);
        begun = pass_starts(places, begun, places.len(), seq, start);
        let reached = count_starts(places, begun, seq, feature.stop());
        put_count(genome, &feature, (reached - ended) as u64, sink)?;
    }
    Ok(())
}

/// Where a record ends. Ends are in order by the rank of the sequence, and then by the stop.
#[derive(Clone, Copy, PartialEq, Eq, PartialOrd, Ord)]
pub(crate) struct End {
    /// The rank of the sequence in the genome.
    seq: u32,
    /// The stop of the record, not included.
    stop: u32,
}

/// The ends of these places, in order: 8 bytes for each.
pub(crate) fn ends_of<A: Allocator>(alloc: A, places: &[Place]) -> Result<Vec<End, A>, AllocError>
    ensures moved { IfOk result (λ ends. IsPermutation (map end_of places.now) ends.items) }
    ensures ordered { IfOk result (λ ends. EndsAscend ends.items) }
{
    let mut ends = Vec::with_capacity(alloc, places.len())?;
    for place in places {
        ends.push(End {
            seq: place.interval.seq,
            stop: place.interval.stop,
        })?;
    }
    ends.sort_unstable();
    Ok(ends)
}

/// How many of the ends are at a position or before it, if it is known that so many are.
fn pass_ends(ends: &[End], from: usize, seq: u32, at: u64) -> usize
    requires ordered { EndsAscend ends.now }
    requires from { from ≤ count_by (end_by seq at) ends.now }
    ensures { result ≡ count_by (end_by seq at) ends.now }
{
    let mut passed = from;
    while passed < ends.len() {
        if !is_by(&ends[passed], seq, at) {
            return passed;
        }
        passed += 1;
    }
    passed
}

/// Whether an end is at a position of a sequence or before it.
fn is_by(end: &End, seq: u32, at: u64) -> bool
    ensures { result ≡ is_up_to seq at end.now.seq end.now.stop }
{
    end.seq < seq || end.seq == seq && u64::from(end.stop) <= at
}

/// How many places begin before a position, if it is known that so many do.
///
/// The next few are looked at one after another. If all of them begin before it, the others are searched.
pub(crate) fn count_starts(places: &[Place], from: usize, seq: u32, at: u64) -> usize
    requires ordered { StartsAscend places.now }
    requires from { from ≤ count_by (place_before seq at) places.now }
    ensures { result ≡ count_by (place_before seq at) places.now }
{
    let until = from + FEW.min(places.len() - from);
    let passed = pass_starts(places, from, until, seq, at);
    if passed < until {
        return passed;
    }
    let others = &places[passed..];
    passed + others.partition_point(|place| begins_before(place, seq, at))
}

/// Passes places that begin before a position, if it is known that so many do. It goes no further than to an index.
fn pass_starts(places: &[Place], from: usize, until: usize, seq: u32, at: u64) -> usize
    requires ordered { StartsAscend places.now }
    requires from { from ≤ count_by (place_before seq at) places.now }
    requires until { until ≤ length places.now }
    ensures few { result ≤ count_by (place_before seq at) places.now }
    ensures all { result < until → result ≡ count_by (place_before seq at) places.now }
{
    let mut passed = from;
    while passed < until {
        if !begins_before(&places[passed], seq, at) {
            return passed;
        }
        passed += 1;
    }
    passed
}

/// Whether a place begins before a position of a sequence.
fn begins_before(place: &Place, seq: u32, at: u64) -> bool
    ensures { result ≡ is_before seq at place.now.interval.seq place.now.interval.start }
{
    place.interval.seq < seq || place.interval.seq == seq && u64::from(place.interval.start) < at
}
