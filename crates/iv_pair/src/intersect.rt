//! The rows of an intersect.
ghost use Rattle.std.specs.Prelude.{◌≡◌, ◌++◌, if◌then◌else◌, List, length, codes};
ghost use Rattle.std.specs.Iterator.{AlwaysYields, IsFinite, UpTo};
ghost use Rattle.std.specs.List.{flat_map};
ghost use Rattle.std.specs.Option.{IsSomeAnd};
ghost use Rattle.iv_bytes.specs.Sinks.{Puts};
ghost use Rattle.iv_lines.specs.RecordValue.{RecordValue};
ghost use Rattle.iv_pair.specs.Hits.{hits_of};
ghost use Rattle.iv_pair.specs.IntersectRows.{shared, record_line, pair_line, intersect_rows};
ghost use Rattle.iv_pair.specs.Inside.HitLines.{Overlaps, AllOverlap, hit_line};
ghost use Rattle.iv_pair.specs.declared.intersect.IntersectOutput.TheVariants.{IfHit, IfNoHit, Count};

use iv_bytes::{Sink, WriteFault, put_all};
use iv_lines::{BedRecord, Genome, RecordRef, put_line, put_numbered, put_record};
use std::alloc::Allocator;

/// Which rows an intersect shows of a record of the first file and its hits, the records of the second that share a position
/// with it. The options are those of bedtools intersect.
#[derive(Clone, Copy, Debug, PartialEq, Eq)]
pub enum IntersectOutput {
    /// For each hit the part that the two share.
    Shared,
    /// For each hit that part, and the hit after it: `-wb`.
    SharedAndHit,
    /// For each hit the record: `-wa`.
    Whole,
    /// For each hit the record, and the hit after it: `-wa -wb`.
    WholeAndHit,
    /// The record, if it has a hit: `-u`.
    IfHit,
    /// The record, if it has none: `-v`.
    IfNoHit,
    /// The record with the number of its hits: `-c`.
    Count,
}

/// [`IntersectOutput`] by a shorter name.
pub type Cross = IntersectOutput;

/// Puts the rows of one record and its hits, which any iterator may give.
///
/// The other columns of the record are read once at most, and not if it puts no row. On a fault the sink has taken a
/// prefix of their text.
pub fn put_intersect<
    A: Allocator + Copy,
    R: BedRecord,
    T: BedRecord,
    H: Iterator<Item = T>,
    S: Sink,
>(
    output: IntersectOutput,
    genome: &Genome<A>,
    feature: &R,
    hits: H,
    sink: &mut S,
) -> Result<(), WriteFault>
    requires starts { H.can_next hits }
    requires few { UpTo (H.remaining hits) u64.MAX }
    ensures { (second : List RecordValue) → AlwaysYields H.next_gives T.as_record hits (hits_of second (R.as_record feature.now)) → Puts (S.state sink.old) (S.state sink.new) result (intersect_rows output genome.now (R.as_record feature.now) (hits_of second (R.as_record feature.now))) }
{
    match output {
        IntersectOutput::IfHit => put_if(true, genome, feature, hits, sink),
        IntersectOutput::IfNoHit => put_if(false, genome, feature, hits, sink),
        IntersectOutput::Count => put_count(genome, feature, hits.count() as u64, sink),
        IntersectOutput::Shared
        | IntersectOutput::SharedAndHit
        | IntersectOutput::Whole
        | IntersectOutput::WholeAndHit => put_hits(output, genome, feature, hits, sink),
    }
}

/// Puts a line for each hit.
fn put_hits<A: Allocator + Copy, R: BedRecord, T: BedRecord, H: Iterator<Item = T>, S: Sink>(
    output: IntersectOutput,
    genome: &Genome<A>,
    feature: &R,
    hits: H,
    sink: &mut S,
) -> Result<(), WriteFault>
    requires starts { H.can_next hits }
    requires ends { IsFinite (H.remaining hits) }
    ensures { (found : List RecordValue) → AlwaysYields H.next_gives T.as_record hits found → AllOverlap (R.as_record feature.now) found → Puts (S.state sink.old) (S.state sink.new) result (flat_map (hit_line output genome.now (R.as_record feature.now)) found) }
{
    let mut hits = hits;
    let Some(hit) = hits.next() else {
        return Ok(());
    };
    let feature = feature.to_ref();
    put_hit(output, genome, &feature, &hit, sink)?;
    put_each_hit(output, genome, &feature, hits, sink)
}

/// Puts a line for each of these hits.
fn put_each_hit<A: Allocator + Copy, T: BedRecord, H: Iterator<Item = T>, S: Sink>(
    output: IntersectOutput,
    genome: &Genome<A>,
    feature: &RecordRef<'_>,
    hits: H,
    sink: &mut S,
) -> Result<(), WriteFault>
    requires starts { H.can_next hits }
    requires ends { IsFinite (H.remaining hits) }
    ensures { (found : List RecordValue) → AlwaysYields H.next_gives T.as_record hits found → AllOverlap feature.now found → Puts (S.state sink.old) (S.state sink.new) result (flat_map (hit_line output genome.now feature.now) found) }
{
    for hit in hits {
        put_hit(output, genome, feature, &hit, sink)?;
    }
    Ok(())
}

/// Puts the line of one hit, and nothing if there is not a line for each.
fn put_hit<A: Allocator + Copy, T: BedRecord, S: Sink>(
    output: IntersectOutput,
    genome: &Genome<A>,
    feature: &RecordRef<'_>,
    hit: &T,
    sink: &mut S,
) -> Result<(), WriteFault>
    ensures { Overlaps feature.now (T.as_record hit.now) → Puts (S.state sink.old) (S.state sink.new) result (hit_line output genome.now feature.now (T.as_record hit.now)) }
{
    match output {
        IntersectOutput::Shared => match shared(feature, hit) {
            Some(part) => put_line(sink, genome, &part),
            None => Ok(()),
        },
        IntersectOutput::SharedAndHit => match shared(feature, hit) {
            Some(part) => put_pair(genome, &part, &hit.to_ref(), sink),
            None => Ok(()),
        },
        IntersectOutput::Whole => put_line(sink, genome, feature),
        IntersectOutput::WholeAndHit => put_pair(genome, feature, &hit.to_ref(), sink),
        IntersectOutput::IfHit | IntersectOutput::IfNoHit | IntersectOutput::Count => Ok(()),
    }
}

/// The part of a record that it shares with a hit, `None` if it shares none.
fn shared<'a, T: BedRecord>(feature: &RecordRef<'a>, hit: &T) -> Option<RecordRef<'a>>
    ensures { Overlaps feature.now (T.as_record hit.now) → IsSomeAnd result (λ part. part ≡ shared feature.now (T.as_record hit.now)) }
{
    let start = feature.start().max(hit.start());
    let stop = feature.stop().min(hit.stop());
    if start < stop {
        Some(feature.part(start, stop))
    } else {
        None
    }
}

/// Puts the line of a record with another after it.
///
/// On a fault the sink has taken a prefix of the line.
fn put_pair<A: Allocator + Copy, S: Sink>(
    genome: &Genome<A>,
    feature: &RecordRef<'_>,
    hit: &RecordRef<'_>,
    sink: &mut S,
) -> Result<(), WriteFault>
    ensures { Puts (S.state sink.old) (S.state sink.new) result (pair_line genome.now feature.now hit.now) }
{
    put_record(sink, genome, feature)?;
    put_after(genome, hit, sink)
}

/// Puts a TAB and the line of a record.
fn put_after<A: Allocator + Copy, S: Sink>(
    genome: &Genome<A>,
    feature: &RecordRef<'_>,
    sink: &mut S,
) -> Result<(), WriteFault>
    ensures { Puts (S.state sink.old) (S.state sink.new) result (codes "\t" ++ record_line genome.now feature.now) }
{
    put_all(sink, b"\t")?;
    put_line(sink, genome, feature)
}

/// Puts the line of a record, if it has a hit, or if it has none.
pub(crate) fn put_if<
    A: Allocator + Copy,
    R: BedRecord,
    T: BedRecord,
    H: Iterator<Item = T>,
    S: Sink,
>(has: bool, genome: &Genome<A>, feature: &R, hits: H, sink: &mut S) -> Result<(), WriteFault>
    requires { H.can_next hits }
    ensures { (found : List RecordValue) → AlwaysYields H.next_gives T.as_record hits found → Puts (S.state sink.old) (S.state sink.new) result (if has then intersect_rows IfHit genome.now (R.as_record feature.now) found else intersect_rows IfNoHit genome.now (R.as_record feature.now) found) }
{
    let mut hits = hits;
    if hits.next().is_some() == has {
        put_line(sink, genome, &feature.to_ref())
    } else {
        Ok(())
    }
}

/// Puts the line of a record with the number of its hits.
pub(crate) fn put_count<A: Allocator + Copy, R: BedRecord, S: Sink>(
    genome: &Genome<A>,
    feature: &R,
    count: u64,
    sink: &mut S,
) -> Result<(), WriteFault>
    ensures { (found : List RecordValue) → length found ≡ count → Puts (S.state sink.old) (S.state sink.new) result (intersect_rows Count genome.now (R.as_record feature.now) found) }
{
    put_numbered(sink, genome, &feature.to_ref(), count)
}
