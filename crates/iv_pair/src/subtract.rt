//! The rows of a subtract.
ghost use Rattle.std.specs.Prelude.{◌≤◌, false, List};
ghost use Rattle.std.specs.Iterator.{AlwaysYields, IsFinite};
ghost use Rattle.iv_bytes.specs.Sinks.{Puts};
ghost use Rattle.iv_lines.specs.Ordered.{AreInOrder};
ghost use Rattle.iv_lines.specs.RecordValue.{RecordValue};
ghost use Rattle.iv_pair.specs.Hits.{hits_of};
ghost use Rattle.iv_pair.specs.Inside.HitLines.{part_line};
ghost use Rattle.iv_pair.specs.PairRows.{pair_rows};
ghost use Rattle.iv_pair.specs.declared.pair_rows.PairOutput.TheVariants.{Subtract};

use crate::intersect::put_if;
use iv_bytes::{Sink, WriteFault};
use iv_lines::{BedRecord, Genome, put_line};
use std::alloc::Allocator;

/// Puts the rows of one record and its hits, in the order of a track, which any iterator may give.
///
/// On a fault the sink has taken a prefix of their text.
pub fn put_subtract<
    A: Allocator + Copy,
    R: BedRecord,
    T: BedRecord,
    H: Iterator<Item = T>,
    S: Sink,
>(whole: bool, genome: &Genome<A>, feature: &R, hits: H, sink: &mut S) -> Result<(), WriteFault>
    requires starts { H.can_next hits }
    requires ends { IsFinite (H.remaining hits) }
    ensures { (second : List RecordValue) → AreInOrder second → AlwaysYields H.next_gives T.as_record hits (hits_of second (R.as_record feature.now)) → Puts (S.state sink.old) (S.state sink.new) result (pair_rows (Subtract whole) genome.now (R.as_record feature.now) second) }
{
    if whole {
        put_if(false, genome, feature, hits, sink)
    } else {
        put_uncovered(genome, feature, hits, sink)
    }
}

/// Puts a line for each maximal part of a record that no hit covers. It asks for no further hit once the rest of the record is
/// covered.
fn put_uncovered<A: Allocator + Copy, R: BedRecord, T: BedRecord, H: Iterator<Item = T>, S: Sink>(
    genome: &Genome<A>,
    feature: &R,
    hits: H,
    sink: &mut S,
) -> Result<(), WriteFault>
    requires starts { H.can_next hits }
    requires ends { IsFinite (H.remaining hits) }
    ensures { (second : List RecordValue) → AreInOrder second → AlwaysYields H.next_gives T.as_record hits (hits_of second (R.as_record feature.now)) → Puts (S.state sink.old) (S.state sink.new) result (pair_rows (Subtract false) genome.now (R.as_record feature.now) second) }
{
    let mut from = feature.start();
    for hit in hits {
        let (start, stop) = (hit.start(), hit.stop());
        put_part(genome, feature, from, start.min(feature.stop()), sink)?;
        from = from.max(stop);
        if from >= feature.stop() {
            return Ok(());
        }
    }
    put_part(genome, feature, from, feature.stop(), sink)
}

/// Puts the line of a part of a record, if it has a position.
fn put_part<A: Allocator + Copy, R: BedRecord, S: Sink>(
    genome: &Genome<A>,
    feature: &R,
    start: u64,
    stop: u64,
    sink: &mut S,
) -> Result<(), WriteFault>
    requires { stop ≤ (R.as_record feature.now).stop }
    ensures { Puts (S.state sink.old) (S.state sink.new) result (part_line genome.now (R.as_record feature.now) start stop) }
{
    if start < stop {
        put_line(sink, genome, &feature.to_ref().part(start, stop))
    } else {
        Ok(())
    }
}
