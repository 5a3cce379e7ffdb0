//! The views that have no state.
ghost use Rattle.std.specs.Prelude.{◌≡◌, false, ◌+◌, ◌<◌, [], ◌∷◌, IsTrue, IsSome, length, replicate};
ghost use Rattle.std.specs.List.{flat_map};
ghost use Rattle.std.specs.Option.{option_copied, unwrap_or};
ghost use Rattle.iv_bytes.specs.Sinks.{Puts};
ghost use Rattle.iv_track.specs.Regions.{hits as hits_in, near};
ghost use Rattle.iv_ledger.specs.Steps.{TakesUpTo};
ghost use Rattle.iv_view.specs.Views.{needs_second, second_records, written_rows, WritesWithin};
ghost use Rattle.iv_view.specs.declared.view.View.TheVariants.{Written};
ghost use Rattle.iv_track.specs.Tracked.{different_records};
ghost use Rattle.iv_view.specs.Inside.Texts.{records_text};

use iv_bytes::{Sink, WriteFault};
use iv_cover::RecordWalk;
use iv_fasta::{Fasta, FastaOutput, put_fasta};
use iv_ledger::Meter;
use iv_lines::{BedRecord, Genome, RecordRef, put_line};
use iv_pair::{PairOutput, Second, print_pairs, put_pair};
use iv_track::{Region, Track};
use std::alloc::Allocator;

/// A view that is written from the records at each print.
#[derive(Clone, Copy, Debug, PartialEq, Eq)]
pub enum WrittenView {
    /// `intersect` or `subtract`: the records of the track with those of the second file, or without what these cover.
    Paired(PairOutput),
    /// `getfasta`: the bases of each record whose sequence the FASTA file has.
    Getfasta(FastaOutput),
    /// `records`: every record with all its columns.
    Records,
}

impl WrittenView {
    /// Prints the view. It needs no memory; on a fault the sink has taken a prefix of the text.
    ///
    /// A view that needs a second file has one. Without a FASTA file `getfasta` prints nothing. `records` takes at most two steps, and
    /// one for each different record.
    pub fn print<A: Allocator + Copy, S: Sink>(
        self,
        track: &Track<A>,
        second: Option<&Second<A>>,
        fasta: Option<&Fasta<A>>,
        genome: &Genome<A>,
        meter: &mut Meter,
        sink: &mut S,
    ) -> Result<(), WriteFault>
        requires { IsTrue (needs_second (Written self)) → IsSome (option_copied second) }
        ensures text { Puts (S.state sink.old) (S.state sink.new) result
            (flat_map (written_rows self genome.now (second_records (option_copied second.entry)) (unwrap_or (option_copied fasta.entry) [])) track.now.records) }
        ensures steps { WritesWithin self track.now.records meter.old meter.new }
    {
        match self {
            WrittenView::Paired(output) => match second {
                Some(second) => print_pairs(output, track, second, genome, meter, sink),
                None => unreachable!(),
            },
            WrittenView::Getfasta(_) => {
                let records = track.walk(0, 0, meter);
                self.put_each(records, fasta, genome, meter, sink)
            }
            WrittenView::Records => print_records(track, genome, meter, sink),
        }
    }

    /// Puts the rows of the records that share a position with a region, as [`WrittenView::print`] does. It takes no memory; on a fault
    /// the sink has taken a prefix of them.
    ///
    /// It takes at most two steps, and one for each record that starts below the region's end, and before it by less than twice the
    /// greatest length of a record. A view that needs a second file has one. Without a FASTA file `getfasta` prints nothing.
    pub fn print_in<A: Allocator + Copy, S: Sink>(
        self,
        at: Region,
        track: &Track<A>,
        second: Option<&Second<A>>,
        fasta: Option<&Fasta<A>>,
        genome: &Genome<A>,
        meter: &mut Meter,
        sink: &mut S,
    ) -> Result<(), WriteFault>
        requires some { at.start < at.stop }
        requires second { IsTrue (needs_second (Written self)) → IsSome (option_copied second) }
        ensures text { Puts (S.state sink.old) (S.state sink.new) result
            (flat_map (written_rows self genome.now (second_records (option_copied second.entry)) (unwrap_or (option_copied fasta.entry) [])) (hits_in track.now.records at.seq at.start at.stop)) }
        ensures steps { TakesUpTo meter.old meter.new (2 + length (near at track.now.records)) }
    {
        let mut hits = track.hits(at, meter);
        'records: while let Some(feature) = hits.next(meter) {
            self.put_rows(&feature, second, fasta, genome, sink)?;
        }
        Ok(())
    }

    /// Puts the rows of each record of a walk. It takes no memory. The view needs no second file.
    pub(crate) fn put_each<A: Allocator + Copy, W: RecordWalk, S: Sink>(
        self,
        records: W,
        fasta: Option<&Fasta<A>>,
        genome: &Genome<A>,
        meter: &mut W::Meter,
        sink: &mut S,
    ) -> Result<(), WriteFault>
        requires { needs_second (Written self) ≡ false }
        ensures { Puts (S.state sink.old) (S.state sink.new) result (flat_map (written_rows self genome.now [] (unwrap_or (option_copied fasta.entry) [])) (W.left records)) }
    {
        let mut records = records;
        'records: while let Some(feature) = records.next(meter) {
            self.put_alone(&feature.to_ref(), fasta, genome, sink)?;
        }
        Ok(())
    }

    /// Puts the rows of one record.
    fn put_rows<A: Allocator + Copy, S: Sink>(
        self,
        feature: &RecordRef<'_>,
        second: Option<&Second<A>>,
        fasta: Option<&Fasta<A>>,
        genome: &Genome<A>,
        sink: &mut S,
    ) -> Result<(), WriteFault>
        requires { IsTrue (needs_second (Written self)) → IsSome (option_copied second) }
        ensures { Puts (S.state sink.old) (S.state sink.new) result
            (flat_map (written_rows self genome.now (second_records (option_copied second.entry)) (unwrap_or (option_copied fasta.entry) [])) (feature.now ∷ [])) }
    {
        match self {
            WrittenView::Paired(output) => match second {
                Some(second) => put_pair(output, feature, second, genome, sink),
                None => unreachable!(),
            },
            WrittenView::Getfasta(_) => self.put_alone(feature, fasta, genome, sink),
            WrittenView::Records => self.put_alone(feature, fasta, genome, sink),
        }
    }

    /// Puts the rows of one record, which need no second file.
    #[inline(always)]
    fn put_alone<A: Allocator + Copy, S: Sink>(
        self,
        feature: &RecordRef<'_>,
        fasta: Option<&Fasta<A>>,
        genome: &Genome<A>,
        sink: &mut S,
    ) -> Result<(), WriteFault>
        requires { needs_second (Written self) ≡ false }
        ensures { Puts (S.state sink.old) (S.state sink.new) result (flat_map (written_rows self genome.now [] (unwrap_or (option_copied fasta.entry) [])) (feature.now ∷ [])) }
    {
        match self {
            WrittenView::Paired(_) => unreachable!(),
            WrittenView::Getfasta(shown) => match fasta {
                Some(fasta) => put_fasta(shown, genome, feature, fasta, sink),
                None => Ok(()),
            },
            WrittenView::Records => put_line(sink, genome, &feature),
        }
    }
}

/// Puts the rows of the track: every record with all its columns, in its order.
///
/// One walk over the different records: at most two steps, and one for each. It takes no memory. On a fault the sink has taken a
/// prefix of the rows.
fn print_records<A: Allocator + Copy, S: Sink>(
    track: &Track<A>,
    genome: &Genome<A>,
    meter: &mut Meter,
    sink: &mut S,
) -> Result<(), WriteFault>
    ensures text { Puts (S.state sink.old) (S.state sink.new) result (records_text genome.now track.now.records) }
    ensures steps { TakesUpTo meter.old meter.new (2 + different_records track.now.records) }
{
    let mut entries = track.entries(0, 0, meter);
    'entries: while let Some((record, copies)) = entries.next(meter) {
        put_copies(genome, &record, copies, sink)?;
    }
    Ok(())
}

/// Puts the row of a record, once for each of its copies.
fn put_copies<A: Allocator + Copy, S: Sink>(
    genome: &Genome<A>,
    feature: &RecordRef<'_>,
    copies: u32,
    sink: &mut S,
) -> Result<(), WriteFault>
    ensures { Puts (S.state sink.old) (S.state sink.new) result (records_text genome.now (replicate copies feature.now)) }
{
    'copies: for _ in 0..copies {
        put_line(sink, genome, &feature)?;
    }
    Ok(())
}
