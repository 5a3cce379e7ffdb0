//! Changes of depth: the state of a kept view.
ghost use Rattle.std.specs.Prelude.{◌≡◌, ◌<◌, ◌≤◌, ◌+◌, ◌*◌, All, length};
ghost use Rattle.iv_bytes.specs.Sinks.{Puts};
ghost use Rattle.iv_lines.specs.Genome.{sequence_length};
ghost use Rattle.iv_lines.specs.Read.{Fits};
ghost use Rattle.iv_cover.specs.Depth.{depth};
ghost use Rattle.iv_ledger.specs.Steps.{TakesUpTo};
ghost use Rattle.iv_depth.specs.Changes.{AreChangesOf};
ghost use Rattle.iv_depth.specs.DepthRows.{all_covered_runs, depth_text};
ghost use Rattle.iv_depth.specs.RegionRows.{covered_runs_in, depth_text_in};

use crate::changes::{Changes, add_record, push_changes, remove_record};
use crate::depth_rows::{DepthOutput, put_genome};
use crate::edges::SequenceEdges;
use crate::region::{length_of, put_region};
use iv_bytes::{Sink, WriteFault};
use iv_cover::Kept;
use iv_ledger::{LedgerBuilder, Meter, Natural};
use iv_lines::{Genome, RecordRef};
use iv_track::{Region, Track};
use std::alloc::{AllocError, Allocator, Global};
use std::marker::Model;

/// The net changes of depth at each position where some record starts or stops.
///
/// A change of 0 is left out. It is one ledger, and knows no length of a sequence.
#[derive(Drop)]
pub struct Depth<A: Allocator + Copy = Global> {
    changes: Changes<A>,
}

impl<A: Allocator + Copy> Model for Depth<A> {
    ghost use Rattle.iv_depth.specs.Changes.{Entries};

    ghost Value = { Entries };

    ghost view = { λ d. d.changes };
}

impl<A: Allocator + Copy> Kept<A> for Depth<A> {
    type Settings = ();

    ghost built_for = { λ _. tt };

    ghost is_right = { λ entries _ records. AreChangesOf records entries };

    ghost repair_steps = { λ _ _ _. 8 };

    /// One entry for each position where the depth changes. It allocates only the ledger, and while it is built 8 bytes for each
    /// record, of which those of the records of one sequence are used: where they start and where they stop.
    fn build(
        alloc: A,
        _settings: (),
        track: &Track<A>,
        genome: &Genome<A>,
        meter: &mut Meter,
    ) -> Result<Depth<A>, AllocError> {
        let count = track.len() as usize;
        let records = track.walk(0, 0, meter);
        let mut sequences = SequenceEdges::of(alloc, records, count)?;
        let mut built = LedgerBuilder::new(alloc)?;
        for seq in 0..genome.count() {
            sequences.gather(seq, meter);
            push_changes(&mut built, seq, sequences.edges())?;
        }
        Ok(Depth {
            changes: built.finish(Natural)?,
        })
    }

    fn added(
        &mut self,
        track: &Track<A>,
        _genome: &Genome<A>,
        feature: &RecordRef<'_>,
        meter: &mut Meter,
    ) -> Result<(), AllocError> {
        // A track holds so few records that no change leaves 64 bits.
        let _few = track.len();
        add_record(&mut self.changes, feature, meter)
    }

    fn removed(
        &mut self,
        track: &Track<A>,
        _genome: &Genome<A>,
        feature: &RecordRef<'_>,
        meter: &mut Meter,
    ) -> Result<(), AllocError> {
        let _few = track.len();
        remove_record(&mut self.changes, feature, meter)
    }
}

impl<A: Allocator + Copy> Depth<A> {
    /// Prints the rows in one walk over the changes: at most 2 steps, and 2 more for each row of a depth above 0. It takes no
    /// memory. On a fault the sink has taken a prefix of the rows.
    pub fn print<S: Sink>(
        &self,
        output: DepthOutput,
        track: &Track<A>,
        genome: &Genome<A>,
        meter: &mut Meter,
        sink: &mut S,
    ) -> Result<(), WriteFault>
        requires right { AreChangesOf track.now.records self.now }
        requires fit { All (Fits genome.now track.now.width) track.now.records }
        ensures text { Puts (S.state sink.old) (S.state sink.new) result (depth_text output genome.now track.now.records) }
        ensures steps { TakesUpTo meter.old meter.new (2 + 2 * length (all_covered_runs genome.now track.now.records)) }
    {
        // A track holds so few records that no depth leaves 64 bits.
        let _few = track.len();
        put_genome(output, &self.changes, genome, meter, sink)
    }

    /// Prints the rows whose interval shares a position with the region, whole and in their order: at most 3 steps, and 2 more for
    /// each of these rows of a depth above 0. `at` is the depth of the region's first position. It takes no memory.
    pub fn print_depth_in<S: Sink>(
        &self,
        output: DepthOutput,
        region: Region,
        at: u64,
        track: &Track<A>,
        genome: &Genome<A>,
        meter: &mut Meter,
        sink: &mut S,
    ) -> Result<(), WriteFault>
        requires right { AreChangesOf track.now.records self.now }
        requires fit { All (Fits genome.now track.now.width) track.now.records }
        requires some { region.start < region.stop }
        requires within { region.stop ≤ sequence_length genome.now region.seq }
        requires at { at ≡ depth track.now.records region.seq region.start }
        ensures text { Puts (S.state sink.old) (S.state sink.new) result (depth_text_in output genome.now track.now.records region.seq region.start region.stop) }
        ensures steps { TakesUpTo meter.old meter.new (3 + 2 * length (covered_runs_in (depth track.now.records region.seq) (sequence_length genome.now region.seq) region.start region.stop)) }
    {
        // A track holds so few records that a depth fits, and so does a position of a sequence.
        let _few = track.len();
        let _length = length_of(genome, region.seq);
        put_region(
            output,
            &self.changes,
            genome,
            region.seq,
            region.start as u32,
            region.stop as u32,
            at as i64,
            meter,
            sink,
        )
    }
}
