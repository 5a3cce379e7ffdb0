//! What is kept for views: the blocks of records, or their depth.
ghost use Rattle.std.specs.Prelude.{◌≡◌, ◌↔◌, ◌+◌, ◌*◌, None, Some, All, IsTrue, length};
ghost use Rattle.iv_bytes.specs.Sinks.{Puts};
ghost use Rattle.iv_lines.specs.Named.{names_of};
ghost use Rattle.iv_lines.specs.Read.{Fits};
ghost use Rattle.iv_view.specs.KeptStates.{built_for as what_is_kept, state_key as kept_for, state_key_of, IsRight, PrintsWithin, repair_steps};
ghost use Rattle.iv_lines.specs.Genome.{sequence_length};
ghost use Rattle.iv_track.specs.Regions.{near};
ghost use Rattle.iv_ledger.specs.Steps.{TakesUpTo};
ghost use Rattle.iv_cover.specs.Depth.{depth as depth_of};
ghost use Rattle.iv_depth.specs.Changes.{AreChangesOf};
ghost use Rattle.iv_depth.specs.RegionRows.{covered_runs_in, depth_text_in};
ghost use Rattle.iv_view.specs.RegionText.{IsWithin, PrintsInWithin, kept_text_in};
ghost use Rattle.iv_view.specs.Views.{kept_text};

use crate::view::{KeptView, View};
use iv_blocks::{BlockOptions, Blocks};
use iv_bytes::{Sink, WriteFault};
use iv_cover::Kept;
use iv_depth::{Depth, DepthOutput};
use iv_ledger::Meter;
use iv_lines::{Genome, RecordRef};
use iv_track::{Region, Track};
use std::alloc::{AllocError, Allocator, Global};

/// What is kept for a view. Views of one `StateKey` can share a state.
#[derive(Clone, Copy, Debug, PartialEq, Eq)]
pub enum StateKey {
    /// The blocks of these options.
    Blocks(BlockOptions),
    /// The depth.
    Depth,
}

impl StateKey {
    /// Whether both are the same, so that their views can share a state.
    pub fn is(&self, other: &StateKey) -> bool
        ensures { IsTrue result ↔ self.now ≡ other.now }
    {
        self == other
    }
}

impl KeptView {
    /// What is kept for the view.
    pub fn state_key(self) -> StateKey
        ensures { result ≡ kept_for self }
    {
        match self {
            KeptView::Merge(options) => StateKey::Blocks(options),
            KeptView::Cluster(distance) => StateKey::Blocks(BlockOptions::unstranded(distance)),
            KeptView::Complement { .. } => StateKey::Blocks(BlockOptions::unstranded(0)),
            KeptView::Genomecov(_) => StateKey::Depth,
        }
    }

    /// Prints the view from what is kept for it. It takes no memory; on a fault the sink has taken a prefix of the text.
    ///
    /// It takes at most two steps, and one for each block (`merge`, `complement`) or two for each row of a depth above 0 (`genomecov`).
    /// `cluster`, which goes over all records, takes at most four, and one for each record and each block.
    pub fn print<A: Allocator + Copy, S: Sink>(
        self,
        state: &KeptState<A>,
        track: &Track<A>,
        genome: &Genome<A>,
        meter: &mut Meter,
        sink: &mut S,
    ) -> Result<(), WriteFault>
        requires kept { what_is_kept state.now ≡ kept_for self }
        requires right { IsRight state.now (names_of genome.now) track.now.records }
        requires fit { All (Fits genome.now track.now.width) track.now.records }
        ensures text { Puts (S.state sink.old) (S.state sink.new) result (kept_text self genome.now track.now.records) }
        ensures steps { PrintsWithin self genome.now track.now.records meter.old meter.new }
    {
        match (self, state) {
            (KeptView::Merge(_), KeptState::Blocks(blocks)) => {
                blocks.print_merge(track, genome, meter, sink)
            }
            (KeptView::Cluster(_), KeptState::Blocks(blocks)) => {
                blocks.print_cluster(track, genome, meter, sink)
            }
            (KeptView::Complement { limited }, KeptState::Blocks(blocks)) => {
                blocks.print_complement(limited, track, genome, meter, sink)
            }
            (KeptView::Genomecov(shown), KeptState::Depth(depth)) => {
                depth.print(shown, track, genome, meter, sink)
            }
            _ => unreachable!(),
        }
    }

    /// Prints the rows of the view that share a position with a region from what is kept for it. It takes no memory; on a fault the
    /// sink has taken a prefix of them.
    ///
    /// It takes at most two steps (`complement`) or three for each side (`merge`), and one for each row; at most five, and one for each
    /// record that may share a position with the region and two for each row of a depth above 0 (`genomecov`). `cluster`, which counts its
    /// blocks from the first, takes at most four, and one for each such record and each block up to the region's end.
    pub fn print_in<A: Allocator + Copy, S: Sink>(
        self,
        at: Region,
        state: &KeptState<A>,
        track: &Track<A>,
        genome: &Genome<A>,
        meter: &mut Meter,
        sink: &mut S,
    ) -> Result<(), WriteFault>
        requires kept { what_is_kept state.now ≡ kept_for self }
        requires within { IsWithin genome.now at }
        requires right { IsRight state.now (names_of genome.now) track.now.records }
        requires fit { All (Fits genome.now track.now.width) track.now.records }
        ensures text { Puts (S.state sink.old) (S.state sink.new) result (kept_text_in at self genome.now track.now.records) }
        ensures steps { PrintsInWithin at self genome.now track.now.records meter.old meter.new }
    {
        match (self, state) {
            (KeptView::Merge(_), KeptState::Blocks(blocks)) => {
                blocks.print_merge_in(at, track, genome, meter, sink)
            }
            (KeptView::Cluster(_), KeptState::Blocks(blocks)) => {
                blocks.print_cluster_in(at, track, genome, meter, sink)
            }
            (KeptView::Complement { limited }, KeptState::Blocks(blocks)) => {
                blocks.print_complement_in(limited, at, track, genome, meter, sink)
            }
            (KeptView::Genomecov(shown), KeptState::Depth(depth)) => {
                print_depth_in(shown, at, depth, track, genome, meter, sink)
            }
            _ => unreachable!(),
        }
    }
}

/// Prints the rows of depth of a region.
fn print_depth_in<A: Allocator + Copy, S: Sink>(
    shown: DepthOutput,
    at: Region,
    depth: &Depth<A>,
    track: &Track<A>,
    genome: &Genome<A>,
    meter: &mut Meter,
    sink: &mut S,
) -> Result<(), WriteFault>
    requires within { IsWithin genome.now at }
    requires right { AreChangesOf track.now.records depth.now }
    requires fit { All (Fits genome.now track.now.width) track.now.records }
    ensures text { Puts (S.state sink.old) (S.state sink.new) result (depth_text_in shown genome.now track.now.records at.seq at.start at.stop) }
    ensures steps { TakesUpTo meter.old meter.new (5 + length (near at track.now.records) + 2 * length (covered_runs_in (depth_of track.now.records at.seq) (sequence_length genome.now at.seq) at.start at.stop)) }
{
    let first = track.depth_at(at.seq, at.start, meter);
    depth.print_depth_in(shown, at, first, track, genome, meter, sink)
}

impl View {
    /// What is kept for the view, `None` if it is written from the records.
    pub fn state_key(self) -> Option<StateKey>
        ensures { result ≡ state_key_of self }
    {
        match self {
            View::Kept(view) => Some(view.state_key()),
            View::Written(_) => None,
        }
    }
}

/// The state of a kept view, which is updated at each edit of the track, at little cost. Each kind calls its own.
#[derive(Drop)]
pub enum KeptState<A: Allocator + Copy = Global> {
    Blocks(Blocks<A>),
    Depth(Depth<A>),
}

impl<A: Allocator + Copy> Kept<A> for KeptState<A> {
    type Settings = StateKey;

    ghost built_for = { what_is_kept };

    ghost is_right = { IsRight };

    ghost repair_steps = { repair_steps };

    fn build(
        alloc: A,
        state_key: StateKey,
        track: &Track<A>,
        genome: &Genome<A>,
        meter: &mut Meter,
    ) -> Result<KeptState<A>, AllocError> {
        match state_key {
            StateKey::Blocks(options) => {
                let blocks = Blocks::build(alloc, options, track, genome, meter)?;
                Ok(KeptState::Blocks(blocks))
            }
            StateKey::Depth => {
                let depth = Depth::build(alloc, (), track, genome, meter)?;
                Ok(KeptState::Depth(depth))
            }
        }
    }

    fn added(
        &mut self,
        track: &Track<A>,
        genome: &Genome<A>,
        feature: &RecordRef<'_>,
        meter: &mut Meter,
    ) -> Result<(), AllocError> {
        match self {
            KeptState::Blocks(blocks) => blocks.added(track, genome, feature, meter),
            KeptState::Depth(depth) => depth.added(track, genome, feature, meter),
        }
    }

    fn removed(
        &mut self,
        track: &Track<A>,
        genome: &Genome<A>,
        feature: &RecordRef<'_>,
        meter: &mut Meter,
    ) -> Result<(), AllocError> {
        match self {
            KeptState::Blocks(blocks) => blocks.removed(track, genome, feature, meter),
            KeptState::Depth(depth) => depth.removed(track, genome, feature, meter),
        }
    }
}
