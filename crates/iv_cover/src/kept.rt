//! The contract of the states of kept views.
ghost use Rattle.std.specs.Prelude.{◌≡◌, ℕ, List, All, IfOk, OnOk};
ghost use Rattle.iv_lines.specs.Named.{names_of};
ghost use Rattle.iv_lines.specs.Ordered.{added as with_one};
ghost use Rattle.iv_lines.specs.Read.{Fits};
ghost use Rattle.iv_lines.specs.RecordValue.{RecordValue};
ghost use Rattle.iv_ledger.specs.Steps.{TakesUpTo};
ghost use Rattle.iv_cover.specs.Kept.{IsRightWithout};

use iv_ledger::Meter;
use iv_lines::{Genome, RecordRef};
use iv_track::Track;
use std::alloc::{AllocError, Allocator};

/// The state of a kept view, which is updated at each edit of the track, at little cost.
///
/// The records of the track, and the one that is added or removed, fit the genome throughout. The genome may be
/// another one at each call, as long as its names are those at `build`.
pub trait Kept<A: Allocator + Copy> {
    type Settings;

    /// What the state was built for.
    ghost built_for: { Self → Self.Settings };
    /// Whether the state is right for a genome of these names and for these records, in order.
    ghost is_right: { Self → List (List ℕ) → List RecordValue → Type 0 };
    /// How many steps a repair takes at most, with the record among the records.
    ghost repair_steps: { Self.Settings → List RecordValue → RecordValue → ℕ };

    /// The state for a track as it is.
    fn build(
        alloc: A,
        settings: Self::Settings,
        track: &Track<A>,
        genome: &Genome<A>,
        meter: &mut Meter,
    ) -> Result<Self, AllocError>
        requires fit { All (Fits genome.now track.now.width) track.now.records }
        ensures right { IfOk result (λ s. is_right s (names_of genome.now) track.now.records) }
        ensures built_for { IfOk result (λ s. built_for s ≡ settings) };

    /// Repairs the state after the record was added to the track. After a refusal it must be rebuilt.
    fn added(
        &mut self,
        track: &Track<A>,
        genome: &Genome<A>,
        feature: &RecordRef<'_>,
        meter: &mut Meter,
    ) -> Result<(), AllocError>
        requires right { IsRightWithout (λ s records. is_right s (names_of genome.now) records) self.old track.now.records feature.now }
        requires fit { All (Fits genome.now track.now.width) track.now.records }
        requires fits { Fits genome.now track.now.width feature.now }
        ensures right { OnOk result (is_right self.new (names_of genome.now) track.now.records) }
        ensures built_for { OnOk result (built_for self.new ≡ built_for self.old) }
        ensures steps { TakesUpTo meter.old meter.new (repair_steps (built_for self.old) track.now.records feature.now) };

    /// Repairs the state after one copy of the record was taken out of the track. After a refusal it must be rebuilt.
    fn removed(
        &mut self,
        track: &Track<A>,
        genome: &Genome<A>,
        feature: &RecordRef<'_>,
        meter: &mut Meter,
    ) -> Result<(), AllocError>
        requires right { is_right self.old (names_of genome.now) (with_one track.now.records feature.now) }
        requires fit { All (Fits genome.now track.now.width) track.now.records }
        requires fits { Fits genome.now track.now.width feature.now }
        ensures right { OnOk result (is_right self.new (names_of genome.now) track.now.records) }
        ensures built_for { OnOk result (built_for self.new ≡ built_for self.old) }
        ensures steps { TakesUpTo meter.old meter.new (repair_steps (built_for self.old) (with_one track.now.records feature.now) feature.now) };
}
