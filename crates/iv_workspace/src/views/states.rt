//! The states of open views: which view has one, its repair after an edit, and how many views are stale.
ghost use Rattle.std.specs.Prelude.{◌≡◌, ◌≢◌, ◌↔◌, ◌<◌, ◌∷◌, ℕ, List, None, Some, IfSome, IfOk, OnOk, MatchOption, All, length, IsTrue, true, false};
ghost use Rattle.std.specs.List.{slice_get};
ghost use Rattle.iv_lines.specs.Named.{names_of};
ghost use Rattle.iv_lines.specs.Read.{Fits};
ghost use Rattle.iv_lines.specs.RecordValue.{RecordValue};
ghost use Rattle.iv_ledger.specs.Steps.{TakesUpTo};
ghost use Rattle.iv_view.specs.KeptStates.{built_for, state_key_of, IsRight, repair_steps};
ghost use Rattle.iv_workspace.specs.OpenViews.{Stales, all_steps, stale_count};
ghost use Rattle.iv_workspace.specs.Inside.ViewStates.{AreMarked, AreOwnRight, AreRepaired, AreRight, HaveStates, IsKept, IsMissing, IsOwned, IsOwnRight, IsRepaired, NoneNeeds, WasRight, all_owned, all_seen, kept_with, owned, with_edited};

use super::{OpenView, Views};
use iv_cover::Kept;
use iv_ledger::Meter;
use iv_lines::{Genome, RecordRef};
use iv_track::Track;
use iv_view::{KeptState, StateKey, View};
use std::alloc::{AllocError, Allocator};

/// What an edit did to the records of a track.
#[derive(Clone, Copy)]
pub(crate) enum Change {
    /// A copy of a record was added.
    Added,
    /// A copy of a record was taken out.
    Removed,
}

impl<A: Allocator + Copy> OpenView<A> {
    /// Whether this is what is kept of the view.
    fn is_kept_as(&self, what: StateKey) -> bool
        ensures { IsTrue result ↔ state_key_of self.now.view ≡ Some what }
    {
        match self.view.state_key() {
            Some(kept) => kept.is(&what),
            None => false,
        }
    }

    /// Whether the view is current, and this is what is kept of it.
    fn needs(&self, what: StateKey) -> bool
        ensures { IsTrue result ↔ ((self.now.stale ≡ false) × (state_key_of self.now.view ≡ Some what)) }
    {
        !self.stale && self.is_kept_as(what)
    }

    /// The view's own state, if it has one and it is kept for this.
    fn state_for(&self, what: StateKey) -> Option<&KeptState<A>>
        ensures some { IfSome result (λ k. (self.now.state ≡ Some k.now) × (state_key_of self.now.view ≡ Some what)) }
        ensures none { result ≡ None → owned self.now ≢ Some what }
    {
        if self.is_kept_as(what) {
            self.state.as_ref()
        } else {
            None
        }
    }

    /// Makes the view current, with a state of its own or none.
    pub(super) fn renew(&mut self, state: Option<KeptState<A>>)
        ensures { self.new ≡ record { view = self.old.view; stale = false; state = state } }
    {
        self.stale = false;
        self.state = state;
    }

    /// Takes over a state.
    fn take_over(&mut self, state: KeptState<A>)
        ensures { self.new ≡ record self.old { state = Some state } }
    {
        self.state = Some(state);
    }

    /// Repairs the view's own state, if it has one, after an edit of the track.
    ///
    /// `false` if an allocation failed: the state is lost, and the view is stale.
    fn repair(
        &mut self,
        change: Change,
        track: &Track<A>,
        genome: &Genome<A>,
        feature: &RecordRef<'_>,
        meter: &mut Meter,
    ) -> bool
        requires right { WasRight change (λ v records. IsOwnRight v (names_of genome.now) records) self.old track.now.records feature.now }
        requires fit { All (Fits genome.now track.now.width) track.now.records }
        requires fits { Fits genome.now track.now.width feature.now }
        ensures { IsRepaired (names_of genome.now) track.now.records (with_edited change track.now.records feature.now) feature.now result self.old self.new meter.old meter.new }
    {
        let Some(mut state) = self.state.take() else {
            return true;
        };
        if repair_state(&mut state, change, track, genome, feature, meter).is_err() {
            self.stale = true;
            return false;
        }
        self.state = Some(state);
        true
    }
}

/// Repairs a state after an edit of the track. After a refusal it must be rebuilt.
fn repair_state<A: Allocator + Copy>(
    state: &mut KeptState<A>,
    change: Change,
    track: &Track<A>,
    genome: &Genome<A>,
    feature: &RecordRef<'_>,
    meter: &mut Meter,
) -> Result<(), AllocError>
    requires right { WasRight change (λ s records. IsRight s (names_of genome.now) records) state.old track.now.records feature.now }
    requires fit { All (Fits genome.now track.now.width) track.now.records }
    requires fits { Fits genome.now track.now.width feature.now }
    ensures right { OnOk result (IsRight state.new (names_of genome.now) track.now.records) }
    ensures built_for { OnOk result (built_for state.new ≡ built_for state.old) }
    ensures steps { TakesUpTo meter.old meter.new (repair_steps (built_for state.old) (with_edited change track.now.records feature.now) feature.now) }
{
    match change {
        Change::Added => state.added(track, genome, feature, meter),
        Change::Removed => state.removed(track, genome, feature, meter),
    }
}

impl<A: Allocator + Copy> Views<A> {
    /// The state that is kept for this, if a view has one.
    pub(super) fn state_for(&self, what: StateKey) -> Option<&KeptState<A>>
        ensures right { IfSome result (λ k. (names : List (List ℕ)) (records : List RecordValue) → AreOwnRight self.now names records → (built_for k.now ≡ what) × IsRight k.now names records) }
        ensures owned { IfSome result (λ k. IsOwned what (all_owned self.now)) }
        ensures none { result ≡ None → IsOwned what (all_owned self.now) → ⊥ }
    {
        for index in 0..self.views.len() {
            if let Some(state) = self.views[index].state_for(what) {
                return Some(state);
            }
        }
        None
    }

    /// Whether nothing is kept of a view, or a view has the state.
    fn is_kept(&self, view: View) -> bool
        ensures { IsTrue result ↔ IsKept (all_owned self.now) view }
    {
        match view.state_key() {
            Some(what) => self.state_for(what).is_some(),
            None => true,
        }
    }

    /// The state that a view needs and that is not kept yet, for a track as it is.
    pub(super) fn missing_state(
        &self,
        alloc: A,
        view: View,
        track: &Track<A>,
        genome: &Genome<A>,
        meter: &mut Meter,
    ) -> Result<Option<KeptState<A>>, AllocError>
        requires { All (Fits genome.now track.now.width) track.now.records }
        ensures { IfOk result (λ state. IsMissing (all_owned self.now) view (names_of genome.now) track.now.records state) }
    {
        let Some(what) = view.state_key() else {
            return Ok(None);
        };
        if self.state_for(what).is_some() {
            return Ok(None);
        }
        let state = KeptState::build(alloc, what, track, genome, meter)?;
        Ok(Some(state))
    }

    /// Hands the state of a closed view on, if it had one, to the first open one that needs it.
    pub(super) fn hand_on(&mut self, closed: View, state: Option<KeptState<A>>)
        ensures seen { all_seen self.new ≡ all_seen self.old }
        ensures right { (names : List (List ℕ)) (records : List RecordValue) → AreOwnRight self.old names records
            → HaveStates (kept_with closed state ∷ all_owned self.old) (all_seen self.old)
            → IfSome state (λ k. (state_key_of closed ≡ Some (built_for k)) × IsRight k names records) → AreRight self.new names records }
    {
        let Some(state) = state else {
            return;
        };
        let Some(what) = closed.state_key() else {
            return;
        };
        let Some(index) = self.first_in_need(what) else {
            return;
        };
        let opened = &mut self.views[index];
        opened.take_over(state);
    }

    /// Where the first view is that is current and of which this is kept.
    fn first_in_need(&self, what: StateKey) -> Option<usize>
        ensures { MatchOption result
            (NoneNeeds what (all_seen self.now))
            (λ index. IfSome (slice_get self.now index) (λ v. (v.1.stale ≡ false) × (state_key_of v.1.view ≡ Some what)) × (index < length self.now)) }
    {
        for index in 0..self.views.len() {
            if self.views[index].needs(what) {
                return Some(index);
            }
        }
        None
    }

    /// Repairs the states after an edit of the track: a copy of the record was added or taken out. If an allocation fails, the
    /// views that need the state become stale.
    pub(crate) fn repair(
        &mut self,
        change: Change,
        track: &Track<A>,
        genome: &Genome<A>,
        feature: &RecordRef<'_>,
        meter: &mut Meter,
    )
        requires right { WasRight change (λ views records. AreRight views (names_of genome.now) records) self.old track.now.records feature.now }
        requires fit { All (Fits genome.now track.now.width) track.now.records }
        requires fits { Fits genome.now track.now.width feature.now }
        ensures right { AreRight self.new (names_of genome.now) track.now.records }
        ensures stales { Stales (all_seen self.old) (all_seen self.new) }
        ensures steps { TakesUpTo meter.old meter.new (all_steps (all_seen self.old) (with_edited change track.now.records feature.now) feature.now) }
    {
        if !self.repair_each(change, track, genome, feature, meter) {
            self.mark_stale();
        }
    }

    /// Repairs each view's own state after an edit of the track. Whether none was lost.
    fn repair_each(
        &mut self,
        change: Change,
        track: &Track<A>,
        genome: &Genome<A>,
        feature: &RecordRef<'_>,
        meter: &mut Meter,
    ) -> bool
        requires right { WasRight change (λ views records. AreOwnRight views (names_of genome.now) records) self.old track.now.records feature.now }
        requires fit { All (Fits genome.now track.now.width) track.now.records }
        requires fits { Fits genome.now track.now.width feature.now }
        ensures { AreRepaired (names_of genome.now) track.now.records (with_edited change track.now.records feature.now) feature.now result self.old self.new meter.old meter.new }
    {
        let mut kept = true;
        for index in 0..self.views.len() {
            let view = &mut self.views[index];
            kept &= view.repair(change, track, genome, feature, meter);
        }
        kept
    }

    /// Makes each view stale whose state no view has any more.
    fn mark_stale(&mut self)
        ensures { AreMarked self.old self.new }
    {
        for index in 0..self.views.len() {
            let kept = self.is_kept(self.views[index].view);
            let opened = &mut self.views[index];
            opened.stale |= !kept;
        }
    }

    /// How many views are stale.
    pub(crate) fn stale(&self) -> u32
        ensures { result ≡ stale_count (all_seen self.now) }
    {
        let mut count = 0;
        for index in 0..self.views.len() {
            if self.views[index].stale {
                count += 1;
            }
        }
        count
    }
}
