//! The views that a session keeps open.
ghost use Rattle.std.specs.Prelude.{◌≡◌, ◌≤◌, ◌<◌, ◌++◌, ◌∷◌, ◌⊎◌, [], ℕ, List, None, Some, IfSome, IfNone, IsSomeAnd, IfOk, OnOk, OnErr, All, length, false, true};
ghost use Rattle.std.specs.List.{slice_get};
ghost use Rattle.std.specs.Map.{lookup, remove_entry};
ghost use Rattle.std.specs.Option.{is_some, option_map, option_copied, unwrap_or};
ghost use Rattle.std.specs.Str.{bytes_eq};
ghost use Rattle.iv_bytes.specs.Sinks.{Puts};
ghost use Rattle.iv_lines.specs.Named.{names_of};
ghost use Rattle.iv_lines.specs.Read.{Fits};
ghost use Rattle.iv_lines.specs.RecordValue.{RecordValue};
ghost use Rattle.iv_view.specs.RegionText.{IsWithin, view_text};
ghost use Rattle.iv_view.specs.Views.{second_records};
ghost use Rattle.iv_workspace.specs.OpenViews.{Freshens, all_current, stale_count, with_current};
ghost use Rattle.iv_workspace.specs.Prints.{ViewPrintsWithin};
ghost use Rattle.iv_workspace.specs.Inside.States.{IsServed};
ghost use Rattle.iv_workspace.specs.Inside.ViewStates.{AreRight, IsKept, all_owned, all_seen, current_at, seen};
ghost use Rattle.iv_workspace.specs.Views.{view_named};

mod states;

use iv_bytes::{Sink, WriteFault};
use iv_fasta::Fasta;
use iv_ledger::Meter;
use iv_lines::{ContentSeed, Genome, NameMap};
use iv_pair::Second;
use iv_track::{Region, Track};
use iv_view::{KeptState, View};
pub(crate) use states::Change;
use std::alloc::{AllocError, Allocator, Global};
use std::marker::Model;

/// An open view. Its state, if it has one, is its own or that of another open view which needs the same.
#[derive(Drop)]
pub(crate) struct OpenView<A: Allocator + Copy = Global> {
    pub(crate) view: View,
    /// Whether it must be rebuilt before it is printed.
    pub(crate) stale: bool,
    pub(crate) state: Option<KeptState<A>>,
}

/// The open views by name, in order of opening: at most 64.
#[derive(Drop)]
pub(crate) struct Views<A: Allocator + Copy = Global> {
    views: NameMap<OpenView<A>, A>,
}

impl<A: Allocator + Copy> Model for Views<A> {
    ghost use Rattle.std.specs.Prelude.{List, ℕ, ◌≤◌, length};
    ghost use Rattle.iv_workspace.specs.declared.views.OpenView.{OpenView};

    ghost Value = { List (List ℕ × OpenView A) };

    ghost view = { λ v. v.views };

    ghost invariant = { λ v. length v.views ≤ 64 };
}

impl<A: Allocator + Copy> Views<A> {
    pub(crate) fn new(alloc: A) -> Self
        ensures { result ≡ [] }
    {
        Views {
            views: NameMap::new(alloc, ContentSeed::of(b"")),
        }
    }

    pub(crate) fn len(&self) -> usize
        ensures value { result ≡ length self.now }
        ensures bounded { result ≤ 64 }
    {
        self.views.len()
    }

    /// The view of a name.
    pub(crate) fn find(&self, name: &[u8]) -> Option<&OpenView<A>>
        ensures value { option_copied result ≡ lookup (bytes_eq name.now) self.now }
        ensures seen { option_map (λ v. seen v.now) result ≡ view_named (all_seen self.now) name.now }
    {
        match self.views.find(name) {
            Some((_, view)) => Some(view),
            None => None,
        }
    }

    /// Whether a view of this name is open.
    pub(crate) fn contains(&self, name: &[u8]) -> bool
        ensures value { result ≡ is_some (lookup (bytes_eq name.now) self.now) }
        ensures seen { result ≡ is_some (view_named (all_seen self.now) name.now) }
    {
        self.find(name).is_some()
    }

    /// The name and the view at an index in the order of opening.
    pub(crate) fn at(&self, index: usize) -> Option<(&[u8], &OpenView<A>)>
        ensures { option_map (λ p. (p.0.now, p.1.now)) result ≡ slice_get self.now index }
    {
        self.views.at(index)
    }

    /// Opens a view, the last, of a track as it is. Its state is built, unless another view has it. An error changes nothing.
    pub(crate) fn open(
        &mut self,
        alloc: A,
        name: &[u8],
        view: View,
        track: &Track<A>,
        genome: &Genome<A>,
        meter: &mut Meter,
    ) -> Result<(), AllocError>
        requires fresh { lookup (bytes_eq name.now) self.old ≡ None }
        requires room { length self.old < 64 }
        requires right { AreRight self.old (names_of genome.now) track.now.records }
        requires fit { All (Fits genome.now track.now.width) track.now.records }
        ensures right { OnOk result (AreRight self.new (names_of genome.now) track.now.records) }
        ensures ok { OnOk result (all_seen self.new ≡ all_seen self.old ++ (name.now, record { view = view; stale = false }) ∷ []) }
        ensures err { OnErr result (self.new ≡ self.old) }
    {
        let state = self.missing_state(alloc, view, track, genome, meter)?;
        let opened = OpenView {
            view,
            stale: false,
            state,
        };
        self.views.push(alloc, name, opened)
    }

    /// Takes the view of a name out, if there is one. The others keep their order, and a state that they need.
    pub(crate) fn remove(&mut self, name: &[u8])
        ensures seen { all_seen self.new ≡ remove_entry (bytes_eq name.now) (all_seen self.old) }
        ensures right { (names : List (List ℕ)) (records : List RecordValue) → AreRight self.old names records → AreRight self.new names records }
    {
        let Some(closed) = self.views.remove(name) else {
            return;
        };
        let OpenView {
            view,
            stale: _,
            state,
        } = closed;
        self.hand_on(view, state);
    }

    /// The view of a name, if there is one. If it is stale it is rebuilt first, and otherwise no step is taken. An error changes
    /// nothing.
    pub(crate) fn refresh(
        &mut self,
        name: &[u8],
        alloc: A,
        track: &Track<A>,
        genome: &Genome<A>,
        meter: &mut Meter,
    ) -> Result<Option<View>, AllocError>
        requires right { AreRight self.old (names_of genome.now) track.now.records }
        requires fit { All (Fits genome.now track.now.width) track.now.records }
        ensures right { AreRight self.new (names_of genome.now) track.now.records }
        ensures view { IfOk result (λ found. found ≡ option_map (λ v. v.view) (view_named (all_seen self.old) name.now)) }
        ensures ok { OnOk result (all_seen self.new ≡ with_current (all_seen self.old) name.now) }
        ensures none { IfOk result (λ found. IfNone found (self.new ≡ self.old)) }
        ensures err { OnErr result (self.new ≡ self.old) }
        ensures stale { OnErr result (IsSomeAnd (view_named (all_seen self.old) name.now) (λ v. v.stale ≡ true)) }
        ensures steps { (meter.new ≡ meter.old) ⊎ IsSomeAnd (view_named (all_seen self.old) name.now) (λ v. v.stale ≡ true) }
    {
        let Some((index, opened)) = self.views.find(name) else {
            return Ok(None);
        };
        let view = opened.view;
        self.refresh_at(index, alloc, track, genome, meter)?;
        Ok(Some(view))
    }

    /// Rebuilds all stale views. If none is stale no step is taken. At an error those before it were built.
    pub(crate) fn refresh_all(
        &mut self,
        alloc: A,
        track: &Track<A>,
        genome: &Genome<A>,
        meter: &mut Meter,
    ) -> Result<(), AllocError>
        requires right { AreRight self.old (names_of genome.now) track.now.records }
        requires fit { All (Fits genome.now track.now.width) track.now.records }
        ensures right { AreRight self.new (names_of genome.now) track.now.records }
        ensures ok { OnOk result (all_seen self.new ≡ all_current (all_seen self.old)) }
        ensures err { OnErr result (Freshens (all_seen self.old) (all_seen self.new)) }
        ensures stale { OnErr result (0 < stale_count (all_seen self.old)) }
        ensures steps { (meter.new ≡ meter.old) ⊎ (0 < stale_count (all_seen self.old)) }
    {
        for index in 0..self.views.len() {
            self.refresh_at(index, alloc, track, genome, meter)?;
        }
        Ok(())
    }

    /// Rebuilds the view at an index, if it is stale. If another view has its state, nothing is built. No step is taken if it isn't
    /// stale. An error changes nothing.
    fn refresh_at(
        &mut self,
        index: usize,
        alloc: A,
        track: &Track<A>,
        genome: &Genome<A>,
        meter: &mut Meter,
    ) -> Result<(), AllocError>
        requires within { index < length self.old }
        requires right { AreRight self.old (names_of genome.now) track.now.records }
        requires fit { All (Fits genome.now track.now.width) track.now.records }
        ensures right { AreRight self.new (names_of genome.now) track.now.records }
        ensures ok { OnOk result (all_seen self.new ≡ current_at index (all_seen self.old)) }
        ensures err { OnErr result (self.new ≡ self.old) }
        ensures stale { OnErr result (IfSome (slice_get (all_seen self.old) index) (λ v. v.1.stale ≡ true)) }
        ensures steps { (meter.new ≡ meter.old) ⊎ IfSome (slice_get (all_seen self.old) index) (λ v. v.1.stale ≡ true) }
    {
        let opened = &self.views[index];
        if !opened.stale {
            return Ok(());
        }
        let state = self.missing_state(alloc, opened.view, track, genome, meter)?;
        let opened = &mut self.views[index];
        opened.renew(state);
        Ok(())
    }

    /// Puts the text of a view whose state is kept into the sink, or its rows that share a position with a region. On a fault the sink
    /// has taken a prefix. It takes no more steps than its print from what is kept.
    pub(crate) fn put<S: Sink>(
        &self,
        view: View,
        part: Option<Region>,
        track: &Track<A>,
        second: Option<&Second<A>>,
        fasta: Option<&Fasta<A>>,
        genome: &Genome<A>,
        meter: &mut Meter,
        sink: &mut S,
    ) -> Result<(), WriteFault>
        requires kept { IsKept (all_owned self.now) view }
        requires served { IsServed (option_copied second) view }
        requires right { AreRight self.now (names_of genome.now) track.now.records }
        requires fit { All (Fits genome.now track.now.width) track.now.records }
        requires within { IfSome part (IsWithin genome.now) }
        ensures text { Puts (S.state sink.old) (S.state sink.new) result
            (view_text part view genome.now track.now.records (second_records (option_copied second.entry)) (unwrap_or (option_copied fasta.entry) [])) }
        ensures steps { ViewPrintsWithin part view genome.now track.now.records meter.old meter.new }
    {
        match view {
            View::Kept(kept) => {
                let Some(state) = self.state_for(kept.state_key()) else {
                    unreachable!()
                };
                match part {
                    None => kept.print(state, track, genome, meter, sink),
                    Some(at) => kept.print_in(at, state, track, genome, meter, sink),
                }
            }
            View::Written(view) => match part {
                None => view.print(track, second, fasta, genome, meter, sink),
                Some(at) => view.print_in(at, track, second, fasta, genome, meter, sink),
            },
        }
    }
}
