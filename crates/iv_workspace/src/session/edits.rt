//! Edits of the two tracks of a session: of its own, and of the second file.
ghost use Rattle.std.specs.Prelude.{◌≡◌, ◌≤◌, ◌↔◌, None, Some, false, IsTrue, IfOk, IfErr, IfSome, OnOk, OnErr, Ok, Err};
ghost use Rattle.iv_lines.specs.Chains.{if_ok};
ghost use Rattle.iv_lines.specs.Named.{names_of};
ghost use Rattle.iv_lines.specs.Read.{Fits};
ghost use Rattle.iv_ledger.specs.Steps.{TakesUpTo};
ghost use Rattle.iv_workspace.specs.Edits.{Allows, EditFits, FitsIn, IsDone, IsEdited, RefusesEdit, RefusesIn, edited, most_steps, read_second, width_of};
ghost use Rattle.iv_workspace.specs.OpenViews.{stale_count};
ghost use Rattle.iv_workspace.specs.States.{FitsSecond};
ghost use Rattle.iv_workspace.specs.Inside.States.{IsTrackOn, over};
ghost use Rattle.iv_workspace.specs.Inside.ViewStates.{AreRight, all_seen};
ghost use Rattle.iv_lines.specs.Widths.{IsWidth};

use super::Session;
use crate::fault::SecondFault;
use crate::views::{Change, Views};
use iv_ledger::Meter;
use iv_lines::{Fault, Genome, RecordRef, read_record};
use iv_pair::Second;
use iv_track::{EditFault, Track};
use std::alloc::Allocator;

/// Which of the two tracks an edit is for: the session's own, or the second file.
#[derive(Clone, Copy, Debug, PartialEq, Eq)]
pub enum Target {
    /// The session's own track.
    First,
    /// The records of the second file.
    Second,
}

/// An edit of a track.
#[derive(Drop)]
pub enum Edit<'a> {
    /// To add a record.
    Add(RecordRef<'a>),
    /// To take a copy of a record out.
    Remove(RecordRef<'a>),
    /// To take a copy of the first record out, and to add the second.
    Replace(RecordRef<'a>, RecordRef<'a>),
}

/// An edit that was done: how many steps it took in the track and the views, and how many open views are stale after it.
#[derive(Clone, Copy, Debug, PartialEq, Eq)]
pub struct Accepted {
    pub steps: u64,
    pub stale: u32,
}

impl Accepted {
    /// The answer of an edit that was done: the reading of its meter, and how many of the views are stale.
    fn of<A: Allocator + Copy>(meter: &Meter, views: &Views<A>) -> Accepted
        ensures { result ≡ record { steps = meter.now; stale = stale_count (all_seen views.now) } }
    {
        Accepted {
            steps: meter.steps(),
            stale: views.stale(),
        }
    }
}

impl<A: Allocator + Copy> Session<A> {
    /// What the records of an edit are read with: the genome, and how many columns records of its track have, 3 to 6.
    ///
    /// # Errors
    ///
    /// `NoSecond` exactly if the track is the second file and there is none.
    pub fn genome_and_width(&self, target: Target) -> Result<(&Genome<A>, u8), Fault>
        ensures width { if_ok result (λ it. Ok it.1) ≡ width_of self.now target }
        ensures genome { IfOk result (λ it. it.0.now ≡ self.now.genome) }
        ensures known { IfOk result (λ it. IsWidth it.1) }
    {
        let width = match target {
            Target::First => self.track.width(),
            Target::Second => self.second_width().ok_or(Fault::NoSecond)?,
        };
        Ok((&self.genome, width))
    }

    /// Does an edit to one of the two tracks, as [`Session::add`] and the like say.
    ///
    /// # Errors
    ///
    /// Those of the call for this edit. A refusal changes nothing.
    pub fn edit(&mut self, target: Target, edit: &Edit<'_>) -> Result<Accepted, EditFault>
        requires { EditFits (FitsIn self.old target) edit.now }
        ensures ok { IfOk result (IsDone target edit.now self.old self.new) }
        ensures why { IfErr result (RefusesIn target edit.now self.old) }
        ensures err { OnErr result (self.new ≡ self.old) }
    {
        let mut meter = Meter::new();
        match target {
            Target::First => {
                edit_track(
                    &mut self.track,
                    &mut self.views,
                    &self.genome,
                    edit,
                    &mut meter,
                )?;
                Ok(Accepted::of(&meter, &self.views))
            }
            Target::Second => {
                let Some(second) = &mut self.second else {
                    unreachable!()
                };
                edit_second(second, edit, &mut meter)?;
                Ok(Accepted::of(&meter, &self.views))
            }
        }
    }

    /// Adds a record, and then repairs each view. A view whose repair runs out of memory becomes stale.
    ///
    /// `Full` comes exactly if the track holds its limit, and `NoMemory` only for a record that is not there yet. A refusal changes nothing.
    pub fn add(&mut self, feature: &RecordRef<'_>) -> Result<Accepted, EditFault>
        requires { Fits self.old.genome self.old.track.width feature.now }
        ensures ok { IfOk result (IsDone Target.First (Edit.Add feature.now) self.old self.new) }
        ensures why { IfErr result (RefusesIn Target.First (Edit.Add feature.now) self.old) }
        ensures err { OnErr result (self.new ≡ self.old) }
    {
        self.edit(Target::First, &Edit::Add(feature.again()))
    }

    /// Takes one copy of a record out, and then repairs each view. A view whose repair runs out of memory becomes stale.
    ///
    /// `Absent` comes exactly if there is no copy, and no other fault does: it takes no memory. A refusal changes nothing.
    pub fn remove(&mut self, feature: &RecordRef<'_>) -> Result<Accepted, EditFault>
        requires { Fits self.old.genome self.old.track.width feature.now }
        ensures ok { IfOk result (IsDone Target.First (Edit.Remove feature.now) self.old self.new) }
        ensures why { IfErr result (RefusesIn Target.First (Edit.Remove feature.now) self.old) }
        ensures err { OnErr result (self.new ≡ self.old) }
    {
        self.edit(Target::First, &Edit::Remove(feature.again()))
    }

    /// Adds the new record, in a full track too, and repairs each view; then takes one copy of the old record out, and
    /// repairs each view again. A view whose repair runs out of memory becomes stale.
    ///
    /// `Absent` comes exactly if there is no copy of the old record, and `NoMemory` only for a new record that is not there yet. A record
    /// that is there can be replaced by itself. A refusal changes nothing.
    pub fn replace(
        &mut self,
        old: &RecordRef<'_>,
        new: &RecordRef<'_>,
    ) -> Result<Accepted, EditFault>
        requires old { Fits self.old.genome self.old.track.width old.now }
        requires new { Fits self.old.genome self.old.track.width new.now }
        ensures ok { IfOk result (IsDone Target.First (Edit.Replace old.now new.now) self.old self.new) }
        ensures why { IfErr result (RefusesIn Target.First (Edit.Replace old.now new.now) self.old) }
        ensures err { OnErr result (self.new ≡ self.old) }
    {
        let edit = Edit::Replace(old.again(), new.again());
        self.edit(Target::First, &edit)
    }

    /// The record that a line means on the session's genome at the second file's width.
    /// It is for callers outside this repository.
    ///
    /// # Errors
    ///
    /// `NoSecond` exactly if there is no second file, or else the line's first fault.
    pub fn read_second<'a>(&self, line: &'a [u8]) -> Result<RecordRef<'a>, SecondFault>
        ensures value { result ≡ read_second self.now line.now }
        ensures known { IfSome self.now.second (λ t. IsWidth t.width) }
        ensures fits { IfOk result (FitsSecond self.now) }
    {
        let Some(width) = self.second_width() else {
            return Err(SecondFault::NoSecond);
        };
        read_record(&self.genome, width, line)
    }

    /// Whether there is a second file, and a record is one of its width on the session's genome.
    /// It is for callers outside this repository.
    pub fn fits_second(&self, feature: &RecordRef<'_>) -> bool
        ensures { IsTrue result ↔ FitsSecond self.now feature.now }
    {
        match self.second_width() {
            Some(width) => feature.fits(&self.genome, width),
            None => false,
        }
    }

    /// Adds a record to the second file, which exists. No view has a state of it, so none becomes stale. At most 16 steps.
    ///
    /// `Full` comes exactly if the second file holds its limit, and `NoMemory` only for a record that is not there yet. A refusal changes
    /// nothing.
    pub fn add_second(&mut self, feature: &RecordRef<'_>) -> Result<Accepted, EditFault>
        requires { FitsSecond self.old feature.now }
        ensures ok { IfOk result (IsDone Target.Second (Edit.Add feature.now) self.old self.new) }
        ensures why { IfErr result (RefusesIn Target.Second (Edit.Add feature.now) self.old) }
        ensures err { OnErr result (self.new ≡ self.old) }
    {
        self.edit(Target::Second, &Edit::Add(feature.again()))
    }

    /// Takes one copy of a record out of the second file, which exists. No view becomes stale. At most 16 steps.
    ///
    /// `Absent` comes exactly if there is no copy, and no other fault does: it takes no memory. A refusal changes nothing.
    pub fn remove_second(&mut self, feature: &RecordRef<'_>) -> Result<Accepted, EditFault>
        requires { FitsSecond self.old feature.now }
        ensures ok { IfOk result (IsDone Target.Second (Edit.Remove feature.now) self.old self.new) }
        ensures why { IfErr result (RefusesIn Target.Second (Edit.Remove feature.now) self.old) }
        ensures err { OnErr result (self.new ≡ self.old) }
    {
        self.edit(Target::Second, &Edit::Remove(feature.again()))
    }

    /// Takes one copy of the old record out of the second file, which exists, and adds the new one, even if it is full. No view
    /// becomes stale. At most 16 steps.
    ///
    /// `Absent` comes exactly if there is no copy of the old record, and `NoMemory` only for a new record that is not there yet. A record
    /// that is there can be replaced by itself. A refusal changes nothing.
    pub fn replace_second(
        &mut self,
        old: &RecordRef<'_>,
        new: &RecordRef<'_>,
    ) -> Result<Accepted, EditFault>
        requires old { FitsSecond self.old old.now }
        requires new { FitsSecond self.old new.now }
        ensures ok { IfOk result (IsDone Target.Second (Edit.Replace old.now new.now) self.old self.new) }
        ensures why { IfErr result (RefusesIn Target.Second (Edit.Replace old.now new.now) self.old) }
        ensures err { OnErr result (self.new ≡ self.old) }
    {
        let edit = Edit::Replace(old.again(), new.again());
        self.edit(Target::Second, &edit)
    }
}

/// Does an edit of a session's own track, and repairs the views after each record that is added or taken out.
fn edit_track<A: Allocator + Copy>(
    track: &mut Track<A>,
    views: &mut Views<A>,
    genome: &Genome<A>,
    edit: &Edit<'_>,
    meter: &mut Meter,
) -> Result<(), EditFault>
    requires on { IsTrackOn genome.now track.old }
    requires right { AreRight views.old (names_of genome.now) track.old.records }
    requires fits { EditFits (Fits genome.now track.old.width) edit.now }
    ensures ok { OnOk result (IsEdited Target.First edit.now (over track.old (all_seen views.old)) (over track.new (all_seen views.new))) }
    ensures why { IfErr result (RefusesEdit edit.now track.old) }
    ensures err { OnErr result ((track.new ≡ track.old) × (views.new ≡ views.old)) }
    ensures right { AreRight views.new (names_of genome.now) track.new.records }
    ensures steps { TakesUpTo meter.old meter.new (most_steps Target.First edit.now (over track.old (all_seen views.old))) }
{
    match edit {
        Edit::Add(feature) => {
            track.add(feature, meter)?;
            views.repair(Change::Added, track, genome, feature, meter);
            Ok(())
        }
        Edit::Remove(feature) => {
            track.remove(feature, meter)?;
            views.repair(Change::Removed, track, genome, feature, meter);
            Ok(())
        }
        Edit::Replace(old, new) => {
            if track.copies(old, meter) == 0 {
                return Err(EditFault::Absent);
            }
            track.stage(new, meter)?;
            views.repair(Change::Added, track, genome, new, meter);
            let Ok(()) = track.remove(old, meter) else {
                unreachable!()
            };
            views.repair(Change::Removed, track, genome, old, meter);
            Ok(())
        }
    }
}

/// Does an edit of a second file. At most 16 steps.
fn edit_second<A: Allocator + Copy>(
    second: &mut Second<A>,
    edit: &Edit<'_>,
    meter: &mut Meter,
) -> Result<(), EditFault>
    requires low { 3 ≤ second.old.width }
    requires fits { EditFits (λ r. r.width ≡ second.old.width) edit.now }
    ensures there { OnOk result (Allows edit.now second.old) }
    ensures ok { OnOk result (second.new ≡ edited edit.now second.old) }
    ensures why { IfErr result (RefusesEdit edit.now second.old) }
    ensures err { OnErr result (second.new ≡ second.old) }
    ensures steps { TakesUpTo meter.old meter.new 16 }
{
    match edit {
        Edit::Add(feature) => second.add(feature, meter),
        Edit::Remove(feature) => second.remove(feature, meter),
        Edit::Replace(old, new) => second.replace(old, new, meter),
    }
}
