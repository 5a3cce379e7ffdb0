//! A session of a genome and a track, with its open views; and regions of its genome.
ghost use Rattle.std.specs.Prelude.{◌≡◌, ◌+◌, ◌≤◌, ◌<◌, ◌↔◌, None, Some, All, length, IsTrue, IfOk, IfSome, option_map, Ok};
ghost use Rattle.iv_lines.specs.Read.{read, Fits};
ghost use Rattle.iv_track.specs.Tracked.{most_records};
ghost use Rattle.iv_workspace.specs.States.{State, begun, tracked};
ghost use Rattle.iv_lines.specs.Widths.{IsWidth};
ghost use Rattle.iv_view.specs.RegionText.{IsWithin};
ghost use Rattle.iv_workspace.specs.Regions.{region_said};

use crate::views::Views;
use iv_fasta::Fasta;
use iv_lines::{Fault, Genome, RecordFault, RecordRef, read_number, read_record};
use iv_pair::Second;
use iv_places::Places;
use iv_text::BedFile;
use iv_track::{Region, Track};
use std::alloc::{AllocError, Allocator, Global};
use std::marker::Model;

mod edits;
mod lengths;
mod open_views;

pub use edits::{Accepted, Edit, Target};

/// A genome, a track of records on it, a second file and a FASTA file or none, and the open views in order of opening.
///
/// All records of the track and of the second file fit the genome and have the width of theirs, and there are not more of
/// them than the limit. The state of each open view that has one is right for the track's records, and a view that needs a
/// second file is beside one.
#[derive(Drop)]
pub struct Session<A: Allocator + Copy = Global> {
    alloc: A,
    genome: Genome<A>,
    track: Track<A>,
    second: Option<Second<A>>,
    fasta: Option<Fasta<A>>,
    views: Views<A>,
}

impl<A: Allocator + Copy> Model for Session<A> {
    ghost use Rattle.iv_lines.specs.Named.{names_of};
    ghost use Rattle.iv_workspace.specs.Inside.ViewStates.{AreRight, all_seen};
    ghost use Rattle.iv_workspace.specs.States.{State};
    ghost use Rattle.iv_workspace.specs.Inside.States.{IsSession};

    ghost Value = { State };

    ghost view = { λ s. record { genome = s.genome; track = s.track; second = s.second; bases = s.fasta; views = all_seen s.views } };

    ghost invariant = { λ s. IsSession s.genome s.track s.second (all_seen s.views) × AreRight s.views (names_of s.genome) s.track.records };
}

/// The second file of the records of a BED file, if there is one.
fn second_of<A: Allocator + Copy>(
    alloc: A,
    file: Option<Places<A>>,
    limit: u32,
) -> Result<Option<Second<A>>, AllocError>
    requires few { IfSome file (λ f. length f.records ≤ limit) }
    requires bounded { limit ≤ most_records }
    ensures value { IfOk result (λ second. second ≡ option_map (λ f. tracked f limit) file) }
    ensures known { IfSome file (λ f. IsWidth f.width) }
{
    let Some(file) = file else {
        return Ok(None);
    };
    let second = Second::new(alloc, limit, file)?;
    Ok(Some(second))
}

/// A file that may be left out, its records at places.
fn into_places<A: Allocator + Copy>(
    file: Option<BedFile<A>>,
) -> Result<Option<Places<A>>, AllocError>
    ensures { IfOk result (λ places. places ≡ file) }
{
    match file {
        Some(file) => Ok(Some(file.into_places()?)),
        None => Ok(None),
    }
}

impl<A: Allocator + Copy> Session<A> {
    /// A session of the records of a file, and of a second file and a FASTA file or none, with no view open. Equal records all stay.
    pub fn new(
        alloc: A,
        genome: Genome<A>,
        first: BedFile<A>,
        second: Option<BedFile<A>>,
        fasta: Option<Fasta<A>>,
        limit: u32,
    ) -> Result<Session<A>, AllocError>
        requires fit { All (Fits genome first.width) first.records }
        requires few { length first.records ≤ limit }
        requires second_fit { IfSome second (λ file. All (Fits genome file.width) file.records) }
        requires second_few { IfSome second (λ file. length file.records ≤ limit) }
        requires bounded { limit ≤ most_records }
        ensures { IfOk result (λ s. s ≡ begun genome first second fasta limit) }
    {
        let first = first.into_places()?;
        let second = into_places(second)?;
        Session::from_places(alloc, genome, first, second, fasta, limit)
    }

    /// A session of the same, as [`Session::new`] makes it.
    pub fn from_places(
        alloc: A,
        genome: Genome<A>,
        first: Places<A>,
        second: Option<Places<A>>,
        fasta: Option<Fasta<A>>,
        limit: u32,
    ) -> Result<Session<A>, AllocError>
        requires fit { All (Fits genome first.width) first.records }
        requires few { length first.records ≤ limit }
        requires second_fit { IfSome second (λ file. All (Fits genome file.width) file.records) }
        requires second_few { IfSome second (λ file. length file.records ≤ limit) }
        requires bounded { limit ≤ most_records }
        ensures { IfOk result (λ s. s ≡ begun genome first second fasta limit) }
    {
        // After this read the width is known to be one of a record.
        let _width = first.width();
        let track = Track::from_places(alloc, limit, first)?;
        let second = second_of(alloc, second, limit)?;
        Ok(Session {
            alloc,
            genome,
            track,
            second,
            fasta,
            views: Views::new(alloc),
        })
    }

    /// The record that a line means on the session's genome at its width, or its first fault.
    /// It is for callers outside this repository.
    pub fn read<'a>(&self, line: &'a [u8]) -> Result<RecordRef<'a>, RecordFault>
        ensures value { result ≡ read self.now.genome self.now.track.width line.now }
        ensures known { IsWidth self.now.track.width }
        ensures fits { IfOk result (λ r. Fits self.now.genome self.now.track.width r) }
    {
        read_record(&self.genome, self.track.width(), line)
    }

    /// Whether a record is one of the session's width on its genome.
    /// It is for callers outside this repository.
    pub fn fits(&self, feature: &RecordRef<'_>) -> bool
        ensures { IsTrue result ↔ Fits self.now.genome self.now.track.width feature.now }
    {
        feature.fits(&self.genome, self.track.width())
    }

    /// How many records there are, copies counted.
    /// It is for callers outside this repository.
    pub fn len(&self) -> u32
        ensures { result ≡ length self.now.track.records }
    {
        self.track.len()
    }

    /// The track, as it is. Its records fit the session's genome.
    pub fn track(&self) -> &Track<A>
        ensures value { result.now ≡ self.now.track }
        ensures known { IsWidth self.now.track.width }
        ensures fit { All (Fits self.now.genome self.now.track.width) self.now.track.records }
    {
        &self.track
    }

    /// The genome.
    pub fn genome(&self) -> &Genome<A>
        ensures { result.now ≡ self.now.genome }
    {
        &self.genome
    }

    /// How many columns the records of the second file have, `None` exactly if there is none.
    pub fn second_width(&self) -> Option<u8>
        ensures value { result ≡ option_map (λ t. t.width) self.now.second }
        ensures known { IfSome result (λ width. IsWidth width) }
    {
        match &self.second {
            Some(second) => Some(second.width()),
            None => None,
        }
    }
}

impl<A: Allocator + Copy> Session<A> {
    /// The region that the name of a sequence, a start and an end mean: 0-based and half-open, each of 1 to 10 digits.
    ///
    /// # Errors
    ///
    /// `StartNumber`, `StopNumber`, `Order`, `UnknownSeq`, `PastEnd` (E4 to E6, E3, E7): the first of these.
    pub fn region(&self, sequence: &[u8], start: &[u8], stop: &[u8]) -> Result<Region, Fault>
        ensures value { result ≡ region_said self.now.genome sequence.now start.now stop.now }
        ensures within { IfOk result (IsWithin self.now.genome) }
    {
        let start = read_number(start).ok_or(Fault::StartNumber)?;
        let stop = read_number(stop).ok_or(Fault::StopNumber)?;
        if start >= stop {
            return Err(Fault::Order);
        }
        let seq = self.genome.rank(sequence).ok_or(Fault::UnknownSeq)?;
        if stop > self.genome.length_or_zero(seq) {
            return Err(Fault::PastEnd);
        }
        Ok(Region { seq, start, stop })
    }
}
