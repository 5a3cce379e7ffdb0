//! The open views under their names: opened, printed and closed.
ghost use Rattle.std.specs.Prelude.{◌≡◌, ◌+◌, ◌<◌, ◌++◌, codes, None, Some, All, map, false, not, IsSome, IfSome, IfErr, OnOk, OnErr, MatchOption, MatchResult, Ok, Err};
ghost use Rattle.std.specs.Map.{remove_entry};
ghost use Rattle.std.specs.Option.{is_some};
ghost use Rattle.std.specs.Str.{bytes_eq};
ghost use Rattle.iv_bytes.specs.Sinks.{Puts};
ghost use Rattle.iv_lines.specs.Read.{read};
ghost use Rattle.iv_view.specs.RegionText.{IsWithin};
ghost use Rattle.iv_workspace.specs.OpenViews.{stale_count};
ghost use Rattle.iv_workspace.specs.Prints.{PrintedNamed, PrintedAll, NamedPrintsWithin, AllPrintWithin};
ghost use Rattle.iv_workspace.specs.Views.{all_text, is_view_name as is_name, view_named, RefusesOpen, Opens};

use super::Session;
use crate::fault::PrintFault;
use iv_bytes::{Buffered, Sink, WriteFault, put_pieces};
use iv_ledger::Meter;
use iv_lines::Fault;
use iv_track::Region;
use iv_view::{View, ViewFault};
use std::alloc::Allocator;

/// How many views may be open.
const MOST_VIEWS: usize = 64;

/// Whether the bytes may name a view: 1 to 32 printable bytes, none of them a space.
fn is_view_name(name: &[u8]) -> bool
    ensures { result ≡ is_name name.now }
{
    if name.is_empty() || name.len() > 32 {
        return false;
    }
    for b in name {
        if *b < 33 || *b > 126 {
            return false;
        }
    }
    true
}

/// Puts the line above a view's text, `#NAME`.
fn put_heading<S: Sink>(sink: &mut S, name: &[u8]) -> Result<(), WriteFault>
    ensures { Puts (S.state sink.old) (S.state sink.new) result (codes "#" ++ name.now ++ codes "\n") }
{
    put_pieces(sink, &[b"#", name, b"\n"])
}

/// The answer of a print, once its text was put.
fn answer_of(put: Result<(), WriteFault>) -> Result<(), PrintFault>
    ensures { MatchResult put (λ done. result ≡ Ok done) (λ fault. result ≡ Err PrintFault.Write) }
{
    match put {
        Ok(()) => Ok(()),
        Err(_) => Err(PrintFault::Write),
    }
}

impl<A: Allocator + Copy> Session<A> {
    /// Opens the view that the arguments ask for, the last, which is current. A refusal changes nothing.
    ///
    /// # Errors
    ///
    /// `BadName`, `Taken`, `TooMany` if 64 views are open, then the fault of the arguments, of which `NoSecond` and `NoFasta` come
    /// exactly if they ask for a view that needs a second file or a FASTA file, and there is none; then `NoMemory`.
    pub fn open_view(&mut self, name: &[u8], arguments: &[&[u8]]) -> Result<(), ViewFault>
        ensures ok { OnOk result (Opens self.old name.now (map (λ argument. argument.now) arguments.now) self.new) }
        ensures why { IfErr result (RefusesOpen self.old name.now (map (λ argument. argument.now) arguments.now)) }
        ensures err { OnErr result (self.new ≡ self.old) }
    {
        if !is_view_name(name) {
            return Err(ViewFault::BadName);
        }
        if self.views.contains(name) {
            return Err(ViewFault::Taken);
        }
        if self.views.len() >= MOST_VIEWS {
            return Err(ViewFault::TooMany);
        }
        let has_second = self.second.is_some();
        let has_bases = self.fasta.is_some();
        let view = View::read(
            self.alloc,
            self.track.width(),
            has_second,
            has_bases,
            arguments,
        )?;
        let mut meter = Meter::new();
        let genome = &self.genome;
        self.views
            .open(self.alloc, name, view, &self.track, genome, &mut meter)?;
        self.pack(&mut meter);
        Ok(())
    }

    /// Frees what is held of removed records, if more were removed than there are records. All stays as it is.
    fn pack(&mut self, meter: &mut Meter)
        ensures { self.new ≡ self.old }
    {
        self.track.pack(self.alloc, meter);
        if let Some(second) = &mut self.second {
            second.pack(meter);
        }
    }

    /// Closes the view of this name. The others keep their order, and all else stays as it is.
    ///
    /// # Errors
    ///
    /// `NoView` exactly if no view of this name is open. Nothing changes.
    pub fn close_view(&mut self, name: &[u8]) -> Result<(), Fault>
        ensures there { OnOk result (IsSome (view_named self.old.views name.now)) }
        ensures ok { OnOk result (self.new ≡ record self.old { views = remove_entry (bytes_eq name.now) self.old.views }) }
        ensures why { IfErr result (λ fault. (fault ≡ Fault.NoView) × (view_named self.old.views name.now ≡ None)) }
        ensures err { OnErr result (self.new ≡ self.old) }
    {
        let Some(_) = self.views.find(name) else {
            return Err(Fault::NoView);
        };
        self.views.remove(name);
        Ok(())
    }

    /// Whether a view of this name is open, and needn't be rebuilt before it is printed.
    /// It is for callers outside this repository.
    pub fn is_current(&self, name: &[u8]) -> bool
        ensures { MatchOption (view_named self.now.views name.now) (result ≡ false) (λ v. result ≡ not v.stale) }
    {
        match self.views.find(name) {
            Some(opened) => !opened.stale,
            None => false,
        }
    }

    /// Whether a view of this name is open.
    pub fn is_open(&self, name: &[u8]) -> bool
        ensures { result ≡ is_some (view_named self.now.views name.now) }
    {
        self.views.contains(name)
    }

    /// Prints the view of this name: the text of its definition for the records as they are. A stale view is rebuilt
    /// first, and is then current.
    ///
    /// # Errors
    ///
    /// `NoView` exactly if none is open, and `NoMemory` only for a stale view, which stays stale: then nothing was
    /// written. `Write`, and then a prefix was.
    pub fn print_view<S: Sink>(&mut self, name: &[u8], sink: &mut S) -> Result<(), PrintFault>
        ensures { PrintedNamed None self.old name.now self.new (S.state sink.old) (S.state sink.new) result }
    {
        self.print_view_counted(name, None, &mut Meter::new(), sink)
    }

    /// Prints of the view of this name the rows whose interval shares a position with a region, whole and in their order, byte for byte
    /// as [`Session::print_view`] does. Of a view whose rows come from records these are the rows of such records. A stale view is
    /// rebuilt first, and is then current.
    ///
    /// # Errors
    ///
    /// As [`Session::print_view`].
    pub fn show_view<S: Sink>(
        &mut self,
        name: &[u8],
        region: Region,
        sink: &mut S,
    ) -> Result<(), PrintFault>
        requires { IsWithin self.old.genome region }
        ensures { PrintedNamed (Some region) self.old name.now self.new (S.state sink.old) (S.state sink.new) result }
    {
        self.print_view_counted(name, Some(region), &mut Meter::new(), sink)
    }

    /// Prints the view of this name, all of it or a region, as [`Session::print_view`] and [`Session::show_view`] do, and counts the
    /// steps.
    ///
    /// A view that is current takes no more than its print from what is kept for it: two steps, and one for each block (`merge`,
    /// `complement`) or two for each row of a depth above 0 (`genomecov`); `cluster` four, and one for each record and each block.
    /// `records` takes two, and one for each different record. There is no bound for a stale view, which is built again, or for another
    /// one that is written from the records.
    ///
    /// A region takes a step for each row (`merge`, and three more, or six with `-s`; `complement`, and two more), or one for each record
    /// that starts below its end, and before it by less than twice the greatest length of a record: a written view two more, `genomecov`
    /// five more, and two for each row of a depth above 0, and `cluster` four more, and one for each block up to the region's end.
    ///
    /// # Errors
    ///
    /// As [`Session::print_view`].
    pub fn print_view_counted<S: Sink>(
        &mut self,
        name: &[u8],
        part: Option<Region>,
        meter: &mut Meter,
        sink: &mut S,
    ) -> Result<(), PrintFault>
        requires { IfSome part (IsWithin self.old.genome) }
        ensures printed { PrintedNamed part self.old name.now self.new (S.state sink.old) (S.state sink.new) result }
        ensures steps { NamedPrintsWithin part (view_named self.old.views name.now) self.old.genome self.old.track.records meter.old meter.new }
    {
        let Some(view) = self
            .views
            .refresh(name, self.alloc, &self.track, &self.genome, meter)?
        else {
            return Err(PrintFault::Refused(Fault::NoView));
        };
        let mut buffer = Buffered::new(sink);
        let (second, fasta) = (self.second.as_ref(), self.fasta.as_ref());
        let (track, genome) = (&self.track, &self.genome);
        self.views.put(view, part, track, second, fasta, genome, meter, &mut buffer)?;
        answer_of(buffer.finish())
    }

    /// Prints all views in order of opening, each under a line `#NAME`. Stale views are rebuilt before the first
    /// byte, and are then current.
    ///
    /// # Errors
    ///
    /// `NoMemory` only if a view is stale: then nothing was written, and some stale views may have become current.
    /// `Write`, and then a prefix was written.
    pub fn print_all<S: Sink>(&mut self, sink: &mut S) -> Result<(), PrintFault>
        ensures { PrintedAll None self.old self.new (S.state sink.old) (S.state sink.new) result }
    {
        self.print_all_counted(None, &mut Meter::new(), sink)
    }

    /// Prints of all views the rows that [`Session::show_view`] prints, in order of opening, each under a line `#NAME`. Stale views are
    /// rebuilt before the first byte, and are then current.
    ///
    /// # Errors
    ///
    /// As [`Session::print_all`].
    pub fn show_all<S: Sink>(&mut self, region: Region, sink: &mut S) -> Result<(), PrintFault>
        requires { IsWithin self.old.genome region }
        ensures { PrintedAll (Some region) self.old self.new (S.state sink.old) (S.state sink.new) result }
    {
        self.print_all_counted(Some(region), &mut Meter::new(), sink)
    }

    /// Prints all views, all of each or a region, as [`Session::print_all`] and [`Session::show_all`] do, and counts the steps.
    ///
    /// If no view is stale, each takes no more than its print from what is kept for it, and nothing else takes a step.
    ///
    /// # Errors
    ///
    /// As [`Session::print_all`].
    pub fn print_all_counted<S: Sink>(
        &mut self,
        part: Option<Region>,
        meter: &mut Meter,
        sink: &mut S,
    ) -> Result<(), PrintFault>
        requires { IfSome part (IsWithin self.old.genome) }
        ensures printed { PrintedAll part self.old self.new (S.state sink.old) (S.state sink.new) result }
        ensures steps { stale_count self.old.views ≡ 0 → AllPrintWithin part self.old.views self.old.genome self.old.track.records meter.old meter.new }
    {
        self.views
            .refresh_all(self.alloc, &self.track, &self.genome, meter)?;
        let mut buffer = Buffered::new(sink);
        self.put_views(part, meter, &mut buffer)?;
        answer_of(buffer.finish())
    }

    /// Puts the headings and texts of all views, which are current, all of each or a region.
    fn put_views<S: Sink>(
        &self,
        part: Option<Region>,
        meter: &mut Meter,
        sink: &mut S,
    ) -> Result<(), WriteFault>
        requires fresh { All (λ v. v.1.stale ≡ false) self.now.views }
        requires within { IfSome part (IsWithin self.now.genome) }
        ensures text { Puts (S.state sink.old) (S.state sink.new) result (all_text part self.now) }
        ensures steps { AllPrintWithin part self.now.views self.now.genome self.now.track.records meter.old meter.new }
    {
        for index in 0..self.views.len() {
            let Some((name, opened)) = self.views.at(index) else {
                break;
            };
            put_heading(sink, name)?;
            let (second, fasta) = (self.second.as_ref(), self.fasta.as_ref());
            let (track, genome) = (&self.track, &self.genome);
            self.views.put(opened.view, part, track, second, fasta, genome, meter, sink)?;
        }
        Ok(())
    }
}
