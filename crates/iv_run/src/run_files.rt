//! The files of a run: reading them to their ends, what is held of each, and whether they are sound.
ghost use Rattle.std.specs.Prelude.{◌≡◌, ◌<◌, ◌^◌, [], List, ℕ, None, Some, IfOk, IfErr, OnOk, ◌↔◌, ◌≤◌, ◌+◌, ◌++◌, false, length, Result};
ghost use Rattle.std.specs.Option.{option_copied, option_map};
ghost use Rattle.iv_fasta.specs.FastaReading.{Wanted};
ghost use Rattle.iv_run.specs.Files.{ReadsWhole, StopsReading};
ghost use Rattle.iv_run.specs.Loading.{parsed};
ghost use Rattle.iv_lines.specs.Widths.{IsWidth};
ghost use Rattle.iv_run.specs.RunFiles.{AreAskedFor, HasBegun, IsParsed, Reports, TakesFasta, TakesFirst, TakesSecond, report_by};
ghost use Rattle.iv_run.specs.Inside.FilesReading.{IsOn, damage_after, none_read, with_bases, with_first, with_second, with_sizes};
ghost use Rattle.iv_bytes.specs.Sources.{SourceState};
ghost use Rattle.iv_text.specs.BedReading.{AreSoundLines, size_of};
ghost use Rattle.iv_lines.specs.Genome.{Sequences};
ghost use Rattle.iv_places.specs.declared.places.HeldColumns.{HeldColumns};
ghost use Rattle.iv_run.specs.Inside.Files.{EndsReading, HadMemory, IsPieceFault, IsTooLong};
ghost use Rattle.iv_run.specs.Pieces.{SaysSoFar};
ghost use Rattle.iv_run.specs.declared.exit_reason.FileFault.{FileFault};
ghost use Rattle.iv_run.specs.declared.exit_reason.FileFault.TheVariants as fault;

use crate::exit_reason::{CliFault, FileFault};
use crate::held_fasta::read_fasta;
use iv_args::{Plan, Slot};
use iv_bytes::Source;
use iv_fasta::Fasta;
use iv_lines::{Genome, LoadFault};
use iv_places::{HeldColumns, Places};
use iv_text::BedReader;
use std::alloc::{AllocError, Allocator, Global};
use std::marker::Model;

/// Adds a piece to the bytes, up to this limit in all.
fn take_piece<A: Allocator>(
    bytes: &mut Vec<u8, A>,
    piece: &[u8],
    limit: u64,
) -> Result<(), FileFault>
    requires { length bytes.old.items ≤ limit }
    ensures ok { OnOk result (bytes.new.items ≡ bytes.old.items ++ piece.now) }
    ensures few { OnOk result (length bytes.new.items ≤ limit) }
    ensures err { IfErr result (λ fault. IsPieceFault fault limit (length bytes.old.items + length piece.now)) }
{
    if piece.len() as u64 > limit - bytes.len() as u64 {
        return Err(FileFault::TooLong);
    }
    bytes.extend_from_slice(piece)?;
    Ok(())
}

/// Reads all bytes of a source, at most as many as the limit.
///
/// `TooLong` is reported as soon as more bytes than the limit have come, so before a fault after them.
pub fn read_all<A: Allocator + Copy, R: Source>(
    alloc: A,
    source: &mut R,
    limit: u64,
) -> Result<Vec<u8, A>, FileFault>
    ensures ok { IfOk result (λ bytes. ReadsWhole (R.state source.old) (R.state source.new) limit bytes.items) }
    ensures err { IfErr result (λ fault. StopsReading (R.state source.old) (R.state source.new) limit fault) }
{
    let mut bytes = Vec::new(alloc);
    let mut piece = [0u8; 65536];
    'pieces: loop {
        let n = source.pull(&mut piece)?;
        if n == 0 {
            return Ok(bytes);
        }
        take_piece(&mut bytes, &piece[..n], limit)?;
    }
}

/// A file whose read ended neither by a read fault nor out of memory is reported as too long exactly if it has more bytes than the limit.
pub fn too_long_above_the_limit()
    ensures { (old new : SourceState) (limit : ℕ) (text : List ℕ) (ended : Result (List ℕ) FileFault) → old.remaining ≡ Some text → EndsReading old new limit ended → new.failed ≡ false → HadMemory ended → IsTooLong ended ↔ (limit < length text) }
{}

/// What takes a file in pieces, from its front to its end.
pub trait TakesPieces<A: Allocator + Copy>: Sized + Drop {
    /// These bytes were taken of a file on this genome. Of a BED file, which may have so many records, these columns are held; of a
    /// FASTA file these sequences are wanted.
    ghost has_taken: { Wanted → Sequences → ℕ → HeldColumns → List ℕ → Self → Type 0 };

    /// Takes the next bytes.
    fn take(
        self,
        genome: &Genome<A>,
        limit: u32,
        columns: HeldColumns,
        piece: &[u8],
    ) -> Result<Self, FileFault>
        requires { (wanted : Wanted) × (front : List ℕ) × has_taken wanted genome.now limit columns front self × (length front + length piece.now < 2 ^ 63) }
        ensures ok { IfOk result (λ next. (wanted : Wanted) (front : List ℕ) → has_taken wanted genome.now limit columns front self → has_taken wanted genome.now limit columns (front ++ piece.now) next) }
        ensures err { IfErr result (λ why. why ≡ fault.Memory) };
}

/// What has taken a file on this genome, read from a source to its end, at most `most` bytes. A BED file may have at most `limit`
/// records, of which these columns are held.
///
/// After a fault of the file no more of it is looked at, but it is read to its end.
pub(crate) fn read_pieces<P: TakesPieces<A>, A: Allocator + Copy, R: Source>(
    begun: P,
    genome: &Genome<A>,
    limit: u32,
    columns: HeldColumns,
    source: &mut R,
    most: u64,
) -> Result<P, FileFault>
    requires begun { (wanted : Wanted) × P.has_taken wanted genome.now limit columns [] begun }
    requires most { most < 2 ^ 63 }
    ensures ok { IfOk result (λ all. (text : List ℕ) × ReadsWhole (R.state source.old) (R.state source.new) most text
        × ((wanted : Wanted) → P.has_taken wanted genome.now limit columns [] begun → P.has_taken wanted genome.now limit columns text all)) }
    ensures err { IfErr result (λ why. StopsReading (R.state source.old) (R.state source.new) most why) }
{
    let mut reading = begun;
    let mut piece = [0u8; 262_144];
    let mut count: u64 = 0;
    'pieces: loop {
        let n = source.pull(&mut piece)?;
        if n == 0 {
            return Ok(reading);
        }
        if n as u64 > most - count {
            return Err(FileFault::TooLong);
        }
        count += n as u64;
        reading = reading.take(genome, limit, columns, &piece[..n])?;
    }
}

/// Takes the next bytes, unless there was a fault before.
pub(crate) fn take_next<A: Allocator + Copy>(
    genome: &Genome<A>,
    limit: u32,
    columns: HeldColumns,
    so_far: Result<BedReader<A>, LoadFault>,
    piece: &[u8],
) -> Result<BedReader<A>, LoadFault>
    requires sound { IfOk so_far (λ d. AreSoundLines columns genome.now limit d.read) }
    requires few { IfOk so_far (λ d. size_of d + length piece.now < 2 ^ 64) }
    ensures { (front : List ℕ) → SaysSoFar columns genome.now limit front so_far → SaysSoFar columns genome.now limit (front ++ piece.now) result }
{
    let mut draft = so_far?;
    draft.take_piece(genome, limit, columns, piece)?;
    Ok(draft)
}

/// What is held of a whole file, or its fault, once all bytes have come. Without a record it has the width that is held of the one that
/// is handed in.
pub(crate) fn finish<A: Allocator + Copy>(
    so_far: Result<BedReader<A>, LoadFault>,
    genome: &Genome<A>,
    empty_width: u8,
    limit: u32,
    columns: HeldColumns,
) -> Result<Places<A>, LoadFault>
    requires width { IsWidth empty_width }
    requires sound { IfOk so_far (λ d. AreSoundLines columns genome.now limit d.read) }
    requires few { IfOk so_far (λ d. size_of d < 2 ^ 64) }
    ensures says { (text : List ℕ) → SaysSoFar columns genome.now limit text so_far → IsParsed columns genome.now empty_width limit text result }
    ensures is_on { IsOn genome.now limit result }
{
    let reader = so_far?;
    let places = reader.finish(genome, empty_width, limit, columns)?;
    Ok(places)
}

/// A BED file on this genome, given all its bytes. It may have at most `limit` records.
pub(crate) fn parse_bed<A: Allocator + Copy>(
    alloc: A,
    genome: &Genome<A>,
    empty_width: u8,
    limit: u32,
    columns: HeldColumns,
    text: &[u8],
) -> Result<Places<A>, LoadFault>
    requires { IsWidth empty_width }
    ensures says { IsParsed columns genome.now empty_width limit text.now result }
    ensures is_on { IsOn genome.now limit result }
{
    let said = take_next(genome, limit, columns, Ok(BedReader::new(alloc)), text);
    finish(said, genome, empty_width, limit, columns)
}

impl<A: Allocator + Copy> TakesPieces<A> for Result<BedReader<A>, LoadFault> {
    ghost has_taken = { λ wanted genome limit columns front reading. SaysSoFar columns genome limit front reading };

    fn take(
        self,
        genome: &Genome<A>,
        limit: u32,
        columns: HeldColumns,
        piece: &[u8],
    ) -> Result<Self, FileFault> {
        Ok(take_next(genome, limit, columns, self, piece))
    }
}

/// Of which sequences of a FASTA file the bases have to be held: if it is for rows, those of the ranks at which a list says so, which are
/// those of the records of this first file. Else there is no list, and it is all sequences.
///
/// # Errors
///
/// An allocation failed.
pub(crate) fn wanted_for<A: Allocator + Copy>(
    alloc: A,
    for_rows: bool,
    first: &Places<A>,
) -> Result<Option<Vec<bool, A>>, AllocError>
    ensures { IfOk result (λ wanted. AreAskedFor for_rows first.now (option_map (λ ranks. ranks.items) wanted)) }
{
    if !for_rows {
        return Ok(None);
    }
    Ok(Some(first.ranks(alloc)?))
}

/// The bytes of the files of a run, apart from the FASTA file.
#[derive(Clone, Copy, Debug)]
pub struct Inputs<'a> {
    /// The genome file.
    pub sizes: &'a [u8],
    /// The first file.
    pub first: &'a [u8],
    /// The second file, if the plan names one.
    pub other: Option<&'a [u8]>,
}

/// The files of a run, once all are read and none is damaged: what is held of each.
///
/// A file that can't be read is reported before a damaged one, so every file is read to its end first.
#[derive(Drop)]
pub struct RunFiles<A: Allocator + Copy = Global> {
    pub alloc: A,
    pub genome: Genome<A>,
    pub first: Places<A>,
    pub second: Option<Places<A>>,
    pub fasta: Option<Fasta<A>>,
    pub limit: u32,
}

impl<A: Allocator + Copy> Model for RunFiles<A> {
    ghost use Rattle.std.specs.Prelude.{IfSome};
    ghost use Rattle.iv_run.specs.Loading.{Parsed};
    ghost use Rattle.iv_run.specs.Inside.FilesReading.{AreOn};

    ghost Value = { Parsed };

    ghost view = { λ f. record { genome = f.genome; first = f.first; second = f.second; bases = f.fasta; limit = f.limit } };

    ghost invariant = { λ f. AreOn f.genome f.limit f.first × IfSome f.second (AreOn f.genome f.limit) };
}

impl<A: Allocator + Copy> RunFiles<A> {
    /// The files of a run, given their bytes, or the fault of the first damaged one. These columns of BED files are held.
    pub fn of_inputs(
        alloc: A,
        plan: &Plan<'_, A>,
        inputs: &Inputs<'_>,
        fasta_text: Option<Vec<u8, A>>,
        limit: u32,
        columns: HeldColumns,
    ) -> Result<Self, CliFault>
        ensures says { Reports columns None result
            (parsed plan.now.width inputs.now.sizes.now inputs.now.first.now (option_copied inputs.now.other) (option_map (λ text. text.items) fasta_text) limit) }
        ensures limit { IfOk result (λ files. files.limit ≡ limit) }
    {
        let mut reader = FilesReader::of_sizes(alloc, plan, inputs.sizes, limit, columns);
        reader.parse_first(inputs.first);
        reader.parse_second(inputs.other);
        reader.parse_fasta(fasta_text);
        reader.finish()
    }
}

/// The files of a run while they are read, in the order of their slots: what is held of each, and the report of the first damaged one.
///
/// Each is read to its end, since a file that can't be read is reported before a damaged one. After a damaged genome file the others are
/// checked against an empty genome.
#[derive(Drop)]
pub struct FilesReader<A: Allocator + Copy = Global> {
    files: RunFiles<A>,
    damage: Option<CliFault>,
    empty_width: u8,
    columns: HeldColumns,
}

impl<A: Allocator + Copy> Model for FilesReader<A> {
    ghost use Rattle.iv_run.specs.RunFiles.{FilesRead};
    ghost use Rattle.iv_lines.specs.Widths.{IsWidth};

    ghost Value = { FilesRead };

    ghost view = { λ reader. record { files = reader.files; damage = reader.damage; width = reader.empty_width; columns = reader.columns } };

    ghost invariant = { λ reader. IsWidth reader.empty_width };
}

impl<A: Allocator + Copy> FilesReader<A> {
    /// Begins with the genome file, which is read from a source to its end, at most `most` bytes. A BED file of the run without a record
    /// has the width that the plan gives, and each may have as many records as the plan says, of which these columns are held.
    ///
    /// # Errors
    ///
    /// A fault of the source, or an allocation failed. That the file is damaged is no error here.
    pub fn begin<R: Source>(
        alloc: A,
        plan: &Plan<'_, A>,
        columns: HeldColumns,
        source: &mut R,
        most: u64,
    ) -> Result<Self, FileFault>
        ensures ok { IfOk result (λ reader. (text : List ℕ) × ReadsWhole (R.state source.old) (R.state source.new) most text × HasBegun plan.now.width plan.now.limit columns text reader) }
        ensures err { IfErr result (λ fault. StopsReading (R.state source.old) (R.state source.new) most fault) }
    {
        let sizes = read_all(alloc, source, most)?;
        Ok(FilesReader::of_sizes(alloc, plan, sizes.as_slice(), plan.limit(), columns))
    }

    /// Begins with the bytes of a genome file. A BED file of the run may have at most `limit` records.
    fn of_sizes(
        alloc: A,
        plan: &Plan<'_, A>,
        sizes: &[u8],
        limit: u32,
        columns: HeldColumns,
    ) -> Self
        ensures { HasBegun plan.now.width limit columns sizes.now result }
    {
        let mut reader = FilesReader::empty(alloc, plan.width(), limit, columns);
        reader.take_sizes(Genome::parse(alloc, sizes));
        reader
    }

    /// No file is read yet.
    fn empty(alloc: A, empty_width: u8, limit: u32, columns: HeldColumns) -> Self
        requires { IsWidth empty_width }
        ensures { result ≡ none_read empty_width limit columns }
    {
        let mut first = Places::empty(alloc);
        first.set_width(columns.width(empty_width));
        FilesReader {
            files: RunFiles {
                alloc,
                genome: Genome::empty(alloc),
                first,
                second: None,
                fasta: None,
                limit,
            },
            damage: None,
            empty_width,
            columns,
        }
    }

    /// Notes that the file of this slot is damaged, unless one before it is.
    fn note(&mut self, slot: Slot, fault: LoadFault)
        ensures { self.new ≡ record self.old { damage = damage_after slot (Some fault) self.old.damage } }
    {
        if self.damage.is_some() {
            return;
        }
        self.damage = Some(CliFault::from((slot, fault)));
    }

    /// Takes the genome file, as far as it is sound. No other file is read yet.
    fn take_sizes(&mut self, held: Result<Genome<A>, LoadFault>)
        requires first { self.old.files.first.records ≡ [] }
        requires second { self.old.files.second ≡ None }
        ensures { self.new ≡ with_sizes held self.old }
    {
        match held {
            Ok(genome) => self.files.genome = genome,
            Err(fault) => self.note(Slot::Sizes, fault),
        }
    }

    /// Takes the first file, as far as it is sound.
    fn take_first(&mut self, held: Result<Places<A>, LoadFault>)
        requires { IsOn self.old.files.genome self.old.files.limit held }
        ensures { self.new ≡ with_first held self.old }
    {
        match held {
            Ok(places) => self.files.first = places,
            Err(fault) => self.note(Slot::First, fault),
        }
    }

    /// Takes the second file, as far as it is sound.
    fn take_second(&mut self, held: Result<Places<A>, LoadFault>)
        requires { IsOn self.old.files.genome self.old.files.limit held }
        ensures { self.new ≡ with_second held self.old }
    {
        match held {
            Ok(places) => self.files.second = Some(places),
            Err(fault) => self.note(Slot::Other, fault),
        }
    }

    /// Takes the FASTA file, as far as it is sound.
    fn take_fasta(&mut self, held: Result<Fasta<A>, LoadFault>)
        ensures { self.new ≡ with_bases held self.old }
    {
        match held {
            Ok(fasta) => self.files.fasta = Some(fasta),
            Err(fault) => self.note(Slot::Bases, fault),
        }
    }

    /// Takes the bytes of the first file.
    pub(crate) fn parse_first(&mut self, text: &[u8])
        ensures { TakesFirst text.now self.old self.new }
    {
        let held = self.parse_bed(text);
        self.take_first(held);
    }

    /// Takes the bytes of the second file, if there is one.
    pub(crate) fn parse_second(&mut self, text: Option<&[u8]>)
        ensures { TakesSecond (option_copied text.entry) self.old self.new }
    {
        let Some(text) = text else {
            return;
        };
        let held = self.parse_bed(text);
        self.take_second(held);
    }

    /// Takes the bytes of the FASTA file, if there is one: all its bases are held.
    pub(crate) fn parse_fasta(&mut self, text: Option<Vec<u8, A>>)
        ensures { TakesFasta None (option_map (λ bytes. bytes.items) text) self.old self.new }
    {
        let Some(text) = text else {
            return;
        };
        let held = Fasta::parse(self.files.alloc, &self.files.genome, text);
        self.take_fasta(held);
    }

    /// A BED file, given all its bytes, or its fault.
    fn parse_bed(&self, text: &[u8]) -> Result<Places<A>, LoadFault>
        ensures says { IsParsed self.now.columns self.now.files.genome self.now.width self.now.files.limit text.now result }
        ensures is_on { IsOn self.now.files.genome self.now.files.limit result }
    {
        parse_bed(
            self.files.alloc,
            &self.files.genome,
            self.empty_width,
            self.files.limit,
            self.columns,
            text,
        )
    }

    /// Reads the first file from a source to its end, at most `most` bytes.
    ///
    /// # Errors
    ///
    /// A fault of the source, or an allocation failed. That the file is damaged is no error here.
    pub fn read_first<R: Source>(&mut self, source: &mut R, most: u64) -> Result<(), FileFault>
        requires { most < 2 ^ 63 }
        ensures ok { OnOk result ((text : List ℕ) × ReadsWhole (R.state source.old) (R.state source.new) most text × TakesFirst text self.old self.new) }
        ensures err { IfErr result (λ fault. StopsReading (R.state source.old) (R.state source.new) most fault) }
    {
        let held = self.read_bed(source, most)?;
        self.take_first(held);
        Ok(())
    }

    /// Reads the second file, as [`FilesReader::read_first`] does the first.
    ///
    /// # Errors
    ///
    /// As there.
    pub fn read_second<R: Source>(&mut self, source: &mut R, most: u64) -> Result<(), FileFault>
        requires { most < 2 ^ 63 }
        ensures ok { OnOk result ((text : List ℕ) × ReadsWhole (R.state source.old) (R.state source.new) most text × TakesSecond (Some text) self.old self.new) }
        ensures err { IfErr result (λ fault. StopsReading (R.state source.old) (R.state source.new) most fault) }
    {
        let held = self.read_bed(source, most)?;
        self.take_second(held);
        Ok(())
    }

    /// Reads the FASTA file from a source to its end, at most `most` bytes: all its bases are held, or if `for_rows` those of sequences
    /// that a record of the first file is on.
    ///
    /// # Errors
    ///
    /// As of [`FilesReader::read_first`].
    pub fn read_fasta<R: Source>(
        &mut self,
        for_rows: bool,
        source: &mut R,
        most: u64,
    ) -> Result<(), FileFault>
        requires { most < 2 ^ 63 }
        ensures ok { OnOk result ((wanted : Wanted) × (text : List ℕ) × AreAskedFor for_rows self.old.files.first wanted × ReadsWhole (R.state source.old) (R.state source.new) most text × TakesFasta wanted (Some text) self.old self.new) }
        ensures err { IfErr result (λ fault. StopsReading (R.state source.old) (R.state source.new) most fault) }
    {
        let wanted = wanted_for(self.files.alloc, for_rows, &self.files.first)?;
        let held = read_fasta(self.files.alloc, &self.files.genome, wanted, source, most)?;
        self.take_fasta(held);
        Ok(())
    }

    /// A BED file, read from a source to its end, or its fault.
    fn read_bed<R: Source>(
        &self,
        source: &mut R,
        most: u64,
    ) -> Result<Result<Places<A>, LoadFault>, FileFault>
        requires { most < 2 ^ 63 }
        ensures ok { IfOk result (λ held. (text : List ℕ) × ReadsWhole (R.state source.old) (R.state source.new) most text × IsParsed self.now.columns self.now.files.genome self.now.width self.now.files.limit text held) }
        ensures is_on { IfOk result (IsOn self.now.files.genome self.now.files.limit) }
        ensures err { IfErr result (λ fault. StopsReading (R.state source.old) (R.state source.new) most fault) }
    {
        let (genome, limit, columns) = (&self.files.genome, self.files.limit, self.columns);
        let begun: Result<BedReader<A>, LoadFault> = Ok(BedReader::new(self.files.alloc));
        let all = read_pieces(begun, genome, limit, columns, source, most)?;
        Ok(finish(all, genome, self.empty_width, limit, columns))
    }

    /// The files that were read, or the report of the first damaged one.
    pub fn finish(self) -> Result<RunFiles<A>, CliFault>
        ensures { result ≡ report_by self.files self.damage }
    {
        match self.damage {
            None => Ok(self.files),
            Some(fault) => Err(fault),
        }
    }
}
