//! Files that are opened by their names, and reading those of a plan.
ghost use Rattle.std.specs.Prelude.{◌≡◌, ◌++◌, List, ℕ, Option, Some, IfOk, IfErr, OnOk, OnErr, true};
ghost use Rattle.std.specs.List.{flat_map};
ghost use Rattle.iv_fasta.specs.FastaReading.{Wanted};
ghost use Rattle.iv_run.specs.RunFiles.{AreAskedFor, HasBegun, TakesFasta, TakesFirst, TakesSecond};
ghost use Rattle.iv_program.specs.Files.{FileEvent, FilesState, opened, after_opening, after_closing, after_one, after_reading, once};
ghost use Rattle.iv_program.specs.Inside.Files.{ReadsNamed, StopsAt, StopsFile, names_of};
ghost use Rattle.iv_program.specs.Inside.Runs.{HasFiles};
ghost use Rattle.iv_program.specs.Texts.{Texts, AreTexts};

use iv_args::{Plan, Slot};
use iv_bytes::{ReadFault, Source};
use iv_places::HeldColumns;
use iv_run::{CliFault, FileFault, FilesReader, RunFiles};
use std::alloc::Allocator;

/// How many bytes a file may have.
const MOST_FILE_BYTES: u64 = 4_294_967_295;

/// Files that a program opens by their names, one after another.
pub trait InputFiles {
    /// A file that is open.
    type File: Source + Drop;

    /// The bytes of the file of each name and what happened to files so far, if those are known, and whether a file could not be opened
    /// or read.
    ghost state: { Self → FilesState };

    /// Opens the file of this name at its front.
    fn open(&mut self, name: &[u8]) -> Result<Self::File, ReadFault>
        ensures file { IfOk result (λ file. Self.File.state file ≡ opened (state self.old) name.now) }
        ensures ok { OnOk result (state self.new ≡ after_opening name.now (state self.old)) }
        ensures err { OnErr result (state self.new ≡ after_one true name.now (state self.old)) };

    /// Takes back a file that is no longer needed. If it failed, that is remembered.
    fn close(&mut self, file: Self::File)
        ensures { state self.new ≡ after_closing (Self.File.state file).failed (state self.old) };
}

/// Which file of a plan was not read to its end, and why.
pub(crate) type SlotFault = (Slot, FileFault);

/// What a file was read as, or why it was not read, with its slot.
fn in_slot<T: Drop>(slot: Slot, read: Result<T, FileFault>) -> Result<T, SlotFault>
    ensures ok { IfOk result (λ value. read ≡ Ok value) }
    ensures err { IfErr result (λ why. (why.0 ≡ slot) × (read ≡ Err why.1)) }
{
    match read {
        Ok(value) => Ok(value),
        Err(fault) => Err((slot, fault)),
    }
}

/// Reads the genome file of a plan, and begins with it.
fn read_sizes<A: Allocator + Copy, F: InputFiles>(
    alloc: A,
    files: &mut F,
    name: &[u8],
    plan: &Plan<'_, A>,
    columns: HeldColumns,
) -> Result<FilesReader<A>, FileFault>
    ensures ok { IfOk result (λ reader. (text : List ℕ) × ReadsNamed (F.state files.old) (Some name.now) (Some text) (F.state files.new) × HasBegun plan.now.width plan.now.limit columns text reader) }
    ensures err { IfErr result (λ fault. StopsFile (F.state files.old) name.now fault (F.state files.new)) }
{
    let mut file = files.open(name)?;
    let read = FilesReader::begin(alloc, plan, columns, &mut file, MOST_FILE_BYTES);
    files.close(file);
    read
}

/// Reads the first file of a plan.
fn read_first<A: Allocator + Copy, F: InputFiles>(
    files: &mut F,
    name: &[u8],
    reader: &mut FilesReader<A>,
) -> Result<(), FileFault>
    ensures ok { OnOk result ((text : List ℕ) × ReadsNamed (F.state files.old) (Some name.now) (Some text) (F.state files.new) × TakesFirst text reader.old reader.new) }
    ensures err { IfErr result (λ fault. StopsFile (F.state files.old) name.now fault (F.state files.new)) }
{
    let mut file = files.open(name)?;
    let read = reader.read_first(&mut file, MOST_FILE_BYTES);
    files.close(file);
    read
}

/// Reads the second file of a plan.
fn read_second<A: Allocator + Copy, F: InputFiles>(
    files: &mut F,
    name: &[u8],
    reader: &mut FilesReader<A>,
) -> Result<(), FileFault>
    ensures ok { OnOk result ((text : List ℕ) × ReadsNamed (F.state files.old) (Some name.now) (Some text) (F.state files.new) × TakesSecond (Some text) reader.old reader.new) }
    ensures err { IfErr result (λ fault. StopsFile (F.state files.old) name.now fault (F.state files.new)) }
{
    let mut file = files.open(name)?;
    let read = reader.read_second(&mut file, MOST_FILE_BYTES);
    files.close(file);
    read
}

/// Reads the FASTA file of a plan.
fn read_fasta<A: Allocator + Copy, F: InputFiles>(
    files: &mut F,
    name: &[u8],
    for_rows: bool,
    reader: &mut FilesReader<A>,
) -> Result<(), FileFault>
    ensures ok { OnOk result ((wanted : Wanted) × (text : List ℕ) × AreAskedFor for_rows reader.old.files.first wanted × ReadsNamed (F.state files.old) (Some name.now) (Some text) (F.state files.new) × TakesFasta wanted (Some text) reader.old reader.new) }
    ensures err { IfErr result (λ fault. StopsFile (F.state files.old) name.now fault (F.state files.new)) }
{
    let mut file = files.open(name)?;
    let read = reader.read_fasta(for_rows, &mut file, MOST_FILE_BYTES);
    files.close(file);
    read
}

/// Reads the second file of a plan, if it names one.
fn read_second_if_named<A: Allocator + Copy, F: InputFiles>(
    files: &mut F,
    plan: &Plan<'_, A>,
    reader: &mut FilesReader<A>,
) -> Result<(), SlotFault>
    ensures ok { OnOk result ((text : Option (List ℕ)) × ReadsNamed (F.state files.old) plan.now.other text (F.state files.new) × TakesSecond text reader.old reader.new) }
    ensures err { IfErr result (λ why. (why.0 ≡ Slot.Other)
        × ((name : List ℕ) × (plan.now.other ≡ Some name) × StopsFile (F.state files.old) name why.1 (F.state files.new))) }
{
    match plan.file(Slot::Other) {
        Some(name) => in_slot(Slot::Other, read_second(files, name, reader)),
        None => Ok(()),
    }
}

/// Reads the FASTA file of a plan, if it names one.
fn read_fasta_if_named<A: Allocator + Copy, F: InputFiles>(
    files: &mut F,
    plan: &Plan<'_, A>,
    for_rows: bool,
    reader: &mut FilesReader<A>,
) -> Result<(), SlotFault>
    ensures ok { OnOk result ((wanted : Wanted) × (text : Option (List ℕ)) × AreAskedFor for_rows reader.old.files.first wanted × ReadsNamed (F.state files.old) plan.now.bases text (F.state files.new) × TakesFasta wanted text reader.old reader.new) }
    ensures err { IfErr result (λ why. (why.0 ≡ Slot.Bases)
        × ((name : List ℕ) × (plan.now.bases ≡ Some name) × StopsFile (F.state files.old) name why.1 (F.state files.new))) }
{
    match plan.file(Slot::Bases) {
        Some(name) => in_slot(Slot::Bases, read_fasta(files, name, for_rows, reader)),
        None => Ok(()),
    }
}

/// Reads all files of a plan, in the order of their slots: these columns of BED files, and of the FASTA file all bases, or if `for_rows`
/// those of sequences that a record of the first file is on. Then it says whether one is damaged.
pub(crate) fn read_files<A: Allocator + Copy, F: InputFiles>(
    alloc: A,
    files: &mut F,
    plan: &Plan<'_, A>,
    columns: HeldColumns,
    for_rows: bool,
) -> Result<Result<RunFiles<A>, CliFault>, SlotFault>
    ensures ok { IfOk result (λ read. (texts : Texts) × AreTexts (F.state files.old) plan.now texts × HasFiles columns for_rows plan.now texts read) }
    ensures limit { IfOk result (λ read. IfOk read (λ f. f.limit ≡ plan.now.limit)) }
    ensures after { OnOk result (F.state files.new ≡ after_reading (names_of plan.now) (F.state files.old)) }
    ensures err { IfErr result (λ why. StopsAt plan.now (F.state files.old) (F.state files.new) why.0 why.1) }
{
    let begun = read_sizes(alloc, files, plan.sizes_file(), plan, columns);
    let mut reader = in_slot(Slot::Sizes, begun)?;
    in_slot(
        Slot::First,
        read_first(files, plan.first_file(), &mut reader),
    )?;
    read_second_if_named(files, plan, &mut reader)?;
    read_fasta_if_named(files, plan, for_rows, &mut reader)?;
    Ok(reader.finish())
}

/// What happened to files, if that is known: to read those of some names is to open each once, in this order, and to close it before the
/// next is opened.
pub fn each_is_opened_once()
    ensures { (names : List (List ℕ)) (files : FilesState) (events : List FileEvent) → files.events ≡ Some events → (after_reading names files).events ≡ Some (events ++ flat_map once names) }
{}
