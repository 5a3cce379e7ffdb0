//! The files of sessions, and sessions of them.
ghost use Rattle.std.specs.Prelude.{◌≤◌, All, IfSome, length};
ghost use Rattle.iv_lines.specs.Read.{Fits};
ghost use Rattle.iv_lines.specs.Widths.{IsWidth};

use iv_fasta::Fasta;
use iv_lines::Genome;
use iv_text::BedFile;
use iv_workspace::Session;
use std::alloc::{Allocator, Global};
use test_faults::RefusesNth;

/// An allocator that may refuse an allocation.
pub(crate) type Refusing<'a> = &'a RefusesNth<Global>;

/// A session in memory of such an allocator.
pub(crate) type Refused<'a> = Session<Refusing<'a>>;

/// The files of a session, the width of a BED file without a record, and how many records each may have.
#[derive(Clone, Copy)]
pub(crate) struct Files<'t> {
    pub(crate) sizes: &'t [u8],
    pub(crate) first: &'t [u8],
    pub(crate) second: Option<&'t [u8]>,
    pub(crate) bases: Option<&'t [u8]>,
    pub(crate) width: u8,
    pub(crate) limit: u32,
}

/// The second file, if there is one; `None` if it has a fault or an allocation fails.
fn second_of<A: Allocator + Copy>(
    alloc: A,
    genome: &Genome<A>,
    width: u8,
    limit: u32,
    text: Option<&[u8]>,
) -> Option<Option<BedFile<A>>>
    requires { IsWidth width }
    ensures fit { IfSome result (λ second. IfSome second (λ file. All (Fits genome.now file.width) file.records)) }
    ensures few { IfSome result (λ second. IfSome second (λ file. length file.records ≤ limit)) }
{
    let Some(text) = text else {
        return Some(None);
    };
    match BedFile::parse(alloc, genome, width, limit, text) {
        Ok(file) => Some(Some(file)),
        Err(_) => None,
    }
}

/// The FASTA file, if there is one; `None` if it has a fault or an allocation fails.
fn bases_of<A: Allocator + Copy>(
    alloc: A,
    genome: &Genome<A>,
    text: Option<&[u8]>,
) -> Option<Option<Fasta<A>>> {
    let Some(text) = text else {
        return Some(None);
    };
    let text = text.to_vec(alloc).ok()?;
    match Fasta::parse(alloc, genome, text) {
        Ok(fasta) => Some(Some(fasta)),
        Err(_) => None,
    }
}

/// The session of files; `None` if one has a fault or an allocation fails.
pub(crate) fn session_of<A: Allocator + Copy>(alloc: A, files: Files<'_>) -> Option<Session<A>> {
    let (width, limit) = (files.width, files.limit);
    if limit > 4_000_000 || width < 3 || width > 6 {
        return None;
    }
    let genome = Genome::parse(alloc, files.sizes).ok()?;
    let Ok(first) = BedFile::parse(alloc, &genome, width, limit, files.first) else {
        return None;
    };
    let second = second_of(alloc, &genome, width, limit, files.second)?;
    let fasta = bases_of(alloc, &genome, files.bases)?;
    Session::new(alloc, genome, first, second, fasta, limit).ok()
}
