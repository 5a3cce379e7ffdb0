//! What several tests begin with.
ghost use Rattle.std.specs.Prelude.{◌≤◌, All, IfOk, IfSome, length};
ghost use Rattle.iv_lines.specs.Read.{Fits};
ghost use Rattle.iv_lines.specs.Widths.{IsWidth};

use iv_fasta::Fasta;
use iv_lines::Genome;
use iv_text::BedFile;
use iv_workspace::Session;
use std::alloc::Allocator;
use std::test::Fail;

/// A genome of three sequences, of 100 bases, of 50 and of none.
pub(crate) const SIZES: &[u8] = b"chr1\t100\nchr2\t50\nchr3\t0\n";

/// The files of a session, the width of a BED file without a record, and how many records each may have.
#[derive(Clone, Copy)]
pub(crate) struct Files<'a> {
    pub(crate) sizes: &'a [u8],
    pub(crate) first: &'a [u8],
    /// The second file.
    pub(crate) second: Option<&'a [u8]>,
    /// The FASTA file.
    pub(crate) bases: Option<&'a [u8]>,
    pub(crate) width: u8,
    pub(crate) limit: u32,
}

/// A BED file over that genome, with neither a second file nor a FASTA file.
pub(crate) fn alone(first: &[u8], limit: u32) -> Files<'_> {
    Files {
        sizes: SIZES,
        first,
        second: None,
        bases: None,
        width: 3,
        limit,
    }
}

/// The FASTA file, if there is one.
fn fasta_of<A: Allocator + Copy>(
    alloc: A,
    genome: &Genome<A>,
    bases: Option<&[u8]>,
) -> Result<Option<Fasta<A>>, Fail> {
    match bases {
        Some(bases) => {
            let text = bases.to_vec(alloc)?;
            Ok(Some(Fasta::parse(alloc, genome, text)?))
        }
        None => Ok(None),
    }
}

/// The second file, if there is one.
fn second_of<A: Allocator + Copy>(
    alloc: A,
    genome: &Genome<A>,
    width: u8,
    limit: u32,
    text: Option<&[u8]>,
) -> Result<Option<BedFile<A>>, Fail>
    requires { IsWidth width }
    ensures fit { IfOk result (λ second. IfSome second (λ file. All (Fits genome.now file.width) file.records)) }
    ensures few { IfOk result (λ second. IfSome second (λ file. length file.records ≤ limit)) }
{
    let Some(text) = text else {
        return Ok(None);
    };
    Ok(Some(BedFile::parse(alloc, genome, width, limit, text)?))
}

/// A session of files, in memory of the allocator.
pub(crate) fn session_in<A: Allocator + Copy>(
    alloc: A,
    files: &Files<'_>,
) -> Result<Session<A>, Fail> {
    let (width, limit) = (files.width, files.limit);
    if width < 3 || width > 6 || limit > 4_000_000 {
        return Err(Fail::new("no width or limit of a session"));
    }
    let genome = Genome::parse(alloc, files.sizes)?;
    let file = BedFile::parse(alloc, &genome, width, limit, files.first)?;
    let second = second_of(alloc, &genome, width, limit, files.second)?;
    let fasta = fasta_of(alloc, &genome, files.bases)?;
    Ok(Session::new(alloc, genome, file, second, fasta, limit)?)
}

/// A session of files.
pub(crate) fn session_of(rt: &HostRuntime, files: &Files<'_>) -> Result<Session, Fail> {
    session_in(rt.alloc(), files)
}

/// A failed test, unless this is so.
pub(crate) fn holds(is_so: bool) -> Result<(), Fail> {
    if is_so {
        Ok(())
    } else {
        Err(Fail::new("it is not so"))
    }
}

/// A failed test, unless it is found that this is so. What owns a session is slow to prove with each exit that drops it, so a test
/// hands over what it has found.
pub(crate) fn holds_of(found: Result<bool, Fail>) -> Result<(), Fail> {
    holds(found?)
}

/// Texts one after another.
pub(crate) fn joined(rt: &HostRuntime, texts: &[&[u8]]) -> Result<Vec<u8>, Fail> {
    let mut all = Vec::new(rt.alloc());
    for text in texts {
        all.extend_from_slice(text)?;
    }
    Ok(all)
}
