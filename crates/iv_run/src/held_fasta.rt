//! What is held of a FASTA file while it is read, and then: its bases, or its first fault.
ghost use Rattle.std.specs.Prelude.{◌<◌, ◌+◌, ◌^◌, ◌++◌, ℕ, List, length, IfOk, IfErr};
ghost use Rattle.std.specs.Option.{option_map};
ghost use Rattle.iv_fasta.specs.FastaReading.{Wanted, size_of};
ghost use Rattle.iv_run.specs.declared.exit_reason.FileFault.TheVariants as fault;
ghost use Rattle.iv_run.specs.Files.{ReadsWhole, StopsReading};
ghost use Rattle.iv_run.specs.FastaPieces.{FastaSoFar};
ghost use Rattle.iv_run.specs.RunFiles.{IsFasta};

use crate::exit_reason::FileFault;
use crate::run_files::{TakesPieces, read_pieces};
use iv_bytes::Source;
use iv_fasta::{Fasta, FastaReader};
use iv_lines::{Genome, LoadFault};
use iv_places::HeldColumns;
use std::alloc::Allocator;

/// Takes the next bytes, unless there was a fault before.
fn take_bytes<A: Allocator + Copy>(
    genome: &Genome<A>,
    so_far: Result<FastaReader<A>, LoadFault>,
    piece: &[u8],
) -> Result<FastaReader<A>, LoadFault>
    requires few { IfOk so_far (λ r. size_of r + length piece.now < 2 ^ 64) }
    ensures { (wanted : Wanted) (front : List ℕ) → FastaSoFar wanted genome.now front so_far → FastaSoFar wanted genome.now (front ++ piece.now) result }
{
    let mut reader = so_far?;
    reader.take_piece(genome, piece)?;
    Ok(reader)
}

/// The bases, or the first fault, once all bytes have come.
fn finish_fasta<A: Allocator + Copy>(
    genome: &Genome<A>,
    so_far: Result<FastaReader<A>, LoadFault>,
) -> Result<Fasta<A>, LoadFault>
    requires few { IfOk so_far (λ r. size_of r < 2 ^ 64) }
    ensures { (wanted : Wanted) (text : List ℕ) → FastaSoFar wanted genome.now text so_far → IsFasta wanted genome.now text result }
{
    genome.lemma_of_names();
    let reader = so_far?;
    let fasta = reader.finish(genome)?;
    Ok(fasta)
}

impl<A: Allocator + Copy> TakesPieces<A> for Result<FastaReader<A>, LoadFault> {
    ghost has_taken = { λ wanted genome limit columns front reading. FastaSoFar wanted genome front reading };

    fn take(
        self,
        genome: &Genome<A>,
        _limit: u32,
        _columns: HeldColumns,
        piece: &[u8],
    ) -> Result<Self, FileFault> {
        Ok(take_bytes(genome, self, piece))
    }
}

/// A FASTA file on this genome, read from a source to its end, at most `most` bytes: the bases of those sequences that are wanted, by a
/// list of ranks or without one.
pub(crate) fn read_fasta<A: Allocator + Copy, R: Source>(
    alloc: A,
    genome: &Genome<A>,
    wanted: Option<Vec<bool, A>>,
    source: &mut R,
    most: u64,
) -> Result<Result<Fasta<A>, LoadFault>, FileFault>
    requires { most < 2 ^ 63 }
    ensures ok { IfOk result (λ held. (text : List ℕ) × ReadsWhole (R.state source.old) (R.state source.new) most text × IsFasta (option_map (λ ranks. ranks.items) wanted) genome.now text held) }
    ensures err { IfErr result (λ why. StopsReading (R.state source.old) (R.state source.new) most why) }
{
    let begun: Result<FastaReader<A>, LoadFault> = Ok(FastaReader::new(alloc, wanted));
    let all = read_pieces(begun, genome, 0, HeldColumns::All, source, most)?;
    Ok(finish_fasta(genome, all))
}
