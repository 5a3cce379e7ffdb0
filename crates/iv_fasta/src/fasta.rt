//! The bases of sequences.
ghost use Rattle.std.specs.Prelude.{None, slice_get, ◌≡◌, ◌⊎◌, Ok, Err, IfOk, IfErr, All, length, slice_range};
ghost use Rattle.std.specs.Option.{is_some, option_map, option_copied, unwrap_or};
ghost use Rattle.iv_lines.specs.declared.fault.LoadCause.TheVariants as cause;
ghost use Rattle.iv_fasta.specs.Inside.BaseRanges.{placed, IsPlacedWithin};
ghost use Rattle.iv_fasta.specs.Fasta.{fasta_of, bases_of, HasLengthsOf};

use crate::fasta_reader::FastaReader;
use crate::held_sequences::BaseRange;
use iv_lines::{Genome, LoadFault};
use std::alloc::{Allocator, Global};
use std::marker::Model;

/// The bases of those sequences of a genome that a FASTA file has, by rank.
///
/// They lie in one vector. Its model is a list with an entry for each sequence of the genome, which holds its bases, each as
/// its byte in the file, or nothing if the file lacks the sequence.
#[derive(Drop)]
pub struct Fasta<A: Allocator = Global> {
    ranges: Vec<Option<BaseRange>, A>,
    bases: Vec<u8, A>,
}

impl<A: Allocator> Model for Fasta<A> {
    ghost use Rattle.std.specs.Prelude.{All, length};
    ghost use Rattle.iv_fasta.specs.Fasta.{Bases};
    ghost use Rattle.iv_fasta.specs.Inside.BaseRanges.{placed, IsPlacedWithin};

    ghost Value = { Bases };

    ghost view = { λ f. placed f.ranges.items f.bases.items };

    ghost invariant = { λ f. All (IsPlacedWithin (length f.bases.items)) f.ranges.items };
}

/// The range at this rank, if there is one.
fn range_in<A: Allocator>(ranges: &Vec<Option<BaseRange>, A>, seq: u32) -> Option<BaseRange>
    ensures { result ≡ unwrap_or (slice_get ranges.now.items seq) None }
{
    *ranges.get(seq as usize)?
}

impl<A: Allocator + Copy> Fasta<A> {
    /// The bases of a FASTA file, or the file's first fault.
    ///
    /// A header is a line that begins with `>`. Its name ends before the first space or TAB, or at the end of the line, and
    /// is once, whether or not the genome has it. The lines after it are its bases, joined: bytes from 33 to 126. Empty
    /// lines are skipped. Sequences that the genome doesn't name are read and left out. One that it names has the genome's
    /// length: that is looked at in a file without another fault, sequence by sequence, and the line of such a fault is the
    /// header's. After a fault nothing was made.
    ///
    /// The text is taken. While it is read, its bases take memory of their own; a `FastaReader` takes a file piece by piece.
    pub fn parse(alloc: A, genome: &Genome<A>, text: Vec<u8, A>) -> Result<Fasta<A>, LoadFault>
        ensures ok { IfOk result (λ f. fasta_of genome.now text.items ≡ Ok f) }
        ensures lengths { IfOk result (λ f. HasLengthsOf genome.now f) }
        ensures err { IfErr result (λ f. (f ≡ record { line = 0; cause = cause.Memory }) ⊎ (fasta_of genome.now text.items ≡ Err f)) }
    {
        genome.lemma_of_names();
        let mut reader = FastaReader::new(alloc, None);
        reader.take_piece(genome, text.as_slice())?;
        let fasta = reader.finish(genome)?;
        Ok(fasta)
    }

    /// The bases in these ranges.
    pub(crate) fn of(ranges: Vec<Option<BaseRange>, A>, bases: Vec<u8, A>) -> Self
        requires { All (IsPlacedWithin (length bases.items)) ranges.items }
        ensures { result ≡ placed ranges.items bases.items }
    {
        Fasta { ranges, bases }
    }

    /// Whether it has the sequence of this rank.
    /// It is for callers outside this repository.
    pub fn covers(&self, seq: u32) -> bool
        ensures { result ≡ is_some (bases_of self.now seq) }
    {
        range_in(&self.ranges, seq).is_some()
    }

    /// How many bases the sequence of this rank has, if the file has it.
    pub fn length(&self, seq: u32) -> Option<u64>
        ensures { result ≡ option_map length (bases_of self.now seq) }
    {
        let range = range_in(&self.ranges, seq)?;
        Some((range.stop - range.start) as u64)
    }

    /// The bases of the sequence of this rank from `start` to `stop`, which is not included, if the file has it.
    ///
    /// They are lent. Positions are counted from 0; past the sequence's end there is no base.
    pub fn bases(&self, seq: u32, start: u64, stop: u64) -> Option<&[u8]>
        ensures { option_copied result ≡ option_map (λ bases. slice_range bases start stop) (bases_of self.now seq) }
    {
        let range = range_in(&self.ranges, seq)?;
        let length = range.stop - range.start;
        let to = length.min(stop as usize);
        let from = to.min(start as usize);
        Some(&self.bases[range.start + from..range.start + to])
    }
}
