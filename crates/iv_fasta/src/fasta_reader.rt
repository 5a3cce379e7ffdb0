//! A FASTA file that comes in pieces.
ghost use Rattle.std.specs.Prelude.{◌≡◌, ◌<◌, ◌≤◌, ◌+◌, ◌^◌, ◌⊎◌, ◌++◌, ℕ, List, [], length, drop, Ok, Err, IfOk, IfErr, OnOk};
ghost use Rattle.std.specs.Option.{option_map};
ghost use Rattle.iv_lines.specs.Genome.{Sequences, AreRanked};
ghost use Rattle.iv_lines.specs.declared.fault.LoadCause.TheVariants as cause;
ghost use Rattle.iv_fasta.specs.Fasta.{fasta_of};
ghost use Rattle.iv_fasta.specs.FastaReading.{read_on, only_or_fault, size_of};

use crate::fasta::Fasta;
use crate::fasta_draft::FastaDraft;
use bstr::ByteSlice;
use iv_lines::{Genome, LoadFault};
use std::alloc::Allocator;
use std::marker::Model;
use std::mem;

/// A FASTA file that comes in pieces, and what is held of it: the bases of the wanted sequences that the genome names.
///
/// A line may begin in one piece and end in another. Of a header that hasn't ended the bytes are held until its end comes, and
/// so is a CR at the end of a piece; bases go to those that are held at once. No other text is held.
#[derive(Drop)]
pub struct FastaReader<A: Allocator> {
    alloc: A,
    draft: FastaDraft<A>,
    // The first bytes of a header, or a CR, whose line hasn't ended.
    tail: Vec<u8, A>,
}

impl<A: Allocator> Model for FastaReader<A> {
    ghost use Rattle.iv_fasta.specs.FastaReading.{Reading};

    ghost Value = { Reading };

    ghost view = { λ r. record { read = r.draft; tail = r.tail.items } };
}

/// How many bytes there are up to the first LF, with it: 0 without one.
fn first_end(bytes: &[u8]) -> usize
    ensures { result ≤ length bytes.now }
{
    match bytes.find_byte(b'\n') {
        Some(feed) => feed + 1,
        None => 0,
    }
}

/// Adds bytes to those of a line that hasn't ended.
fn keep<A: Allocator>(tail: &mut Vec<u8, A>, bytes: &[u8]) -> Result<(), LoadFault>
    ensures ok { OnOk result (tail.new.items ≡ tail.old.items ++ bytes.now) }
    ensures err { IfErr result (λ f. f ≡ record { line = 0; cause = cause.Memory }) }
{
    tail.extend_from_slice(bytes)?;
    Ok(())
}

impl<A: Allocator + Copy> FastaReader<A> {
    /// A file of which no byte was read. Wanted are the sequences of those ranks at which a list says so, or without a list all.
    pub fn new(alloc: A, wanted: Option<Vec<bool, A>>) -> Self
        ensures read_on { (g : Sequences) (text : List ℕ) → AreRanked g → read_on g result text ≡ only_or_fault (option_map (λ ranks. ranks.items) wanted) (fasta_of g text) }
        ensures size { size_of result ≡ 1 }
    {
        FastaReader {
            alloc,
            draft: FastaDraft::new(alloc, wanted),
            tail: Vec::new(alloc),
        }
    }

    /// Takes the next bytes of the file.
    ///
    /// # Errors
    ///
    /// The file's first fault, unless it is a sequence of a wrong length, or an allocation failed. What was read is then unspecified.
    pub fn take_piece(&mut self, genome: &Genome<A>, piece: &[u8]) -> Result<(), LoadFault>
        requires few { size_of self.old + length piece.now < 2 ^ 64 }
        ensures few { OnOk result (size_of self.new ≤ size_of self.old + length piece.now) }
        ensures ok { OnOk result ((more : List ℕ) → read_on genome.now self.old (piece.now ++ more) ≡ read_on genome.now self.new more) }
        ensures err { IfErr result (λ f. (f ≡ record { line = 0; cause = cause.Memory }) ⊎ ((more : List ℕ) → read_on genome.now self.old (piece.now ++ more) ≡ Err f)) }
    {
        let ended = self.end_line(genome, piece)?;
        let rest = &piece[ended..];
        if self.tail.is_empty() {
            self.take(genome, rest)?;
            return Ok(());
        }
        keep(&mut self.tail, rest)?;
        Ok(())
    }

    /// Takes the line whose first bytes are held, together with the first bytes of a piece, if these end it. It answers how many of
    /// these it took.
    fn end_line(&mut self, genome: &Genome<A>, piece: &[u8]) -> Result<usize, LoadFault>
        requires few { size_of self.old + length piece.now < 2 ^ 64 }
        ensures within { IfOk result (λ size. size ≤ length piece.now) }
        ensures few { IfOk result (λ size. size_of self.new ≤ size_of self.old + size) }
        ensures ok { IfOk result (λ size. (more : List ℕ) → read_on genome.now self.old (piece.now ++ more) ≡ read_on genome.now self.new (drop size piece.now ++ more)) }
        ensures err { IfErr result (λ f. (f ≡ record { line = 0; cause = cause.Memory }) ⊎ ((more : List ℕ) → read_on genome.now self.old (piece.now ++ more) ≡ Err f)) }
    {
        if self.tail.is_empty() {
            return Ok(0);
        }
        let size = first_end(piece);
        if size == 0 {
            return Ok(0);
        }
        keep(&mut self.tail, &piece[..size])?;
        let line = mem::replace(&mut self.tail, Vec::new(self.alloc));
        self.take(genome, line.as_slice())?;
        Ok(size)
    }

    /// Takes the next bytes of the file if none are held of its text, and holds those of a line that hasn't ended.
    fn take(&mut self, genome: &Genome<A>, bytes: &[u8]) -> Result<(), LoadFault>
        requires none { self.old.tail ≡ [] }
        requires few { size_of self.old + length bytes.now < 2 ^ 64 }
        ensures few { OnOk result (size_of self.new ≤ size_of self.old + length bytes.now) }
        ensures ok { OnOk result ((more : List ℕ) → read_on genome.now self.old (bytes.now ++ more) ≡ read_on genome.now self.new more) }
        ensures err { IfErr result (λ f. (f ≡ record { line = 0; cause = cause.Memory }) ⊎ ((more : List ℕ) → read_on genome.now self.old (bytes.now ++ more) ≡ Err f)) }
    {
        let taken = self.draft.take_text(self.alloc, genome, bytes, false)?;
        keep(&mut self.tail, &bytes[taken..])?;
        Ok(())
    }

    /// The bases of the wanted sequences, once all bytes of the file have come. The line in which they end is the last one.
    ///
    /// # Errors
    ///
    /// The fault of the last line, or that of the first sequence with another length than the genome's, or an allocation failed.
    pub fn finish(self, genome: &Genome<A>) -> Result<Fasta<A>, LoadFault>
        requires few { size_of self < 2 ^ 64 }
        ensures ok { IfOk result (λ fasta. read_on genome.now self [] ≡ Ok fasta) }
        ensures err { IfErr result (λ f. (f ≡ record { line = 0; cause = cause.Memory }) ⊎ (read_on genome.now self [] ≡ Err f)) }
    {
        let FastaReader {
            alloc,
            mut draft,
            tail,
        } = self;
        draft.take_text(alloc, genome, tail.as_slice(), true)?;
        let (ranges, bases) = draft.finish(alloc, genome)?;
        Ok(Fasta::of(ranges, bases))
    }
}
