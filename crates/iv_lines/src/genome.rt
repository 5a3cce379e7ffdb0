//! The sequences of a genome, and the genome file that lists them.
ghost use Rattle.std.specs.Prelude.{◌≡◌, ◌<◌, ◌≤◌, List, ℕ, length, Some, None, IfSome, OnOk, OnErr, [], ◌∷◌, ◌++◌, ◌⊎◌, Ok, Err, IfOk, IfErr, find};
ghost use Rattle.std.specs.Option.{option_map, option_copied};
ghost use Rattle.iv_lines.specs.Genome.{seq_count, name_at, length_at, sequence_name, sequence_length, most_length, with_length, AreRanked};
ghost use Rattle.iv_lines.specs.Named.{name_index};
ghost use Rattle.iv_lines.specs.Fields.{columns as columns_of};
ghost use Rattle.iv_lines.specs.GenomeFile.{bad_name, is_skipped as is_skipped_line, has_cause, causes, sequence, after_line, genome_of};
ghost use Rattle.iv_lines.specs.declared.fault.LoadCause.TheVariants as cause;

use crate::fault::{LoadCause, LoadFault};
use crate::lines::{columns, lines_of};
use crate::name_map::{ContentSeed, NameMap};
use crate::number::read_number;
use std::alloc::{AllocError, Allocator, Global};
use std::marker::Model;

/// The greatest length that a sequence may have.
pub const MOST_LENGTH: u64 = 4_000_000_000;

/// The sequences of a genome with their lengths, in the order of its file.
///
/// The index of a sequence in that order, from 0, is its rank.
#[derive(Drop)]
pub struct Genome<A: Allocator = Global> {
    lengths: NameMap<u32, A>,
}

impl<A: Allocator> Model for Genome<A> {
    ghost use Rattle.std.specs.Prelude.{List, ℕ, length, ◌≤◌};

    ghost Value = { List (List ℕ × ℕ) };

    ghost view = { λ g. g.lengths };

    ghost invariant = { λ g. length g.lengths ≤ 1000000 };
}

impl<A: Allocator + Copy> Genome<A> {
    /// A genome of no sequence, whose names will be hashed by `hasher`.
    pub(crate) fn new(alloc: A, hasher: ContentSeed) -> Self
        ensures empty { result ≡ [] }
    {
        Genome {
            lengths: NameMap::new(alloc, hasher),
        }
    }

    /// Adds a sequence at the end. After a fault the genome is as before.
    pub(crate) fn push(&mut self, alloc: A, name: &[u8], number: u32) -> Result<(), AllocError>
        requires fresh { name_index self.old name.now ≡ None }
        requires room { seq_count self.old < 1000000 }
        ensures ok { OnOk result (self.new ≡ self.old ++ (name.now, number) ∷ []) }
        ensures err { OnErr result (self.new ≡ self.old) }
    {
        self.lengths.push(alloc, name, number)
    }

    /// The rank of a name, byte for byte.
    pub fn rank(&self, name: &[u8]) -> Option<u32>
        ensures value { result ≡ name_index self.now name.now }
    {
        let rank = self.lengths.index_of(name)?;
        Some(rank as u32)
    }

    /// The rank of a name, with the length of the sequence.
    pub(crate) fn find(&self, name: &[u8]) -> Option<(u32, u32)>
        ensures rank { option_map (λ p. p.0) result ≡ name_index self.now name.now }
        ensures length { IfSome result (λ p. length_at self.now p.0 ≡ Some p.1) }
    {
        let (rank, length) = self.lengths.find(name)?;
        Some((rank as u32, *length))
    }

    /// A lemma for callers' proofs: no name occurs twice, so the rank of the name at a rank is that rank. The call does nothing.
    pub fn lemma_of_names(&self)
        ensures { AreRanked self.now }
    {
        self.lengths.lemma_of_names();
    }

    /// The name at a rank.
    pub fn name(&self, rank: u32) -> Option<&[u8]>
        ensures value { option_copied result ≡ name_at self.now rank }
    {
        let (name, _) = self.lengths.at(rank as usize)?;
        Some(name)
    }

    /// The name of the sequence of a rank; empty if there is none.
    pub fn name_or_empty(&self, rank: u32) -> &[u8]
        ensures { result.now ≡ sequence_name self.now rank }
    {
        match self.name(rank) {
            Some(name) => name,
            None => b"",
        }
    }

    /// The length at a rank, which fits in 32 bits.
    pub fn length_u32(&self, rank: u32) -> Option<u32>
        ensures value { result ≡ length_at self.now rank }
    {
        let (_, length) = self.lengths.at(rank as usize)?;
        Some(*length)
    }

    /// The length at a rank.
    pub fn length(&self, rank: u32) -> Option<u64>
        ensures value { result ≡ length_at self.now rank }
    {
        let length = self.length_u32(rank)?;
        Some(u64::from(length))
    }

    /// The length of the sequence of a rank; 0 if there is none.
    pub fn length_or_zero(&self, rank: u32) -> u64
        ensures { result ≡ sequence_length self.now rank }
    {
        self.length(rank).unwrap_or(0)
    }

    /// Gives the sequence at a rank another length, at most 4,000,000,000. All else stays, and it takes no memory.
    pub fn set_length(&mut self, rank: u32, length: u64)
        requires there { rank < seq_count self.old }
        requires bounded { length ≤ most_length }
        ensures { self.new ≡ with_length self.old rank length }
    {
        self.lengths[rank as usize] = length as u32;
    }

    /// How many sequences there are.
    pub fn count(&self) -> u32
        ensures value { result ≡ length self.now }
    {
        self.lengths.len() as u32
    }
}

/// Whether no sequence may have this name: it is empty, or holds CR or NUL.
pub fn is_bad_name(name: &[u8]) -> bool
    ensures { result ≡ bad_name name.now }
{
    for b in name {
        if *b == b'\r' || *b == 0 {
            return true;
        }
    }
    name.is_empty()
}

/// Whether a line is skipped, because it has no sequence.
fn is_skipped(line: &[u8]) -> bool
    ensures { result ≡ is_skipped_line line.now }
{
    line.is_empty() || line[0] == b'#' || line == b"chrom\tsize".as_slice()
}

/// The name and the length of a line, or its first fault, whatever sequences come before it.
fn sequence_of(line: &[u8]) -> Result<(&[u8], u32), LoadCause>
    ensures ok { IfOk result (λ s. sequence (columns_of line.now) ≡ (s.0.now, s.1)) }
    ensures none { OnOk result ((g : List (List ℕ × ℕ)) → find (has_cause g (columns_of line.now)) causes ≡ find (has_cause g (columns_of line.now)) (cause.Repeated ∷ cause.TooMany ∷ [])) }
    ensures err { IfErr result (λ c. (g : List (List ℕ × ℕ)) → find (has_cause g (columns_of line.now)) causes ≡ Some c) }
{
    let mut columns = columns(line);
    let (Some(name), Some(length)) = (columns.next(), columns.next()) else {
        return Err(LoadCause::Columns);
    };
    if is_bad_name(name) {
        return Err(LoadCause::Name);
    }
    match read_number(length) {
        Some(length) if length <= MOST_LENGTH => Ok((name, length as u32)),
        _ => Err(LoadCause::Length),
    }
}

/// Takes the sequence of a line, if it has one.
fn take_line<A: Allocator + Copy>(
    genome: &mut Genome<A>,
    alloc: A,
    line: &[u8],
) -> Result<(), LoadCause>
    ensures ok { OnOk result (after_line genome.old line.now ≡ Ok genome.new) }
    ensures err { IfErr result (λ c. (c ≡ cause.Memory) ⊎ (after_line genome.old line.now ≡ Err c)) }
{
    if is_skipped(line) {
        return Ok(());
    }
    let (name, length) = sequence_of(line)?;
    if genome.rank(name).is_some() {
        return Err(LoadCause::Repeated);
    }
    if genome.count() >= 1_000_000 {
        return Err(LoadCause::TooMany);
    }
    genome.push(alloc, name, length)?;
    Ok(())
}

impl<A: Allocator + Copy> Genome<A> {
    /// A genome of no sequence. It takes no memory.
    pub fn empty(alloc: A) -> Genome<A>
        ensures { result ≡ [] }
    {
        Genome::new(alloc, ContentSeed::of(b""))
    }

    /// The genome of a genome file, or the file's first fault.
    ///
    /// Each line has a name, a TAB and a length; further columns are ignored. Empty lines, lines that
    /// begin with `#` and the heading `chrom`, TAB, `size` are skipped. After a fault nothing was made.
    pub fn parse(alloc: A, text: &[u8]) -> Result<Genome<A>, LoadFault>
        ensures ok { IfOk result (λ g. genome_of text.now ≡ Ok g) }
        ensures err { IfErr result (λ f. (f ≡ record { line = 0; cause = cause.Memory }) ⊎ (genome_of text.now ≡ Err f)) }
    {
        let mut genome = Genome::new(alloc, ContentSeed::of(text));
        let mut number: u64 = 1;
        for line in lines_of(text) {
            match take_line(&mut genome, alloc, line) {
                Ok(()) => number += 1,
                Err(cause) => return Err(LoadFault::at(number, cause)),
            }
        }
        Ok(genome)
    }
}
