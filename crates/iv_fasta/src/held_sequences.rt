//! The sequences of a FASTA file, and those of their bases that are held.
ghost use Rattle.std.specs.Prelude.{◌≡◌, ◌<◌, ◌+◌, ◌^◌, ◌++◌, ◌∷◌, ◌==◌, false, [], None, Ok, Err, OnOk, OnErr, IfOk, IfErr, IfSome, All, length, slice_get, find};
ghost use Rattle.std.specs.Map.{lookup};
ghost use Rattle.std.specs.Option.{option_map, is_some};
ghost use Rattle.std.specs.Str.{bytes_eq};
ghost use Rattle.iv_lines.specs.Named.{name_index};
ghost use Rattle.iv_fasta.specs.Fasta.{bases_of};
ghost use Rattle.iv_fasta.specs.FastaReading.{Summary, Wanted, is_wanted, only, with_part, has_other_count, held_by_rank, ended};
ghost use Rattle.iv_fasta.specs.Inside.FastaMeaning.{differs as differs_in};
ghost use Rattle.iv_fasta.specs.Inside.BaseRanges.{bases_at, placed, EndsWithin, IsPlacedWithin};
ghost use Rattle.iv_fasta.specs.Inside.Drafts.{cut, number_at, AreRising, AreRising-prop, sequence_at};

use iv_lines::{ContentSeed, Genome, LoadCause, LoadFault, NameMap};
use std::alloc::{AllocError, Allocator};
use std::hash::{DefaultHasher, Hasher};

/// Where the bases of a sequence lie among all that are held.
#[derive(Clone, Copy)]
pub(crate) struct BaseRange {
    pub(crate) start: usize,
    pub(crate) stop: usize,
}

/// A header: the number of its line, where the bases after it start among all that are held, and how many bases were before it,
/// held or not.
#[derive(Clone, Copy)]
pub(crate) struct Header {
    line: u64,
    start: usize,
    before: u64,
}

/// The sequences of a FASTA file so far, and those of their bases that are held, one after another.
#[derive(Drop)]
pub(crate) struct HeldSequences<A: Allocator> {
    headers: NameMap<Header, A>,
    // Each name was written to it.
    hasher: DefaultHasher,
    pub(crate) bases: Vec<u8, A>,
    // How many bases there were.
    pub(crate) count: u64,
    ghost in_order: { AreRising (λ h. h.start) 0 headers (length bases.items) } by { AreRising-prop (λ h. h.start) 0 headers (length bases.items) },
    ghost counted: { AreRising (λ h. h.before) 0 headers count } by { AreRising-prop (λ h. h.before) 0 headers count },
}

/// So few names take no time, whether or not they collide.
const FEW: usize = 1024;

/// Whether the names are hashed again before another one comes to so many: each time that there are twice as many.
fn is_rehashed_at(count: usize) -> bool {
    count >= FEW && count.is_power_of_two()
}

/// Adds a header at the end. After a fault the headers are as before.
fn push_header<A: Allocator + Copy>(
    headers: &mut NameMap<Header, A>,
    alloc: A,
    hasher: DefaultHasher,
    name: &[u8],
    header: Header,
) -> Result<(), AllocError>
    requires fresh { name_index headers.old name.now ≡ None }
    ensures ok { OnOk result (headers.new ≡ headers.old ++ (name.now, header) ∷ []) }
    ensures err { OnErr result (headers.new ≡ headers.old) }
{
    if is_rehashed_at(headers.len()) {
        headers.rehash(alloc, ContentSeed::begun(hasher))?;
    }
    headers.push(alloc, name, header)
}

/// Whether a sequence of this name has another number of bases than the genome says.
fn differs<A: Allocator + Copy>(genome: &Genome<A>, name: &[u8], count: u64) -> bool
    ensures { result ≡ differs_in genome.now name.now count }
{
    match genome.rank(name) {
        Some(seq) => count != genome.length_or_zero(seq),
        None => false,
    }
}

/// Whether the sequence of this rank is wanted: by a list, or without one.
pub(crate) fn wants<A: Allocator>(wanted: &Option<Vec<bool, A>>, seq: u32) -> bool
    ensures { result ≡ is_wanted (option_map (λ ranks. ranks.items) wanted.now) seq }
{
    match wanted {
        None => true,
        Some(ranks) => match ranks.get(seq as usize) {
            Some(is_wanted) => *is_wanted,
            None => false,
        },
    }
}

impl<A: Allocator + Copy> HeldSequences<A> {
    /// No sequence yet.
    pub(crate) fn new(alloc: A) -> Self
        ensures sequences { cut result.headers result.bases.items result.count ≡ [] }
        ensures count { result.count ≡ 0 }
    {
        HeldSequences {
            headers: NameMap::new(alloc, ContentSeed::of(b"")),
            hasher: DefaultHasher::new(),
            bases: Vec::new(alloc),
            count: 0,
        }
    }

    /// How many bases are held.
    fn held_count(&self) -> usize
        ensures { result ≡ length self.now.bases.items }
    {
        self.bases.len()
    }

    /// Whether there is no sequence.
    pub(crate) fn is_empty(&self) -> bool
        ensures { result ≡ (length (cut self.now.headers self.now.bases.items self.now.count) == 0) }
    {
        self.headers.len() == 0
    }

    /// Whether there is a sequence of this name.
    pub(crate) fn has(&self, name: &[u8]) -> bool
        ensures { result ≡ is_some (name_index (cut self.now.headers self.now.bases.items self.now.count) name.now) }
    {
        self.headers.index_of(name).is_some()
    }

    /// Adds a sequence of a new name at the end, without bases. Its header is in the line of this number.
    pub(crate) fn push(&mut self, alloc: A, name: &[u8], line: u64) -> Result<(), AllocError>
        requires fresh { is_some (name_index (cut self.old.headers self.old.bases.items self.old.count) name.now) ≡ false }
        ensures ok { OnOk result (cut self.new.headers self.new.bases.items self.new.count
            ≡ cut self.old.headers self.old.bases.items self.old.count ++ (name.now, record { line = line; count = 0; bases = [] }) ∷ []) }
        ensures count { self.new.count ≡ self.old.count }
    {
        self.hasher.write(name);
        let header = Header {
            line,
            start: self.held_count(),
            before: self.count,
        };
        push_header(&mut self.headers, alloc, self.hasher, name, header)?;
        Ok(())
    }

    /// Adds bases to the last sequence. They are counted, and maybe held.
    pub(crate) fn extend(&mut self, bases: &[u8], holds: bool) -> Result<(), AllocError>
        requires few { self.old.count + length bases.now < 2 ^ 64 }
        ensures ok { OnOk result (cut self.new.headers self.new.bases.items self.new.count ≡ with_part holds (cut self.old.headers self.old.bases.items self.old.count) bases.now) }
        ensures count { OnOk result (self.new.count ≡ self.old.count + length bases.now) }
    {
        let held = if holds { bases } else { b"" };
        self.bases.extend_from_slice(held)?;
        self.count += bases.len() as u64;
        Ok(())
    }

    /// Where the bases before the header at an index end, among those that are held, and how many bases there were before it.
    fn end_before(&self, index: usize) -> (usize, u64)
        ensures stop { result.0 ≡ number_at (λ h. h.start) (slice_get self.now.headers index) (length self.now.bases.items) }
        ensures before { result.1 ≡ number_at (λ h. h.before) (slice_get self.now.headers index) self.now.count }
    {
        match self.headers.at(index) {
            Some((_, header)) => (header.start, header.before),
            None => (self.held_count(), self.count),
        }
    }

    /// The sequence at this index: its name, the number of its header's line, how many bases it has, and where those lie that are
    /// held.
    fn sequence(&self, index: usize) -> Option<(&[u8], u64, u64, BaseRange)>
        ensures value { option_map (λ s. (s.0.now, sequence_at self.now.bases.items s.1 s.2 s.3)) result ≡ slice_get (cut self.now.headers self.now.bases.items self.now.count) index }
        ensures within { IfSome result (λ s. EndsWithin (length self.now.bases.items) s.3) }
    {
        let (name, header) = self.headers.at(index)?;
        let start = header.start;
        let (stop, before) = self.end_before(index + 1);
        Some((
            name,
            header.line,
            before - header.before,
            BaseRange { start, stop },
        ))
    }

    /// Whether each sequence that the genome names has the length that it says, or the fault of the first that has not.
    pub(crate) fn check_lengths(&self, genome: &Genome<A>) -> Result<(), LoadFault>
        ensures ok { OnOk result (find (has_other_count genome.now) (cut self.now.headers self.now.bases.items self.now.count) ≡ None) }
        ensures err { IfErr result (λ f. (wanted : Wanted) → ended genome.now wanted (cut self.now.headers self.now.bases.items self.now.count) ≡ Err f) }
    {
        for index in 0..self.headers.len() {
            let Some((name, line, count, _)) = self.sequence(index) else {
                break;
            };
            if differs(genome, name, count) {
                return Err(LoadFault::at(line, LoadCause::WrongLength));
            }
        }
        Ok(())
    }

    /// Where the bases that are held of the sequence of this name lie, if there is one.
    fn range_of(&self, name: &[u8]) -> Option<BaseRange>
        ensures value { option_map (bases_at self.now.bases.items) result ≡ option_map (λ (s : Summary). s.bases) (lookup (bytes_eq name.now) (cut self.now.headers self.now.bases.items self.now.count)) }
        ensures within { IsPlacedWithin (length self.now.bases.items) result }
    {
        match self.headers.index_of(name) {
            Some(index) => match self.sequence(index) {
                Some((_, _, _, bases)) => Some(bases),
                None => None,
            },
            None => None,
        }
    }

    /// Where the bases that are held of the sequence of this rank lie, if there is one.
    fn range_at(&self, genome: &Genome<A>, seq: u32) -> Option<BaseRange>
        ensures value { option_map (bases_at self.now.bases.items) result ≡ bases_of (held_by_rank genome.now (cut self.now.headers self.now.bases.items self.now.count)) seq }
        ensures within { IsPlacedWithin (length self.now.bases.items) result }
    {
        match genome.name(seq) {
            Some(name) => self.range_of(name),
            None => None,
        }
    }

    /// The same, if the sequence is wanted.
    fn wanted_range_at(
        &self,
        genome: &Genome<A>,
        wanted: &Option<Vec<bool, A>>,
        seq: u32,
    ) -> Option<BaseRange>
        ensures value { option_map (bases_at self.now.bases.items) result
            ≡ bases_of (only (option_map (λ ranks. ranks.items) wanted.now) (held_by_rank genome.now (cut self.now.headers self.now.bases.items self.now.count))) seq }
        ensures within { IsPlacedWithin (length self.now.bases.items) result }
    {
        if wants(wanted, seq) {
            self.range_at(genome, seq)
        } else {
            None
        }
    }

    /// Where the bases of each wanted sequence of the genome lie, by rank.
    pub(crate) fn ranges(
        &self,
        alloc: A,
        genome: &Genome<A>,
        wanted: &Option<Vec<bool, A>>,
    ) -> Result<Vec<Option<BaseRange>, A>, AllocError>
        ensures value { IfOk result (λ ranges. placed ranges.items self.now.bases.items
            ≡ only (option_map (λ ranks. ranks.items) wanted.now) (held_by_rank genome.now (cut self.now.headers self.now.bases.items self.now.count))) }
        ensures within { IfOk result (λ ranges. All (IsPlacedWithin (length self.now.bases.items)) ranges.items) }
    {
        let mut ranges = Vec::new(alloc);
        for seq in 0..genome.count() {
            ranges.push(self.wanted_range_at(genome, wanted, seq))?;
        }
        Ok(ranges)
    }

    /// The bases that are held. Memory that they don't take is given back.
    pub(crate) fn into_bases(self) -> Vec<u8, A>
        ensures { result.items ≡ self.bases.items }
    {
        let HeldSequences { mut bases, .. } = self;
        bases.shrink_to_fit();
        bases
    }
}
