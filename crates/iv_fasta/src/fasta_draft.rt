//! What is held of a FASTA file of which some bytes were read.
ghost use Rattle.std.specs.Prelude.{◌≡◌, ◌≢◌, ◌<◌, ◌+◌, ◌^◌, ◌⊎◌, ◌++◌, ◌==◌, ℕ, List, Bool, [], None, Some, false, true, Ok, Err, IfOk, IfErr, OnOk, All, length, slice_index};
ghost use Rattle.std.specs.Option.{option_map};
ghost use Rattle.iv_lines.specs.declared.fault.LoadCause.TheVariants as cause;
ghost use Rattle.iv_lines.specs.Genome.{Sequences};
ghost use Rattle.iv_fasta.specs.FastaReading.{is_held, said, with_header, ended};
ghost use Rattle.iv_fasta.specs.Inside.BaseRanges.{placed, IsPlacedWithin};
ghost use Rattle.iv_fasta.specs.Inside.Drafts.{begun_with, lacks_a_header, refusal_of, with_line_end, Reads, Refuses, IsInLine, TakesBytes};

use crate::base_counts::{count_bases, is_bad};
use crate::header_lines::{ended_line, name_in};
use crate::held_sequences::{BaseRange, HeldSequences, wants};
use iv_lines::{Genome, LoadCause, LoadFault, is_bad_name};
use std::alloc::Allocator;
use std::marker::Model;

/// What is held of a FASTA file of which some bytes were read.
#[derive(Drop)]
pub(crate) struct FastaDraft<A: Allocator> {
    // The number of the next line, or of the line of bases in whose middle those bytes end.
    number: u64,
    // Whether they end there.
    is_open: bool,
    // Which sequences are wanted, by rank; all without a list.
    wanted: Option<Vec<bool, A>>,
    held: HeldSequences<A>,
    // Whether the bases of the last sequence are held.
    holds: bool,
}

impl<A: Allocator> Model for FastaDraft<A> {
    ghost use Rattle.std.specs.Option.{option_map};
    ghost use Rattle.iv_fasta.specs.FastaReading.{Progress};
    ghost use Rattle.iv_fasta.specs.Inside.Drafts.{cut};

    ghost Value = { Progress };

    ghost view = { λ d. record {
      number = d.number;
      is_open = d.is_open;
      wanted = option_map (λ ranks. ranks.items) d.wanted;
      draft = record { sequences = cut d.held.headers d.held.bases.items d.held.count; holds = d.holds };
      count = d.held.count;
    } };
}

impl<A: Allocator + Copy> FastaDraft<A> {
    /// What is held before any byte is read.
    pub(crate) fn new(alloc: A, wanted: Option<Vec<bool, A>>) -> Self
        ensures { result ≡ begun_with (option_map (λ ranks. ranks.items) wanted) }
    {
        FastaDraft {
            number: 1,
            is_open: false,
            wanted,
            held: HeldSequences::new(alloc),
            holds: false,
        }
    }

    /// Ends a line.
    fn end_line(&mut self)
        requires { self.old.number + 1 < 2 ^ 64 }
        ensures { self.new ≡ with_line_end self.old }
    {
        self.number += 1;
        self.is_open = false;
    }

    /// Whether the bases of a sequence of this name are held.
    fn holds(&self, genome: &Genome<A>, name: &[u8]) -> bool
        ensures { result ≡ is_held genome.now self.now.wanted name.now }
    {
        match genome.rank(name) {
            Some(seq) => wants(&self.wanted, seq),
            None => false,
        }
    }

    /// Takes the header of this name.
    fn push_header(&mut self, alloc: A, genome: &Genome<A>, name: &[u8]) -> Result<(), LoadCause>
        ensures ok { OnOk result (with_header genome.now self.old.wanted self.old.number self.old.draft name.now ≡ Ok self.new.draft) }
        ensures rest { OnOk result ((self.new.number ≡ self.old.number) × (self.new.count ≡ self.old.count)) }
        ensures wanted { self.new.wanted ≡ self.old.wanted }
        ensures err { IfErr result (λ c. (c ≡ cause.Memory) ⊎ (with_header genome.now self.old.wanted self.old.number self.old.draft name.now ≡ Err c)) }
    {
        if is_bad_name(name) {
            return Err(LoadCause::Name);
        }
        if self.held.has(name) {
            return Err(LoadCause::Repeated);
        }
        self.held.push(alloc, name, self.number)?;
        self.holds = self.holds(genome, name);
        Ok(())
    }

    /// Takes the header that a text begins with, if its line ends there. It answers where the next line begins, or 0.
    fn take_header(
        &mut self,
        alloc: A,
        genome: &Genome<A>,
        text: &[u8],
        is_last: bool,
    ) -> Result<usize, LoadCause>
        requires some { 0 < length text.now }
        requires begins { slice_index text.now 0 ≡ 62 }
        requires closed { self.old.is_open ≡ false }
        requires few { self.old.number + self.old.count + length text.now < 2 ^ 64 }
        ensures some { is_last ≡ true → IfOk result (λ size. 0 < size) }
        ensures taken { TakesBytes self.old self.new text.now result }
        ensures ok { IfOk result (λ size. Reads genome.now self.old self.new text.now size is_last) }
        ensures err { IfErr result (λ c. (c ≡ cause.Memory) ⊎ Refuses genome.now self.old text.now c is_last) }
    {
        let Some((line, next)) = ended_line(text, is_last) else {
            return Ok(0);
        };
        self.push_header(alloc, genome, name_in(line))?;
        self.end_line();
        Ok(next)
    }

    /// Whether bases may not come here, because no header came before.
    fn lacks_header(&self) -> bool
        ensures { result ≡ lacks_a_header self.now }
    {
        !self.is_open && self.held.is_empty()
    }

    /// Why a line is refused whose next byte is no base.
    fn refusal(&self) -> LoadCause
        ensures { result ≡ refusal_of self.now }
    {
        if self.lacks_header() {
            LoadCause::BasesFirst
        } else {
            LoadCause::Base
        }
    }

    /// Takes the CR that a text begins with, and a LF after it. It answers how many bytes these are, or 0 if nothing is after the CR.
    fn take_return(&mut self, text: &[u8], is_last: bool) -> Result<usize, LoadCause>
        requires some { 0 < length text.now }
        requires begins { slice_index text.now 0 ≡ 13 }
        requires few { self.old.number + length text.now < 2 ^ 64 }
        ensures some { is_last ≡ true → IfOk result (λ size. 0 < size) }
        ensures taken { TakesBytes self.old self.new text.now result }
        ensures ok { IfOk result (λ size. (g : Sequences) → Reads g self.old self.new text.now size is_last) }
        ensures err { IfErr result (λ c. (g : Sequences) → Refuses g self.old text.now c is_last) }
    {
        if text.len() == 1 {
            if is_last {
                return Err(self.refusal());
            }
            return Ok(0);
        }
        if text[1] == b'\n' {
            self.end_line();
            return Ok(2);
        }
        Err(self.refusal())
    }

    /// Takes the bases that a text begins with. It answers how many they are.
    fn take_bases(&mut self, text: &[u8]) -> Result<usize, LoadCause>
        requires some { IsInLine text.now }
        requires open { self.old.is_open ≡ false → slice_index text.now 0 ≢ 62 }
        requires few { self.old.count + length text.now < 2 ^ 64 }
        ensures some { IfOk result (λ size. 0 < size) }
        ensures taken { TakesBytes self.old self.new text.now result }
        ensures ok { IfOk result (λ size. (g : Sequences) (is_last : Bool) → Reads g self.old self.new text.now size is_last) }
        ensures err { IfErr result (λ c. (c ≡ cause.Memory) ⊎ ((g : Sequences) (is_last : Bool) → Refuses g self.old text.now c is_last)) }
    {
        if self.lacks_header() {
            return Err(LoadCause::BasesFirst);
        }
        if is_bad(text[0]) {
            return Err(LoadCause::Base);
        }
        let count = 1 + count_bases(&text[1..]);
        self.held.extend(&text[..count], self.holds)?;
        self.is_open = true;
        Ok(count)
    }

    /// Takes the end of a line, a header, or bases, with which a text begins. It answers how many bytes these are, or 0 if this isn't
    /// known before more of the text has come.
    fn take_some(
        &mut self,
        alloc: A,
        genome: &Genome<A>,
        text: &[u8],
        is_last: bool,
    ) -> Result<usize, LoadCause>
        requires some { 0 < length text.now }
        requires few { self.old.number + self.old.count + length text.now < 2 ^ 64 }
        ensures some { is_last ≡ true → IfOk result (λ size. 0 < size) }
        ensures taken { TakesBytes self.old self.new text.now result }
        ensures ok { IfOk result (λ size. Reads genome.now self.old self.new text.now size is_last) }
        ensures err { IfErr result (λ c. (c ≡ cause.Memory) ⊎ Refuses genome.now self.old text.now c is_last) }
    {
        let first = text[0];
        if first == b'\n' {
            self.end_line();
            return Ok(1);
        }
        if first == b'\r' {
            return self.take_return(text, is_last);
        }
        if first == b'>' && !self.is_open {
            return self.take_header(alloc, genome, text, is_last);
        }
        self.take_bases(text)
    }

    /// Takes all of a text that it can before more of it has come. It answers how many bytes it took.
    pub(crate) fn take_text(
        &mut self,
        alloc: A,
        genome: &Genome<A>,
        text: &[u8],
        is_last: bool,
    ) -> Result<usize, LoadFault>
        requires few { self.old.number + self.old.count + length text.now < 2 ^ 64 }
        ensures taken { TakesBytes self.old self.new text.now result }
        ensures all { is_last ≡ true → IfOk result (λ size. size ≡ length text.now) }
        ensures ok { IfOk result (λ size. Reads genome.now self.old self.new text.now size is_last) }
        ensures err { IfErr result (λ f. (f ≡ record { line = 0; cause = cause.Memory }) ⊎ ((more : List ℕ) → (is_last ≡ true → more ≡ []) → said genome.now self.old (text.now ++ more) ≡ Err f)) }
    {
        let mut taken = 0;
        while taken < text.len() {
            let number = self.number;
            match self.take_some(alloc, genome, &text[taken..], is_last) {
                Ok(0) => break,
                Ok(size) => taken += size,
                Err(cause) => return Err(LoadFault::at(number, cause)),
            }
        }
        Ok(taken)
    }

    /// Where the bases of each wanted sequence lie, and the bases, if all lengths are those of the genome.
    pub(crate) fn finish(
        self,
        alloc: A,
        genome: &Genome<A>,
    ) -> Result<(Vec<Option<BaseRange>, A>, Vec<u8, A>), LoadFault>
        ensures ok { IfOk result (λ f. ended genome.now self.wanted self.draft.sequences ≡ Ok (placed f.0.items f.1.items)) }
        ensures within { IfOk result (λ f. All (IsPlacedWithin (length f.1.items)) f.0.items) }
        ensures err { IfErr result (λ f. (f ≡ record { line = 0; cause = cause.Memory }) ⊎ (ended genome.now self.wanted self.draft.sequences ≡ Err f)) }
    {
        let FastaDraft { wanted, held, .. } = self;
        held.check_lengths(genome)?;
        let ranges = held.ranges(alloc, genome, &wanted)?;
        Ok((ranges, held.into_bases()))
    }
}
