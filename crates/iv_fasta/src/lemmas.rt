//! Lemmas on the definitions: functions that do nothing, whose contracts are the lemmas.
ghost use Rattle.std.specs.Prelude.{◌≡◌, ◌↔◌, ◌⊎◌, ◌+◌, ◌++◌, ◌∷◌, ℕ, List, true, Ok, Err, All, length};
ghost use Rattle.iv_lines.specs.FileMeaning.{HaveNoCause, IsFirstFault};
ghost use Rattle.iv_lines.specs.Genome.{Sequences};
ghost use Rattle.iv_lines.specs.Lines.{lines};
ghost use Rattle.iv_lines.specs.RecordValue.{RecordValue};
ghost use Rattle.iv_lines.specs.declared.fault.LoadFault.{LoadFault};
ghost use Rattle.iv_fasta.specs.Fasta.{Bases, Found, fasta_of};
ghost use Rattle.iv_fasta.specs.FastaReading.{Wanted, is_wanted, only};
ghost use Rattle.iv_fasta.specs.FastaRows.{fasta_rows};
ghost use Rattle.iv_fasta.specs.declared.rows.FastaOutput.{FastaOutput};
ghost use Rattle.iv_fasta.specs.Inside.Drafts.{after_fasta_lines};
ghost use Rattle.iv_fasta.specs.Inside.Fasta.{IsNewHeader, IsBaseLine, with_joined};
ghost use Rattle.iv_fasta.specs.Inside.FastaMeaning.{line_cause, sequences_said, HaveRightLengths, IsFirstWrongLength, by_rank};

/// The lines of bases after a header, joined in their order, are the bases of one more sequence.
///
/// They may be of any number and of any lengths, also empty. The sequence has the header's name and the number of its line.
pub fn joined_lines_are_a_sequence()
    ensures { (n : ℕ) (found : Found) (header : List ℕ) (base_lines rest : List (List ℕ)) → IsNewHeader found header → All IsBaseLine base_lines → after_fasta_lines n found (header ∷ (base_lines ++ rest)) ≡ after_fasta_lines (n + 1 + length base_lines) (with_joined n found header base_lines) rest }
{}

/// A FASTA file is accepted exactly if no line has a cause to refuse it, and each sequence that the genome names has the genome's
/// length. A sequence has the bases of the lines between its header and the next one; those that the genome lacks are left out.
///
/// Else it has the fault of the first line that has a cause: the number of that line, counted from 1, and its first cause. If no
/// line has one, it is the fault of the first sequence of another length, at the line of its header.
pub fn fasta_or_first_fault()
    ensures value { (g : Sequences) (text : List ℕ) (f : Bases) → (fasta_of g text ≡ Ok f) ↔ (HaveNoCause line_cause (lines text) × HaveRightLengths g (sequences_said (lines text)) × (f ≡ by_rank g (sequences_said (lines text)))) }
    ensures fault { (g : Sequences) (text : List ℕ) (f : LoadFault) → (fasta_of g text ≡ Err f) ↔ (IsFirstFault line_cause (lines text) f ⊎ (HaveNoCause line_cause (lines text) × IsFirstWrongLength g (sequences_said (lines text)) f)) }
{}

/// The row of a record on a wanted sequence is the same if only the bases of the wanted sequences are held.
pub fn wanted_rows_are_the_same()
    ensures { (wanted : Wanted) (output : FastaOutput) (g : Sequences) (fasta : Bases) (r : RecordValue) → is_wanted wanted r.seq ≡ true → fasta_rows output g (only wanted fasta) r ≡ fasta_rows output g fasta r }
{}
