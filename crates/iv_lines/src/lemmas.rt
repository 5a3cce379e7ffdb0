//! Lemmas on the definitions: functions that do nothing, whose contracts are the lemmas.
ghost use Rattle.std.specs.Prelude.{◌≡◌, ◌≢◌, ◌↔◌, ◌++◌, ◌∷◌, ◌<◌, [], List, ℕ, Some, Ok, Err, length};
ghost use Rattle.std.specs.Io.BufRead.{strip_last};
ghost use Rattle.iv_lines.specs.Bytes.{carriage_return, line_feed};
ghost use Rattle.iv_lines.specs.FileMeaning.{sequence_cause, sequences_of, HaveNoCause, IsFirstFault};
ghost use Rattle.iv_lines.specs.Genome.{Sequences, length_at, name_at, with_length};
ghost use Rattle.iv_lines.specs.Named.{name_index};
ghost use Rattle.iv_lines.specs.GenomeFile.{genome_of};
ghost use Rattle.iv_lines.specs.Lines.{lines, HasNoFeed};
ghost use Rattle.iv_lines.specs.Ordered.{copies, ordered, AreInOrder};
ghost use Rattle.iv_lines.specs.RecordValue.{RecordValue};
ghost use Rattle.iv_lines.specs.declared.fault.LoadFault.{LoadFault};

/// A line feed ends the first line of a text, and one carriage return directly before it is dropped.
pub fn first_line_ends_at_feed()
    ensures { (line rest : List ℕ) → HasNoFeed line → lines ((line ++ line_feed ∷ []) ++ rest) ≡ strip_last carriage_return line ∷ lines rest }
{}

/// The end of a text ends its last line, which then is not empty and keeps its carriage returns.
pub fn last_line_ends_at_end()
    ensures none { lines [] ≡ [] }
    ensures last { (line : List ℕ) → HasNoFeed line → 0 < length line → lines line ≡ line ∷ [] }
{}

/// The records in order are in order, with the same multiplicities, and no other list is so.
pub fn one_ordered_list()
    ensures in_order { (records : List RecordValue) → AreInOrder (ordered records) }
    ensures same { (records : List RecordValue) (r : RecordValue) → copies (ordered records) r ≡ copies records r }
    ensures alone { (xs ys : List RecordValue) → AreInOrder xs → AreInOrder ys → ((r : RecordValue) → copies xs r ≡ copies ys r) → xs ≡ ys }
{}

/// If one sequence has another length, each name stays at its rank, and the others keep their lengths.
pub fn one_length_changes()
    ensures names { (g : Sequences) (rank n k : ℕ) → name_at (with_length g rank n) k ≡ name_at g k }
    ensures ranks { (g : Sequences) (rank n : ℕ) (name : List ℕ) → name_index (with_length g rank n) name ≡ name_index g name }
    ensures changed { (g : Sequences) (rank n : ℕ) → rank < length g → length_at (with_length g rank n) rank ≡ Some n }
    ensures others { (g : Sequences) (rank n k : ℕ) → k ≢ rank → length_at (with_length g rank n) k ≡ length_at g k }
{}

/// A genome file is accepted exactly if no line has a cause to refuse it. It then has the sequences of its lines, in their order.
///
/// Else it has the fault of the first line that has a cause: the number of that line, counted from 1, and its first cause.
pub fn genome_or_first_fault()
    ensures value { (text : List ℕ) (g : Sequences) → (genome_of text ≡ Ok g) ↔ (HaveNoCause sequence_cause (lines text) × (g ≡ sequences_of (lines text))) }
    ensures fault { (text : List ℕ) (f : LoadFault) → (genome_of text ≡ Err f) ↔ IsFirstFault sequence_cause (lines text) f }
{}
