//! Lemmas on the definitions: functions that do nothing, whose contracts are the lemmas.
ghost use Rattle.std.specs.Prelude.{◌≡◌, ◌<◌, ◌≤◌, ◌↔◌, ◌++◌, ◌∷◌, All, ℕ, List, Some, None, Ok, IsPermutation, length, slice_get};
ghost use Rattle.iv_text.specs.BedFile.{Bed, bed_of};
ghost use Rattle.iv_lines.specs.Genome.{Sequences};
ghost use Rattle.iv_lines.specs.Named.{names_of};
ghost use Rattle.iv_lines.specs.Ordered.{ordered};
ghost use Rattle.iv_lines.specs.Read.{read, Fits};
ghost use Rattle.iv_lines.specs.RecordText.{record_text};
ghost use Rattle.iv_lines.specs.RecordValue.{RecordValue};
ghost use Rattle.iv_lines.specs.Widths.{IsWidth};
ghost use Rattle.iv_view.specs.Merge.{MergeArgs, said_by, nothing_said};
ghost use Rattle.iv_view.specs.Inside.RowsAgain.{IsBedRow};
ghost use Rattle.iv_view.specs.Inside.Texts.{records_text};
ghost use Rattle.iv_view.specs.Inside.MergeOptions.{MergeOption, words_of, option_arguments, options_of};

/// Arguments of `merge` and `cluster` are accepted exactly if they are those of options in some order, each of which comes once;
/// and then they mean just these options.
pub fn arguments_are_options()
    ensures { (arguments : List (List ℕ)) (said : MergeArgs) → (said_by arguments nothing_said ≡ Some said) ↔ ((options : List MergeOption) × (arguments ≡ option_arguments options) × IsPermutation options (options_of said)) }
{}

/// Two options next to each other may change places.
pub fn options_in_any_order()
    ensures { (front back : List MergeOption) (a b : MergeOption) → said_by (option_arguments (front ++ a ∷ b ∷ back)) nothing_said ≡ said_by (option_arguments (front ++ b ∷ a ∷ back)) nothing_said }
{}

/// Arguments in which an option comes twice are refused, whatever its values are.
pub fn no_option_twice()
    ensures { (front middle back : List MergeOption) (a b : MergeOption) → slice_get (words_of a) 0 ≡ slice_get (words_of b) 0 → said_by (option_arguments (front ++ a ∷ (middle ++ b ∷ back))) nothing_said ≡ None }
{}

/// The text of the record of a line, read again, is that record.
///
/// While sequences have other lengths, and the record ends within its own, the line means the same record. A BED file whose lines are
/// the rows of `records` has just their records, unless a row begins as a header does or the name of a sequence holds a LF.
/// No row of the records of a BED file does: printed in the order of a track, and loaded again, they are the same track.
pub fn records_are_read_again()
    ensures line { (g : Sequences) (width : ℕ) (line : List ℕ) (r : RecordValue) → IsWidth width → read g width line ≡ Ok r → read g width (record_text g r) ≡ Ok r }
    ensures lengths { (g other : Sequences) (width : ℕ) (line : List ℕ) (r : RecordValue) → names_of other ≡ names_of g → Fits other width r → read g width line ≡ Ok r → read other width line ≡ Ok r }
    ensures records { (g : Sequences) (width empty limit : ℕ) (records : List RecordValue) → IsWidth width → All (IsBedRow g width) records → 0 < length records → length records ≤ limit → bed_of g empty limit (records_text g records) ≡ Ok (record { width = width; records = records }) }
    ensures file { (g : Sequences) (empty limit : ℕ) (text : List ℕ) (b : Bed) → bed_of g empty limit text ≡ Ok b → bed_of g empty limit (records_text g (ordered b.records)) ≡ Ok (record { width = b.width; records = ordered b.records }) }
{}
