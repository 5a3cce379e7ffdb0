//! Lemmas on the definitions: functions that do nothing, whose contracts are the lemmas.
ghost use Rattle.std.specs.Prelude.{◌≡◌, ℕ, List, Some, Ok};
ghost use Rattle.iv_fasta.specs.Fasta.{Bases, HasLengthsOf};
ghost use Rattle.iv_workspace.specs.Resizes.{resized};
ghost use Rattle.iv_workspace.specs.States.{State};

/// If the sequences of a FASTA file are as long as the genome says, they still are if a length was corrected.
pub fn corrected_lengths_are_those_of_bases()
    ensures { (old new : State) (bases : Bases) (name : List ℕ) (n : ℕ) → old.bases ≡ Some bases → HasLengthsOf old.genome bases → resized old name n ≡ Ok new → HasLengthsOf new.genome bases }
{}
