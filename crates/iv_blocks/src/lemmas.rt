//! Lemmas on the definitions: functions that do nothing, whose contracts are the lemmas.
ghost use Rattle.std.specs.Prelude.{◌≡◌, ◌↔◌, ◌<◌, ◌≤◌, ℕ, List, All, Contains};
ghost use Rattle.iv_lines.specs.Genome.{Sequences};
ghost use Rattle.iv_lines.specs.Read.{IsOnGenome};
ghost use Rattle.iv_lines.specs.RecordValue.{RecordValue};
ghost use Rattle.iv_cover.specs.BlockTerms.{BelongsTo};
ghost use Rattle.iv_cover.specs.Depth.{depth};
ghost use Rattle.iv_cover.specs.Runs.{Run, empty_runs};
ghost use Rattle.iv_lines.specs.CoveredPositions.{on};
ghost use Rattle.iv_blocks.specs.Inside.Texts.{block_number};

/// The gaps of a sequence are exactly the maximal intervals on which the records' depth is 0.
///
/// Each position of a gap has depth 0, each position of depth 0 is in a gap, and no two gaps touch or overlap.
pub fn gaps_are_maximal()
    ensures bare { (records : List RecordValue) (seq length : ℕ) (gap : Run) → Contains (empty_runs (depth records seq) 0 length) gap → (gap.start < gap.stop) × (gap.stop ≤ length) × ((p : ℕ) → gap.start ≤ p → p < gap.stop → depth records seq p ≡ 0) }
    ensures all { (records : List RecordValue) (seq length p : ℕ) → p < length → depth records seq p ≡ 0 → (gap : Run) × Contains (empty_runs (depth records seq) 0 length) gap × (gap.start ≤ p) × (p < gap.stop) }
    ensures apart { (records : List RecordValue) (seq length : ℕ) (a b : Run) → Contains (empty_runs (depth records seq) 0 length) a → Contains (empty_runs (depth records seq) 0 length) b → a.start < b.start → a.stop < b.start }
    ensures once { (records : List RecordValue) (seq length : ℕ) (a b : Run) → Contains (empty_runs (depth records seq) 0 length) a → Contains (empty_runs (depth records seq) 0 length) b → a.start ≡ b.start → a ≡ b }
{}

/// Two records of a cluster have one number exactly if they are in one block.
pub fn numbers_are_of_blocks()
    ensures { (d : ℕ) (g : Sequences) (records : List RecordValue) (q r : RecordValue) → All (IsOnGenome g) records → Contains records q → Contains records r → (block_number d g records q ≡ block_number d g records r) ↔ ((q.seq ≡ r.seq) × ((x : ℕ) × BelongsTo d (on r.seq records) x q × BelongsTo d (on r.seq records) x r)) }
{}
