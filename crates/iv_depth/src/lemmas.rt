//! Lemmas on the definitions: functions that do nothing, whose contracts are the lemmas.
ghost use Rattle.std.specs.Prelude.{◌≡◌, ◌<◌, ◌≤◌, ℕ, List, Contains};
ghost use Rattle.iv_lines.specs.RecordValue.{RecordValue};
ghost use Rattle.iv_cover.specs.Depth.{depth};
ghost use Rattle.iv_cover.specs.Runs.{Run, runs, Tiles};
ghost use Rattle.iv_depth.specs.DepthRows.{covered_runs};

/// The rows of depth of a sequence tile it without gap: each position has its row's depth, and neighbours differ. No other
/// rows do.
pub fn depth_rows_tile_a_sequence()
    ensures tile { (records : List RecordValue) (seq length : ℕ) → Tiles (depth records seq) 0 length (runs (depth records seq) 0 length) }
    ensures alone { (records : List RecordValue) (seq length : ℕ) (others : List Run) → Tiles (depth records seq) 0 length others → others ≡ runs (depth records seq) 0 length }
{}

/// The rows of a depth above 0 hold the positions that some record covers, each with its depth, and no other.
pub fn covered_rows_hold_covered_positions()
    ensures held { (records : List RecordValue) (seq length p : ℕ) → p < length → 0 < depth records seq p → (run : Run) × Contains (covered_runs (depth records seq) 0 length) run × (run.start ≤ p) × (p < run.stop) }
    ensures covered { (records : List RecordValue) (seq length : ℕ) (run : Run) → Contains (covered_runs (depth records seq) 0 length) run → (0 < run.value) × ((p : ℕ) → run.start ≤ p → p < run.stop → depth records seq p ≡ run.value) }
{}
