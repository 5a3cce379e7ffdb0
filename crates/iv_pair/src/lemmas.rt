//! Lemmas on the definitions: functions that do nothing, whose contracts are the lemmas.
ghost use Rattle.std.specs.Prelude.{◌≡◌, ◌↔◌, ◌<◌, ◌≤◌, ℕ, List, Contains, IsTrue};
ghost use Rattle.iv_lines.specs.RecordValue.{RecordValue};
ghost use Rattle.iv_lines.specs.CoveredPositions.{covers};
ghost use Rattle.iv_cover.specs.Depth.{depth};
ghost use Rattle.iv_cover.specs.Runs.{Run, empty_runs};
ghost use Rattle.iv_track.specs.Regions.{overlaps};

/// A record is a hit of an interval exactly if it covers some position of the interval.
pub fn overlap_is_a_shared_position()
    ensures { (seq start stop : ℕ) (q : RecordValue) → start < stop → q.start < q.stop → IsTrue (overlaps seq start stop q) ↔ ((p : ℕ) × (start ≤ p) × (p < stop) × IsTrue (covers seq p q)) }
{}

/// What subtract leaves of a record are exactly the maximal intervals in it on which the second file's depth is 0.
///
/// Each position of a part has depth 0, each position of depth 0 is in a part, and no two parts touch or overlap.
pub fn uncovered_parts_are_maximal()
    ensures bare { (second : List RecordValue) (a : RecordValue) (part : Run) → Contains (empty_runs (depth second a.seq) a.start a.stop) part → (a.start ≤ part.start) × (part.start < part.stop) × (part.stop ≤ a.stop) × ((p : ℕ) → part.start ≤ p → p < part.stop → depth second a.seq p ≡ 0) }
    ensures all { (second : List RecordValue) (a : RecordValue) (p : ℕ) → a.start ≤ p → p < a.stop → depth second a.seq p ≡ 0 → (part : Run) × Contains (empty_runs (depth second a.seq) a.start a.stop) part × (part.start ≤ p) × (p < part.stop) }
    ensures apart { (second : List RecordValue) (a : RecordValue) (x y : Run) → Contains (empty_runs (depth second a.seq) a.start a.stop) x → Contains (empty_runs (depth second a.seq) a.start a.stop) y → x.start < y.start → x.stop < y.start }
{}
