//! About how long the records of a track are.
ghost use Rattle.std.specs.Prelude.{◌≡◌, ◌+◌, ◌-◌, ◌^◌, ◌<◌, ◌≤◌, ℕ, [], All, length, slice_index_or, slice_set};
ghost use Rattle.std.specs.Int.Count.{count_leading_zeros};
ghost use Rattle.iv_lines.specs.RecordValue.{IsPlaced};
ghost use Rattle.iv_track.specs.Inside.LengthClasses.{AreClasses, length_class};

use iv_lines::{Interval, RecordRef};
use iv_places::PlacedRecords;
use std::marker::Model;

/// How many binary digits the number of a record's positions has, 1 to 32.
pub(crate) fn length_class(feature: &RecordRef<'_>) -> usize
    ensures is { result ≡ length_class feature.now }
    ensures within { result < 33 }
{
    feature.lemma_of_interval();
    class_of_length(feature.stop() - feature.start())
}

/// How many binary digits a number of positions has, which is below 2^32.
fn class_of_length(positions: u64) -> usize
    requires { positions < 2 ^ 32 }
    ensures is { result ≡ 32 - count_leading_zeros 32 positions }
    ensures within { result < 33 }
{
    let positions = positions as u32;
    (32 - positions.leading_zeros()) as usize
}

/// For each number of binary digits, up to 32, how many records of a track have so many positions. Copies are counted.
///
/// A record is in the class of its number of digits. Its model is the list of the 33 counters.
#[derive(Drop)]
pub(crate) struct LengthClasses {
    counts: [u32; 33],
}

impl Model for LengthClasses {
    ghost use Rattle.std.specs.Prelude.{List, ℕ};

    ghost Value = { List ℕ };

    ghost view = { λ c. c.counts };
}

impl LengthClasses {
    /// The classes of no record.
    pub(crate) fn new() -> Self
        ensures { AreClasses result [] }
    {
        LengthClasses { counts: [0; 33] }
    }

    /// The classes of records.
    pub(crate) fn of(records: &PlacedRecords<'_>) -> Self
        requires { length records.now < 2 ^ 32 }
        ensures classes { AreClasses result records.now }
        ensures placed { All IsPlaced records.now }
    {
        let mut classes = LengthClasses::new();
        for place in records.places() {
            // After these reads the bounds of all three are known.
            let Interval {
                seq: _seq,
                start,
                stop,
            } = place.interval;
            classes.add(class_of_length(u64::from(stop - start)));
        }
        classes
    }

    /// Counts one record more of a class.
    pub(crate) fn add(&mut self, class: usize)
        requires class { class < 33 }
        requires room { slice_index_or self.old class 0 < 2 ^ 32 - 1 }
        ensures { self.new ≡ slice_set self.old class (slice_index_or self.old class 0 + 1) }
    {
        self.counts[class] += 1;
    }

    /// Counts one record less of a class, of which there is one.
    pub(crate) fn remove(&mut self, class: usize)
        requires class { class < 33 }
        requires some { 0 < slice_index_or self.old class 0 }
        ensures { self.new ≡ slice_set self.old class (slice_index_or self.old class 0 - 1) }
    {
        self.counts[class] -= 1;
    }

    /// A number of positions that no record has: the least power of 2 above all lengths, 0 if there is no record.
    pub(crate) fn bound(&self) -> u64
        ensures above { (k : ℕ) → 0 < slice_index_or self.now k 0 → 2 ^ k ≤ result }
        ensures near { 0 < result → (k : ℕ) × (0 < slice_index_or self.now k 0) × (result ≡ 2 ^ k) }
    {
        let mut class = 33;
        while class > 0 {
            class -= 1;
            if self.counts[class] > 0 {
                return 1 << class;
            }
        }
        0
    }
}
