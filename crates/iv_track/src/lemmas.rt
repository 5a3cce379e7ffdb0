//! Lemmas on the definitions: functions that do nothing, whose contracts are the lemmas.
ghost use Rattle.std.specs.Prelude.{◌≡◌, ◌≢◌, ◌+◌, ◌<◌, List};
ghost use Rattle.iv_lines.specs.Ordered.{added, copies, AreInOrder};
ghost use Rattle.iv_lines.specs.RecordValue.{RecordValue};
ghost use Rattle.iv_track.specs.Tracked.{removed};

/// A record that is added is one more copy of just that record, and the records stay in order.
pub fn one_record_added()
    ensures in_order { (records : List RecordValue) (r : RecordValue) → AreInOrder records → AreInOrder (added records r) }
    ensures one_more { (records : List RecordValue) (r : RecordValue) → copies (added records r) r ≡ copies records r + 1 }
    ensures others { (records : List RecordValue) (r q : RecordValue) → q ≢ r → copies (added records r) q ≡ copies records q }
{}

/// A record that is removed is one copy fewer of just that record, and the records stay in order.
///
/// If it has no copy, nothing changes.
pub fn one_record_removed()
    ensures in_order { (records : List RecordValue) (r : RecordValue) → AreInOrder records → AreInOrder (removed records r) }
    ensures one_less { (records : List RecordValue) (r : RecordValue) → 0 < copies records r → copies (removed records r) r + 1 ≡ copies records r }
    ensures others { (records : List RecordValue) (r q : RecordValue) → q ≢ r → copies (removed records r) q ≡ copies records q }
    ensures absent { (records : List RecordValue) (r : RecordValue) → copies records r ≡ 0 → removed records r ≡ records }
{}
