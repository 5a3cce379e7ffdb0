//! Changes of depth, and their edits.
ghost use Rattle.std.specs.Prelude.{◌≡◌, ◌≢◌, ◌+◌, ℤ, pos, negsuc, ◌≤ℤ◌, ◌^◌, List, ◌∷◌, Some, OnOk};
ghost use Rattle.iv_lines.specs.RecordValue.{RecordValue};
ghost use Rattle.iv_cover.specs.Depth.{depth};
ghost use Rattle.iv_ledger.specs.Entries.{pair_cmp, value_at};
ghost use Rattle.iv_ledger.specs.Steps.{TakesUpTo};
ghost use Rattle.iv_depth.specs.Changes.{AreChangesOf};
ghost use Rattle.iv_depth.specs.Inside.Changes.{AreChanges, AreChangesBefore, Bumps, Shifts};
ghost use Rattle.iv_depth.specs.Inside.Edges.{AreEdgesOf};

use crate::edges::Edges;
use iv_ledger::{Ledger, LedgerBuilder, Meter};
use iv_lines::RecordRef;
use std::alloc::{AllocError, Allocator};

/// Net changes of depth, by the rank of a sequence and a position on it, from 0. None is 0.
pub(crate) type Changes<A> = Ledger<(u32, u32), i64, A>;

/// Adds the net changes at the edges of the records on the sequence of this rank to those on all sequences before it.
pub(crate) fn push_changes<A: Allocator + Copy>(
    built: &mut LedgerBuilder<(u32, u32), i64, A>,
    seq: u32,
    mut edges: Edges<'_>,
) -> Result<(), AllocError>
    requires { (records : List RecordValue) × AreChangesBefore seq records built.old × AreEdgesOf (depth records seq) edges }
    ensures { OnOk result ((records : List RecordValue) → AreChangesBefore seq records built.old → AreEdgesOf (depth records seq) edges.entry → AreChangesBefore (seq + 1) records built.new) }
{
    while let Some((position, change)) = edges.next_change() {
        built.push((seq, position), change)?;
    }
    Ok(())
}

/// One more record: depth rises by 1 at its start and falls by 1 at its stop. At most 4 steps.
///
/// After a refusal one of the two may be made.
pub(crate) fn add_record<A: Allocator + Copy>(
    changes: &mut Changes<A>,
    feature: &RecordRef<'_>,
    meter: &mut Meter,
) -> Result<(), AllocError>
    requires { AreChanges changes.old }
    ensures ok { OnOk result ((records : List RecordValue) → AreChangesOf records changes.old → AreChangesOf (feature.now ∷ records) changes.new) }
    ensures steps { TakesUpTo meter.old meter.new 4 }
{
    shift(changes, feature, 1, meter)
}

/// One record less. At most 4 steps.
///
/// After a refusal one of the two changes may be made.
pub(crate) fn remove_record<A: Allocator + Copy>(
    changes: &mut Changes<A>,
    feature: &RecordRef<'_>,
    meter: &mut Meter,
) -> Result<(), AllocError>
    requires { AreChanges changes.old }
    ensures ok { OnOk result ((records : List RecordValue) → AreChangesOf (feature.now ∷ records) changes.old → AreChangesOf records changes.new) }
    ensures steps { TakesUpTo meter.old meter.new 4 }
{
    shift(changes, feature, -1, meter)
}

/// Adds 1 or -1 to the depth of each position that the record covers. At most 4 steps.
fn shift<A: Allocator + Copy>(
    changes: &mut Changes<A>,
    feature: &RecordRef<'_>,
    by: i64,
    meter: &mut Meter,
) -> Result<(), AllocError>
    requires known { AreChanges changes.old }
    requires by { (negsuc 0 ≤ℤ by) × (by ≤ℤ pos 1) × (by ≢ pos 0) }
    ensures ok { OnOk result (Shifts feature.now by changes.old changes.new) }
    ensures steps { TakesUpTo meter.old meter.new 4 }
{
    feature.lemma_of_interval();
    bump(changes, (feature.seq(), feature.start() as u32), by, meter)?;
    bump(changes, (feature.seq(), feature.stop() as u32), -by, meter)
}

/// Adds 1 or -1 to the change at a key. An entry that becomes 0 is taken out. At most 2 steps.
///
/// Only a key without a change takes memory. After a refusal the changes are as before.
fn bump<A: Allocator + Copy>(
    changes: &mut Changes<A>,
    key: (u32, u32),
    by: i64,
    meter: &mut Meter,
) -> Result<(), AllocError>
    requires by { (negsuc 0 ≤ℤ by) × (by ≤ℤ pos 1) × (by ≢ pos 0) }
    requires small { (z : ℤ) → value_at pair_cmp changes.old key ≡ Some z → (negsuc (2 ^ 40) ≤ℤ z) × (z ≤ℤ pos (2 ^ 40)) }
    ensures ok { OnOk result (Bumps changes.old changes.new key by) }
    ensures steps { TakesUpTo meter.old meter.new 2 }
{
    // Most keys are new, and then this one call is enough.
    let Some(before) = changes.put(key, by, meter)? else {
        return Ok(());
    };
    let change = before + by;
    let cancels = change == 0;
    if cancels {
        changes.take(&key, meter);
    } else {
        let _ = changes.set(&key, change, meter);
    }
    Ok(())
}
