//! How many records there are of each length.
ghost use Rattle.std.specs.Prelude.{◌≡◌, ℕ, ◌+◌, ◌-◌, ◌<◌, ◌≤◌, ◌^◌, length, OnOk, OnErr, IfOk};
ghost use Rattle.iv_lines.specs.Ordered.{added_by};
ghost use Rattle.iv_lines.specs.Inside.Ordered.{copies_by};
ghost use Rattle.iv_track.specs.Copies.{removed_by, expanded};
ghost use Rattle.iv_ledger.specs.Steps.{TakesUpTo};
ghost use Rattle.iv_ledger.specs.Entries.{pair_cmp};
ghost use Rattle.iv_pair.specs.Inside.Lengths.{AreLengths, IsTally, length_of};

use iv_ledger::{Ledger, Meter};
use iv_lines::BedRecord;
use iv_track::Track;
use std::alloc::{AllocError, Allocator};

/// The lengths of records, by the rank of their sequence, with how many records have each.
pub(crate) type Lengths<A> = Ledger<(u32, u32), u32, A>;

/// The rank of a record's sequence, and how many positions the record has.
pub(crate) fn length_of<R: BedRecord>(feature: &R) -> (u32, u32)
    ensures is { result ≡ length_of (R.as_record feature.now) }
    ensures small { result.1 < 2 ^ 32 }
{
    let feature = feature.to_ref();
    feature.lemma_of_interval();
    (feature.seq(), (feature.stop() - feature.start()) as u32)
}

/// Counts one record more of this length. At most 2 steps.
///
/// # Errors
///
/// An allocation failed, which happens only if no record has this length. The lengths are unchanged.
pub(crate) fn raise<A: Allocator + Copy>(
    lengths: &mut Lengths<A>,
    key: (u32, u32),
    meter: &mut Meter,
) -> Result<(), AllocError>
    requires tally { IsTally lengths.old }
    requires small { key.1 < 2 ^ 32 }
    requires room { copies_by pair_cmp (expanded lengths.old) key < 2 ^ 32 - 1 }
    ensures ok { OnOk result (IsTally lengths.new × (expanded lengths.new ≡ added_by pair_cmp (expanded lengths.old) key)) }
    ensures memory { OnErr result (copies_by pair_cmp (expanded lengths.old) key ≡ 0) }
    ensures err { OnErr result (lengths.new ≡ lengths.old) }
    ensures steps { TakesUpTo meter.old meter.new 2 }
{
    let count = lengths.get(&key, meter).copied().unwrap_or(0);
    lengths.put(key, count + 1, meter)?;
    Ok(())
}

/// Counts one record less of this length, which some record has. At most 2 steps, and no memory.
pub(crate) fn lower<A: Allocator + Copy>(
    lengths: &mut Lengths<A>,
    key: (u32, u32),
    meter: &mut Meter,
)
    requires tally { IsTally lengths.old }
    requires there { 0 < copies_by pair_cmp (expanded lengths.old) key }
    ensures lowered { IsTally lengths.new × (expanded lengths.new ≡ removed_by pair_cmp (expanded lengths.old) key) }
    ensures steps { TakesUpTo meter.old meter.new 2 }
{
    let Some(count) = lengths.get(&key, meter).copied() else {
        unreachable!()
    };
    if count == 1 {
        lengths.take(&key, meter);
    } else {
        let _ = lengths.set(&key, count - 1, meter);
    }
}

/// The lengths of a track's records. Only the ledger is allocated.
pub(crate) fn lengths_of<A: Allocator + Copy>(
    alloc: A,
    track: &Track<A>,
    meter: &mut Meter,
) -> Result<Lengths<A>, AllocError>
    requires { length track.now.records < 2 ^ 32 - 1 }
    ensures { IfOk result (λ lengths. AreLengths lengths track.now.records) }
{
    let mut lengths = Ledger::new(alloc);
    let mut records = track.walk(0, 0, meter);
    while let Some(record) = records.next(meter) {
        raise(&mut lengths, length_of(&record), meter)?;
    }
    Ok(lengths)
}

/// The greatest length that is counted on the sequence of this rank: no record on it is longer.
pub(crate) fn longest<A: Allocator + Copy>(lengths: &Lengths<A>, seq: u32, meter: &mut Meter) -> u64
    requires { IsTally lengths.now }
    ensures { (k : ℕ × ℕ) → k.0 ≡ seq → 0 < copies_by pair_cmp (expanded lengths.now) k → k.1 ≤ result }
{
    match lengths.at_or_before(&(seq, u32::MAX), meter) {
        Some((key, _)) => {
            let (key_seq, most) = *key;
            if key_seq == seq { u64::from(most) } else { 0 }
        }
        None => 0,
    }
}
