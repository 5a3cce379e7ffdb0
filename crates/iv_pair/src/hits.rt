//! The records that share a position with an interval.
ghost use Rattle.std.specs.Prelude.{◌≡◌, ◌+◌, ◌<◌, ◌^◌, ◌++◌, length, map};
ghost use Rattle.std.specs.Iterator.{YieldsFirstBy, item_count};
ghost use Rattle.iv_lines.specs.Intervals.{interval_of};
ghost use Rattle.iv_lines.specs.Ordered.{AreInOrder};
ghost use Rattle.iv_lines.specs.RecordValue.{RecordValue};
ghost use Rattle.iv_track.specs.Tracked.{is_from};
ghost use Rattle.iv_track.specs.Regions.{overlaps, hits};

use iv_cover::RecordWalk;
use iv_lines::Interval;
use std::marker::Model;

/// The records of a second file that share a position with an interval, in the order of a track: an iterator.
///
/// A record comes once for each of its copies. Its model is the list of the records that are left.
#[derive(Drop)]
pub struct Hits<'a, W: RecordWalk> {
    // Hits that are before those of the walk.
    carried: &'a [W::Record],
    walk: W,
    meter: W::Meter,
    seq: u32,
    start: u64,
    stop: u64,
}

impl<'a, W: RecordWalk> Model for Hits<'a, W> {
    ghost use Rattle.std.specs.Prelude.{◌+◌, ◌<◌, ◌^◌, ◌++◌, List, length, map};
    ghost use Rattle.iv_lines.specs.Ordered.{AreInOrder};
    ghost use Rattle.iv_lines.specs.RecordValue.{RecordValue};
    ghost use Rattle.iv_track.specs.Regions.{hits};

    ghost Value = { List RecordValue };

    ghost view = { λ h. map W.Record.as_record h.carried.now ++ hits (W.left h.walk) h.seq h.start h.stop };

    ghost invariant = { λ h. AreInOrder (W.left h.walk) × (length h.carried.now + length (W.left h.walk) < 2 ^ 63) };
}

impl<'a, W: RecordWalk> Hits<'a, W> {
    /// The hits that are carried, and after them those among the records of a walk.
    #[inline(always)]
    pub(crate) fn of(carried: &'a [W::Record], walk: W, seq: u32, start: u64, stop: u64) -> Self
        requires ordered { AreInOrder (W.left walk) }
        requires few { length carried.now + length (W.left walk) < 2 ^ 63 }
        ensures { result ≡ map W.Record.as_record carried.now ++ hits (W.left walk) seq start stop }
    {
        Hits {
            carried,
            walk,
            meter: W::meter(),
            seq,
            start,
            stop,
        }
    }

    /// How many steps the walk has taken, at most two for a record with its copies. Those over a file aren't counted.
    pub(crate) fn steps(&self) -> u64 {
        W::read(&self.meter)
    }

    /// A lemma for callers' proofs: 64 bits count those that are left. The call does nothing.
    pub(crate) fn lemma_of_few(&self)
        ensures { length self.now < 2 ^ 64 }
    {
        // After this read the type's invariant is known.
        let _seq = self.seq;
    }
}

impl<'a, W: RecordWalk> Iterator for Hits<'a, W> {
    type Item = W::Record;

    ghost next_gives = { YieldsFirstBy W.Record.as_record (λ h. h) };

    ghost remaining = { item_count (λ h. h) };

    #[inline(always)]
    fn next(&mut self) -> Option<W::Record> {
        if let [hit, others @ ..] = self.carried {
            self.carried = others;
            return Some(W::record_again(hit));
        }
        while let Some(next) = self.walk.next_interval(&mut self.meter) {
            if is_from(next, self.seq, self.stop) {
                return None;
            }
            let feature = self.walk.next(&mut self.meter)?;
            if overlaps(next, self.seq, self.start, self.stop) {
                return Some(feature);
            }
        }
        None
    }
}

/// Whether an interval is on this sequence from this start on, or on a later sequence.
#[inline(always)]
pub(crate) fn is_from(next: Interval, seq: u32, start: u64) -> bool
    ensures { (r : RecordValue) → next ≡ interval_of r → result ≡ is_from seq start r }
{
    seq < next.seq || next.seq == seq && start <= u64::from(next.start)
}

/// Whether an interval is on this sequence and shares a position with another.
#[inline(always)]
fn overlaps(next: Interval, seq: u32, start: u64, stop: u64) -> bool
    ensures { (r : RecordValue) → next ≡ interval_of r → result ≡ overlaps seq start stop r }
{
    next.seq == seq && u64::from(next.start) < stop && start < u64::from(next.stop)
}
