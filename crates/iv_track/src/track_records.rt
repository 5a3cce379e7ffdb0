//! Walks over the records of a track: with their copies, or over the different ones.
ghost use Rattle.std.specs.Prelude.{◌≡◌, ◌<◌, ◌^◌, length};
ghost use Rattle.std.specs.Iterator.{YieldsFirst};
ghost use Rattle.iv_ledger.specs.Steps.{TakesUpTo, ticked};
ghost use Rattle.iv_track.specs.Lent.{again};
ghost use Rattle.std.specs.Map.Iter.{TakesFirst};

use crate::by_rest::ByRest;
use iv_ledger::{Meter, Walk};
use iv_lines::RecordRef;
use iv_places::Place;
use std::alloc::{Allocator, Global};
use std::marker::Model;

/// A walk over records of a track, in its order: an iterator whose `next` counts its steps.
///
/// A record comes once for each of its copies. Its model is the list of the records that are left.
#[derive(Drop)]
pub struct TrackRecords<'a, A: Allocator + Copy = Global> {
    pub(crate) entries: Walk<'a, Place, u32, A, ByRest<A>>,
    // The record that came last, and how many copies of it remain.
    pub(crate) held: Option<(RecordRef<'a>, u32)>,
}

impl<'a, A: Allocator + Copy> Model for TrackRecords<'a, A> {
    ghost use Rattle.std.specs.Prelude.{List, ◌++◌, ◌<◌, ◌^◌, All, length};
    ghost use Rattle.std.specs.Map.{values_of};
    ghost use Rattle.iv_lines.specs.RecordValue.{RecordValue};
    ghost use Rattle.iv_track.specs.Copies.{expanded};
    ghost use Rattle.iv_track.specs.Lent.{again};

    ghost Value = { List RecordValue };

    ghost view = { λ w. again w.held ++ expanded w.entries };

    ghost invariant = { λ w. All (λ n. 0 < n) (values_of w.entries) × (length (again w.held ++ expanded w.entries) < 2 ^ 32) };
}

impl<'a, A: Allocator + Copy> TrackRecords<'a, A> {
    /// The next record, `None` after the last. A call is at most one step.
    #[inline(always)]
    pub fn next(&mut self, meter: &mut Meter) -> Option<RecordRef<'a>>
        ensures feature { YieldsFirst (λ records. records) self.old result self.new }
        ensures steps { TakesUpTo meter.old meter.new 1 }
    {
        if let Some(next) = next_held(&mut self.held) {
            return Some(next);
        }
        let (feature, count) = self.entries.next(meter)?;
        if *count > 1 {
            self.held = Some((feature.again(), *count - 1));
        }
        Some(feature)
    }

    /// The same walk once more, from where it is now. It is no step, and takes no memory.
    pub fn again(&self) -> TrackRecords<'a, A>
        ensures { result ≡ self.now }
    {
        TrackRecords {
            entries: self.entries.again(),
            held: match &self.held {
                Some((feature, left)) => Some((feature.again(), *left)),
                None => None,
            },
        }
    }

    /// A lemma for callers' proofs: 32 bits count the records that are left. The call does nothing.
    pub fn lemma_of_few(&self)
        ensures { length self.now < 2 ^ 32 }
    {
        // After this read the type's invariant is known.
        let _held = &self.held;
    }
}

/// The next copy of the record that came last, if there is one.
#[inline(always)]
fn next_held<'a>(held: &mut Option<(RecordRef<'a>, u32)>) -> Option<RecordRef<'a>>
    ensures { YieldsFirst again held.old result held.new }
{
    let (feature, left) = held.take()?;
    if left == 0 {
        return None;
    }
    let next = feature.again();
    *held = Some((feature, left - 1));
    Some(next)
}

/// A walk over the different records of a track, in its order: an iterator whose `next` counts its steps.
///
/// A record comes once, with the number of its copies. Its model is the list of these pairs that are left.
#[derive(Drop)]
pub struct TrackEntries<'a, A: Allocator + Copy = Global> {
    pub(crate) entries: Walk<'a, Place, u32, A, ByRest<A>>,
}

impl<'a, A: Allocator + Copy> Model for TrackEntries<'a, A> {
    ghost use Rattle.std.specs.Prelude.{List, ℕ};
    ghost use Rattle.iv_lines.specs.RecordValue.{RecordValue};

    ghost Value = { List (RecordValue × ℕ) };

    ghost view = { λ w. w.entries };
}

impl<'a, A: Allocator + Copy> TrackEntries<'a, A> {
    /// The next record and how many copies of it there are, `None` after the last. Each call is one step, the last one too.
    pub fn next(&mut self, meter: &mut Meter) -> Option<(RecordRef<'a>, u32)>
        ensures next { TakesFirst (λ p. p) self.old result self.new }
        ensures step { meter.new ≡ ticked meter.old }
    {
        let (feature, copies) = self.entries.next(meter)?;
        Some((feature, *copies))
    }
}
