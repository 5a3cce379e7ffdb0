//! The different records of places in order, each with the number of its copies.
ghost use Rattle.std.specs.Prelude.{◌≡◌, ◌^◌, ◌+◌, ◌-◌, ◌<◌, ◌∷◌, IfOk, length, reverse, take};
ghost use Rattle.iv_lines.specs.Ordered.{AreInOrder};
ghost use Rattle.iv_lines.specs.RecordValue.{record_cmp};
ghost use Rattle.iv_places.specs.Inside.Places.{record_at, records_at};
ghost use Rattle.iv_track.specs.Inside.Counted.{AreCounted, grouped};

use crate::by_rest::ByRest;
use iv_ledger::{Ledger, LedgerBuilder};
use iv_places::{Place, Places, Rests};
use std::alloc::{AllocError, Allocator};

/// How many places may be taken before their memory is given back.
const MOST_TAKEN: usize = 65_536;

/// The map of fewer than 2^32 records that are in order, each with the number of its copies.
///
/// It takes the place of the places: their memory is given back while the map grows.
pub(crate) fn count_copies<A: Allocator + Copy>(
    alloc: A,
    places: Places<A>,
) -> Result<Ledger<Place, u32, A, ByRest<A>>, AllocError>
    requires few { length places.records < 2 ^ 32 }
    requires order { AreInOrder places.records }
    ensures { IfOk result (λ entries. AreCounted record_cmp entries places.records) }
{
    let (mut places, rests) = places.into_parts();
    places.reverse();
    let mut entries = LedgerBuilder::new(alloc)?;
    while let Some(place) = places.pop() {
        let copies = take_copies(&mut places, &rests, &place);
        entries.push(place, copies)?;
        give_back(&mut places);
    }
    entries.finish(ByRest::of(rests))
}

/// Takes the copies of a place from the end of places, and counts them with the place itself.
fn take_copies<A: Allocator + Copy>(
    places: &mut Vec<Place, A>,
    rests: &Rests<A>,
    place: &Place,
) -> u32
    requires { length places.old.items < 2 ^ 32 - 1 }
    ensures left { places.new.items ≡ take (length places.old.items + 1 - result) places.old.items }
    ensures counted { grouped record_cmp (records_at rests.now.width rests.now.bytes (place.now ∷ reverse places.old.items)) ≡ (record_at rests.now.width rests.now.bytes place.now, result) ∷ grouped record_cmp (records_at rests.now.width rests.now.bytes (reverse places.new.items)) }
{
    let mut copies = 1;
    while let Some(next) = places.last() {
        if !rests.are_equal(next, place) {
            return copies;
        }
        places.pop();
        copies += 1;
    }
    copies
}

/// Gives the memory back of places that were taken, if they are many.
fn give_back<A: Allocator>(places: &mut Vec<Place, A>)
    ensures { places.new.items ≡ places.old.items }
{
    if places.capacity() - places.len() > MOST_TAKEN {
        places.shrink_to_fit();
    }
}
