//! The order of a track among places, and the sorts by it.
ghost use Rattle.std.specs.Prelude.{◌≡◌, ◌↔◌, IsTrue, IfOk, length, map, ◌<◌};
ghost use Rattle.std.specs.List.Sorted.{IsPermutation};
ghost use Rattle.iv_lines.specs.RecordValue.{record_cmp};
ghost use Rattle.iv_lines.specs.Inside.RecordValue.{beside_cmp};
ghost use Rattle.iv_places.specs.Inside.Places.{AreInOrder, place_of, record_at};

use crate::placed_records::{Place, rest_at};
use iv_lines::{compare_rests, name_of_rest};
use std::alloc::{AllocError, Allocator};
use std::cmp::Ordering;

/// Compares the records at two places by their columns after the third. At width 3 no rest is looked at.
fn compare_beside(rests: &[u8], width: u8, first: &Place, second: &Place) -> Ordering
    ensures { result ≡ beside_cmp (record_at width rests.now first.now) (record_at width rests.now second.now) }
{
    if width < 4 {
        return Ordering::Equal;
    }
    compare_rests(width, rest_at(rests, *first), rest_at(rests, *second))
}

/// Compares the records of two places in the order of a track.
#[inline(always)]
pub(crate) fn compare(rests: &[u8], width: u8, first: &Place, second: &Place) -> Ordering
    ensures { result ≡ record_cmp (record_at width rests.now first.now) (record_at width rests.now second.now) }
{
    let intervals = first.interval.cmp(&second.interval);
    intervals.then_with(|| compare_beside(rests, width, first, second))
}

/// Whether places are in the order of a track.
#[inline(always)]
pub(crate) fn are_in_order(rests: &[u8], width: u8, places: &[Place]) -> bool
    ensures { IsTrue result ↔ AreInOrder width rests.now places.now }
{
    places.is_sorted_by(|first, second| !compare(rests, width, second, first).is_lt())
}

/// Brings places into the order of a track, or near to it: a sort after it mostly only sees that they are in order.
///
/// Records of one interval are the slow part of a sort, since each comparison cuts two rests. A few of them are moved past each
/// other. If there are many of one interval, they are sorted by a few bytes of their names, which takes memory.
pub(crate) fn order_places<A: Allocator + Copy>(
    alloc: A,
    rests: &[u8],
    width: u8,
    places: &mut Vec<Place, A>,
) -> Result<(), AllocError>
    ensures { IsPermutation places.old.items places.new.items }
{
    order_ties(rests, width, places);
    if are_in_order(rests, width, places) {
        return Ok(());
    }
    places.sort_unstable_by(|first, second| first.interval.cmp(&second.interval));
    if order_ties(rests, width, places) {
        return Ok(());
    }
    sort_by_prefix_keys(alloc, rests, width, places)
}

/// Moves each place past a few others of its start that belong after it. So files that are in order except for records of
/// one start, as most tools leave them, are then in the order of a track. It stops if there are more than a few, and answers
/// whether it came to the end.
fn order_ties<A: Allocator>(rests: &[u8], width: u8, places: &mut Vec<Place, A>) -> bool
    ensures { IsPermutation places.old.items places.new.items }
{
    order_neighbors(
        places.as_mut_slice(),
        |before: &Place, here: &Place| -> bool {
            before.interval.seq == here.interval.seq
                && before.interval.start == here.interval.start
                && compare(rests, width, before, here).is_gt()
        },
    )
}

/// A place with its prefix key, a few bytes of its record's name as a number: of two names, the one with the lesser key is first.
#[derive(Clone, Copy)]
pub(crate) struct PrefixKeyed {
    head: u64,
    place: Place,
}

/// Sorts places by interval, and then by a few bytes of their names, so that hardly any comparison looks at two rests.
///
/// It takes 24 bytes for each place while it sorts.
///
/// # Errors
///
/// An allocation failed. The places are as they were.
pub(crate) fn sort_by_prefix_keys<A: Allocator + Copy>(
    alloc: A,
    rests: &[u8],
    width: u8,
    places: &mut Vec<Place, A>,
) -> Result<(), AllocError>
    ensures { IsPermutation places.old.items places.new.items }
{
    let mut keyed = with_prefix_keys(alloc, rests, width, places)?;
    keyed.sort_unstable_by(|first, second| compare_keyed(rests, width, first, second));
    write_places(places, &keyed);
    Ok(())
}

/// The places, each with the bytes of its name that follow those that all names begin with.
fn with_prefix_keys<A: Allocator + Copy>(
    alloc: A,
    rests: &[u8],
    width: u8,
    places: &[Place],
) -> Result<Vec<PrefixKeyed, A>, AllocError>
    ensures { IfOk result (λ keyed. map place_of keyed.items ≡ places.now) }
{
    let shared = shared_by_all(rests, width, places);
    let mut keyed = Vec::with_capacity(alloc, places.len())?;
    for place in places {
        keyed.push(PrefixKeyed {
            head: key_of(name_of_rest(width, rest_at(rests, *place)), shared),
            place: *place,
        })?;
    }
    Ok(keyed)
}

/// How many bytes all names have in common at the front.
fn shared_by_all(rests: &[u8], width: u8, places: &[Place]) -> usize {
    let Some((first, others)) = places.split_first() else {
        return 0;
    };
    let first = name_of_rest(width, rest_at(rests, *first));
    let mut shared = first.len();
    for place in others {
        shared = shared_by_two(first, name_of_rest(width, rest_at(rests, *place)), shared);
    }
    shared
}

/// How many bytes two names have in common at the front, at most so many.
fn shared_by_two(first: &[u8], second: &[u8], most: usize) -> usize {
    let most = most.min(first.len()).min(second.len());
    for at in 0..most {
        if first[at] != second[at] {
            return at;
        }
    }
    most
}

/// Eight bytes of a name from one on, as a number; those past its end are 0.
fn key_of(name: &[u8], from: usize) -> u64 {
    let mut head = 0;
    let mut bytes = name.iter().skip(from);
    for _ in 0..8 {
        head = head << 8 | u64::from(bytes.next().copied().unwrap_or(0));
    }
    head
}

/// Compares by interval, then by prefix key, then by all columns.
fn compare_keyed(rests: &[u8], width: u8, first: &PrefixKeyed, second: &PrefixKeyed) -> Ordering {
    first
        .place
        .interval
        .cmp(&second.place.interval)
        .then(first.head.cmp(&second.head))
        .then_with(|| compare(rests, width, &first.place, &second.place))
}

/// Writes the places of these over as many others.
fn write_places<A: Allocator>(places: &mut Vec<Place, A>, keyed: &[PrefixKeyed])
    requires { length places.old.items ≡ length keyed.now }
    ensures { places.new.items ≡ map place_of keyed.now }
{
    for index in 0..keyed.len() {
        places[index] = keyed[index].place;
    }
}

/// The most items that one is moved past.
const MOST_MOVES: usize = 16;

/// Moves each item past those right before it that belong after it, and answers whether it came to the end. It stops at an item that
/// is moved past 16.
///
/// Items that are in order except for a few neighbours, as most tools leave them, are then in order, and a sort only looks at them.
pub fn order_neighbors<T: Copy, F: Fn(&T, &T) -> bool>(items: &mut [T], belongs_after: F) -> bool
    requires { F.IsAlwaysCallable belongs_after }
    ensures permutation { IsPermutation items.old items.new }
    ensures len { length items.new ≡ length items.old }
{
    for index in 1..items.len() {
        if !move_forward(items, index, &belongs_after) {
            return false;
        }
    }
    true
}

/// Moves the item at an index past a few before it that belong after it, and answers whether that was enough.
fn move_forward<T: Copy, F: Fn(&T, &T) -> bool>(
    items: &mut [T],
    index: usize,
    belongs_after: &F,
) -> bool
    requires in_range { index < length items.old }
    requires callable { F.IsAlwaysCallable belongs_after.now }
    ensures { IsPermutation items.old items.new }
{
    let mut at = index;
    while at > 0 && index - at < MOST_MOVES {
        if !belongs_after(&items[at - 1], &items[at]) {
            return true;
        }
        items.swap(at - 1, at);
        at -= 1;
    }
    index - at < MOST_MOVES
}
