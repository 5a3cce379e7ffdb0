//! The records of a BED file as places beside the rests of their lines, and which columns of them are held.
ghost use Rattle.std.specs.Prelude.{◌≡◌, ◌∷◌, ◌++◌, [], cond, ◌<◌, ℕ, All, map, IfOk, OnOk, ◌||◌, ◌==◌};
ghost use Rattle.std.specs.List.{list_any};
ghost use Rattle.iv_lines.specs.Ordered.{AreInOrder, ordered};
ghost use Rattle.iv_places.specs.Inside.Joins.{grown, joined_places, touches};
ghost use Rattle.iv_places.specs.Cover.{is_covered};
ghost use Rattle.iv_places.specs.Inside.Cover.{AreApart};
ghost use Rattle.iv_places.specs.Inside.Places.{HasBase, IsPlace, records_at};
ghost use Rattle.iv_places.specs.Inside.Ranks.{has_rank, is_marked, is_at};
ghost use Rattle.iv_lines.specs.Intervals.{bare};
ghost use Rattle.iv_lines.specs.Widths.{IsWidth};
ghost use Rattle.iv_places.specs.HeldColumns.{held_as, held_width};

use crate::order::{are_in_order, compare, order_places};
use crate::placed_records::{Place, PlacedRecords};
use crate::rests::Rests;
use iv_lines::{Record, RecordRef};
use std::alloc::{AllocError, Allocator, Global};
use std::marker::Model;

/// Which columns of the records of a file are held.
#[derive(Clone, Copy, Debug, PartialEq, Eq)]
pub enum HeldColumns {
    /// All of them.
    All,
    /// The first three: the interval.
    Interval,
}

impl HeldColumns {
    /// The record with only the columns that are held.
    #[inline(always)]
    pub fn of<'a>(self, feature: &RecordRef<'a>) -> RecordRef<'a>
        ensures { result ≡ held_as self feature.now }
    {
        match self {
            HeldColumns::All => feature.again(),
            HeldColumns::Interval => {
                feature.lemma_of_interval();
                RecordRef::of_interval(feature.interval())
            }
        }
    }

    /// How many columns are held of a record that has so many.
    pub fn width(self, width: u8) -> u8
        ensures { result ≡ held_width self width }
    {
        match self {
            HeldColumns::All => width,
            HeldColumns::Interval => 3,
        }
    }
}

/// Marks a rank in a list of ranks, which may end before it.
fn mark<A: Allocator>(ranks: &mut Vec<bool, A>, seq: u32) -> Result<(), AllocError>
    ensures { OnOk result ((at : ℕ) → is_marked ranks.new.items at ≡ (seq == at || is_marked ranks.old.items at)) }
{
    let rank = seq as usize;
    if rank >= ranks.len() {
        ranks.resize(rank + 1, false)?;
    }
    ranks[rank] = true;
    Ok(())
}

/// A list that is marked at the ranks of these places; a rank past its end is not marked.
pub(crate) fn marked<A: Allocator + Copy>(
    alloc: A,
    places: &[Place],
) -> Result<Vec<bool, A>, AllocError>
    ensures { IfOk result (λ ranks. (seq : ℕ) → is_marked ranks.items seq ≡ list_any (is_at seq) places.now) }
{
    let mut ranks = Vec::new(alloc);
    for place in places {
        mark(&mut ranks, place.interval.seq)?;
    }
    Ok(ranks)
}

/// Joins a place to one that doesn't start past it, if the two overlap or are book-ended, and answers whether they do.
fn take_in(last: &mut Place, place: &Place) -> bool
    ensures touches { result ≡ touches last.old place.now }
    ensures new { last.new ≡ cond (touches last.old place.now) (grown last.old place.now) last.old }
{
    if last.interval.seq != place.interval.seq || last.interval.stop < place.interval.start {
        return false;
    }
    last.interval.stop = last.interval.stop.max(place.interval.stop);
    true
}

/// Joins places that are in order, each to the one before it if the two overlap or are book-ended. It is one pass,
/// and takes no memory.
pub(crate) fn join_places<A: Allocator>(places: &mut Vec<Place, A>)
    ensures { places.new.items ≡ joined_places places.old.items }
{
    places.dedup_by(|place, last| take_in(last, place));
}

/// The records of a BED file, in the order of the file or of a track, all of one width.
///
/// A record takes 16 bytes beside the rest of its line, which is what follows the third TAB: a line feed ends each. At width 3 there
/// are none. Its columns are cut from it if they are asked for.
#[derive(Drop)]
pub struct Places<A: Allocator = Global> {
    places: Vec<Place, A>,
    rests: Rests<A>,
}

impl<A: Allocator> Model for Places<A> {
    ghost use Rattle.iv_lines.specs.Bed.{Bed};
    ghost use Rattle.iv_places.specs.Inside.Places.{ArePlaces, records_at};

    ghost Value = { Bed };

    ghost view = { λ b. record { width = b.rests.width; records = records_at b.rests.width b.rests.bytes b.places.items } };

    ghost invariant = { λ b. ArePlaces b.rests.width b.rests.bytes b.places.items };
}

impl<A: Allocator + Copy> Places<A> {
    /// No record yet. It takes no memory.
    pub fn empty(alloc: A) -> Places<A>
        ensures { result ≡ record { width = 3; records = [] } }
    {
        Places {
            places: Vec::new(alloc),
            rests: Rests::new(alloc, 3),
        }
    }

    /// Records of three columns, in the order of these places.
    pub fn of_intervals(places: Vec<Place, A>) -> Places<A>
        requires { All HasBase places.items }
        ensures { result ≡ record { width = 3; records = records_at 3 [] places.items } }
    {
        let rests = Rests::new(*places.allocator(), 3);
        Places { places, rests }
    }

    /// These records, in their order.
    ///
    /// Each has so many columns, 3 to 6.
    ///
    /// # Errors
    ///
    /// An allocation failed.
    pub fn of_records(alloc: A, width: u8, records: &[Record<A>]) -> Result<Places<A>, AllocError>
        requires known { IsWidth width }
        requires each { All (λ r. r.width ≡ width) records.now }
        ensures { IfOk result (λ places. places ≡ record { width = width; records = records.now }) }
    {
        let mut places = Places::empty(alloc);
        for record in records {
            places.hold(&record.as_ref())?;
        }
        places.set_width(width);
        Ok(places)
    }

    /// The number of columns of each record, 3 to 6.
    pub fn width(&self) -> u8
        ensures value { result ≡ self.now.width }
        ensures known { IsWidth result }
        ensures each { All (λ r. r.width ≡ result) self.now.records }
    {
        self.rests.width()
    }

    /// Adds a record, which has as many columns as the others, after them.
    ///
    /// # Errors
    ///
    /// An allocation failed. The records are then unspecified.
    #[inline(always)]
    pub fn hold(&mut self, feature: &RecordRef<'_>) -> Result<(), AllocError>
        requires { All (λ r. r.width ≡ feature.now.width) self.old.records }
        ensures { OnOk result (self.new ≡ record { width = feature.now.width; records = self.old.records ++ feature.now ∷ [] }) }
    {
        self.rests.set_width(feature.width());
        let place = self.rests.keep(feature)?;
        self.places.push(place)?;
        Ok(())
    }

    /// Says how many columns each record has, which is so if there is a record.
    pub fn set_width(&mut self, width: u8)
        requires known { IsWidth width }
        requires all { All (λ r. r.width ≡ width) self.old.records }
        ensures { self.new ≡ record self.old { width = width } }
    {
        self.rests.set_width(width);
    }

    /// The records, in their order.
    pub fn records(&self) -> PlacedRecords<'_>
        ensures { result ≡ self.now.records }
    {
        PlacedRecords::of_places(
            self.rests.bytes(),
            self.places.as_slice(),
            self.rests.width(),
        )
    }

    /// Which sequences have a record, by rank. A rank past the end of the list has none.
    ///
    /// # Errors
    ///
    /// An allocation failed.
    pub fn ranks(&self, alloc: A) -> Result<Vec<bool, A>, AllocError>
        ensures { IfOk result (λ ranks. (seq : ℕ) → is_marked ranks.items seq ≡ list_any (has_rank seq) self.now.records) }
    {
        marked(alloc, self.places.as_slice())
    }

    /// Drops the columns after the third: only the interval of each record remains.
    ///
    /// The rests aren't looked at, here or by a sort after this call.
    pub fn drop_columns(&mut self)
        ensures { self.new ≡ record self.old { width = 3; records = map bare self.old.records } }
    {
        self.rests.set_width(3);
    }

    /// Sorts the records in the order of a track, in one pass if they are sorted, or at most three if only a
    /// few records of one start are out of order. Rests are looked at only for records of one interval, and none at width 3.
    ///
    /// Memory is taken only if many records of one interval are out of order: 24 bytes for each record, while it sorts.
    pub fn sort(&mut self, alloc: A) -> Result<(), AllocError>
        ensures { OnOk result (self.new ≡ record self.old { records = ordered self.old.records }) }
    {
        let rests = self.rests.bytes();
        let width = self.rests.width();
        if are_in_order(rests, width, &self.places) {
            return Ok(());
        }
        order_places(alloc, rests, width, &mut self.places)?;
        self.places
            .sort_unstable_by(|first, second| compare(rests, width, first, second));
        Ok(())
    }

    /// Joins records that overlap or are book-ended into one, and drops the columns after the third. What is left covers
    /// the same positions, each once. It is one pass, and takes no memory.
    ///
    /// The records are sorted, and what is left is sorted too.
    pub fn join(&mut self)
        requires { AreInOrder self.old.records }
        ensures width { self.new.width ≡ 3 }
        ensures bare { All (λ r. r ≡ bare r) self.new.records }
        ensures order { AreInOrder self.new.records }
        ensures covered { (seq p : ℕ) → is_covered self.new.records seq p ≡ is_covered self.old.records seq p }
        ensures apart { AreApart self.new.records }
    {
        join_places(&mut self.places);
        self.drop_columns();
    }

    /// The places of the records, in their order, and the rests that they mean.
    pub fn into_parts(self) -> (Vec<Place, A>, Rests<A>)
        ensures width { result.1.width ≡ self.width }
        ensures records { records_at result.1.width result.1.bytes result.0.items ≡ self.records }
        ensures all { All (IsPlace result.1.width result.1.bytes) result.0.items }
    {
        (self.places, self.rests)
    }

    /// A lemma for callers' proofs: each record has a base. The call does nothing.
    pub fn lemma_of_bases(&self)
        ensures { All (λ r. r.start < r.stop) self.now.records }
    {
        // After this read the type's invariant is known.
        let _width = self.rests.width();
    }
}
