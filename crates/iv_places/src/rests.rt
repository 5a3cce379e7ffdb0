//! The rests of the lines of records.
ghost use Rattle.std.specs.Prelude.{◌≡◌, ◌++◌, ◌%◌, ℕ, List, [], None, IfOk, OnOk, cond, drop, length, nat_le};
ghost use Rattle.std.specs.Ordering.{is_eq};
ghost use Rattle.iv_lines.specs.Fields.{columns as columns_of};
ghost use Rattle.iv_lines.specs.Inside.RecordValue.{beside_cmp};
ghost use Rattle.iv_lines.specs.Read.{column};
ghost use Rattle.iv_lines.specs.RecordText.{joined_record};
ghost use Rattle.iv_lines.specs.RecordValue.{record_cmp, strand_of};
ghost use Rattle.iv_places.specs.Inside.Places.{IsPlace, record_at};

use crate::order::compare;
use crate::placed_records::{Place, record_of, rest_at};
use iv_lines::{Fields, RecordRef, Strand, columns, compare_rests, name_of_rest, read_strand};
use std::alloc::{AllocError, Allocator, Global};
use std::cmp::Ordering;
use std::marker::Model;

/// The rests of the lines of records, which are what follows the third TAB: a line feed ends each, and each begins at a multiple of four
/// bytes. At width 3 there are none.
#[derive(Drop)]
pub struct Rests<A: Allocator = Global> {
    bytes: Vec<u8, A>,
    width: u8,
}

impl<A: Allocator> Model for Rests<A> {
    ghost use Rattle.iv_places.specs.Inside.Places.{HeldRests};

    ghost Value = { HeldRests };

    ghost view = { λ r. record { width = r.width; bytes = r.bytes.items } };
}

impl<A: Allocator + Copy> Rests<A> {
    /// No rest yet, of records of so many columns, 3 to 6.
    pub fn new(alloc: A, width: u8) -> Self
        ensures { result ≡ record { width = width; bytes = [] } }
    {
        Rests {
            bytes: Vec::new(alloc),
            width,
        }
    }

    /// How many columns the records have, 3 to 6.
    pub fn width(&self) -> u8
        ensures { result ≡ self.now.width }
    {
        self.width
    }

    /// Says how many columns the records have.
    pub(crate) fn set_width(&mut self, width: u8)
        ensures { self.new ≡ record self.old { width = width } }
    {
        self.width = width;
    }

    /// All rests, each with the line feed that ends it.
    #[inline(always)]
    pub(crate) fn bytes(&self) -> &[u8]
        ensures { result.now ≡ self.now.bytes }
    {
        self.bytes.as_slice()
    }

    /// Holds the rest of a record of this width, and gives the record's place. Each other place means what it meant, also if there
    /// is no memory for this one.
    ///
    /// # Errors
    ///
    /// An allocation failed, or the record has another width.
    #[inline(always)]
    pub fn keep(&mut self, feature: &RecordRef<'_>) -> Result<Place, AllocError>
        ensures kept { (k : Place) → IsPlace self.old.width self.old.bytes k → IsPlace self.new.width self.new.bytes k × (record_at self.new.width self.new.bytes k ≡ record_at self.old.width self.old.bytes k) }
        ensures key { IfOk result (λ k. IsPlace self.new.width self.new.bytes k × (record_at self.new.width self.new.bytes k ≡ feature.now)) }
        ensures width { self.new.width ≡ self.old.width }
    {
        if feature.width() != self.width {
            return Err(AllocError);
        }
        feature.lemma_of_interval();
        feature.lemma_of_columns();
        let Some(rest) = feature.rest() else {
            return Ok(Place::of_interval(feature.interval()));
        };
        pad(&mut self.bytes)?;
        let Ok(from) = u32::try_from(self.bytes.len() / 4) else {
            return Err(AllocError);
        };
        self.bytes.extend_from_slice(rest)?;
        self.bytes.push(b'\n')?;
        Ok(Place {
            interval: feature.interval(),
            rest: from,
        })
    }

    /// The record at a place of these rests.
    #[inline(always)]
    pub fn record(&self, place: Place) -> RecordRef<'_>
        requires { IsPlace self.now.width self.now.bytes place }
        ensures { result ≡ record_at self.now.width self.now.bytes place }
    {
        record_of(self.bytes.as_slice(), self.width, place)
    }

    /// Compares a record with that at a place, in the order of a track. Rests are looked at only if the intervals are equal.
    #[inline(always)]
    pub fn compare(&self, feature: &RecordRef<'_>, place: &Place) -> Ordering
        ensures { result ≡ record_cmp feature.now (record_at self.now.width self.now.bytes place.now) }
    {
        let intervals = feature.interval().cmp(&place.interval);
        if intervals.is_ne() {
            return intervals;
        }
        compare_beside(self.bytes.as_slice(), self.width, feature, place)
    }

    /// Whether the records at two places are equal.
    #[inline(always)]
    pub fn are_equal(&self, first: &Place, second: &Place) -> bool
        ensures { result ≡ is_eq (record_cmp (record_at self.now.width self.now.bytes first.now) (record_at self.now.width self.now.bytes second.now)) }
    {
        compare(self.bytes.as_slice(), self.width, first, second).is_eq()
    }
}

/// Adds line feeds up to a multiple of four bytes.
#[inline(always)]
fn pad<A: Allocator>(bytes: &mut Vec<u8, A>) -> Result<(), AllocError>
    ensures kept { (more : List ℕ) × (bytes.new.items ≡ bytes.old.items ++ more) }
    ensures fours { OnOk result (length bytes.new.items % 4 ≡ 0) }
{
    let missing = (4 - bytes.len() % 4) % 4;
    for _padded in 0..missing {
        bytes.push(b'\n')?;
    }
    Ok(())
}

/// Compares the columns after the third of a record with those of a place. At width 3 no rest is looked at.
#[inline(never)]
fn compare_beside(rests: &[u8], width: u8, feature: &RecordRef<'_>, place: &Place) -> Ordering
    ensures { result ≡ beside_cmp feature.now (record_at width rests.now place.now) }
{
    feature.lemma_of_columns();
    let own_width = feature.width();
    if width < 4 && own_width < 4 {
        return own_width.cmp(&width);
    }
    let rest = rest_at(rests, *place);
    if own_width != width {
        return compare_widths(feature, width, rest);
    }
    let Some(own_rest) = feature.rest() else {
        return compare_widths(feature, width, rest);
    };
    compare_rests(width, own_rest, rest)
}

/// Compares the columns after the third of a record with those of a rest of another width.
fn compare_widths(feature: &RecordRef<'_>, width: u8, rest: &[u8]) -> Ordering
    ensures { result ≡ beside_cmp feature.now (joined_record 0 0 0 rest.now width) }
{
    let (score, strand) = cut_rest(rest, width);
    let scores = feature.score().cmp(score);
    let strands = feature.strand().cmp(&strand);
    let widths = feature.width().cmp(&width);
    feature
        .name()
        .cmp(name_of_rest(width, rest))
        .then(scores.then(strands.then(widths)))
}

/// The next column, or an empty one past the last.
fn next_or_empty<'a>(columns: &mut Fields<'a>) -> &'a [u8]
    ensures value { result.now ≡ column columns.old 0 }
    ensures rest { columns.new ≡ drop 1 columns.old }
{
    columns.next().unwrap_or(&[])
}

/// Score and strand of a rest, as far as the width goes.
fn cut_rest(rest: &[u8], width: u8) -> (&[u8], Option<Strand>)
    ensures score { result.0.now ≡ cond (nat_le 5 width) (column (columns_of rest.now) 1) [] }
    ensures strand { result.1 ≡ cond (nat_le 6 width) (strand_of (column (columns_of rest.now) 2)) None }
{
    let mut columns = columns(rest);
    let _name = next_or_empty(&mut columns);
    if width < 5 {
        return (&[], None);
    }
    let score = next_or_empty(&mut columns);
    if width < 6 {
        return (score, None);
    }
    (score, read_strand(next_or_empty(&mut columns)))
}
