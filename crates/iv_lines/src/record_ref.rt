//! A record that lends the rest of its line, and how it is read from one.
ghost use Rattle.std.specs.Prelude.{◌≡◌, ◌<◌, ◌≤◌, ◌↔◌, ◌≢◌, ◌++◌, [], None, IsTrue, MatchOption, IfOk, IfSome, IsOk, IsSome, codes, cond, drop, length, nat_le};
ghost use Rattle.iv_lines.specs.RecordText.{joined_record, rest_text};
ghost use Rattle.iv_lines.specs.RecordValue.{record_cmp, strand_of, IsPlaced, IsRecord, part};
ghost use Rattle.iv_lines.specs.Read.{Fits, read, bad_text, column, AreSoundColumns, IsWithin};
ghost use Rattle.iv_lines.specs.Inside.Read.{AreCells};
ghost use Rattle.iv_lines.specs.Inside.RecordValue.{beside_cmp, strand_cmp};
ghost use Rattle.std.specs.Cmp.Lexicographic.{slice_cmp};
ghost use Rattle.std.specs.Option.{option_cmp};
ghost use Rattle.std.specs.Ordering.{nat_cmp, ordering_then};
ghost use Rattle.iv_lines.specs.Intervals.{interval_of, record_of_interval};
ghost use Rattle.iv_lines.specs.Lines.{HasNoFeed};
ghost use Rattle.iv_lines.specs.Fields.{columns as columns_of};
ghost use Rattle.iv_lines.specs.Widths.{IsWidth};

use crate::fault::RecordFault;
use crate::genome::Genome;
use crate::interval::Interval;
use crate::lines::{Fields, columns, split_first_column};
use crate::number::read_number;
use crate::record::Record;
use std::alloc::{AllocError, Allocator};
use std::cmp::Ordering;
use std::marker::Model;

/// The strand of a record: the sixth column of a BED line.
///
/// In the order of their bytes `Plus` comes before `Minus`, and `Dot` is last.
#[derive(Clone, Copy, Debug, PartialEq, Eq, PartialOrd, Ord)]
pub enum Strand {
    Plus,
    Minus,
    Dot,
}

/// The strand that a column means: `+`, `-` or `.`, and nothing else.
pub fn read_strand(column: &[u8]) -> Option<Strand>
    ensures { result ≡ strand_of column.now }
{
    match column {
        [b'+'] => Some(Strand::Plus),
        [b'-'] => Some(Strand::Minus),
        [b'.'] => Some(Strand::Dot),
        _ => None,
    }
}

/// Name, score and strand. Those beyond the width are empty.
#[derive(Clone, Copy)]
struct CutColumns<'a> {
    name: &'a [u8],
    score: &'a [u8],
    strand: Option<Strand>,
}

/// A checked record: its interval is 0-based and half-open, and the rest of its line is lent.
///
/// The rest is what follows the third TAB. Name, score and strand are cut from it each time that they are asked for; those beyond the
/// width are empty.
#[derive(Debug, Drop)]
pub struct RecordRef<'a> {
    pub(crate) interval: Interval,
    pub(crate) rest: &'a [u8],
    pub(crate) width: u8,
}

impl<'a> Model for RecordRef<'a> {
    ghost use Rattle.iv_lines.specs.Inside.Rests.{IsWhole, record_with};
    ghost use Rattle.iv_lines.specs.RecordValue.{RecordValue};

    ghost Value = { RecordValue };

    ghost view = { λ r. record_with r.interval r.rest.now r.width };

    ghost invariant = { λ r. IsWhole r.interval r.rest.now r.width };
}

impl<'a> RecordRef<'a> {
    /// The record of this width, 3 to 6, with this interval, which has a base, and with these columns after the third, as they are in a
    /// line: as many as the width has, with a TAB between two of them; at width 3 they are empty.
    pub fn of_rest(interval: Interval, rest: &'a [u8], width: u8) -> RecordRef<'a>
        requires some { interval.start < interval.stop }
        requires known { IsWidth width }
        requires plain { HasNoFeed rest.now }
        requires none { width < 4 → rest.now ≡ [] }
        requires whole { 4 ≤ width → codes "\t" ++ rest.now ≡ rest_text (joined_record interval.seq interval.start interval.stop rest.now width) }
        ensures { result ≡ joined_record interval.seq interval.start interval.stop rest.now width }
    {
        RecordRef {
            interval,
            rest,
            width,
        }
    }

    /// The record of three columns with this interval, which has a base.
    pub fn of_interval(interval: Interval) -> RecordRef<'a>
        requires { interval.start < interval.stop }
        ensures { result ≡ record_of_interval interval }
    {
        RecordRef::of_rest(interval, &[], 3)
    }

    /// All columns after the third, with a TAB between two of them, `None` at width 3.
    pub fn rest(&self) -> Option<&'a [u8]>
        ensures text { MatchOption result (rest_text self.now ≡ []) (λ rest. codes "\t" ++ rest.now ≡ rest_text self.now) }
        ensures none { result ≡ None → self.now.width ≡ 3 }
        ensures plain { IfSome result (λ rest. HasNoFeed rest.now) }
        ensures some { IfSome result (λ rest. (4 ≤ self.now.width) × (joined_record self.now.seq self.now.start self.now.stop rest.now self.now.width ≡ self.now)) }
    {
        if self.width < 4 {
            return None;
        }
        Some(self.rest)
    }

    /// The same record once more.
    pub fn again(&self) -> RecordRef<'a>
        ensures { result ≡ self.now }
    {
        RecordRef {
            interval: self.interval,
            rest: self.rest,
            width: self.width,
        }
    }

    /// The columns after the third, each by itself. Those beyond the width are empty.
    fn others(&self) -> CutColumns<'a>
        ensures name { result.name.now ≡ self.now.name }
        ensures score { result.score.now ≡ self.now.score }
        ensures strand { result.strand ≡ self.now.strand }
    {
        cut_columns(self.rest, self.width)
    }

    /// The order of two records by their columns after the third. It is apart from the whole order, since most records differ in
    /// their intervals, and a search compares many.
    #[inline(never)]
    fn compare_beside(&self, other: &RecordRef<'_>) -> Ordering
        ensures { result ≡ beside_cmp self.now other.now }
    {
        let (width, other_width) = (self.width, other.width);
        compare_columns(&self.others(), width, &other.others(), other_width)
    }

    /// The order of two records in a track. The columns after the third are looked at only if the intervals are equal.
    #[inline(always)]
    pub fn compare(&self, other: &RecordRef<'_>) -> Ordering
        ensures { result ≡ record_cmp self.now other.now }
    {
        let intervals = self.interval.cmp(&other.interval);
        if intervals.is_ne() {
            return intervals;
        }
        self.compare_beside(other)
    }

    /// Its interval.
    pub fn interval(&self) -> Interval
        ensures { result ≡ interval_of self.now }
    {
        self.interval
    }

    /// The rank of its sequence in the genome.
    pub fn seq(&self) -> u32
        ensures { result ≡ self.now.seq }
    {
        self.interval.seq
    }

    /// The start, from 0.
    pub fn start(&self) -> u64
        ensures { result ≡ self.now.start }
    {
        u64::from(self.interval.start)
    }

    /// The end, not included.
    pub fn stop(&self) -> u64
        ensures value { result ≡ self.now.stop }
        ensures some { self.now.start < result }
    {
        u64::from(self.interval.stop)
    }

    /// A lemma for callers' proofs: the record has a base, and its rank and its stop are numbers of 32 bits.
    /// The call does nothing.
    pub fn lemma_of_interval(&self)
        ensures { IsPlaced self.now }
    {
        // After this read the type's bounds are known.
        let _seq = self.interval.seq;
        let _stop = self.interval.stop;
    }

    /// A lemma for callers' proofs: the record has a base, and its columns beyond the width are empty. The call does nothing.
    pub fn lemma_of_columns(&self)
        ensures { IsRecord self.now }
    {
        // After this read what each record is is known.
        let _width = self.width;
    }

    /// The name, empty below width 4.
    pub fn name(&self) -> &'a [u8]
        ensures { result.now ≡ self.now.name }
    {
        self.others().name
    }

    /// The score as it is in the line, empty below width 5.
    pub fn score(&self) -> &'a [u8]
        ensures { result.now ≡ self.now.score }
    {
        self.others().score
    }

    /// The strand, `None` below width 6.
    pub fn strand(&self) -> Option<Strand>
        ensures { result ≡ self.now.strand }
    {
        self.others().strand
    }

    /// How many columns it has, 3 to 6.
    pub fn width(&self) -> u8
        ensures value { result ≡ self.now.width }
        ensures known { IsWidth result }
    {
        self.width
    }

    /// Whether it is a record of this width on this genome.
    pub fn fits<A: Allocator + Copy>(&self, genome: &Genome<A>, width: u8) -> bool
        ensures { IsTrue result ↔ Fits genome.now width self.now }
    {
        if self.width() != width || !is_within(genome, self.seq(), self.stop()) {
            return false;
        }
        are_sound(width, &self.others())
    }

    /// The part of it from one position to another, which is not included, with its other columns.
    ///
    /// The part has a base, and stops where the record does or before.
    pub fn part(&self, start: u64, stop: u64) -> RecordRef<'a>
        requires some { start < stop }
        requires within { stop ≤ self.now.stop }
        ensures { result ≡ part self.now start stop }
    {
        self.lemma_of_interval();
        RecordRef {
            interval: self.interval.part(start as u32, stop as u32),
            rest: self.rest,
            width: self.width,
        }
    }

    /// A copy that owns its columns. It takes no memory at width 3.
    #[inline(always)]
    pub fn to_record<A: Allocator + Copy>(&self, alloc: A) -> Result<Record<A>, AllocError>
        ensures ok { IfOk result (λ r. r ≡ self.now) }
        ensures free { self.now.width ≡ 3 → IsOk result }
    {
        Record::copy_of(self, alloc)
    }
}

/// The order of two records of this width and one interval, by their rests.
pub fn compare_rests(width: u8, first: &[u8], second: &[u8]) -> Ordering
    ensures { result ≡ beside_cmp (joined_record 0 0 0 first.now width) (joined_record 0 0 0 second.now width) }
{
    let first = cut_columns(first, width);
    let second = cut_columns(second, width);
    compare_columns(&first, width, &second, width)
}

/// The name of a record of this width with this rest.
pub fn name_of_rest(width: u8, rest: &[u8]) -> &[u8]
    ensures { result.now ≡ (joined_record 0 0 0 rest.now width).name }
{
    cut_columns(rest, width).name
}

/// The next column, or an empty one past the last.
fn next_or_empty<'a>(columns: &mut Fields<'a>) -> &'a [u8]
    ensures value { result.now ≡ column columns.old 0 }
    ensures rest { columns.new ≡ drop 1 columns.old }
{
    columns.next().unwrap_or(&[])
}

/// Name, score and strand, as far as the width goes, of the columns after the third.
fn cut_columns(rest: &[u8], width: u8) -> CutColumns<'_>
    ensures name { result.name.now ≡ cond (nat_le 4 width) (column (columns_of rest.now) 0) [] }
    ensures score { result.score.now ≡ cond (nat_le 5 width) (column (columns_of rest.now) 1) [] }
    ensures strand { result.strand ≡ cond (nat_le 6 width) (strand_of (column (columns_of rest.now) 2)) None }
{
    let mut columns = columns(rest);
    let mut cut = CutColumns {
        name: &[],
        score: &[],
        strand: None,
    };
    if width >= 4 {
        cut.name = next_or_empty(&mut columns);
    }
    if width >= 5 {
        cut.score = next_or_empty(&mut columns);
    }
    if width >= 6 {
        cut.strand = read_strand(next_or_empty(&mut columns));
    }
    cut
}

/// Name, score and strand in the order of a track, and then two widths.
fn compare_columns(
    first: &CutColumns<'_>,
    first_width: u8,
    second: &CutColumns<'_>,
    second_width: u8,
) -> Ordering
    ensures { result ≡ ordering_then (slice_cmp nat_cmp first.now.name.now second.now.name.now) (ordering_then (slice_cmp nat_cmp first.now.score.now second.now.score.now) (ordering_then (option_cmp strand_cmp first.now.strand second.now.strand) (nat_cmp first_width second_width))) }
{
    let scores = first.score.cmp(second.score);
    let strands = first.strand.cmp(&second.strand);
    let widths = first_width.cmp(&second_width);
    first
        .name
        .cmp(second.name)
        .then(scores.then(strands.then(widths)))
}

/// Whether a name or a score is refused.
fn is_bad_text(column: &[u8]) -> bool
    ensures { result ≡ bad_text column.now }
{
    for b in column {
        if *b == b'\r' || *b == b'\n' || *b == 0 {
            return true;
        }
    }
    column.is_empty()
}

/// Whether a record of this width may have this name, score and strand.
fn are_sound(width: u8, others: &CutColumns<'_>) -> bool
    ensures { IsTrue result ↔ AreSoundColumns width others.now.name.now others.now.score.now others.now.strand }
{
    (width < 4 || !is_bad_text(others.name))
        && (width < 5 || !is_bad_text(others.score))
        && (width < 6 || others.strand.is_some())
}

/// Whether the genome has the rank, and the stop is within its sequence.
pub(crate) fn is_within<A: Allocator + Copy>(genome: &Genome<A>, seq: u32, stop: u64) -> bool
    ensures { IsTrue result ↔ IsWithin genome.now seq stop }
{
    match genome.length(seq) {
        Some(length) => stop <= length,
        None => false,
    }
}

/// Whether a text has so many columns: one more than it has TABs.
fn are_so_many(text: &[u8], count: u8) -> bool
    requires { count ≤ 3 }
    ensures { IsTrue result ↔ (length (columns_of text.now) ≡ count) }
{
    let mut columns = columns(text);
    if count >= 1 && columns.next().is_none() {
        return false;
    }
    if count >= 2 && columns.next().is_none() {
        return false;
    }
    if count >= 3 && columns.next().is_none() {
        return false;
    }
    columns.next().is_none()
}

/// The columns of a line: those of the interval, and all after them as they are.
#[derive(Clone, Copy)]
struct Cells<'a> {
    seq: &'a [u8],
    start: &'a [u8],
    stop: &'a [u8],
    /// Empty if there are no others.
    rest: &'a [u8],
}

/// The columns, if there are as many as the width.
fn cells_of(line: &[u8], width: u8) -> Option<Cells<'_>>
    requires { IsWidth width }
    ensures { MatchOption result (length (columns_of line.now) ≢ width) (λ c. AreCells width (columns_of line.now) c.seq.now c.start.now c.stop.now c.rest.now) }
{
    let (seq, after_seq) = split_first_column(line);
    let (start, after_start) = split_first_column(after_seq?);
    let (stop, after_stop) = split_first_column(after_start?);
    let Some(rest) = after_stop else {
        if width > 3 {
            return None;
        }
        return Some(Cells {
            seq,
            start,
            stop,
            rest: &[],
        });
    };
    if !are_so_many(rest, width - 3) {
        return None;
    }
    Some(Cells {
        seq,
        start,
        stop,
        rest,
    })
}

/// The record that a line means at a width, or its first fault.
///
/// The line is cut at every TAB into sequence, start, stop, name, score and strand, as many of them as
/// the width. It is read as a record whatever it begins with: headers exist in files only.
pub fn read_record<'a, A: Allocator + Copy>(
    genome: &Genome<A>,
    width: u8,
    line: &'a [u8],
) -> Result<RecordRef<'a>, RecordFault>
    requires { IsWidth width }
    ensures value { result ≡ read genome.now width line.now }
    ensures fits { IfOk result (λ r. Fits genome.now width r) }
{
    let Some(cells) = cells_of(line, width) else {
        return Err(RecordFault::Columns);
    };
    let Some((seq, length)) = genome.find(cells.seq) else {
        return Err(RecordFault::UnknownSeq);
    };
    let Some(start) = read_number(cells.start) else {
        return Err(RecordFault::StartNumber);
    };
    let Some(stop) = read_number(cells.stop) else {
        return Err(RecordFault::StopNumber);
    };
    if start >= stop {
        return Err(RecordFault::Order);
    }
    if stop > length as u64 {
        return Err(RecordFault::PastEnd);
    }
    let others = cut_columns(cells.rest, width);
    if width >= 4 && is_bad_text(others.name) {
        return Err(RecordFault::Name);
    }
    if width >= 5 && is_bad_text(others.score) {
        return Err(RecordFault::Score);
    }
    if width >= 6 && others.strand.is_none() {
        return Err(RecordFault::Strand);
    }
    let interval = Interval {
        seq,
        start: start as u32,
        stop: stop as u32,
    };
    Ok(RecordRef::of_rest(interval, cells.rest, width))
}
