//! Records read line after line, and the number that a text begins with.
ghost use Rattle.std.specs.Prelude.{◌≡◌, ◌≤◌, false, [], ◌∷◌, IfSome, IsSome, length, take, ℕ, List, ◌+◌, ◌/◌, ◌%◌, ◌^◌, ◌<◌, ◌++◌, None, Some, Ok, IfOk, slice_index, ◌⊎◌, true};
ghost use Rattle.std.specs.Option.{is_some};
ghost use Rattle.iv_text.specs.Inside.OnePass.{BeginsWithName, ends_cell, BeginsWithCell, BeginsWithCells, BeginsWithRest, IsCell, IsNamed, BeginsWithInterval, BeginsWithNumber};
ghost use Rattle.iv_text.specs.Inside.FastLine.{IsFastLine};
ghost use Rattle.iv_lines.specs.Read.{bad_text, read, column, Fits};
ghost use Rattle.iv_lines.specs.RecordValue.{strand_of};
ghost use Rattle.iv_lines.specs.Fields.{columns as columns_of};
ghost use Rattle.iv_lines.specs.Bytes.{tab, carriage_return, line_feed};
ghost use Rattle.iv_lines.specs.Named.{name_index};
ghost use Rattle.iv_lines.specs.Widths.{IsWidth};
ghost use Rattle.std.specs.Char.{is_ascii_digit};
ghost use Rattle.iv_lines.specs.Inside.Number.{decimal_from};

use crate::bed_reader::is_skipped_line;
use bstr::ByteSlice;
use iv_lines::{
    Genome, Interval, RecordFault, RecordRef, after_byte, cut_first_column, read_record,
};
use std::alloc::Allocator;
use std::marker::Model;
use std::simd::prelude::*;

/// The number that a text begins with, of 1 to 10 digits, and what follows them: read byte after byte.
#[inline(never)]
fn split_slowly(text: &[u8]) -> Option<(u64, &[u8])>
    ensures { IfSome result (λ p. BeginsWithNumber text.now p.0 p.1.now) }
{
    let mut value: u64 = 0;
    let mut count: usize = 0;
    while count < 10 && count < text.len() && text[count].is_ascii_digit() {
        value = value * 10 + (text[count] - b'0') as u64;
        count += 1;
    }
    if count == 0 {
        return None;
    }
    Some((value, &text[count..]))
}

/// How many digits a text begins with, up to 10: 16 bytes are looked at together.
#[inline(always)]
fn count_digits(text: &[u8]) -> usize
    requires { 16 ≤ length text.now }
    ensures digits { (k : ℕ) → k < result → is_ascii_digit (slice_index text.now k) ≡ true }
    ensures few { result ≤ 10 }
{
    let values = u8x16::from_slice(text) - u8x16::splat(b'0');
    let others = values.simd_gt(u8x16::splat(9)).to_bitmask();
    if others == 0 {
        return 10;
    }
    let count = others.trailing_zeros() as usize;
    if count < 10 { count } else { 10 }
}

/// Eight digits `0`, as one word.
const ZEROS: u64 = 0x3030_3030_3030_3030;

/// The number that the first bytes of a text mean, which are digits, 1 to 8 of them: eight bytes are read as one word, those after
/// the digits are shifted out, and then the digits are added up in pairs.
#[inline(always)]
fn read_few(text: &[u8], count: usize) -> u64
    requires long { 8 ≤ length text.now }
    requires some { 0 < count }
    requires few { count ≤ 8 }
    requires digits { (k : ℕ) → k < count → is_ascii_digit (slice_index text.now k) ≡ true }
    ensures value { result ≡ decimal_from 0 (take count text.now) }
    ensures small { result < 10 ^ 8 }
{
    let word = u64::from_le_bytes([
        text[0], text[1], text[2], text[3], text[4], text[5], text[6], text[7],
    ]);
    let shift = 64 - 8 * count;
    let values = (word << shift) - (ZEROS << shift);
    let pairs = values * 10 + values / 0x100;
    pairs % 0x100 * 1_000_000
        + pairs / 0x1_0000 % 0x100 * 10_000
        + pairs / 0x1_0000_0000 % 0x100 * 100
        + pairs / 0x1_0000_0000_0000 % 0x100
}

/// The number that a text begins with, of 1 to 10 digits, and what follows them.
///
/// It is a part of its callers, which read each number of a file: a call would hand the answer over in memory.
#[inline(always)]
pub(crate) fn split_number(text: &[u8]) -> Option<(u64, &[u8])>
    ensures { IfSome result (λ p. BeginsWithNumber text.now p.0 p.1.now) }
{
    if text.len() < 16 {
        return split_slowly(text);
    }
    let count = count_digits(text);
    if count == 0 {
        return None;
    }
    if count <= 8 {
        return Some((read_few(text, count), &text[count..]));
    }
    let eight = read_few(text, 8);
    let nine = eight * 10 + (text[8] - b'0') as u64;
    if count == 9 {
        return Some((nine, &text[9..]));
    }
    Some((nine * 10 + (text[9] - b'0') as u64, &text[10..]))
}

/// What follows the LF that a text begins with, or after a CR and a LF.
fn after_line_end(text: &[u8]) -> Option<&[u8]>
    ensures { IfSome result (λ rest. (text.now ≡ line_feed ∷ rest.now) ⊎ (text.now ≡ carriage_return ∷ line_feed ∷ rest.now)) }
{
    match text {
        [b'\n', rest @ ..] => Some(rest),
        [b'\r', b'\n', rest @ ..] => Some(rest),
        _ => None,
    }
}

/// Whether no cell goes on at this byte.
fn is_end(byte: u8) -> bool
    ensures { result ≡ ends_cell byte }
{
    byte == b'\t' || byte == b'\n' || byte == b'\r' || byte == 0
}

/// How many bytes a text begins with that no cell ends at, looked at byte after byte.
fn count_slowly(text: &[u8]) -> usize
    ensures cell { IsCell (take result text.now) }
    ensures within { result ≤ length text.now }
{
    let mut end: usize = 0;
    while end < text.len() && !is_end(text[end]) {
        end += 1;
    }
    end
}

/// How many bytes a text begins with that no cell ends at: the first 16 are looked at together, and each control byte up to 13
/// counts as an end.
#[inline(always)]
fn count_cell(text: &[u8]) -> usize
    ensures cell { IsCell (take result text.now) }
    ensures within { result ≤ length text.now }
{
    if text.len() < 16 {
        return count_slowly(text);
    }
    let ends = u8x16::from_slice(text)
        .simd_lt(u8x16::splat(14))
        .to_bitmask();
    if ends == 0 {
        return count_slowly(text);
    }
    ends.trailing_zeros() as usize
}

/// What follows a TAB and a name or a score, if a text begins with them.
#[inline(always)]
fn after_text(text: &[u8]) -> Option<&[u8]>
    ensures { IfSome result (λ rest. (cell : List ℕ) × BeginsWithCell (λ cell. bad_text cell ≡ false) text.now cell rest.now) }
{
    let cell = after_byte(text, b'\t')?;
    let end = count_cell(cell);
    if end == 0 {
        return None;
    }
    Some(&cell[end..])
}

/// Whether the byte alone means a strand.
fn is_strand(byte: u8) -> bool
    ensures { result ≡ is_some (strand_of (byte ∷ [])) }
{
    byte == b'+' || byte == b'-' || byte == b'.'
}

/// What follows a TAB and the byte of a strand, if a text begins with them.
#[inline(always)]
fn after_strand(text: &[u8]) -> Option<&[u8]>
    ensures { IfSome result (λ rest. (cell : List ℕ) × BeginsWithCell (λ cell. IsSome (strand_of cell)) text.now cell rest.now) }
{
    let strand = after_byte(text, b'\t')?;
    match strand {
        [byte, rest @ ..] if is_strand(*byte) => Some(rest),
        _ => None,
    }
}

/// What follows the columns of a record of this width after its interval, if a text begins with them.
///
/// It is a part of its callers, which read each line of a file: a call would hand the answer over in memory.
#[inline(always)]
fn after_cells(width: u8, text: &[u8]) -> Option<&[u8]>
    requires { IsWidth width }
    ensures { IfSome result (λ end. BeginsWithCells width text.now end.now) }
{
    if width == 3 {
        return Some(text);
    }
    let after_name = after_text(text)?;
    if width == 4 {
        return Some(after_name);
    }
    let after_score = after_text(after_name)?;
    if width == 5 {
        return Some(after_score);
    }
    after_strand(after_score)
}

/// The columns of a record of this width after its interval, without the TAB before them, and what follows them, if a text begins with
/// them.
#[inline(always)]
fn split_rest(width: u8, text: &[u8]) -> Option<(&[u8], &[u8])>
    requires { IsWidth width }
    ensures { IfSome result (λ p. BeginsWithRest width text.now p.0.now p.1.now) }
{
    let end = after_cells(width, text)?;
    if width == 3 {
        return Some((&[], end));
    }
    Some((&text[1..text.len() - end.len()], end))
}

/// A sequence as a line names it, with its rank and its length.
#[derive(Clone, Copy)]
struct Named<'t> {
    name: &'t [u8],
    rank: u32,
    length: u32,
}

/// How many slots for sequences a reader has.
const SLOTS: usize = 256;

/// With this odd factor the chromosomes of a human, a mouse, a dog, a fly and a yeast have a slot each, by their usual names.
const MIXER: u32 = 0xE1EA_24C5;

/// Reads the records of lines one after another, faster if a line names a sequence that a line before named.
///
/// Its value is that of its genome: what it answers doesn't depend on the lines that it read.
///
/// Reading such a line in one pass saves a search for each TAB and a lookup of the name in the genome, at the price of a second body
/// under one contract. In a sorted file it mostly is the sequence of the line before, which is compared first.
#[derive(Drop)]
pub struct RecordReader<'g, 't, A: Allocator> {
    genome: &'g Genome<A>,
    /// The sequence that was looked up last.
    last: Option<Named<'t>>,
    /// Those that were looked up, each in the slot of its name, the later one if two have the same.
    known: [Option<Named<'t>>; SLOTS],
}

impl<'g, 't, A: Allocator> Model for RecordReader<'g, 't, A> {
    ghost use Rattle.std.specs.Prelude.{All, IfSome};
    ghost use Rattle.iv_lines.specs.Genome.{Sequences};
    ghost use Rattle.iv_text.specs.Inside.OnePass.{IsNamed};

    ghost Value = { Sequences };

    ghost view = { λ r. r.genome.now };

    ghost invariant = { λ r. IfSome r.last (λ n. IsNamed r.genome.now n.name.now n.rank n.length)
        × All (λ slot. IfSome slot (λ n. IsNamed r.genome.now n.name.now n.rank n.length)) r.known };
}

/// The four bytes from this index on as one number, the first one lowest.
#[inline(always)]
fn word_at(text: &[u8], at: usize) -> u32
    requires { at + 4 ≤ length text.now }
    ensures { (k : ℕ) → k < 4 → slice_index text.now (at + k) ≡ result / 256 ^ k % 256 }
{
    // That there is a last byte says so of the others, and all four are read at once.
    let last = text[at + 3];
    u32::from_le_bytes([text[at], text[at + 1], text[at + 2], last])
}

/// What follows a name that a line begins with.
///
/// A name of 4 to 8 bytes, as most are, is compared without a call: its first four bytes, and its last four.
#[inline(always)]
fn after_name<'t>(line: &'t [u8], name: &[u8]) -> Option<&'t [u8]>
    ensures { IfSome result (λ rest. line.now ≡ name.now ++ rest.now) }
{
    let size = name.len();
    if size < 4 || size > 8 || line.len() < size {
        return line.strip_prefix(name);
    }
    let begins = word_at(line, 0);
    let begin = word_at(name, 0);
    if begins != begin {
        return None;
    }
    let ends = word_at(line, size - 4);
    let end = word_at(name, size - 4);
    if ends != end {
        return None;
    }
    Some(&line[size..])
}

/// What follows a name and a TAB that a line begins with.
#[inline(always)]
fn after_column<'t>(line: &'t [u8], name: &[u8]) -> Option<&'t [u8]>
    ensures { IfSome result (λ rest. line.now ≡ name.now ++ tab ∷ rest.now) }
{
    after_byte(after_name(line, name)?, b'\t')
}

/// Four more bytes, or one, mixed into a number.
#[inline(always)]
fn mix(number: u32, more: u32) -> u32 {
    number.wrapping_mul(MIXER).wrapping_add(more)
}

/// The slot of a name: mixed from four bytes at its front, four in its middle and four at its end, among which are all those of a
/// name of 4 to 12 bytes.
#[inline(always)]
fn slot_of(name: &[u8]) -> usize
    ensures { result < 256 }
{
    let size = name.len();
    let mut mixed: u32 = 0;
    if size < 4 {
        for byte in name {
            mixed = mix(mixed, u32::from(*byte));
        }
    } else {
        mixed = mix(
            mix(word_at(name, 0), word_at(name, (size - 4) / 2)),
            word_at(name, size - 4),
        );
    }
    (mixed.wrapping_mul(MIXER) / 0x100_0000) as usize
}

/// The sequence that a line names, whose rank is known. `None` if the name holds a LF, or is a header by itself.
fn named_by<'t, A: Allocator + Copy>(
    genome: &Genome<A>,
    line: &'t [u8],
    rank: u32,
) -> Option<Named<'t>>
    requires { name_index genome.now (column (columns_of line.now) 0) ≡ Some rank }
    ensures { IfSome result (λ b. IsNamed genome.now b.name.now b.rank b.length) }
{
    let (name, _) = cut_first_column(line);
    if is_skipped_line(name) || name.find_byte(b'\n').is_some() {
        return None;
    }
    let length = genome.length_u32(rank)?;
    Some(Named { name, rank, length })
}

impl<'g, 't, A: Allocator + Copy> RecordReader<'g, 't, A> {
    /// A reader of records on this genome.
    pub fn new(genome: &'g Genome<A>) -> Self
        ensures { result ≡ genome.now }
    {
        RecordReader {
            genome,
            last: None,
            known: [None; SLOTS],
        }
    }

    /// The sequence that a text begins with, if a line before named it, and what follows its TAB.
    #[inline(always)]
    fn split_name<'a>(&self, text: &'a [u8]) -> Option<(Named<'t>, &'a [u8])>
        ensures { IfSome result (λ p. BeginsWithName self.now text.now p.0.name.now p.0.rank p.0.length p.1.now) }
    {
        if let Some(last) = self.last {
            if let Some(rest) = after_column(text, last.name) {
                return Some((last, rest));
            }
        }
        self.split_known(text)
    }

    /// The same, by the slot of the name.
    #[inline(never)]
    fn split_known<'a>(&self, text: &'a [u8]) -> Option<(Named<'t>, &'a [u8])>
        ensures { IfSome result (λ p. BeginsWithName self.now text.now p.0.name.now p.0.rank p.0.length p.1.now) }
    {
        let name = &text[..count_cell(text)];
        let known = self.known[slot_of(name)]?;
        let rest = after_column(text, known.name)?;
        Some((known, rest))
    }

    /// The interval that a text begins with, and what follows its columns, if they name a sequence that a line before named, and
    /// lie on it.
    ///
    /// `None` leaves it open.
    #[inline(always)]
    fn split_interval<'a>(&self, text: &'a [u8]) -> Option<(Interval, &'a [u8])>
        ensures { IfSome result (λ p. BeginsWithInterval self.now text.now p.0 p.1.now) }
    {
        let (named, from_start) = self.split_name(text)?;
        let (start, after) = split_number(from_start)?;
        let from_stop = after_byte(after, b'\t')?;
        let (stop, rest) = split_number(from_stop)?;
        if start >= stop || stop > u64::from(named.length) {
            return None;
        }
        let interval = Interval {
            seq: named.rank,
            start: start as u32,
            stop: stop as u32,
        };
        Some((interval, rest))
    }

    /// The record of the first line of a text, and how many bytes the line has, its LF with them, if it names a sequence that a line
    /// before named and means a record of this width that ends at a LF: read in one pass, which finds the line's end too.
    ///
    /// `None` leaves it open: [`read`](Self::read) answers for every line.
    #[inline(always)]
    pub(crate) fn read_fast<'a>(&self, width: u8, text: &'a [u8]) -> Option<(RecordRef<'a>, usize)>
        requires { IsWidth width }
        ensures { IfSome result (λ p. IsFastLine self.now width text.now p.0 p.1) }
    {
        let (interval, after) = self.split_interval(text)?;
        let (rest, end) = split_rest(width, after)?;
        let next = after_line_end(end)?;
        let record = RecordRef::of_rest(interval, rest, width);
        Some((record, text.len() - next.len()))
    }

    /// The record that the next line means at a width, or its first fault, as [`read_record`](crate::read_record) answers it. The
    /// sequence that it names is known from then on.
    pub fn read(&mut self, width: u8, line: &'t [u8]) -> Result<RecordRef<'t>, RecordFault>
        requires { IsWidth width }
        ensures same { self.new ≡ self.old }
        ensures value { result ≡ read self.old width line.now }
        ensures fits { IfOk result (λ r. Fits self.old width r) }
    {
        let feature = read_record(self.genome, width, line)?;
        self.last = named_by(self.genome, line, feature.seq());
        if let Some(named) = self.last {
            self.known[slot_of(named.name)] = self.last;
        }
        Ok(feature)
    }
}
