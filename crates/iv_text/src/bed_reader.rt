//! A BED file that comes in pieces: its lines, which of them have a record, and what is held of it.
ghost use Rattle.std.specs.Prelude.{◌≡◌, ◌<◌, ◌≤◌, ◌+◌, ◌^◌, ◌⊎◌, ◌++◌, ℕ, List, [], length, drop, take, map, Ok, Err, All, IfOk, IfErr, OnOk, ◌∷◌, MatchOption, Some, false};
ghost use Rattle.iv_lines.specs.declared.fault.LoadCause.TheVariants as cause;
ghost use Rattle.iv_lines.specs.Read.{Fits, AreSoundColumns};
ghost use Rattle.iv_text.specs.BedReading.{AreSoundLines, begun, read_on, size_of, finished, RefusesLines, TakesLines, none_read};
ghost use Rattle.iv_lines.specs.Inside.Pieces.{IsEnded, EndsAtFeed};
ghost use Rattle.iv_lines.specs.Widths.{IsWidth};
ghost use Rattle.iv_places.specs.HeldColumns.{held_as};
ghost use Rattle.iv_text.specs.Inside.BedReading.{RefusesLine, TakesLine};
ghost use Rattle.std.specs.Option.{unwrap_or};
ghost use Rattle.iv_text.specs.BedFile.{is_skipped_line as says_nothing, is_width};
ghost use Rattle.iv_lines.specs.Fields.{columns as columns_of};

use crate::record_reader::RecordReader;
use bstr::{ByteSlice, Lines};
use iv_lines::{Genome, LoadCause, LoadFault, RecordRef, columns, split_line};
use iv_places::{HeldColumns, Places};
use std::alloc::Allocator;
use std::marker::Model;

/// Whether a line of a BED file has no record: it is empty or a header (`#`, `track`, `browser`).
pub fn is_skipped_line(line: &[u8]) -> bool
    ensures { result ≡ says_nothing line.now }
{
    match line {
        [] | [b'#', ..] => true,
        [b't', ..] => line == b"track".as_slice() || line.starts_with(b"track "),
        [b'b', ..] => line == b"browser".as_slice() || line.starts_with(b"browser "),
        _ => false,
    }
}

/// The number of columns of a line, if it is a width.
fn width_of(line: &[u8]) -> Option<u8>
    ensures { MatchOption result (is_width (length (columns_of line.now)) ≡ false) (λ w. (w ≡ length (columns_of line.now)) × (3 ≤ w) × (w ≤ 6)) }
{
    let mut columns = columns(line);
    let mut count = 0u8;
    while count < 7 {
        if columns.next().is_none() {
            break;
        }
        count += 1;
    }
    if 3 <= count && count <= 6 {
        Some(count)
    } else {
        None
    }
}

/// The width that a line's record has to have: the one that is known, or else the number of the line's columns.
///
/// `None` if it isn't 3 to 6.
pub fn width_for(known: Option<u8>, line: &[u8]) -> Option<u8>
    ensures { MatchOption result (is_width (unwrap_or known (length (columns_of line.now))) ≡ false) (λ w. (w ≡ unwrap_or known (length (columns_of line.now))) × (3 ≤ w) × (w ≤ 6)) }
{
    match known {
        Some(width) => {
            if 3 <= width && width <= 6 {
                Some(width)
            } else {
                None
            }
        }
        None => width_of(line),
    }
}

/// Lines of a BED file that were read: how many columns their records have, and what is held of these.
#[derive(Drop)]
pub struct BedLines<A: Allocator + Copy> {
    // The number of the next line, from 1.
    number: u64,
    width: Option<u8>,
    held: Places<A>,
}

impl<A: Allocator + Copy> Model for BedLines<A> {
    ghost use Rattle.iv_text.specs.BedReading.{LinesRead};

    ghost Value = { LinesRead };

    ghost view = { λ l. record { number = l.number; width = l.width; records = l.held.records } };
}

impl<A: Allocator + Copy> BedLines<A> {
    /// No lines yet.
    pub fn new(alloc: A) -> Self
        ensures { result ≡ none_read }
    {
        BedLines {
            number: 1,
            width: None,
            held: Places::empty(alloc),
        }
    }

    /// How many columns the records have, once there is one.
    pub(crate) fn width(&self) -> Option<u8>
        ensures { result ≡ self.now.width }
    {
        self.width
    }

    /// Takes one more record of the width of the others, unless there are as many as the limit.
    #[inline(always)]
    fn take_one(
        &mut self,
        limit: u32,
        columns: HeldColumns,
        feature: &RecordRef<'_>,
    ) -> Result<(), LoadCause>
        requires alike { All (λ r. r.width ≡ (held_as columns feature.now).width) self.old.records }
        requires width { IsWidth feature.now.width }
        requires sound { AreSoundColumns feature.now.width feature.now.name feature.now.score feature.now.strand }
        ensures ok { OnOk result (self.new ≡ record self.old { width = Some feature.now.width; records = self.old.records ++ held_as columns feature.now ∷ [] }) }
        ensures free { OnOk result (length self.old.records < limit) }
        ensures number { self.new.number ≡ self.old.number }
        ensures err { IfErr result (λ c. (c ≡ cause.Memory) ⊎ ((c ≡ cause.TooMany) × (limit ≤ length self.old.records))) }
    {
        if self.held.records().len() >= limit as usize {
            return Err(LoadCause::TooMany);
        }
        self.held.hold(&columns.of(feature))?;
        self.width = Some(feature.width());
        Ok(())
    }

    /// Takes the first line of a text, if a width is known and the reader reads the line in one pass. It answers the line's size.
    #[inline(always)]
    fn take_fast(
        &mut self,
        reader: &RecordReader<'_, '_, A>,
        limit: u32,
        columns: HeldColumns,
        text: &[u8],
    ) -> Result<Option<usize>, LoadCause>
        requires sound { AreSoundLines columns reader.now limit self.old }
        ensures number { self.new.number ≡ self.old.number }
        ensures sound { OnOk result (AreSoundLines columns reader.now limit self.new) }
        ensures ok { IfOk result (λ taken. MatchOption taken (self.new ≡ self.old)
            (λ size. (0 < size) × (size ≤ length text.now) × TakesLine columns reader.now limit self.old self.new text.now size)) }
        ensures err { IfErr result (λ c. (c ≡ cause.Memory) ⊎ RefusesLine columns reader.now limit self.old text.now c) }
    {
        let Some(width) = self.width() else {
            return Ok(None);
        };
        let Some((record, size)) = reader.read_fast(width, text) else {
            return Ok(None);
        };
        self.take_one(limit, columns, &record)?;
        Ok(Some(size))
    }

    /// Takes the first line of a text, and what is held of its record, if it has one. It answers the line's size.
    fn take_line<'t>(
        &mut self,
        reader: &mut RecordReader<'_, 't, A>,
        limit: u32,
        columns: HeldColumns,
        text: &'t [u8],
    ) -> Result<usize, LoadCause>
        requires sound { AreSoundLines columns reader.old limit self.old }
        requires some { 0 < length text.now }
        ensures same { reader.new ≡ reader.old }
        ensures number { self.new.number ≡ self.old.number }
        ensures sound { OnOk result (AreSoundLines columns reader.old limit self.new) }
        ensures ok { IfOk result (λ size. (0 < size) × (size ≤ length text.now) × TakesLine columns reader.old limit self.old self.new text.now size) }
        ensures err { IfErr result (λ c. (c ≡ cause.Memory) ⊎ RefusesLine columns reader.old limit self.old text.now c) }
    {
        if let Some(size) = self.take_fast(reader, limit, columns, text)? {
            return Ok(size);
        }
        let (line, size) = split_line(text);
        if is_skipped_line(line) {
            return Ok(size);
        }
        let Some(width) = width_for(self.width(), line) else {
            return Err(LoadCause::Columns);
        };
        let record = match reader.read(width, line) {
            Ok(record) => record,
            Err(fault) => return Err(LoadCause::Record(fault)),
        };
        self.take_one(limit, columns, &record)?;
        Ok(size)
    }

    /// Takes all lines of a text, up to the first fault. The text begins where the lines that were read end.
    ///
    /// # Errors
    ///
    /// The first fault, or an allocation failed. What was read is then unspecified.
    pub fn take_lines(
        &mut self,
        genome: &Genome<A>,
        limit: u32,
        columns: HeldColumns,
        text: &[u8],
    ) -> Result<(), LoadFault>
        requires sound { AreSoundLines columns genome.now limit self.old }
        requires few { self.old.number + length text.now < 2 ^ 64 }
        ensures sound { OnOk result (AreSoundLines columns genome.now limit self.new) }
        ensures few { OnOk result (self.new.number ≤ self.old.number + length text.now) }
        ensures ok { OnOk result (TakesLines columns genome.now limit self.old self.new text.now) }
        ensures err { IfErr result (λ f. (f ≡ record { line = 0; cause = cause.Memory }) ⊎ RefusesLines columns genome.now limit self.old text.now f) }
    {
        let mut reader = RecordReader::new(genome);
        let mut left = text;
        'lines: while !left.is_empty() {
            match self.take_line(&mut reader, limit, columns, left) {
                Ok(size) => {
                    left = &left[size..];
                    self.number += 1;
                }
                Err(cause) => return Err(LoadFault::at(self.number, cause)),
            }
        }
        Ok(())
    }

    /// How many columns the records have, if there is one, and what is held of each.
    pub fn finish(self) -> (Option<u8>, Places<A>)
        ensures width { result.0 ≡ self.width }
        ensures held { result.1.records ≡ self.records }
    {
        (self.width, self.held)
    }
}

/// A BED file that comes in pieces, and what is held of its records.
///
/// A line may begin in one piece and end in another. The bytes of a line that hasn't ended are held until its end comes; of all
/// other lines no text is held.
#[derive(Drop)]
pub struct BedReader<A: Allocator + Copy> {
    read: BedLines<A>,
    // The bytes after the last LF.
    tail: Vec<u8, A>,
}

impl<A: Allocator + Copy> Model for BedReader<A> {
    ghost use Rattle.iv_text.specs.BedReading.{Reading};

    ghost Value = { Reading };

    ghost view = { λ d. record { read = d.read; tail = d.tail.items } };
}

/// How many bytes there are up to the last LF, with it: 0 without one.
fn last_end(bytes: &[u8]) -> usize
    ensures within { result ≤ length bytes.now }
    ensures ended { 0 < result → EndsAtFeed (take result bytes.now) }
{
    for back in 0..bytes.len() {
        let at = bytes.len() - 1 - back;
        if bytes[at] == b'\n' {
            return at + 1;
        }
    }
    0
}

/// How many bytes there are up to the first LF, with it.
fn first_end(lines: &[u8]) -> usize
    requires { EndsAtFeed lines.now }
    ensures within { result ≤ length lines.now }
    ensures ended { EndsAtFeed (take result lines.now) }
{
    for end in 0..lines.len() {
        if lines[end] == b'\n' {
            return end + 1;
        }
    }
    lines.len()
}

/// Adds bytes to those of a line that hasn't ended.
fn keep<A: Allocator>(tail: &mut Vec<u8, A>, bytes: &[u8]) -> Result<(), LoadFault>
    ensures ok { OnOk result (tail.new.items ≡ tail.old.items ++ bytes.now) }
    ensures err { IfErr result (λ f. f ≡ record { line = 0; cause = cause.Memory }) }
{
    tail.extend_from_slice(bytes)?;
    Ok(())
}

impl<A: Allocator + Copy> BedReader<A> {
    /// A file of which no byte was read.
    pub fn new(alloc: A) -> Self
        ensures { result ≡ begun }
    {
        BedReader {
            read: BedLines::new(alloc),
            tail: Vec::new(alloc),
        }
    }

    /// How many columns the records have, once one of them was read.
    pub fn width(&self) -> Option<u8>
        ensures { result ≡ self.now.read.width }
    {
        self.read.width()
    }

    /// Takes the next bytes of the file: all lines that end in them.
    ///
    /// # Errors
    ///
    /// The file's first fault, or an allocation failed. What was read is then unspecified.
    pub fn take_piece(
        &mut self,
        genome: &Genome<A>,
        limit: u32,
        columns: HeldColumns,
        piece: &[u8],
    ) -> Result<(), LoadFault>
        requires sound { AreSoundLines columns genome.now limit self.old.read }
        requires few { size_of self.old + length piece.now < 2 ^ 64 }
        ensures sound { OnOk result (AreSoundLines columns genome.now limit self.new.read) }
        ensures few { OnOk result (size_of self.new ≤ size_of self.old + length piece.now) }
        ensures ok { OnOk result ((more : List ℕ) → read_on columns genome.now limit self.old (piece.now ++ more) ≡ read_on columns genome.now limit self.new more) }
        ensures err { IfErr result (λ f. (f ≡ record { line = 0; cause = cause.Memory }) ⊎ ((more : List ℕ) → read_on columns genome.now limit self.old (piece.now ++ more) ≡ Err f)) }
    {
        let end = last_end(piece);
        if end == 0 {
            keep(&mut self.tail, piece)?;
            return Ok(());
        }
        let (lines, rest) = piece.split_at(end);
        let taken = self.end_line(genome, limit, columns, lines)?;
        self.read
            .take_lines(genome, limit, columns, &lines[taken..])?;
        keep(&mut self.tail, rest)?;
        Ok(())
    }

    /// Takes the line that hasn't ended, if there is one, together with the first of more lines, which ends it. It answers how many
    /// bytes of these it took.
    fn end_line(
        &mut self,
        genome: &Genome<A>,
        limit: u32,
        columns: HeldColumns,
        lines: &[u8],
    ) -> Result<usize, LoadFault>
        requires sound { AreSoundLines columns genome.now limit self.old.read }
        requires few { size_of self.old + length lines.now < 2 ^ 64 }
        requires ended { EndsAtFeed lines.now }
        ensures sound { OnOk result (AreSoundLines columns genome.now limit self.new.read) }
        ensures within { IfOk result (λ taken. taken ≤ length lines.now) }
        ensures few { IfOk result (λ taken. self.new.read.number ≤ size_of self.old + taken) }
        ensures tail { OnOk result (self.new.tail ≡ []) }
        ensures ended { IfOk result (λ taken. IsEnded (drop taken lines.now)) }
        ensures ok { IfOk result (λ taken. (more : List ℕ) → read_on columns genome.now limit self.old (lines.now ++ more) ≡ read_on columns genome.now limit self.new (drop taken lines.now ++ more)) }
        ensures err { IfErr result (λ f. (f ≡ record { line = 0; cause = cause.Memory }) ⊎ ((more : List ℕ) → read_on columns genome.now limit self.old (lines.now ++ more) ≡ Err f)) }
    {
        if self.tail.is_empty() {
            return Ok(0);
        }
        let size = first_end(lines);
        keep(&mut self.tail, &lines[..size])?;
        self.read
            .take_lines(genome, limit, columns, self.tail.as_slice())?;
        self.tail.clear();
        Ok(size)
    }

    /// What is held of the records of the whole file, once all its bytes have come. A line that hasn't ended is the last line. A file
    /// without a record has the width that is handed in.
    ///
    /// # Errors
    ///
    /// The fault of the last line, or an allocation failed.
    pub fn finish(
        self,
        genome: &Genome<A>,
        empty_width: u8,
        limit: u32,
        columns: HeldColumns,
    ) -> Result<Places<A>, LoadFault>
        requires width { IsWidth empty_width }
        requires sound { AreSoundLines columns genome.now limit self.read }
        requires few { size_of self < 2 ^ 64 }
        ensures ok { IfOk result (λ file. finished columns empty_width (read_on columns genome.now limit self []) ≡ Ok file) }
        ensures fit { IfOk result (λ file. All (Fits genome.now file.width) file.records) }
        ensures few { IfOk result (λ file. length file.records ≤ limit) }
        ensures err { IfErr result (λ f. (f ≡ record { line = 0; cause = cause.Memory }) ⊎ (read_on columns genome.now limit self [] ≡ Err f)) }
    {
        let BedReader { mut read, tail } = self;
        read.take_lines(genome, limit, columns, tail.as_slice())?;
        let (found, mut places) = read.finish();
        let width = columns.width(found.unwrap_or(empty_width));
        places.set_width(width);
        Ok(places)
    }
}
