//! Records as they are printed.
ghost use Rattle.std.specs.Prelude.{◌≡◌, ◌≤◌, ◌++◌, [], codes, decimal, length};
ghost use Rattle.iv_bytes.specs.Sinks.{Puts};
ghost use Rattle.iv_lines.specs.RecordText.{strand_text, rest_text, record_text};

use crate::genome::Genome;
use crate::record_ref::{RecordRef, Strand};
use crate::row_buffer::RowBuffer;
use iv_bytes::{Sink, WriteFault};
use std::alloc::Allocator;

/// The sixth column: `+`, `-`, `.`, or nothing.
pub fn strand_bytes<'t>(strand: Option<Strand>) -> &'t [u8]
    ensures { result.now ≡ strand_text strand }
{
    match strand {
        Some(Strand::Plus) => b"+",
        Some(Strand::Minus) => b"-",
        Some(Strand::Dot) => b".",
        None => b"",
    }
}

/// Puts a record of three columns, and what is laid after them.
fn put_alone<S: Sink, A: Allocator + Copy>(
    sink: &mut S,
    genome: &Genome<A>,
    feature: &RecordRef<'_>,
    tail: &mut RowBuffer,
) -> Result<(), WriteFault>
    requires { rest_text feature.now ≡ [] }
    ensures { Puts (S.state sink.old) (S.state sink.new) result (record_text genome.now feature.now ++ tail.old) }
{
    // Both numbers still have room.
    if tail.len() > 150 {
        return put_long(sink, genome, feature, &mut RowBuffer::new(), &[], tail);
    }
    let name = genome.name_or_empty(feature.seq());
    tail.put_after_numbers(name, feature.start(), feature.stop(), sink)
}

/// Puts a record that has columns after the third, and what is laid after its columns.
fn put_with_rest<S: Sink, A: Allocator + Copy>(
    sink: &mut S,
    genome: &Genome<A>,
    feature: &RecordRef<'_>,
    rest: &[u8],
    tail: &mut RowBuffer,
) -> Result<(), WriteFault>
    requires { codes "\t" ++ rest.now ≡ rest_text feature.now }
    ensures { Puts (S.state sink.old) (S.state sink.new) result (record_text genome.now feature.now ++ tail.old) }
{
    // A TAB and both numbers still have room.
    if tail.len() > 32 || rest.len() > 117 {
        let mut front = RowBuffer::new();
        front.prepend_byte(b'\t');
        return put_long(sink, genome, feature, &mut front, rest, tail);
    }
    tail.prepend(rest);
    tail.prepend_byte(b'\t');
    let name = genome.name_or_empty(feature.seq());
    tail.put_after_numbers(name, feature.start(), feature.stop(), sink)
}

/// Puts a record, and what is laid after its columns, whatever their length. What is laid in front of the rest of its line comes
/// between its interval and that.
fn put_long<S: Sink, A: Allocator + Copy>(
    sink: &mut S,
    genome: &Genome<A>,
    feature: &RecordRef<'_>,
    front: &mut RowBuffer,
    rest: &[u8],
    tail: &mut RowBuffer,
) -> Result<(), WriteFault>
    requires short { length front.old ≤ 1 }
    requires whole { front.old ++ rest.now ≡ rest_text feature.now }
    ensures { Puts (S.state sink.old) (S.state sink.new) result (record_text genome.now feature.now ++ tail.old) }
{
    let name = genome.name_or_empty(feature.seq());
    front.put_after_numbers(name, feature.start(), feature.stop(), sink)?;
    tail.put_after(rest, sink)
}

/// Puts a record's columns, as many as its width, with a TAB between two of them, and what is laid after them.
///
/// The first is the name that the genome has at the record's rank, or nothing if it has none.
/// On a fault the sink has taken a prefix of the text. The buffer's bytes afterwards are unspecified.
pub fn put_row<S: Sink, A: Allocator + Copy>(
    sink: &mut S,
    genome: &Genome<A>,
    feature: &RecordRef<'_>,
    tail: &mut RowBuffer,
) -> Result<(), WriteFault>
    ensures { Puts (S.state sink.old) (S.state sink.new) result (record_text genome.now feature.now ++ tail.old) }
{
    match feature.rest() {
        Some(rest) => put_with_rest(sink, genome, feature, rest, tail),
        None => put_alone(sink, genome, feature, tail),
    }
}

/// Puts a record's columns as [`put_row`] does, with nothing after them and no line end.
pub fn put_record<S: Sink, A: Allocator + Copy>(
    sink: &mut S,
    genome: &Genome<A>,
    feature: &RecordRef<'_>,
) -> Result<(), WriteFault>
    ensures { Puts (S.state sink.old) (S.state sink.new) result (record_text genome.now feature.now) }
{
    put_row(sink, genome, feature, &mut RowBuffer::new())
}

/// Puts the line of a record: its columns and a line feed.
///
/// On a fault the sink has taken a prefix of the line.
pub fn put_line<S: Sink, A: Allocator + Copy>(
    sink: &mut S,
    genome: &Genome<A>,
    feature: &RecordRef<'_>,
) -> Result<(), WriteFault>
    ensures { Puts (S.state sink.old) (S.state sink.new) result (record_text genome.now feature.now ++ codes "\n") }
{
    let mut tail = RowBuffer::new();
    tail.prepend_byte(b'\n');
    put_row(sink, genome, feature, &mut tail)
}

/// Puts the line of a record with a number after its columns.
///
/// On a fault the sink has taken a prefix of the line.
pub fn put_numbered<S: Sink, A: Allocator + Copy>(
    sink: &mut S,
    genome: &Genome<A>,
    feature: &RecordRef<'_>,
    number: u64,
) -> Result<(), WriteFault>
    ensures { Puts (S.state sink.old) (S.state sink.new) result (record_text genome.now feature.now ++ codes "\t" ++ decimal number ++ codes "\n") }
{
    let mut tail = RowBuffer::new();
    tail.prepend_byte(b'\n');
    tail.prepend_number(number);
    tail.prepend_byte(b'\t');
    put_row(sink, genome, feature, &mut tail)
}
