//! The rows of depth, and how they are written.
ghost use Rattle.std.specs.Prelude.{ℕ, ◌++◌, ◌+◌, ◌-◌, ◌<◌, length, codes, decimal, OnOk};
ghost use Rattle.std.specs.List.{flat_map, range_with_len};
ghost use Rattle.iv_bytes.specs.Sinks.{Puts};
ghost use Rattle.iv_depth.specs.DepthRows.{run_row, position_row, rows_between};
ghost use Rattle.iv_depth.specs.Inside.Texts.{sequence_text, text_by};
ghost use Rattle.iv_depth.specs.Inside.Walks.{AreAhead, depth_by};
ghost use Rattle.iv_ledger.specs.Steps.{TakesUpTo};
ghost use Rattle.iv_track.specs.Inside.Steps.{TakesForEach};

use crate::change_cursor::{ChangeCursor, DepthChanges};
use crate::changes::Changes;
use iv_bytes::{Sink, WriteFault};
use iv_ledger::Meter;
use iv_lines::{Genome, RowBuffer};
use std::alloc::Allocator;

/// Which rows say how many records cover each position, as the options of `bedtools genomecov` do.
#[derive(Clone, Copy, Debug, PartialEq, Eq)]
pub enum DepthOutput {
    /// `-bg`: a row for each maximal interval of one depth above 0.
    Covered,
    /// `-bga`: a row for each maximal interval of one depth, also of depth 0.
    All,
    /// `-d`: a row for each position, counted from 1.
    EachPosition,
}

/// Puts the rows of the positions from `start` to `stop`, 0-based and half-open, which are all of this depth.
///
/// There are none if `stop` is not after `start`.
pub(crate) fn put_stretch<S: Sink>(
    output: DepthOutput,
    name: &[u8],
    start: u64,
    stop: u64,
    depth: u64,
    sink: &mut S,
) -> Result<(), WriteFault>
    ensures { Puts (S.state sink.old) (S.state sink.new) result (rows_between output name.now (λ _. depth) start stop) }
{
    if start >= stop {
        return Ok(());
    }
    match output {
        DepthOutput::Covered => {
            if depth == 0 {
                Ok(())
            } else {
                put_run(name, start, stop, depth, sink)
            }
        }
        DepthOutput::All => put_run(name, start, stop, depth, sink),
        DepthOutput::EachPosition => put_positions(name, start, stop, depth, sink),
    }
}

/// Puts the row of a run: name, start, stop and depth.
fn put_run<S: Sink>(
    name: &[u8],
    start: u64,
    stop: u64,
    depth: u64,
    sink: &mut S,
) -> Result<(), WriteFault>
    ensures { Puts (S.state sink.old) (S.state sink.new) result (run_row name.now (record { start = start; stop = stop; value = depth })) }
{
    let mut tail = RowBuffer::new();
    tail.prepend_byte(b'\n');
    tail.prepend_number(depth);
    tail.prepend_byte(b'\t');
    tail.put_after_numbers(name, start, stop, sink)
}

/// Puts a row for each of the positions, which are all of this depth.
pub(crate) fn put_positions<S: Sink>(
    name: &[u8],
    start: u64,
    stop: u64,
    depth: u64,
    sink: &mut S,
) -> Result<(), WriteFault>
    ensures { Puts (S.state sink.old) (S.state sink.new) result (flat_map (λ p. position_row name.now p depth) (range_with_len start (stop - start))) }
{
    for position in start..stop {
        put_position(name, position + 1, depth, sink)?;
    }
    Ok(())
}

/// Puts the row of a position: name, position counted from 1, and depth.
fn put_position<S: Sink>(
    name: &[u8],
    number: u64,
    depth: u64,
    sink: &mut S,
) -> Result<(), WriteFault>
    ensures { Puts (S.state sink.old) (S.state sink.new) result (name.now ++ codes "\t" ++ decimal number ++ codes "\t" ++ decimal depth ++ codes "\n") }
{
    let mut tail = RowBuffer::new();
    tail.prepend_byte(b'\n');
    tail.put_after_numbers(name, number, depth, sink)
}

/// Puts the rows of the sequence of this rank. At most one step for each change on it, and no memory.
pub(crate) fn put_sequence<A: Allocator + Copy, C: DepthChanges, S: Sink>(
    output: DepthOutput,
    genome: &Genome<A>,
    seq: u32,
    changes: &mut C,
    meter: &mut C::Meter,
    sink: &mut S,
) -> Result<(), WriteFault>
    requires { (f : ℕ → ℕ → ℕ) × C.are_of changes.old genome.now f seq 0 0 }
    ensures text { (f : ℕ → ℕ → ℕ) → C.are_of changes.old genome.now f seq 0 0 → Puts (S.state sink.old) (S.state sink.new) result (sequence_text output genome.now f seq) }
    ensures past { (f : ℕ → ℕ → ℕ) → C.are_of changes.old genome.now f seq 0 0 → OnOk result (C.are_past changes.new genome.now f (seq + 1)) }
    ensures steps { TakesForEach (C.reading meter.old) (C.reading meter.new) (C.left changes.old) (C.left changes.new) }
{
    let name = genome.name_or_empty(seq);
    let length = genome.length_or_zero(seq);
    let mut start: u64 = 0;
    let mut depth: i64 = 0;
    while let Some((stop, change)) = changes.next_on(seq, meter) {
        put_stretch(output, name, start, stop, depth.unsigned_abs(), sink)?;
        start = stop;
        depth += change;
    }
    put_stretch(output, name, start, length, depth.unsigned_abs(), sink)
}

/// Puts the rows of all sequences, by rank. At most two steps more than there are changes, and no memory.
pub(crate) fn put_genome<A: Allocator + Copy, S: Sink>(
    output: DepthOutput,
    changes: &Changes<A>,
    genome: &Genome<A>,
    meter: &mut Meter,
    sink: &mut S,
) -> Result<(), WriteFault>
    requires { AreAhead genome.now (depth_by changes.now) 0 0 0 changes.now }
    ensures text { Puts (S.state sink.old) (S.state sink.new) result (text_by output genome.now (depth_by changes.now)) }
    ensures steps { TakesUpTo meter.old meter.new (2 + length changes.now) }
{
    let mut changes_left = ChangeCursor::of(changes, meter);
    for seq in 0..genome.count() {
        put_sequence(output, genome, seq, &mut changes_left, meter, sink)?;
    }
    Ok(())
}
