//! The rows of one region of a sequence.
ghost use Rattle.std.specs.Prelude.{◌≡◌, ◌+◌, ◌*◌, ◌<◌, ◌≤◌, ℕ, length, pos};
ghost use Rattle.iv_bytes.specs.Sinks.{Puts};
ghost use Rattle.iv_lines.specs.Genome.{sequence_name, sequence_length};
ghost use Rattle.iv_ledger.specs.Steps.{TakesUpTo};
ghost use Rattle.iv_depth.specs.RegionRows.{covered_runs_in, rows_in};
ghost use Rattle.iv_depth.specs.Inside.Region.{AreChangesOn, IsRunStart, AreLeft, EndsRun};
ghost use Rattle.iv_depth.specs.Inside.RunRows.{run_rows};
ghost use Rattle.iv_depth.specs.Inside.Walks.{depth_by};

use crate::changes::Changes;
use crate::depth_rows::{DepthOutput, put_positions, put_stretch};
use iv_bytes::{Sink, WriteFault};
use iv_ledger::{Meter, Walk};
use iv_lines::Genome;
use std::alloc::Allocator;

/// The length of a sequence, which fits in 32 bits.
pub(crate) fn length_of<A: Allocator + Copy>(genome: &Genome<A>, seq: u32) -> u32
    ensures { result ≡ sequence_length genome.now seq }
{
    genome.length_u32(seq).unwrap_or(0)
}

/// Where the run that holds the position starts: at the last change up to there, or at 0. One step.
fn run_start<A: Allocator + Copy>(
    changes: &Changes<A>,
    seq: u32,
    position: u32,
    meter: &mut Meter,
) -> u32
    requires { (long : ℕ) × AreChangesOn (depth_by changes.now seq) seq long changes.now }
    ensures start { IsRunStart (depth_by changes.now seq) position result }
    ensures step { TakesUpTo meter.old meter.new 1 }
{
    let Some(((change_seq, start), _)) = changes.at_or_before(&(seq, position), meter) else {
        return 0;
    };
    if *change_seq != seq {
        return 0;
    }
    *start
}

/// Where a run of this sequence stops, and by how much the depth changes there. One step.
fn run_stop<A: Allocator + Copy>(
    left: &mut Walk<'_, (u32, u32), i64, A>,
    seq: u32,
    length: u32,
    meter: &mut Meter,
) -> (u32, i64)
    ensures stop { (f : ℕ → ℕ) (here d : ℕ) → AreLeft f seq here length d left.old → here < length → EndsRun f seq here length d result.0 result.1 left.new }
    ensures step { TakesUpTo meter.old meter.new 1 }
{
    let Some(((change_seq, position), change)) = left.next(meter) else {
        return (length, 0);
    };
    if *change_seq != seq {
        return (length, 0);
    }
    (*position, *change)
}

/// Puts the rows of a run from `from` to `to`: its own row, or those of its positions in the region.
fn put_run_in<S: Sink>(
    output: DepthOutput,
    name: &[u8],
    depth: u64,
    start: u64,
    stop: u64,
    from: u64,
    to: u64,
    sink: &mut S,
) -> Result<(), WriteFault>
    ensures { Puts (S.state sink.old) (S.state sink.new) result (run_rows output name.now depth start stop from to) }
{
    match output {
        DepthOutput::EachPosition => {
            put_positions(name, from.max(start), to.min(stop), depth, sink)
        }
        DepthOutput::Covered | DepthOutput::All => put_stretch(output, name, from, to, depth, sink),
    }
}

/// Puts the rows whose interval shares a position with the region, whose first position is of this depth.
///
/// At most 3 steps, and 2 more for each row of a depth above 0. It takes no memory.
pub(crate) fn put_region<A: Allocator + Copy, S: Sink>(
    output: DepthOutput,
    changes: &Changes<A>,
    genome: &Genome<A>,
    seq: u32,
    start: u32,
    stop: u32,
    at: i64,
    meter: &mut Meter,
    sink: &mut S,
) -> Result<(), WriteFault>
    requires right { AreChangesOn (depth_by changes.now seq) seq (sequence_length genome.now seq) changes.now }
    requires some { start < stop }
    requires within { stop ≤ sequence_length genome.now seq }
    requires at { at ≡ pos (depth_by changes.now seq start) }
    ensures text { Puts (S.state sink.old) (S.state sink.new) result (rows_in output (sequence_name genome.now seq) (depth_by changes.now seq) (sequence_length genome.now seq) start stop) }
    ensures steps { TakesUpTo meter.old meter.new (3 + 2 * length (covered_runs_in (depth_by changes.now seq) (sequence_length genome.now seq) start stop)) }
{
    let name = genome.name_or_empty(seq);
    let length = length_of(genome, seq);
    let mut from = run_start(changes, seq, start, meter);
    let mut depth = at;
    let mut left = changes.walk(&(seq, start + 1), meter);
    while from < stop {
        let (to, change) = run_stop(&mut left, seq, length, meter);
        put_run_in(
            output,
            name,
            depth.unsigned_abs(),
            start as u64,
            stop as u64,
            from as u64,
            to as u64,
            sink,
        )?;
        from = to;
        depth += change;
    }
    Ok(())
}
