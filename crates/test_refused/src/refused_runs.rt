//! Runs with each of their allocations refused in turn: a run that ends, or a line that is refused, does nothing else.
use crate::runs::{Left, Run, left_by, nothing, sound};
use crate::session_files::Refusing;
use crate::wrong_devices::{are_same, front_of, is_as_before, left_before};
use iv_lines::lines_of;
use iv_run::ExitReason;
use std::test::Fail;
use test_faults::{RefusesNth, refused};

/// The first line that was refused because an allocation failed, from 1 on; 0, if none was.
fn refused_line(rt: &HostRuntime, left: &Left<'_>) -> Result<u64, Fail> {
    for number in 1..100u64 {
        let message = format!(in rt.alloc(); "line {number}: no memory")?;
        if lines_of(left.messages.taken()).any(|line| line == message.as_bytes()) {
            return Ok(number);
        }
    }
    Ok(0)
}

/// The script without a line, of whose place a comment is.
fn without_line(rt: &HostRuntime, script: &[u8], line: u64) -> Result<Vec<u8>, Fail> {
    let front = front_of(script, line.saturating_sub(1));
    let back = script.get(front_of(script, line).len()..).unwrap_or(b"");
    Ok([front, b"#\n", back].concat(rt.alloc())?)
}

/// The messages without those of out of memory.
fn other_messages(rt: &HostRuntime, messages: &[u8]) -> Result<Vec<u8>, Fail> {
    let mut others = Vec::new(rt.alloc());
    for line in lines_of(messages) {
        if !line.ends_with(b": no memory") {
            others.extend_from_slice(line)?;
            others.push(b'\n')?;
        }
    }
    Ok(others)
}

/// Whether a run of which a line was refused left what the script without that line does.
fn is_without_line(
    rt: &HostRuntime,
    run: &Run<'_>,
    left: &Left<'_>,
    line: u64,
) -> Result<bool, Fail> {
    let script = without_line(rt, run.script, line)?;
    let without = left_by(rt, rt.alloc(), run, script.as_slice(), sound(1_000))?;
    let messages = other_messages(rt, left.messages.taken())?;
    Ok(
        left.ended.exit_reason == ExitReason::Refused
            && left.output.taken() == without.output.taken()
            && messages.as_slice() == without.messages.taken()
            && left.records.bytes() == without.records.bytes(),
    )
}

/// Whether a run in which an allocation failed left what it is to.
fn is_right(rt: &HostRuntime, run: &Run<'_>, left: &Left<'_>) -> Result<bool, Fail> {
    if left.ended.exit_reason == ExitReason::Memory {
        let before = left_before(rt, run, left.ended.line)?;
        return Ok(is_as_before(run, left, &before));
    }
    let line = refused_line(rt, left)?;
    is_without_line(rt, run, left, line)
}

/// Whether a run ended, or a line of it was refused, because an allocation failed.
fn is_refused(rt: &HostRuntime, left: &Left<'_>) -> Result<bool, Fail> {
    Ok(left.ended.exit_reason == ExitReason::Memory || refused_line(rt, left)? != 0)
}

/// Fails unless a run left what it is to. The records that are printed after it may lack an allocation, too.
fn check(
    rt: &HostRuntime,
    run: &Run<'_>,
    left: &Left<'_>,
    is_refused: bool,
    whole: &Left<'_>,
) -> Result<(), Fail> {
    let is_so = if is_refused {
        is_right(rt, run, left)?
    } else {
        are_same(left, whole) || left.records.bytes().is_empty()
    };
    if is_so {
        Ok(())
    } else {
        Err(Fail::new("something else is left"))
    }
}

/// Makes a run, which comes and goes in pieces of three bytes. Whether it was refused.
fn is_refused_in<'t>(
    rt: &HostRuntime,
    alloc: Refusing<'_>,
    run: &Run<'t>,
    left: &mut Left<'t>,
) -> Result<bool, Fail> {
    *left = left_by(rt, alloc, run, run.script, sound(3))?;
    is_refused(rt, left)
}

/// How many allocations a run has, each of them refused in turn.
fn allocations_by(
    rt: &HostRuntime,
    alloc: Refusing<'_>,
    run: &Run<'_>,
    whole: &Left<'_>,
) -> Result<u64, Fail> {
    refused(
        alloc,
        || nothing(rt, run.script, sound(3)),
        |left| is_refused_in(rt, alloc, run, left),
        |left, is_refused| check(rt, run, left, is_refused, whole),
    )
}

/// The same with an allocator of its own.
pub(crate) fn allocations(rt: &HostRuntime, run: &Run<'_>, whole: &Left<'_>) -> Result<u64, Fail> {
    let alloc = RefusesNth::new(rt.alloc(), u64::MAX);
    allocations_by(rt, &alloc, run, whole)
}
