//! Runs whose devices go wrong at each byte, and at each call: what was done before stays done, and nothing is tried again.
use crate::runs::{Begun, Left, Manners, Run, left_by, nothing, sound};
use iv_run::ExitReason;
use std::test::Fail;
use test_faults::{Bad, FAILURES, Manner, Stream};

/// A device of a run.
#[derive(Clone, Copy, PartialEq, Eq)]
pub(crate) enum Device {
    Input,
    Output,
    Messages,
}

/// Where a device goes wrong.
#[derive(Clone, Copy)]
pub(crate) enum Place {
    /// After each number of bytes, in pieces of so many.
    Bytes(usize),
    /// At each call, so.
    Calls(Bad),
}

/// How a device behaves that goes wrong at a place of this number, from 0 on.
pub(crate) fn manner(place: Place, number: u32) -> Manner {
    match place {
        Place::Bytes(piece) => Manner {
            good: number as usize,
            ..Manner::sound(piece)
        },
        Place::Calls(bad) => Manner {
            number: number.saturating_add(1),
            bad,
            ..Manner::sound(3)
        },
    }
}

/// How all devices behave if that one does so.
fn manners(device: Device, place: Place, number: u32) -> Manners {
    let manner = manner(place, number);
    let sound = sound(manner.piece);
    match device {
        Device::Input => Manners {
            input: manner,
            ..sound
        },
        Device::Output => Manners {
            output: manner,
            ..sound
        },
        Device::Messages => Manners {
            messages: manner,
            ..sound
        },
    }
}

/// What is reported of an end that has no message of its own.
pub(crate) fn report(run: &Run<'_>, exit_reason: ExitReason) -> &'static [u8] {
    match exit_reason {
        _ if run.begun != Begun::Program => b"",
        ExitReason::InputUnreadable => b"bedkeep: input cannot be read\n",
        ExitReason::Output => b"bedkeep: output cannot be written\n",
        ExitReason::Memory => b"bedkeep: no memory\n",
        _ => b"",
    }
}

/// The first lines of a script, so many.
pub(crate) fn front_of(script: &[u8], lines: u64) -> &[u8] {
    let mut length = 0usize;
    let mut count = 0u64;
    for line in script.split(|byte| *byte == b'\n') {
        if count < lines {
            length = length.saturating_add(line.len()).saturating_add(1);
        }
        count = count.saturating_add(1);
    }
    script.get(..length).unwrap_or(script)
}

/// Whether two runs have written the same, left the same records, and ended for the same reason.
pub(crate) fn are_same(left: &Left<'_>, other: &Left<'_>) -> bool {
    left.output.taken() == other.output.taken()
        && left.messages.taken() == other.messages.taken()
        && left.records.bytes() == other.records.bytes()
        && left.ended == other.ended
}

/// Whether a run has left what that of the lines before it did, and reported its end.
pub(crate) fn is_as_before(run: &Run<'_>, left: &Left<'_>, before: &Left<'_>) -> bool {
    let report = report(run, left.ended.exit_reason);
    left.output.taken() == before.output.taken()
        && left.messages.taken().strip_suffix(report) == Some(before.messages.taken())
        && left.records.bytes() == before.records.bytes()
}

/// Whether what was written is cut within what the last line writes, or before it.
fn is_cut(left: &Stream<'_>, before: &Stream<'_>, after: &Stream<'_>) -> bool {
    after.taken().starts_with(left.taken())
        && before.taken().len() <= left.taken().len()
        && left.taken().len() < after.taken().len()
}

/// Whether a run whose input can't be read ended at the line of which a part was read.
fn ends_in_input(run: &Run<'_>, left: &Left<'_>, before: &Left<'_>) -> bool {
    let read = run.script.get(..left.input.moved()).unwrap_or(b"");
    let lines = read.iter().filter(|byte| **byte == b'\n').count();
    left.ended.exit_reason == ExitReason::InputUnreadable
        && left.ended.line == (lines as u64).saturating_add(1)
        && is_as_before(run, left, before)
}

/// Whether a run whose output can't be written ended so.
fn ends_in_output(run: &Run<'_>, left: &Left<'_>, before: &Left<'_>, after: &Left<'_>) -> bool {
    let report = report(run, ExitReason::Output);
    left.ended.exit_reason == ExitReason::Output
        && is_cut(&left.output, &before.output, &after.output)
        && left.messages.taken().strip_suffix(report) == Some(before.messages.taken())
        && left.records.bytes() == before.records.bytes()
}

/// Whether a run whose messages can't be written ended so. What ends a run without a script stays the reason.
fn ends_in_messages(left: &Left<'_>, before: &Left<'_>, after: &Left<'_>) -> bool {
    let reason = if left.ended.line == 0 {
        after.ended.exit_reason
    } else {
        ExitReason::Output
    };
    left.ended.exit_reason == reason
        && is_cut(&left.messages, &before.messages, &after.messages)
        && left.output.taken() == before.output.taken()
        && left.records.bytes() == before.records.bytes()
}

/// What the run of the lines before this one leaves; nothing, if it is 0.
pub(crate) fn left_before<'t>(
    rt: &HostRuntime,
    run: &Run<'t>,
    line: u64,
) -> Result<Left<'t>, Fail> {
    if line == 0 {
        return nothing(rt, run.script, sound(1));
    }
    left_by(
        rt,
        rt.alloc(),
        run,
        front_of(run.script, line - 1),
        sound(1_000),
    )
}

/// What the run of the lines up to this one leaves; of all, if it is 0.
fn left_after<'t>(rt: &HostRuntime, run: &Run<'t>, line: u64) -> Result<Left<'t>, Fail> {
    let script = if line == 0 {
        run.script
    } else {
        front_of(run.script, line)
    };
    left_by(rt, rt.alloc(), run, script, sound(1_000))
}

/// Whether a run whose input gave nothing at a call left what that of the script up to there does.
fn ends_there(rt: &HostRuntime, run: &Run<'_>, left: &Left<'_>) -> Result<bool, Fail> {
    let read = run.script.get(..left.input.moved()).unwrap_or(b"");
    let cut = left_by(rt, rt.alloc(), run, read, sound(1_000))?;
    Ok(are_same(left, &cut))
}

/// Whether a run whose device went wrong left what it is to.
fn is_right(
    rt: &HostRuntime,
    run: &Run<'_>,
    device: Device,
    place: Place,
    left: &Left<'_>,
) -> Result<bool, Fail> {
    if let (Device::Input, Place::Calls(Bad::Nothing)) = (device, place) {
        return ends_there(rt, run, left);
    }
    let before = left_before(rt, run, left.ended.line)?;
    let after = left_after(rt, run, left.ended.line)?;
    Ok(match device {
        Device::Input => ends_in_input(run, left, &before),
        Device::Output => ends_in_output(run, left, &before, &after),
        Device::Messages => ends_in_messages(left, &before, &after),
    })
}

/// The number of the last call of a device that went wrong, 0 if none did, and how many calls it had.
fn calls_of(left: &Left<'_>, device: Device) -> (u32, u32) {
    match device {
        Device::Input => (left.input.wrong(), left.input.calls()),
        Device::Output => (left.output.wrong(), left.output.calls()),
        Device::Messages => (left.messages.wrong(), left.messages.calls()),
    }
}

/// Whether the device went wrong in a run. Then it was its last call, and the run left what it is to; else it left all.
fn goes_wrong(
    rt: &HostRuntime,
    run: &Run<'_>,
    device: Device,
    place: Place,
    left: &Left<'_>,
    whole: &Left<'_>,
) -> Result<bool, Fail> {
    let (wrong, calls) = calls_of(left, device);
    let is_met = wrong != 0;
    if is_met && wrong != calls {
        return Err(Fail::new("a device that is tried again"));
    }
    let is_so = if is_met {
        is_right(rt, run, device, place, left)?
    } else {
        are_same(left, whole)
    };
    if is_so {
        Ok(is_met)
    } else {
        Err(Fail::new("something else is left"))
    }
}

/// The same of a run whose device goes wrong at a place.
fn goes_wrong_at(
    rt: &HostRuntime,
    run: &Run<'_>,
    device: Device,
    place: Place,
    number: u32,
    whole: &Left<'_>,
) -> Result<bool, Fail> {
    let left = left_by(
        rt,
        rt.alloc(),
        run,
        run.script,
        manners(device, place, number),
    )?;
    goes_wrong(rt, run, device, place, &left, whole)
}

/// At how many places of a kind a device goes wrong in a run: at each, until it doesn't.
fn places(
    rt: &HostRuntime,
    run: &Run<'_>,
    device: Device,
    place: Place,
    whole: &Left<'_>,
) -> Result<usize, Fail> {
    for number in 0..10_000u32 {
        if !goes_wrong_at(rt, run, device, place, number, whole)? {
            return Ok(number as usize);
        }
    }
    Err(Fail::new("no end of places"))
}

/// Fails unless a run leaves what it is to, whichever byte or call of a device it is at which that goes wrong. So many bytes are given or
/// taken; an input is asked for more than it has.
fn check_device(
    rt: &HostRuntime,
    run: &Run<'_>,
    device: Device,
    bytes: usize,
    whole: &Left<'_>,
) -> Result<(), Fail> {
    for piece in [1, 3] {
        if places(rt, run, device, Place::Bytes(piece), whole)? != bytes {
            return Err(Fail::new("more or fewer bytes"));
        }
    }
    for bad in FAILURES {
        places(rt, run, device, Place::Calls(bad), whole)?;
    }
    places(rt, run, device, Place::Calls(Bad::Nothing), whole)?;
    Ok(())
}

/// The same of each device of a run, which has a script or none.
pub(crate) fn check_devices(rt: &HostRuntime, run: &Run<'_>, whole: &Left<'_>) -> Result<(), Fail> {
    if !run.script.is_empty() {
        let bytes = run.script.len().saturating_add(1);
        check_device(rt, run, Device::Input, bytes, whole)?;
    }
    check_device(rt, run, Device::Output, whole.output.taken().len(), whole)?;
    check_device(
        rt,
        run,
        Device::Messages,
        whole.messages.taken().len(),
        whole,
    )
}
