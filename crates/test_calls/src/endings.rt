//! The exit status of each ending, and its line.
use crate::plans::plan_of;
use iv_args::Slot;
use iv_bytes::MemSink;
use iv_cli::run_status;
use iv_lines::{Fault, LoadCause, LoadFault};
use iv_run::{CliFault, ExitReason, status};
use iv_session::{RunCause, RunFault, Summary};
use std::test::Fail;

/// The status of damage of a file.
fn status_of_damage(slot: Slot) -> u8 {
    let damage = LoadFault {
        line: 1,
        cause: LoadCause::Name,
    };
    status(&CliFault::Damaged(slot, damage))
}

#[test]
fn statuses_of_damage(rt: HostRuntime) {
    for slot in [Slot::First, Slot::Other, Slot::Bases] {
        assert!(rt; status_of_damage(slot) == 3);
    }
}

/// The statuses of arguments that are refused, of an output that fails, and if there is no memory.
fn other_statuses() -> [u8; 3] {
    [
        status(&CliFault::Words(Fault::Words)),
        status(&CliFault::Output),
        status(&CliFault::Memory),
    ]
}

#[test]
fn statuses_of_faults(rt: HostRuntime) {
    let [words, output, memory] = other_statuses();
    assert!(rt; (words == 2) & (output == 4) & (memory == 5));
}

#[test]
fn status_of_wrong_words(rt: HostRuntime) {
    assert!(rt; ExitReason::from(Fault::Words).status() == 2);
}

/// The status of a script of which so many lines are refused.
fn status_of_lines(refused: u64) -> u8 {
    run_status(&Ok(Summary { lines: 5, refused }))
}

/// The status of a script that ends early.
fn status_of_end(cause: RunCause) -> u8 {
    run_status(&Err(RunFault { line: 1, cause }))
}

#[test]
fn statuses_of_scripts(rt: HostRuntime) {
    assert!(rt; status_of_lines(0) == 0 && status_of_lines(2) == 1);
}

#[test]
fn statuses_of_scripts_that_end_early(rt: HostRuntime) {
    for (cause, want) in [
        (RunCause::Input, 4),
        (RunCause::TooLong, 4),
        (RunCause::Output, 4),
        (RunCause::Messages, 4),
        (RunCause::Memory, 5),
    ] {
        assert!(rt; status_of_end(cause) == want);
    }
}

/// Whether this is the line of an ending of a run without a FASTA file.
fn reports(rt: &HostRuntime, reason: ExitReason, want: &[u8]) -> Result<bool, Fail> {
    let plan = plan_of(rt, b"intersect -g g -a a -b b")?;
    let mut sink = MemSink::new(rt.alloc(), 100, 3)?;
    reason.put_line(reason.file_meant(&plan), &mut sink)?;
    Ok(sink.bytes() == want)
}

#[test]
fn lines_of_endings(rt: HostRuntime) -> Result<(), Fail> {
    let damage = LoadFault {
        line: 7,
        cause: LoadCause::Name,
    };
    for (reason, want) in [
        (ExitReason::Done, b"".as_slice()),
        (ExitReason::Refused, b""),
        (ExitReason::Words(Fault::Words), b"bedkeep: bad options\n"),
        (
            ExitReason::Damaged(Slot::Sizes, damage),
            b"bedkeep: g: line 7: bad name\n",
        ),
        (
            ExitReason::Unreadable(Slot::First),
            b"bedkeep: a: cannot be read\n",
        ),
        (ExitReason::TooLong(Slot::Other), b"bedkeep: b: too long\n"),
        (
            ExitReason::Unreadable(Slot::Bases),
            b"bedkeep: : cannot be read\n",
        ),
        (
            ExitReason::InputUnreadable,
            b"bedkeep: input cannot be read\n",
        ),
        (ExitReason::InputTooLong, b"bedkeep: input too long\n"),
        (ExitReason::Output, b"bedkeep: output cannot be written\n"),
        (ExitReason::Memory, b"bedkeep: no memory\n"),
    ] {
        assert!(rt; reports(&rt, reason, want)?);
    }
    Ok(())
}
