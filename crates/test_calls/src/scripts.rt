//! Scripts at their limits, in pieces: how they end, and what they have written then.
use crate::fixtures::{Files, SIZES, alone, session_of};
use iv_bytes::{MemSink, MemSource};
use iv_session::{RunCause, RunFault, ScriptLimits, Summary, Unseen, run_script};
use iv_workspace::Session;
use std::test::Fail;

/// A script, after how many bytes its input fails, and how many lines it may have, of how many bytes each.
type Script<'a> = (&'a [u8], usize, u32, u32);

/// All bytes of a script.
const ALL: usize = usize::MAX;

/// How a script ends, what it has written then, and how many records the session has.
#[derive(Clone, Copy)]
struct Ended<'a> {
    done: Result<Summary, RunFault>,
    output: &'a [u8],
    messages: &'a [u8],
    left: u32,
}

/// How a script of a session ends that comes and is written in pieces of so many bytes. There is just enough room for what it is to write.
fn ends(
    rt: &HostRuntime,
    session: &mut Session,
    script: Script<'_>,
    piece: usize,
    want: &Ended<'_>,
) -> Result<bool, Fail> {
    if piece == 0 {
        return Err(Fail::new("pieces of no byte"));
    }
    let mut output = MemSink::new(rt.alloc(), want.output.len(), piece)?;
    let mut messages = MemSink::new(rt.alloc(), want.messages.len(), piece)?;
    let (text, good, lines, line_bytes) = script;
    let limits = ScriptLimits { lines, line_bytes };
    let mut source = MemSource::new(text, good, piece);
    let done = run_script(
        rt.alloc(),
        session,
        &limits,
        &mut source,
        &mut output,
        &mut messages,
        &mut Unseen,
    );
    Ok(
        done == want.done
            && output.bytes() == want.output
            && messages.bytes() == want.messages
            && session.len() == want.left,
    )
}

/// The same over a session of files.
fn ends_over(
    rt: &HostRuntime,
    files: &Files<'_>,
    script: Script<'_>,
    piece: usize,
    want: &Ended<'_>,
) -> Result<bool, Fail> {
    let mut session = session_of(rt, files)?;
    ends(rt, &mut session, script, piece, want)
}

/// The same in pieces of each of some numbers of bytes.
fn ends_in_pieces(
    rt: &HostRuntime,
    files: &Files<'_>,
    script: Script<'_>,
    want: &Ended<'_>,
) -> Result<bool, Fail> {
    for piece in [1, 2, 3, 7, 1000] {
        if !ends_over(rt, files, script, piece, want)? {
            return Ok(false);
        }
    }
    Ok(true)
}

/// Whether each script stops at a line for a cause, without a byte written, and leaves so many records.
fn stop(rt: &HostRuntime, scripts: &[(Script<'_>, u64, RunCause, u32)]) -> Result<bool, Fail> {
    for (script, line, cause, left) in scripts {
        let fault = RunFault {
            line: *line,
            cause: *cause,
        };
        let want = Ended {
            done: Err(fault),
            output: b"",
            messages: b"",
            left: *left,
        };
        if !ends_in_pieces(rt, &alone(b"", 9), *script, &want)? {
            return Ok(false);
        }
    }
    Ok(true)
}

/// Scripts with a line too many, or one that is too long.
const BEYOND: [(Script<'static>, u64, RunCause, u32); 6] = [
    ((b"#\n\n#\n", ALL, 2, 99), 3, RunCause::TooLong, 0),
    (
        (
            b"add\tchr1\t10\t20\nadd\tchr1\t30\t40\nadd\tchr1\t50\t60\n",
            ALL,
            2,
            99,
        ),
        3,
        RunCause::TooLong,
        2,
    ),
    ((b"print\tm\n", ALL, 9, 5), 1, RunCause::TooLong, 0),
    ((b"print\tm", ALL, 9, 6), 1, RunCause::TooLong, 0),
    ((b"#\n#1\r\n", ALL, 9, 2), 2, RunCause::TooLong, 0),
    (
        (b"add\tchr1\t10\t20\nadd\tchr1\t100\t20\n", ALL, 9, 14),
        2,
        RunCause::TooLong,
        1,
    ),
];

#[test]
fn scripts_beyond_their_limits(rt: HostRuntime) -> Result<(), Fail> {
    assert!(rt; stop(&rt, &BEYOND)?);
    Ok(())
}

/// Three lines, of 16 bytes and 16 and 13. The first one is done, the others are refused.
const PAST_THE_END: &[u8] = b"add\tchr1\t90\t100\nadd\tchr1\t90\t101\nadd\tchr3\t0\t1\n";

/// Inputs that fail in a line, which is not run, unless what was read of it passes a limit.
const FAILING: [(Script<'static>, u64, RunCause, u32); 7] = [
    ((b"#\n#123", 4, 9, 2), 2, RunCause::Input, 0),
    ((b"#\n#123", 5, 9, 2), 2, RunCause::TooLong, 0),
    ((PAST_THE_END, 0, 9, 99), 1, RunCause::Input, 0),
    ((PAST_THE_END, 15, 9, 99), 1, RunCause::Input, 0),
    ((PAST_THE_END, 16, 9, 99), 2, RunCause::Input, 1),
    ((PAST_THE_END, 20, 9, 99), 2, RunCause::Input, 1),
    ((PAST_THE_END, 31, 9, 99), 2, RunCause::Input, 1),
];

#[test]
fn inputs_that_fail(rt: HostRuntime) -> Result<(), Fail> {
    assert!(rt; stop(&rt, &FAILING)?);
    Ok(())
}

/// What is written of a script that is done: how many lines are refused, its output, its messages, and how many records are left.
type Done<'a> = (u64, &'a [u8], &'a [u8], u32);

/// A row of a merge.
const ROW: &[u8] = b"chr1\t10\t20\n";

/// Scripts of as many lines as they may have, of which the longest has as many bytes as it may have.
const WITHIN: [(Script<'static>, Done<'static>); 6] = [
    ((b"", ALL, 0, 0), (0, b"", b"", 0)),
    ((b"\n", ALL, 1, 0), (0, b"", b"", 0)),
    ((b"#1\r\n#12", ALL, 2, 3), (0, b"", b"", 0)),
    (
        (
            b"open\tm\tmerge\npaint\tm\nadd\tchr1\t10\t20\nprint\tm",
            ALL,
            4,
            14,
        ),
        (1, ROW, b"line 2: no such command or wrong fields\n", 1),
    ),
    // Lines that end in CR LF, except the last, which has no end.
    (
        (
            b"open\tm\tmerge\r\n# a note\r\npaint\tm\r\nadd\tchr1\t10\t20\r\nprint\tm",
            ALL,
            5,
            15,
        ),
        (1, ROW, b"line 3: no such command or wrong fields\n", 1),
    ),
    (
        (PAST_THE_END, ALL, 3, 15),
        (
            2,
            b"",
            b"line 2: end past the sequence's end\nline 3: end past the sequence's end\n",
            1,
        ),
    ),
];

/// Whether a script is done over a session of files, and has written this.
fn is_done(
    rt: &HostRuntime,
    files: &Files<'_>,
    script: Script<'_>,
    want: Done<'_>,
) -> Result<bool, Fail> {
    let (refused, output, messages, left) = want;
    let summary = Summary {
        lines: u64::from(script.2),
        refused,
    };
    let want = Ended {
        done: Ok(summary),
        output,
        messages,
        left,
    };
    ends_in_pieces(rt, files, script, &want)
}

#[test]
fn scripts_within_their_limits(rt: HostRuntime) -> Result<(), Fail> {
    for (script, want) in WITHIN {
        assert!(rt; is_done(&rt, &alone(b"", 9), script, want)?);
    }
    Ok(())
}

/// A session of three columns without a record, of which it may have none.
const NO_RECORD: Files<'static> = Files {
    sizes: SIZES,
    first: b"",
    second: None,
    bases: None,
    width: 3,
    limit: 0,
};

/// Sessions, and scripts that meet their limit of records, of three columns and of more.
const FULL: [(Files<'static>, Script<'static>, Done<'static>); 5] = [
    (
        NO_RECORD,
        (
            b"add\tchr1\t10\t20\nremove\tchr1\t10\t20\nreplace\tchr1\t10\t20\tchr1\t10\t20\n",
            ALL,
            3,
            99,
        ),
        (
            3,
            b"",
            b"line 1: track is full\nline 2: no such record\nline 3: no such record\n",
            0,
        ),
    ),
    (
        Files {
            limit: 2,
            ..NO_RECORD
        },
        (
            b"open\tm\tmerge\nadd\tchr1\t10\t20\nadd\tchr1\t30\t40\nadd\tchr1\t50\t60\nprint\tm\nreplace\tchr1\t30\t40\tchr1\t50\t60\nprint\tm\nremove\tchr1\t10\t20\nadd\tchr2\t0\t1\nprint\tm\n",
            ALL,
            10,
            99,
        ),
        (
            1,
            b"chr1\t10\t20\nchr1\t30\t40\nchr1\t10\t20\nchr1\t50\t60\nchr1\t50\t60\nchr2\t0\t1\n",
            b"line 4: track is full\n",
            2,
        ),
    ),
    (
        Files {
            width: 4,
            limit: 1,
            ..NO_RECORD
        },
        (
            b"add\tchr1\t10\t20\ta\nadd\tchr1\t10\t20\ta\nadd\tchr1\t30\t40\tb\nreplace\tchr1\t10\t20\ta\tchr1\t30\t40\tb\nadd\tchr1\t10\t20\ta\n",
            ALL,
            5,
            99,
        ),
        (
            3,
            b"",
            b"line 2: track is full\nline 3: track is full\nline 5: track is full\n",
            1,
        ),
    ),
    (
        Files {
            first: b"chr1\t10\t20\ta\t0\t+\n",
            limit: 1,
            ..NO_RECORD
        },
        (
            b"add\tchr1\t10\t20\ta\t0\t+\nadd\tchr1\t30\t40\tb\t0\t-\nremove\tchr1\t10\t20\ta\t0\t+\nadd\tchr1\t30\t40\tb\t0\t-\n",
            ALL,
            4,
            99,
        ),
        (2, b"", b"line 1: track is full\nline 2: track is full\n", 1),
    ),
    // A full second file, and lines that mean no record.
    (
        Files {
            first: b"chr1\t10\t20\nchr1\t30\t40\n",
            second: Some(b"chr1\t20\t30\nchr1\t15\t18\nchr1\t15\t18\n"),
            limit: 3,
            ..NO_RECORD
        },
        (
            b"addb\tchr1\t1\t2\nreplaceb\tchr1\t20\t30\tchr1\t12\t14\nremoveb\tchr1\t15\t18\naddb\tchr2\t0\t5\naddb\tx\nremoveb\nreplaceb\tchr1\t12\t14\nreplaceb\tchr9\t1\t2\tchr8\t1\t2\nreplaceb\tchr1\t12\t14\tchr1\t5\t5\nopen\tb\tintersect -wa -wb\nprint\tb\n",
            ALL,
            11,
            99,
        ),
        (
            6,
            b"chr1\t10\t20\tchr1\t12\t14\nchr1\t10\t20\tchr1\t15\t18\n",
            b"line 1: track is full\nline 5: wrong number of columns\nline 6: wrong number of columns\nline 7: wrong number of columns\nline 8: unknown sequence\nline 9: start not below end\n",
            2,
        ),
    ),
];

#[test]
fn scripts_at_the_limit_of_records(rt: HostRuntime) -> Result<(), Fail> {
    for (files, script, want) in FULL {
        assert!(rt; is_done(&rt, &files, script, want)?);
    }
    Ok(())
}
