//! Refused lines of a script, while the session's next allocation fails: each is answered by its own fault, and allocates nothing.
use crate::fixtures::{Files, alone, joined, session_in};
use iv_bytes::{MemSink, MemSource};
use iv_session::{ScriptLimits, Unseen, run_script};
use iv_workspace::Session;
use std::alloc::Global;
use std::test::Fail;
use test_faults::{RefusesNth, seen};

/// Where the memory of a session comes from, and that of the lines that are read.
#[derive(Clone, Copy)]
struct Memory<'a> {
    session: &'a RefusesNth<Global>,
    lines: &'a RefusesNth<Global>,
}

/// An allocator that grants all allocations.
fn granting(rt: &HostRuntime) -> RefusesNth<Global> {
    RefusesNth::new(rt.alloc(), u64::MAX)
}

/// A line, or a part of one, and the text of its fault.
type Refusal<'a> = (&'a [u8], &'a [u8]);

/// What is before a record in a line, and after it.
type Around<'a> = (&'a [u8], &'a [u8]);

/// What a script writes: its output and its messages.
fn written<'a>(
    rt: &HostRuntime,
    memory: Memory<'a>,
    session: &mut Session<&'a RefusesNth<Global>>,
    script: &[u8],
) -> Result<(MemSink, MemSink), Fail> {
    let mut output = MemSink::new(rt.alloc(), 999, 99)?;
    let mut messages = MemSink::new(rt.alloc(), 99, 99)?;
    let limits = ScriptLimits {
        lines: 99,
        line_bytes: 199,
    };
    let mut source = MemSource::new(script, usize::MAX, 99);
    run_script(
        memory.lines,
        session,
        &limits,
        &mut source,
        &mut output,
        &mut messages,
        &mut Unseen,
    )?;
    Ok((output, messages))
}

/// Whether one line is answered by this fault and prints nothing, while the session's next allocation fails.
fn is_reported<'a>(
    rt: &HostRuntime,
    memory: Memory<'a>,
    session: &mut Session<&'a RefusesNth<Global>>,
    line: &[u8],
    fault: &[u8],
) -> Result<bool, Fail> {
    let want = joined(rt, &[b"line 1: ", fault, b"\n"])?;
    memory.session.again(1);
    let (output, messages) = written(rt, memory, session, line)?;
    Ok(output.bytes().is_empty() && messages.bytes() == want.as_slice())
}

/// Whether each of these, between two texts, is answered by its fault and allocates nothing.
fn are_reported<'a>(
    rt: &HostRuntime,
    memory: Memory<'a>,
    session: &mut Session<&'a RefusesNth<Global>>,
    lines: &[Refusal<'_>],
    around: Around<'_>,
) -> Result<bool, Fail> {
    let (front, later) = around;
    let before = memory.session.refusals();
    for (middle, fault) in lines {
        let line = joined(rt, &[front, *middle, later])?;
        if !is_reported(rt, memory, session, line.as_slice(), *fault)? {
            return Ok(false);
        }
    }
    Ok(memory.session.refusals() == before)
}

/// Damaged records of six columns, and the fault of each.
const DAMAGED: [Refusal<'static>; 21] = [
    (b"", b"wrong number of columns"),
    (b"chr1\t10\t20\tn\t0", b"wrong number of columns"),
    (b"chr1\t10\t20\tn\t0\t+\t", b"wrong number of columns"),
    (b"chr9\tx\ty\tn\t0\t+", b"unknown sequence"),
    (b"\t10\t20\tn\t0\t+", b"unknown sequence"),
    (b"chr1\t-1\t20\tn\t0\t+", b"start is not a number"),
    (b"chr1\t\t20\tn\t0\t+", b"start is not a number"),
    (b"chr1\t00000000010\t20\tn\t0\t+", b"start is not a number"),
    (b"chr1\t10\tx\tn\t0\t+", b"end is not a number"),
    (b"chr1\t10\t\tn\t0\t+", b"end is not a number"),
    (b"chr1\t10\t10\tn\t0\t+", b"start not below end"),
    (b"chr1\t9999999999\t200\tn\t0\t+", b"start not below end"),
    (b"chr1\t90\t101\tn\t0\t+", b"end past the sequence's end"),
    (b"chr3\t0\t1\tn\t0\t+", b"end past the sequence's end"),
    (b"chr1\t10\t20\t\t0\t+", b"bad name"),
    (b"chr1\t10\t20\tn\r\t0\t+", b"bad name"),
    (b"chr1\t10\t20\tn\0\t0\t+", b"bad name"),
    (b"chr1\t10\t20\tn\t\t+", b"bad score"),
    (b"chr1\t10\t20\tn\t\r0\t+", b"bad score"),
    (b"chr1\t10\t20\tn\t0\t*", b"bad strand"),
    (b"chr1\t10\t20\tn\t0\t", b"bad strand"),
];

/// What is before a record in a line of a script, and after it: each edit of each file, with one record or two.
const EDITS: [Around<'static>; 8] = [
    (b"add\t", b""),
    (b"remove\t", b""),
    (b"replace\t", b"\tchr1\t10\t20\tn\t0\t+"),
    (b"replace\tchr1\t10\t20\tn\t0\t+\t", b""),
    (b"addb\t", b""),
    (b"removeb\t", b""),
    (b"replaceb\t", b"\tchr1\t10\t20\tn\t0\t+"),
    (b"replaceb\tchr1\t10\t20\tn\t0\t+\t", b""),
];

/// Edits that take out a record that no file has, and their fault. The record is looked up as it is in its line.
const ABSENT: [Refusal<'static>; 4] = [
    (b"remove\tchr1\t10\t20\tm\t0\t+", b"no such record"),
    (
        b"replace\tchr1\t10\t20\tn\t0\t-\tchr1\t10\t20\tm\t0\t+",
        b"no such record",
    ),
    (b"removeb\tchr1\t10\t20\tn\t1\t+", b"no such record"),
    (
        b"replaceb\tchr1\t11\t20\tn\t0\t+\tchr1\t10\t20\tm\t0\t+",
        b"no such record",
    ),
];

/// What is before a record in a line of a script that adds it.
const ADDITIONS: [&[u8]; 4] = [
    b"add\t",
    b"replace\tchr1\t10\t20\tn\t0\t+\t",
    b"addb\t",
    b"replaceb\tchr1\t10\t20\tn\t0\t+\t",
];

/// A record that no file has, with a longer rest of its line than there is room for beside that of one record.
const NEW: &[u8] = b"chr1\t10\t20\tnnnnnnnnnnnnnnnnnnnnnnnnnnnnnnnnnnnnnnnnnnnnnnnnnnnnnnnn\t0\t+";

/// Whether the addition of that record is answered by the allocation that fails, for the rest of its line.
fn is_addition_refused<'a>(
    rt: &HostRuntime,
    memory: Memory<'a>,
    session: &mut Session<&'a RefusesNth<Global>>,
    front: &[u8],
) -> Result<bool, Fail> {
    let before = memory.session.refusals();
    let line = joined(rt, &[front, NEW])?;
    let refused = is_reported(rt, memory, session, line.as_slice(), b"no memory")?;
    Ok(refused && before < memory.session.refusals())
}

/// Whether damaged and absent records are answered by their faults in each edit, and the session has the record that it had.
fn are_edits_reported<'a>(
    rt: &HostRuntime,
    memory: Memory<'a>,
    session: &mut Session<&'a RefusesNth<Global>>,
) -> Result<bool, Fail> {
    for edit in EDITS {
        if !are_reported(rt, memory, session, &DAMAGED, edit)? {
            return Ok(false);
        }
    }
    for front in ADDITIONS {
        if !is_addition_refused(rt, memory, session, front)? {
            return Ok(false);
        }
    }
    let absent = are_reported(rt, memory, session, &ABSENT, (b"", b""))?;
    Ok(absent && session.len() == 1)
}

/// The same over a session of one record in either file.
fn holds_of_edits(rt: &HostRuntime, memory: Memory<'_>) -> Result<bool, Fail> {
    let record = b"chr1\t10\t20\tn\t0\t+\n".as_slice();
    let files = Files {
        second: Some(record),
        width: 6,
        ..alone(record, 9)
    };
    seen(session_in(memory.session, &files), |session| {
        are_edits_reported(rt, memory, session)
    })
}

#[test]
fn damaged_records(rt: HostRuntime) -> Result<(), Fail> {
    let (of_session, of_lines) = (granting(&rt), granting(&rt));
    let memory = Memory {
        session: &of_session,
        lines: &of_lines,
    };
    assert!(rt; holds_of_edits(&rt, memory)?);
    Ok(())
}

/// Whether a script is done over a session, and then each line is answered by its fault and allocates nothing. The session keeps
/// its record.
fn are_lines_reported<'a>(
    rt: &HostRuntime,
    memory: Memory<'a>,
    session: &mut Session<&'a RefusesNth<Global>>,
    script: &[u8],
    lines: &[Refusal<'_>],
) -> Result<bool, Fail> {
    let (_, messages) = written(rt, memory, session, script)?;
    let reported = are_reported(rt, memory, session, lines, (b"", b""))?;
    Ok(reported && messages.bytes().is_empty() && session.len() == 1)
}

/// The same over a session of its own.
fn holds_beside<'a>(
    rt: &HostRuntime,
    memory: Memory<'a>,
    files: &Files<'_>,
    script: &[u8],
    lines: &[Refusal<'_>],
) -> Result<bool, Fail> {
    seen(session_in(memory.session, files), |session| {
        are_lines_reported(rt, memory, session, script, lines)
    })
}

/// The same in memory of its own.
fn holds_of_lines(
    rt: &HostRuntime,
    files: &Files<'_>,
    script: &[u8],
    lines: &[Refusal<'_>],
) -> Result<bool, Fail> {
    let (of_session, of_lines) = (granting(rt), granting(rt));
    let memory = Memory {
        session: &of_session,
        lines: &of_lines,
    };
    holds_beside(rt, memory, files, script, lines)
}

/// One record of three columns, which fills the track.
fn one_record() -> Files<'static> {
    alone(b"chr1\t10\t20\n", 1)
}

/// The same beside a second file of one record and a FASTA file.
fn beside() -> Files<'static> {
    Files {
        second: Some(b"chr1\t15\t18\n"),
        bases: Some(b">chr2\nACGTNacgtRACGTNacgtR\nACGTNacgtRACGTNacgtR\nACGTNacgtR\n"),
        ..one_record()
    }
}

/// Lines that are refused beside two open views, and the fault of each.
const REFUSED: [Refusal<'static>; 28] = [
    (b"paint\tm", b"no such command or wrong fields"),
    (b"open\tb", b"no such command or wrong fields"),
    (b"print", b"no such command or wrong fields"),
    (b"printall\t", b"no such command or wrong fields"),
    (b"close", b"no such command or wrong fields"),
    (b"resize\tchr1", b"no such command or wrong fields"),
    (b"add", b"wrong number of columns"),
    (b"replaceb", b"wrong number of columns"),
    (b"add\tchr1\t30\t40", b"track is full"),
    (b"addb\tchr1\t30\t40", b"track is full"),
    (b"remove\tchr1\t10\t21", b"no such record"),
    (b"removeb\tchr1\t10\t20", b"no such record"),
    (b"replace\tchr1\t10\t21\tchr1\t30\t40", b"no such record"),
    (b"replaceb\tchr1\t10\t20\tchr1\t30\t40", b"no such record"),
    (b"open\t\tmerge", b"bad view name"),
    (
        b"open\t0123456789abcdef0123456789abcdef0\tmerge",
        b"bad view name",
    ),
    (b"open\tm\tpaint", b"view name taken"),
    (b"open\tb\t", b"bad options"),
    (b"open\tb\tmerge -d", b"bad options"),
    (b"open\tb\tmerge -c 4", b"no such column"),
    (b"open\tb\tgetfasta -s", b"strand needs six columns"),
    (b"print\tb", b"no such view"),
    (b"close\tb", b"no such view"),
    (b"resize\tchr9\tx", b"end is not a number"),
    (b"resize\tchr9\t4000000001", b"end is not a number"),
    (b"resize\tchr9\t5", b"unknown sequence"),
    (b"resize\tchr1\t19", b"records past the new end"),
    (b"resize\tchr2\t51", b"length fixed by the sequence file"),
];

#[test]
fn lines_beside_other_files(rt: HostRuntime) -> Result<(), Fail> {
    let script = b"open\tm\tmerge\nopen\ti\tintersect\n";
    assert!(rt; holds_of_lines(&rt, &beside(), script, &REFUSED)?);
    Ok(())
}

/// Lines that need a second file or a FASTA file, which aren't there.
const WITHOUT_FILES: [Refusal<'static>; 8] = [
    (b"addb\tx", b"no second file"),
    (b"removeb", b"no second file"),
    (b"replaceb\tchr1\t10\t20\tchr1\t30\t40", b"no second file"),
    (b"open\tb\tintersect -c -wb", b"bad options"),
    (b"open\tb\tintersect -c", b"no second file"),
    (b"open\tb\tsubtract", b"no second file"),
    (b"open\tb\tgetfasta", b"no sequence file"),
    (b"open\tb\tmerge -s", b"strand needs six columns"),
];

#[test]
fn lines_without_other_files(rt: HostRuntime) -> Result<(), Fail> {
    assert!(rt; holds_of_lines(&rt, &one_record(), b"", &WITHOUT_FILES)?);
    Ok(())
}

/// A script that opens 64 views, `v10` to `v73`.
fn open_all(rt: &HostRuntime) -> Result<String, Fail> {
    let mut script = String::new(rt.alloc());
    for number in 10..74usize {
        script.push_str(format!(in rt.alloc(); "open\tv{number}\tmerge\n")?.as_str())?;
    }
    Ok(script)
}

/// Lines that open one more.
const TOO_MANY: [Refusal<'static>; 3] = [
    (b"open\tc\tmerge", b"too many views"),
    (b"open\tc\tpaint", b"too many views"),
    (b"open\tv20\tmerge", b"view name taken"),
];

#[test]
fn lines_beside_as_many_views_as_there_may_be(rt: HostRuntime) -> Result<(), Fail> {
    let script = open_all(&rt)?;
    assert!(rt; holds_of_lines(&rt, &beside(), script.as_bytes(), &TOO_MANY)?);
    Ok(())
}
