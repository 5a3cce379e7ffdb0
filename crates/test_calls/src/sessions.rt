//! What the calls of a session answer.
use crate::fixtures::{Files, alone, holds, holds_of, session_of};
use crate::large_sessions::{Edit, answer, answer_beside};
use iv_bytes::MemSink;
use iv_lines::{Fault, RecordFault};
use iv_track::{EditFault, Meter};
use iv_view::ViewFault;
use iv_workspace::{PrintFault, ResizeFault, SecondFault, Session};
use std::test::Fail;

/// Edits of a track of one record, which may have two; the fault of each, and how many records there are then.
const EDITS: [(Edit<'static>, Option<EditFault>, u32); 8] = [
    (Edit::Add(b"chr1\t10\t20\tn"), None, 2),
    (Edit::Add(b"chr1\t10\t20\tn"), Some(EditFault::Full), 2),
    (Edit::Add(b"chr2\t0\t50\tm"), Some(EditFault::Full), 2),
    (
        Edit::Replace(b"chr1\t10\t20\tm", b"chr1\t30\t40\tm"),
        Some(EditFault::Absent),
        2,
    ),
    (
        Edit::Replace(b"chr1\t10\t20\tn", b"chr1\t30\t40\tm"),
        None,
        2,
    ),
    (Edit::Remove(b"chr1\t10\t20\tn"), None, 1),
    (Edit::Remove(b"chr1\t10\t20\tn"), Some(EditFault::Absent), 1),
    (Edit::Remove(b"chr1\t30\t40\tm"), None, 0),
];

/// Whether each edit answers so.
fn are_answered(session: &mut Session) -> Result<bool, Fail> {
    for (edit, want, count) in EDITS {
        if answer(session, edit)?.err() != want || session.len() != count {
            return Ok(false);
        }
    }
    Ok(true)
}

#[test]
fn edits(rt: HostRuntime) -> Result<(), Fail> {
    let mut session = session_of(&rt, &alone(b"chr1\t10\t20\tn\n", 2))?;
    holds_of(are_answered(&mut session))
}

/// Edits of a second file of two records, of which it may have two, and why each is refused.
const EDITS_BESIDE: [(Edit<'static>, Option<EditFault>); 6] = [
    (Edit::Add(b"chr1\t1\t2"), Some(EditFault::Full)),
    (Edit::Replace(b"chr1\t10\t20", b"chr1\t0\t50"), None),
    (Edit::Remove(b"chr1\t10\t20"), Some(EditFault::Absent)),
    (
        Edit::Replace(b"chr1\t10\t20", b"chr1\t1\t2"),
        Some(EditFault::Absent),
    ),
    (Edit::Remove(b"chr1\t30\t40"), None),
    (Edit::Add(b"chr1\t45\t46"), None),
];

/// Whether each of those edits answers so, in at most 16 steps.
fn are_answered_beside(session: &mut Session) -> Result<bool, Fail> {
    for (edit, want) in EDITS_BESIDE {
        match answer_beside(session, edit)? {
            Ok(done) if want.is_none() && done.steps <= 16 && done.stale == 0 => {}
            Err(fault) if want == Some(fault) => {}
            _ => return Ok(false),
        }
    }
    Ok(true)
}

#[test]
fn edits_of_a_second_file(rt: HostRuntime) -> Result<(), Fail> {
    let files = Files {
        second: Some(b"chr1\t10\t20\nchr1\t30\t40\n"),
        ..alone(b"", 2)
    };
    let mut session = session_of(&rt, &files)?;
    holds_of(are_answered_beside(&mut session))
}

/// Whether a session answers that it has no second file, whatever the line.
fn has_no_second(session: &Session) -> Result<bool, Fail> {
    let feature = session.read(b"chr1\t1\t2")?;
    Ok(
        session.second_width().is_none()
            && session.read_second(b"x").err() == Some(SecondFault::NoSecond)
            && !session.fits_second(&feature),
    )
}

#[test]
fn no_second_file(rt: HostRuntime) -> Result<(), Fail> {
    let session = session_of(&rt, &alone(b"", 9))?;
    holds_of(has_no_second(&session))
}

/// How the session reads a line, and whether the record is one of another session.
fn fault_of_line(session: &Session, other: &Session, line: &[u8]) -> (Option<RecordFault>, bool) {
    match session.read(line) {
        Ok(feature) => (None, other.fits(&feature)),
        Err(fault) => (Some(fault), false),
    }
}

/// Lines that are read in a session of three columns.
const LINES: [(&[u8], Option<RecordFault>); 4] = [
    (b"chr1\t90\t100", None),
    (b"chr1\t90\t101", Some(RecordFault::PastEnd)),
    (b"chr3\t0\t1", Some(RecordFault::PastEnd)),
    (b"chr1\t90\t100\tn", Some(RecordFault::Columns)),
];

/// Whether they are read so, and no record is one of a session of four.
fn are_read(plain: &Session, named: &Session) -> bool {
    for (line, want) in LINES {
        if fault_of_line(plain, named, line) != (want, false) {
            return false;
        }
    }
    fault_of_line(plain, plain, b"chr1\t90\t100") == (None, true)
}

/// The same beside a session of four columns.
fn are_read_beside(rt: &HostRuntime, plain: &Session) -> Result<(), Fail> {
    let named = session_of(rt, &alone(b"chr1\t1\t2\tn\n", 2))?;
    holds(are_read(plain, &named))
}

#[test]
fn records_that_are_read(rt: HostRuntime) -> Result<(), Fail> {
    let plain = session_of(&rt, &alone(b"", 2))?;
    are_read_beside(&rt, &plain)
}

/// How many records a session holds, its track's width and limit, and the first record of the second sequence with the
/// number of its copies.
fn numbers_of(session: &Session) -> (u32, u8, u32, Option<(u64, u64, u32)>) {
    let track = session.track();
    let found = match track.at_or_after(1, 0, &mut Meter::new()) {
        Some((feature, copies)) => Some((feature.start(), feature.stop(), copies)),
        None => None,
    };
    (session.len(), track.width(), track.limit(), found)
}

#[test]
fn session_of_a_file(rt: HostRuntime) -> Result<(), Fail> {
    let files = alone(b"chr2\t0\t1\nchr1\t10\t20\nchr2\t0\t1\n", 5);
    let session = session_of(&rt, &files)?;
    holds(numbers_of(&session) == (3, 3, 5, Some((0, 1, 2))))
}

/// A file of three records.
const THREE: &[u8] = b"chr1\t31\t40\nchr1\t20\t30\nchr1\t10\t20\n";

/// What the views `a` and `b` of that file print, each under its name.
const BOTH: &[u8] = b"#a\nchr1\t10\t30\nchr1\t31\t40\n#b\nchr1\t10\t30\nchr1\t31\t40\n";

/// Prints of a view, or of all, into room for so many bytes: the fault, and from where to where of that is written.
const PRINTS: [(Option<&[u8]>, usize, Option<PrintFault>, (usize, usize)); 5] = [
    (Some(b"a"), 99, None, (3, 25)),
    (Some(b"b"), 7, Some(PrintFault::Write), (3, 10)),
    (
        Some(b"c"),
        99,
        Some(PrintFault::Refused(Fault::NoView)),
        (0, 0),
    ),
    (None, 99, None, (0, 50)),
    (None, 28, Some(PrintFault::Write), (0, 28)),
];

/// The fault of a print of a view, or of all.
fn fault_of_print(
    session: &mut Session,
    name: Option<&[u8]>,
    sink: &mut MemSink,
) -> Option<PrintFault> {
    match name {
        Some(name) => session.print_view(name, sink).err(),
        None => session.print_all(sink).err(),
    }
}

/// Whether each print ends so.
fn are_printed(rt: &HostRuntime, session: &mut Session) -> Result<bool, Fail> {
    for (name, room, fault, (from, to)) in PRINTS {
        let mut sink = MemSink::new(rt.alloc(), room, 3)?;
        let found = fault_of_print(session, name, &mut sink);
        if found != fault || Some(sink.bytes()) != BOTH.get(from..to) {
            return Ok(false);
        }
    }
    Ok(true)
}

/// Opens two views, prints them, and adds a record and closes one, which alone isn't current any more.
fn prints_and_closes(rt: &HostRuntime, session: &mut Session) -> Result<bool, Fail> {
    session.open_view(b"a", &[b"merge"])?;
    session.open_view(b"b", &[b"merge"])?;
    let is_printed = are_printed(rt, session)?;
    let is_added = answer(session, Edit::Add(b"chr1\t30\t31"))?.is_ok();
    let is_current = session.is_current(b"a") && !session.is_current(b"c");
    let is_absent = session.close_view(b"c") == Err(Fault::NoView);
    let is_closed = session.close_view(b"a") == Ok(()) && !session.is_current(b"a");
    let mut sink = MemSink::new(rt.alloc(), 99, 3)?;
    session.print_all(&mut sink)?;
    let is_left = sink.bytes() == b"#b\nchr1\t10\t40\n".as_slice();
    Ok(is_printed && is_added && is_current && is_absent && is_closed && is_left)
}

#[test]
fn prints_and_views_that_are_current(rt: HostRuntime) -> Result<(), Fail> {
    let mut session = session_of(&rt, &alone(THREE, 9))?;
    holds_of(prints_and_closes(&rt, &mut session))
}

/// Names of sequences, lengths, and the fault of the correction, in a session whose one record ends at 20 on the first one.
const LENGTHS: [(&[u8], u64, Option<ResizeFault>); 6] = [
    (b"chr1", 19, Some(ResizeFault::Shorter)),
    (b"chr1", 20, None),
    (b"chr9", 20, Some(ResizeFault::UnknownSeq)),
    (b"chr2", 0, None),
    (b"chr3", 4_000_000_000, None),
    (b"chr3", 5, None),
];

/// The same where the bases of the first sequence are known. Records past the new end are reported first.
const LENGTHS_BESIDE_BASES: [(&[u8], u64, Option<ResizeFault>); 4] = [
    (b"s", 9, Some(ResizeFault::Shorter)),
    (b"s", 12, Some(ResizeFault::Fixed)),
    (b"s", 10, None),
    (b"u", 7, None),
];

/// Whether a correction answers so.
fn is_corrected(
    session: &mut Session,
    name: &[u8],
    length: u64,
    want: Option<ResizeFault>,
) -> bool {
    length <= 4_000_000_000 && session.resize(name, length).err() == want
}

/// Whether each of these does.
fn are_corrected(session: &mut Session, lengths: &[(&[u8], u64, Option<ResizeFault>)]) -> bool {
    for (name, length, want) in lengths {
        if !is_corrected(session, name, *length, *want) {
            return false;
        }
    }
    true
}

/// Whether they do beside two views, which stay current and print the new lengths.
fn corrects(rt: &HostRuntime, session: &mut Session) -> Result<bool, Fail> {
    session.open_view(b"c", &[b"complement"])?;
    session.open_view(b"g", &[b"genomecov", b"-bga"])?;
    let is_corrected = are_corrected(session, &LENGTHS);
    let is_current = session.is_current(b"c") && session.is_current(b"g");
    let mut sink = MemSink::new(rt.alloc(), 99, 3)?;
    session.print_all(&mut sink)?;
    let want = b"#c\nchr1\t0\t10\nchr3\t0\t5\n#g\nchr1\t0\t10\t0\nchr1\t10\t20\t1\nchr3\t0\t5\t0\n";
    Ok(is_corrected && is_current && sink.bytes() == want.as_slice())
}

#[test]
fn lengths(rt: HostRuntime) -> Result<(), Fail> {
    let mut session = session_of(&rt, &alone(b"chr1\t10\t20\n", 9))?;
    holds_of(corrects(&rt, &mut session))
}

/// Records on two sequences, and the bases of the first one.
pub(crate) fn with_bases() -> Files<'static> {
    Files {
        sizes: b"s\t10\nu\t5\n",
        bases: Some(b">s test\nACGT\nNacg\ntR\n"),
        ..alone(
            b"s\t2\t6\tn\t0\t-\ns\t9\t10\tn\t0\t-\nu\t0\t5\tn\t0\t+\n",
            9,
        )
    }
}

#[test]
fn lengths_beside_bases(rt: HostRuntime) -> Result<(), Fail> {
    let mut session = session_of(&rt, &with_bases())?;
    holds(are_corrected(&mut session, &LENGTHS_BESIDE_BASES))
}

/// A record that was read before a resize may not fit after it.
fn fits_no_more(session: &mut Session) -> Result<bool, Fail> {
    let feature = session.read(b"chr1\t90\t100")?;
    let fitted = session.fits(&feature);
    Ok(fitted && is_corrected(session, b"chr1", 99, None) && !session.fits(&feature))
}

#[test]
fn records_read_before(rt: HostRuntime) -> Result<(), Fail> {
    let mut session = session_of(&rt, &alone(b"", 9))?;
    holds_of(fits_no_more(&mut session))
}

/// The numbers of faults in the table of faults.
#[test]
fn numbers_of_faults(rt: HostRuntime) {
    for (fault, code) in [
        (EditFault::Absent, 11),
        (EditFault::Full, 12),
        (EditFault::NoMemory, 22),
    ] {
        assert!(rt; fault.code() == code);
    }
    for (fault, code) in [
        (ViewFault::BadName, 13),
        (ViewFault::Taken, 14),
        (ViewFault::TooMany, 15),
        (ViewFault::Words, 16),
        (ViewFault::Column, 17),
        (ViewFault::NoStrand, 18),
        (ViewFault::NoSecond, 19),
        (ViewFault::NoFasta, 20),
        (Fault::NoView, 21),
        (ViewFault::NoMemory, 22),
    ] {
        assert!(rt; fault.code() == code);
    }
    for (fault, code) in [
        (ResizeFault::UnknownSeq, 3),
        (ResizeFault::Shorter, 23),
        (ResizeFault::Fixed, 24),
    ] {
        assert!(rt; fault.code() == code);
    }
    assert!(rt; PrintFault::Refused(Fault::NoView).code() == Some(21));
    assert!(rt; PrintFault::Write.code().is_none());
}
