//! The calls of a session over many records: code that gives up above some size, and says that memory ran out, is caught here.
use crate::fixtures::{Files, holds, session_of};
use crate::patterns::{Case, GENOME, Pattern, ROWS, cases, long_files, places, second_records};
use iv_bytes::MemSink;
use iv_lines::RecordFault;
use iv_track::EditFault;
use iv_workspace::{Accepted, SecondFault, Session};
use std::test::Fail;
use test_faults::words_of;

/// Whether a print of this view, or of all, writes this.
fn prints(
    rt: &HostRuntime,
    session: &mut Session,
    name: Option<&[u8]>,
    want: &[u8],
) -> Result<bool, Fail> {
    let mut sink = MemSink::new(rt.alloc(), want.len(), 9_999)?;
    match name {
        Some(name) => session.print_view(name, &mut sink)?,
        None => session.print_all(&mut sink)?,
    }
    Ok(sink.bytes() == want)
}

/// The first row that is shown of each view, and the one after the last.
const SHOWN: (u32, u32) = (9_998, 10_003);

/// Whether the region from the start of one of these rows to that of the other shows this of a view, or of all.
fn shows(
    rt: &HostRuntime,
    session: &mut Session,
    name: Option<&[u8]>,
    want: &[u8],
) -> Result<bool, Fail> {
    let region = session.region(b"big", b"99980", b"100030")?;
    let mut sink = MemSink::new(rt.alloc(), want.len(), 99)?;
    match name {
        Some(name) => session.show_view(name, region, &mut sink)?,
        None => session.show_all(region, &mut sink)?,
    }
    Ok(sink.bytes() == want)
}

/// Opens a view, which is current then.
fn open(rt: &HostRuntime, session: &mut Session, case: &Case<'_>) -> Result<bool, Fail> {
    let (name, arguments) = (case.name.as_bytes(), words_of(rt.alloc(), case.view)?);
    session.open_view(name, arguments.as_slice())?;
    Ok(session.is_open(name) && session.is_current(name))
}

/// Whether a view is opened, and then prints and shows its rows.
fn prints_and_shows(
    rt: &HostRuntime,
    session: &mut Session,
    case: &Case<'_>,
) -> Result<bool, Fail> {
    let name = Some(case.name.as_bytes());
    let all = case.all(rt)?;
    let mut part = String::new(rt.alloc());
    case.printed.push_rows(rt, &mut part, SHOWN)?;
    Ok(
        open(rt, session, case)?
            && prints(rt, session, name, all.as_bytes())?
            && shows(rt, session, name, part.as_bytes())?,
    )
}

/// Whether all views are printed and shown, one after another.
fn print_and_show(
    rt: &HostRuntime,
    session: &mut Session,
    cases: &[Case<'_>],
) -> Result<bool, Fail> {
    let (mut all, mut part) = (String::new(rt.alloc()), String::new(rt.alloc()));
    for case in cases {
        if !prints_and_shows(rt, session, case)? {
            return Ok(false);
        }
        case.push_heading(&mut all)?;
        case.push_all(rt, &mut all)?;
        case.push_heading(&mut part)?;
        case.printed.push_rows(rt, &mut part, SHOWN)?;
    }
    Ok(prints(rt, session, None, all.as_bytes())? && shows(rt, session, None, part.as_bytes())?)
}

/// Closes each view.
fn close(session: &mut Session, cases: &[Case<'_>]) -> Result<bool, Fail> {
    for case in cases {
        session.close_view(case.name.as_bytes())?;
        if session.is_open(case.name.as_bytes()) {
            return Ok(false);
        }
    }
    Ok(true)
}

/// Whether the views of files are printed and shown, and then closed.
fn are_viewed(rt: &HostRuntime, session: &mut Session) -> Result<bool, Fail> {
    Ok(print_and_show(rt, session, &cases())? && close(session, &cases())?)
}

/// The same of a session of files.
fn views_of(rt: &HostRuntime, files: &Files<'_>) -> Result<bool, Fail> {
    let mut session = session_of(rt, files)?;
    are_viewed(rt, &mut session)
}

#[test]
fn views_of_many_records(rt: HostRuntime) -> Result<(), Fail> {
    let texts = long_files(&rt)?;
    let files = Files {
        sizes: GENOME,
        first: texts.first.as_bytes(),
        second: Some(texts.second.as_bytes()),
        bases: Some(texts.bases.as_bytes()),
        width: 6,
        limit: ROWS,
    };
    holds(views_of(&rt, &files)?)
}

/// An edit by the records of lines.
#[derive(Clone, Copy)]
pub(crate) enum Edit<'a> {
    Add(&'a [u8]),
    Remove(&'a [u8]),
    Replace(&'a [u8], &'a [u8]),
}

/// What an edit answers.
pub(crate) fn answer(
    session: &mut Session,
    edit: Edit<'_>,
) -> Result<Result<Accepted, EditFault>, RecordFault> {
    Ok(match edit {
        Edit::Add(line) => {
            let feature = session.read(line)?;
            session.add(&feature)
        }
        Edit::Remove(line) => {
            let feature = session.read(line)?;
            session.remove(&feature)
        }
        Edit::Replace(old, new) => {
            let old = session.read(old)?;
            let new = session.read(new)?;
            session.replace(&old, &new)
        }
    })
}

/// What an edit of the second file answers.
pub(crate) fn answer_beside(
    session: &mut Session,
    edit: Edit<'_>,
) -> Result<Result<Accepted, EditFault>, SecondFault> {
    Ok(match edit {
        Edit::Add(line) => {
            let feature = session.read_second(line)?;
            session.add_second(&feature)
        }
        Edit::Remove(line) => {
            let feature = session.read_second(line)?;
            session.remove_second(&feature)
        }
        Edit::Replace(old, new) => {
            let old = session.read_second(old)?;
            let new = session.read_second(new)?;
            session.replace_second(&old, &new)
        }
    })
}

/// Whether an edit of either file is accepted.
fn is_accepted(session: &mut Session, edit: Edit<'_>, is_second: bool) -> Result<bool, Fail> {
    Ok(if is_second {
        answer_beside(session, edit)?.is_ok()
    } else {
        answer(session, edit)?.is_ok()
    })
}

/// What is done to each record of a file.
#[derive(Clone, Copy)]
enum Change<'a> {
    Added(Pattern<'a>),
    Replaced(Pattern<'a>, Pattern<'a>),
    Removed(Pattern<'a>),
}

/// Whether an edit of the record of a number is accepted.
fn changes(
    rt: &HostRuntime,
    session: &mut Session,
    change: Change<'_>,
    number: u32,
    is_second: bool,
) -> Result<bool, Fail> {
    match change {
        Change::Added(pattern) => {
            let line = pattern.row(rt, number)?;
            is_accepted(session, Edit::Add(line.as_bytes()), is_second)
        }
        Change::Replaced(old, new) => {
            let (old, new) = (old.row(rt, number)?, new.row(rt, number)?);
            let edit = Edit::Replace(old.as_bytes(), new.as_bytes());
            is_accepted(session, edit, is_second)
        }
        Change::Removed(pattern) => {
            let line = pattern.row(rt, number)?;
            is_accepted(session, Edit::Remove(line.as_bytes()), is_second)
        }
    }
}

/// Whether an edit of each record is accepted, far from the one before, and the view then prints this.
fn edits_all(
    rt: &HostRuntime,
    session: &mut Session,
    change: Change<'_>,
    is_second: bool,
    want: &[u8],
) -> Result<bool, Fail> {
    for index in 0..ROWS {
        let number = index.saturating_mul(7_919) % ROWS;
        if !changes(rt, session, change, number, is_second)? {
            return Ok(false);
        }
    }
    prints(rt, session, Some(b"v"), want)
}

/// Whether a file is filled, its records are moved and it is emptied again; the view prints the first text, the other one and none.
fn edits_each(
    rt: &HostRuntime,
    session: &mut Session,
    view: &[u8],
    is_second: bool,
    filled: &[u8],
    moved: &[u8],
) -> Result<bool, Fail> {
    let (old, new) = (places(0, 5, "", false), second_records());
    session.open_view(b"v", &[view])?;
    Ok(
        edits_all(rt, session, Change::Added(old), is_second, filled)?
            && edits_all(rt, session, Change::Replaced(old, new), is_second, moved)?
            && edits_all(rt, session, Change::Removed(new), is_second, b"")?,
    )
}

/// The same over a session of a first file and a second one or none, beside this view.
fn edits_of<'a>(
    rt: &HostRuntime,
    first: &'a [u8],
    second: Option<&'a [u8]>,
    view: &[u8],
    filled: &[u8],
    moved: &[u8],
) -> Result<bool, Fail> {
    let files = Files {
        sizes: GENOME,
        first,
        second,
        bases: None,
        width: 3,
        limit: ROWS,
    };
    let mut session = session_of(rt, &files)?;
    edits_each(rt, &mut session, view, second.is_some(), filled, moved)
}

/// Edits of a track, beside a kept view.
#[test]
fn edits_of_many_records(rt: HostRuntime) -> Result<(), Fail> {
    let (old, new) = (
        places(0, 5, "", false).rows(&rt)?,
        second_records().rows(&rt)?,
    );
    holds(edits_of(&rt, b"", None, b"merge", old.as_bytes(), new.as_bytes())?)
}

/// Edits of a second file, beside a view of what both share.
#[test]
fn edits_of_many_second_records(rt: HostRuntime) -> Result<(), Fail> {
    let (first, shared) = (
        places(0, 5, "", false).rows(&rt)?,
        places(3, 5, "", false).rows(&rt)?,
    );
    let text = first.as_bytes();
    // A second file without a record.
    let second = text.get(..0);
    holds(edits_of(&rt, text, second, b"intersect", text, shared.as_bytes())?)
}
