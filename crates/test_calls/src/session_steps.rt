//! Steps of edits beside open views, with ample memory, so that no view becomes stale.
use crate::fixtures::{Files, alone, holds_of, session_of};
use crate::large_sessions::{Edit, answer};
use crate::sessions::with_bases;
use iv_bytes::MemSink;
use iv_track::Meter;
use iv_workspace::Session;
use std::test::Fail;

/// A view that is open: its name and its arguments.
type Open<'a> = (&'a [u8], &'a [&'a [u8]]);

/// Views of two distances.
const VIEWS: [Open<'static>; 5] = [
    (b"m", &[b"merge"]),
    (b"d", &[b"merge", b"-d", b"100"]),
    (b"k", &[b"cluster"]),
    (b"c", &[b"complement"]),
    (b"g", &[b"genomecov", b"-bg"]),
];

/// Views of one distance, and one that is written beside the second file.
const BESIDE: [Open<'static>; 5] = [
    (b"m", &[b"merge"]),
    (b"c", &[b"complement"]),
    (b"k", &[b"cluster"]),
    (b"g", &[b"genomecov", b"-bg"]),
    (b"u", &[b"intersect", b"-u"]),
];

/// Views that are written from the records of both files.
const WRITTEN: [Open<'static>; 10] = [
    (b"i", &[b"intersect"]),
    (b"wa", &[b"intersect", b"-wa"]),
    (b"wb", &[b"intersect", b"-wb"]),
    (b"wab", &[b"intersect", b"-wa", b"-wb"]),
    (b"u", &[b"intersect", b"-u"]),
    (b"v", &[b"intersect", b"-v"]),
    (b"c", &[b"intersect", b"-c"]),
    (b"ca", &[b"intersect", b"-c", b"-wa"]),
    (b"s", &[b"subtract"]),
    (b"sa", &[b"subtract", b"-A"]),
];

/// Views that are written from the records and their bases.
const OF_BASES: [Open<'static>; 5] = [
    (b"f", &[b"getfasta"]),
    (b"s", &[b"getfasta", b"-s"]),
    (b"t", &[b"getfasta", b"-tab"]),
    (b"st", &[b"getfasta", b"-s", b"-tab"]),
    (b"ts", &[b"getfasta", b"-tab", b"-s"]),
];

/// The most steps of an edit beside views: 8 of the track, 8 of the depth, and for the blocks of each distance, which are kept
/// once, 16 and 8 more for each record around the edit.
fn most_steps(distances: u64, around: u64) -> u64 {
    distances
        .saturating_mul(16u64.saturating_add(8u64.saturating_mul(around)))
        .saturating_add(8 + 8)
}

/// A BED file over one sequence of a million bases, and a second file of one record.
fn files_of(text: &[u8]) -> Files<'_> {
    Files {
        sizes: b"big\t1000000\n",
        second: Some(b"big\t0\t5\n"),
        ..alone(text, 2000)
    }
}

/// Opens views.
fn open(session: &mut Session, views: &[Open<'_>]) -> Result<(), Fail> {
    for (name, arguments) in views {
        session.open_view(name, arguments)?;
    }
    Ok(())
}

/// Whether all views are current.
fn are_current(session: &Session, views: &[Open<'_>]) -> bool {
    for (name, _) in views {
        if !session.is_current(name) {
            return false;
        }
    }
    true
}

/// Whether each edit takes at most this number of steps and leaves all views current, which are opened first.
fn repairs_within(
    session: &mut Session,
    views: &[Open<'_>],
    edits: &[Edit<'_>],
    most: u64,
) -> Result<bool, Fail> {
    open(session, views)?;
    for edit in edits {
        let done = answer(session, *edit)??;
        if done.stale != 0 || done.steps > most || !are_current(session, views) {
            return Ok(false);
        }
    }
    Ok(true)
}

/// The name of a view, and what it prints.
type Printed<'a> = (&'a [u8], &'a [u8]);

/// Whether each of these views prints its text, in at most this number of steps.
fn print_as(
    rt: &HostRuntime,
    session: &mut Session,
    texts: &[Printed<'_>],
    most: u64,
) -> Result<bool, Fail> {
    for (name, want) in texts {
        let (mut sink, mut meter) = (MemSink::new(rt.alloc(), want.len(), 99)?, Meter::new());
        session.print_view_counted(name, None, &mut meter, &mut sink)?;
        if sink.bytes() != *want || meter.steps() > most {
            return Ok(false);
        }
    }
    Ok(true)
}

/// Whether edits beside views take at most this number of steps each, and views print these texts afterwards.
fn repairs_and_prints(
    rt: &HostRuntime,
    session: &mut Session,
    views: &[Open<'_>],
    edits: &[Edit<'_>],
    most: u64,
    texts: &[Printed<'_>],
) -> Result<bool, Fail> {
    Ok(repairs_within(session, views, edits, most)? && print_as(rt, session, texts, 99)?)
}

/// The same in a session of files.
fn repairs_to(
    rt: &HostRuntime,
    files: &Files<'_>,
    views: &[Open<'_>],
    edits: &[Edit<'_>],
    most: u64,
    texts: &[Printed<'_>],
) -> Result<bool, Fail> {
    let mut session = session_of(rt, files)?;
    repairs_and_prints(rt, &mut session, views, edits, most, texts)
}

/// A record that holds two others is taken out: three records were around it.
#[test]
fn removal_that_splits_a_block(rt: HostRuntime) -> Result<(), Fail> {
    let files = files_of(b"big\t0\t100\nbig\t10\t20\nbig\t60\t70\n");
    let edits = [Edit::Remove(b"big\t0\t100")];
    let texts: [Printed<'_>; 4] = [
        (b"m", b"big\t10\t20\nbig\t60\t70\n"),
        (b"d", b"big\t10\t70\n"),
        (b"c", b"big\t0\t10\nbig\t20\t60\nbig\t70\t1000000\n"),
        (b"g", b"big\t10\t20\t1\nbig\t60\t70\t1\n"),
    ];
    assert!(rt; repairs_to(&rt, &files, &VIEWS, &edits, most_steps(2, 3), &texts)?);
    Ok(())
}

/// A record without a strand is in no block of a view of strands, which takes the steps of the edit and of its lookup.
#[test]
fn record_without_a_strand(rt: HostRuntime) -> Result<(), Fail> {
    let views: [Open<'_>; 1] = [(b"s", &[b"merge", b"-s"])];
    let edits = [Edit::Add(b"big\t15\t30\tb\t0\t.")];
    let texts: [Printed<'_>; 1] = [(b"s", b"big\t10\t20\n")];
    let files = files_of(b"big\t10\t20\ta\t0\t+\n");
    assert!(rt; repairs_to(&rt, &files, &views, &edits, 8 + 16, &texts)?);
    Ok(())
}

/// Written views add no step to an edit.
#[test]
fn edits_beside_written_views(rt: HostRuntime) -> Result<(), Fail> {
    let files = Files {
        second: Some(b"chr1\t20\t30\nchr1\t15\t18\nchr1\t15\t18\n"),
        ..alone(b"chr1\t10\t20\nchr1\t30\t40\n", 9)
    };
    let edits = [
        Edit::Add(b"chr1\t17\t22"),
        Edit::Replace(b"chr1\t10\t20", b"chr2\t0\t5"),
        Edit::Remove(b"chr1\t30\t40"),
    ];
    assert!(rt; repairs_to(&rt, &files, &WRITTEN, &edits, 8, &[])?);
    let edits = [
        Edit::Replace(b"s\t2\t6\tn\t0\t-", b"s\t2\t6\tn\t0\t."),
        Edit::Add(b"s\t0\t3\tk\t0\t-"),
        Edit::Remove(b"s\t9\t10\tn\t0\t-"),
        Edit::Add(b"u\t0\t1\tk\t0\t+"),
    ];
    assert!(rt; repairs_to(&rt, &with_bases(), &OF_BASES, &edits, 8, &[])?);
    Ok(())
}

/// Puts the line of a record of ten bases at the end of a text.
fn push_line(rt: &HostRuntime, text: &mut String, start: u32, tail: &str) -> Result<(), Fail> {
    let stop = start.saturating_add(10);
    let line = format!(in rt.alloc(); "big\t{start}\t{stop}{tail}\n")?;
    text.push_str(line.as_str())?;
    Ok(())
}

/// A thousand records, each of ten bases and so far after the one before.
fn thousand(rt: &HostRuntime, apart: u32) -> Result<String, Fail> {
    let mut text = String::new(rt.alloc());
    for number in 0..1000u32 {
        push_line(rt, &mut text, number.saturating_mul(apart), "")?;
    }
    Ok(text)
}

/// Edits of a thousand records, each with one record around it, or in one case none except its neighbours within the distance:
/// the steps of an edit don't grow with the track.
#[test]
fn edits_of_a_thousand_records(rt: HostRuntime) -> Result<(), Fail> {
    let text = thousand(&rt, 1000)?;
    let files = files_of(text.as_bytes());
    let edits = [Edit::Add(b"big\t500\t510"), Edit::Remove(b"big\t0\t10")];
    assert!(rt; repairs_to(&rt, &files, &VIEWS, &edits, most_steps(2, 1), &[])?);
    assert!(rt; repairs_to(&rt, &files, &BESIDE, &edits, most_steps(1, 1), &[])?);
    Ok(())
}

/// A thousand copies of one record; one more, and two less: the blocks stay, the depth changes.
#[test]
fn edits_of_a_thousand_copies(rt: HostRuntime) -> Result<(), Fail> {
    let text = thousand(&rt, 0)?;
    let files = files_of(text.as_bytes());
    let copy = b"big\t0\t10";
    let edits = [Edit::Add(copy), Edit::Remove(copy), Edit::Remove(copy)];
    let texts: [Printed<'_>; 3] = [
        (b"m", b"big\t0\t10\n"),
        (b"c", b"big\t10\t1000000\n"),
        (b"g", b"big\t0\t10\t999\n"),
    ];
    assert!(rt; repairs_to(&rt, &files, &VIEWS, &edits, most_steps(2, 1001), &texts)?);
    Ok(())
}

/// A thousand records of one interval, whose names differ.
fn of_one_place(rt: &HostRuntime) -> Result<String, Fail> {
    let mut text = String::new(rt.alloc());
    for number in 0..1000u32 {
        let tail = format!(in rt.alloc(); "\t{number}")?;
        push_line(rt, &mut text, 0, tail.as_str())?;
    }
    Ok(text)
}

/// Opens three views, and prints each in four steps at most.
fn prints_in_four(rt: &HostRuntime, session: &mut Session) -> Result<bool, Fail> {
    open(session, &VIEWS)?;
    let texts: [Printed<'_>; 3] = [
        (b"m", b"big\t0\t10\n"),
        (b"c", b"big\t10\t1000000\n"),
        (b"g", b"big\t0\t10\t1000\n"),
    ];
    print_as(rt, session, &texts, 4)
}

#[test]
fn prints_of_one_place(rt: HostRuntime) -> Result<(), Fail> {
    let text = of_one_place(&rt)?;
    let mut session = session_of(&rt, &files_of(text.as_bytes()))?;
    holds_of(prints_in_four(&rt, &mut session))
}

/// Opens the views, closes all except those of these names, and gives the steps of an edit beside them.
fn steps_of(session: &mut Session, names: &[&[u8]]) -> Result<u64, Fail> {
    open(session, &VIEWS)?;
    for (name, _) in VIEWS {
        if !names.contains(&name) {
            session.close_view(name)?;
        }
    }
    let done = answer(session, Edit::Add(b"big\t90\t120"))??;
    Ok(done.steps)
}

/// The steps of an edit beside views of these names.
fn steps_beside(rt: &HostRuntime, names: &[&[u8]]) -> Result<u64, Fail> {
    let mut session = session_of(rt, &files_of(b"big\t0\t100\nbig\t50\t70\n"))?;
    steps_of(&mut session, names)
}

/// The blocks of merge, cluster and complement are repaired once, and those of a merge of another distance beside them.
#[test]
fn views_that_keep_the_same(rt: HostRuntime) -> Result<(), Fail> {
    let alone = steps_beside(&rt, &[b"m"])?;
    let shared = steps_beside(&rt, &[b"m", b"k", b"c"])?;
    let far = steps_beside(&rt, &[b"m", b"d"])?;
    let deep = steps_beside(&rt, &[b"m", b"g"])?;
    assert!(rt; shared == alone && far > alone && deep > alone);
    Ok(())
}

/// Closes a view, does an edit that leaves none stale, and answers whether others print these texts.
fn edits_without(
    rt: &HostRuntime,
    session: &mut Session,
    closed: &[u8],
    edit: Edit<'_>,
    texts: &[Printed<'_>],
) -> Result<bool, Fail> {
    session.close_view(closed)?;
    let stale = answer(session, edit)??.stale;
    Ok(stale == 0 && print_as(rt, session, texts, 99)?)
}

/// Opens the views, and closes some one after another, with an edit after each. Those that are left print their texts.
fn close_in_turn(rt: &HostRuntime, session: &mut Session) -> Result<bool, Fail> {
    open(session, &VIEWS)?;
    let texts: [Printed<'_>; 2] = [
        (b"k", b"big\t0\t100\t1\nbig\t200\t300\t2\n"),
        (b"c", b"big\t100\t200\nbig\t300\t1000000\n"),
    ];
    let edit = Edit::Add(b"big\t200\t300");
    let first = edits_without(rt, session, b"m", edit, &texts)?;
    let texts: [Printed<'_>; 1] = [(b"c", b"big\t0\t200\nbig\t300\t1000000\n")];
    let edit = Edit::Remove(b"big\t0\t100");
    Ok(first && edits_without(rt, session, b"k", edit, &texts)?)
}

/// Those that are left keep what they need.
#[test]
fn views_that_are_closed(rt: HostRuntime) -> Result<(), Fail> {
    let mut session = session_of(&rt, &files_of(b"big\t0\t100\n"))?;
    holds_of(close_in_turn(&rt, &mut session))
}
