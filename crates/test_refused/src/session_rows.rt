//! The rows of a session's calls: few records, and so many that what is kept of them grows.
use crate::session_files::Files;
use crate::session_texts::{Keeps, Open};
use crate::sessions::{Call, Place, Row, Setting, allocations, prints};
use iv_track::EditFault;
use std::test::Fail;

/// Files of four columns, and the bases of a sequence.
const FILES: Files<'static> = Files {
    sizes: b"chr1\t100\nchr2\t50\nchr3\t0\n",
    first: FIRST,
    second: Some(SECOND),
    bases: Some(b">chr2\nACGTNacgtRACGTNacgtRACGTNacgtRACGTNacgtRACGTNacgtR\n"),
    width: 4,
    limit: 12,
};

/// Views of each kind over them.
const VIEWS: [Open<'static>; 10] = [
    (b"r", &[b"records"], Keeps::Nothing),
    (b"m", &[b"merge"], Keeps::Blocks),
    (b"k", &[b"cluster"], Keeps::Blocks),
    (b"c", &[b"complement", b"-L"], Keeps::Blocks),
    (
        b"o",
        &[b"merge", b"-c", b"4", b"-o", b"collapse"],
        Keeps::OtherBlocks,
    ),
    (b"g", &[b"genomecov", b"-bg"], Keeps::Depth),
    (b"i", &[b"intersect", b"-c"], Keeps::Nothing),
    (b"s", &[b"subtract"], Keeps::Nothing),
    (b"f", &[b"getfasta"], Keeps::Nothing),
    (b"z", &[b"genomecov", b"-bga"], Keeps::Depth),
];

/// Those views over those files.
const FEW: Setting<'static> = Setting {
    files: FILES,
    views: &VIEWS,
    added: b"",
    is_stale: false,
};

/// Edits, the records of either file afterwards, and how many allocations there are at least; none, if that is 0.
type Edited = (Call<'static>, &'static [u8], &'static [u8], u64);

/// Nine records: the depth changes at fifteen positions.
const FIRST: &[u8] =
    b"chr1\t0\t30\tn\nchr1\t10\t20\tn\nchr1\t20\t30\tn\nchr2\t1\t2\tn\nchr2\t3\t4\tn\nchr2\t5\t6\tn\nchr2\t7\t8\tn\nchr2\t9\t10\tn\nchr2\t11\t12\tn\n";

/// Six records, of which the track overlaps one.
const SECOND: &[u8] =
    b"chr1\t15\t35\tb\nchr1\t90\t95\tb\nchr2\t20\t25\tb\nchr2\t30\t35\tb\nchr2\t40\t45\tb\nchr2\t45\t50\tb\n";

/// Edits over those files.
const EDITS: [Edited; 6] = [
    (
        Call::Add(b"chr1\t30\t40\tnnnnnnnnnnnnnnnnnnnnnnnnnnnnnnnnnnnnnnnn"),
        b"chr1\t0\t30\tn\nchr1\t10\t20\tn\nchr1\t20\t30\tn\nchr2\t1\t2\tn\nchr2\t3\t4\tn\nchr2\t5\t6\tn\nchr2\t7\t8\tn\nchr2\t9\t10\tn\nchr2\t11\t12\tn\nchr1\t30\t40\tnnnnnnnnnnnnnnnnnnnnnnnnnnnnnnnnnnnnnnnn\n",
        SECOND,
        1,
    ),
    (
        Call::Remove(b"chr1\t10\t20\tn"),
        b"chr1\t0\t30\tn\nchr1\t20\t30\tn\nchr2\t1\t2\tn\nchr2\t3\t4\tn\nchr2\t5\t6\tn\nchr2\t7\t8\tn\nchr2\t9\t10\tn\nchr2\t11\t12\tn\n",
        SECOND,
        1,
    ),
    (
        Call::Replace(b"chr1\t0\t30\tn", b"chr1\t20\t25\tm"),
        b"chr1\t10\t20\tn\nchr1\t20\t30\tn\nchr2\t1\t2\tn\nchr2\t3\t4\tn\nchr2\t5\t6\tn\nchr2\t7\t8\tn\nchr2\t9\t10\tn\nchr2\t11\t12\tn\nchr1\t20\t25\tm\n",
        SECOND,
        2,
    ),
    (
        Call::AddSecond(b"chr1\t0\t99\tnnnnnnnnnnnnnnnnnnnnnnnnnnnnnnnnnnnnnnnn"),
        FIRST,
        b"chr1\t0\t99\tnnnnnnnnnnnnnnnnnnnnnnnnnnnnnnnnnnnnnnnn\nchr1\t15\t35\tb\nchr1\t90\t95\tb\nchr2\t20\t25\tb\nchr2\t30\t35\tb\nchr2\t40\t45\tb\nchr2\t45\t50\tb\n",
        1,
    ),
    (
        Call::RemoveSecond(b"chr1\t15\t35\tb"),
        FIRST,
        b"chr1\t90\t95\tb\nchr2\t20\t25\tb\nchr2\t30\t35\tb\nchr2\t40\t45\tb\nchr2\t45\t50\tb\n",
        0,
    ),
    (
        Call::ReplaceSecond(
            b"chr1\t15\t35\tb",
            b"chr1\t0\t12\tnnnnnnnnnnnnnnnnnnnnnnnnnnnnnnnnnnnnnnnn",
        ),
        FIRST,
        b"chr1\t0\t12\tnnnnnnnnnnnnnnnnnnnnnnnnnnnnnnnnnnnnnnnn\nchr1\t90\t95\tb\nchr2\t20\t25\tb\nchr2\t30\t35\tb\nchr2\t40\t45\tb\nchr2\t45\t50\tb\n",
        1,
    ),
];

/// How many allocations a call has that changes no file.
fn unchanged(rt: &HostRuntime, on: Setting<'_>, call: Call<'_>) -> Result<u64, Fail> {
    let row = Row {
        on,
        call,
        fault: None,
        after: on.files,
    };
    allocations(rt, &row)
}

#[test]
fn session_of_files(rt: HostRuntime) -> Result<(), Fail> {
    assert!(rt; 20 < unchanged(&rt, FEW, Call::Begin)?);
    Ok(())
}

/// A new record allocates for the rest of its line, and an edit of the track for what views keep.
#[test]
fn edits_of_few_records(rt: HostRuntime) -> Result<(), Fail> {
    for (call, first, second, least) in EDITS {
        let after = Files {
            first,
            second: Some(second),
            ..FILES
        };
        let row = Row {
            on: FEW,
            call,
            fault: None,
            after,
        };
        let count = allocations(&rt, &row)?;
        assert!(rt; least <= count && (0 < least || count == 0));
    }
    Ok(())
}

/// Edits of records that aren't there, and of a full file.
const FAULTY: [(Call<'static>, EditFault); 6] = [
    (Call::Add(b"chr1\t1\t2\tn"), EditFault::Full),
    (Call::Remove(b"chr1\t10\t20\tz"), EditFault::Absent),
    (
        Call::Replace(b"chr1\t10\t20\tz", b"chr1\t1\t2\tz"),
        EditFault::Absent,
    ),
    (Call::AddSecond(b"chr1\t1\t2\tn"), EditFault::Full),
    (Call::RemoveSecond(b"chr1\t10\t20\tz"), EditFault::Absent),
    (
        Call::ReplaceSecond(b"chr1\t10\t20\tz", b"chr1\t1\t2\tz"),
        EditFault::Absent,
    ),
];

/// A record is looked up as it is in its line, so these allocate nothing.
#[test]
fn edits_that_have_a_fault(rt: HostRuntime) -> Result<(), Fail> {
    let files = Files {
        second: Some(FIRST),
        limit: 9,
        ..FILES
    };
    for (call, fault) in FAULTY {
        let row = Row {
            on: Setting { files, ..FEW },
            call,
            fault: Some(fault),
            after: files,
        };
        assert!(rt; allocations(&rt, &row)? == 0);
    }
    Ok(())
}

/// What a view keeps is allocated; a view that keeps nothing takes the memory of its name.
#[test]
fn openings(rt: HostRuntime) -> Result<(), Fail> {
    let alone = Setting {
        views: &VIEWS[..1],
        ..FEW
    };
    for open in &VIEWS[1..] {
        assert!(rt; 0 < unchanged(&rt, alone, Call::Open(*open))?);
    }
    Ok(())
}

/// Prints, all of them or a region, and how many allocations each has: one for each `intersect` or `subtract`, for room to carry records.
const PRINTS: [(Call<'static>, u64); 6] = [
    (Call::Print(b"m"), 0),
    (Call::Print(b"g"), 0),
    (Call::PrintAll, 2),
    (
        Call::Show(
            b"k",
            Place {
                sequence: b"chr1",
                start: b"5",
                end: b"25",
            },
        ),
        0,
    ),
    (
        Call::Show(
            b"z",
            Place {
                sequence: b"chr2",
                start: b"0",
                end: b"50",
            },
        ),
        0,
    ),
    (
        Call::ShowAll(Place {
            sequence: b"chr2",
            start: b"3",
            end: b"9",
        }),
        0,
    ),
];

/// A kept view that is current is printed without an allocation, and a second file of few hits isn't copied.
#[test]
fn prints_of_current_views(rt: HostRuntime) -> Result<(), Fail> {
    for (call, count) in PRINTS {
        assert!(rt; unchanged(&rt, FEW, call)? == count);
    }
    Ok(())
}

/// The lines of records of ten bases each, one in each thousand bases from this one on; so many.
fn apart(rt: &HostRuntime, first: u32, count: u32) -> Result<String, Fail> {
    let mut text = String::new(rt.alloc());
    for number in 0..count {
        let start = first.saturating_add(number.saturating_mul(1_000));
        let stop = start.saturating_add(10);
        text.push_str(format!(in rt.alloc(); "big\t{start}\t{stop}\n")?.as_str())?;
    }
    Ok(text)
}

/// Views of one sequence of a million bases, with none of strands.
const BIG_VIEWS: [Open<'static>; 7] = [
    (b"r", &[b"records"], Keeps::Nothing),
    (b"m", &[b"merge"], Keeps::Blocks),
    (b"k", &[b"cluster"], Keeps::Blocks),
    (b"c", &[b"complement"], Keeps::Blocks),
    (b"g", &[b"genomecov", b"-bg"], Keeps::Depth),
    (b"u", &[b"intersect", b"-u"], Keeps::Nothing),
    (
        b"o",
        &[b"merge", b"-c", b"1,3", b"-o", b"count,max"],
        Keeps::OtherBlocks,
    ),
];

/// A sequence of a million bases without a record.
const BIG: Files<'static> = Files {
    sizes: b"big\t1000000\n",
    first: b"",
    second: Some(b"big\t0\t5\n"),
    bases: None,
    width: 3,
    limit: 2_000,
};

/// Those views over it.
const EMPTY: Setting<'static> = Setting {
    files: BIG,
    views: &BIG_VIEWS,
    added: b"",
    is_stale: false,
};

/// How many allocations an edit has, made on a setting, after which the first file has these records.
fn edit_to(rt: &HostRuntime, on: Setting<'_>, call: Call<'_>, first: &[u8]) -> Result<u64, Fail> {
    let row = Row {
        on,
        call,
        fault: None,
        after: Files { first, ..BIG },
    };
    allocations(rt, &row)
}

/// A first record is allocated for by the track and by what each view keeps.
#[test]
fn first_record(rt: HostRuntime) -> Result<(), Fail> {
    let add = Call::Add(b"big\t500\t510");
    assert!(rt; 3 < edit_to(&rt, EMPTY, add, b"big\t500\t510\n")?);
    Ok(())
}

/// The record at 500, that at 0 and that at 1000 as edits of records one in each thousand bases: how many allocations each has, beside
/// these views.
fn edits_of<'t>(rt: &HostRuntime, views: &'t [Open<'t>], text: &'t [u8]) -> Result<[u64; 3], Fail> {
    let on = Setting {
        files: Files { first: text, ..BIG },
        views,
        ..EMPTY
    };
    let added = [text, b"big\t500\t510\n"].concat(rt.alloc())?;
    let less = text.strip_prefix(b"big\t0\t10\n").unwrap_or(b"");
    let other = less.strip_prefix(b"big\t1000\t1010\n").unwrap_or(b"");
    let moved = [b"big\t0\t10\nbig\t1500\t1510\n", other].concat(rt.alloc())?;
    let replace = Call::Replace(b"big\t1000\t1010", b"big\t1500\t1510");
    Ok([
        edit_to(rt, on, Call::Add(b"big\t500\t510"), added.as_slice())?,
        edit_to(rt, on, Call::Remove(b"big\t0\t10"), less)?,
        edit_to(rt, on, replace, moved.as_slice())?,
    ])
}

/// The same of so many records.
fn edits_of_apart(rt: &HostRuntime, views: &[Open<'_>], count: u32) -> Result<[u64; 3], Fail> {
    let text = apart(rt, 0, count)?;
    edits_of(rt, views, text.as_bytes())
}

/// What is built at once has room for an edit anywhere, if its rows have no results, and a removal allocates nothing.
#[test]
fn edits_of_many_records(rt: HostRuntime) -> Result<(), Fail> {
    assert!(rt; edits_of_apart(&rt, &BIG_VIEWS[..6], 1_000)? == [0, 0, 0]);
    for view in &BIG_VIEWS[1..] {
        for count in [15, 300] {
            let [_, remove, _] = edits_of_apart(&rt, &[BIG_VIEWS[0], *view], count)?;
            assert!(rt; remove == 0);
        }
    }
    Ok(())
}

/// How many allocations the addition of one more record has, after so many were added one by one.
fn add_after(rt: &HostRuntime, count: u32) -> Result<u64, Fail> {
    let lines = apart(rt, 0, count)?;
    let on = Setting {
        added: lines.as_bytes(),
        ..EMPTY
    };
    let after = [lines.as_bytes(), b"big\t500\t510\n"].concat(rt.alloc())?;
    edit_to(rt, on, Call::Add(b"big\t500\t510"), after.as_slice())
}

/// A chunk that is full is split at an edit: those of the records and of blocks with 256 records, that of the changes of depth with 128.
#[test]
fn full_chunks(rt: HostRuntime) -> Result<(), Fail> {
    for count in [128, 256] {
        assert!(rt; 0 < add_after(&rt, count)?);
    }
    Ok(())
}

/// Prints of views that are all stale, all of them or a region.
const STALE_PRINTS: [Call<'static>; 6] = [
    Call::Print(b"m"),
    Call::Print(b"g"),
    Call::Print(b"o"),
    Call::PrintAll,
    Call::Show(
        b"k",
        Place {
            sequence: b"big",
            start: b"5",
            end: b"25000",
        },
    ),
    Call::ShowAll(Place {
        sequence: b"big",
        start: b"3",
        end: b"9000",
    }),
];

/// How many allocations a print has of views that these additions leave stale.
fn stale_print(rt: &HostRuntime, lines: &[u8], call: Call<'_>) -> Result<u64, Fail> {
    let on = Setting {
        added: lines,
        is_stale: true,
        ..EMPTY
    };
    edit_to(rt, on, call, lines)
}

/// What is kept for a stale view is built again. A refused print writes nothing, and the view stays stale.
#[test]
fn prints_of_stale_views(rt: HostRuntime) -> Result<(), Fail> {
    let lines = apart(&rt, 0, 300)?;
    for call in STALE_PRINTS {
        assert!(rt; 0 < stale_print(&rt, lines.as_bytes(), call)?);
    }
    Ok(())
}

/// The views of two files that copy the intervals of a deep second file.
const DEEP_VIEWS: [Open<'static>; 3] = [
    (b"r", &[b"records"], Keeps::Nothing),
    (b"i", &[b"intersect", b"-c"], Keeps::Nothing),
    (b"s", &[b"subtract"], Keeps::Nothing),
];

/// So many lines of records at one position: 25 of 1,000 start at 0, and 142 or 143 stop at each of 41 to 47.
fn deep_lines(rt: &HostRuntime) -> Result<String, Fail> {
    let mut text = String::new(rt.alloc());
    for number in 0..1_000u32 {
        let (start, stop) = (number % 40, 41 + number % 7);
        text.push_str(format!(in rt.alloc(); "big\t{start}\t{stop}\n")?.as_str())?;
    }
    Ok(text)
}

/// The lines of so many records that overlap all those, and of two that overlap some or none, with this after each.
fn over_deep(rt: &HostRuntime, tails: [&str; 3]) -> Result<String, Fail> {
    let mut text = String::new(rt.alloc());
    for stop in 91..100u32 {
        text.push_str(format!(in rt.alloc(); "big\t40\t{stop}{}\n", tails[0])?.as_str())?;
    }
    text.push_str(format!(in rt.alloc();
        "big\t44\t60{}\nbig\t50\t60{}\n",
        tails[1], tails[2]
    )?.as_str())?;
    Ok(text)
}

/// A print beside a second file that is deep copies its intervals, and goes on without if that is refused.
#[test]
fn prints_beside_a_deep_file(rt: HostRuntime) -> Result<(), Fail> {
    let (first, second) = (over_deep(&rt, ["", "", ""])?, deep_lines(&rt)?);
    let counts = over_deep(&rt, ["\t1000", "\t428", "\t0"])?;
    let files = Files {
        first: first.as_bytes(),
        second: Some(second.as_bytes()),
        ..BIG
    };
    let on = Setting {
        files,
        views: &DEEP_VIEWS,
        ..EMPTY
    };
    assert!(rt; 0 < unchanged(&rt, on, Call::Print(b"i"))?);
    assert!(rt; 0 < unchanged(&rt, on, Call::Print(b"s"))?);
    assert!(rt; prints(&rt, on, b"i", counts.as_bytes())?);
    Ok(())
}
