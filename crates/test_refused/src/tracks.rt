//! Tracks and second files alone, each allocation refused in turn: a refused edit leaves all records.
ghost use Rattle.std.specs.Prelude.{◌≡◌, IfOk};

use crate::session_files::Refusing;
use iv_lines::{BedRecord, Genome, Interval, RecordRef};
use iv_pair::Second;
use iv_text::BedFile;
use iv_track::{EditFault, Meter, Track};
use std::test::Fail;
use test_faults::{RefusesNth, begun, put, refused};

/// A call on a track or a second file.
#[derive(Clone, Copy)]
enum Call {
    /// `Track::from_records`, `Track::from_places`, `Places::of_records`, `Second::new`, after `Genome::parse` and `BedFile::parse`
    Build,
    /// `Track::add`
    Add,
    /// `Track::stage`
    Stage,
    /// `Track::replace`
    Replace,
    /// `Second::add`
    AddSecond,
    /// `Second::replace`
    ReplaceSecond,
}

/// A track and a second file, unless they aren't built.
#[derive(Drop)]
struct Both<'a> {
    track: Option<Track<Refusing<'a>>>,
    second: Option<Second<Refusing<'a>>>,
}

/// How many records each may have.
const MOST: u32 = 1_000;

/// Where the record of this number starts and stops: each has a length of its own.
fn place(number: u32) -> (u32, u32) {
    let start = number.saturating_mul(10);
    (start, start.saturating_add(number).saturating_add(1))
}

/// That record.
fn record<'a>(number: u32) -> Result<RecordRef<'a>, Fail>
    ensures { IfOk result (λ r. r.width ≡ 3) }
{
    let (start, stop) = place(number);
    if start >= stop {
        return Err(Fail::new("no base"));
    }
    let seq = 0;
    Ok(RecordRef::of_interval(Interval { seq, start, stop }))
}

/// The lines of the records below a number, the last one first.
fn lines(rt: &HostRuntime, count: u32) -> Result<String, Fail> {
    let mut text = String::new(rt.alloc());
    for after in 0..count {
        let (start, stop) = place(count - 1 - after);
        text.push_str(format!(in rt.alloc(); "big\t{start}\t{stop}\n")?.as_str())?;
    }
    Ok(text)
}

/// A track of the lines of records; `None` if an allocation fails.
fn track_of<'a>(alloc: Refusing<'a>, text: &[u8]) -> Option<Track<Refusing<'a>>> {
    let genome = Genome::parse(alloc, b"big\t100000\n").ok()?;
    let Ok(file) = BedFile::parse(alloc, &genome, 3, MOST, text) else {
        return None;
    };
    Track::from_records(alloc, file.width(), MOST, file.into_records()).ok()
}

/// A second file of the lines of records; `None` if an allocation fails.
fn second_of<'a>(alloc: Refusing<'a>, text: &[u8]) -> Option<Second<Refusing<'a>>> {
    let genome = Genome::parse(alloc, b"big\t100000\n").ok()?;
    let Ok(file) = BedFile::parse(alloc, &genome, 3, MOST, text) else {
        return None;
    };
    Second::new(alloc, MOST, file.into_places().ok()?).ok()
}

/// Whether an edit was refused because an allocation failed.
fn is_memory(done: Result<(), EditFault>) -> Result<bool, Fail> {
    match done {
        Ok(()) => Ok(false),
        Err(EditFault::NoMemory) => Ok(true),
        Err(_) => Err(Fail::new("another fault")),
    }
}

/// Edits a track that has the records below a number. Whether an allocation failed.
fn edit<'a>(
    alloc: Refusing<'a>,
    track: &mut Track<Refusing<'a>>,
    call: Call,
    count: u32,
) -> Result<bool, Fail> {
    if track.width() != 3 || track.len() > track.limit() {
        return Err(Fail::new("another width, or no room"));
    }
    let new = record(count)?;
    let mut meter = Meter::new();
    match call {
        Call::Stage => Ok(track.stage(&new, &mut meter).is_err()),
        Call::Replace => is_memory(track.replace(&record(0)?, &new, &mut meter)),
        _ => is_memory(track.add(&new, &mut meter)),
    }
}

/// Edits a second file that has the records below a number. Whether an allocation failed.
fn edit_second<'a>(
    alloc: Refusing<'a>,
    second: &mut Second<Refusing<'a>>,
    call: Call,
    count: u32,
) -> Result<bool, Fail> {
    if second.width() != 3 {
        return Err(Fail::new("another width"));
    }
    let new = record(count)?;
    let mut meter = Meter::new();
    match call {
        Call::ReplaceSecond => is_memory(second.replace(&record(0)?, &new, &mut meter)),
        _ => is_memory(second.add(&new, &mut meter)),
    }
}

/// A track and a second file of the lines of records; each is missing if an allocation fails.
fn both_of<'a>(alloc: Refusing<'a>, text: &[u8]) -> Both<'a> {
    Both {
        track: track_of(alloc, text),
        second: second_of(alloc, text),
    }
}

/// Adds the records below a number to both, one by one.
fn fill<'a>(alloc: Refusing<'a>, both: &mut Both<'a>, count: u32) -> Result<(), Fail> {
    let (Some(track), Some(second)) = (&mut both.track, &mut both.second) else {
        return Err(Fail::new("no track, or no second file"));
    };
    for number in 0..count {
        edit(alloc, track, Call::Add, number)?;
        edit_second(alloc, second, Call::AddSecond, number)?;
    }
    Ok(())
}

/// A track and a second file to which the records below a number were added one by one.
fn prepared<'a>(alloc: Refusing<'a>, count: u32) -> Result<Both<'a>, Fail> {
    begun(both_of(alloc, b""), |both| fill(alloc, both, count))
}

/// Makes a call. Whether it was refused because an allocation failed.
fn is_refused<'a>(
    alloc: Refusing<'a>,
    both: &mut Both<'a>,
    call: Call,
    count: u32,
    text: &[u8],
) -> Result<bool, Fail> {
    match (call, &mut both.track, &mut both.second) {
        (Call::AddSecond | Call::ReplaceSecond, _, Some(second)) => {
            edit_second(alloc, second, call, count)
        }
        (Call::Add | Call::Stage | Call::Replace, Some(track), _) => {
            edit(alloc, track, call, count)
        }
        _ => {
            put(both, both_of(alloc, text));
            Ok(both.track.is_none() || both.second.is_none())
        }
    }
}

/// Whether a track has just the records from one number on to another.
fn has_records(track: &Track<Refusing<'_>>, first: u32, end: u32) -> bool {
    let mut meter = Meter::new();
    let mut rows = track.entries(0, 0, &mut meter);
    for number in first..end {
        let Some((record, copies)) = rows.next(&mut meter) else {
            return false;
        };
        let (start, stop) = place(number);
        if (record.start(), record.stop(), copies) != (u64::from(start), u64::from(stop), 1) {
            return false;
        }
    }
    rows.next(&mut meter).is_none() && track.len() == end.saturating_sub(first)
}

/// The same of a second file.
fn has_second_records(second: &Second<Refusing<'_>>, first: u32, end: u32) -> bool {
    let mut rows = second.hits(0, 0, 1_000_000);
    for number in first..end {
        let Some(record) = rows.next() else {
            return false;
        };
        let (start, stop) = place(number);
        if (record.start(), record.stop()) != (u64::from(start), u64::from(stop)) {
            return false;
        }
    }
    rows.next().is_none() && second.len() == end.saturating_sub(first)
}

/// Fails unless a track and a second file have the records that they had before a call if it was refused, and else those after it.
fn check(both: &Both<'_>, call: Call, count: u32, is_refused: bool) -> Result<(), Fail> {
    let more = count.saturating_add(1);
    let before = (0, count);
    let (track, second) = match call {
        _ if is_refused => (before, before),
        Call::Build => (before, before),
        Call::Add | Call::Stage => ((0, more), before),
        Call::Replace => ((1, more), before),
        Call::AddSecond => (before, (0, more)),
        Call::ReplaceSecond => (before, (1, more)),
    };
    let is_so = match (&both.track, &both.second) {
        (Some(all), Some(others)) => {
            has_records(all, track.0, track.1) && has_second_records(others, second.0, second.1)
        }
        _ => is_refused,
    };
    if is_so {
        Ok(())
    } else {
        Err(Fail::new("other records"))
    }
}

/// How many allocations a call has on the records below a number.
fn allocations_by(alloc: Refusing<'_>, call: Call, count: u32, text: &[u8]) -> Result<u64, Fail> {
    refused(
        alloc,
        || prepared(alloc, count),
        |both| is_refused(alloc, both, call, count, text),
        |both, is_refused| check(both, call, count, is_refused),
    )
}

/// The same with an allocator of its own.
fn allocations(rt: &HostRuntime, call: Call, count: u32) -> Result<u64, Fail> {
    let text = lines(rt, count)?;
    let alloc = RefusesNth::new(rt.alloc(), u64::MAX);
    allocations_by(&alloc, call, count, text.as_bytes())
}

/// Each edit takes memory once a chunk is full.
#[test]
fn tracks_and_second_files(rt: HostRuntime) -> Result<(), Fail> {
    assert!(rt; 0 < allocations(&rt, Call::Build, 300)?);
    for call in [
        Call::Add,
        Call::Stage,
        Call::Replace,
        Call::AddSecond,
        Call::ReplaceSecond,
    ] {
        let mut growing = 0u64;
        for count in [1, 30, 128, 256] {
            growing = growing.saturating_add(allocations(&rt, call, count)?);
        }
        assert!(rt; 0 < growing);
    }
    Ok(())
}
