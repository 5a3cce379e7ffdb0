//! The calls of a track: edits, looks and regions, with their steps.
ghost use Rattle.std.specs.Prelude.{◌≡◌, ◌≤◌, IfOk, length};

use crate::fixtures::{SIZES, holds, holds_of};
use iv_lines::{Genome, RecordRef, read_record};
use iv_text::BedFile;
use iv_track::{EditFault, Meter, Region, Track};
use std::test::Fail;

/// The record of a line of four columns.
fn record<'a>(genome: &Genome, line: &'a [u8]) -> Result<RecordRef<'a>, Fail>
    ensures { IfOk result (λ r. r.width ≡ 4) }
{
    Ok(read_record(genome, 4, line)?)
}

/// An edit by the records of lines.
#[derive(Clone, Copy)]
enum Edit<'a> {
    Add(&'a [u8]),
    Stage(&'a [u8]),
    Remove(&'a [u8]),
    Replace(&'a [u8], &'a [u8]),
}

/// Stages a record.
fn stage(track: &mut Track, feature: &RecordRef<'_>) -> Result<(), EditFault>
    requires room { length track.old.records ≤ track.old.limit }
    requires width { feature.now.width ≡ track.old.width }
{
    match track.stage(feature, &mut Meter::new()) {
        Ok(()) => Ok(()),
        Err(_) => Err(EditFault::NoMemory),
    }
}

/// The fault of an edit of a track that has no more records than its limit, except of one that is removed.
fn fault_of(
    rt: &HostRuntime,
    genome: &Genome,
    track: &mut Track,
    edit: Edit<'_>,
) -> Result<Option<EditFault>, Fail> {
    if track.width() != 4 {
        return Err(Fail::new("another width"));
    }
    let has_room = track.len() <= track.limit();
    let mut meter = Meter::new();
    let done = match edit {
        Edit::Add(line) => track.add(&record(genome, line)?, &mut meter),
        Edit::Remove(line) => track.remove(&record(genome, line)?, &mut meter),
        Edit::Stage(line) if has_room => stage(track, &record(genome, line)?),
        Edit::Replace(old, new) if has_room => {
            let old = record(genome, old)?;
            let new = record(genome, new)?;
            track.replace(&old, &new, &mut meter)
        }
        _ => return Err(Fail::new("more records than the limit")),
    };
    if meter.steps() > 8 {
        return Err(Fail::new("more than eight steps"));
    }
    Ok(done.err())
}

const A: &[u8] = b"chr1\t10\t20\ta";

const B: &[u8] = b"chr1\t10\t20\tb";

const C: &[u8] = b"chr1\t10\t20\tc";

/// Edits of a track of at most two records, the fault of each, and how many records there are then.
const EDITS: [(Edit<'static>, Option<EditFault>, u32); 13] = [
    (Edit::Remove(A), Some(EditFault::Absent), 0),
    (Edit::Replace(A, A), Some(EditFault::Absent), 0),
    (Edit::Add(A), None, 1),
    (Edit::Remove(B), Some(EditFault::Absent), 1),
    (Edit::Replace(B, A), Some(EditFault::Absent), 1),
    (Edit::Add(B), None, 2),
    (Edit::Add(C), Some(EditFault::Full), 2),
    (Edit::Replace(A, C), None, 2),
    (Edit::Stage(A), None, 3),
    (Edit::Remove(C), None, 2),
    (Edit::Add(C), Some(EditFault::Full), 2),
    (Edit::Remove(A), None, 1),
    (Edit::Add(C), None, 2),
];

/// Whether they end so.
fn are_done(rt: &HostRuntime, genome: &Genome, track: &mut Track) -> Result<bool, Fail> {
    for (edit, fault, count) in EDITS {
        if fault_of(rt, genome, track, edit)? != fault || track.len() != count {
            return Ok(false);
        }
    }
    Ok(track.limit() == 2 && track.width() == 4)
}

#[test]
fn limit_of_a_track(rt: HostRuntime) -> Result<(), Fail> {
    let genome = Genome::parse(rt.alloc(), SIZES)?;
    let mut track = Track::new(rt.alloc(), 4, 2);
    holds_of(are_done(&rt, &genome, &mut track))
}

/// The first letter of a record's name and its copies, of the record after this one, or of the first one on its sequence.
fn next_on(track: &Track, record: &RecordRef<'_>, after: bool) -> Option<(u8, u32)> {
    let mut meter = Meter::new();
    let (feature, copies) = if after {
        track.after(record, &mut meter)?
    } else {
        track.at_or_after(record.seq(), 0, &mut meter)?
    };
    let letter = feature.name().first()?;
    (track.copies(&feature, &mut meter) == copies).then_some((*letter, copies))
}

/// Adds records to a track.
fn add_all(
    rt: &HostRuntime,
    genome: &Genome,
    track: &mut Track,
    lines: &[&[u8]],
) -> Result<(), Fail> {
    for line in lines {
        if fault_of(rt, genome, track, Edit::Add(line))?.is_some() {
            return Err(Fail::new("a record is refused"));
        }
    }
    Ok(())
}

/// Whether two copies of a record and one of another are found in order.
fn are_found(rt: &HostRuntime, genome: &Genome, track: &mut Track) -> Result<bool, Fail> {
    add_all(rt, genome, track, &[B, A, A])?;
    for (line, after, want) in [
        (B, false, Some((b'a', 2))),
        (A, true, Some((b'b', 1))),
        (B, true, None),
    ] {
        if next_on(track, &record(genome, line)?, after) != want {
            return Ok(false);
        }
    }
    Ok(track.len() == 3)
}

#[test]
fn copies_in_order(rt: HostRuntime) -> Result<(), Fail> {
    let genome = Genome::parse(rt.alloc(), SIZES)?;
    let mut track = Track::new(rt.alloc(), 4, 9);
    holds_of(are_found(&rt, &genome, &mut track))
}

/// Whether a track of three records, from which others were taken, is the same after it is packed.
fn is_packed(rt: &HostRuntime, genome: &Genome, track: &mut Track) -> Result<bool, Fail> {
    add_all(rt, genome, track, &[B, A, A])?;
    for _removed in 0..4 {
        add_all(rt, genome, track, &[C])?;
        if fault_of(rt, genome, track, Edit::Remove(C))?.is_some() {
            return Err(Fail::new("a removal is refused"));
        }
    }
    track.pack(rt.alloc(), &mut Meter::new());
    let first = next_on(track, &record(genome, B)?, false);
    let second = next_on(track, &record(genome, A)?, true);
    let fault = fault_of(rt, genome, track, Edit::Remove(C))?;
    let is_same = first == Some((b'a', 2)) && second == Some((b'b', 1));
    Ok(is_same && fault == Some(EditFault::Absent) && track.len() == 3)
}

#[test]
fn packed_track(rt: HostRuntime) -> Result<(), Fail> {
    let genome = Genome::parse(rt.alloc(), SIZES)?;
    let mut track = Track::new(rt.alloc(), 4, 9);
    holds_of(is_packed(&rt, &genome, &mut track))
}

/// The track of the records of a BED file.
fn track_of(rt: &HostRuntime, genome: &Genome, text: &[u8]) -> Result<Track, Fail> {
    let file = BedFile::parse(rt.alloc(), genome, 3, 99, text)?;
    let width = file.width();
    Ok(Track::from_records(rt.alloc(), width, 99, file.into_records())?)
}

/// Sequences and starts, and the sequence of the first record from there on in a track of one record at each end of two.
const STARTS: [(u32, u64, Option<u32>); 9] = [
    (0, 99, Some(0)),
    (0, 100, Some(1)),
    (0, 4_294_967_294, Some(1)),
    (0, 4_294_967_295, Some(1)),
    (0, 4_294_967_296, Some(1)),
    (0, u64::MAX, Some(1)),
    (1, 4_294_967_296, None),
    (u32::MAX, 0, None),
    (u32::MAX, u64::MAX, None),
];

/// Whether that is what is found.
fn are_starts(track: &Track) -> bool {
    for (seq, start, want) in STARTS {
        let found = match track.at_or_after(seq, start, &mut Meter::new()) {
            Some((feature, _)) => Some(feature.seq()),
            None => None,
        };
        if found != want {
            return false;
        }
    }
    true
}

#[test]
fn starts_past_each_record(rt: HostRuntime) -> Result<(), Fail> {
    let genome = Genome::parse(rt.alloc(), SIZES)?;
    let track = track_of(&rt, &genome, b"chr2\t0\t1\nchr1\t99\t100\n")?;
    holds(are_starts(&track))
}

/// Twelve records, one of them twice; the longest has ten positions.
const REGIONS: &[u8] = b"chr1\t0\t10
chr1\t5\t8
chr1\t5\t8
chr1\t20\t30
chr1\t29\t31
chr1\t40\t41
chr1\t50\t60
chr1\t60\t70
chr1\t70\t80
chr1\t80\t90
chr1\t90\t100
chr2\t5\t8
";

/// How many records cover a position, and in how many steps that is found.
fn depth_in(track: &Track, seq: u32, position: u32) -> (u64, u64) {
    let mut meter = Meter::new();
    let depth = track.depth_at(seq, u64::from(position), &mut meter);
    (depth, meter.steps())
}

/// Sequences and positions, how many records cover each, and in how many steps that is found at most.
const DEPTHS: [(u32, u32, u64, u64); 8] = [
    (0, 5, 3, 5),
    (0, 8, 1, 5),
    (0, 29, 2, 6),
    (0, 45, 0, 4),
    (0, 99, 1, 4),
    (1, 7, 1, 3),
    (2, 0, 0, 2),
    (9, 4_294_967_295, 0, 2),
];

/// Whether that is so.
fn are_depths(track: &Track) -> bool {
    for (seq, position, depth, most) in DEPTHS {
        let (found, steps) = depth_in(track, seq, position);
        if found != depth || steps > most {
            return false;
        }
    }
    true
}

/// Where the first two hits of a region begin, in how many steps they are found.
fn first_two(track: &Track, seq: u32, start: u32, stop: u32) -> (Option<u64>, Option<u64>, u64) {
    if start >= stop {
        return (None, None, 0);
    }
    let at = Region {
        seq,
        start: u64::from(start),
        stop: u64::from(stop),
    };
    let mut meter = Meter::new();
    let mut hits = track.hits(at, &mut meter);
    let first = hits.next(&mut meter).map(|feature| feature.start());
    let second = hits.next(&mut meter).map(|feature| feature.start());
    (first, second, meter.steps())
}

/// Whether hits of regions are these.
fn are_hits(track: &Track) -> bool {
    first_two(track, 0, 7, 21) == (Some(0), Some(5), 3)
        && first_two(track, 0, 30, 45) == (Some(29), Some(40), 4)
        && first_two(track, 0, 31, 40).0.is_none()
        && first_two(track, 1, 7, 4_294_967_295).0 == Some(5)
        && first_two(track, 1, 4_294_967_294, 4_294_967_295).2 <= 3
        && first_two(track, 2, 0, 4_294_967_295).0.is_none()
}

/// Adds a record that is as long as its sequence and removes it: the depth at a position, with its steps, before, between and afterwards.
fn depths_around(
    rt: &HostRuntime,
    genome: &Genome,
    track: &mut Track,
) -> Result<[(u64, u64); 3], Fail> {
    let before = depth_in(track, 0, 95);
    let feature = read_record(genome, 3, b"chr1\t0\t100")?;
    if feature.width() != track.width() || track.add(&feature, &mut Meter::new()).is_err() {
        return Err(Fail::new("a record is refused"));
    }
    let between = depth_in(track, 0, 95);
    if track.remove(&feature, &mut Meter::new()).is_err() {
        return Err(Fail::new("a record is absent"));
    }
    Ok([before, between, depth_in(track, 0, 95)])
}

/// Whether depths and hits are found in few steps, beside a long record in more, and without it in few again.
fn are_regions(rt: &HostRuntime, genome: &Genome, track: &mut Track) -> Result<bool, Fail> {
    let [before, between, after] = depths_around(rt, genome, track)?;
    let is_longer = between.0 == 2 && between.1.saturating_sub(5) > before.1;
    Ok(before.0 == 1 && is_longer && after == before && are_hits(track) && are_depths(track))
}

#[test]
fn regions_of_a_track(rt: HostRuntime) -> Result<(), Fail> {
    let genome = Genome::parse(rt.alloc(), SIZES)?;
    let mut track = track_of(&rt, &genome, REGIONS)?;
    holds_of(are_regions(&rt, &genome, &mut track))
}
