//! BED files of a session that come from sources which fail at each byte and at each call, or have more bytes than they may.
use crate::session_files::Refusing;
use crate::wrong_devices::{Place, manner};
use iv_args::{Plan, Slot};
use iv_bytes::{MemSource, StdSource};
use iv_run::{ExitReason, FilesReader};
use iv_text::HeldColumns;
use std::alloc::Allocator;
use std::test::Fail;
use test_faults::{FAILURES, Manner, RefusesNth, Stream};

/// Two records, in 18 bytes.
const TEXT: &[u8] = b"chr1\t1\t2\nchr1\t3\t4\n";

/// The arguments of a session of two files.
const ARGUMENTS: [&[u8]; 7] = [b"session", b"-g", b"g", b"-i", b"a", b"-b", b"b"];

/// The reader of a plan's files, which has read a genome file of one sequence.
fn begun<A: Allocator + Copy>(alloc: A, plan: &Plan<'_, A>) -> Result<FilesReader<A>, ExitReason> {
    let mut sizes = MemSource::new(b"chr1\t100\n", usize::MAX, 4);
    FilesReader::begin(alloc, plan, HeldColumns::All, &mut sizes, 100).map_err(
        |fault| ExitReason::from((Slot::Sizes, fault)),
    )
}

/// How many records the first file of a session has, if its files come from these streams and may have so many bytes each.
fn read_in<A: Allocator + Copy>(
    begun: FilesReader<A>,
    first: &mut Stream<'_>,
    second: &mut Stream<'_>,
    most: u32,
) -> Result<usize, ExitReason> {
    let mut reader = begun;
    if let Err(fault) = reader.read_first(&mut StdSource::new(first), u64::from(most)) {
        return Err(ExitReason::from((Slot::First, fault)));
    }
    if let Err(fault) = reader.read_second(&mut StdSource::new(second), u64::from(most)) {
        return Err(ExitReason::from((Slot::Other, fault)));
    }
    let files = reader.finish()?;
    Ok(files.first.records().len())
}

/// The same with all memory.
fn read(
    rt: &HostRuntime,
    first: &mut Stream<'_>,
    second: &mut Stream<'_>,
    most: u32,
) -> Result<Result<usize, ExitReason>, Fail> {
    let plan = Plan::read(rt.alloc(), &ARGUMENTS)?;
    Ok(begun(rt.alloc(), &plan).and_then(|reader| read_in(reader, first, second, most)))
}

/// Whether a file of a session that goes wrong at a place ends it, and is not read again. `None` if it doesn't go wrong, and all is read.
fn ends(rt: &HostRuntime, slot: Slot, place: Place, number: u32) -> Result<Option<bool>, Fail> {
    let mut wrong = Stream::new(rt.alloc(), TEXT, manner(place, number));
    let mut sound = Stream::new(rt.alloc(), TEXT, Manner::sound(3));
    let ended = if slot == Slot::First {
        read(rt, &mut wrong, &mut sound, 18)?
    } else {
        read(rt, &mut sound, &mut wrong, 18)?
    };
    if wrong.wrong() == 0 {
        return Ok((ended != Ok(2)).then_some(false));
    }
    let is_last = wrong.wrong() == wrong.calls();
    Ok(Some(is_last && ended == Err(ExitReason::Unreadable(slot))))
}

/// At how many places a file ends the session so.
fn places(rt: &HostRuntime, slot: Slot, place: Place) -> Result<u32, Fail> {
    for number in 0..100u32 {
        match ends(rt, slot, place, number)? {
            Some(true) => {}
            Some(false) => return Err(Fail::new("another end")),
            None => return Ok(number),
        }
    }
    Err(Fail::new("no end of places"))
}

/// A file is asked for more bytes than it has: in one call more.
#[test]
fn files_that_go_wrong(rt: HostRuntime) -> Result<(), Fail> {
    for slot in [Slot::First, Slot::Other] {
        for bad in FAILURES {
            assert!(rt; places(&rt, slot, Place::Calls(bad))? == 7);
        }
        for piece in [1, 2, 3, 20] {
            assert!(rt; places(&rt, slot, Place::Bytes(piece))? == 19);
        }
    }
    Ok(())
}

/// The end of a session whose files may have so many bytes each.
fn within(rt: &HostRuntime, most: u32) -> Result<Result<usize, ExitReason>, Fail> {
    let mut first = Stream::new(rt.alloc(), TEXT, Manner::sound(3));
    let mut second = Stream::new(rt.alloc(), TEXT, Manner::sound(3));
    read(rt, &mut first, &mut second, most)
}

#[test]
fn files_of_more_bytes_than_they_may_have(rt: HostRuntime) -> Result<(), Fail> {
    for most in 0..18 {
        assert!(rt; within(&rt, most)? == Err(ExitReason::TooLong(Slot::First)));
    }
    assert!(rt; within(&rt, 18)? == Ok(2));
    Ok(())
}

/// How a session ends whose first file fails at its end, with the allocation of this number refused, after those for its arguments and
/// the genome file.
fn end_without(
    rt: &HostRuntime,
    alloc: Refusing<'_>,
    number: u64,
) -> Result<Result<usize, ExitReason>, Fail> {
    let plan = Plan::read(alloc, &ARGUMENTS)?;
    let mut first = Stream::new(rt.alloc(), TEXT, manner(Place::Bytes(3), 18));
    let mut second = Stream::new(rt.alloc(), TEXT, Manner::sound(3));
    let reader = begun(alloc, &plan)?;
    alloc.again(number.max(1));
    let ended = read_in(reader, &mut first, &mut second, 18);
    alloc.grant();
    Ok(ended)
}

/// A file that can't be read is reported, even if an allocation failed before.
#[test]
fn files_that_go_wrong_without_memory(rt: HostRuntime) -> Result<(), Fail> {
    let alloc = RefusesNth::new(rt.alloc(), u64::MAX);
    for number in 1..20 {
        assert!(rt; end_without(&rt, &alloc, number)? == Err(ExitReason::Unreadable(Slot::First)));
    }
    assert!(rt; 2 < alloc.refusals());
    Ok(())
}
