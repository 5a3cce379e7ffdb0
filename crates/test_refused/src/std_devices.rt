//! Sinks and sources over readers and writers of std that go wrong: what failed stays failed, and is not tried again.
use crate::wrong_devices::{Place, manner};
use iv_bytes::{
    Buffered, Flush, MemSink, Sink, Source, StdSink, StdSource, WriteFault, put_all, put_pieces,
};
use std::fs;
use std::fs::File;
use std::io::BufWriter;
use std::test::Fail;
use test_faults::{Bad, FAILURES, Manner, Stream};

/// Eleven bytes.
const TEXT: &[u8] = b"chr1\t10\t20\n";

/// Pulls until a source ends or fails: what it gave, and whether it ended.
fn pull_all<S: Source>(rt: &HostRuntime, source: &mut S) -> Result<(Vec<u8>, bool), Fail> {
    let mut bytes = Vec::new(rt.alloc());
    let mut piece = [0u8; 1_000];
    for _ in 0..10_000 {
        match source.pull(&mut piece) {
            Ok(0) => return Ok((bytes, true)),
            Ok(count) => bytes.extend_from_slice(&piece[..count])?,
            Err(_) => return Ok((bytes, false)),
        }
    }
    Err(Fail::new("no end of the text"))
}

/// Whether a source over a reader gives what comes before the call that goes wrong, and fails from there on; at a call that gives nothing
/// it ends. `None` if no call goes wrong and it gives all.
fn gives_until(rt: &HostRuntime, place: Place, number: u32) -> Result<Option<bool>, Fail> {
    let mut stream = Stream::new(rt.alloc(), TEXT, manner(place, number));
    let mut source = StdSource::new(&mut stream);
    let (bytes, is_ended) = pull_all(rt, &mut source)?;
    let is_failed = source.failed() && source.pull(&mut [0; 8]).is_err();
    let is_given = bytes.as_slice() == TEXT.get(..stream.moved()).unwrap_or(b"");
    if stream.wrong() == 0 {
        return Ok((bytes.as_slice() != TEXT || !is_ended).then_some(false));
    }
    let is_last = stream.wrong() == stream.calls();
    Ok(Some(is_given && is_last && is_failed != is_ended))
}

/// The same of a sink over a writer; a call that takes nothing is a failure.
fn takes_until(rt: &HostRuntime, place: Place, number: u32) -> Option<bool> {
    let mut stream = Stream::new(rt.alloc(), b"", manner(place, number));
    let mut sink = StdSink::new(&mut stream);
    let is_put = put_all(&mut sink, TEXT).is_ok();
    let is_failed = sink.failed() && sink.push(b"x") == Err(WriteFault);
    let is_taken = stream.taken() == TEXT.get(..stream.moved()).unwrap_or(b"");
    if stream.wrong() == 0 {
        return (stream.taken() != TEXT || !is_put).then_some(false);
    }
    let is_last = stream.wrong() == stream.calls();
    Some(is_taken && is_last && is_failed && !is_put)
}

/// At how many places a sink and a source go wrong as they are to.
fn places(rt: &HostRuntime, place: Place) -> Result<(u32, u32), Fail> {
    let (mut pushes, mut pulls) = (0u32, 0u32);
    for number in 0..20 {
        pushes = pushes.saturating_add(u32::from(takes_until(rt, place, number) == Some(true)));
        pulls = pulls.saturating_add(u32::from(gives_until(rt, place, number)? == Some(true)));
        if takes_until(rt, place, number) == Some(false)
            || gives_until(rt, place, number)? == Some(false)
        {
            return Err(Fail::new("something else comes or goes"));
        }
    }
    Ok((pushes, pulls))
}

/// The text comes and goes in four calls of three bytes, and a fifth one says that it ends.
#[test]
fn calls_that_go_wrong(rt: HostRuntime) -> Result<(), Fail> {
    for bad in FAILURES {
        assert!(rt; places(&rt, Place::Calls(bad))? == (4, 5));
    }
    assert!(rt; places(&rt, Place::Calls(Bad::Nothing))? == (4, 5));
    for piece in [1, 3, 20] {
        assert!(rt; places(&rt, Place::Bytes(piece))? == (11, 12));
    }
    Ok(())
}

/// Writes into a buffer of std, which holds the text back, above a writer that fails.
#[test]
fn a_flush_that_fails(rt: HostRuntime) -> Result<(), Fail> {
    let manner = Manner {
        good: 5,
        ..Manner::sound(3)
    };
    let stream = Stream::new(rt.alloc(), b"", manner);
    let mut sink = StdSink::new(BufWriter::new(rt.alloc(), stream)?);
    assert!(rt; put_all(&mut sink, TEXT).is_ok() && !sink.failed());
    assert!(rt; sink.flush() == Err(WriteFault) && sink.failed());
    Ok(())
}

/// Whether a text that is written into a new file is read again. The file is removed in any case.
fn comes_back(rt: &HostRuntime, name: &str, text: &[u8]) -> Result<bool, Fail> {
    let is_put = put_all(&mut StdSink::new(File::create(rt, name)?), text).is_ok();
    let read = pull_all(rt, &mut StdSource::new(File::open(rt, name)?));
    let removed = fs::remove_file(rt, name);
    let (bytes, is_ended) = read?;
    removed?;
    Ok(is_put && is_ended && bytes.as_slice() == text)
}

/// Whether a source over a file that is open for writing alone fails, and a sink over one that is open for reading alone.
fn fail_at_once(rt: &HostRuntime, name: &str) -> Result<bool, Fail> {
    let mut source = StdSource::new(File::create(rt, name)?);
    let gives_nothing = source.pull(&mut [0; 8]).is_err() && source.failed();
    let mut sink = StdSink::new(File::open(rt, name)?);
    let takes_nothing = sink.push(b"x").is_err() && sink.failed();
    fs::remove_file(rt, name)?;
    Ok(gives_nothing && takes_nothing)
}

#[test]
fn files_of_the_system(rt: HostRuntime) -> Result<(), Fail> {
    let long = "row\n".repeat(rt.alloc(), 5_000)?;
    for text in [b"".as_slice(), b"x", long.as_bytes()] {
        assert!(rt; comes_back(&rt, "bedkeep_written.tmp", text)?);
    }
    assert!(rt; fail_at_once(&rt, "bedkeep_failing.tmp")?);
    Ok(())
}

/// Puts rows of 11 bytes, of 6 in three pieces, and of 11 through a buffer: whether each was put.
fn put_rows<S: Sink>(sink: &mut S) -> [bool; 3] {
    let whole = put_all(sink, TEXT);
    let pieces = put_pieces(sink, &[b"chr2", b"", b"\t5"]);
    let mut buffer = Buffered::new(sink);
    let held = put_pieces(&mut buffer, &[b"chr3", b"\t10", b"\t30\n"]);
    let handed_on = buffer.finish();
    [
        whole.is_ok(),
        pieces.is_ok(),
        held.is_ok() && handed_on.is_ok(),
    ]
}

/// Whether a sink of this room takes what it can of the rows.
fn takes(rt: &HostRuntime, room: usize, piece: usize) -> Result<bool, Fail> {
    let rows = b"chr1\t10\t20\nchr2\t5chr3\t10\t30\n".as_slice();
    let mut sink = MemSink::new(rt.alloc(), room, piece.max(1))?;
    let are_put = put_rows(&mut sink) == [11 <= room, 17 <= room, 28 <= room];
    Ok(are_put && sink.bytes() == rows.get(..room).unwrap_or(rows) && sink.failed() == (room < 28))
}

#[test]
fn rooms_of_sinks(rt: HostRuntime) -> Result<(), Fail> {
    for room in 0..=29 {
        for piece in [1, 3, 7, 100] {
            assert!(rt; takes(&rt, room, piece)?);
        }
    }
    Ok(())
}
