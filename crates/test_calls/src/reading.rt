//! Reading whole files: up to the limits on their bytes and records, and at a real size.
use iv_bytes::{ByteQueue, MemSource, Source, StdSource};
use iv_lines::{Genome, LoadCause, LoadFault, RecordFault};
use iv_run::{FileFault, read_all};
use iv_text::BedFile;
use std::test::Fail;

/// Whether a text is read whole, with a limit, that fails after so many bytes and comes in pieces of so many.
fn read(
    rt: &HostRuntime,
    text: &[u8],
    good: usize,
    piece: usize,
    limit: u64,
) -> Result<bool, FileFault> {
    let mut source = MemSource::new(text, good, piece.max(1));
    Ok(read_all(rt.alloc(), &mut source, limit)?.as_slice() == text)
}

#[test]
fn files_of_as_many_bytes_as_the_limit(rt: HostRuntime) {
    for piece in [1, 2, 3, 100] {
        for (text, good, limit, want) in [
            (b"abc".as_slice(), usize::MAX, 3, Ok(true)),
            (b"abcd", usize::MAX, 3, Err(FileFault::TooLong)),
            (b"abcd", usize::MAX, 4, Ok(true)),
            (b"a", usize::MAX, 0, Err(FileFault::TooLong)),
            (b"", usize::MAX, 0, Ok(true)),
            (b"chr1\t100\n", 5, 9, Err(FileFault::Input)),
            (b"chr1\t100\n", 5, 4, Err(FileFault::TooLong)),
            (b"chr1\t100\n", 0, 0, Err(FileFault::Input)),
        ] {
            assert!(rt; read(&rt, text, good, piece, limit) == want);
        }
    }
}

/// A file that fails after its last byte is not known to be whole.
#[test]
fn files_that_fail_after_each_byte(rt: HostRuntime) {
    let text = b"chr1\t100\n".as_slice();
    for piece in [1, 3, 100] {
        for good in 0..=9usize {
            assert!(rt; read(&rt, text, good, piece, 100) == Err(FileFault::Input));
        }
        assert!(rt; read(&rt, text, 10, piece, 100) == Ok(true));
    }
}

/// How many records are read of a BED file, with a limit.
fn records(rt: &HostRuntime, genome: &Genome, text: &[u8], limit: u32) -> Result<usize, LoadFault> {
    let file = BedFile::parse(rt.alloc(), genome, 3, limit, text)?;
    Ok(file.records().len())
}

/// Whether that is what is read over a genome of one sequence.
fn reads(
    rt: &HostRuntime,
    text: &[u8],
    limit: u32,
    want: Result<usize, LoadFault>,
) -> Result<bool, Fail> {
    let genome = Genome::parse(rt.alloc(), b"chr1\t100\n")?;
    Ok(records(rt, &genome, text, limit) == want)
}

/// The first line has a record too many.
const MANY_1: LoadFault = LoadFault {
    line: 1,
    cause: LoadCause::TooMany,
};

/// The second line has a record too many.
const MANY_2: LoadFault = LoadFault {
    line: 2,
    cause: LoadCause::TooMany,
};

/// The fourth line has a record too many.
const MANY_4: LoadFault = LoadFault {
    line: 4,
    cause: LoadCause::TooMany,
};

/// Damage of the second line, whose record has no end.
const NO_END: LoadFault = LoadFault {
    line: 2,
    cause: LoadCause::Record(RecordFault::StopNumber),
};

/// Files, how many records each may have, and what is read. The first record above the limit is the fault, unless it has one of
/// its own.
const FILES: [(&[u8], u32, Result<usize, LoadFault>); 7] = [
    (b"chr1\t1\t2\n", 1, Ok(1)),
    (b"chr1\t1\t2\nchr1\t1\t2\n", 1, Err(MANY_2)),
    (b"#\nchr1\t1\t2\n\nchr1\t3\t4", 1, Err(MANY_4)),
    (b"chr1\t1\t2\n#\n\ntrack\n", 1, Ok(1)),
    (b"chr1\t1\t2\nchr1\t1\tx\n", 1, Err(NO_END)),
    (b"chr1\t1\t2\n", 0, Err(MANY_1)),
    (b"#\n", 0, Ok(0)),
];

/// Whether each of these is read so.
fn are_read(
    rt: &HostRuntime,
    files: &[(&[u8], u32, Result<usize, LoadFault>)],
) -> Result<bool, Fail> {
    for (text, limit, want) in files {
        if !reads(rt, text, *limit, *want)? {
            return Ok(false);
        }
    }
    Ok(true)
}

#[test]
fn files_of_as_many_records_as_the_limit(rt: HostRuntime) -> Result<(), Fail> {
    assert!(rt; are_read(&rt, &FILES)?);
    Ok(())
}

/// A text of this number of letters.
fn letters(rt: &HostRuntime, count: usize) -> Result<Vec<u8>, Fail> {
    Ok(vec![in rt.alloc(); b'n'; count]?)
}

/// Whether all bytes of a text are read from a source.
fn reads_all<S: Source>(rt: &HostRuntime, source: &mut S, text: &[u8]) -> Result<bool, FileFault> {
    let bytes = read_all(rt.alloc(), source, text.len() as u64)?;
    Ok(bytes.as_slice() == text)
}

/// Whether they are, from a reader and from memory in pieces of each of some sizes.
fn is_read(rt: &HostRuntime, text: &[u8]) -> Result<bool, FileFault> {
    for piece in [1_000usize, 65_536, 100_000] {
        let mut source = MemSource::new(text, usize::MAX, piece.max(1));
        if !reads_all(rt, &mut source, text)? {
            return Ok(false);
        }
    }
    reads_all(rt, &mut StdSource::new(text), text)
}

#[test]
fn two_megabytes_are_read(rt: HostRuntime) -> Result<(), Fail> {
    let text = letters(&rt, 2_000_001)?;
    assert!(rt; is_read(&rt, text.as_slice())?);
    Ok(())
}

/// Whether the queue is filled from the source, and then holds these bytes.
fn is_filled_with(held: &mut ByteQueue, source: &mut MemSource<'_>, bytes: &[u8]) -> bool {
    held.fill(source) == Ok(!bytes.is_empty()) && held.bytes() == bytes
}

/// A queue is filled only if it holds no byte.
#[test]
fn bytes_that_are_held(rt: HostRuntime) {
    let mut source = MemSource::new(b"chr1\t10", usize::MAX, 4);
    let mut held = ByteQueue::new();
    assert!(rt; is_filled_with(&mut held, &mut source, b"chr1"));
    held.skip(held.bytes().len());
    assert!(rt; held.add(b"abc") == 3 && is_filled_with(&mut held, &mut source, b"abc"));
    held.skip(held.bytes().len());
    assert!(rt; is_filled_with(&mut held, &mut source, b"\t10"));
    held.skip(held.bytes().len());
    assert!(rt; is_filled_with(&mut held, &mut source, b""));
}
