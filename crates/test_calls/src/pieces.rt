//! Files that come in pieces of each size: a run ends as if they came at once, though lines, headers and line ends are cut anywhere.
//! What the files say is in `tests/`.
ghost use Rattle.std.specs.Prelude.{◌<◌};

use crate::fixtures::joined;
use iv_bytes::{MemSink, MemSource};
use iv_program::{MemFiles, NamedBytes, Unseen, run_program};
use std::test::Fail;
use test_faults::words_of;

/// Arguments, separated by spaces, and a script.
type Run<'a> = (&'a [u8], &'a [u8]);

/// How a run ends whose files and script come in pieces of so many bytes: its status, its output and its messages.
fn end_of(
    rt: &HostRuntime,
    run: Run<'_>,
    files: &[NamedBytes<'_>],
    piece: usize,
) -> Result<Vec<u8>, Fail>
    requires { 0 < piece }
{
    let words = words_of(rt.alloc(), run.0)?;
    let mut files = MemFiles::new(files, usize::MAX, piece);
    let mut input = MemSource::new(run.1, usize::MAX, piece);
    let mut output = MemSink::new(rt.alloc(), 1_000, 1_000)?;
    let mut messages = MemSink::new(rt.alloc(), 1_000, 1_000)?;
    let ended = run_program(
        rt.alloc(),
        words.as_slice(),
        &mut files,
        &mut input,
        &mut output,
        &mut messages,
        &mut Unseen,
    );
    joined(
        rt,
        &[&[ended.status()], output.bytes(), b"!", messages.bytes()],
    )
}

/// A file of a name.
fn named<'a>(name: &'a [u8], bytes: &'a [u8]) -> NamedBytes<'a> {
    NamedBytes { name, bytes }
}

/// A genome of three sequences, of 100 bases, of 50 and of a million.
const SIZES: &[u8] = b"chr1\t100\nchr2\t50\nbig\t1000000\n";

/// Runs over a BED file: of intervals, of records, of two files, and a session of two.
const RUNS: [Run<'static>; 4] = [
    (b"merge -g g -i a -limit 3", b""),
    (b"records -g g -i a -limit 3", b""),
    (b"intersect -u -g g -a a -b a -limit 3", b""),
    (
        b"session -g g -i a -b a -limit 3",
        b"open\tr\trecords\nprint\tr\n",
    ),
];

/// BED files: ends of lines, headings, columns, and faults, of which the first one counts; four records are too many.
const TEXTS: [&[u8]; 31] = [
    b"",
    b"\n",
    b"\n\r\n\n",
    b"#c\nbrowser position\r\ntrack",
    b"chr1\t1\t2\nchr2\t3\t50\n",
    b"chr1\t1\t2\r\nchr1\t7\t8",
    b"\r\nchr1\t1\t2\r\n\r\nchr2\t0\t50\r\n",
    b"#\n\n\nchr1\t0\t100\n\n#",
    b"#a\rb\nchr1\t0\t1\n",
    b"big\t999999\t1000000\ta name of some length\nchr1\t0\t1\tb",
    b"track name=x\n#c\n\nchr1\t10\t20\tn 1\t0\nchr2\t0010\t0020\tm\t0.5",
    b"chr1\t10\t20\ta\t0\t+\nchr1\t12\t40\td\t0\t.\nchr1\t25\t35\te\t0\t-",
    b"browser hide all\r\ntrack\r\nchr1\t10\t20\tx\t7\t-\r\n\r\nchr1\t0\t100\ty\t0\t+\r\n#\r\nchr2\t5\t9\tz\t.\t.\r\n",
    b"chr1\t1\t2\nchr1\t3\t101\n",
    b"chr1\t1\t2\nchr1\t3\tx",
    b"chr1\t1\t2\r\n\r\nchr1\t3\t3\r\n",
    b"chr1\t1\t2\ta\t1\t*",
    b"chr1\t1\t2\r",
    b"chr1\t1\t2\ta\r",
    b"chr1\t1\t2\ta\t\r\r\n",
    b"\r",
    b"chr1\t1\t2\n\r",
    b"track name=x\n#c\n\nchr1\t1\t2\nchr1\t1\t2\ta\n",
    b"chr1\t1\t2\ta\t5\t+\tx\n",
    b"#\n\nchr1\t1\n",
    b"chr9\t1\t2\nchr1\tx\t2\n",
    b"chr1\t1\t2\nchr1\t1x\t2\nchr9\t1\t2",
    b"chr1\t1\t2\nchr1\t1\t2\nchr1\t3\t4\nchr1\t3\t4\n",
    b"chr1\t1\t2\n#\nchr1\t1\t2\r\nchr1\t3\t4\nchr1\t3\t4",
    b"chr1\t1\t2\nchr1\t1\t2\nchr1\t3\t4\nchr1\t4\t4\n",
    b"chr1\t1\t2\nchr1\t1\t2\nchr1\t3\t4\nchr1\t4\t4",
];

/// Whether a run over files ends as it does if they come at once, whatever the size of the pieces, up to so many bytes.
fn is_same(
    rt: &HostRuntime,
    run: Run<'_>,
    files: &[NamedBytes<'_>],
    most: usize,
) -> Result<bool, Fail> {
    let whole = end_of(rt, run, files, 1_000)?;
    for less in 0..most {
        if end_of(rt, run, files, less + 1)?.as_slice() != whole.as_slice() {
            return Ok(false);
        }
    }
    Ok(true)
}

/// Whether that is so of each run over a BED file, and all report the same fault if there is one.
fn are_records(rt: &HostRuntime, text: &[u8]) -> Result<bool, Fail> {
    let files = [named(b"g", SIZES), named(b"a", text)];
    let first = end_of(rt, RUNS[0], &files, 1_000)?;
    let is_damaged = first.as_slice().first() == Some(&3);
    for run in RUNS {
        if !is_same(rt, run, &files, text.len())? {
            return Ok(false);
        }
        if is_damaged && end_of(rt, run, &files, 1)?.as_slice() != first.as_slice() {
            return Ok(false);
        }
    }
    Ok(true)
}

#[test]
fn bed_files_in_pieces(rt: HostRuntime) -> Result<(), Fail> {
    for text in TEXTS {
        assert!(rt; are_records(&rt, text)?);
    }
    Ok(())
}

/// FASTA files over a genome of three sequences, of 3 bases, of 21 and of none; sound ones and such with a fault.
const BASES: [&[u8]; 22] = [
    b"",
    b"\n\r\n\n",
    b"\r",
    b"\r\r\n",
    b">s x\r\nA\r\nC\n\nG\n>q\nAC\n>t\r\nACGTACGTACGTACGTACGTA",
    b">t\nACGTACGTACGTACGTACGTA\r\n>z\n>s\nAC\nG\n",
    b">s\nACG\r",
    b">s\nACG\n\r",
    b">s\nA\rCG\n",
    b">s\nAC\n>q\nAC GT\n",
    b">q\nAC\n>s\nACGT\n>t\nA\n",
    b">q\nAC\n>s\nACGT\n>q\n",
    b">q\r\r\nAC\n",
    b">q\r",
    b">q",
    b">",
    b">\n",
    b"> q\n",
    b"ACGT",
    b" ",
    b"\nA C\n>s\n",
    b">s\nA>G\n>t\n>z\nACGT\n",
];

/// Records on none of its sequences, on one, on the other, and on both.
const ON: [&[u8]; 4] = [b"", b"s\t0\t3\n", b"t\t2\t21\n", b"s\t1\t2\nt\t0\t21\n"];

/// Whether each run of getfasta over a FASTA file ends as it does if that comes at once.
fn are_bases(rt: &HostRuntime, text: &[u8]) -> Result<bool, Fail> {
    let sizes = b"s\t3\nt\t21\nz\t0\n";
    for records in ON {
        let files = [named(b"g", sizes), named(b"a", records), named(b"f", text)];
        if !is_same(
            rt,
            (b"getfasta -tab -g g -bed a -fi f", b""),
            &files,
            text.len(),
        )? {
            return Ok(false);
        }
    }
    Ok(true)
}

#[test]
fn bases_in_pieces(rt: HostRuntime) -> Result<(), Fail> {
    for text in BASES {
        assert!(rt; are_bases(&rt, text)?);
    }
    Ok(())
}
