//! The hits of a second file, and the rows of one record beside it or beside bases, each by one call.
ghost use Rattle.std.specs.Prelude.{◌≤◌};
ghost use Rattle.iv_track.specs.Tracked.{most_records};

use crate::fixtures::{SIZES, holds_of};
use crate::sequences::fasta_of;
use iv_bytes::{MemSink, WriteFault};
use iv_fasta::{Fasta, FastaOutput, put_fasta};
use iv_lines::{Genome, Record, read_record};
use iv_pair::{IntersectOutput, PairOutput, Second, put_intersect, put_subtract};
use iv_text::BedFile;
use std::test::Fail;

/// The second file of the records of a BED file of three columns, which may have so many.
fn second_of(rt: &HostRuntime, genome: &Genome, limit: u32, text: &[u8]) -> Result<Second, Fail>
    requires { limit ≤ most_records }
{
    let file = BedFile::parse(rt.alloc(), genome, 3, limit, text)?;
    Ok(Second::new(rt.alloc(), limit, file.into_places()?)?)
}

/// An interval, and where its hits start and stop.
type Hits<'a> = (u32, u64, u64, &'a [(u64, u64)]);

/// Whether the hits of an interval start and stop here, in this order.
fn hits_are(second: &Second, wanted: &Hits<'_>) -> bool {
    let (seq, start, stop, want) = *wanted;
    if start >= stop {
        return false;
    }
    let mut hits = second.hits(seq, start, stop);
    for place in want {
        let Some(feature) = hits.next() else {
            return false;
        };
        if feature.seq() != seq || (feature.start(), feature.stop()) != *place {
            return false;
        }
    }
    hits.next().is_none()
}

/// Whether these are the hits of intervals.
fn all_hits_are(second: &Second, wanted: &[Hits<'_>]) -> bool {
    for hits in wanted {
        if !hits_are(second, hits) {
            return false;
        }
    }
    true
}

/// Whether the second file of a text has so many records, and its intervals these hits.
fn has_hits(
    rt: &HostRuntime,
    genome: &Genome,
    text: &[u8],
    count: u32,
    wanted: &[Hits<'_>],
) -> Result<bool, Fail> {
    let second = second_of(rt, genome, 1_000_000, text)?;
    let numbers = (second.len(), second.width(), second.limit());
    Ok(numbers == (count, 3, 1_000_000) && all_hits_are(&second, wanted))
}

/// A BED file, how many records it has, and hits.
type File<'a> = (&'a [u8], u32, &'a [Hits<'a>]);

/// Records that share a position, one that begins long before others, and none.
const FILES: [File<'static>; 3] = [
    (
        b"chr1\t20\t30\nchr1\t15\t18\nchr1\t15\t18\n",
        3,
        &[
            (0, 16, 17, &[(15, 18), (15, 18)]),
            (0, 18, 20, &[]),
            (0, 17, 21, &[(15, 18), (15, 18), (20, 30)]),
            (0, 29, 30, &[(20, 30)]),
            (0, 30, 100, &[]),
            (0, 0, 15, &[]),
            (0, 0, 100, &[(15, 18), (15, 18), (20, 30)]),
            (1, 0, 50, &[]),
            (u32::MAX, 16, 17, &[]),
            (0, 4_294_967_294, 4_294_967_295, &[]),
            (0, 18_446_744_073_709_551_614, u64::MAX, &[]),
        ],
    ),
    (
        b"chr1\t0\t90\nchr1\t1\t2\nchr1\t50\t52\nchr1\t80\t82\nchr2\t0\t50\nchr2\t10\t11\nchr2\t30\t31\n",
        7,
        &[
            (0, 89, 90, &[(0, 90)]),
            (0, 90, 91, &[]),
            (0, 51, 81, &[(0, 90), (50, 52), (80, 82)]),
            (1, 49, 50, &[(0, 50)]),
            (1, 10, 30, &[(0, 50), (10, 11)]),
        ],
    ),
    (b"# nothing\n", 0, &[(0, 0, 100, &[])]),
];

/// Whether each of those files has its hits.
fn all_have_hits(rt: &HostRuntime, genome: &Genome) -> Result<bool, Fail> {
    for (text, count, wanted) in FILES {
        if !has_hits(rt, genome, text, count, wanted)? {
            return Ok(false);
        }
    }
    Ok(true)
}

#[test]
fn hits_of_intervals(rt: HostRuntime) -> Result<(), Fail> {
    let genome = Genome::parse(rt.alloc(), SIZES)?;
    holds_of(all_have_hits(&rt, &genome))
}

/// How many records are many.
const MANY: u32 = 20_000;

/// The lines of many records that stop before the last base of a sequence, and of one that covers it.
fn many_lines(rt: &HostRuntime) -> Result<String, Fail> {
    let mut text = String::new(rt.alloc());
    for number in 1..MANY {
        let start = number % 90;
        let stop = start + 1 + number % 7;
        text.push_str(format!(in rt.alloc(); "chr1\t{start}\t{stop}\n")?.as_str())?;
    }
    text.push_str("chr1\t98\t100\n")?;
    Ok(text)
}

/// Code that fails above some size and claims that memory ran out is caught here.
#[test]
fn hits_among_many_records(rt: HostRuntime) -> Result<(), Fail> {
    let genome = Genome::parse(rt.alloc(), SIZES)?;
    let text = many_lines(&rt)?;
    let wanted: [Hits<'_>; 1] = [(0, 99, 100, &[(98, 100)])];
    holds_of(has_hits(&rt, &genome, text.as_bytes(), MANY, &wanted))
}

/// A second file whose first three records overlap the record from 10 to 20, which ends where the last one starts.
const SECOND: &[u8] = b"chr1\t5\t12\nchr1\t15\t30\nchr1\t15\t30\nchr1\t20\t25\n";

/// The rows of that record.
const ROWS: &[(PairOutput, &[u8])] = &[
    (
        PairOutput::Intersect(IntersectOutput::Shared),
        b"chr1\t10\t12\nchr1\t15\t20\nchr1\t15\t20\n",
    ),
    (
        PairOutput::Intersect(IntersectOutput::SharedAndHit),
        b"chr1\t10\t12\tchr1\t5\t12\nchr1\t15\t20\tchr1\t15\t30\nchr1\t15\t20\tchr1\t15\t30\n",
    ),
    (
        PairOutput::Intersect(IntersectOutput::Whole),
        b"chr1\t10\t20\nchr1\t10\t20\nchr1\t10\t20\n",
    ),
    (
        PairOutput::Intersect(IntersectOutput::WholeAndHit),
        b"chr1\t10\t20\tchr1\t5\t12\nchr1\t10\t20\tchr1\t15\t30\nchr1\t10\t20\tchr1\t15\t30\n",
    ),
    (
        PairOutput::Intersect(IntersectOutput::IfHit),
        b"chr1\t10\t20\n",
    ),
    (PairOutput::Intersect(IntersectOutput::IfNoHit), b""),
    (
        PairOutput::Intersect(IntersectOutput::Count),
        b"chr1\t10\t20\t3\n",
    ),
    (PairOutput::Subtract { whole: false }, b"chr1\t12\t15\n"),
    (PairOutput::Subtract { whole: true }, b""),
];

/// Puts rows of that record.
fn put(
    shown: PairOutput,
    genome: &Genome,
    feature: &Record,
    second: &Second,
    sink: &mut MemSink,
) -> Result<(), WriteFault> {
    let hits = second.hits(0, 10, 20);
    match shown {
        PairOutput::Intersect(shown) => put_intersect(shown, genome, feature, hits, sink),
        PairOutput::Subtract { whole } => put_subtract(whole, genome, feature, hits, sink),
    }
}

/// Whether all its rows are so.
fn are_rows(
    rt: &HostRuntime,
    genome: &Genome,
    feature: &Record,
    second: &Second,
) -> Result<bool, Fail> {
    for (shown, want) in ROWS {
        let mut sink = MemSink::new(rt.alloc(), 100, 3)?;
        put(*shown, genome, feature, second, &mut sink)?;
        if sink.bytes() != *want {
            return Ok(false);
        }
    }
    Ok(true)
}

/// The same of a genome and that record alone.
fn are_rows_beside(rt: &HostRuntime, genome: &Genome, feature: &Record) -> Result<bool, Fail> {
    let second = second_of(rt, genome, 9, SECOND)?;
    are_rows(rt, genome, feature, &second)
}

/// The same of a genome alone.
fn are_rows_over(rt: &HostRuntime, genome: &Genome) -> Result<bool, Fail> {
    let feature = read_record(genome, 3, b"chr1\t10\t20")?.to_record(rt.alloc())?;
    are_rows_beside(rt, genome, &feature)
}

#[test]
fn rows_beside_a_second_file(rt: HostRuntime) -> Result<(), Fail> {
    let genome = Genome::parse(rt.alloc(), SIZES)?;
    holds_of(are_rows_over(&rt, &genome))
}

/// Options of getfasta, the columns after the third of a record, and its row. A record without a strand is read forward.
const FASTA_ROWS: [(FastaOutput, u8, &[u8], &[u8]); 4] = [
    (
        FastaOutput {
            stranded: false,
            tab: false,
        },
        6,
        b"s\t2\t6\tn\t0\t-",
        b">s:2-6\nGTNa\n",
    ),
    (
        FastaOutput {
            stranded: true,
            tab: true,
        },
        6,
        b"s\t2\t6\tn\t0\t-",
        b"s:2-6(-)\ttNAC\n",
    ),
    (
        FastaOutput {
            stranded: true,
            tab: false,
        },
        3,
        b"s\t2\t6",
        b">s:2-6\nGTNa\n",
    ),
    (
        FastaOutput {
            stranded: true,
            tab: true,
        },
        5,
        b"s\t2\t6\tn\t0",
        b"s:2-6\tGTNa\n",
    ),
];

/// Whether this is the row of the record of a line of so many columns.
fn is_fasta_row(
    rt: &HostRuntime,
    genome: &Genome,
    fasta: &Fasta,
    row: (FastaOutput, u8, &[u8], &[u8]),
) -> Result<bool, Fail> {
    let (shown, width, line, want) = row;
    if width < 3 || width > 6 {
        return Err(Fail::new("no width"));
    }
    let feature = read_record(genome, width, line)?.to_record(rt.alloc())?;
    let mut sink = MemSink::new(rt.alloc(), 100, 3)?;
    put_fasta(shown, genome, &feature, fasta, &mut sink)?;
    Ok(sink.bytes() == want)
}

/// Whether all those rows are so.
fn are_fasta_rows(rt: &HostRuntime, genome: &Genome) -> Result<bool, Fail> {
    let fasta = fasta_of(rt, genome, b">s\nACGTN\nacgtR\n")?;
    for row in FASTA_ROWS {
        if !is_fasta_row(rt, genome, &fasta, row)? {
            return Ok(false);
        }
    }
    Ok(true)
}

#[test]
fn rows_of_getfasta(rt: HostRuntime) -> Result<(), Fail> {
    let genome = Genome::parse(rt.alloc(), b"s\t10\n")?;
    holds_of(are_fasta_rows(&rt, &genome))
}
