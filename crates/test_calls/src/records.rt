//! Records of lines and of files: their columns, their order, and what genome they fit.
use crate::fixtures::{SIZES, holds_of};
use iv_lines::{Genome, LoadCause, LoadFault, Record, RecordFault, RecordRef, Strand, read_record};
use iv_text::BedFile;
use std::cmp::Ordering;
use std::mem::size_of;
use std::test::Fail;

/// The genome of three sequences.
fn genome(rt: &HostRuntime) -> Result<Genome, LoadFault> {
    Genome::parse(rt.alloc(), SIZES)
}

/// Width, rank, start and stop, name and score, strand.
type Cells<'a> = (u8, (u32, u64, u64), (&'a [u8], &'a [u8]), Option<Strand>);

/// Whether a borrowed record has these columns.
fn is_row(feature: &RecordRef<'_>, cells: Cells<'_>) -> bool {
    let (width, place, texts, strand) = cells;
    feature.width() == width
        && (feature.seq(), feature.start(), feature.stop()) == place
        && (feature.name(), feature.score()) == texts
        && feature.strand() == strand
}

/// Whether an owned record has these columns.
fn is_record(record: &Record, cells: Cells<'_>) -> bool {
    let (width, place, texts, strand) = cells;
    record.width() == width
        && (record.seq(), record.start(), record.stop()) == place
        && (record.name(), record.score()) == texts
        && record.strand() == strand
}

/// Whether the record of a line has these columns, borrowed and owned.
fn has_cells(
    rt: &HostRuntime,
    genome: &Genome,
    line: &[u8],
    cells: Cells<'_>,
) -> Result<bool, Fail> {
    let (width, _, _, _) = cells;
    if width < 3 || width > 6 {
        return Err(Fail::new("no width"));
    }
    let feature = read_record(genome, width, line)?;
    let record = feature.to_record(rt.alloc())?;
    Ok(is_row(&feature, cells) && is_record(&record, cells))
}

/// Lines, and the columns of their records.
const LINES: [(&[u8], Cells<'static>); 4] = [
    (
        b"chr2\t0010\t20\tn\t0.5\t-",
        (6, (1, 10, 20), (b"n", b"0.5"), Some(Strand::Minus)),
    ),
    (b"chr1\t10\t20\tn\t0", (5, (0, 10, 20), (b"n", b"0"), None)),
    (b"chr1\t10\t20\tn", (4, (0, 10, 20), (b"n", b""), None)),
    (b"chr1\t10\t20", (3, (0, 10, 20), (b"", b""), None)),
];

/// Whether the records of those lines have their columns. A name can't have an LF.
fn have_columns(rt: &HostRuntime, genome: &Genome) -> Result<bool, Fail> {
    for (line, cells) in LINES {
        if !has_cells(rt, genome, line, cells)? {
            return Ok(false);
        }
    }
    let line = b"chr1\t10\t20\ta\nb\t0\t+";
    Ok(read_record(genome, 6, line).err() == Some(RecordFault::Name))
}

#[test]
fn columns_of_records(rt: HostRuntime) -> Result<(), Fail> {
    let genome = genome(&rt)?;
    holds_of(have_columns(&rt, &genome))
}

/// Whether a record keeps a name of this number of letters, and a score of one.
fn keeps_name(rt: &HostRuntime, genome: &Genome, letters: usize) -> Result<bool, Fail> {
    let name = "n".repeat(rt.alloc(), letters)?;
    let line = format!(in rt.alloc(); "chr1\t10\t20\t{name}\t0\t+")?;
    let texts = (name.as_bytes(), b"0".as_slice());
    let cells = (6, (0, 10, 20), texts, Some(Strand::Plus));
    has_cells(rt, genome, line.as_bytes(), cells)
}

/// Whether that is so of short names and of long ones, and a record takes few bytes beside the rest of its line.
fn keeps_names(rt: &HostRuntime, genome: &Genome) -> Result<bool, Fail> {
    for letters in [1, 20, 300, 100_000] {
        if !keeps_name(rt, genome, letters)? {
            return Ok(false);
        }
    }
    Ok(size_of::<Record>() <= 48)
}

#[test]
fn texts_of_each_size(rt: HostRuntime) -> Result<(), Fail> {
    let genome = genome(&rt)?;
    holds_of(keeps_names(&rt, &genome))
}

/// How the records of two lines of six columns are ordered, and whether they are copies of one record.
fn compared(
    rt: &HostRuntime,
    genome: &Genome,
    line: &[u8],
    other: &[u8],
) -> Result<(Ordering, bool), Fail> {
    let line = read_record(genome, 6, line)?.to_record(rt.alloc())?;
    let other = read_record(genome, 6, other)?.to_record(rt.alloc())?;
    Ok((line.cmp(&other), line == other))
}

/// Lines of records, each of which comes after the one before.
const IN_ORDER: [&[u8]; 8] = [
    b"chr1\t1\t2\ta\t0\t+",
    b"chr1\t1\t2\ta\t0\t-",
    b"chr1\t1\t2\ta\t0\t.",
    b"chr1\t1\t2\ta\t00\t+",
    b"chr1\t1\t2\tab\t0\t+",
    b"chr1\t1\t10\ta\t0\t+",
    b"chr1\t10\t20\ta\t0\t+",
    b"chr2\t0\t1\ta\t0\t+",
];

/// Whether they do, and the last one has a copy.
fn are_in_order(rt: &HostRuntime, genome: &Genome) -> Result<bool, Fail> {
    let mut before = None;
    for line in IN_ORDER {
        if let Some(before) = before {
            if compared(rt, genome, before, line)? != (Ordering::Less, false) {
                return Ok(false);
            }
        }
        before = Some(line);
    }
    let (last, again) = (b"chr2\t0\t1\ta\t0\t+", b"chr2\t00\t01\ta\t0\t+");
    Ok(compared(rt, genome, last, again)? == (Ordering::Equal, true))
}

#[test]
fn order_of_records(rt: HostRuntime) -> Result<(), Fail> {
    let genome = genome(&rt)?;
    holds_of(are_in_order(&rt, &genome))
}

/// Whether the record of a line of four columns fits a genome, borrowed and owned.
fn fits(rt: &HostRuntime, from: &Genome, on: &Genome, width: u8) -> Result<(bool, bool), Fail> {
    let feature = read_record(from, 4, b"chr1\t10\t20\tn")?;
    let record = feature.to_record(rt.alloc())?;
    Ok((feature.fits(on, width), record.fits(on, width)))
}

/// Whether a record of four columns fits its genome at its own width alone, and not a smaller one.
fn do_fit(rt: &HostRuntime, genome: &Genome) -> Result<bool, Fail> {
    let small = Genome::parse(rt.alloc(), b"chr1\t19\n")?;
    let (own, other) = ((true, true), (false, false));
    Ok(
        fits(rt, genome, genome, 4)? == own
            && fits(rt, genome, genome, 3)? == other
            && fits(rt, genome, &small, 4)? == other,
    )
}

#[test]
fn records_that_fit(rt: HostRuntime) -> Result<(), Fail> {
    let genome = genome(&rt)?;
    holds_of(do_fit(&rt, &genome))
}

/// What a BED file has: its width, how many records it has and where the last one is, or the fault.
fn file_of(
    rt: &HostRuntime,
    genome: &Genome,
    text: &[u8],
) -> Result<(u8, usize, u32, u64), LoadFault> {
    let file = BedFile::parse(rt.alloc(), genome, 5, 2, text)?;
    let width = file.width();
    let lent = file.records().len();
    let records = file.into_records();
    match records.as_slice().last() {
        Some(record) if lent == records.len() => Ok((width, lent, record.seq(), record.start())),
        _ => Ok((width, lent, 0, 0)),
    }
}

/// BED files, and what each has.
const FILES: [(&[u8], Result<(u8, usize, u32, u64), LoadFault>); 5] = [
    (b"chr1\t1\t2\nchr2\t3\t50\n", Ok((3, 2, 1, 3))),
    (b"#c\nchr2\t5\t9\ta\nchr1\t30\t40\tb\n", Ok((4, 2, 0, 30))),
    (b"chr1\t1\t2\r\nchr1\t7\t8", Ok((3, 2, 0, 7))),
    (b"browser position\n\n", Ok((5, 0, 0, 0))),
    (
        b"track name=x\n#c\n\nchr1\t1\t2\nchr1\t1\t2\ta\n",
        Err(LoadFault {
            line: 5,
            cause: LoadCause::Record(RecordFault::Columns),
        }),
    ),
];

/// Whether they are read so.
fn are_files(rt: &HostRuntime, genome: &Genome) -> bool {
    for (text, want) in FILES {
        if file_of(rt, genome, text) != want {
            return false;
        }
    }
    true
}

#[test]
fn records_of_files(rt: HostRuntime) -> Result<(), Fail> {
    let genome = genome(&rt)?;
    assert!(rt; are_files(&rt, &genome));
    Ok(())
}
