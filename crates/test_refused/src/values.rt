//! Values that take memory, each allocation refused in turn: what is made shows its whole text, or nothing is made.
use crate::run_files::lines;
use crate::session_files::Refusing;
use iv_args::Plan;
use iv_bytes::{MemSink, MemSource, put_all};
use iv_cover::{Op, summary};
use iv_fasta::Fasta;
use iv_lines::{Fault, Genome, LoadCause, LoadFault, load_text, put_line, read_record};
use iv_run::{FileFault, read_all};
use iv_text::BedFile;
use std::alloc::Allocator;
use std::test::Fail;
use test_faults::{RefusesNth, refused, words_of};

/// A call that makes a value of a text.
#[derive(Clone, Copy)]
enum Call {
    /// `Genome::parse`
    Genome,
    /// `BedFile::parse`, with `PlacedRecords::to_records`, and a genome
    Bed,
    /// `Fasta::parse`, with a genome
    Fasta,
    /// `RecordRef::to_record`, of a line of five columns
    Record,
    /// `MemSink::new`, with as much room as the text takes
    Sink,
    /// `Plan::read`, of arguments that are separated by spaces
    Plan,
    /// `read_all`, in pieces of so many bytes
    Bytes(usize),
    /// `summary`, of values that are separated by spaces
    Summary(Op),
}

/// A genome of one sequence that records and bases are on.
const GENOME: &[u8] = b"big\t1000\ns\t10\n";

/// Whether a file was refused because an allocation failed; else its fault is shown.
fn show_fault(rt: &HostRuntime, fault: LoadFault, shown: &mut MemSink) -> Result<bool, Fail> {
    if fault == LoadFault::at(0, LoadCause::Memory) {
        return Ok(true);
    }
    let line = format!(in rt.alloc(); "line {}: ", fault.line)?;
    put_all(shown, line.as_bytes())?;
    put_all(shown, load_text(&fault.cause))?;
    Ok(false)
}

/// Shows the lines of a genome, whose names are found at their ranks.
fn show_genome<A: Allocator + Copy>(
    rt: &HostRuntime,
    genome: &Genome<A>,
    shown: &mut MemSink,
) -> Result<bool, Fail> {
    for seq in 0..genome.count() {
        let name = genome.name_or_empty(seq);
        if genome.rank(name) != Some(seq) {
            return Err(Fail::new("a name that isn't found"));
        }
        let length = format!(in rt.alloc(); "\t{}\n", genome.length_or_zero(seq))?;
        put_all(shown, name)?;
        put_all(shown, length.as_bytes())?;
    }
    Ok(false)
}

/// Reads a genome.
fn make_genome(
    rt: &HostRuntime,
    alloc: Refusing<'_>,
    text: &[u8],
    shown: &mut MemSink,
) -> Result<bool, Fail> {
    match Genome::parse(alloc, text) {
        Ok(genome) => show_genome(rt, &genome, shown),
        Err(fault) => show_fault(rt, fault, shown),
    }
}

/// Shows the lines of a BED file.
fn show_bed<A: Allocator + Copy>(
    genome: &Genome<A>,
    file: &BedFile<A>,
    shown: &mut MemSink,
) -> Result<bool, Fail> {
    for record in file.records() {
        put_line(shown, genome, &record.as_ref())?;
    }
    Ok(false)
}

/// Reads a BED file.
fn make_bed<'a>(
    rt: &HostRuntime,
    genome: &Genome<Refusing<'a>>,
    alloc: Refusing<'a>,
    text: &[u8],
    shown: &mut MemSink,
) -> Result<bool, Fail> {
    match BedFile::parse(alloc, genome, 5, 1_000, text) {
        Ok(file) => show_bed(genome, &file, shown),
        Err(fault) => show_fault(rt, fault, shown),
    }
}

/// Shows the bases of a FASTA file.
fn show_bases<A: Allocator + Copy>(fasta: &Fasta<A>, shown: &mut MemSink) -> Result<bool, Fail> {
    for seq in 0..3u32 {
        if let Some(bases) = fasta.bases(seq, 0, u64::MAX) {
            put_all(shown, bases)?;
        }
    }
    Ok(false)
}

/// Reads a FASTA file.
fn make_bases<'a>(
    rt: &HostRuntime,
    genome: &Genome<Refusing<'a>>,
    alloc: Refusing<'a>,
    text: &[u8],
    shown: &mut MemSink,
) -> Result<bool, Fail> {
    let Ok(text) = text.to_vec(alloc) else {
        return Ok(true);
    };
    match Fasta::parse(alloc, genome, text) {
        Ok(fasta) => show_bases(&fasta, shown),
        Err(fault) => show_fault(rt, fault, shown),
    }
}

/// Makes a value over a genome.
fn make_over(
    rt: &HostRuntime,
    alloc: Refusing<'_>,
    call: Call,
    text: &[u8],
    shown: &mut MemSink,
) -> Result<bool, Fail> {
    let Ok(genome) = Genome::parse(alloc, GENOME) else {
        return Ok(true);
    };
    match call {
        Call::Bed => make_bed(rt, &genome, alloc, text, shown),
        _ => make_bases(rt, &genome, alloc, text, shown),
    }
}

/// Copies a record.
fn make_record(
    rt: &HostRuntime,
    alloc: Refusing<'_>,
    line: &[u8],
    shown: &mut MemSink,
) -> Result<bool, Fail> {
    let genome = Genome::parse(rt.alloc(), GENOME)?;
    let width = line.iter().filter(|byte| **byte == b'\t').count();
    let feature = read_record(&genome, if width < 4 { 3 } else { 5 }, line)?;
    match feature.to_record(alloc) {
        Ok(record) => put_line(shown, &genome, &record.as_ref())?,
        Err(_) => return Ok(true),
    }
    Ok(false)
}

/// Makes a sink, and fills it.
fn make_sink(alloc: Refusing<'_>, text: &[u8], shown: &mut MemSink) -> Result<bool, Fail> {
    let Ok(mut sink) = MemSink::new(alloc, text.len(), 7) else {
        return Ok(true);
    };
    put_all(&mut sink, text)?;
    if put_all(&mut sink, b"x").is_ok() {
        return Err(Fail::new("more room"));
    }
    put_all(shown, sink.bytes())?;
    Ok(false)
}

/// Shows what a plan was read as.
fn show_plan<A: Allocator + Copy>(plan: &Plan<'_, A>, shown: &mut MemSink) -> Result<bool, Fail> {
    for argument in plan.view_arguments() {
        put_all(shown, argument)?;
        put_all(shown, b" ")?;
    }
    put_all(shown, plan.sizes_file())?;
    put_all(shown, plan.first_file())?;
    put_all(shown, &[plan.width()])?;
    Ok(false)
}

/// Reads arguments.
fn make_plan(
    rt: &HostRuntime,
    alloc: Refusing<'_>,
    text: &[u8],
    shown: &mut MemSink,
) -> Result<bool, Fail> {
    let words = words_of(rt.alloc(), text)?;
    match Plan::read(alloc, words.as_slice()) {
        Ok(plan) => show_plan(&plan, shown),
        Err(Fault::NoMemory) => Ok(true),
        Err(_) => Err(Fail::new("another fault of arguments")),
    }
}

/// Reads the bytes of a source.
fn make_bytes(
    alloc: Refusing<'_>,
    text: &[u8],
    piece: usize,
    shown: &mut MemSink,
) -> Result<bool, Fail> {
    let mut source = MemSource::new(text, usize::MAX, piece.max(1));
    match read_all(alloc, &mut source, text.len() as u64) {
        Ok(bytes) => put_all(shown, bytes.as_slice())?,
        Err(FileFault::Memory) => return Ok(true),
        Err(_) => return Err(Fail::new("another fault of a source")),
    }
    Ok(false)
}

/// Makes a summary.
fn make_summary(
    rt: &HostRuntime,
    alloc: Refusing<'_>,
    op: Op,
    text: &[u8],
    shown: &mut MemSink,
) -> Result<bool, Fail> {
    let values = words_of(rt.alloc(), text)?;
    match summary(alloc, op, values.as_slice()) {
        Ok(result) => put_all(shown, result.as_slice())?,
        Err(_) => return Ok(true),
    }
    Ok(false)
}

/// Makes a value, and shows it. Whether that was refused because an allocation failed.
fn make(
    rt: &HostRuntime,
    alloc: Refusing<'_>,
    call: Call,
    text: &[u8],
    shown: &mut MemSink,
) -> Result<bool, Fail> {
    match call {
        Call::Genome => make_genome(rt, alloc, text, shown),
        Call::Bed | Call::Fasta => make_over(rt, alloc, call, text, shown),
        Call::Record => make_record(rt, alloc, text, shown),
        Call::Sink => make_sink(alloc, text, shown),
        Call::Plan => make_plan(rt, alloc, text, shown),
        Call::Bytes(piece) => make_bytes(alloc, text, piece, shown),
        Call::Summary(op) => make_summary(rt, alloc, op, text, shown),
    }
}

/// Fails unless this is shown, and nothing if the call was refused.
fn check(shown: &MemSink, is_refused: bool, wanted: &[u8]) -> Result<(), Fail> {
    let wanted = if is_refused { b"" } else { wanted };
    if shown.bytes() == wanted {
        Ok(())
    } else {
        Err(Fail::new("another value"))
    }
}

/// Room for what is shown.
fn room(rt: &HostRuntime) -> Result<MemSink, Fail> {
    Ok(MemSink::new(rt.alloc(), 300_000, 300_000)?)
}

/// How many allocations a call has, which shows this of a text.
fn allocations_by(
    rt: &HostRuntime,
    alloc: Refusing<'_>,
    call: Call,
    text: &[u8],
    wanted: &[u8],
) -> Result<u64, Fail> {
    refused(
        alloc,
        || room(rt),
        |shown| make(rt, alloc, call, text, shown),
        |shown, is_refused| check(shown, is_refused, wanted),
    )
}

/// The same with an allocator of its own.
fn allocations(rt: &HostRuntime, call: Call, text: &[u8], wanted: &[u8]) -> Result<u64, Fail> {
    let alloc = RefusesNth::new(rt.alloc(), u64::MAX);
    allocations_by(rt, &alloc, call, text, wanted)
}

/// Fails unless a call that shows this of a file has more allocations than so many, also if this line is at the end and shows a fault.
fn check_file(
    rt: &HostRuntime,
    call: Call,
    (text, wanted): (&[u8], &[u8]),
    (line, fault): (&[u8], &[u8]),
    count: u64,
) -> Result<(), Fail> {
    let damaged = [text, line].concat(rt.alloc())?;
    let sound = allocations(rt, call, text, wanted)?;
    if count < sound.min(allocations(rt, call, damaged.as_slice(), fault)?) {
        Ok(())
    } else {
        Err(Fail::new("fewer allocations"))
    }
}

/// How many lines a file has, so many that what is held of it grows.
const COUNT: u32 = 40;

/// An allocation for each name at least, and others for their table.
#[test]
fn genomes(rt: HostRuntime) -> Result<(), Fail> {
    let text = lines(&rt, "name_", COUNT, "\t1000\n")?;
    let file = (text.as_bytes(), text.as_bytes());
    let damage = (
        b"name_0\t7\n".as_slice(),
        b"line 41: repeated name".as_slice(),
    );
    check_file(&rt, Call::Genome, file, damage, 40)
}

/// Records of three columns, and of six, for which room for the rests of lines grows too.
#[test]
fn bed_files(rt: HostRuntime) -> Result<(), Fail> {
    for (back, count) in [("\t1000\n", 3), ("\t1000\tread\t0.5\t-\n", 6)] {
        let text = lines(&rt, "big\t", COUNT, back)?;
        let file = (text.as_bytes(), text.as_bytes());
        let damage = (
            b"big\t1\t2\tn\n".as_slice(),
            b"line 41: wrong number of columns".as_slice(),
        );
        check_file(&rt, Call::Bed, file, damage, count)?;
    }
    Ok(())
}

/// Sequences that the genome lacks, and after them one whose bases are held.
#[test]
fn fasta_files(rt: HostRuntime) -> Result<(), Fail> {
    let text = lines(&rt, ">s\nACGTN\nacgtR\n>name_", 1, " of one\nACGT\n\nAC\n")?;
    let others = lines(&rt, ">other_", COUNT, " of many\nACGT\n\nAC\n")?;
    let all = [text.as_bytes(), others.as_bytes()].concat(rt.alloc())?;
    let file = (all.as_slice(), b"ACGTNacgtR".as_slice());
    let damage = (b">x\nA C\n".as_slice(), b"line 169: bad base".as_slice());
    check_file(&rt, Call::Fasta, file, damage, 40)
}

/// Lines of records, and how many allocations a copy has: one for the rest of the line, if there is one.
const RECORDS: [(&[u8], u64); 3] = [
    (b"big\t10\t20\n", 0),
    (b"big\t10\t20\tn\t5\n", 1),
    (
        b"big\t10\t20\tnnnnnnnnnnnnnnnnnnnnnnnnnnnnnnnnnnnnnnnnnnnnnnnnnnnnnnnnnnn\t5\n",
        1,
    ),
];

#[test]
fn records(rt: HostRuntime) -> Result<(), Fail> {
    for (line, count) in RECORDS {
        let cut = line.strip_suffix(b"\n").unwrap_or(line);
        assert!(rt; allocations(&rt, Call::Record, cut, line)? == count);
    }
    Ok(())
}

/// How many allocations a sink has, a file that is read in pieces, and one that is read at once.
fn of_bytes(rt: &HostRuntime, text: &[u8]) -> Result<[u64; 3], Fail> {
    Ok([
        allocations(rt, Call::Sink, text, text)?,
        allocations(rt, Call::Bytes(10_000), text, text)?,
        allocations(rt, Call::Bytes(200_000), text, text)?,
    ])
}

/// A sink takes all its room at once, and a file grows as it is read.
#[test]
fn bytes(rt: HostRuntime) -> Result<(), Fail> {
    let text = lines(&rt, "line ", 20_000, "\n")?;
    let [sink, pieces, whole] = of_bytes(&rt, text.as_bytes())?;
    assert!(rt; sink == 1 && 0 < whole && 0 < pieces);
    assert!(rt; 0 < allocations(&rt, Call::Bytes(1), b"few", b"few")?);
    assert!(rt; allocations(&rt, Call::Bytes(1), b"", b"")? == 0);
    Ok(())
}

#[test]
fn arguments(rt: HostRuntime) -> Result<(), Fail> {
    let words = b"merge -d 7 -g g -c 4,5 -i a -width 6 -s".as_slice();
    assert!(rt; 0 < allocations(&rt, Call::Plan, words, b"merge -d 7 -c 4,5 -s ga\x06")?);
    Ok(())
}

/// What each operation gives for four values.
const SUMMARIES: [(Op, &[u8]); 6] = [
    (Op::Count, b"4"),
    (Op::Sum, b"5"),
    (Op::Min, b"-7"),
    (Op::Max, b"7"),
    (Op::Collapse, b"5,.,-7,007"),
    (Op::Distinct, b"-7,.,007,5"),
];

#[test]
fn summaries(rt: HostRuntime) -> Result<(), Fail> {
    for (op, result) in SUMMARIES {
        assert!(rt; 0 < allocations(&rt, Call::Summary(op), b"5 . -7 007", result)?);
    }
    Ok(())
}
