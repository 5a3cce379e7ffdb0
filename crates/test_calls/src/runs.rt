//! The calls of a run over the bytes of its files: what a session begins with, and each subcommand over many records.
ghost use Rattle.std.specs.Prelude.{◌≤◌};

use crate::fixtures::joined;
use crate::patterns::{Case, GENOME, ROWS, Texts, cases, long_files};
use crate::plans::plan_of;
use iv_args::{Plan, Slot};
use iv_bytes::MemSink;
use iv_cli::load;
use iv_lines::{Fault, LoadCause, LoadFault, RecordFault};
use iv_run::{CliFault, Inputs, columns_for, shot};
use iv_text::HeldColumns;
use iv_workspace::Session;
use std::test::Fail;
use test_faults::copied;

/// The fault of a run of a plan, if it has one.
fn fault_of(
    rt: &HostRuntime,
    plan: &Plan<'_>,
    inputs: &Inputs<'_>,
    bases: Option<&[u8]>,
    sink: &mut MemSink,
) -> Result<Option<CliFault>, Fail> {
    let bases = copied(rt.alloc(), bases)?;
    Ok(shot(rt.alloc(), plan, inputs, bases, ROWS, sink).err())
}

/// Whether a run of these arguments ends so, and has printed just this into room for no byte more.
fn ends(
    rt: &HostRuntime,
    words: &[u8],
    inputs: &Inputs<'_>,
    bases: Option<&[u8]>,
    want: (Option<CliFault>, &[u8]),
) -> Result<bool, Fail> {
    let plan = plan_of(rt, words)?;
    let mut sink = MemSink::new(rt.alloc(), want.1.len(), 999)?;
    let fault = fault_of(rt, &plan, inputs, bases, &mut sink)?;
    Ok(fault == want.0 && sink.bytes() == want.1)
}

/// The BED files of the cases.
fn inputs_of(texts: &Texts) -> Inputs<'_> {
    Inputs {
        sizes: GENOME,
        first: texts.first.as_bytes(),
        other: Some(texts.second.as_bytes()),
    }
}

/// Whether a run prints all that its view prints.
fn prints_all(rt: &HostRuntime, texts: &Texts, case: &Case<'_>) -> Result<bool, Fail> {
    let words = joined(rt, &[case.view, case.files])?;
    let (inputs, want) = (inputs_of(texts), case.all(rt)?);
    let bases = Some(texts.bases.as_bytes());
    ends(
        rt,
        words.as_slice(),
        &inputs,
        bases,
        (None, want.as_bytes()),
    )
}

/// For how many cases it doesn't.
fn wrong_cases(rt: &HostRuntime, texts: &Texts) -> Result<u32, Fail> {
    let mut wrong = 0u32;
    for case in cases() {
        wrong = wrong.saturating_add(u32::from(!prints_all(rt, texts, &case)?));
    }
    Ok(wrong)
}

#[test]
fn subcommands_over_many_records(rt: HostRuntime) -> Result<(), Fail> {
    let texts = long_files(&rt)?;
    assert!(rt; wrong_cases(&rt, &texts)? == 0);
    let block = (None, b"big\t0\t199995\t20000\t0\tn\n".as_slice());
    let words = b"merge -d 5 -c 4,5,4 -o count,sum,distinct -g g -i a";
    assert!(rt; ends(&rt, words, &inputs_of(&texts), None, block)?);
    Ok(())
}

/// Whether a run of these arguments holds nothing of its records except their intervals.
fn is_of_intervals(rt: &HostRuntime, words: &[u8]) -> Result<bool, Fail> {
    let plan = plan_of(rt, words)?;
    Ok(columns_for(&plan) == HeldColumns::Interval)
}

/// Whether each of these is one, or none.
fn are_of_intervals(rt: &HostRuntime, runs: &[&[u8]], want: bool) -> Result<bool, Fail> {
    for words in runs {
        if is_of_intervals(rt, words)? != want {
            return Ok(false);
        }
    }
    Ok(true)
}

/// Runs that print no column of a record after the third, and don't separate records by one.
const OF_INTERVALS: [&[u8]; 8] = [
    b"merge -g g -i a",
    b"merge -g g -d 0 -i a",
    b"merge -width 6 -d 1000000000 -g g -i a",
    b"complement -g g -i a",
    b"complement -g g -i a -L",
    b"genomecov -bg -g g -i a",
    b"genomecov -bga -g g -i a",
    b"genomecov -g g -i a -d",
];

/// Other runs.
const OF_RECORDS: [&[u8]; 12] = [
    b"merge -s -g g -i a",
    b"merge -s -d 3 -g g -i a",
    b"merge -c 1 -o count -g g -i a",
    b"merge -d 3 -c 4 -o collapse -g g -i a",
    b"merge -c 2 -g g -i a",
    b"cluster -g g -i a",
    b"intersect -u -g g -a a -b b",
    b"subtract -g g -a a -b b",
    b"getfasta -g g -bed a -fi f",
    b"records -g g -i a",
    b"session -g g -i a",
    b"session -g g -i a -b b -fi f",
];

#[test]
fn runs_that_hold_intervals_alone(rt: HostRuntime) -> Result<(), Fail> {
    assert!(rt;
        are_of_intervals(&rt, &OF_INTERVALS, true)? && are_of_intervals(&rt, &OF_RECORDS, false)?
    );
    Ok(())
}

/// Damage of this file at this line.
fn damage(slot: Slot, line: u64, cause: LoadCause) -> CliFault {
    CliFault::Damaged(slot, LoadFault { line, cause })
}

/// A run that has the bytes of files which its view doesn't look at reports their faults all the same, in the order of the files.
#[test]
fn files_that_no_row_needs(rt: HostRuntime) -> Result<(), Fail> {
    let sound = b"chr1\t1\t2\n".as_slice();
    let past_end = b"chr1\t1\t200\n".as_slice();
    let no_bases = b">chr9\nAC GT\n".as_slice();
    let bases = b">chr9\nACGT\n".as_slice();
    let end = LoadCause::Record(RecordFault::PastEnd);
    for (first, second, fasta, fault, rows) in [
        (sound, sound, bases, None, sound),
        (
            past_end,
            past_end,
            no_bases,
            Some(damage(Slot::First, 1, end)),
            b"",
        ),
        (
            sound,
            past_end,
            no_bases,
            Some(damage(Slot::Other, 1, end)),
            b"",
        ),
        (
            sound,
            sound,
            no_bases,
            Some(damage(Slot::Bases, 2, LoadCause::Base)),
            b"",
        ),
    ] {
        let inputs = Inputs {
            sizes: b"chr1\t100\n",
            first,
            other: Some(second),
        };
        assert!(rt; ends(&rt, b"merge -g g -i a", &inputs, Some(fasta), (fault, rows))?);
    }
    Ok(())
}

/// What the files of a session load: their fault, or how many records the first one has, and the widths of both.
type Loaded = Result<(u32, u8, Option<u8>), CliFault>;

/// What arguments, separated by spaces, and files load. At most so many records are let in of each.
fn loaded(
    rt: &HostRuntime,
    words: &[u8],
    inputs: &Inputs<'_>,
    bases: Option<&[u8]>,
    limit: u32,
) -> Result<Loaded, Fail>
    requires { limit ≤ 4000000 }
{
    let plan = plan_of(rt, words)?;
    let bases = copied(rt.alloc(), bases)?;
    Ok(match load(rt.alloc(), &plan, inputs, bases, limit) {
        Ok(session) => Ok((
            session.len(),
            session.track().width(),
            session.second_width(),
        )),
        Err(fault) => Err(fault),
    })
}

/// Arguments of a session of all files, with the width of a file without a record.
const WORDS: &[u8] = b"session -g g -i a -b b -fi f -width 3";

/// Arguments, the first and the second file, how many records the first one has, and the width of each.
const SOUND: [(&[u8], &[u8], Option<&[u8]>, (u32, u8, Option<u8>)); 7] = [
    (WORDS, b"", None, (0, 3, None)),
    (WORDS, b"chr1\t1\t2\ta\n", None, (1, 4, None)),
    (WORDS, b"chr1\t1\t2\nchr1\t1\t2\n", None, (2, 3, None)),
    // Each file has its own width.
    (
        b"session -g g -i a -b b -fi f -width 4",
        b"chr1\t1\t2\n",
        Some(b"chr1\t1\t2\ta\t0\t+\n"),
        (1, 3, Some(6)),
    ),
    (
        WORDS,
        b"chr1\t1\t2\ta\n",
        Some(b"chr1\t1\t2\r\nchr1\t1\t2\r\n"),
        (1, 4, Some(3)),
    ),
    // A file without a record.
    (
        b"session -g g -i a -b b -fi f -width 6",
        b"chr1\t1\t2\ta\n",
        Some(b""),
        (1, 4, Some(6)),
    ),
    (
        b"session -g g -i a -b b -fi f -width 6",
        b"",
        Some(b"# none\n\n"),
        (0, 6, Some(6)),
    ),
];

#[test]
fn files_of_sessions(rt: HostRuntime) -> Result<(), Fail> {
    for (words, first, other, want) in SOUND {
        let inputs = Inputs {
            sizes: b"chr1\t9\n",
            first,
            other,
        };
        assert!(rt; loaded(&rt, words, &inputs, None, 2)? == Ok(want));
    }
    Ok(())
}

#[test]
fn session_of_many_records(rt: HostRuntime) -> Result<(), Fail> {
    let texts = long_files(&rt)?;
    let bases = Some(texts.bases.as_bytes());
    let found = loaded(&rt, WORDS, &inputs_of(&texts), bases, ROWS)?;
    assert!(rt; found == Ok((ROWS, 6, Some(3))));
    Ok(())
}

/// Genome, first and second file, and the damage that is reported, even if what comes after it is damaged too.
const DAMAGED: [(&[u8], &[u8], &[u8], Slot, u64, LoadCause); 7] = [
    (b"chr1", b"x", b"x", Slot::Sizes, 1, LoadCause::Columns),
    (
        b"chr1\t9\n",
        b"#\nchr1\t1\t10\n",
        b"x",
        Slot::First,
        2,
        LoadCause::Record(RecordFault::PastEnd),
    ),
    (
        b"chr1\t9\n",
        b"chr1\t1\t2\nchr1\t1\t2\nchr1\t1\t2\n",
        b"x",
        Slot::First,
        3,
        LoadCause::TooMany,
    ),
    (
        b"chr1\t9\n",
        b"",
        b"chr1",
        Slot::Other,
        1,
        LoadCause::Columns,
    ),
    (
        b"chr1\t9\n",
        b"",
        b"#\r\nchr1\t1\t10\r\n",
        Slot::Other,
        2,
        LoadCause::Record(RecordFault::PastEnd),
    ),
    (
        b"chr1\t9\n",
        b"",
        b"chr1\t1\t2\nchr1\t1\t2\ta\n",
        Slot::Other,
        2,
        LoadCause::Record(RecordFault::Columns),
    ),
    (
        b"chr1\t9\n",
        b"",
        b"chr1\t1\t2\nchr1\t1\t2\nchr1\t1\t2\n",
        Slot::Other,
        3,
        LoadCause::TooMany,
    ),
];

#[test]
fn damaged_files_of_sessions(rt: HostRuntime) -> Result<(), Fail> {
    for (sizes, first, other, slot, line, cause) in DAMAGED {
        let inputs = Inputs {
            sizes,
            first,
            other: Some(other),
        };
        let fault = Err(damage(slot, line, cause));
        assert!(rt; loaded(&rt, WORDS, &inputs, Some(b"x"), 2)? == fault);
    }
    Ok(())
}

/// Whether a view of bases is opened, and prints this.
fn opens_and_prints(rt: &HostRuntime, session: &mut Session, want: &[u8]) -> Result<bool, Fail> {
    let mut sink = MemSink::new(rt.alloc(), 100, 9)?;
    session.open_view(b"f", &[b"getfasta", b"-s"])?;
    session.print_view(b"f", &mut sink)?;
    Ok(sink.bytes() == want)
}

/// The same in the session of files.
fn prints_bases(
    rt: &HostRuntime,
    plan: &Plan<'_>,
    inputs: &Inputs<'_>,
    bases: &[u8],
    want: &[u8],
) -> Result<bool, Fail> {
    let bases = copied(rt.alloc(), Some(bases))?;
    let mut session = load(rt.alloc(), plan, inputs, bases, 2)?;
    opens_and_prints(rt, &mut session, want)
}

/// A FASTA file that has a sequence which is in no other file, and lacks one.
#[test]
fn fasta_file_of_a_session(rt: HostRuntime) -> Result<(), Fail> {
    let inputs = Inputs {
        sizes: b"s\t4\nu\t2\n",
        first: b"s\t0\t3\tn\t0\t-\nu\t0\t2\tn\t0\t-\n",
        other: None,
    };
    let plan = plan_of(&rt, b"session -g g -fi f -i a")?;
    let bases = b">x only here\nGG\n>s\nACG\nT";
    assert!(rt; prints_bases(&rt, &plan, &inputs, bases, b">s:0-3(-)\nCGT\n")?);
    Ok(())
}

/// A column that the records lack, which a file without a record says by its width.
#[test]
fn columns_that_the_records_lack(rt: HostRuntime) -> Result<(), Fail> {
    for (words, first, fault) in [
        (
            b"merge -g g -i a -c 6".as_slice(),
            b"chr1\t10\t20\ta\t5\n".as_slice(),
            Fault::Column,
        ),
        (b"merge -g g -i a -s", b"", Fault::NoStrand),
        (b"merge -g g -i a -c 5 -width 4", b"", Fault::Column),
        (
            b"getfasta -g g -bed a -fi f -s",
            b"chr1\t2\t6\n",
            Fault::NoStrand,
        ),
    ] {
        let inputs = Inputs {
            sizes: b"chr1\t100\n",
            first,
            other: None,
        };
        let fault = Some(CliFault::Words(fault));
        assert!(rt; ends(&rt, words, &inputs, Some(b">chr9\nACGT\n"), (fault, b""))?);
    }
    Ok(())
}
