//! Arguments of runs: the plans that they are read as.
use iv_args::{Notice, Plan, Slot, Subcommand};
use iv_lines::Fault;
use std::test::Fail;
use test_faults::words_of;

/// The plan of arguments that are separated by spaces.
pub(crate) fn plan_of<'a>(rt: &HostRuntime, text: &'a [u8]) -> Result<Plan<'a>, Fail> {
    let words = words_of(rt.alloc(), text)?;
    Ok(Plan::read(rt.alloc(), words.as_slice())?)
}

/// The name of a file of a plan.
fn name_of<'a>(plan: &Plan<'a>, slot: Slot) -> &'a [u8] {
    plan.file(slot).unwrap_or(b"none")
}

/// Whether these are the names of a plan's files.
fn are_names(plan: &Plan<'_>, names: &[&[u8]]) -> bool {
    let found = [
        name_of(plan, Slot::Sizes),
        name_of(plan, Slot::First),
        name_of(plan, Slot::Other),
        name_of(plan, Slot::Bases),
    ];
    found.as_slice() == names
}

/// Whether a plan has files of these names, separated by spaces: the genome file, the records, the second file, the FASTA file.
fn has_files(rt: &HostRuntime, plan: &Plan<'_>, names: &[u8]) -> Result<bool, Fail> {
    let names = words_of(rt.alloc(), names)?;
    Ok(are_names(plan, names.as_slice()))
}

/// Whether a plan is that of this run, and these are the arguments of its view.
fn is_run(plan: &Plan<'_>, run: Subcommand, view: &[&[u8]]) -> bool {
    (plan.run() == run) & !plan.is_script() & (plan.view_arguments() == view)
}

/// The same of arguments that are separated by spaces.
fn is_run_of(
    rt: &HostRuntime,
    plan: &Plan<'_>,
    run: Subcommand,
    view: &[u8],
) -> Result<bool, Fail> {
    let view = words_of(rt.alloc(), view)?;
    Ok(is_run(plan, run, view.as_slice()))
}

/// Whether arguments, separated by spaces, are read as a plan of this run over these files, whose view has these arguments.
fn reads(
    rt: &HostRuntime,
    text: &[u8],
    run: Subcommand,
    files: &[u8],
    view: &[u8],
) -> Result<bool, Fail> {
    let plan = plan_of(rt, text)?;
    Ok(has_files(rt, &plan, files)? && is_run_of(rt, &plan, run, view)?)
}

/// The files of a run over one BED file.
const ONE: &[u8] = b"g a none none";

/// Those of a run over two.
const BOTH: &[u8] = b"g a b none";

/// Those of a run over a BED file and a FASTA file.
const BASES: &[u8] = b"g a none f";

/// Files whose names look like options: the argument after an option that takes a value is its value, whatever it is.
const OPTIONS: &[u8] = b"-i -d none none";

/// Arguments, their run and its files, and the arguments of its view. That the records may lack a column or a strand is no fault of the
/// arguments.
const RUNS: [(&[u8], Subcommand, &[u8], &[u8]); 16] = [
    (b"merge -g g -i a", Subcommand::Merge, ONE, b"merge"),
    (
        b"merge -i a -s -g g -d 5",
        Subcommand::Merge,
        ONE,
        b"merge -s -d 5",
    ),
    (
        b"merge -c 4 -o sum -i a -width 4 -g g",
        Subcommand::Merge,
        ONE,
        b"merge -c 4 -o sum",
    ),
    (
        b"cluster -d 7 -i a -g g",
        Subcommand::Cluster,
        ONE,
        b"cluster -d 7",
    ),
    (
        b"complement -g g -L -i a",
        Subcommand::Complement,
        ONE,
        b"complement -L",
    ),
    (
        b"genomecov -d -i a -g g",
        Subcommand::Genomecov,
        ONE,
        b"genomecov -d",
    ),
    (
        b"merge -g g -i a -c 6",
        Subcommand::Merge,
        ONE,
        b"merge -c 6",
    ),
    (
        b"merge -g g -i a -c 7",
        Subcommand::Merge,
        ONE,
        b"merge -c 7",
    ),
    (b"merge -g g -s -i a", Subcommand::Merge, ONE, b"merge -s"),
    (
        b"intersect -c -a a -b b -g g",
        Subcommand::Intersect,
        BOTH,
        b"intersect -c",
    ),
    (
        b"intersect -g g -wa -b b -wb -a a",
        Subcommand::Intersect,
        BOTH,
        b"intersect -wa -wb",
    ),
    (
        b"subtract -b b -a a -A -g g",
        Subcommand::Subtract,
        BOTH,
        b"subtract -A",
    ),
    (
        b"getfasta -tab -fi f -bed a -s -g g",
        Subcommand::Getfasta,
        BASES,
        b"getfasta -tab -s",
    ),
    (b"records -i a -g g", Subcommand::Records, ONE, b"records"),
    (b"merge -g -i -i -d", Subcommand::Merge, OPTIONS, b"merge"),
    (
        b"genomecov -d -g -i -i -d",
        Subcommand::Genomecov,
        OPTIONS,
        b"genomecov -d",
    ),
];

/// Whether each of these arguments are read so.
fn are_read(rt: &HostRuntime, runs: &[(&[u8], Subcommand, &[u8], &[u8])]) -> Result<bool, Fail> {
    for (words, run, files, view) in runs {
        if !reads(rt, words, *run, files, view)? {
            return Ok(false);
        }
    }
    Ok(true)
}

#[test]
fn words_of_subcommands(rt: HostRuntime) -> Result<(), Fail> {
    assert!(rt; are_read(&rt, &RUNS)?);
    Ok(())
}

/// Whether arguments are bad options.
fn is_no_plan(rt: &HostRuntime, words: &[&[u8]]) -> bool {
    Plan::read(rt.alloc(), words).err() == Some(Fault::Words)
}

/// The same of arguments that are separated by spaces.
fn is_refused(rt: &HostRuntime, text: &[u8]) -> Result<bool, Fail> {
    let words = words_of(rt.alloc(), text)?;
    Ok(is_no_plan(rt, words.as_slice()))
}

/// Whether each of these texts has such arguments.
fn are_refused(rt: &HostRuntime, texts: &[&[u8]]) -> Result<bool, Fail> {
    for text in texts {
        if !is_refused(rt, text)? {
            return Ok(false);
        }
    }
    Ok(true)
}

/// Arguments that are those of no subcommand: without a genome file, and where the value of `-g` is `-i`.
const NO_SUBCOMMAND: [&[u8]; 2] = [b"merge -i a", b"merge -g -i a.bed"];

#[test]
fn words_that_are_no_subcommand(rt: HostRuntime) -> Result<(), Fail> {
    assert!(rt; are_refused(&rt, &NO_SUBCOMMAND)?);
    Ok(())
}

/// Whether these arguments, separated by spaces, are those of a plan with files of these names and with this width.
fn has_width(rt: &HostRuntime, text: &[u8], files: &[u8], width: u8) -> Result<bool, Fail> {
    let plan = plan_of(rt, text)?;
    Ok((plan.width() == width) & has_files(rt, &plan, files)?)
}

/// Arguments, the names of their files, with `none` if there is none, and the width.
const SESSIONS: [(&[u8], &[u8], u8); 17] = [
    (b"session -g g -i -g", b"g -g none none", 3),
    (b"session -i -g -g g", b"g -g none none", 3),
    (b"session -g  -i a", b" a none none", 3),
    (b"session -width 3 -g g -i a", b"g a none none", 3),
    (b"session -g g -i a -width 6", b"g a none none", 6),
    (b"session -g g -i a -b b", b"g a b none", 3),
    (b"session -b b -i a -g g", b"g a b none", 3),
    (b"session -i a -width 6 -b -i -g g", b"g a -i none", 6),
    (b"session -b -b -g -b -i -b", b"-b -b -b none", 3),
    (b"session -g g -b  -i a", b"g a  none", 3),
    (b"session -b -width -g g -i a", b"g a -width none", 3),
    (b"session -g g -i a -fi f", b"g a none f", 3),
    (b"session -fi f -i a -b b -g g", b"g a b f", 3),
    (b"session -b b -g g -fi -b -width 6 -i a", b"g a b -b", 6),
    (b"session -i a -b -fi -g g -fi f", b"g a -fi f", 3),
    (b"session -fi  -g g -i a", b"g a none ", 3),
    (b"session -g g -fi -fi -i a", b"g a none -fi", 3),
];

/// Whether each of these arguments are read so.
fn have_widths(rt: &HostRuntime, sessions: &[(&[u8], &[u8], u8)]) -> Result<bool, Fail> {
    for (words, files, width) in sessions {
        if !has_width(rt, words, files, *width)? {
            return Ok(false);
        }
    }
    Ok(true)
}

#[test]
fn words_of_sessions(rt: HostRuntime) -> Result<(), Fail> {
    assert!(rt; have_widths(&rt, &SESSIONS)?);
    Ok(())
}

/// Arguments, and how many records a file and how many lines a script may have.
const LIMITS: [(&[u8], u32); 5] = [
    (b"session -g g -i a", 4_000_000),
    (b"session -limit 1 -g g -i a", 1),
    (b"merge -g g -limit 100000000 -i a", 100_000_000),
    (b"cluster -g g -i a -width 4 -limit 0000000007", 7),
    (b"intersect -g g -a -limit -b b", 4_000_000),
];

/// Whether the plans of arguments have these limits.
fn have_limits(rt: &HostRuntime, asked: &[(&[u8], u32)]) -> Result<bool, Fail> {
    for (words, limit) in asked {
        if plan_of(rt, words)?.limit() != *limit {
            return Ok(false);
        }
    }
    Ok(true)
}

#[test]
fn limits_of_runs(rt: HostRuntime) -> Result<(), Fail> {
    assert!(rt; have_limits(&rt, &LIMITS)?);
    Ok(())
}

/// Arguments that ask for a notice, and are no plan.
const NOTICES: [(&[u8], Notice); 17] = [
    (b"--help", Notice::Help),
    (b"-h", Notice::Help),
    (b"help", Notice::Help),
    (b"--version", Notice::Version),
    (b"--help session", Notice::HelpOf(Subcommand::Session)),
    (b"help session", Notice::HelpOf(Subcommand::Session)),
    (b"session --help", Notice::HelpOf(Subcommand::Session)),
    (b"session -h", Notice::HelpOf(Subcommand::Session)),
    (b"--help merge", Notice::HelpOf(Subcommand::Merge)),
    (b"merge --help", Notice::HelpOf(Subcommand::Merge)),
    (b"cluster -h", Notice::HelpOf(Subcommand::Cluster)),
    (b"help complement", Notice::HelpOf(Subcommand::Complement)),
    (b"genomecov --help", Notice::HelpOf(Subcommand::Genomecov)),
    (b"intersect -h", Notice::HelpOf(Subcommand::Intersect)),
    (b"help subtract", Notice::HelpOf(Subcommand::Subtract)),
    (b"getfasta --help", Notice::HelpOf(Subcommand::Getfasta)),
    (b"records -h", Notice::HelpOf(Subcommand::Records)),
];

/// Whether arguments, separated by spaces, ask for this notice.
fn asks(rt: &HostRuntime, text: &[u8], notice: Notice) -> Result<bool, Fail> {
    let words = words_of(rt.alloc(), text)?;
    Ok(Notice::of(words.as_slice()) == Some(notice))
}

#[test]
fn words_of_notices(rt: HostRuntime) -> Result<(), Fail> {
    for (words, notice) in NOTICES {
        assert!(rt; asks(&rt, words, notice)? && is_refused(&rt, words)?);
    }
    Ok(())
}
