//! Runs of the program, of one subcommand and of scripts, over devices that may go wrong.

use crate::run_files::bytes_of;
use iv_args::{Plan, Slot};
use iv_bytes::{MemSink, StdSink, StdSource};
use iv_cli::{ending_of_run, load};
use iv_program::{Ended, MemFiles, NamedBytes, run_program};
use iv_run::{CliFault, ExitReason, Inputs, shot};
use iv_session::{RunFault, ScriptLimits, Summary, Unseen, run_script};
use iv_workspace::Session;
use std::alloc::{AllocError, Allocator};
use std::io::BufWriter;
use std::test::Fail;
use test_faults::{Manner, Stream, copied, words_of};

/// How a run is begun.
#[derive(Clone, Copy, PartialEq, Eq)]
pub(crate) enum Begun {
    /// `run_program`, with all that it calls: `Plan::read`, `FilesReader::begin`, `read_all`, `FilesReader::read_first`,
    /// `FilesReader::read_second`, `FilesReader::read_fasta`, `FilesReader::finish`, `begin_session`, `shot_of_held`, `View::print_from`,
    /// `print_beside`, `MergeSweep::new`, `DepthSweep::new`, `PairSweep::new`, `Places::hold`, `Places::sort`, `Places::ranks`,
    /// `BedReader::take_piece`, `BedReader::finish`, `FastaReader::take_piece`, `FastaReader::finish`
    Program,
    /// `Plan::read` and `shot`, with `RunFiles::of_inputs`
    Shot,
    /// `Plan::read`, `load` and `run_script`
    Script,
}

/// A run: its arguments, separated by spaces, its files, and its script.
#[derive(Clone, Copy)]
pub(crate) struct Run<'t> {
    pub(crate) begun: Begun,
    pub(crate) arguments: &'t [u8],
    pub(crate) files: &'t [NamedBytes<'t>],
    pub(crate) script: &'t [u8],
}

/// How the devices of a run behave. Files fail after so many bytes, and give three at a time.
#[derive(Clone, Copy)]
pub(crate) struct Manners {
    pub(crate) files: usize,
    pub(crate) input: Manner,
    pub(crate) output: Manner,
    pub(crate) messages: Manner,
}

/// Devices that don't go wrong, in pieces of so many bytes.
pub(crate) const fn sound(piece: usize) -> Manners {
    Manners {
        files: usize::MAX,
        input: Manner::sound(piece),
        output: Manner::sound(piece),
        messages: Manner::sound(piece),
    }
}

/// What a run leaves: its devices, how it ended, and the records of its session, if it has one.
#[derive(Drop)]
pub(crate) struct Left<'t> {
    pub(crate) input: Stream<'t>,
    pub(crate) output: Stream<'static>,
    pub(crate) messages: Stream<'static>,
    pub(crate) ended: Ended,
    pub(crate) records: MemSink,
}

/// How a run ended that wasn't begun, or has no line.
fn at_no_line(exit_reason: ExitReason) -> Ended {
    Ended {
        exit_reason,
        line: 0,
    }
}

/// The bytes of the files of a plan.
fn inputs_of<'t, A: Allocator + Copy>(files: &[NamedBytes<'t>], plan: &Plan<'_, A>) -> Inputs<'t> {
    Inputs {
        sizes: bytes_of(files, plan.file(Slot::Sizes)).unwrap_or(b""),
        first: bytes_of(files, plan.file(Slot::First)).unwrap_or(b""),
        other: bytes_of(files, plan.file(Slot::Other)),
    }
}

/// Runs the subcommand of a plan.
fn shoot<A: Allocator + Copy>(
    alloc: A,
    plan: &Plan<'_, A>,
    run: &Run<'_>,
    output: &mut Stream<'static>,
) -> Result<(), CliFault> {
    let inputs = inputs_of(run.files, plan);
    let bases = copied(alloc, bytes_of(run.files, plan.file(Slot::Bases)))?;
    shot(
        alloc,
        plan,
        &inputs,
        bases,
        2_000,
        &mut StdSink::new(output),
    )
}

/// Runs a script over three devices.
fn run_on<A: Allocator + Copy>(
    alloc: A,
    session: &mut Session<A>,
    input: &mut Stream<'_>,
    output: &mut Stream<'static>,
    messages: &mut Stream<'static>,
) -> Result<Summary, RunFault> {
    let limits = ScriptLimits {
        lines: 99,
        line_bytes: 10_000,
    };
    run_script(
        alloc,
        session,
        &limits,
        &mut StdSource::new(input),
        &mut StdSink::new(output),
        &mut StdSink::new(messages),
        &mut Unseen,
    )
}

/// Runs a script over a session, and then prints its records, unless an allocation fails.
fn run_over<A: Allocator + Copy>(
    alloc: A,
    session: &mut Session<A>,
    left: &mut Left<'_>,
) -> Result<Ended, AllocError> {
    let done = run_on(
        alloc,
        session,
        &mut left.input,
        &mut left.output,
        &mut left.messages,
    );
    let _ = session.open_view(b"all records", &[b"records"]);
    let _ = session.print_view(b"all records", &mut left.records);
    Ok(Ended {
        exit_reason: ending_of_run(&done),
        line: match done {
            Ok(_) => 0,
            Err(fault) => fault.line,
        },
    })
}

/// Runs a script over the session of the files of a plan.
fn begin<A: Allocator + Copy>(
    alloc: A,
    plan: &Plan<'_, A>,
    run: &Run<'_>,
    left: &mut Left<'_>,
) -> Result<Ended, CliFault> {
    let inputs = inputs_of(run.files, plan);
    let bases = copied(alloc, bytes_of(run.files, plan.file(Slot::Bases)))?;
    let mut session = load(alloc, plan, &inputs, bases, 2_000)?;
    Ok(run_over(alloc, &mut session, left)?)
}

/// Does what a plan asks for, without the program.
fn run_plan<A: Allocator + Copy>(
    alloc: A,
    plan: &Plan<'_, A>,
    run: &Run<'_>,
    left: &mut Left<'_>,
) -> Result<Ended, CliFault> {
    if run.begun == Begun::Script {
        return begin(alloc, plan, run, left);
    }
    shoot(alloc, plan, run, &mut left.output)?;
    Ok(at_no_line(ExitReason::Done))
}

/// The same from its arguments on.
fn run_by<A: Allocator + Copy>(
    alloc: A,
    arguments: &[&[u8]],
    run: &Run<'_>,
    left: &mut Left<'_>,
) -> Result<Ended, CliFault> {
    let plan = Plan::read(alloc, arguments)?;
    run_plan(alloc, &plan, run, left)
}

/// Runs the program over three devices.
fn run_whole<A: Allocator + Copy>(
    alloc: A,
    arguments: &[&[u8]],
    files: &mut MemFiles<'_>,
    input: &mut Stream<'_>,
    output: &mut Stream<'static>,
    messages: &mut Stream<'static>,
) -> Ended {
    run_program(
        alloc,
        arguments,
        files,
        &mut StdSource::new(input),
        &mut StdSink::new(output),
        &mut StdSink::new(messages),
        &mut Unseen,
    )
}

/// What is left of nothing, over devices that behave so.
pub(crate) fn nothing<'t>(
    rt: &HostRuntime,
    script: &'t [u8],
    manners: Manners,
) -> Result<Left<'t>, Fail> {
    let records = MemSink::new(rt.alloc(), 10_000, 10_000)?;
    Ok(Left {
        input: Stream::new(rt.alloc(), script, manners.input),
        output: Stream::new(rt.alloc(), b"", manners.output),
        messages: Stream::new(rt.alloc(), b"", manners.messages),
        ended: at_no_line(ExitReason::Done),
        records,
    })
}

/// How a run in memory of an allocator ends.
fn ended_by<A: Allocator + Copy>(
    rt: &HostRuntime,
    alloc: A,
    run: &Run<'_>,
    good: usize,
    left: &mut Left<'_>,
) -> Result<Ended, Fail> {
    let words = words_of(rt.alloc(), run.arguments)?;
    if run.begun == Begun::Program {
        return Ok(run_whole(
            alloc,
            words.as_slice(),
            &mut MemFiles::new(run.files, good, 3),
            &mut left.input,
            &mut left.output,
            &mut left.messages,
        ));
    }
    match run_by(alloc, words.as_slice(), run, left) {
        Ok(ended) => Ok(ended),
        Err(fault) => Ok(at_no_line(ExitReason::from(fault))),
    }
}

/// Makes a run of this script in memory of an allocator, over devices of its own.
pub(crate) fn left_by<'t, A: Allocator + Copy>(
    rt: &HostRuntime,
    alloc: A,
    run: &Run<'_>,
    script: &'t [u8],
    manners: Manners,
) -> Result<Left<'t>, Fail> {
    let mut left = nothing(rt, script, manners)?;
    left.ended = ended_by(rt, alloc, run, manners.files, &mut left)?;
    Ok(left)
}

/// Runs the program over three devices. Its output is behind a buffer of std, which holds all back until it is flushed.
fn run_behind_a_buffer(
    rt: &HostRuntime,
    arguments: &[&[u8]],
    files: &mut MemFiles<'_>,
    input: &mut Stream<'_>,
    output: &mut Stream<'static>,
    messages: &mut Stream<'static>,
) -> Result<Ended, Fail> {
    let mut buffered = StdSink::new(BufWriter::new(rt.alloc(), output)?);
    Ok(run_program(
        rt.alloc(),
        arguments,
        files,
        &mut StdSource::new(input),
        &mut buffered,
        &mut StdSink::new(messages),
        &mut Unseen,
    ))
}

/// How such a run ends.
pub(crate) fn ended_behind_a_buffer(
    rt: &HostRuntime,
    run: &Run<'_>,
    left: &mut Left<'_>,
) -> Result<Ended, Fail> {
    let words = words_of(rt.alloc(), run.arguments)?;
    run_behind_a_buffer(
        rt,
        words.as_slice(),
        &mut MemFiles::new(run.files, usize::MAX, 3),
        &mut left.input,
        &mut left.output,
        &mut left.messages,
    )
}
