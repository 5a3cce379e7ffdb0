//! A run of a script over the session that the files of a plan begin.
ghost use Rattle.std.specs.Prelude.{◌≡◌, ◌≤◌, None, IfOk, IfErr, OnOk, OnErr};
ghost use Rattle.iv_session.specs.Streams.{streams};
ghost use Rattle.iv_args.specs.Arguments.{RunPlan, most_limit};
ghost use Rattle.iv_program.specs.Files.{after_reading};
ghost use Rattle.iv_program.specs.Inside.Files.{StopsAt, names_of};
ghost use Rattle.iv_program.specs.Inside.Runs.{HasTexts, RunsScript, stopped_at};
ghost use Rattle.iv_places.specs.declared.places.HeldColumns.{HeldColumns};
ghost use Rattle.iv_program.specs.Texts.{Texts, AreTexts};

use crate::files::{InputFiles, SlotFault, read_files};
use crate::program::Ended;
use iv_args::Plan;
use iv_bytes::{Sink, Source};
use iv_cli::{begin_session, ending_of_run};
use iv_places::HeldColumns;
use iv_run::{CliFault, ExitReason, RunFiles};
use iv_session::{RunFault, ScriptLimits, SeesRefusals, Summary, run_script};
use std::alloc::Allocator;
use std::mem;

/// How many bytes a line of a script may have before its LF, a CR included.
const MOST_LINE_BYTES: u32 = 1_048_576;

/// The line at which a script stopped, counted from 1; 0 if it was run to its end.
fn line_of_stop(done: &Result<Summary, RunFault>) -> u64
    ensures { result ≡ stopped_at done.now }
{
    match done {
        Ok(_) => 0,
        Err(fault) => fault.line,
    }
}

/// Runs the script on the input, which may have at most `limit` lines, over the session that the files of a plan begin, unless one is
/// damaged.
fn run_over<A: Allocator + Copy, R: Source, W: Sink, E: Sink, O: SeesRefusals>(
    alloc: A,
    files: Result<RunFiles<A>, CliFault>,
    limit: u32,
    input: &mut R,
    output: &mut W,
    messages: &mut E,
    observer: &mut O,
) -> Ended
    requires same { IfOk files (λ f. f.limit ≡ limit) }
    requires few { limit ≤ most_limit }
    ensures { (plan : RunPlan) (texts : Texts) → limit ≡ plan.limit → HasTexts HeldColumns.All None plan texts files
        → RunsScript plan texts
        (streams (R.state input.old) (W.state output.old) (E.state messages.old))
        (streams (R.state input.new) (W.state output.new) (E.state messages.new)) result.exit_reason result.line }
{
    let files = match files {
        Ok(files) => files,
        Err(fault) => return Ended::at_no_line(ExitReason::from(fault)),
    };
    let mut session = match begin_session(files) {
        Ok(session) => session,
        Err(fault) => return Ended::at_no_line(ExitReason::from(fault)),
    };
    let limits = ScriptLimits {
        lines: limit,
        line_bytes: MOST_LINE_BYTES,
    };
    let done = run_script(
        alloc,
        &mut session,
        &limits,
        input,
        output,
        messages,
        observer,
    );
    // The process ends soon, and the system takes its memory at once. A drop would free record by record.
    mem::forget(session);
    Ended {
        exit_reason: ending_of_run(&done),
        line: line_of_stop(&done),
    }
}

/// Reads the files of a plan, and runs the script on the input over the session that they begin.
pub(crate) fn run_session<
    A: Allocator + Copy,
    F: InputFiles,
    R: Source,
    W: Sink,
    E: Sink,
    O: SeesRefusals,
>(
    alloc: A,
    files: &mut F,
    plan: &Plan<'_, A>,
    input: &mut R,
    output: &mut W,
    messages: &mut E,
    observer: &mut O,
) -> Result<Ended, SlotFault>
    ensures ok { IfOk result (λ ended. (texts : Texts) × AreTexts (F.state files.old) plan.now texts
        × RunsScript plan.now texts
        (streams (R.state input.old) (W.state output.old) (E.state messages.old))
        (streams (R.state input.new) (W.state output.new) (E.state messages.new)) ended.exit_reason ended.line) }
    ensures after { OnOk result (F.state files.new ≡ after_reading (names_of plan.now) (F.state files.old)) }
    ensures err { IfErr result (λ why. StopsAt plan.now (F.state files.old) (F.state files.new) why.0 why.1) }
    ensures nothing { OnErr result (streams (R.state input.new) (W.state output.new) (E.state messages.new)
        ≡ streams (R.state input.old) (W.state output.old) (E.state messages.old)) }
{
    let read = read_files(alloc, files, plan, HeldColumns::All, false)?;
    Ok(run_over(alloc, read, plan.limit(), input, output, messages, observer))
}
