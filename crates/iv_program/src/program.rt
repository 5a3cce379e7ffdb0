//! The whole program: what the arguments ask for, the run of one subcommand, and how each run ends.
ghost use Rattle.std.specs.Prelude.{◌≡◌, ◌≢◌, ◌⊎◌, ℕ, List, [], Some, None, IfOk, IfErr, MatchResult, OnOk, OnErr, map, true, false};
ghost use Rattle.iv_bytes.specs.Sinks.{FailsIn, Takes, waiting};
ghost use Rattle.iv_args.specs.Notices.{notice_of};
ghost use Rattle.iv_args.specs.Texts.{notice_text};
ghost use Rattle.iv_args.specs.Arguments.{RunPlan, IsPlan, is_session};
ghost use Rattle.iv_args.specs.declared.subcommand.Notice.{Notice};
ghost use Rattle.iv_run.specs.Shots.{shown};
ghost use Rattle.iv_run.specs.ExitReasons.{ending_of as ending_of_fault, is_through, line_of, status_of};
ghost use Rattle.iv_program.specs.Files.{after_reading};
ghost use Rattle.iv_program.specs.Outcomes.{IsSound, DoesAll, Hold, PrintsJust};
ghost use Rattle.iv_program.specs.Program.{Runs, world};
ghost use Rattle.iv_program.specs.Runs.{World};
ghost use Rattle.iv_program.specs.Inside.Files.{StopsAt, names_of};
ghost use Rattle.iv_program.specs.Inside.Runs.{EndsRun, HasEnough, PrintsView, ReadsAll, StopsPlan};
ghost use Rattle.iv_program.specs.Texts.{Texts, AreTexts};
ghost use Rattle.iv_program.specs.declared.program.Ended.{Ended};

use crate::files::{InputFiles, SlotFault, read_files};
use crate::script_run::run_session;
use iv_args::{Notice, Plan};
use iv_bytes::{Flush, Sink, Source, put_all};
use iv_run::{CliFault, ExitReason, RunFiles, columns_for, shot_of_held};
use iv_session::SeesRefusals;
use std::alloc::Allocator;

/// How a run has ended, its output flushed.
#[derive(Clone, Copy, Debug, PartialEq, Eq)]
pub struct Ended {
    pub exit_reason: ExitReason,
    /// The line of its script at which it ended early, counted from 1; 0 if there is none.
    pub line: u64,
}

impl Ended {
    /// A run that has not ended early at a line of a script.
    pub(crate) fn at_no_line(exit_reason: ExitReason) -> Ended
        ensures { (result.exit_reason ≡ exit_reason) × (result.line ≡ 0) }
    {
        Ended {
            exit_reason,
            line: 0,
        }
    }

    /// The exit status.
    pub fn status(self) -> u8
        ensures { result ≡ status_of self.exit_reason }
    {
        self.exit_reason.status()
    }
}

/// Prints a notice.
fn print_notice<W: Sink>(notice: Notice, output: &mut W) -> ExitReason
    ensures { ((result ≡ ExitReason.Done) × Takes (W.state output.old) (W.state output.new) (notice_text notice))
        ⊎ ((result ≡ ExitReason.Output) × FailsIn (W.state output.old) (W.state output.new) (notice_text notice)) }
{
    match put_all(output, notice.text()) {
        Ok(()) => ExitReason::Done,
        Err(_) => ExitReason::Output,
    }
}

/// How a run of one subcommand ends that has read its files.
fn ending_of(done: Result<(), CliFault>) -> ExitReason
    ensures { MatchResult done (λ _. result ≡ ExitReason.Done) (λ fault. result ≡ ending_of_fault fault) }
{
    match done {
        Ok(()) => ExitReason::Done,
        Err(fault) => ExitReason::from(fault),
    }
}

/// Prints the view of a plan, of the files that were read, unless one is damaged.
fn shot_of_files<A: Allocator + Copy, W: Sink>(
    alloc: A,
    plan: &Plan<'_, A>,
    files: Result<RunFiles<A>, CliFault>,
    output: &mut W,
) -> ExitReason
    ensures { (texts : Texts) → HasEnough plan.now texts files → PrintsView plan.now texts (W.state output.old) (W.state output.new) result }
{
    match files {
        Ok(files) => ending_of(shot_of_held(alloc, plan, files, output)),
        Err(fault) => ExitReason::from(fault),
    }
}

/// Prints the view of a plan.
fn print_view<A: Allocator + Copy, F: InputFiles, W: Sink>(
    alloc: A,
    files: &mut F,
    plan: &Plan<'_, A>,
    output: &mut W,
) -> Result<ExitReason, SlotFault>
    ensures ok { IfOk result (λ ended. (texts : Texts) × AreTexts (F.state files.old) plan.now texts
        × PrintsView plan.now texts (W.state output.old) (W.state output.new) ended) }
    ensures after { OnOk result (F.state files.new ≡ after_reading (names_of plan.now) (F.state files.old)) }
    ensures err { IfErr result (λ why. StopsAt plan.now (F.state files.old) (F.state files.new) why.0 why.1) }
    ensures nothing { OnErr result (W.state output.new ≡ W.state output.old) }
{
    let read = read_files(alloc, files, plan, columns_for(plan), true)?;
    Ok(shot_of_files(alloc, plan, read, output))
}

/// Does what a plan asks for.
fn run_plan<A: Allocator + Copy, F: InputFiles, R: Source, W: Sink, E: Sink, O: SeesRefusals>(
    alloc: A,
    plan: &Plan<'_, A>,
    files: &mut F,
    input: &mut R,
    output: &mut W,
    messages: &mut E,
    observer: &mut O,
) -> Ended
    ensures { ReadsAll plan.now
        (world (F.state files.old) (R.state input.old) (W.state output.old) (E.state messages.old))
        (world (F.state files.new) (R.state input.new) (W.state output.new) (E.state messages.new)) result.exit_reason result.line
        ⊎ StopsPlan plan.now
        (world (F.state files.old) (R.state input.old) (W.state output.old) (E.state messages.old))
        (world (F.state files.new) (R.state input.new) (W.state output.new) (E.state messages.new)) result.exit_reason result.line }
{
    if plan.is_script() {
        return match run_session(alloc, files, plan, input, output, messages, observer) {
            Ok(ended) => ended,
            Err(why) => Ended::at_no_line(ExitReason::from(why)),
        };
    }
    match print_view(alloc, files, plan, output) {
        Ok(exit_reason) => Ended::at_no_line(exit_reason),
        Err(why) => Ended::at_no_line(ExitReason::from(why)),
    }
}

/// Reports an ending, with the name of the file that is meant, and gives its status.
pub fn report<E: Sink>(exit_reason: ExitReason, name: &[u8], messages: &mut E) -> u8
    ensures told { Takes (E.state messages.old) (E.state messages.new) (line_of name.now exit_reason)
        ⊎ FailsIn (E.state messages.old) (E.state messages.new) (line_of name.now exit_reason) }
    ensures quiet { is_through exit_reason ≡ true → messages.new ≡ messages.old }
    ensures status { result ≡ status_of exit_reason }
{
    // If the messages take no more, only the status reports it.
    let _ = exit_reason.put_line(name, messages);
    exit_reason.status()
}

/// Ends a run: the output hands on all that it holds, and the ending is reported.
fn finish<W: Flush, E: Sink>(ended: Ended, name: &[u8], output: &mut W, messages: &mut E) -> Ended
    ensures exit_reason { EndsRun ended.exit_reason name.now (W.state output.old) (W.state output.new) (E.state messages.old) (E.state messages.new) result.exit_reason }
    ensures line { result.line ≡ ended.line }
{
    let flushed = output.flush().is_ok();
    let exit_reason = ended.exit_reason.after_flush(flushed);
    report(exit_reason, name, messages);
    Ended {
        exit_reason,
        line: ended.line,
    }
}

/// Runs the program: does what the arguments after its name ask for, with these files, this input, output and messages, and says how
/// that ended. The observer sees each refused line of a script.
pub fn run_program<
    A: Allocator + Copy,
    F: InputFiles,
    R: Source,
    W: Flush,
    E: Sink,
    O: SeesRefusals,
>(
    alloc: A,
    arguments: &[&[u8]],
    files: &mut F,
    input: &mut R,
    output: &mut W,
    messages: &mut E,
    observer: &mut O,
) -> Ended
    ensures { Runs (map (λ argument. argument.now) arguments.now)
        (world (F.state files.old) (R.state input.old) (W.state output.old) (E.state messages.old))
        (world (F.state files.new) (R.state input.new) (W.state output.new) (E.state messages.new)) result }
{
    if let Some(notice) = Notice::of(arguments) {
        let ended = Ended::at_no_line(print_notice(notice, output));
        return finish(ended, b"", output, messages);
    }
    match Plan::read(alloc, arguments) {
        Ok(plan) => {
            let ended = run_plan(alloc, &plan, files, input, output, messages, observer);
            finish(ended, ended.exit_reason.file_meant(&plan), output, messages)
        }
        Err(fault) => {
            let ended = Ended::at_no_line(ExitReason::from(fault));
            finish(ended, b"", output, messages)
        }
    }
}

/// A run that gives the status 0 has done all that its arguments ask for: the output has taken the whole text of the notice or of the
/// view for the files' bytes, or every line of the script was run and none refused. Nothing of it waits in the output.
pub fn done_is_all()
    ensures notice { (arguments : List (List ℕ)) (before after : World) (notice : Notice) (ended : Ended) → notice_of arguments ≡ Some notice → Runs arguments before after ended → status_of ended.exit_reason ≡ 0 → Takes before.streams.output after.streams.output (notice_text notice) }
    ensures plan { (arguments : List (List ℕ)) (before after : World) (plan : RunPlan) (ended : Ended) → notice_of arguments ≡ None → IsPlan arguments plan → Runs arguments before after ended → status_of ended.exit_reason ≡ 0 → DoesAll plan before after }
    ensures flushed { (arguments : List (List ℕ)) (before after : World) (ended : Ended) → Runs arguments before after ended → status_of ended.exit_reason ≡ 0 → waiting after.streams.output ≡ [] }
{}

/// Arguments have at most one plan: they decide all of it.
pub fn one_plan_at_most()
    ensures { (arguments : List (List ℕ)) (one other : RunPlan) → IsPlan arguments one → IsPlan arguments other → one ≡ other }
{}

/// What a run of one subcommand prints, puts among the messages and gives as its status depends on its arguments and on the bytes of its
/// files alone, if no device fails, no file is too long and memory suffices: it is what the view's definition gives for these bytes.
pub fn views_depend_on_bytes_alone()
    ensures { (arguments : List (List ℕ)) (before after : World) (plan : RunPlan) (texts : Texts) (ended : Ended) → notice_of arguments ≡ None → IsPlan arguments plan → is_session plan.run ≡ false
        → Hold before.files plan texts → Runs arguments before after ended → IsSound after → status_of ended.exit_reason ≢ 5
        → PrintsJust plan (shown plan texts.sizes texts.first texts.other texts.bases plan.limit) before.streams after.streams (status_of ended.exit_reason) }
{}
