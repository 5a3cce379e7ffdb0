//! How the run of a script ends.
ghost use Rattle.std.specs.Prelude.{◌≡◌};
ghost use Rattle.iv_cli.specs.ScriptEndings.{ending_of_cause, ending_of_run};
ghost use Rattle.iv_run.specs.ExitReasons.{status_of};

use iv_run::ExitReason;
use iv_session::{RunCause, RunFault, Summary};

/// The ending of a script that stopped.
fn ending_of_cause(cause: RunCause) -> ExitReason
    ensures { result ≡ ending_of_cause cause }
{
    match cause {
        RunCause::Input => ExitReason::InputUnreadable,
        RunCause::TooLong => ExitReason::InputTooLong,
        RunCause::Output | RunCause::Messages => ExitReason::Output,
        RunCause::Memory => ExitReason::Memory,
    }
}

/// The ending of a run of a script.
pub fn ending_of_run(done: &Result<Summary, RunFault>) -> ExitReason
    ensures { result ≡ ending_of_run done.now }
{
    match done {
        Ok(summary) if summary.refused == 0 => ExitReason::Done,
        Ok(_) => ExitReason::Refused,
        Err(fault) => ending_of_cause(fault.cause),
    }
}

/// The exit status of a run of a script.
/// It is for callers outside this repository.
pub fn run_status(done: &Result<Summary, RunFault>) -> u8
    ensures { result ≡ status_of (ending_of_run done.now) }
{
    ending_of_run(done).status()
}
