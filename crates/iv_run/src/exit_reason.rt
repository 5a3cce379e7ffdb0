//! Faults of a run, and how a run ends: its exit status, and its line on standard error.
ghost use Rattle.std.specs.Prelude.{◌≡◌, ◌++◌, true, codes, decimal};
ghost use Rattle.iv_bytes.specs.Sinks.{Puts};
ghost use Rattle.iv_run.specs.ExitReasons.{status_of, ending_of, ending_after, name_meant, line_of, is_through};

use itoa::Buffer;
use iv_args::{Plan, Slot};
use iv_bytes::{ReadFault, Sink, WriteFault, put_pieces};
use iv_lines::{Fault, LoadCause, LoadFault, load_text};
use std::alloc::{AllocError, Allocator};
use std::io::{self, ErrorKind};
use thiserror::Error;

/// Why a file is not read.
#[derive(Clone, Copy, Debug, PartialEq, Eq, Error)]
pub enum FileFault {
    /// The source failed before its end.
    #[error("cannot be read")]
    Input,
    /// It has more bytes than the limit.
    #[error("too long")]
    TooLong,
    /// An allocation failed.
    #[error("no memory")]
    Memory,
}

impl From<AllocError> for FileFault {
    ghost use Rattle.std.specs.Prelude.{◌≡◌};
    ghost use Rattle.iv_run.specs.declared.exit_reason.FileFault.TheVariants.{Memory};

    ghost from_gives = { λ _ fault. fault ≡ Memory };

    fn from(_: AllocError) -> FileFault {
        FileFault::Memory
    }
}

impl From<ReadFault> for FileFault {
    ghost use Rattle.std.specs.Prelude.{◌≡◌};
    ghost use Rattle.iv_run.specs.declared.exit_reason.FileFault.TheVariants.{Input};

    ghost from_gives = { λ _ fault. fault ≡ Input };

    fn from(_: ReadFault) -> FileFault {
        FileFault::Input
    }
}

/// Why a run does not come to its end.
#[derive(Clone, Copy, Debug, PartialEq, Eq, Error)]
pub enum CliFault {
    /// The arguments are wrong.
    #[error("{0}")]
    Words(Fault),
    /// A file is damaged: which one, and its first fault.
    #[error("{1}")]
    Damaged(Slot, LoadFault),
    /// The output failed.
    #[error("output cannot be written")]
    Output,
    /// An allocation failed.
    #[error("no memory")]
    Memory,
}

impl From<AllocError> for CliFault {
    ghost use Rattle.std.specs.Prelude.{◌≡◌};
    ghost use Rattle.iv_run.specs.declared.exit_reason.CliFault.TheVariants.{Memory};

    ghost from_gives = { λ _ fault. fault ≡ Memory };

    fn from(_: AllocError) -> CliFault {
        CliFault::Memory
    }
}

impl From<(Slot, LoadFault)> for CliFault {
    ghost use Rattle.std.specs.Prelude.{◌≡◌};
    ghost use Rattle.iv_run.specs.Loading.{damage_of};

    ghost from_gives = { λ why fault. fault ≡ damage_of why.0 why.1 };

    fn from((slot, fault): (Slot, LoadFault)) -> CliFault {
        match fault.cause {
            LoadCause::Memory => CliFault::Memory,
            _ => CliFault::Damaged(slot, fault),
        }
    }
}

/// Out of memory, or a fault of arguments.
impl From<Fault> for CliFault {
    ghost use Rattle.std.specs.Prelude.{◌≡◌};
    ghost use Rattle.iv_run.specs.Loading.{fault_of_arguments};

    ghost from_gives = { λ why fault. fault ≡ fault_of_arguments why };

    fn from(why: Fault) -> CliFault {
        match why {
            Fault::NoMemory => CliFault::Memory,
            _ => CliFault::Words(why),
        }
    }
}

impl From<WriteFault> for CliFault {
    ghost use Rattle.std.specs.Prelude.{◌≡◌};
    ghost use Rattle.iv_run.specs.declared.exit_reason.CliFault.TheVariants.{Output};

    ghost from_gives = { λ _ fault. fault ≡ Output };

    fn from(_: WriteFault) -> CliFault {
        CliFault::Output
    }
}

/// How a run ends.
#[derive(Clone, Copy, Debug, PartialEq, Eq)]
pub enum ExitReason {
    /// All was done.
    Done,
    /// Lines of the script were refused, and all else was done. The messages name each.
    Refused,
    /// The arguments are wrong.
    Words(Fault),
    /// A file is damaged; its first fault.
    Damaged(Slot, LoadFault),
    /// A file cannot be read.
    Unreadable(Slot),
    /// A file has more bytes than it may.
    TooLong(Slot),
    /// The script cannot be read.
    InputUnreadable,
    /// The script has more lines than it may, or a line of it more bytes.
    InputTooLong,
    /// Standard output or standard error cannot be written.
    Output,
    /// An allocation failed.
    Memory,
}

impl From<AllocError> for ExitReason {
    ghost use Rattle.std.specs.Prelude.{◌≡◌};
    ghost use Rattle.iv_run.specs.declared.exit_reason.ExitReason.TheVariants.{Memory};

    ghost from_gives = { λ _ exit_reason. exit_reason ≡ Memory };

    fn from(_: AllocError) -> ExitReason {
        ExitReason::Memory
    }
}

/// The ending if the system does not give the arguments: they are no text, or an allocation failed.
impl From<io::Error> for ExitReason {
    ghost use Rattle.std.specs.Prelude.{◌≡◌};
    ghost use Rattle.std.specs.IoError.{error_kind};
    ghost use Rattle.iv_run.specs.ExitReasons.{ending_of_kind};

    ghost from_gives = { λ error exit_reason. exit_reason ≡ ending_of_kind (error_kind error) };

    fn from(error: io::Error) -> ExitReason {
        match error.kind() {
            ErrorKind::OutOfMemory => ExitReason::Memory,
            _ => ExitReason::Words(Fault::Words),
        }
    }
}

/// The ending if the arguments are no plan, or an allocation failed.
impl From<Fault> for ExitReason {
    ghost use Rattle.std.specs.Prelude.{◌≡◌};
    ghost use Rattle.iv_run.specs.ExitReasons.{ending_of_arguments};

    ghost from_gives = { λ fault exit_reason. exit_reason ≡ ending_of_arguments fault };

    fn from(fault: Fault) -> ExitReason {
        ExitReason::from(CliFault::from(fault))
    }
}

impl From<CliFault> for ExitReason {
    ghost use Rattle.std.specs.Prelude.{◌≡◌};
    ghost use Rattle.iv_run.specs.ExitReasons.{ending_of};

    ghost from_gives = { λ fault exit_reason. exit_reason ≡ ending_of fault };

    fn from(fault: CliFault) -> ExitReason {
        match fault {
            CliFault::Words(fault) => ExitReason::Words(fault),
            CliFault::Damaged(slot, damage) => ExitReason::Damaged(slot, damage),
            CliFault::Output => ExitReason::Output,
            CliFault::Memory => ExitReason::Memory,
        }
    }
}

impl From<(Slot, FileFault)> for ExitReason {
    ghost use Rattle.std.specs.Prelude.{◌≡◌};
    ghost use Rattle.iv_run.specs.ExitReasons.{ending_of_file};

    ghost from_gives = { λ why exit_reason. exit_reason ≡ ending_of_file why.0 why.1 };

    fn from((slot, fault): (Slot, FileFault)) -> ExitReason {
        match fault {
            FileFault::Input => ExitReason::Unreadable(slot),
            FileFault::TooLong => ExitReason::TooLong(slot),
            FileFault::Memory => ExitReason::Memory,
        }
    }
}

impl ExitReason {
    /// The ending, once standard output was flushed, or could not be. A fault before that stays the one that is reported.
    pub fn after_flush(self, flushed: bool) -> ExitReason
        ensures { result ≡ ending_after flushed self }
    {
        match self {
            ExitReason::Done | ExitReason::Refused if !flushed => ExitReason::Output,
            _ => self,
        }
    }

    /// The exit status: 0 if all was done and 1 if lines of the script were refused; 2 for bad options, 3 for a
    /// damaged file, 4 for a file, an input or an output that fails or is too long, 5 for out of memory.
    pub fn status(self) -> u8
        ensures { result ≡ status_of self }
    {
        match self {
            ExitReason::Done => 0,
            ExitReason::Refused => 1,
            ExitReason::Words(_) => 2,
            ExitReason::Damaged(_, _) => 3,
            ExitReason::Unreadable(_) | ExitReason::TooLong(_) => 4,
            ExitReason::InputUnreadable | ExitReason::InputTooLong | ExitReason::Output => 4,
            ExitReason::Memory => 5,
        }
    }

    /// Puts the line that reports the ending, `bedkeep: TEXT` or `bedkeep: FILE: TEXT`, and nothing if all was
    /// done or the messages name each refused line. The name is that of the file that is meant.
    pub fn put_line<S: Sink>(self, name: &[u8], sink: &mut S) -> Result<(), WriteFault>
        ensures line { Puts (S.state sink.old) (S.state sink.new) result (line_of name.now self) }
        ensures quiet { is_through self ≡ true → sink.new ≡ sink.old }
    {
        match self {
            ExitReason::Done | ExitReason::Refused => Ok(()),
            ExitReason::Words(fault) => put_said(fault.text(), sink),
            ExitReason::Damaged(_, damage) => {
                put_damage(name, damage.line, load_text(&damage.cause), sink)
            }
            ExitReason::Unreadable(_) => put_said_of(name, b"cannot be read", sink),
            ExitReason::TooLong(_) => put_said_of(name, b"too long", sink),
            ExitReason::InputUnreadable => put_said(b"input cannot be read", sink),
            ExitReason::InputTooLong => put_said(b"input too long", sink),
            ExitReason::Output => put_said(b"output cannot be written", sink),
            ExitReason::Memory => put_said(b"no memory", sink),
        }
    }

    /// The name of the file of a plan that the ending speaks of, nothing if it speaks of none.
    pub fn file_meant<'a, A: Allocator + Copy>(self, plan: &Plan<'a, A>) -> &'a [u8]
        ensures { result.now ≡ name_meant plan.now self }
    {
        match self {
            ExitReason::Damaged(slot, _)
            | ExitReason::Unreadable(slot)
            | ExitReason::TooLong(slot) => { plan.file(slot).unwrap_or(b"") }
            _ => b"",
        }
    }
}

/// Puts a line.
fn put_said<S: Sink>(text: &[u8], sink: &mut S) -> Result<(), WriteFault>
    ensures { Puts (S.state sink.old) (S.state sink.new) result (codes "bedkeep: " ++ text.now ++ codes "\n") }
{
    put_pieces(sink, &[b"bedkeep: ", text, b"\n"])
}

/// Puts a line about a file.
fn put_said_of<S: Sink>(name: &[u8], text: &[u8], sink: &mut S) -> Result<(), WriteFault>
    ensures { Puts (S.state sink.old) (S.state sink.new) result (codes "bedkeep: " ++ (name.now ++ codes ": " ++ text.now) ++ codes "\n") }
{
    put_pieces(sink, &[b"bedkeep: ", name, b": ", text, b"\n"])
}

/// Puts the line about a damaged line of a file.
fn put_damage<S: Sink>(
    name: &[u8],
    number: u64,
    text: &[u8],
    sink: &mut S,
) -> Result<(), WriteFault>
    ensures { Puts (S.state sink.old) (S.state sink.new) result (codes "bedkeep: " ++ (name.now ++ codes ": " ++ codes "line " ++ decimal number ++ codes ": " ++ text.now) ++ codes "\n") }
{
    let mut digits = Buffer::new();
    put_pieces(
        sink,
        &[
            b"bedkeep: ",
            name,
            b": line ",
            digits.format(number).as_bytes(),
            b": ",
            text,
            b"\n",
        ],
    )
}

/// The exit status of a fault.
/// It is for callers outside this repository.
pub fn status(fault: &CliFault) -> u8
    ensures { result ≡ status_of (ending_of fault.now) }
{
    ExitReason::from(*fault).status()
}
