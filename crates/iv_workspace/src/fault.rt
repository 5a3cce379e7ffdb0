//! Why a resize, a line of a second file or a print is refused.
ghost use Rattle.std.specs.Prelude.{◌≡◌, ◌≤◌, Some, None, IfSome};
ghost use Rattle.iv_workspace.specs.Views.{print_code};

use iv_bytes::WriteFault;
use iv_lines::Fault;
use std::alloc::AllocError;
use thiserror::Error;

/// Why a line means no record of a second file: `NoSecond` (E19), or E2 to E10.
pub type SecondFault = Fault;

/// Why the length of a sequence is not corrected, in the order in which the causes are looked for: `UnknownSeq` (E3), `Shorter`
/// (E23) or `Fixed` (E24).
pub type ResizeFault = Fault;

/// Why a view is not printed, or a line of a script is not done.
#[derive(Clone, Copy, Debug, PartialEq, Eq, Error)]
pub enum PrintFault {
    /// It is refused. Nothing was written.
    #[error("{0}")]
    Refused(Fault),
    /// The sink failed. A prefix of the text was written.
    #[error("output cannot be written")]
    Write,
}

impl From<Fault> for PrintFault {
    ghost use Rattle.std.specs.Prelude.{◌≡◌};
    ghost use Rattle.iv_workspace.specs.declared.fault.PrintFault.TheVariants.{Refused};

    ghost from_gives = { λ why fault. fault ≡ Refused why };

    fn from(why: Fault) -> PrintFault {
        PrintFault::Refused(why)
    }
}

impl From<WriteFault> for PrintFault {
    ghost use Rattle.std.specs.Prelude.{◌≡◌};
    ghost use Rattle.iv_workspace.specs.declared.fault.PrintFault.TheVariants.{Write};

    ghost from_gives = { λ _ fault. fault ≡ Write };

    fn from(_: WriteFault) -> PrintFault {
        PrintFault::Write
    }
}

impl From<AllocError> for PrintFault {
    ghost use Rattle.std.specs.Prelude.{◌≡◌};
    ghost use Rattle.iv_lines.specs.declared.fault.Fault.TheVariants.{NoMemory};
    ghost use Rattle.iv_workspace.specs.declared.fault.PrintFault.TheVariants.{Refused};

    ghost from_gives = { λ _ fault. fault ≡ Refused NoMemory };

    fn from(_: AllocError) -> PrintFault {
        PrintFault::Refused(Fault::NoMemory)
    }
}

impl PrintFault {
    /// Its number in the table of faults, `None` for a write fault.
    pub fn code(&self) -> Option<u8>
        ensures value { result ≡ print_code self.now }
        ensures known { IfSome result (λ code. (1 ≤ code) × (code ≤ 24)) }
    {
        match self {
            PrintFault::Refused(fault) => Some(fault.code()),
            PrintFault::Write => None,
        }
    }
}
