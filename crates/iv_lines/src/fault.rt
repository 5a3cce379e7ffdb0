//! Faults of lines and files, and their texts.
ghost use Rattle.std.specs.Prelude.{◌≡◌, ◌≤◌};
ghost use Rattle.iv_lines.specs.Fault.{fault_text as text_of_fault, fault_numbered, code_of, fault_at, load_text as text_of_cause};

use std::alloc::AllocError;
use thiserror::Error;

/// Why a line of a script is refused: E1 to E24. The contract of each call says which of them it answers, and when.
#[derive(Clone, Copy, Debug, PartialEq, Eq, Error)]
pub enum Fault {
    /// E1: no such command, or other fields than it takes.
    #[error("no such command or wrong fields")]
    Command,
    /// E2: another number of columns than the width.
    #[error("wrong number of columns")]
    Columns,
    /// E3: the genome has no such sequence.
    #[error("unknown sequence")]
    UnknownSeq,
    /// E4: the start is not 1 to 10 digits.
    #[error("start is not a number")]
    StartNumber,
    /// E5: the end is not 1 to 10 digits; or the length of a resize is not, or is above 4,000,000,000.
    #[error("end is not a number")]
    StopNumber,
    /// E6: the start is at least the end.
    #[error("start not below end")]
    Order,
    /// E7: the end is greater than the sequence's length.
    #[error("end past the sequence's end")]
    PastEnd,
    /// E8: the name is empty, or holds CR, LF or NUL.
    #[error("bad name")]
    Name,
    /// E9: the score is empty, or holds CR, LF or NUL.
    #[error("bad score")]
    Score,
    /// E10: the strand is not `+`, `-` or `.`.
    #[error("bad strand")]
    Strand,
    /// E11: the track has no copy of the record that is to be removed or replaced.
    #[error("no such record")]
    Absent,
    /// E12: the track holds as many records as its limit.
    #[error("track is full")]
    Full,
    /// E13: the name of a view is not 1 to 32 bytes from 33 to 126.
    #[error("bad view name")]
    BadName,
    /// E14: a view of this name is open.
    #[error("view name taken")]
    Taken,
    /// E15: as many views are open as may be.
    #[error("too many views")]
    TooMany,
    /// E16: the arguments ask for no view, or for no run of a subcommand.
    #[error("bad options")]
    Words,
    /// E17: a number of `-c` is 0, or greater than the width of the track.
    #[error("no such column")]
    Column,
    /// E18: `-s` on a track of fewer than six columns.
    #[error("strand needs six columns")]
    NoStrand,
    /// E19: there is no second file.
    #[error("no second file")]
    NoSecond,
    /// E20: there is no FASTA file.
    #[error("no sequence file")]
    NoFasta,
    /// E21: no view of this name is open.
    #[error("no such view")]
    NoView,
    /// E22: an allocation failed.
    #[error("no memory")]
    NoMemory,
    /// E23: a record of the track or of the second file ends past the new length of its sequence.
    #[error("records past the new end")]
    Shorter,
    /// E24: the FASTA file has the sequence, and another number of bases of it.
    #[error("length fixed by the sequence file")]
    Fixed,
}

/// Why a line is no record, in the order in which the causes are looked for: E2 to E10.
pub type RecordFault = Fault;

impl From<AllocError> for Fault {
    ghost use Rattle.std.specs.Prelude.{◌≡◌};
    ghost use Rattle.iv_lines.specs.declared.fault.Fault.TheVariants.{NoMemory};

    ghost from_gives = { λ _ fault. fault ≡ NoMemory };

    fn from(_: AllocError) -> Fault {
        Fault::NoMemory
    }
}

impl Fault {
    /// Its text: that of a fault of a script line, or of the options of a view.
    pub fn text(self) -> &'static [u8]
        ensures { result.now ≡ text_of_fault self }
    {
        match self {
            Fault::Command => b"no such command or wrong fields",
            Fault::Columns => b"wrong number of columns",
            Fault::UnknownSeq => b"unknown sequence",
            Fault::StartNumber => b"start is not a number",
            Fault::StopNumber => b"end is not a number",
            Fault::Order => b"start not below end",
            Fault::PastEnd => b"end past the sequence's end",
            Fault::Name => b"bad name",
            Fault::Score => b"bad score",
            Fault::Strand => b"bad strand",
            Fault::Absent => b"no such record",
            Fault::Full => b"track is full",
            Fault::BadName => b"bad view name",
            Fault::Taken => b"view name taken",
            Fault::TooMany => b"too many views",
            Fault::Words => b"bad options",
            Fault::Column => b"no such column",
            Fault::NoStrand => b"strand needs six columns",
            Fault::NoSecond => b"no second file",
            Fault::NoFasta => b"no sequence file",
            Fault::NoView => b"no such view",
            Fault::NoMemory => b"no memory",
            Fault::Shorter => b"records past the new end",
            Fault::Fixed => b"length fixed by the sequence file",
        }
    }

    /// Its number in the table of faults, 1 to 24.
    pub fn code(&self) -> u8
        ensures value { result ≡ code_of self.now }
        ensures known { (1 ≤ result) × (result ≤ 24) }
    {
        match self {
            Fault::Command => 1,
            Fault::Columns => 2,
            Fault::UnknownSeq => 3,
            Fault::StartNumber => 4,
            Fault::StopNumber => 5,
            Fault::Order => 6,
            Fault::PastEnd => 7,
            Fault::Name => 8,
            Fault::Score => 9,
            Fault::Strand => 10,
            Fault::Absent => 11,
            Fault::Full => 12,
            Fault::BadName => 13,
            Fault::Taken => 14,
            Fault::TooMany => 15,
            Fault::Words => 16,
            Fault::Column => 17,
            Fault::NoStrand => 18,
            Fault::NoSecond => 19,
            Fault::NoFasta => 20,
            Fault::NoView => 21,
            Fault::NoMemory => 22,
            Fault::Shorter => 23,
            Fault::Fixed => 24,
        }
    }
}

/// Why a file is refused: L1 to L10. On one line the causes are looked for in this order, except `WrongLength`,
/// which is looked for at the end of a sequence.
#[derive(Clone, Copy, Debug, PartialEq, Eq, Error)]
pub enum LoadCause {
    /// L1: too few columns of a genome line, or a first record that has not 3 to 6.
    #[error("wrong number of columns")]
    Columns,
    /// L2: the name of a sequence is empty, or holds CR or NUL.
    #[error("bad name")]
    Name,
    /// L3: the length is not 1 to 10 digits, or above 4,000,000,000.
    #[error("bad length")]
    Length,
    /// L4: the name came before.
    #[error("repeated name")]
    Repeated,
    /// L5: bases come before the first header.
    #[error("bases before a header")]
    BasesFirst,
    /// L6: a byte is no base.
    #[error("bad base")]
    Base,
    /// L7: the bases of a sequence are not as many as the genome says.
    #[error("length differs from the genome")]
    WrongLength,
    /// L8: a line is no record.
    #[error("{0}")]
    Record(Fault),
    /// L9: a sequence or a record more than the limit.
    #[error("too many")]
    TooMany,
    /// L10: an allocation failed.
    #[error("no memory")]
    Memory,
}

impl From<AllocError> for LoadCause {
    ghost use Rattle.std.specs.Prelude.{◌≡◌};
    ghost use Rattle.iv_lines.specs.declared.fault.LoadCause.TheVariants.{Memory};

    ghost from_gives = { λ _ c. c ≡ Memory };

    fn from(_: AllocError) -> LoadCause {
        LoadCause::Memory
    }
}

/// The first faulty line of a file, counted from 1, and its first cause. If memory ran out, the line is 0.
#[derive(Clone, Copy, Debug, PartialEq, Eq, Error)]
#[error("line {line}: {cause}")]
pub struct LoadFault {
    pub line: u64,
    pub cause: LoadCause,
}

impl LoadFault {
    /// The fault of the line with this number, counted from 1. If memory ran out, its line is 0.
    pub fn at(line: u64, cause: LoadCause) -> LoadFault
        ensures { result ≡ fault_at line cause }
    {
        match cause {
            LoadCause::Memory => LoadFault { line: 0, cause },
            _ => LoadFault { line, cause },
        }
    }
}

impl From<AllocError> for LoadFault {
    ghost use Rattle.std.specs.Prelude.{◌≡◌};
    ghost use Rattle.iv_lines.specs.declared.fault.LoadCause.TheVariants.{Memory};

    ghost from_gives = { λ _ f. f ≡ record { line = 0; cause = Memory } };

    fn from(_: AllocError) -> LoadFault {
        LoadFault {
            line: 0,
            cause: LoadCause::Memory,
        }
    }
}

/// The text of the fault with this number in the table of faults, 1 to 24. It is for callers outside this repository.
pub fn fault_text(code: u8) -> &'static [u8]
    requires { (1 ≤ code) × (code ≤ 24) }
    ensures { result.now ≡ text_of_fault (fault_numbered code) }
{
    match code {
        1 => Fault::Command.text(),
        2 => Fault::Columns.text(),
        3 => Fault::UnknownSeq.text(),
        4 => Fault::StartNumber.text(),
        5 => Fault::StopNumber.text(),
        6 => Fault::Order.text(),
        7 => Fault::PastEnd.text(),
        8 => Fault::Name.text(),
        9 => Fault::Score.text(),
        10 => Fault::Strand.text(),
        11 => Fault::Absent.text(),
        12 => Fault::Full.text(),
        13 => Fault::BadName.text(),
        14 => Fault::Taken.text(),
        15 => Fault::TooMany.text(),
        16 => Fault::Words.text(),
        17 => Fault::Column.text(),
        18 => Fault::NoStrand.text(),
        19 => Fault::NoSecond.text(),
        20 => Fault::NoFasta.text(),
        21 => Fault::NoView.text(),
        22 => b"no memory",
        23 => Fault::Shorter.text(),
        _ => b"length fixed by the sequence file",
    }
}

/// The text of a fault of a file. A line that is no record has the text of its own fault.
pub fn load_text(cause: &LoadCause) -> &'static [u8]
    ensures { result.now ≡ text_of_cause cause.now }
{
    match cause {
        LoadCause::Columns => b"wrong number of columns",
        LoadCause::Name => b"bad name",
        LoadCause::Length => b"bad length",
        LoadCause::Repeated => b"repeated name",
        LoadCause::BasesFirst => b"bases before a header",
        LoadCause::Base => b"bad base",
        LoadCause::WrongLength => b"length differs from the genome",
        LoadCause::Record(fault) => fault.text(),
        LoadCause::TooMany => b"too many",
        LoadCause::Memory => b"no memory",
    }
}
