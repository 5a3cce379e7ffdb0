//! The hint on how a run has ended.
use crate::facts::Facts;
use crate::field::{column_of, place_of};
use crate::files::RunFiles;
use crate::hint::Hint;
use crate::losses::put_loss;
use crate::refusals::{fault_name, line_facts};
use crate::words::{put_words, value_after};
use iv_args::Slot;
use iv_lines::{Fault, LoadCause, LoadFault};
use iv_run::ExitReason;
use std::alloc::AllocError;

/// The hint below the line of an ending, given the arguments after the program's name, and the line of the script at which the run ended
/// early (0 if at none).
pub(crate) fn hint_of_ending(
    files: &RunFiles<'_>,
    words: &[&[u8]],
    exit_reason: ExitReason,
    line: u64,
) -> Result<Hint, AllocError> {
    let mut hint = Hint::new(files.rt.alloc());
    match exit_reason {
        ExitReason::Done => put_loss(files, &mut hint)?,
        ExitReason::Words(Fault::Words) => put_words(words, false, &mut hint)?,
        ExitReason::Damaged(slot, fault) if fault.cause != LoadCause::TooMany => {
            put_damage(files, slot, fault, &mut hint)?
        }
        _ => put_other(files, words, exit_reason, line, &mut hint)?,
    }
    Ok(hint)
}

/// Puts the hint on an ending of which a row says all, with a few values.
fn put_other(
    files: &RunFiles<'_>,
    words: &[&[u8]],
    exit_reason: ExitReason,
    line: u64,
    hint: &mut Hint,
) -> Result<(), AllocError> {
    let slot = match exit_reason {
        ExitReason::Unreadable(slot) => slot,
        _ => Slot::First,
    };
    let mut facts = Facts::new(
        hint.alloc,
        ending_name(exit_reason),
        &[
            (b"name", files.name(slot)),
            (b"kind", files.kind(slot)),
            (b"item", value_after(words, b"-c")),
        ],
    )?;
    facts.count(b"number", line as usize)?;
    facts.count(b"width", files.width(slot))?;
    facts.put(hint)
}

/// How the table calls an ending.
fn ending_name(exit_reason: ExitReason) -> &'static [u8] {
    match exit_reason {
        ExitReason::Output => b"output",
        ExitReason::Memory | ExitReason::TooLong(_) => b"large",
        ExitReason::Damaged(Slot::Sizes, _) => b"large",
        ExitReason::Damaged(..) => b"many_records",
        ExitReason::Unreadable(_) => b"unreadable",
        ExitReason::Words(fault) => fault_name(fault),
        _ => b"",
    }
}

/// How a cause is called in docs/FORMAT.md.
fn cause_name(cause: LoadCause) -> &'static [u8] {
    match cause {
        LoadCause::Columns => b"L1",
        LoadCause::Name => b"L2",
        LoadCause::Length => b"L3",
        LoadCause::Repeated => b"L4",
        LoadCause::BasesFirst => b"L5",
        LoadCause::Base => b"L6",
        LoadCause::WrongLength => b"L7",
        LoadCause::Record(fault) => fault_name(fault),
        LoadCause::TooMany => b"L9",
        LoadCause::Memory => b"L10",
    }
}

/// Puts the damaged line, what it looks like and what to do.
fn put_damage(
    files: &RunFiles<'_>,
    slot: Slot,
    fault: LoadFault,
    hint: &mut Hint,
) -> Result<(), AllocError> {
    let on: &'static [u8] = match slot {
        Slot::Sizes => b"genome",
        Slot::First | Slot::Other => b"bed",
        Slot::Bases => b"fasta",
    };
    let bytes = files.line(slot, fault.line)?;
    let text = bytes.as_slice();
    let text = text.strip_suffix(b"\r").unwrap_or(text);
    let name = cause_name(fault.cause);
    let column = column_of(name, b"");
    let mut facts = line_facts(hint.alloc, on, name, text, 0, column)?;
    facts.add(&[
        (b"name", files.name(slot)),
        (b"front", files.front(slot)),
        (b"genome", files.front(Slot::Sizes)),
    ])?;
    if !text.is_empty() {
        hint.place = (fault.line, place_of(0, column));
        facts.put_text("`line`", hint)?;
    }
    facts.put(hint)
}
