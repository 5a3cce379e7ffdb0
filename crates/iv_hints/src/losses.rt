//! What a run that ended well has lost in silence.
use crate::facts::{Facts, flag};
use crate::files::RunFiles;
use crate::hint::Hint;
use crate::text::{alike_in, field, is_record, length_in};
use iv_args::Slot;
use iv_lines::lines_of;
use std::alloc::AllocError;

/// How many records are looked for in a FASTA file.
const MOST_RECORDS: usize = 100;

/// The files of a run.
const SLOTS: &[Slot] = &[Slot::Sizes, Slot::First, Slot::Other, Slot::Bases];

/// Puts a loss of a run that ended well, if the fronts of its files show one.
pub(crate) fn put_loss(files: &RunFiles<'_>, hint: &mut Hint) -> Result<(), AllocError> {
    for slot in SLOTS {
        if hint.is_empty() {
            put_pipe(files, *slot, hint)?;
        }
    }
    if !hint.is_empty() {
        return Ok(());
    }
    let fasta = files.front(Slot::Bases);
    let header = lines_of(fasta).find_map(header_name).unwrap_or(b"none");
    Facts::new(
        hint.alloc,
        b"loss",
        &[
            (b"genome", files.front(Slot::Sizes)),
            (b"header", header),
            (b"missing", missing_in(files, fasta, header)),
        ],
    )?
    .put(hint)
}

/// Puts that a file is a pipe that was read before, or that had no byte.
fn put_pipe(files: &RunFiles<'_>, slot: Slot, hint: &mut Hint) -> Result<(), AllocError> {
    let name = files.name(slot);
    if name == b"/dev/null".as_slice() || files.kind(slot) != b"pipe".as_slice() {
        return Ok(());
    }
    let is_same = |other: &&Slot| files.name(**other) == name;
    let is_script = files.have_script() && name == b"/dev/stdin".as_slice();
    let is_given_twice = is_script || SLOTS.iter().filter(is_same).count() > 1;
    Facts::new(
        hint.alloc,
        b"pipe",
        &[
            (b"name", name),
            (b"is_given_twice", flag(is_given_twice)),
            (b"is_empty", flag(files.front(slot).is_empty())),
        ],
    )?
    .put(hint)
}

/// The name of a header of a FASTA file, if the line is one.
fn header_name(line: &[u8]) -> Option<&[u8]> {
    let header = line.strip_prefix(b">")?;
    header.split(|byte| *byte == b' ' || *byte == b'\t').next()
}

/// A sequence of the first records that a FASTA file has not; empty if none is known. Of a long file only the front is known: then its
/// first name decides.
fn missing_in<'a>(files: &RunFiles<'a>, fasta: &[u8], header: &[u8]) -> &'a [u8] {
    let genome = files.front(Slot::Sizes);
    let is_other = length_in(genome, header).is_empty() && !alike_in(genome, header).is_empty();
    if fasta.is_empty() || !files.is_whole(Slot::Bases) && !is_other {
        return b"";
    }
    let is_there = |name: &[u8]| lines_of(fasta).any(|line| header_name(line) == Some(name));
    lines_of(files.front(Slot::First))
        .filter(|line| is_record(line))
        .take(MOST_RECORDS)
        .map(|line| field(line, 0))
        .find(|name| !is_there(name))
        .unwrap_or(b"")
}
