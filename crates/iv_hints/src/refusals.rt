//! The hint on a refused line of a script, and what is known of a line with a fault.
use crate::facts::{Facts, flag, is_between};
use crate::field::{column_of, fields_before, place_of};
use crate::files::RunFiles;
use crate::hint::Hint;
use crate::nearest::near_in;
use crate::text::{after_columns, field, first_word, is_record};
use crate::vocabulary::{COLUMNS, COMMANDS, FAULTS};
use crate::words::{put_words, value_after};
use iv_args::Slot;
use iv_lines::{Fault, lines_of};
use std::alloc::{AllocError, Global};

/// How a fault is called in docs/FORMAT.md.
pub(crate) fn fault_name(fault: Fault) -> &'static [u8] {
    FAULTS.get(fault.code() as usize).copied().unwrap_or(b"")
}

/// What a column of a record is called.
fn subject_of(column: usize, is_length: bool) -> &'static [u8] {
    if is_length {
        return b"the length";
    }
    COLUMNS.get(column).copied().unwrap_or(b"")
}

/// What is known of a line on which this fault is about this column after so many fields.
pub(crate) fn line_facts<'a>(
    alloc: Global,
    on: &'static [u8],
    fault: &'static [u8],
    line: &'a [u8],
    before: usize,
    column: Option<usize>,
) -> Result<Facts<'a>, AllocError> {
    let column = column.unwrap_or(0);
    let record = after_columns(line, before);
    let is_length = on == b"genome".as_slice() || field(line, 0) == b"resize".as_slice();
    let mut facts = Facts::new(
        alloc,
        on,
        &[
            (b"fault", fault),
            (b"line", line),
            (b"record", record),
            (b"value", field(record, column)),
            (b"subject", subject_of(column, is_length)),
        ],
    )?;
    facts.count(b"column", column.saturating_add(1))?;
    Ok(facts)
}

/// The hint on a refused line, of which so many columns after the command are a sound record. If the fault is about one field, it names
/// that, and has its value if the table has nothing on it, or if the line isn't one of the first of its kind.
pub(crate) fn hint_of_refusal<'a>(
    files: &RunFiles<'a>,
    line: &'a [u8],
    fault: Fault,
    sound: u8,
    is_few: bool,
) -> Result<Hint, AllocError> {
    let (command, name) = (field(line, 0), fault_name(fault));
    let before = fields_before(name, command, sound);
    let column = column_of(name, command);
    let mut hint = Hint::new(files.rt.alloc());
    hint.place = (0, place_of(before, column));
    let mut facts = line_facts(hint.alloc, b"script", name, line, before, column)?;
    if is_few {
        put_refusal(files, line, fault, &mut facts, &mut hint)?;
    }
    if hint.is_empty() && column.is_some() {
        facts.put_text("`value`", &mut hint)?;
    }
    Ok(hint)
}

/// Puts what the table has on a refused line, of which some facts are known.
fn put_refusal<'a>(
    files: &RunFiles<'a>,
    line: &'a [u8],
    fault: Fault,
    facts: &mut Facts<'a>,
    hint: &mut Hint,
) -> Result<(), AllocError> {
    let words = field(line, 2).split(is_between);
    let words: Vec<&'a [u8]> = words.filter(|word| !word.is_empty()).collect(hint.alloc)?;
    if fault == Fault::Words {
        return put_words(words.as_slice(), true, hint);
    }
    let slot = match field(line, 0) {
        b"addb" | b"removeb" | b"replaceb" => Slot::Other,
        _ => Slot::First,
    };
    let (fields, width) = (after_columns(line, 1), files.width(slot));
    let commands: Vec<&'static [u8]> = COMMANDS.split(is_between).collect(hint.alloc)?;
    let near = near_in(hint.alloc, commands.as_slice(), first_word(line))?;
    let (nearest, equal) = nearest_in(files.front(slot), fields, width);
    facts.add(&[
        (b"name", files.name(slot)),
        (b"front", files.front(slot)),
        (b"genome", files.front(Slot::Sizes)),
        (b"fields", fields),
        (b"near", near),
        (b"item", value_after(words.as_slice(), b"-c")),
        (b"nearest", nearest),
        (b"is_there", flag(equal == width)),
    ])?;
    facts.count(b"width", width)?;
    facts.put(hint)
}

/// The line of a file that has most columns of a record, at least two of them, and how many; empty if there is none.
fn nearest_in<'a>(front: &'a [u8], record: &[u8], width: usize) -> (&'a [u8], usize) {
    let mut best: usize = 1;
    let mut found: &[u8] = b"";
    for line in lines_of(front).filter(|line| is_record(line)) {
        let is_equal = |number: &usize| field(line, *number) == field(record, *number);
        let count = (0..width.min(6)).filter(is_equal).count();
        if count > best {
            best = count;
            found = line;
        }
    }
    (found, best)
}
