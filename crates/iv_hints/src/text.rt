//! Words and columns of lines, and what a genome file says of a name.
use iv_lines::{lines_of, split_first_column};

/// A column of a line, counted from 0; nothing if it isn't there.
pub(crate) fn field(line: &[u8], number: usize) -> &[u8] {
    line.split(|byte| *byte == b'\t').nth(number).unwrap_or(b"")
}

/// What is after so many columns of a line.
pub(crate) fn after_columns(line: &[u8], count: usize) -> &[u8] {
    let mut rest = line;
    for _ in 0..count {
        rest = split_first_column(rest).1.unwrap_or(b"");
    }
    rest
}

/// How many columns a line has; none if it is empty.
pub(crate) fn count_columns(line: &[u8]) -> usize {
    if line.is_empty() {
        return 0;
    }
    line.split(|byte| *byte == b'\t').count()
}

/// Whether a text is digits.
pub(crate) fn is_digits(text: &[u8]) -> bool {
    !text.is_empty() && text.iter().all(|byte| byte.is_ascii_digit())
}

/// Whether a line of a file is a record, as far as its front shows.
pub(crate) fn is_record(line: &[u8]) -> bool {
    !line.is_empty()
        && !line.starts_with(b"#")
        && !line.starts_with(b"track")
        && !line.starts_with(b"browser")
}

/// The first line of a BED file that is a record.
pub(crate) fn first_record(text: &[u8]) -> &[u8] {
    lines_of(text).find(|line| is_record(line)).unwrap_or(b"")
}

/// The first word of a text, if spaces and TABs separate words.
pub(crate) fn first_word(text: &[u8]) -> &[u8] {
    let is_end = |byte: &u8| matches!(*byte, b' ' | b'\t');
    text.split(is_end).next().unwrap_or(text)
}

/// The length that a genome file has for a name.
pub(crate) fn length_in<'a>(genome: &'a [u8], name: &[u8]) -> &'a [u8] {
    let is_of = |line: &&[u8]| !name.is_empty() && split_first_column(line).0 == name;
    field(lines_of(genome).find(is_of).unwrap_or(b""), 1)
}

/// A name of a genome file that is probably meant by this one; nothing if there is none.
pub(crate) fn alike_in<'a>(genome: &'a [u8], name: &[u8]) -> &'a [u8] {
    let is_alike = |line: &&[u8]| are_alike(split_first_column(line).0, name);
    field(lines_of(genome).find(is_alike).unwrap_or(b""), 0)
}

/// Whether two names differ by `chr` at the front alone or by capitals, or both are of the mitochondrion.
fn are_alike(one: &[u8], other: &[u8]) -> bool {
    !one.is_empty() && bare(one).eq_ignore_ascii_case(bare(other))
}

/// What follows `chr` in a name; `M` for `MT`.
fn bare(name: &[u8]) -> &[u8] {
    let rest = after_chr(name).1;
    if rest.eq_ignore_ascii_case(b"MT") {
        b"M"
    } else {
        rest
    }
}

/// The `chr` in front of a name, in whichever letters, and what follows it.
pub(crate) fn after_chr(name: &[u8]) -> (&[u8], &[u8]) {
    match name {
        [b'c' | b'C', b'h' | b'H', b'r' | b'R', rest @ ..] => (name.get(..3).unwrap_or(b""), rest),
        _ => (b"", name),
    }
}
