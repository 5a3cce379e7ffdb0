//! The lines of a text, and the columns of a line.
ghost use Rattle.std.specs.Prelude.{◌≡◌, ◌<◌, ◌≤◌, [], ◌∷◌, IfSome, MatchOption, length, take, drop};
ghost use Rattle.std.specs.Io.BufRead.{strip_last};
ghost use Rattle.iv_lines.specs.Bytes.{carriage_return, tab};
ghost use Rattle.iv_lines.specs.Lines.{lines};
ghost use Rattle.iv_lines.specs.Fields.{columns as columns_of, fields, fields_left};
ghost use Rattle.iv_lines.specs.Inside.Fields.{HasNoTab, ArePassed};

use bstr::{ByteSlice, Lines};
use std::marker::Model;

/// The lines of a text, in order, without their ends.
///
/// A line ends at LF or at the end of the text; one CR directly before an LF is dropped.
pub fn lines_of(text: &[u8]) -> Lines<'_>
    ensures value { result ≡ lines text.now }
    ensures count { length result ≤ length text.now }
{
    text.lines()
}

/// The first line of a text, without its end, and where the next one begins.
///
/// A text without a byte has no line.
pub fn split_line(text: &[u8]) -> (&[u8], usize)
    requires { 0 < length text.now }
    ensures lines { lines text.now ≡ result.0.now ∷ lines (drop result.1 text.now) }
    ensures first { result.0.now ≡ take (length result.0.now) text.now }
    ensures some { 0 < result.1 }
    ensures within { (length result.0.now ≤ result.1) × (result.1 ≤ length text.now) }
{
    match text.find_byte(b'\n') {
        Some(feed) => (without_return(&text[..feed]), feed + 1),
        None => (text, text.len()),
    }
}

/// A line without the carriage return at its end, if it has one.
fn without_return(line: &[u8]) -> &[u8]
    ensures value { result.now ≡ strip_last carriage_return line.now }
    ensures first { result.now ≡ take (length result.now) line.now }
    ensures within { length result.now ≤ length line.now }
{
    match line {
        [rest @ .., b'\r'] => rest,
        _ => line,
    }
}

/// The fields of a text that remain.
#[derive(Drop)]
pub struct Fields<'a> {
    rest: Option<&'a [u8]>,
    separator: u8,
}

impl<'a> Model for Fields<'a> {
    ghost use Rattle.std.specs.Prelude.{List, ℕ};

    ghost Value = { List (List ℕ) };

    ghost use Rattle.iv_lines.specs.Fields.{fields_left};

    ghost view = { λ f. fields_left f.separator f.rest };
}

/// The columns of a line: one more than it has TABs.
pub fn columns(line: &[u8]) -> Fields<'_>
    ensures { result ≡ columns_of line.now }
{
    Fields::of(line, b'\t')
}

impl<'a> Fields<'a> {
    /// All fields of a text: one more than it has separators.
    pub fn of(text: &'a [u8], separator: u8) -> Self
        ensures { result ≡ fields separator text.now }
    {
        Fields {
            rest: Some(text),
            separator,
        }
    }

    /// The next field, if there is one.
    pub fn next(&mut self) -> Option<&'a [u8]>
        ensures { MatchOption result ((self.old ≡ []) × (self.new ≡ [])) (λ field. self.old ≡ field.now ∷ self.new) }
    {
        let rest = self.rest?;
        match rest.find_byte(self.separator) {
            Some(at) => {
                self.rest = Some(&rest[at + 1..]);
                Some(&rest[..at])
            }
            None => {
                self.rest = None;
                Some(rest)
            }
        }
    }
}

/// The first column of a line, and what follows its TAB, if it has one.
pub fn split_first_column(line: &[u8]) -> (&[u8], Option<&[u8]>)
    ensures { columns_of line.now ≡ result.0.now ∷ fields_left tab result.1 }
{
    cut_first_column(line)
}

/// The same, for callers that need to know that the first column holds no TAB.
pub fn cut_first_column(line: &[u8]) -> (&[u8], Option<&[u8]>)
    ensures columns { columns_of line.now ≡ result.0.now ∷ fields_left tab result.1 }
    ensures plain { HasNoTab result.0.now }
{
    match line.find_byte(b'\t') {
        Some(at) => (&line[..at], Some(&line[at + 1..])),
        None => (line, None),
    }
}

/// What follows the byte, if a text begins with it.
pub fn after_byte(text: &[u8], byte: u8) -> Option<&[u8]>
    ensures { IfSome result (λ rest. text.now ≡ byte ∷ rest.now) }
{
    match text {
        [first, rest @ ..] if *first == byte => Some(rest),
        _ => None,
    }
}

/// The columns after a column that ends where the rest of its line begins, `None` if no column can end there.
pub fn columns_after(rest: &[u8]) -> Option<Fields<'_>>
    ensures { IfSome result (λ others. ArePassed rest.now others) }
{
    if rest.is_empty() {
        return Some(Fields {
            rest: None,
            separator: b'\t',
        });
    }
    let others = after_byte(rest, b'\t')?;
    Some(Fields::of(others, b'\t'))
}
