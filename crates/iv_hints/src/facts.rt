//! What is known of a mistake, and the hint that the table has on it.
use crate::hint::{Escaped, Hint};
use crate::rows::{ROWS, TESTS};
use crate::text::{
    after_chr, alike_in, count_columns, field, first_record, first_word, is_digits, length_in,
};
use crate::vocabulary::{FIELDS, OPTIONS, OTHERS};
use iv_args::RUNS;
use iv_lines::read_number;
use std::alloc::{AllocError, Global};
use std::fmt;

/// What a name means.
#[derive(Clone, Copy)]
enum Value<'a> {
    Text(&'a [u8]),
    Count(usize),
}

impl<'a> Value<'a> {
    /// Its text, empty if it is a count.
    fn text(self) -> &'a [u8] {
        match self {
            Value::Text(text) => text,
            Value::Count(_) => b"",
        }
    }

    /// The number that it is, if it is one.
    fn number(self) -> Option<u64> {
        match self {
            Value::Text(text) => read_number(text),
            Value::Count(count) => Some(count as u64),
        }
    }
}

impl fmt::Display for Value<'_> {
    fn fmt<W: fmt::Write>(&self, f: &mut fmt::Formatter<W>) -> fmt::Result {
        match self {
            Value::Text(b"") => f.write_str("\"\""),
            Value::Text(text) => write!(f, "{}", Escaped(text)),
            Value::Count(count) => write!(f, "{count}"),
        }
    }
}

/// A text that is empty if something isn't so.
pub(crate) fn flag(is_so: bool) -> &'static [u8] {
    if is_so { b"yes" } else { b"" }
}

/// Whether a byte is between two words of a list.
pub(crate) fn is_between(byte: &u8) -> bool {
    *byte == b' '
}

/// The text that a table has for a word; empty if it has none. Each line of a table has a list of words, a colon and their text.
fn text_for(table: &'static str, word: &[u8]) -> &'static [u8] {
    for line in table.lines() {
        if let Some((list, text)) = line.split_once(": ")
            && !word.is_empty()
            && list.as_bytes().split(is_between).any(|known| known == word)
        {
            return text.as_bytes();
        }
    }
    b""
}

/// Whether a text is a number with a point or an exponent.
fn is_decimal(text: &[u8]) -> bool {
    let is_part = |byte: &u8| byte.is_ascii_digit() || matches!(*byte, b'.' | b'e' | b'E' | b'+');
    matches!(text, [b'0'..=b'9', ..]) && text.iter().all(is_part) && !is_digits(text)
}

/// Whether a text is of a kind that the table names.
fn is_of(text: &[u8], kind: &[u8]) -> bool {
    match kind {
        b"digits" => is_digits(text),
        b"decimal" => is_decimal(text),
        b"word" => matches!(text, [first, ..] if first.is_ascii_alphabetic()),
        b"run" => RUNS.iter().any(|run| run.name == text),
        b"spaced" => matches!(text, [b' ', ..] | [.., b' ']),
        b"has_space" => text.contains(&b' '),
        b"begins_spaced" => matches!(text, [b' ' | b'\t', ..]),
        b"has_return" => text.contains(&b'\r'),
        b"binary" => text
            .iter()
            .any(|byte| *byte < 9 || (*byte > 13 && *byte < 32)),
        b"named_bam" => text.ends_with(b".bam"),
        b"marked" => text.starts_with(b"\xef\xbb\xbf"),
        b"gzip" => text.starts_with(b"\x1f\x8b"),
        _ => false,
    }
}

/// What is known of a mistake: what it is, and values by their names.
#[derive(Drop)]
pub(crate) struct Facts<'a> {
    on: &'static [u8],
    values: Vec<(&'static [u8], Value<'a>)>,
}

impl<'a> Facts<'a> {
    /// Of a mistake of which these texts are known.
    pub(crate) fn new(
        alloc: Global,
        on: &'static [u8],
        texts: &[(&'static [u8], &'a [u8])],
    ) -> Result<Facts<'a>, AllocError> {
        let values = Vec::new(alloc);
        let mut facts = Facts { on, values };
        facts.add(texts)?;
        Ok(facts)
    }

    /// Adds texts.
    pub(crate) fn add(&mut self, texts: &[(&'static [u8], &'a [u8])]) -> Result<(), AllocError> {
        for (name, text) in texts {
            self.values.push((*name, Value::Text(text)))?;
        }
        Ok(())
    }

    /// Adds a number.
    pub(crate) fn count(&mut self, name: &'static [u8], count: usize) -> Result<(), AllocError> {
        self.values.push((name, Value::Count(count)))?;
        Ok(())
    }

    /// The value of a name.
    fn known(&self, name: &[u8]) -> Value<'a> {
        match self.values.iter().find(|(known, _)| *known == name) {
            Some((_, value)) => *value,
            None => Value::Text(b""),
        }
    }

    /// The value of a name, or what follows from it by the steps after its points. `f0` to `f9` are fields of the text `record`.
    fn value(&self, path: &[u8]) -> Value<'a> {
        let mut steps = path.split(|byte| *byte == b'.');
        let mut value = match steps.next().unwrap_or(b"") {
            b"on" => Value::Text(self.on),
            [b'f', digit @ b'0'..=b'9'] => {
                Value::Text(self.follow(self.known(b"record").text(), &[*digit]))
            }
            name => self.known(name),
        };
        for step in steps {
            value = match step {
                b"columns" => Value::Count(count_columns(value.text())),
                _ => Value::Text(self.follow(value.text(), step)),
            };
        }
        value
    }

    /// The text to which a step leads from another one.
    fn follow(&self, text: &'a [u8], step: &[u8]) -> &'a [u8] {
        match step {
            [digit @ b'0'..=b'9'] => field(text, digit.saturating_sub(b'0') as usize),
            b"first" => first_record(text),
            b"word" => first_word(text),
            b"known" => alike_in(self.known(b"genome").text(), text),
            b"length" => length_in(self.known(b"genome").text(), text),
            b"chr" => after_chr(text).0,
            b"rest" => after_chr(text).1,
            b"takes" => text_for(FIELDS, text),
            b"instead" => text_for(OTHERS, text),
            b"bedtools" => text_for(OPTIONS, text),
            _ => b"",
        }
    }

    /// Whether a row is about the mistake: it names that, its fault, or both.
    fn is_on(&self, words: &[u8]) -> bool {
        let (on, fault) = (self.on, self.known(b"fault").text());
        words.split(is_between).any(|word| {
            let rest = word.strip_prefix(on);
            let is_both = rest.is_some_and(|rest| rest.strip_prefix(b".") == Some(fault));
            word == on || word == fault || is_both
        })
    }

    /// Whether all tests of a list hold: those that have a name of their own, and those of values. `!TEST` holds if TEST doesn't.
    fn hold_all(&self, tests: &[u8]) -> bool {
        tests.split(is_between).all(|test| {
            let bare = test.strip_prefix(b"!").unwrap_or(test);
            let parts = match text_for(TESTS, bare) {
                b"" => bare,
                parts => parts,
            };
            parts.split(is_between).all(|part| self.holds(part)) != test.starts_with(b"!")
        })
    }

    /// Whether a test of a value holds. `NAME` holds if its text isn't empty or its number isn't 0. `NAME=ONE|OTHER` holds if it is one of
    /// these, `^` if it begins with one, `*` if it has one of these bytes, `:` if it is of a kind, `~` if it is the text of another name,
    /// and `<` and `>` compare it with a number, or with that of another name.
    fn holds(&self, test: &[u8]) -> bool {
        let (test, is_wanted) = match test {
            [b'!', test @ ..] => (test, false),
            _ => (test, true),
        };
        let is_bar = |byte: &u8| *byte == b'|';
        let is_sign = |byte: &u8| matches!(*byte, b'=' | b'^' | b'*' | b'~' | b':' | b'<' | b'>');
        let at = test.iter().position(is_sign).unwrap_or(test.len());
        let value = self.value(test.get(..at).unwrap_or(b""));
        let text = value.text();
        let holds = match test.get(at..).unwrap_or(b"") {
            [b'=', list @ ..] => list.split(is_bar).any(|one| text == one),
            [b'^', list @ ..] => list.split(is_bar).any(|one| text.starts_with(one)),
            [b'*', bytes @ ..] => bytes.iter().any(|byte| text.contains(byte)),
            [b':', kind @ ..] => is_of(text, kind),
            [b'~', other @ ..] => self.value(other).text() == text,
            [b'<', other @ ..] => value.number() < self.number_of(other),
            [b'>', other @ ..] => value.number() > self.number_of(other),
            _ => test.is_empty() || !text.is_empty() || value.number() > Some(0),
        };
        holds == is_wanted
    }

    /// A number, or that of a name.
    fn number_of(&self, other: &[u8]) -> Option<u64> {
        read_number(other).or(self.value(other).number())
    }

    /// Puts the first row of the table that is about the mistake and whose tests hold, with the rows `+` below it.
    pub(crate) fn put(&self, hint: &mut Hint) -> Result<(), AllocError> {
        let mut is_found = false;
        for row in ROWS.lines() {
            if let Some((on, rest)) = row.split_once(" | ")
                && let Some((tests, text)) = rest.split_once(" | ")
            {
                let is_below = on == "+";
                if is_found && !is_below {
                    return Ok(());
                }
                let is_about = is_found == is_below && (is_below || self.is_on(on.as_bytes()));
                if is_about && self.hold_all(tests.as_bytes()) {
                    self.put_text(text, hint)?;
                    is_found = true;
                }
            }
        }
        Ok(())
    }

    /// Puts the text of a row, with the values that it names between backquotes.
    pub(crate) fn put_text(&self, text: &'static str, hint: &mut Hint) -> Result<(), AllocError> {
        let mut line = String::new(hint.alloc);
        let mut is_name = false;
        for part in text.split('`') {
            if is_name {
                let shown = format!(in hint.alloc; "{}", self.value(part.as_bytes()))?;
                line.push_str(shown.as_str())?;
            } else {
                line.push_str(part)?;
            }
            is_name = !is_name;
        }
        hint.put_line(line.as_bytes())
    }
}
