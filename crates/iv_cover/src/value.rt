//! The value of a record's column.
ghost use Rattle.std.specs.Prelude.{◌≡◌, decimal};
ghost use Rattle.iv_cover.specs.Columns.{column_value};
ghost use Rattle.iv_cover.specs.Inside.Values.{kind_text};

use crate::column::Column;
use itoa::write_digits;
use iv_lines::{RecordRef, strand_bytes};
use std::marker::Model;

/// The value of a record's column, which takes no memory. Its model is its text.
#[derive(Debug, Drop)]
pub struct Value<'a> {
    kind: Kind<'a>,
}

/// A text that is lent, or a position.
#[derive(Debug, Drop)]
enum Kind<'a> {
    Text(&'a [u8]),
    Position(Digits),
}

impl<'a> Model for Value<'a> {
    ghost use Rattle.std.specs.Prelude.{List, ℕ};
    ghost use Rattle.iv_cover.specs.Inside.Values.{kind_text};

    ghost Value = { List ℕ };

    ghost view = { λ v. kind_text v.kind };
}

impl<'a> Value<'a> {
    /// The value of a record's column, if its sequence has this name.
    pub fn of(column: Column, sequence: &'a [u8], feature: &RecordRef<'a>) -> Value<'a>
        ensures { result ≡ column_value sequence.now column feature.now }
    {
        let kind = match column {
            Column::Sequence => Kind::Text(sequence),
            Column::Start => Kind::Position(Digits::of(feature.start())),
            Column::Stop => Kind::Position(Digits::of(feature.stop())),
            Column::Name => Kind::Text(feature.name()),
            Column::Score => Kind::Text(feature.score()),
            Column::Strand => Kind::Text(strand_bytes(feature.strand())),
        };
        Value { kind }
    }

    /// A value that is this text.
    pub(crate) fn text(text: &'a [u8]) -> Value<'a>
        ensures { result ≡ text.now }
    {
        Value {
            kind: Kind::Text(text),
        }
    }

    /// The value as text.
    pub fn as_slice(&self) -> &[u8]
        ensures { result.now ≡ self.now }
    {
        match &self.kind {
            Kind::Text(text) => text,
            Kind::Position(digits) => digits.as_slice(),
        }
    }
}

/// The most digits of a number of 64 bits.
const MOST_DIGITS: usize = 20;

/// A number in decimal. It is stored inline, and takes no memory.
#[derive(Debug, Drop)]
struct Digits {
    // They are at the end, from `start` on.
    digits: [u8; MOST_DIGITS],
    start: usize,
}

impl Model for Digits {
    ghost use Rattle.std.specs.Prelude.{List, ℕ, ◌≤◌, drop};

    ghost Value = { List ℕ };

    ghost view = { λ d. drop d.start d.digits };

    ghost invariant = { λ d. d.start ≤ 20 };
}

impl Digits {
    /// This number in decimal.
    fn of(number: u64) -> Digits
        ensures { result ≡ decimal number }
    {
        let mut digits = [0; MOST_DIGITS];
        let start = write_digits(number, &mut digits, MOST_DIGITS);
        Digits { digits, start }
    }

    /// The digits.
    fn as_slice(&self) -> &[u8]
        ensures { result.now ≡ self.now }
    {
        &self.digits[self.start..]
    }
}
