//! Numbers among the values of a column, and how they are combined.
ghost use Rattle.std.specs.Prelude.{◌≡◌, ◌≤◌, ◌+◌, ◌<◌, ◌^◌, None, unsigned_abs, IfSome, decimal};
ghost use Rattle.std.specs.List.{reduce};
ghost use Rattle.std.specs.Option.{option_and_then};
ghost use Rattle.iv_cover.specs.Columns.{column_value};
ghost use Rattle.iv_cover.specs.Inside.NumberFolds.{both_of, with_number, size};
ghost use Rattle.iv_cover.specs.ParsedNumber.{IsShort, spelled};
ghost use Rattle.iv_cover.specs.Summaries.{number_of, numbers_of};

use crate::column::Column;
use crate::value::Value;
use crate::values::Values;
use iv_lines::{RecordRef, read_digits};

/// The most digits of a number.
const MOST_DIGITS: usize = 15;

/// The number that a value is: an optional minus sign, and 1 to 15 digits.
pub(crate) fn read_number(value: &[u8]) -> Option<i128>
    ensures value { result ≡ number_of value.now }
    ensures small { IfSome result (λ n. unsigned_abs n < 10 ^ 15) }
{
    match value {
        [b'-', digits @ ..] => Some(-i128::from(read_digits(digits, MOST_DIGITS)?)),
        digits => Some(i128::from(read_digits(digits, MOST_DIGITS)?)),
    }
}

/// What a value is to an operation on numbers.
#[derive(Clone, Copy, Debug, PartialEq, Eq)]
pub enum ParsedNumber {
    /// A full stop, which is left out.
    Missing,
    /// An optional minus sign, and 1 to 15 digits.
    Number(i128),
    /// Anything else.
    Other,
}

impl ParsedNumber {
    /// What a value spells.
    pub(crate) fn of(value: &[u8]) -> ParsedNumber
        ensures value { result ≡ spelled value.now }
        ensures short { IsShort result }
    {
        if value == b".".as_slice() {
            return ParsedNumber::Missing;
        }
        match read_number(value) {
            Some(number) => ParsedNumber::Number(number),
            None => ParsedNumber::Other,
        }
    }

    /// What the value of a record's column spells, if its sequence has this name. For a position no text is made.
    pub fn of_column<'a>(
        column: Column,
        sequence: &'a [u8],
        feature: &RecordRef<'a>,
    ) -> ParsedNumber
        ensures value { result ≡ spelled (column_value sequence.now column feature.now) }
        ensures short { IsShort result }
    {
        feature.lemma_of_interval();
        match column {
            Column::Start => ParsedNumber::of_position(feature.start()),
            Column::Stop => ParsedNumber::of_position(feature.stop()),
            _ => ParsedNumber::of(Value::of(column, sequence, feature).as_slice()),
        }
    }

    /// What a position spells, in decimal.
    fn of_position(position: u64) -> ParsedNumber
        requires { position < 2 ^ 32 }
        ensures value { result ≡ spelled (decimal position) }
        ensures short { IsShort result }
    {
        ParsedNumber::Number(i128::from(position))
    }
}

/// How two numbers are combined.
#[derive(Clone, Copy)]
pub(crate) enum NumberFold {
    Sum,
    Least,
    Greatest,
}

impl NumberFold {
    /// The numbers of a column combined, if the records' sequence has this name; `None` if there is no number,
    /// and if a value other than a full stop is none.
    pub(crate) fn total<'t, V: Values<'t>>(
        self,
        name: &'t [u8],
        column: Column,
        values: &V,
    ) -> Option<i128>
        ensures { result ≡ option_and_then (reduce (both_of self)) (numbers_of (V.left name.now column values.now)) }
    {
        values.lemma_of_size();
        let mut left = values.again();
        let mut taken = None;
        while let Some(spelled) = left.next_number(name, column) {
            match spelled {
                ParsedNumber::Missing => {}
                ParsedNumber::Number(number) => taken = Some(self.with_number(taken, number)),
                ParsedNumber::Other => return None,
            }
        }
        taken
    }

    /// The result so far, if there is one, combined with one more number.
    fn with_number(self, before: Option<i128>, number: i128) -> i128
        requires { size before + unsigned_abs number < 2 ^ 127 }
        ensures value { result ≡ with_number (both_of self) before number }
        ensures small { unsigned_abs result ≤ size before + unsigned_abs number }
    {
        let Some(before) = before else {
            return number;
        };
        match self {
            NumberFold::Sum => before + number,
            NumberFold::Least => before.min(number),
            NumberFold::Greatest => before.max(number),
        }
    }
}
