//! Lists and records that values of columns are read from.
ghost use Rattle.std.specs.Prelude.{◌≡◌, ◌<◌, ◌^◌, ℕ, List, length, map, IfSome};
ghost use Rattle.std.specs.Iterator.{YieldsFirst};
ghost use Rattle.iv_cover.specs.Columns.{column_value};
ghost use Rattle.iv_cover.specs.ParsedNumber.{IsShort, SpellsFirst};
ghost use Rattle.iv_cover.specs.declared.column.Column.{Column};

use crate::column::Column;
use crate::number::ParsedNumber;
use crate::value::Value;
use iv_lines::RecordRef;
use std::alloc::Allocator;

/// What values are read from, one after another: the records of a block, or a list of values, in which each column is the same.
///
/// It can be gone over again and again, and takes no memory. What it lends lives for `'t`.
pub trait Values<'t>: Drop {
    /// How many values are left.
    ghost size: { Self → ℕ };
    /// The values that are left of a column, if the records' sequence has this name.
    ghost left: { List ℕ → Column → Self → List (List ℕ) };

    /// The same values once more.
    fn again(&self) -> Self
        ensures { (name : List ℕ) (column : Column) → left name column result ≡ left name column self.now };

    /// How many values are left.
    fn count(&self) -> u64
        ensures { result ≡ size self.now };

    /// The next value of a column, if the records' sequence has this name; `None` after the last.
    fn next_value(&mut self, name: &'t [u8], column: Column) -> Option<Value<'t>>
        ensures { YieldsFirst (left name.now column) self.old result self.new };

    /// What the next value of a column spells, if the records' sequence has this name; `None` after the last.
    fn next_number(&mut self, name: &'t [u8], column: Column) -> Option<ParsedNumber>
        ensures value { SpellsFirst (left name.now column) self.old result self.new }
        ensures short { IfSome result IsShort };

    /// A lemma for callers' proofs: 64 bits count the values of a column. The call does nothing.
    fn lemma_of_size(&self)
        ensures few { size self.now < 2 ^ 64 }
        ensures each { (name : List ℕ) (column : Column) → length (left name column self.now) ≡ size self.now };
}

impl<'t> Values<'t> for &'t [RecordRef<'t>] {
    ghost size = { λ records. length records.now };

    ghost left = { λ name column records. map (column_value name column) records.now };

    fn again(&self) -> Self {
        *self
    }

    fn count(&self) -> u64 {
        self.len() as u64
    }

    fn next_value(&mut self, name: &'t [u8], column: Column) -> Option<Value<'t>> {
        let records = *self;
        let first = records.first()?;
        *self = &records[1..];
        Some(Value::of(column, name, first))
    }

    fn next_number(&mut self, name: &'t [u8], column: Column) -> Option<ParsedNumber> {
        let records = *self;
        let first = records.first()?;
        *self = &records[1..];
        Some(ParsedNumber::of_column(column, name, first))
    }

    fn lemma_of_size(&self) {
        let _few = self.len();
    }
}

impl<'t> Values<'t> for &'t [&'t [u8]] {
    ghost size = { λ texts. length texts.now };

    ghost left = { λ name column texts. map (λ text. text.now) texts.now };

    fn again(&self) -> Self {
        *self
    }

    fn count(&self) -> u64 {
        self.len() as u64
    }

    fn next_value(&mut self, _name: &'t [u8], _column: Column) -> Option<Value<'t>> {
        let texts = *self;
        let first = texts.first()?;
        *self = &texts[1..];
        Some(Value::text(first))
    }

    fn next_number(&mut self, _name: &'t [u8], _column: Column) -> Option<ParsedNumber> {
        let texts = *self;
        let first = texts.first()?;
        *self = &texts[1..];
        Some(ParsedNumber::of(first))
    }

    fn lemma_of_size(&self) {
        let _few = self.len();
    }
}
