//! The records of a file on one side, one after another, and those of a block.
ghost use Rattle.std.specs.Prelude.{◌≡◌, ℕ, length, filter, map};
ghost use Rattle.iv_cover.specs.Columns.{column_value};
ghost use Rattle.iv_blocks.specs.Inside.Groups.{is_on};

use crate::group::Side;
use crate::joined_blocks::BlockMembers;
use iv_cover::{Column, ParsedNumber, RecordWalk, Value, Values};
use iv_lines::{Interval, RecordRef};
use iv_places::PlacedRecords;
use std::marker::Model;

/// Records of a file on one side, in their order: a walk without a step. Its model is the list of those that are left.
///
/// Those of the other side are between them and are passed over.
#[derive(Drop)]
pub(crate) struct SideRecords<'t> {
    records: PlacedRecords<'t>,
    side: Side,
}

impl<'t> Model for SideRecords<'t> {
    ghost use Rattle.std.specs.Prelude.{List, filter};
    ghost use Rattle.iv_lines.specs.RecordValue.{RecordValue};
    ghost use Rattle.iv_blocks.specs.Inside.Groups.{is_on};

    ghost Value = { List RecordValue };

    ghost view = { λ m. filter (is_on m.side) m.records };
}

impl<'t> SideRecords<'t> {
    /// Those of the records that are on the side.
    pub(crate) fn of(records: PlacedRecords<'t>, side: Side) -> SideRecords<'t>
        ensures { result ≡ filter (is_on side) records.entry }
    {
        SideRecords { records, side }
    }
}

impl<'t> RecordWalk for SideRecords<'t> {
    type Record = RecordRef<'t>;

    type Meter = ();

    ghost left = { λ records. records };

    ghost steps = { λ _. 0 };

    fn next(&mut self, _meter: &mut ()) -> Option<RecordRef<'t>> {
        while let Some(record) = Iterator::next(&mut self.records) {
            if self.side.has(&record) {
                return Some(record);
            }
        }
        None
    }

    fn next_interval(&self, meter: &mut ()) -> Option<Interval> {
        let record = RecordWalk::again(self).next(meter)?;
        Some(record.interval())
    }

    fn again(&self) -> Self {
        SideRecords {
            records: self.records.again(),
            side: self.side,
        }
    }

    fn interval(given: &RecordRef<'t>) -> Interval {
        given.lemma_of_interval();
        Interval::of(given)
    }

    fn record_again(given: &RecordRef<'t>) -> RecordRef<'t> {
        given.again()
    }

    fn meter()
        ensures { ◌≡◌ {A = ℕ} 0 0 }
    {}

    fn read(_meter: &()) -> u64
        ensures { result ≡ 0 }
    {
        0
    }

    fn lemma_of_few(&self) {
        self.records.lemma_of_few()
    }
}

impl<'t> Values<'t> for BlockMembers<SideRecords<'t>> {
    ghost size = { length };

    ghost left = { λ name column members. map (column_value name column) members };

    fn again(&self) -> Self {
        BlockMembers::again(self)
    }

    fn count(&self) -> u64 {
        self.len()
    }

    fn next_value(&mut self, name: &'t [u8], column: Column) -> Option<Value<'t>> {
        let member = self.next(&mut ())?;
        Some(Value::of(column, name, &member))
    }

    fn next_number(&mut self, name: &'t [u8], column: Column) -> Option<ParsedNumber> {
        let member = self.next(&mut ())?;
        Some(ParsedNumber::of_column(column, name, &member))
    }

    fn lemma_of_size(&self) {
        let _few = self.len();
    }
}
