//! The results over the values of a block.
ghost use Rattle.std.specs.Prelude.{◌≡◌, ◌≤◌, [], ◌∷◌, ℕ, List, decimal, length, vec_capacity, if◌then◌else◌};
ghost use Rattle.std.specs.Cmp.Lexicographic.{slice_cmp};
ghost use Rattle.std.specs.Fmt.{signed_decimal};
ghost use Rattle.std.specs.List.{join_with_byte};
ghost use Rattle.std.specs.Ordering.{nat_cmp};
ghost use Rattle.std.specs.Str.{bytes_eq};
ghost use Rattle.iv_bytes.specs.Sinks.{Puts};
ghost use Rattle.iv_lines.specs.Bytes.{comma};
ghost use Rattle.iv_lines.specs.Ordered.{InOrder};
ghost use Rattle.iv_cover.specs.Results.{HasRoom, results_of};
ghost use Rattle.iv_cover.specs.Summaries.{different, number_text, summary_of};
ghost use Rattle.iv_cover.specs.declared.column.Column.{Column};
ghost use Rattle.iv_cover.specs.declared.op.Op.TheVariants.{Distinct};

use crate::column::{Column, ColumnSummary};
use crate::number::NumberFold;
use crate::op::Op;
use crate::value::Value;
use crate::values::Values;
use iv_bytes::{Sink, WriteFault, put_all, put_pieces};
use std::alloc::Allocator;

/// Puts all results over records on a sequence of this name, each with a TAB in front of it.
///
/// There is room for all values if `distinct` is asked, and so it takes no memory.
pub fn put_results<'t, V: Values<'t>, A: Allocator, S: Sink>(
    summaries: &[ColumnSummary],
    name: &'t [u8],
    values: &V,
    room: &mut Vec<Value<'t>, A>,
    sink: &mut S,
) -> Result<(), WriteFault>
    requires room { HasRoom (vec_capacity room.old) (V.size values.now) summaries.now }
    ensures text { Puts (S.state sink.old) (S.state sink.new) result (results_of (λ column. V.left name.now column values.now) summaries.now) }
    ensures room { vec_capacity room.old ≤ vec_capacity room.new }
{
    for asked in summaries {
        put_all(sink, b"\t")?;
        put_result(*asked, name, values, room, sink)?;
    }
    Ok(())
}

/// Puts the result over records on a sequence of this name. There is room for all values if `distinct` is asked.
pub(crate) fn put_result<'t, V: Values<'t>, A: Allocator, S: Sink>(
    asked: ColumnSummary,
    name: &'t [u8],
    values: &V,
    room: &mut Vec<Value<'t>, A>,
    sink: &mut S,
) -> Result<(), WriteFault>
    requires room { asked.op ≡ Distinct → V.size values.now ≤ vec_capacity room.old }
    ensures text { Puts (S.state sink.old) (S.state sink.new) result (summary_of asked.op (V.left name.now asked.column values.now)) }
    ensures room { vec_capacity room.old ≤ vec_capacity room.new }
{
    let column = asked.column;
    match asked.op {
        Op::Count => put_count(values, sink),
        Op::Sum => put_number(NumberFold::Sum.total(name, column, values), sink),
        Op::Min => put_number(NumberFold::Least.total(name, column, values), sink),
        Op::Max => put_number(NumberFold::Greatest.total(name, column, values), sink),
        Op::Collapse => put_values(name, column, values, sink),
        Op::Distinct => put_distinct(name, column, values, room, sink),
    }
}

/// Puts how many values there are.
fn put_count<'t, V: Values<'t>, S: Sink>(values: &V, sink: &mut S) -> Result<(), WriteFault>
    ensures { (name : List ℕ) (column : Column) → Puts (S.state sink.old) (S.state sink.new) result (decimal (length (V.left name column values.now))) }
{
    values.lemma_of_size();
    put_all(sink, itoa::Buffer::new().format(values.count()).as_bytes())
}

/// Puts a number in decimal, or a full stop if there is none.
fn put_number<S: Sink>(number: Option<i128>, sink: &mut S) -> Result<(), WriteFault>
    ensures { Puts (S.state sink.old) (S.state sink.new) result (number_text number) }
{
    match number {
        Some(number) => put_integer(number, sink),
        None => put_all(sink, b"."),
    }
}

/// Puts an integer in decimal. Most have at most 64 bits, and those are cut into digits several times faster.
fn put_integer<S: Sink>(number: i128, sink: &mut S) -> Result<(), WriteFault>
    ensures { Puts (S.state sink.old) (S.state sink.new) result (signed_decimal number) }
{
    match i64::try_from(number) {
        Ok(short) => put_all(sink, itoa::Buffer::new().format(short).as_bytes()),
        Err(_) => put_all(sink, itoa::Buffer::new().format(number).as_bytes()),
    }
}

/// Puts the values of a column, with commas between.
fn put_values<'t, V: Values<'t>, S: Sink>(
    name: &'t [u8],
    column: Column,
    values: &V,
    sink: &mut S,
) -> Result<(), WriteFault>
    ensures { Puts (S.state sink.old) (S.state sink.new) result (join_with_byte comma (V.left name.now column values.now)) }
{
    let mut left = values.again();
    let Some(first) = left.next_value(name, column) else {
        return Ok(());
    };
    put_all(sink, first.as_slice())?;
    while let Some(value) = left.next_value(name, column) {
        put_next(value.as_slice(), sink)?;
    }
    Ok(())
}

/// Puts the different values of a column, in the order of their bytes, with commas between.
///
/// There is room for all values, and so it takes no memory.
fn put_distinct<'t, V: Values<'t>, A: Allocator, S: Sink>(
    name: &'t [u8],
    column: Column,
    values: &V,
    room: &mut Vec<Value<'t>, A>,
    sink: &mut S,
) -> Result<(), WriteFault>
    requires room { V.size values.now ≤ vec_capacity room.old }
    ensures text { Puts (S.state sink.old) (S.state sink.new) result (join_with_byte comma (different (V.left name.now column values.now))) }
    ensures room { vec_capacity room.old ≤ vec_capacity room.new }
{
    fill(name, column, values, room);
    room.sort_unstable_by(|first, second| first.as_slice().cmp(second.as_slice()));
    put_sorted(room, sink)
}

/// Fills a vector that has room for them with the values of a column, instead of what it held.
fn fill<'t, V: Values<'t>, A: Allocator>(
    name: &'t [u8],
    column: Column,
    values: &V,
    room: &mut Vec<Value<'t>, A>,
)
    requires room { V.size values.now ≤ vec_capacity room.old }
    ensures values { room.new.items ≡ V.left name.now column values.now }
    ensures room { vec_capacity room.old ≤ vec_capacity room.new }
{
    values.lemma_of_size();
    room.clear();
    let mut left = values.again();
    while let Some(value) = left.next_value(name, column) {
        // There is room for it: as much as there are values.
        let _ = room.push(value);
    }
}

/// Puts sorted values, each once, with commas between.
fn put_sorted<S: Sink>(values: &[Value<'_>], sink: &mut S) -> Result<(), WriteFault>
    requires { InOrder (slice_cmp nat_cmp) values.now }
    ensures { Puts (S.state sink.old) (S.state sink.new) result (join_with_byte comma (different values.now)) }
{
    let Some((first, others)) = values.split_first() else {
        return Ok(());
    };
    put_all(sink, first.as_slice())?;
    let mut last = first;
    for value in others {
        put_unless(last.as_slice(), value.as_slice(), sink)?;
        last = value;
    }
    Ok(())
}

/// Puts a comma and a value, unless it is the one before.
fn put_unless<S: Sink>(before: &[u8], value: &[u8], sink: &mut S) -> Result<(), WriteFault>
    ensures { Puts (S.state sink.old) (S.state sink.new) result (if bytes_eq before.now value.now then [] else comma ∷ value.now) }
{
    if before == value {
        return Ok(());
    }
    put_next(value, sink)
}

/// Puts a comma and a value.
fn put_next<S: Sink>(value: &[u8], sink: &mut S) -> Result<(), WriteFault>
    ensures { Puts (S.state sink.old) (S.state sink.new) result (comma ∷ value.now) }
{
    put_pieces(sink, &[b",", value])
}
