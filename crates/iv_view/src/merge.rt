//! The options of `merge` and `cluster`: the distance of blocks, and summaries of their columns.
ghost use Rattle.std.specs.Prelude.{◌≡◌, ◌≤◌, ℕ, List, [], ◌∷◌, Option, Some, None, IsSome, MatchOption, nat_le, if◌then◌else◌, length, map, replicate};
ghost use Rattle.std.specs.List.{zip};
ghost use Rattle.std.specs.Option.{option_map, option_copied, ok_or};
ghost use Rattle.iv_lines.specs.Number.{number};
ghost use Rattle.iv_lines.specs.declared.fault.Fault.TheVariants as fault;
ghost use Rattle.iv_cover.specs.Summaries.{op_named};
ghost use Rattle.iv_blocks.specs.Groups.{filled};
ghost use Rattle.iv_view.specs.Lists.{all_some, items_in, of_length, pairs};
ghost use Rattle.iv_lines.specs.Chains.{if_ok};
ghost use Rattle.iv_view.specs.Merge.{said_by, nothing_said, with_option, merge_options, cluster_distance, distance_of, lists_of, summary_within};
ghost use Rattle.iv_view.specs.NarrowedViews.{number_of as number_of_column, has_columns as columns_are_there, narrowed_options};

use crate::view::ViewFault;
use arrayvec::ArrayVec;
use iv_blocks::{BlockOptions, Summaries};
use iv_cover::{Column, ColumnSummary, Op};
use iv_lines::{Fields, read_number};
use std::marker::Model;

/// The greatest distance.
const MOST_DISTANCE: u64 = 1_000_000_000;

/// A list has at most this many items.
const MOST_ITEMS: usize = 16;

/// The options that the arguments after `merge` mean, for records of six columns.
pub(crate) fn read_merge(arguments: &[&[u8]]) -> Result<BlockOptions, ViewFault>
    ensures { result ≡ merge_options 6 (said_by (map (λ argument. argument.now) arguments.now) nothing_said) }
{
    let said = MergeArgs::read(arguments).ok_or(ViewFault::Words)?;
    let distance = read_distance(said.distance).ok_or(ViewFault::Words)?;
    let lists = read_lists(said.columns, said.ops).ok_or(ViewFault::Words)?;
    let summaries = read_summaries(lists.columns.as_slice(), lists.ops.as_slice())?;
    Ok(BlockOptions {
        distance,
        stranded: said.stranded,
        summaries,
    })
}

/// The distance that the arguments after `cluster` mean: `-d` and its value, or none.
pub(crate) fn read_cluster(arguments: &[&[u8]]) -> Option<u32>
    ensures { result ≡ cluster_distance (said_by (map (λ argument. argument.now) arguments.now) nothing_said) }
{
    let said = MergeArgs::read(arguments)?;
    if said.stranded || said.columns.is_some() || said.ops.is_some() {
        return None;
    }
    read_distance(said.distance)
}

/// The values of options, as they are written.
#[derive(Drop)]
struct MergeArgs<'a> {
    distance: Option<&'a [u8]>,
    columns: Option<&'a [u8]>,
    ops: Option<&'a [u8]>,
    stranded: bool,
}

impl<'a> Model for MergeArgs<'a> {
    ghost use Rattle.std.specs.Option.{option_copied};
    ghost use Rattle.iv_view.specs.Merge.{MergeArgs};

    ghost Value = { MergeArgs };

    ghost view = { λ s. record { distance = option_copied s.distance; columns = option_copied s.columns; ops = option_copied s.ops; stranded = s.stranded } };
}

impl<'a> MergeArgs<'a> {
    /// The options of arguments: each argument is `-s`, or an option with its value after it, and none comes twice.
    fn read(arguments: &[&'a [u8]]) -> Option<MergeArgs<'a>>
        ensures { result ≡ said_by (map (λ argument. argument.now) arguments.now) nothing_said }
    {
        let mut said = MergeArgs::nothing();
        let mut rest = arguments;
        'options: while let [argument, after @ ..] = rest {
            if *argument == b"-s".as_slice() {
                if said.stranded {
                    return None;
                }
                said.stranded = true;
                rest = after;
            } else {
                let [value, others @ ..] = after else {
                    return None;
                };
                said.take(argument, value)?;
                rest = others;
            }
        }
        Some(said)
    }

    /// No option yet.
    fn nothing() -> MergeArgs<'a>
        ensures { result ≡ nothing_said }
    {
        MergeArgs {
            distance: None,
            columns: None,
            ops: None,
            stranded: false,
        }
    }

    /// Takes an option and its value, unless the option had one before.
    fn take(&mut self, option: &[u8], value: &'a [u8]) -> Option<()>
        ensures { MatchOption result (with_option option.now value.now self.old ≡ None) (λ _. with_option option.now value.now self.old ≡ Some self.new) }
    {
        if option == b"-d".as_slice() {
            give(&mut self.distance, value)
        } else if option == b"-c".as_slice() {
            give(&mut self.columns, value)
        } else if option == b"-o".as_slice() {
            give(&mut self.ops, value)
        } else {
            None
        }
    }
}

/// Gives an option its value, unless it has one.
fn give<'a>(option: &mut Option<&'a [u8]>, value: &'a [u8]) -> Option<()>
    ensures { MatchOption result (IsSome (option_copied option.old)) (λ _. (option_copied option.old ≡ None) × (option_copied option.new ≡ Some value.now)) }
{
    if option.is_some() {
        return None;
    }
    *option = Some(value);
    Some(())
}

/// The distance that a value means, 0 if there is none.
fn read_distance(value: Option<&[u8]>) -> Option<u32>
    ensures { result ≡ distance_of (option_copied value.entry) }
{
    let Some(value) = value else {
        return Some(0);
    };
    let distance = read_number(value)?;
    if distance > MOST_DISTANCE {
        return None;
    }
    Some(distance as u32)
}

/// The numbers of columns, and the operations, that the arguments ask for.
#[derive(Drop)]
struct Lists {
    columns: ArrayVec<u64, MOST_ITEMS>,
    ops: ArrayVec<Op, MOST_ITEMS>,
}

/// The lists that the values of `-c` and `-o` mean. The operation left out is `sum`, and there is none without a column.
fn read_lists(columns: Option<&[u8]>, ops: Option<&[u8]>) -> Option<Lists>
    ensures { option_map (λ lists. (lists.columns.items, lists.ops.items)) result ≡ lists_of (option_copied columns.entry) (option_copied ops.entry) }
{
    let Some(columns) = columns else {
        return match ops {
            None => Some(Lists {
                columns: ArrayVec::new(),
                ops: ArrayVec::new(),
            }),
            Some(_) => None,
        };
    };
    let columns = read_items(columns)?;
    let ops = match ops {
        Some(ops) => read_items(ops)?,
        None => usual_ops(),
    };
    Some(Lists { columns, ops })
}

/// The default operation.
fn usual_ops() -> ArrayVec<Op, MOST_ITEMS>
    ensures { result.items ≡ Op.Sum ∷ [] }
{
    let mut ops = ArrayVec::new();
    ops.push(Op::Sum);
    ops
}

/// The summaries that columns and operations ask for, paired off.
fn read_summaries(columns: &[u64], ops: &[Op]) -> Result<Summaries, ViewFault>
    requires few { (length columns.now ≤ 16) × (length ops.now ≤ 16) }
    ensures { result ≡ if_ok (ok_or (pairs columns.now ops.now) fault.Words) (λ asked. ok_or (option_map filled (all_some (map (summary_within 6) asked))) fault.Column) }
{
    let count = columns.len().max(ops.len());
    let columns = repeated(columns, count).ok_or(ViewFault::Words)?;
    let ops = repeated(ops, count).ok_or(ViewFault::Words)?;
    summaries_of(columns.as_slice(), ops.as_slice()).ok_or(ViewFault::Column)
}

/// The summaries of columns and operations side by side, if there are such columns.
fn summaries_of(columns: &[u64], ops: &[Op]) -> Option<Summaries>
    requires few { length columns.now ≤ 16 }
    requires paired { length ops.now ≡ length columns.now }
    ensures { result ≡ option_map filled (all_some (map (summary_within 6) (zip columns.now ops.now))) }
{
    let mut summaries = Summaries::none();
    for place in 0..columns.len() {
        let column = Column::numbered(columns[place])?;
        let op = ops[place];
        summaries.push(ColumnSummary { column, op });
    }
    Some(summaries)
}

/// The options for records of this width, if they were read for records of six columns.
pub(crate) fn narrow_merge(width: u8, options: BlockOptions) -> Result<BlockOptions, ViewFault>
    ensures { result ≡ narrowed_options width options }
{
    if !has_columns(width, options.summaries.as_slice()) {
        return Err(ViewFault::Column);
    }
    if options.stranded && width < 6 {
        return Err(ViewFault::NoStrand);
    }
    Ok(options)
}

/// Whether records of this width have the columns that are asked for.
fn has_columns(width: u8, summaries: &[ColumnSummary]) -> bool
    ensures { result ≡ columns_are_there width summaries.now }
{
    summaries
        .iter()
        .all(|asked| number_of(asked.column) <= width)
}

/// The number of a column, from 1.
fn number_of(column: Column) -> u8
    ensures { result ≡ number_of_column column }
{
    match column {
        Column::Sequence => 1,
        Column::Start => 2,
        Column::Stop => 3,
        Column::Name => 4,
        Column::Score => 5,
        Column::Strand => 6,
    }
}

/// An item of a list.
trait Item: Copy + Default {
    /// What a text means.
    ghost says: { List ℕ → Option Self };

    /// The item that a text means.
    fn read(text: &[u8]) -> Option<Self>
        ensures { result ≡ says text.now };
}

impl Item for u64 {
    ghost says = { number };

    fn read(text: &[u8]) -> Option<u64> {
        read_number(text)
    }
}

impl Item for Op {
    ghost says = { op_named };

    fn read(text: &[u8]) -> Option<Op> {
        Op::parse(text)
    }
}

/// The items of a list, if there are at most 16 and each means something.
fn read_items<T: Item>(text: &[u8]) -> Option<ArrayVec<T, MOST_ITEMS>>
    ensures { option_map (λ list. list.items) result ≡ items_in T.says text.now }
{
    let mut items = ArrayVec::new();
    let mut fields = Fields::of(text, b',');
    while let Some(field) = fields.next() {
        items.try_push(T::read(field)?).ok()?;
    }
    Some(items)
}

/// The items as a list of this length: one item is repeated. `None` for another length.
fn repeated<T: Item>(items: &[T], count: usize) -> Option<ArrayVec<T, MOST_ITEMS>>
    requires { count ≤ 16 }
    ensures { option_map (λ list. list.items) result ≡ of_length count items.now }
{
    match items {
        [item] => Some(copies_of(*item, count)),
        _ if items.len() == count => copy_of(items),
        _ => None,
    }
}

/// A list of copies of an item.
fn copies_of<T: Item>(item: T, count: usize) -> ArrayVec<T, MOST_ITEMS>
    requires { count ≤ 16 }
    ensures { result.items ≡ replicate count item }
{
    let mut list = ArrayVec::new();
    for _ in 0..count {
        list.push(item);
    }
    list
}

/// A copy of a list, `None` if it has more than 16 items.
fn copy_of<T: Item>(items: &[T]) -> Option<ArrayVec<T, MOST_ITEMS>>
    ensures { option_map (λ list. list.items) result ≡ (if nat_le (length items.now) 16 then Some items.now else None) }
{
    let mut list = ArrayVec::new();
    list.try_extend_from_slice(items).ok()?;
    Some(list)
}
