//! Columns of a BED file, and what is asked of them.
ghost use Rattle.std.specs.Prelude.{◌≡◌, All, IsFalse};
ghost use Rattle.iv_cover.specs.Columns.{column_numbered};
ghost use Rattle.iv_cover.specs.declared.op.Op.TheVariants.{Distinct};

use crate::op::Op;

/// A column of a BED file.
#[derive(Clone, Copy, Debug, PartialEq, Eq)]
pub enum Column {
    Sequence,
    Start,
    Stop,
    Name,
    Score,
    Strand,
}

impl Column {
    /// The column of this number, from 1 to 6.
    pub fn numbered(number: u64) -> Option<Column>
        ensures { result ≡ column_numbered number }
    {
        match number {
            1 => Some(Column::Sequence),
            2 => Some(Column::Start),
            3 => Some(Column::Stop),
            4 => Some(Column::Name),
            5 => Some(Column::Score),
            6 => Some(Column::Strand),
            _ => None,
        }
    }
}

/// What is asked of the records of a block: an operation over the values of a column.
#[derive(Clone, Copy, Debug, PartialEq, Eq)]
pub struct ColumnSummary {
    pub column: Column,
    pub op: Op,
}

/// Whether the different values of some column are asked for.
pub fn asks_distinct(summaries: &[ColumnSummary]) -> bool
    ensures { IsFalse result → All (λ s. s.op ≡ Distinct → ⊥) summaries.now }
{
    summaries.iter().any(|asked| asked.op == Op::Distinct)
}
