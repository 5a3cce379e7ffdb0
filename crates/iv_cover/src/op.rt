//! Operations over the values of a column.
ghost use Rattle.std.specs.Prelude.{◌≡◌};
ghost use Rattle.iv_cover.specs.Summaries.{op_named};

/// An operation over values in the order of a track, as `bedtools merge -o` has it.
#[derive(Clone, Copy, Debug, Default, PartialEq, Eq)]
pub enum Op {
    /// How many values there are.
    Count,
    /// The sum of the numbers among them. It is the default.
    #[default]
    Sum,
    /// The least of the numbers.
    Min,
    /// The greatest of the numbers.
    Max,
    /// The values, repeats included, with commas between.
    Collapse,
    /// The different values in the order of their bytes, with commas between.
    Distinct,
}

impl Op {
    /// The operation of this name: `count`, `sum`, `min`, `max`, `collapse` or `distinct`.
    pub fn parse(name: &[u8]) -> Option<Op>
        ensures { result ≡ op_named name.now }
    {
        if name == b"count".as_slice() {
            Some(Op::Count)
        } else if name == b"sum".as_slice() {
            Some(Op::Sum)
        } else if name == b"min".as_slice() {
            Some(Op::Min)
        } else if name == b"max".as_slice() {
            Some(Op::Max)
        } else if name == b"collapse".as_slice() {
            Some(Op::Collapse)
        } else if name == b"distinct".as_slice() {
            Some(Op::Distinct)
        } else {
            None
        }
    }
}
