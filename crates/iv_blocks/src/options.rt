//! The options of a merge.
ghost use Rattle.std.specs.Prelude.{◌≡◌, ◌↔◌, [], nat_lt, IsTrue, IsFalse};
ghost use Rattle.iv_blocks.specs.Groups.{listed, filled, plain_options as only_joined};
ghost use Rattle.iv_blocks.specs.Inside.Groups.{pushed};
ghost use Rattle.iv_blocks.specs.IntervalOptions.{IsByIntervals};

use iv_cover::{Column, ColumnSummary, Op};

/// The summaries of each block, at most 16, in the order of their columns of output.
#[derive(Clone, Copy, Debug, PartialEq, Eq, Drop)]
pub struct Summaries {
    // Entries from `count` on are unused.
    summaries: [ColumnSummary; 16],
    count: u8,
}

impl Summaries {
    /// No summaries.
    pub fn none() -> Summaries
        ensures { result ≡ filled [] }
    {
        let unused = ColumnSummary {
            column: Column::Sequence,
            op: Op::Count,
        };
        Summaries {
            summaries: [unused; 16],
            count: 0,
        }
    }

    /// Adds a summary at the end, and answers whether there was room for it. If not, nothing is changed.
    pub fn push(&mut self, summary: ColumnSummary) -> bool
        ensures room { result ≡ nat_lt self.old.count 16 }
        ensures pushed { IsTrue result → self.new ≡ pushed self.old summary }
        ensures full { IsFalse result → self.new ≡ self.old }
    {
        if self.count >= 16 {
            return false;
        }
        self.summaries[usize::from(self.count)] = summary;
        self.count += 1;
        true
    }

    /// The summaries, in order.
    pub fn as_slice(&self) -> &[ColumnSummary]
        ensures { result.now ≡ listed self.now }
    {
        &self.summaries[..usize::from(self.count).min(16)]
    }
}

/// Which records are joined into one block, and which summaries of them are printed.
#[derive(Clone, Copy, Debug, PartialEq, Eq, Drop)]
pub struct BlockOptions {
    /// Records at most this many bases apart are joined.
    pub distance: u32,
    /// Whether only records of one strand are joined.
    pub stranded: bool,
    /// The summaries of the records of each block.
    pub summaries: Summaries,
}

impl BlockOptions {
    /// Records of both strands are joined, at most this many bases apart, and there are no summaries.
    pub fn unstranded(distance: u32) -> BlockOptions
        ensures { result ≡ only_joined distance }
    {
        BlockOptions {
            distance,
            stranded: false,
            summaries: Summaries::none(),
        }
    }

    /// Whether records of both strands are joined, and there are no summaries.
    pub fn is_by_intervals(&self) -> bool
        ensures { IsTrue result ↔ IsByIntervals self.now.distance self.now }
    {
        !self.stranded && self.summaries.as_slice().is_empty()
    }
}
