//! Results as texts.
ghost use Rattle.std.specs.Prelude.{◌≡◌, [], None, map, IfOk};
ghost use Rattle.std.specs.Option.{is_some};
ghost use Rattle.iv_bytes.specs.Sinks.{in_memory};
ghost use Rattle.iv_cover.specs.Columns.{results_over};
ghost use Rattle.iv_cover.specs.Summaries.{summary_of};

use crate::column::{Column, ColumnSummary, asks_distinct};
use crate::op::Op;
use crate::summaries::{put_result, put_results};
use iv_bytes::{Sink, WriteFault};
use iv_lines::RecordRef;
use std::alloc::{AllocError, Allocator};

/// What an operation gives for the values of a column, in the order of a track.
/// It is for callers outside this repository.
pub fn summary<A: Allocator + Copy>(
    alloc: A,
    op: Op,
    values: &[&[u8]],
) -> Result<Vec<u8, A>, AllocError>
    ensures { IfOk result (λ text. text.items ≡ summary_of op (map (λ value. value.now) values.now)) }
{
    let asked = ColumnSummary {
        column: Column::Name,
        op,
    };
    let mut room = Vec::with_capacity(alloc, if op == Op::Distinct { values.len() } else { 0 })?;
    let mut text = GrowingText::over(Vec::new(alloc));
    let _ = put_result(asked, b"", &values, &mut room, &mut text);
    text.finish()
}

/// All results over records on a sequence of this name, each with a TAB in front of it.
pub fn results<A: Allocator + Copy>(
    alloc: A,
    summaries: &[ColumnSummary],
    sequence: &[u8],
    records: &[RecordRef<'_>],
) -> Result<Vec<u8, A>, AllocError>
    ensures { IfOk result (λ text. text.items ≡ results_over sequence.now summaries.now records.now) }
{
    results_in(alloc, summaries, sequence, records, Vec::new(alloc))
}

/// All results over records on a sequence of this name, each with a TAB in front of it, in the memory of a text that is no longer
/// needed.
pub fn results_in<A: Allocator + Copy>(
    alloc: A,
    summaries: &[ColumnSummary],
    sequence: &[u8],
    records: &[RecordRef<'_>],
    memory: Vec<u8, A>,
) -> Result<Vec<u8, A>, AllocError>
    ensures { IfOk result (λ text. text.items ≡ results_over sequence.now summaries.now records.now) }
{
    let mut room = Vec::with_capacity(
        alloc,
        if asks_distinct(summaries) {
            records.len()
        } else {
            0
        },
    )?;
    let mut text = GrowingText::over(memory);
    let _ = put_results(summaries, sequence, &records, &mut room, &mut text);
    text.finish()
}

/// A sink whose text grows. It fails if an allocation fails.
#[derive(Drop)]
struct GrowingText<A: Allocator> {
    text: Vec<u8, A>,
    // The error of the allocation that failed.
    refused: Option<AllocError>,
}

impl<A: Allocator> GrowingText<A> {
    /// An empty text, in the memory of one that is no longer needed.
    fn over(memory: Vec<u8, A>) -> GrowingText<A>
        ensures { (result.text.items ≡ []) × (result.refused ≡ None) }
    {
        let mut text = memory;
        text.clear();
        GrowingText {
            text,
            refused: None,
        }
    }

    /// The text that was taken.
    fn finish(self) -> Result<Vec<u8, A>, AllocError>
        ensures { IfOk result (λ text. (text.items ≡ self.text.items) × (self.refused ≡ None)) }
    {
        let GrowingText { text, refused } = self;
        match refused {
            Some(refused) => Err(refused),
            None => Ok(text),
        }
    }
}

impl<A: Allocator> Sink for GrowingText<A> {
    ghost state = { λ s. in_memory s.text.items (is_some s.refused) };

    fn push(&mut self, bytes: &[u8]) -> Result<usize, WriteFault> {
        if self.refused.is_some() {
            return Err(WriteFault);
        }
        if let Err(refused) = self.text.extend_from_slice(bytes) {
            self.refused = Some(refused);
            return Err(WriteFault);
        }
        Ok(bytes.len())
    }

    fn failed(&self) -> bool {
        self.refused.is_some()
    }
}
