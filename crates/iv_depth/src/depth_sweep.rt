//! Rows of depth from sorted records of a file.
ghost use Rattle.std.specs.Prelude.{◌≡◌, All, IfOk};
ghost use Rattle.iv_bytes.specs.Sinks.{Puts};
ghost use Rattle.iv_lines.specs.Ordered.{AreInOrder};
ghost use Rattle.iv_lines.specs.Read.{IsOnGenome};
ghost use Rattle.iv_depth.specs.DepthRows.{depth_text};

use crate::change_cursor::DepthChanges;
use crate::depth_rows::{DepthOutput, put_sequence};
use crate::edges::{Edges, SequenceEdges};
use iv_bytes::{Sink, WriteFault};
use iv_lines::Genome;
use iv_places::PlacedRecords;
use std::alloc::{AllocError, Allocator, Global};
use std::marker::Model;

impl<'a> DepthChanges for Edges<'a> {
    ghost use Rattle.iv_lines.specs.Genome.{sequence_length};
    ghost use Rattle.iv_depth.specs.Inside.Edges.{IsAhead, edge_count};

    type Meter = ();

    ghost reading = { λ _. 0 };

    ghost left = { edge_count };

    ghost are_of = { λ edges g f seq from d. IsAhead (f seq) from (sequence_length g seq) d edges };

    ghost are_past = { λ _ _ _ _. Unit {0} };

    fn next_on(&mut self, _seq: u32, _meter: &mut ()) -> Option<(u64, i64)> {
        let (position, change) = self.next_change()?;
        Some((u64::from(position), change))
    }
}

/// How many of the records of a file cover each position.
#[derive(Drop)]
pub struct DepthSweep<'t, A: Allocator = Global> {
    sequences: SequenceEdges<PlacedRecords<'t>, A>,
}

impl<'t, A: Allocator> Model for DepthSweep<'t, A> {
    ghost use Rattle.std.specs.Prelude.{◌<◌, ◌^◌, List, length};
    ghost use Rattle.iv_lines.specs.RecordValue.{RecordValue};

    ghost Value = { List RecordValue };

    ghost view = { λ s. s.sequences.left };

    ghost invariant = { λ s. length s.sequences.left < 2 ^ 63 };
}

impl<'t, A: Allocator + Copy> DepthSweep<'t, A> {
    /// Before the first record. It takes all the memory that it will need: 8 bytes for each record, of which those of the records of
    /// one sequence are used.
    pub fn new(alloc: A, records: PlacedRecords<'t>) -> Result<Self, AllocError>
        ensures { IfOk result (λ s. s ≡ records.entry) }
    {
        records.lemma_of_few();
        let count = records.len();
        Ok(DepthSweep {
            sequences: SequenceEdges::of(alloc, records, count)?,
        })
    }

    /// Puts the rows that say how many records cover each position, sequence by sequence. It takes no memory.
    ///
    /// The records are in the order of a track, and are on the genome. On a fault the sink has taken a prefix of the text.
    pub fn print<S: Sink>(
        self,
        output: DepthOutput,
        genome: &Genome<A>,
        sink: &mut S,
    ) -> Result<(), WriteFault>
        requires order { AreInOrder self }
        requires on_genome { All (IsOnGenome genome.now) self }
        ensures { Puts (S.state sink.old) (S.state sink.new) result (depth_text output genome.now self.entry) }
    {
        let mut sequences = self.sequences;
        for seq in 0..genome.count() {
            sequences.gather(seq, &mut ());
            put_sequence(output, genome, seq, &mut sequences.edges(), &mut (), sink)?;
        }
        Ok(())
    }
}
