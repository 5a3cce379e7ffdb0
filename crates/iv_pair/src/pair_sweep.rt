//! The rows of records beside a second file in memory, as its places.
ghost use Rattle.std.specs.Prelude.{◌≡◌, [], List, IfOk, IsTrue, OnErr};
ghost use Rattle.iv_bytes.specs.Sinks.{Puts};
ghost use Rattle.iv_lines.specs.Ordered.{AreInOrder};
ghost use Rattle.iv_lines.specs.RecordValue.{RecordValue};
ghost use Rattle.iv_pair.specs.PairRows.{pair_text};
ghost use Rattle.iv_pair.specs.CoverAlone.{DependsOnCoverAlone, GiveRowsAlike, needs_cover_alone};

use crate::count_sweep::{End, ends_of, put_counts};
use crate::hit_finder::{HitFinder, put_by_hits};
use crate::intersect::IntersectOutput;
use crate::pair_rows::PairOutput;
use iv_bytes::{Sink, WriteFault};
use iv_cover::RecordWalk;
use iv_lines::{Genome, RecordRef};
use iv_places::{PlacedRecords, Places};
use std::alloc::{AllocError, Allocator, Global};
use std::marker::Model;

/// Puts the rows of each record of a walk beside those of a second file, as bedtools intersect or subtract does.
///
/// # Errors
///
/// An allocation failed, and nothing was put. The fault of a sink is in the result: then a prefix of the text was put.
pub fn print_beside<A: Allocator + Copy, W: RecordWalk, S: Sink>(
    alloc: A,
    output: PairOutput,
    records: W,
    second: Places<A>,
    genome: &Genome<A>,
    meter: &mut W::Meter,
    sink: &mut S,
) -> Result<Result<(), WriteFault>, AllocError>
    requires order { AreInOrder (W.left records) }
    requires second { AreInOrder second.records }
    ensures text { IfOk result (λ put. Puts (S.state sink.old) (S.state sink.new) put (pair_text output genome.now (W.left records) second.records)) }
    ensures alone { OnErr result (sink.new ≡ sink.old) }
{
    let mut second = second;
    join_beside(output, &mut second);
    let sweep = PairSweep::new(alloc, output, second.records())?;
    Ok(sweep.print(records, genome, meter, sink))
}

/// Whether these rows depend on the second list only by which positions its records cover. They do for each subtract, and
/// for an intersect that only asks whether a record has a hit: `-u` and `-v`.
///
/// If it is true, another second list that covers the same positions gives the same text.
pub fn needs_cover_alone(output: PairOutput) -> bool
    ensures value { result ≡ needs_cover_alone output }
    ensures alone { IsTrue result → DependsOnCoverAlone output }
{
    match output {
        PairOutput::Intersect(IntersectOutput::IfHit | IntersectOutput::IfNoHit) => true,
        PairOutput::Intersect(_) => false,
        PairOutput::Subtract { .. } => true,
    }
}

/// Joins the records of a second file that overlap or are book-ended, if these rows depend only on the positions that they cover:
/// many records at one position are one then. It takes no memory.
pub fn join_beside<A: Allocator + Copy>(output: PairOutput, second: &mut Places<A>)
    requires { AreInOrder second.old.records }
    ensures order { AreInOrder second.new.records }
    ensures alike { GiveRowsAlike output second.new.records second.old.records }
{
    if !needs_cover_alone(output) {
        return;
    }
    second.lemma_of_bases();
    second.join();
    second.lemma_of_bases();
}

/// What a sweep needs beside the two lists.
#[derive(Drop)]
pub(crate) enum Room<'t, A: Allocator = Global> {
    /// Room for the hits of a record.
    Hits(Vec<RecordRef<'t>, A>),
    /// Where the records of the second list end, for `intersect -c`.
    Ends(Vec<End, A>),
}

/// Rows of an intersect or a subtract, and the second list, which is in order, with all the memory that a print of them needs: 48
/// bytes for each of its records, of which those that reach past the start of a record of the first list are used; or 8 bytes for
/// `intersect -c`.
#[derive(Drop)]
pub struct PairSweep<'t, A: Allocator = Global> {
    output: PairOutput,
    second: PlacedRecords<'t>,
    room: Room<'t, A>,
}

impl<'t, A: Allocator> Model for PairSweep<'t, A> {
    ghost use Rattle.iv_pair.specs.Pairs.{Beside};
    ghost use Rattle.iv_pair.specs.Inside.PairSweeps.{IsSweep};

    ghost Value = { Beside };

    ghost view = { λ s. record { output = s.output; second = s.second } };

    ghost invariant = { λ s. IsSweep s.output s.second s.room };
}

impl<'t, A: Allocator + Copy> PairSweep<'t, A> {
    /// These rows beside a second list. It takes all the memory that it will need.
    pub fn new(alloc: A, output: PairOutput, second: PlacedRecords<'t>) -> Result<Self, AllocError>
        requires { AreInOrder second }
        ensures { IfOk result (λ s. s ≡ record { output = output; second = second.entry }) }
    {
        let room = match output {
            PairOutput::Intersect(IntersectOutput::Count) => {
                Room::Ends(ends_of(alloc, second.places())?)
            }
            _ => Room::Hits(Vec::with_capacity(alloc, second.len())?),
        };
        Ok(PairSweep {
            output,
            second,
            room,
        })
    }

    /// Puts the rows of each record of a first list, in its order, as bedtools intersect or subtract does.
    ///
    /// It takes no memory. On a fault the sink has taken a prefix of the text. It is also the text beside another second list, if
    /// each record has the same rows beside both.
    pub fn print<W: RecordWalk, S: Sink>(
        self,
        first: W,
        genome: &Genome<A>,
        meter: &mut W::Meter,
        sink: &mut S,
    ) -> Result<(), WriteFault>
        requires { AreInOrder (W.left first) }
        ensures { (second : List RecordValue) → GiveRowsAlike self.entry.output self.entry.second second → Puts (S.state sink.old) (S.state sink.new) result (pair_text self.entry.output genome.now (W.left first) second) }
    {
        let PairSweep {
            output,
            second,
            room,
        } = self;
        match room {
            Room::Ends(ends) => put_counts(first, &second, &ends, genome, meter, sink),
            Room::Hits(room) => {
                let mut first = first;
                let mut finder = HitFinder::of(second, room);
                put_by_hits(output, &mut first, &mut finder, None, genome, meter, sink)
            }
        }
    }
}
