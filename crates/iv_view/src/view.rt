//! The kinds of view: the arguments that ask for one, and the print of a run.
ghost use Rattle.std.specs.Prelude.{[], ◌≡◌, true, map, All, IfOk, OnErr, None};
ghost use Rattle.iv_view.specs.Arguments.{read_arguments, or_bad_arguments as kept_or_bad_arguments, beside_second as beside_a_second, beside_fasta as beside_a_fasta};
ghost use Rattle.iv_view.specs.Views.{kept_text, shown_text, written_rows};
ghost use Rattle.iv_view.specs.NarrowedViews.{narrowed as narrowed_view};
ghost use Rattle.std.specs.List.{flat_map};
ghost use Rattle.std.specs.Option.{option_copied, unwrap_or};
ghost use Rattle.iv_bytes.specs.Sinks.{Puts};
ghost use Rattle.iv_lines.specs.Ordered.{AreInOrder};
ghost use Rattle.iv_lines.specs.Read.{IsOnGenome};
ghost use Rattle.iv_blocks.specs.MergeRows.{merge_text};

use crate::flags::{read_complement, read_genomecov, read_getfasta, read_intersect, read_subtract};
use crate::merge::{narrow_merge, read_cluster, read_merge};
use crate::written_view::WrittenView;
use iv_blocks::{BlockOptions, MergeSweep, put_cluster, put_complement, put_merge};
use iv_bytes::{Sink, WriteFault};
use iv_cover::RecordWalk;
use iv_depth::{DepthOutput, DepthSweep};
use iv_fasta::{Fasta, FastaOutput};
use iv_lines::{Fault, Genome};
use iv_pair::{PairOutput, print_beside};
use iv_places::{PlacedRecords, Places};
use std::alloc::{AllocError, Allocator};

/// Why a view is not opened, in the order in which the causes are looked for: `BadName`, `Taken`, `TooMany`, `Words`, `Column`,
/// `NoStrand`, `NoSecond`, `NoFasta` (E13 to E20), and `NoMemory` (E22).
pub type ViewFault = Fault;

/// What a view of a track can show: how many columns the records have, and which of the other two files there are.
#[derive(Clone, Copy, Debug, PartialEq, Eq)]
pub struct Available {
    pub width: u8,
    pub second: bool,
    pub fasta: bool,
}

/// All columns, and both files.
const EVERYTHING: Available = Available {
    width: 6,
    second: true,
    fasta: true,
};

/// A view of a track, with its options.
#[derive(Clone, Copy, Debug, PartialEq, Eq)]
pub enum View {
    /// A kept view: it has a state, which is updated at each edit of the track, at little cost.
    Kept(KeptView),
    /// A view that is written from the records at each print.
    Written(WrittenView),
}

/// A view of which a state is kept between prints.
#[derive(Clone, Copy, Debug, PartialEq, Eq)]
pub enum KeptView {
    /// `merge`: the blocks of records that are near one another, and summaries of their columns.
    Merge(BlockOptions),
    /// `cluster`: every record with the number of its block. Records at most this many bases apart are in one block.
    Cluster(u32),
    /// `complement`: what no record covers; if `limited`, only on sequences with a record.
    Complement { limited: bool },
    /// `genomecov`: how many records cover each position.
    Genomecov(DepthOutput),
}

impl View {
    /// The view that arguments ask for, on a track of this width, beside a second file and a FASTA file or without.
    ///
    /// # Errors
    ///
    /// `Words` if they ask for no view, then `Column`, then `NoStrand`, then `NoSecond` or `NoFasta`. No other fault comes:
    /// reading arguments takes no memory.
    pub fn read<A: Allocator + Copy>(
        _alloc: A,
        width: u8,
        has_second: bool,
        has_fasta: bool,
        arguments: &[&[u8]],
    ) -> Result<View, ViewFault>
        ensures { result ≡ read_arguments width has_second has_fasta (map (λ argument. argument.now) arguments.now) }
    {
        let view = View::asked(arguments)?;
        view.narrowed(Available {
            width,
            second: has_second,
            fasta: has_fasta,
        })
    }

    /// The view that arguments ask for, of records of six columns beside both files.
    ///
    /// # Errors
    ///
    /// `Words` if they ask for no view, then `Column`.
    pub fn asked(arguments: &[&[u8]]) -> Result<View, ViewFault>
        ensures { result ≡ read_arguments 6 true true (map (λ argument. argument.now) arguments.now) }
    {
        let (argument, options) = arguments.split_first().ok_or(ViewFault::Words)?;
        if *argument == b"merge".as_slice() {
            Ok(View::Kept(KeptView::Merge(read_merge(options)?)))
        } else if *argument == b"cluster".as_slice() {
            or_bad_arguments(read_cluster(options).map(KeptView::Cluster))
        } else if *argument == b"complement".as_slice() {
            or_bad_arguments(read_complement(options))
        } else if *argument == b"genomecov".as_slice() {
            or_bad_arguments(read_genomecov(options).map(KeptView::Genomecov))
        } else if *argument == b"intersect".as_slice() {
            beside_second(
                EVERYTHING,
                read_intersect(options).map(PairOutput::Intersect),
            )
        } else if *argument == b"subtract".as_slice() {
            beside_second(EVERYTHING, read_subtract(options))
        } else if *argument == b"getfasta".as_slice() {
            beside_fasta(EVERYTHING, read_getfasta(options))
        } else if *argument == b"records".as_slice() && options.is_empty() {
            Ok(View::Written(WrittenView::Records))
        } else {
            Err(ViewFault::Words)
        }
    }

    /// The view, which was read for records of six columns beside both files: what its arguments ask for here.
    ///
    /// # Errors
    ///
    /// `Column`, then `NoStrand`, then `NoSecond` or `NoFasta`.
    pub fn narrowed(self, available: Available) -> Result<View, ViewFault>
        ensures { result ≡ narrowed_view available.width available.second available.fasta self }
    {
        match self {
            View::Kept(KeptView::Merge(options)) => {
                Ok(View::Kept(KeptView::Merge(narrow_merge(available.width, options)?)))
            }
            View::Kept(
                KeptView::Cluster(_) | KeptView::Complement { .. } | KeptView::Genomecov(_),
            ) => Ok(self),
            View::Written(WrittenView::Paired(output)) => beside_second(available, Some(output)),
            View::Written(WrittenView::Getfasta(shown)) => beside_fasta(available, Some(shown)),
            View::Written(WrittenView::Records) => Ok(self),
        }
    }
}

/// The view of which a state is kept, or a fault of the arguments if they ask for none.
fn or_bad_arguments(view: Option<KeptView>) -> Result<View, ViewFault>
    ensures { result ≡ kept_or_bad_arguments view }
{
    Ok(View::Kept(view.ok_or(ViewFault::Words)?))
}

/// The view that needs a second file: a fault of the arguments if they ask for none, and then one if there is no second
/// file.
fn beside_second(available: Available, asked: Option<PairOutput>) -> Result<View, ViewFault>
    ensures { result ≡ beside_a_second available.second asked }
{
    let Some(output) = asked else {
        return Err(ViewFault::Words);
    };
    if available.second {
        Ok(View::Written(WrittenView::Paired(output)))
    } else {
        Err(ViewFault::NoSecond)
    }
}

/// The view that needs a FASTA file: a fault of the arguments if they ask for none, then one if the track has no strands to show, and
/// then one if there is no FASTA file.
fn beside_fasta(available: Available, asked: Option<FastaOutput>) -> Result<View, ViewFault>
    ensures { result ≡ beside_a_fasta available.width available.fasta asked }
{
    let shown = asked.ok_or(ViewFault::Words)?;
    if shown.stranded && available.width < 6 {
        return Err(ViewFault::NoStrand);
    }
    if !available.fasta {
        return Err(ViewFault::NoFasta);
    }
    Ok(View::Written(WrittenView::Getfasta(shown)))
}

impl View {
    /// Puts the text of the view for the records of a file, beside those of a second file and the bases of a FASTA file.
    ///
    /// The records of both files are in the order of a track. Without a FASTA file `getfasta` puts nothing. All memory is allocated
    /// before the first byte is put: room for a value of each record if a merge asks for `distinct`, for start and stop of each for
    /// `genomecov`, and what [`print_beside`] needs. Other views take none.
    ///
    /// # Errors
    ///
    /// An allocation failed, and nothing was put. The fault of a sink is in the result: then a prefix of the text was put.
    pub fn print_from<'t, A: Allocator + Copy, S: Sink>(
        self,
        alloc: A,
        records: PlacedRecords<'t>,
        second: Places<A>,
        fasta: Option<&Fasta<A>>,
        genome: &'t Genome<A>,
        sink: &mut S,
    ) -> Result<Result<(), WriteFault>, AllocError>
        requires order { AreInOrder records }
        requires on_genome { All (IsOnGenome genome.now) records }
        requires second { AreInOrder second.records }
        ensures text { IfOk result (λ put. Puts (S.state sink.old) (S.state sink.new) put (shown_text self genome.now records.entry second.records (unwrap_or (option_copied fasta.entry) []))) }
        ensures alone { OnErr result (sink.new ≡ sink.old) }
    {
        match self {
            View::Kept(view) => view.print_from(alloc, records, genome, sink),
            View::Written(view) => {
                view.print_from(alloc, records, second, fasta, genome, &mut (), sink)
            }
        }
    }
}

impl KeptView {
    /// Puts the text of the view, as [`View::print_from`] does.
    fn print_from<'t, A: Allocator + Copy, S: Sink>(
        self,
        alloc: A,
        records: PlacedRecords<'t>,
        genome: &'t Genome<A>,
        sink: &mut S,
    ) -> Result<Result<(), WriteFault>, AllocError>
        requires order { AreInOrder records }
        requires on_genome { All (IsOnGenome genome.now) records }
        ensures text { IfOk result (λ put. Puts (S.state sink.old) (S.state sink.new) put (kept_text self genome.now records.entry)) }
        ensures alone { OnErr result (sink.new ≡ sink.old) }
    {
        match self {
            KeptView::Merge(options) => put_blocks(alloc, options, records, genome, sink),
            KeptView::Cluster(distance) => Ok(put_cluster(distance, &records, genome, sink)),
            KeptView::Complement { limited } => Ok(put_complement(limited, &records, genome, sink)),
            KeptView::Genomecov(shown) => {
                let sweep = DepthSweep::new(alloc, records)?;
                Ok(sweep.print(shown, genome, sink))
            }
        }
    }
}

/// Puts the rows of a merge. Without summaries, and of both strands together, nothing is looked at except the intervals of records.
fn put_blocks<'t, A: Allocator + Copy, S: Sink>(
    alloc: A,
    options: BlockOptions,
    records: PlacedRecords<'t>,
    genome: &'t Genome<A>,
    sink: &mut S,
) -> Result<Result<(), WriteFault>, AllocError>
    requires order { AreInOrder records }
    requires on_genome { All (IsOnGenome genome.now) records }
    ensures text { IfOk result (λ put. Puts (S.state sink.old) (S.state sink.new) put (merge_text options genome.now records.entry)) }
    ensures alone { OnErr result (sink.new ≡ sink.old) }
{
    if options.is_by_intervals() {
        return Ok(put_merge(options.distance, &records, genome, sink));
    }
    let mut sweep = MergeSweep::new(alloc, options, records)?;
    Ok(sweep.print(genome, sink))
}

impl WrittenView {
    /// Puts the text of the view, as [`View::print_from`] does.
    fn print_from<A: Allocator + Copy, W: RecordWalk, S: Sink>(
        self,
        alloc: A,
        records: W,
        second: Places<A>,
        fasta: Option<&Fasta<A>>,
        genome: &Genome<A>,
        meter: &mut W::Meter,
        sink: &mut S,
    ) -> Result<Result<(), WriteFault>, AllocError>
        requires order { AreInOrder (W.left records) }
        requires second { AreInOrder second.records }
        ensures text { IfOk result (λ put. Puts (S.state sink.old) (S.state sink.new) put (flat_map (written_rows self genome.now second.records (unwrap_or (option_copied fasta.entry) [])) (W.left records))) }
        ensures alone { OnErr result (sink.new ≡ sink.old) }
    {
        match self {
            WrittenView::Paired(output) => {
                print_beside(alloc, output, records, second, genome, meter, sink)
            }
            WrittenView::Getfasta(_) => Ok(self.put_each(records, fasta, genome, meter, sink)),
            WrittenView::Records => Ok(self.put_each(records, fasta, genome, meter, sink)),
        }
    }
}
