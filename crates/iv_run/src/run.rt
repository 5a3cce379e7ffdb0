//! A run of one subcommand, without a script, over its files: which columns it needs of their records, and what it prints.
ghost use Rattle.std.specs.Prelude.{◌≡◌, List, ℕ, Option, None, Ok, Err, IfOk, true};
ghost use Rattle.std.specs.Option.{option_copied, option_map};
ghost use Rattle.iv_lines.specs.Ordered.{AreInOrder};
ghost use Rattle.iv_places.specs.declared.places.HeldColumns.{HeldColumns};
ghost use Rattle.iv_fasta.specs.FastaReading.{Wanted};
ghost use Rattle.iv_run.specs.RunFiles.{AreWanted, Reports};
ghost use Rattle.iv_run.specs.Loading.{parsed};
ghost use Rattle.iv_run.specs.Columns.{AreEnough, IsOfIntervals};
ghost use Rattle.iv_run.specs.Inside.Prints.{Prints};
ghost use Rattle.iv_run.specs.Inside.Shots.{ordered_other, text_beside, view_beside};
ghost use Rattle.iv_run.specs.Shots.{Shows, shown};

use crate::exit_reason::CliFault;
use crate::run_files::{Inputs, RunFiles};
use iv_args::Plan;
use iv_bytes::{Buffered, Sink};
use iv_places::{HeldColumns, Places};
use iv_view::{Available, KeptView, View, ViewFault};
use std::alloc::{AllocError, Allocator};

/// Whether the rows of a view depend on nothing of a record except its interval.
fn is_of_intervals(view: &KeptView) -> bool
    ensures { result ≡ true → IsOfIntervals view.now }
{
    match view {
        KeptView::Merge(options) => options.is_by_intervals(),
        KeptView::Cluster(_) => false,
        KeptView::Complement { .. } | KeptView::Genomecov(_) => true,
    }
}

/// The columns that a run of one subcommand needs of its records: the interval if its rows depend on nothing else, or else all.
pub fn columns_for<A: Allocator + Copy>(plan: &Plan<'_, A>) -> HeldColumns
    ensures { AreEnough result plan.now.view }
{
    let Ok(View::Kept(view)) = plan.view() else {
        return HeldColumns::All;
    };
    if is_of_intervals(&view) {
        HeldColumns::Interval
    } else {
        HeldColumns::All
    }
}

/// The records of a second file in the order of a track; none without one.
fn sorted_or_none<A: Allocator + Copy>(
    alloc: A,
    second: Option<Places<A>>,
) -> Result<Places<A>, AllocError>
    ensures records { IfOk result (λ places. places.records ≡ ordered_other second) }
    ensures order { IfOk result (λ places. AreInOrder places.records) }
{
    let Some(mut places) = second else {
        return Ok(Places::empty(alloc));
    };
    places.sort(alloc)?;
    Ok(places)
}

impl<A: Allocator + Copy> RunFiles<A> {
    /// The view of a plan, beside these files and at the width of the first one's records.
    ///
    /// # Errors
    ///
    /// A fault of the view's arguments, which only the files show.
    fn view(&self, plan: &Plan<'_, A>) -> Result<View, ViewFault>
        ensures { result ≡ view_beside self.now plan.now.view }
    {
        let view = plan.view()?;
        view.narrowed(Available {
            width: self.first.width(),
            second: self.second.is_some(),
            fasta: self.fasta.is_some(),
        })
    }

    /// Prints the text of a view of these files through one buffer.
    ///
    /// # Errors
    ///
    /// `Memory`, and then nothing was printed. `Output`, and then a prefix of the text was.
    fn print<S: Sink>(self, alloc: A, view: View, sink: &mut S) -> Result<(), CliFault>
        ensures { Prints (S.state sink.old) (S.state sink.new) result (text_beside self view) }
    {
        let mut buffer = Buffered::new(sink);
        self.put(alloc, view, &mut buffer)?;
        buffer.finish()?;
        Ok(())
    }

    /// Puts the text of a view, for the records of both files in the order of a track.
    ///
    /// # Errors
    ///
    /// `Memory`, and then nothing was put. `Output`, and then a prefix of the text was.
    fn put<S: Sink>(self, alloc: A, view: View, sink: &mut S) -> Result<(), CliFault>
        ensures text { Prints (S.state sink.old) (S.state sink.new) result (text_beside self view) }
        ensures alone { result ≡ Err CliFault.Memory → sink.new ≡ sink.old }
    {
        let RunFiles {
            genome,
            first: mut held,
            second,
            fasta,
            ..
        } = self;
        held.sort(alloc)?;
        let second = sorted_or_none(alloc, second)?;
        view.print_from(alloc, held.records(), second, fasta.as_ref(), &genome, sink)??;
        Ok(())
    }
}

/// Prints the view of a plan, of sound files of which enough columns are held: all of its text, and nothing else.
///
/// # Errors
///
/// As of [`shot`], except that no file is damaged.
pub fn shot_of_held<A: Allocator + Copy, S: Sink>(
    alloc: A,
    plan: &Plan<'_, A>,
    files: RunFiles<A>,
    sink: &mut S,
) -> Result<(), CliFault>
    ensures { (columns : HeldColumns) (wanted : Wanted) (sizes first : List ℕ) (second fasta_text : Option (List ℕ)) (limit : ℕ) → AreEnough columns plan.now.view
        → Reports columns wanted (Ok files) (parsed plan.now.width sizes first second fasta_text limit)
        → AreWanted wanted files.first.records → Shows (S.state sink.old) (S.state sink.new) result (shown plan.now sizes first second fasta_text limit) }
{
    let view = files.view(plan)?;
    files.print(alloc, view, sink)
}

/// Prints what the plan's subcommand shows of the files, given their bytes: all of it, and nothing else.
///
/// `bases` are the bytes of the FASTA file, if the plan names one; they are taken.
/// All memory is allocated before the first byte is printed.
///
/// # Errors
///
/// The fault of the first damaged file; then, with its number, a fault of the subcommand's options that the width of the
/// records shows; `Memory`. For all of these nothing was printed. `Output`, and then a prefix was.
pub fn shot<A: Allocator + Copy, S: Sink>(
    alloc: A,
    plan: &Plan<'_, A>,
    inputs: &Inputs<'_>,
    bases: Option<Vec<u8, A>>,
    limit: u32,
    sink: &mut S,
) -> Result<(), CliFault>
    ensures { Shows (S.state sink.old) (S.state sink.new) result
        (shown plan.now inputs.now.sizes.now inputs.now.first.now (option_copied inputs.now.other) (option_map (λ text. text.items) bases) limit) }
{
    let files = RunFiles::of_inputs(alloc, plan, inputs, bases, limit, columns_for(plan))?;
    shot_of_held(alloc, plan, files, sink)
}
