//! The arguments of a run: what is read of them so far, and what all of them ask for.
ghost use Rattle.std.specs.Prelude.{◌≡◌, ◌≤◌, ◌⊎◌, ◌∷◌, [], true, Some, None, IsSome, IfOk, IfErr, OnOk, map, length, drop};
ghost use Rattle.std.specs.Option.{option_copied, option_to_list};
ghost use Rattle.iv_view.specs.Arguments.{read_arguments};
ghost use Rattle.iv_args.specs.Arguments.{RunPlan, IsPlan, file_of, is_session, most_limit};
ghost use Rattle.iv_args.specs.Inside.Drafts.{Makes, are_view_arguments, begun_by, drafted, has_needed_files, limit_said, viewed, width_said, with_value};
ghost use Rattle.iv_lines.specs.Widths.{IsWidth};

use crate::subcommand::{RunOption, Subcommand};
use iv_lines::{Fault, read_number};
use iv_view::{View, ViewFault};
use std::alloc::{AllocError, Allocator, Global};
use std::marker::Model;

/// What a file of a run is for.
#[derive(Clone, Copy, Debug, PartialEq, Eq)]
pub enum Slot {
    /// The genome.
    Sizes,
    /// The records of the track.
    First,
    /// The second file of records.
    Other,
    /// The FASTA file: the bases of the sequences.
    Bases,
}

/// The width of a BED file without a record, if none is asked for.
const USUAL_WIDTH: u8 = 3;

/// The width that a value means: one digit from 3 to 6.
fn read_width(value: &[u8]) -> Option<u8>
    ensures { result ≡ width_said (value.now ∷ []) }
{
    if value == b"3".as_slice() {
        Some(3)
    } else if value == b"4".as_slice() {
        Some(4)
    } else if value == b"5".as_slice() {
        Some(5)
    } else if value == b"6".as_slice() {
        Some(6)
    } else {
        None
    }
}

/// How many records a file and how many lines a script may have, if no limit is given.
const USUAL_LIMIT: u32 = 4_000_000;

/// The greatest limit.
const MOST_LIMIT: u64 = 100_000_000;

/// The limit that a value means: a number from 1 to 100,000,000.
fn read_limit(value: &[u8]) -> Option<u32>
    ensures { result ≡ limit_said (value.now ∷ []) }
{
    let limit = read_number(value)?;
    if limit < 1 || limit > MOST_LIMIT {
        return None;
    }
    Some(limit as u32)
}

/// Gives an option its value, unless it has one.
fn give<'a>(option: &mut Option<&'a [u8]>, value: &'a [u8]) -> Result<(), Fault>
    ensures ok { OnOk result ((option_copied option.old ≡ None) × (option_copied option.new ≡ Some value.now)) }
    ensures err { IfErr result (λ fault. (fault ≡ Fault.Words) × IsSome (option_copied option.old)) }
{
    if option.is_some() {
        return Err(Fault::Words);
    }
    *option = Some(value);
    Ok(())
}

/// What is given so far: the values of the options, and the arguments of the view.
#[derive(Drop)]
struct PlanDraft<'a, A: Allocator + Copy = Global> {
    sizes: Option<&'a [u8]>,
    first: Option<&'a [u8]>,
    other: Option<&'a [u8]>,
    bases: Option<&'a [u8]>,
    width: Option<&'a [u8]>,
    limit: Option<&'a [u8]>,
    arguments: Vec<&'a [u8], A>,
}

impl<'a, A: Allocator + Copy> Model for PlanDraft<'a, A> {
    ghost use Rattle.std.specs.Prelude.{map};
    ghost use Rattle.std.specs.Option.{option_copied};
    ghost use Rattle.iv_args.specs.Inside.Drafts.{PartialPlan};

    ghost Value = { PartialPlan };

    ghost view = { λ d. record { sizes = option_copied d.sizes; first = option_copied d.first; other = option_copied d.other; bases = option_copied d.bases; width = option_copied d.width; limit = option_copied d.limit; view = map (λ argument. argument.now) d.arguments.items } };
}

impl<'a, A: Allocator + Copy> PlanDraft<'a, A> {
    /// What is given once the first argument is read.
    fn new(alloc: A, run: Subcommand, argument: &'a [u8]) -> Result<Self, Fault>
        ensures ok { IfOk result (λ draft. draft ≡ begun_by run argument.now) }
        ensures err { IfErr result (λ fault. fault ≡ Fault.NoMemory) }
    {
        let mut draft = PlanDraft {
            sizes: None,
            first: None,
            other: None,
            bases: None,
            width: None,
            limit: None,
            arguments: Vec::new(alloc),
        };
        if run != Subcommand::Session {
            draft.keep(&[argument])?;
        }
        Ok(draft)
    }

    /// Keeps more arguments of the view.
    fn keep(&mut self, arguments: &[&'a [u8]]) -> Result<(), AllocError>
        ensures { OnOk result (self.new ≡ viewed (map (λ argument. argument.now) arguments.now) self.old) }
    {
        self.arguments.extend_from_slice(arguments)?;
        Ok(())
    }

    /// Takes all arguments after the first.
    fn take_all(&mut self, run: Subcommand, arguments: &[&'a [u8]]) -> Result<(), Fault>
        ensures ok { OnOk result (drafted run (map (λ argument. argument.now) arguments.now) self.old ≡ Some self.new) }
        ensures err { IfErr result (λ fault. (fault ≡ Fault.NoMemory)
            ⊎ ((fault ≡ Fault.Words) × (drafted run (map (λ argument. argument.now) arguments.now) self.old ≡ None))) }
    {
        let mut rest = arguments;
        'arguments: while let [argument, others @ ..] = rest {
            let values = self.take(run, argument, others)?;
            rest = &others[values..];
        }
        Ok(())
    }

    /// Takes one more argument, and the first of the others if that is its value. It answers how many of the others it has
    /// taken: one or none.
    fn take(
        &mut self,
        run: Subcommand,
        argument: &'a [u8],
        others: &[&'a [u8]],
    ) -> Result<usize, Fault>
        ensures ok { IfOk result (λ values. drafted run (argument.now ∷ map (λ argument. argument.now) others.now) self.old
            ≡ drafted run (map (λ argument. argument.now) (drop values others.now)) self.new) }
        ensures some { IfOk result (λ values. (values ≤ 1) × (values ≤ length others.now)) }
        ensures err { IfErr result (λ fault. (fault ≡ Fault.NoMemory)
            ⊎ ((fault ≡ Fault.Words) × (drafted run (argument.now ∷ map (λ argument. argument.now) others.now) self.old ≡ None))) }
    {
        let Some(value) = others.first() else {
            return self.take_last(run, argument);
        };
        match run.option(argument) {
            Some(option) => {
                self.set(option, value)?;
                Ok(1)
            }
            None if run.takes_value(argument) => {
                self.keep(&[argument, value])?;
                Ok(1)
            }
            None => {
                self.keep(&[argument])?;
                Ok(0)
            }
        }
    }

    /// Takes the last argument. No others are taken.
    fn take_last(&mut self, run: Subcommand, argument: &'a [u8]) -> Result<usize, Fault>
        ensures ok { IfOk result (λ values. (values ≡ 0) × (drafted run (argument.now ∷ []) self.old ≡ Some self.new)) }
        ensures err { IfErr result (λ fault. (fault ≡ Fault.NoMemory)
            ⊎ ((fault ≡ Fault.Words) × (drafted run (argument.now ∷ []) self.old ≡ None))) }
    {
        if run.option(argument).is_some() {
            return Err(Fault::Words);
        }
        self.keep(&[argument])?;
        Ok(0)
    }

    /// Sets the value of an option.
    fn set(&mut self, option: RunOption, value: &'a [u8]) -> Result<(), Fault>
        ensures ok { OnOk result (with_value option value.now self.old ≡ Some self.new) }
        ensures err { IfErr result (λ fault. (fault ≡ Fault.Words) × (with_value option value.now self.old ≡ None)) }
    {
        match option {
            RunOption::Sizes => give(&mut self.sizes, value),
            RunOption::First => give(&mut self.first, value),
            RunOption::Other => give(&mut self.other, value),
            RunOption::Bases => give(&mut self.bases, value),
            RunOption::Width => give(&mut self.width, value),
            RunOption::Limit => give(&mut self.limit, value),
        }
    }

    /// Whether each file is named that this kind of run needs beside the genome and the records.
    fn has_needed(&self, run: Subcommand) -> bool
        ensures { result ≡ has_needed_files run self.now.other self.now.bases }
    {
        match run {
            Subcommand::Intersect | Subcommand::Subtract => self.other.is_some(),
            Subcommand::Getfasta => self.bases.is_some(),
            _ => true,
        }
    }

    /// What the arguments of the view ask for, for records of six columns beside both files.
    fn read_view(&self) -> Result<View, ViewFault>
        ensures { result ≡ read_arguments 6 true true self.now.view }
    {
        View::asked(self.arguments.as_slice())
    }

    /// Whether the arguments of the view are accepted, given what they ask for. A session has none.
    fn has_view(&self, run: Subcommand, view: Result<View, ViewFault>) -> bool
        requires { view ≡ read_arguments 6 true true self.now.view }
        ensures { result ≡ are_view_arguments run self.now.view }
    {
        match run {
            Subcommand::Session => self.arguments.is_empty(),
            _ => !matches!(view, Err(ViewFault::Words)),
        }
    }

    /// The width of a BED file without a record, 3 if none is given, and `None` if what is given isn't one.
    fn width(&self) -> Option<u8>
        ensures { result ≡ width_said (option_to_list self.now.width) }
    {
        match self.width {
            None => Some(USUAL_WIDTH),
            Some(value) => read_width(value),
        }
    }

    /// How many records a file and how many lines a script may have, 4,000,000 if no limit is given, and `None` if what is given
    /// isn't one.
    fn limit(&self) -> Option<u32>
        ensures { result ≡ limit_said (option_to_list self.now.limit) }
    {
        match self.limit {
            None => Some(USUAL_LIMIT),
            Some(value) => read_limit(value),
        }
    }
}

/// What the arguments after the program's name ask for.
#[derive(Drop)]
pub struct Plan<'a, A: Allocator + Copy = Global> {
    run: Subcommand,
    sizes: &'a [u8],
    first: &'a [u8],
    other: Option<&'a [u8]>,
    bases: Option<&'a [u8]>,
    width: u8,
    limit: u32,
    arguments: Vec<&'a [u8], A>,
    // What the arguments of the view ask for, for records of six columns beside both files.
    view: Result<View, ViewFault>,
}

impl<'a, A: Allocator + Copy> Model for Plan<'a, A> {
    ghost use Rattle.std.specs.Prelude.{◌≡◌, ◌≤◌, true, map};
    ghost use Rattle.std.specs.Option.{option_copied};
    ghost use Rattle.iv_view.specs.Arguments.{read_arguments};
    ghost use Rattle.iv_args.specs.Arguments.{RunPlan, most_limit};

    ghost Value = { RunPlan };

    ghost view = { λ p. record { run = p.run; sizes = p.sizes.now; first = p.first.now; other = option_copied p.other; bases = option_copied p.bases; width = p.width; limit = p.limit; view = map (λ argument. argument.now) p.arguments.items } };

    ghost invariant = { λ p. (3 ≤ p.width) × (p.width ≤ 6) × (p.limit ≤ most_limit) × (p.view ≡ read_arguments 6 true true (map (λ argument. argument.now) p.arguments.items)) };
}

/// The plan of what is given, if that makes one.
fn plan_of<'a, A: Allocator + Copy>(
    run: Subcommand,
    draft: PlanDraft<'a, A>,
) -> Result<Plan<'a, A>, Fault>
    ensures ok { IfOk result (λ plan. Makes run draft.entry plan) }
    ensures err { IfErr result (λ fault. (fault ≡ Fault.Words) × ((plan : RunPlan) → ¬ Makes run draft.entry plan)) }
{
    let view = draft.read_view();
    if !draft.has_needed(run) || !draft.has_view(run, view) {
        return Err(Fault::Words);
    }
    let (Some(sizes), Some(first)) = (draft.sizes, draft.first) else {
        return Err(Fault::Words);
    };
    let (Some(width), Some(limit)) = (draft.width(), draft.limit()) else {
        return Err(Fault::Words);
    };
    Ok(Plan {
        run,
        sizes,
        first,
        other: draft.other,
        bases: draft.bases,
        width,
        limit,
        arguments: draft.arguments,
        view,
    })
}

impl<'a, A: Allocator + Copy> Plan<'a, A> {
    /// What the arguments after the program's name ask for.
    ///
    /// The first is `session` or a subcommand. After it come, in any order and each once, the options that name files,
    /// `-width N` and `-limit N` if they are wanted, and the options of the subcommand: `-g GENOME` for all; `-i RECORDS`, except that
    /// `intersect` and `subtract` have `-a RECORDS -b RECORDS`, and `getfasta` has `-bed RECORDS -fi FASTA`; a session takes
    /// `-b` and `-fi` too if they are wanted. The argument after an option that takes a value is its value, whatever it is;
    /// the `N` of `-width` is one digit from 3 to 6, that of `-limit` a number from 1 to 100,000,000.
    ///
    /// # Errors
    ///
    /// `Words` (E16) for any other arguments, and `NoMemory` (E22). A fault of the subcommand's options that only the width of the records can
    /// show is not looked for here.
    pub fn read(alloc: A, arguments: &[&'a [u8]]) -> Result<Plan<'a, A>, Fault>
        ensures ok { IfOk result (λ plan. IsPlan (map (λ argument. argument.now) arguments.now) plan) }
        ensures err { IfErr result (λ fault. (fault ≡ Fault.NoMemory)
            ⊎ ((fault ≡ Fault.Words) × ((plan : RunPlan) → ¬ IsPlan (map (λ argument. argument.now) arguments.now) plan))) }
    {
        let Some((argument, rest)) = arguments.split_first() else {
            return Err(Fault::Words);
        };
        let Some(run) = Subcommand::of(argument) else {
            return Err(Fault::Words);
        };
        let mut draft = PlanDraft::new(alloc, run, argument)?;
        draft.take_all(run, rest)?;
        plan_of(run, draft)
    }

    /// The kind of run.
    /// It is for callers outside this repository.
    pub fn run(&self) -> Subcommand
        ensures { result ≡ self.now.run }
    {
        self.run
    }

    /// Whether a script is to be run: in a session, and in no subcommand.
    pub fn is_script(&self) -> bool
        ensures { result ≡ is_session self.now.run }
    {
        self.run == Subcommand::Session
    }

    /// The name of the genome file, as the arguments give it.
    pub fn sizes_file(&self) -> &'a [u8]
        ensures { result.now ≡ self.now.sizes }
    {
        self.sizes
    }

    /// The name of the file of the track's records, as the arguments give it.
    pub fn first_file(&self) -> &'a [u8]
        ensures { result.now ≡ self.now.first }
    {
        self.first
    }

    /// The name of a file, as the arguments give it.
    pub fn file(&self, slot: Slot) -> Option<&'a [u8]>
        ensures { option_copied result ≡ file_of self.now slot }
    {
        match slot {
            Slot::Sizes => Some(self.sizes),
            Slot::First => Some(self.first),
            Slot::Other => self.other,
            Slot::Bases => self.bases,
        }
    }

    /// The width of a BED file without a record, 3 to 6.
    pub fn width(&self) -> u8
        ensures value { result ≡ self.now.width }
        ensures known { IsWidth result }
    {
        self.width
    }

    /// How many records a file and how many lines a script may have.
    pub fn limit(&self) -> u32
        ensures value { result ≡ self.now.limit }
        ensures known { result ≤ most_limit }
    {
        self.limit
    }

    /// The arguments of the view that is to be printed: the subcommand and its options, in their order. A session has none.
    /// It is for callers outside this repository.
    pub fn view_arguments(&self) -> &[&'a [u8]]
        ensures { map (λ argument. argument.now) result.now ≡ self.now.view }
    {
        self.arguments.as_slice()
    }

    /// The view that is to be printed, of records of six columns beside a second file and a FASTA file. A session has none.
    ///
    /// # Errors
    ///
    /// `Words` in a session.
    pub fn view(&self) -> Result<View, ViewFault>
        ensures { result ≡ read_arguments 6 true true self.now.view }
    {
        self.view
    }
}
