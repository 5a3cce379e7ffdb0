//! The kinds of run, and what an argument is in each; and what the program says about itself.
ghost use Rattle.std.specs.Prelude.{◌≡◌, ◌≢◌, ◌↔◌, ◌++◌, ◌∷◌, [], ℕ, List, Some, All, ◌||◌, codes, map};
ghost use Rattle.std.specs.Map.{lookup};
ghost use Rattle.std.specs.Str.{bytes_eq};
ghost use Rattle.iv_args.specs.Inside.Pieces.{Piece, IsPiece, piece_arguments};
ghost use Rattle.iv_args.specs.Arguments.{IsPlan, RunPlan, run_of, file_options, option_of, takes_value as value_follows};
ghost use Rattle.iv_args.specs.declared.subcommand.RunOption.{RunOption};
ghost use Rattle.iv_args.specs.Notices.{notice_of};
ghost use Rattle.iv_args.specs.Texts.{notice_text};

use crate::help::{HELP, help_of};

/// A kind of run: a session, or a subcommand that prints its view of the files and ends.
#[derive(Clone, Copy, Debug, PartialEq, Eq)]
pub enum Subcommand {
    Session,
    Merge,
    Cluster,
    Complement,
    Genomecov,
    Intersect,
    Subtract,
    Getfasta,
    Records,
}

/// An option that names a file, or the one of the width or the limit.
#[derive(Clone, Copy)]
pub(crate) enum RunOption {
    /// The genome file.
    Sizes,
    /// The first file.
    First,
    /// The second file.
    Other,
    /// The FASTA file.
    Bases,
    /// The width of a BED file without a record.
    Width,
    /// How many records a file and how many lines a script may have.
    Limit,
}

impl Subcommand {
    /// The kind of run that an argument names: the first of the arguments after the program's name.
    pub fn of(argument: &[u8]) -> Option<Subcommand>
        ensures { result ≡ run_of argument.now }
    {
        if argument == b"session".as_slice() {
            Some(Subcommand::Session)
        } else if argument == b"merge".as_slice() {
            Some(Subcommand::Merge)
        } else if argument == b"cluster".as_slice() {
            Some(Subcommand::Cluster)
        } else if argument == b"complement".as_slice() {
            Some(Subcommand::Complement)
        } else if argument == b"genomecov".as_slice() {
            Some(Subcommand::Genomecov)
        } else if argument == b"intersect".as_slice() {
            Some(Subcommand::Intersect)
        } else if argument == b"subtract".as_slice() {
            Some(Subcommand::Subtract)
        } else if argument == b"getfasta".as_slice() {
            Some(Subcommand::Getfasta)
        } else if argument == b"records".as_slice() {
            Some(Subcommand::Records)
        } else {
            None
        }
    }

    /// The option that an argument is.
    pub(crate) fn option(self, argument: &[u8]) -> Option<RunOption>
        ensures { result ≡ option_of self argument.now }
    {
        if argument == b"-g".as_slice() {
            Some(RunOption::Sizes)
        } else if argument == b"-width".as_slice() {
            Some(RunOption::Width)
        } else if argument == b"-limit".as_slice() {
            Some(RunOption::Limit)
        } else {
            self.file_option(argument)
        }
    }

    /// The option that an argument is, if it names the file of the records, the second file or the FASTA file.
    fn file_option(self, argument: &[u8]) -> Option<RunOption>
        ensures { result ≡ lookup (bytes_eq argument.now) (file_options self) }
    {
        match self {
            Subcommand::Session if argument == b"-i".as_slice() => Some(RunOption::First),
            Subcommand::Session if argument == b"-b".as_slice() => Some(RunOption::Other),
            Subcommand::Session if argument == b"-fi".as_slice() => Some(RunOption::Bases),
            Subcommand::Session => None,
            Subcommand::Intersect | Subcommand::Subtract if argument == b"-a".as_slice() => {
                Some(RunOption::First)
            }
            Subcommand::Intersect | Subcommand::Subtract if argument == b"-b".as_slice() => {
                Some(RunOption::Other)
            }
            Subcommand::Intersect | Subcommand::Subtract => None,
            Subcommand::Getfasta if argument == b"-bed".as_slice() => Some(RunOption::First),
            Subcommand::Getfasta if argument == b"-fi".as_slice() => Some(RunOption::Bases),
            Subcommand::Getfasta => None,
            _ if argument == b"-i".as_slice() => Some(RunOption::First),
            _ => None,
        }
    }

    /// Whether an argument of the view has the next argument as its value.
    pub(crate) fn takes_value(self, argument: &[u8]) -> bool
        ensures { result ≡ value_follows self argument.now }
    {
        match self {
            Subcommand::Merge => {
                argument == b"-d".as_slice()
                    || argument == b"-c".as_slice()
                    || argument == b"-o".as_slice()
            }
            Subcommand::Cluster => argument == b"-d".as_slice(),
            _ => false,
        }
    }
}

/// Options that name files, the width or the limit may come in any order, also among the arguments of the view: two pieces next to each other
/// may be exchanged, unless both are of the view or both of one option.
pub fn options_among_view_arguments()
    ensures { (plan : RunPlan) (argument : List ℕ) (front : List Piece) (a b : Piece) (back : List (List ℕ)) → All (IsPiece plan.run) (front ++ a ∷ b ∷ []) → option_of plan.run a.argument ≢ option_of plan.run b.argument → (IsPlan (argument ∷ (piece_arguments (front ++ a ∷ b ∷ []) ++ back)) plan ↔ IsPlan (argument ∷ (piece_arguments (front ++ b ∷ a ∷ []) ++ back)) plan) }
{}

/// Arguments that give an option twice are no plan.
pub fn no_option_twice()
    ensures { (plan : RunPlan) (argument : List ℕ) (front middle : List Piece) (a b : Piece) (back : List (List ℕ)) (asked : RunOption) → All (IsPiece plan.run) (front ++ a ∷ (middle ++ b ∷ [])) → option_of plan.run a.argument ≡ Some asked → option_of plan.run b.argument ≡ Some asked → ¬ IsPlan (argument ∷ (piece_arguments (front ++ a ∷ (middle ++ b ∷ [])) ++ back)) plan }
{}

/// What the program can say about itself.
#[derive(Clone, Copy, Debug, PartialEq, Eq)]
pub enum Notice {
    /// How it is used.
    Help,
    /// How one kind of run is used.
    HelpOf(Subcommand),
    /// Its name and version, and what proved it.
    Version,
}

/// The program's name and version, and what proved it.
const VERSION: &[u8] = b"bedkeep 1.0.0
proved with rattle-kit-13f logic dac8208d650f15bf
";

/// Whether a first argument asks for help.
fn is_help_command(argument: &[u8]) -> bool
    ensures { result ≡ (bytes_eq argument.now (codes "--help") || bytes_eq argument.now (codes "help")) }
{
    argument == b"--help".as_slice() || argument == b"help".as_slice()
}

/// Whether an option asks for help.
fn is_help_option(argument: &[u8]) -> bool
    ensures { result ≡ (bytes_eq argument.now (codes "--help") || bytes_eq argument.now (codes "-h")) }
{
    argument == b"--help".as_slice() || argument == b"-h".as_slice()
}

impl Notice {
    /// The notice that the arguments after the program's name ask for.
    ///
    /// Help: `--help`, `-h` or `help` alone. Help on a subcommand or on `session`: its argument after `--help` or `help`, or
    /// before `--help` or `-h`. The version: `--version` alone.
    pub fn of(arguments: &[&[u8]]) -> Option<Notice>
        ensures { result ≡ notice_of (map (λ argument. argument.now) arguments.now) }
    {
        match arguments {
            [argument] if is_help_command(argument) || is_help_option(argument) => Some(
                Notice::Help,
            ),
            [argument] if *argument == b"--version".as_slice() => Some(Notice::Version),
            [argument, subject] if is_help_command(argument) => Subcommand::of(subject).map(
                Notice::HelpOf,
            ),
            [subject, argument] if is_help_option(argument) => Subcommand::of(subject).map(
                Notice::HelpOf,
            ),
            _ => None,
        }
    }

    /// Its text.
    pub fn text(self) -> &'static [u8]
        ensures { result.now ≡ notice_text self }
    {
        match self {
            Notice::Help => HELP,
            Notice::HelpOf(run) => help_of(run),
            Notice::Version => VERSION,
        }
    }
}
