//! The options of the views whose options are flags alone: each shows other rows.
ghost use Rattle.std.specs.Prelude.{◌≡◌, ◌∷◌, [], codes, map};
ghost use Rattle.std.specs.Option.{option_map};
ghost use Rattle.std.specs.Str.{bytes_eq};
ghost use Rattle.iv_pair.specs.declared.pair_rows.PairOutput.TheVariants.{Subtract};
ghost use Rattle.iv_view.specs.Flags.{only_flag as flag_alone, beside_flag, genomecov_rows, intersect_said, fasta_said};
ghost use Rattle.iv_view.specs.declared.view.KeptView.TheVariants.{Complement};

use crate::view::KeptView;
use iv_depth::DepthOutput;
use iv_fasta::FastaOutput;
use iv_pair::{IntersectOutput, PairOutput};

/// The view that the arguments after `complement` ask for: with `-L` only sequences with a record are shown.
pub(crate) fn read_complement(arguments: &[&[u8]]) -> Option<KeptView>
    ensures { result ≡ option_map Complement (flag_alone (codes "-L") (map (λ argument. argument.now) arguments.now)) }
{
    let limited = only_flag(b"-L", arguments)?;
    Some(KeptView::Complement { limited })
}

/// The rows that the arguments after `genomecov` ask for: `-bg`, `-bga` or `-d`.
pub(crate) fn read_genomecov(arguments: &[&[u8]]) -> Option<DepthOutput>
    ensures { result ≡ genomecov_rows (map (λ argument. argument.now) arguments.now) }
{
    match arguments {
        [option] => depth_rows_of(option),
        _ => None,
    }
}

/// The rows that an option asks for.
fn depth_rows_of(option: &[u8]) -> Option<DepthOutput>
    ensures { result ≡ genomecov_rows (option.now ∷ []) }
{
    if option == b"-bg".as_slice() {
        Some(DepthOutput::Covered)
    } else if option == b"-bga".as_slice() {
        Some(DepthOutput::All)
    } else if option == b"-d".as_slice() {
        Some(DepthOutput::EachPosition)
    } else {
        None
    }
}

/// The rows that the arguments after `intersect` ask for: `-wa`, and one of `-wb`, `-u`, `-v` and `-c`, in any order, or one
/// of the two, or neither.
pub(crate) fn read_intersect(arguments: &[&[u8]]) -> Option<IntersectOutput>
    ensures { result ≡ beside_flag (codes "-wa") intersect_said (map (λ argument. argument.now) arguments.now) }
{
    match arguments {
        [] => Some(IntersectOutput::Shared),
        [argument] if is_wa(argument) => Some(IntersectOutput::Whole),
        [option] => intersect_rows_of(option, false),
        [argument, option] if is_wa(argument) => intersect_rows_of(option, true),
        [option, argument] if is_wa(argument) => intersect_rows_of(option, true),
        _ => None,
    }
}

/// Whether an argument is the option that shows whole records.
fn is_wa(argument: &[u8]) -> bool
    ensures { result ≡ bytes_eq argument.now (codes "-wa") }
{
    argument == b"-wa".as_slice()
}

/// The rows that another option asks for, beside `-wa` or without it.
fn intersect_rows_of(option: &[u8], whole: bool) -> Option<IntersectOutput>
    ensures { result ≡ intersect_said whole (option.now ∷ []) }
{
    if option == b"-wb".as_slice() {
        if whole {
            Some(IntersectOutput::WholeAndHit)
        } else {
            Some(IntersectOutput::SharedAndHit)
        }
    } else if option == b"-u".as_slice() {
        Some(IntersectOutput::IfHit)
    } else if option == b"-v".as_slice() {
        Some(IntersectOutput::IfNoHit)
    } else if option == b"-c".as_slice() {
        Some(IntersectOutput::Count)
    } else {
        None
    }
}

/// The rows that the arguments after `subtract` ask for: with `-A` only whole records are taken away.
pub(crate) fn read_subtract(arguments: &[&[u8]]) -> Option<PairOutput>
    ensures { result ≡ option_map Subtract (flag_alone (codes "-A") (map (λ argument. argument.now) arguments.now)) }
{
    let whole = only_flag(b"-A", arguments)?;
    Some(PairOutput::Subtract { whole })
}

/// Whether the arguments are this flag alone, or nothing.
fn only_flag(flag: &[u8], arguments: &[&[u8]]) -> Option<bool>
    ensures { result ≡ flag_alone flag.now (map (λ argument. argument.now) arguments.now) }
{
    match arguments {
        [] => Some(false),
        [argument] if *argument == flag => Some(true),
        _ => None,
    }
}

/// The rows that the arguments after `getfasta` ask for: `-s` and `-tab`, in any order, or one of the two, or neither.
pub(crate) fn read_getfasta(arguments: &[&[u8]]) -> Option<FastaOutput>
    ensures { result ≡ beside_flag (codes "-s") fasta_said (map (λ argument. argument.now) arguments.now) }
{
    match arguments {
        [] => Some(FastaOutput {
            stranded: false,
            tab: false,
        }),
        [argument] if is_s(argument) => Some(FastaOutput {
            stranded: true,
            tab: false,
        }),
        [option] => fasta_rows_of(option, false),
        [argument, option] if is_s(argument) => fasta_rows_of(option, true),
        [option, argument] if is_s(argument) => fasta_rows_of(option, true),
        _ => None,
    }
}

/// Whether an argument is the option that shows strands.
fn is_s(argument: &[u8]) -> bool
    ensures { result ≡ bytes_eq argument.now (codes "-s") }
{
    argument == b"-s".as_slice()
}

/// The rows that another option asks for, beside `-s` or without it.
fn fasta_rows_of(option: &[u8], stranded: bool) -> Option<FastaOutput>
    ensures { result ≡ fasta_said stranded (option.now ∷ []) }
{
    if option == b"-tab".as_slice() {
        Some(FastaOutput {
            stranded,
            tab: true,
        })
    } else {
        None
    }
}
