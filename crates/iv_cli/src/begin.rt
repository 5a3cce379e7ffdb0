//! The session that the files of a run begin.
ghost use Rattle.std.specs.Prelude.{◌≡◌, ◌≤◌, ◌⊎◌, Ok, Err, IfOk, IfErr};
ghost use Rattle.std.specs.Option.{option_copied, option_map};
ghost use Rattle.iv_track.specs.Tracked.{most_records};
ghost use Rattle.iv_workspace.specs.States.{begun};
ghost use Rattle.iv_cli.specs.Loading.{loaded};

use iv_args::Plan;
use iv_places::HeldColumns;
use iv_run::{CliFault, Inputs, RunFiles};
use iv_workspace::Session;
use std::alloc::Allocator;

/// The session that the files of a run begin, with no view open.
///
/// # Errors
///
/// An allocation failed.
pub fn begin_session<A: Allocator + Copy>(files: RunFiles<A>) -> Result<Session<A>, CliFault>
    requires { files.limit ≤ most_records }
    ensures ok { IfOk result (λ session. session ≡ begun files.genome files.first files.second files.bases files.limit) }
    ensures err { IfErr result (λ fault. fault ≡ CliFault.Memory) }
{
    let RunFiles {
        alloc,
        genome,
        first,
        second,
        fasta,
        limit,
    } = files;
    Ok(Session::from_places(alloc, genome, first, second, fasta, limit)?)
}

/// The session that the files of a run begin, with no view open, or the fault of the first damaged file, given the bytes of the files.
/// It is for callers outside this repository.
///
/// A BED file without a record has the width that the plan gives, and each may have at most `limit` records. `bases` are the bytes of
/// the FASTA file, if the plan names one; they are taken.
pub fn load<A: Allocator + Copy>(
    alloc: A,
    plan: &Plan<'_, A>,
    inputs: &Inputs<'_>,
    bases: Option<Vec<u8, A>>,
    limit: u32,
) -> Result<Session<A>, CliFault>
    requires { limit ≤ most_records }
    ensures ok { IfOk result (λ session.
        loaded plan.now.width inputs.now.sizes.now inputs.now.first.now (option_copied inputs.now.other) (option_map (λ text. text.items) bases) limit ≡ Ok session) }
    ensures err { IfErr result (λ fault. (fault ≡ CliFault.Memory) ⊎
        (loaded plan.now.width inputs.now.sizes.now inputs.now.first.now (option_copied inputs.now.other) (option_map (λ text. text.items) bases) limit ≡ Err fault)) }
{
    let files = RunFiles::of_inputs(alloc, plan, inputs, bases, limit, HeldColumns::All)?;
    begin_session(files)
}
