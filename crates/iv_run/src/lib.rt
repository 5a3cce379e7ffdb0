//! From the files of a run to their records and bases, or to the rows of one view; and how a run ends, with its exit status and its
//! line on standard error.
#![tactic(auto)]

mod exit_reason;
mod held_fasta;
mod run;
mod run_files;

pub use exit_reason::{CliFault, ExitReason, FileFault, status};
pub use run::{columns_for, shot, shot_of_held};
pub use run_files::{
    FilesReader, Inputs, RunFiles, TakesPieces, read_all, too_long_above_the_limit,
};
