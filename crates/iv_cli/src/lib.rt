//! The command line: the session that a run's files begin, and how the run of its script ends. It re-exports the arguments of a run,
//! what is done with its files, and how it ends.
#![tactic(auto)]

mod begin;
mod script_endings;

pub use begin::{begin_session, load};
pub use iv_args::{Notice, Plan, Slot, Subcommand};
pub use iv_lines::Fault;
pub use iv_run::{
    CliFault, ExitReason, FileFault, FilesReader, Inputs, RunFiles, columns_for, read_all, shot,
    status,
};
pub use script_endings::{ending_of_run, run_status};
