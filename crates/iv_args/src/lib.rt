//! The arguments: what a run is to do, with which files, and what the program says about itself.
#![tactic(auto)]

mod help;
mod options;
mod plan;
mod subcommand;

pub use options::{OptionUsage, OptionValue, RUNS, RunUsage};
pub use plan::{Plan, Slot};
pub use subcommand::{Notice, Subcommand, no_option_twice, options_among_view_arguments};
