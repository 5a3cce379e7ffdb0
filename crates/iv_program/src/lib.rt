//! The whole program: what a run does by its arguments with files, an input, an output and messages, and with which status it ends.
#![tactic(auto)]

mod files;
mod memory;
mod program;
mod script_run;

pub use files::{InputFiles, each_is_opened_once};
pub use iv_session::{SeesRefusals, Unseen};
pub use memory::{MemFiles, NamedBytes};
pub use program::{
    Ended, done_is_all, one_plan_at_most, report, run_program, views_depend_on_bytes_alone,
};
