//! Scripts of a session: the lines by which a curator corrects a track and prints its views.
#![tactic(auto)]

mod lemmas;
mod line;
mod request;
mod script;

pub use iv_depth::DepthOutput;
pub use iv_fasta::FastaOutput;
pub use iv_lines::Fault;
pub use iv_pair::{IntersectOutput, PairOutput};
pub use iv_track::EditFault;
pub use iv_view::{KeptView, View as ViewWords, ViewFault, WrittenView};
pub use iv_workspace::{Accepted, Edit, PrintFault, ResizeFault, SecondFault, Session, Target};
pub use lemmas::{first_over_is_first, sizes_are_of_lines, too_long_is_exact};
pub use script::{RunCause, RunFault, ScriptLimits, SeesRefusals, Summary, Unseen, run_script};
