//! A session: a track of records that a curator corrects, with views of it kept open.
#![tactic(auto)]

mod fault;
mod lemmas;
mod session;
mod views;

pub use fault::{PrintFault, ResizeFault, SecondFault};
pub use lemmas::corrected_lengths_are_those_of_bases;
pub use session::{Accepted, Edit, Session, Target};
