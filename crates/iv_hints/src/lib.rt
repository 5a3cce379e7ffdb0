//! Hints: what is wrong and what to do, in one to three indented lines below the line of an ending or the message on a refused line.
//!
//! A hint is no promise. It is worked out from the arguments, the fronts of files, kept while they are read, and the refused line. What is
//! known of a mistake are `Facts`, and `Facts::put` puts the first row of the table (`rows.rt`) that is about it and whose tests hold.
#![tactic(auto)]

mod endings;
mod facts;
mod field;
mod files;
mod hint;
mod hints;
mod losses;
mod nearest;
mod refusals;
mod rows;
mod text;
mod vocabulary;
mod words;

pub use files::KeptSource;
pub use hint::Hint;
pub use hints::{Hints, Seen};
