//! The views of a track: the arguments that ask for one, their faults, and the text that each means.
#![tactic(auto)]

mod flags;
mod kept_state;
mod lemmas;
mod merge;
mod view;
mod words;
mod written_view;

pub use kept_state::{KeptState, StateKey};
pub use lemmas::{
    arguments_are_options, no_option_twice, options_in_any_order, records_are_read_again,
};
pub use view::{Available, KeptView, View, ViewFault};
pub use words::Words;
pub use written_view::WrittenView;
