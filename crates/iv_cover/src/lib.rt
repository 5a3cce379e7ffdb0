//! What records cover: blocks, depth and runs of positions; summaries of their columns; and the contract of the states of
//! kept views.
#![tactic(auto)]

mod column;
mod kept;
mod lemmas;
mod number;
mod op;
mod record_walk;
mod result_texts;
mod summaries;
mod value;
mod values;

pub use column::{Column, ColumnSummary, asks_distinct};
pub use kept::Kept;
pub use lemmas::{
    blocks_start_after_gaps, blocks_stop_with_their_last_record, different_values_ascend,
    gaps_separate_blocks, records_belong_to_one_block, runs_are_the_tiling,
};
pub use number::ParsedNumber;
pub use op::Op;
pub use record_walk::{RecordWalk, ahead_again, look_ahead, next_of};
pub use result_texts::{results, results_in, summary};
pub use summaries::put_results;
pub use value::Value;
pub use values::Values;
