//! How many records cover each position: rows of depth, from changes of depth that are kept, or in one sweep over sorted records.
#![tactic(auto)]

mod change_cursor;
mod changes;
mod depth;
mod depth_rows;
mod depth_sweep;
mod edges;
mod lemmas;
mod region;

pub use depth::Depth;
pub use depth_rows::DepthOutput;
pub use depth_sweep::DepthSweep;
pub use lemmas::{covered_rows_hold_covered_positions, depth_rows_tile_a_sequence};
