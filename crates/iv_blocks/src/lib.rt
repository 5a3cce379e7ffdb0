//! Blocks of records, and the rows of merge, cluster and complement: from blocks that are kept under edits, or in one sweep over
//! sorted records.
#![tactic(auto)]

mod block_cursor;
mod block_ledger;
mod blocks;
mod cluster;
mod complement;
mod entries;
mod group;
mod joined_blocks;
mod kept_block;
mod lemmas;
mod merge;
mod merge_sweep;
mod options;
mod repair;
mod side_records;

pub use blocks::Blocks;
pub use cluster::put_cluster;
pub use complement::put_complement;
pub use lemmas::{gaps_are_maximal, numbers_are_of_blocks};
pub use merge_sweep::{MergeSweep, put_merge};
pub use options::{BlockOptions, Summaries};
