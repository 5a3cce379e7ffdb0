//! The second file, and the rows of intersect and subtract: from tracks, or in one sweep over records of two files. The FASTA file of
//! `iv_fasta` is re-exported.
#![tactic(auto)]

mod count_sweep;
mod hit_finder;
mod hits;
mod intersect;
mod lemmas;
mod lengths;
mod pair_rows;
mod pair_sweep;
mod second;
mod second_records;
mod subtract;

pub use hits::Hits;
pub use intersect::{Cross, IntersectOutput, put_intersect};
pub use iv_fasta::{Fasta, FastaOutput, FastaReader, complement, put_fasta};
pub use lemmas::{overlap_is_a_shared_position, uncovered_parts_are_maximal};
pub use pair_rows::{PairOutput, print_pairs, put_pair, put_pair_rows};
pub use pair_sweep::{PairSweep, join_beside, needs_cover_alone, print_beside};
pub use second::Second;
pub use subtract::put_subtract;
