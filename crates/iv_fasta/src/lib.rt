//! The FASTA file of a session or a run, and the rows of getfasta.
#![tactic(auto)]

mod base_counts;
mod fasta;
mod fasta_draft;
mod fasta_reader;
mod header_lines;
mod held_sequences;
mod lemmas;
mod rows;

pub use fasta::Fasta;
pub use fasta_reader::FastaReader;
pub use lemmas::{fasta_or_first_fault, joined_lines_are_a_sequence, wanted_rows_are_the_same};
pub use rows::{FastaOutput, complement, put_fasta};
