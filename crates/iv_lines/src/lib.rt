//! Lines, numbers, names, records and genome files.
#![tactic(auto)]

mod bed_record;
mod fault;
mod genome;
mod interval;
mod lemmas;
mod lines;
mod name_map;
mod number;
mod record;
mod record_ref;
mod record_text;
mod row_buffer;

pub use bed_record::BedRecord;
pub use fault::{Fault, LoadCause, LoadFault, RecordFault, fault_text, load_text};
pub use genome::{Genome, MOST_LENGTH, is_bad_name};
pub use interval::Interval;
pub use lemmas::{
    first_line_ends_at_feed, genome_or_first_fault, last_line_ends_at_end, one_length_changes,
    one_ordered_list,
};
pub use lines::{
    Fields, after_byte, columns, columns_after, cut_first_column, lines_of, split_first_column,
    split_line,
};
pub use name_map::{ContentSeed, NameHasher, NameMap};
pub use number::{read_digits, read_number};
pub use record::Record;
pub use record_ref::{RecordRef, Strand, compare_rests, name_of_rest, read_record, read_strand};
pub use record_text::{put_line, put_numbered, put_record, put_row, strand_bytes};
pub use row_buffer::{RowBuffer, put_interval};
