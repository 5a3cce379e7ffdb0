//! The reader of BED files. Genome files and records, of `iv_lines`, and the sinks and sources of `iv_bytes` are re-exported.
#![tactic(auto)]

mod bed_file;
mod bed_reader;
mod lemmas;
mod record_reader;

pub use bed_file::BedFile;
pub use bed_reader::{BedLines, BedReader, is_skipped_line, width_for};
pub use iv_bytes::{
    Buffered, ByteQueue, MemSink, MemSource, ReadFault, Sink, Source, StdSink, StdSource,
    WriteFault, put_all, put_pieces,
};
pub use iv_lines::{
    BedRecord, ContentSeed, Fault, Fields, Genome, Interval, LoadCause, LoadFault, MOST_LENGTH,
    NameHasher, NameMap, Record, RecordFault, RecordRef, RowBuffer, Strand, columns, fault_text,
    first_line_ends_at_feed, genome_or_first_fault, is_bad_name, last_line_ends_at_end, lines_of,
    load_text, one_length_changes, one_ordered_list, put_interval, put_line, put_numbered,
    put_record, put_row, read_digits, read_number, read_record, read_strand, split_first_column,
    split_line, strand_bytes,
};
pub use iv_places::HeldColumns;
pub use lemmas::bed_or_first_fault;
pub use record_reader::RecordReader;
