//! The track: records in order with their copies, in an ordered map that counts its searches, changes and walks.
#![tactic(auto)]

mod by_rest;
mod counted;
mod lemmas;
mod length_classes;
mod region;
mod track;
mod track_records;

pub use iv_ledger::{Abbreviated, Ledger, Meter, Walk};
pub use lemmas::{one_record_added, one_record_removed};
pub use region::{Region, TrackHits};
pub use track::{EditFault, Track};
pub use track_records::{TrackEntries, TrackRecords};
