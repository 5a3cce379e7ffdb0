//! The records of a BED file as places and the rests of their lines.
#![tactic(auto)]

mod order;
mod placed_records;
mod places;
mod rests;

pub use order::order_neighbors;
pub use placed_records::{Place, PlacedRecords};
pub use places::{HeldColumns, Places};
pub use rests::Rests;
