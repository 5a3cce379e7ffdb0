//! An ordered map that counts its calls, and holds the order of its keys.
#![tactic(auto)]

mod builder;
mod entry_index;
mod ledger;
mod meter;
mod order;
mod starts;
mod walk;

pub use builder::LedgerBuilder;
pub use ledger::Ledger;
pub use meter::Meter;
pub use order::{Abbreviated, Keeps, Lends, Natural, Order, Seeks};
pub use walk::Walk;
