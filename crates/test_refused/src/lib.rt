//! The calls that allocate, each with every one of its allocations refused in turn, and devices that go wrong at each place: a row for
//! each.
#![tactic(auto)]

#[cfg(test)]
mod bad_files;
#[cfg(test)]
mod ledgers;
#[cfg(test)]
mod read_files;
#[cfg(test)]
mod refused_runs;
#[cfg(test)]
mod run_files;
#[cfg(test)]
mod run_rows;
#[cfg(test)]
mod runs;
#[cfg(test)]
mod session_files;
#[cfg(test)]
mod session_rows;
#[cfg(test)]
mod session_texts;
#[cfg(test)]
mod sessions;
#[cfg(test)]
mod std_devices;
#[cfg(test)]
mod tracks;
#[cfg(test)]
mod values;
#[cfg(test)]
mod wrong_devices;
