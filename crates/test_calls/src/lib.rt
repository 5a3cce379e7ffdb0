//! Tests of public calls: answers, steps, limits and pieces, and a real size of each call. Examples of rows and messages are in
//! `tests/`, and what fails on purpose is in `test_refused`.
#![tactic(auto)]

#[cfg(test)]
mod endings;
#[cfg(test)]
mod fixtures;
#[cfg(test)]
mod kept_states;
#[cfg(test)]
mod large_sessions;
#[cfg(test)]
mod ledgers;
#[cfg(test)]
mod patterns;
#[cfg(test)]
mod pieces;
#[cfg(test)]
mod plans;
#[cfg(test)]
mod reading;
#[cfg(test)]
mod records;
#[cfg(test)]
mod refused_lines;
#[cfg(test)]
mod runs;
#[cfg(test)]
mod scripts;
#[cfg(test)]
mod second;
#[cfg(test)]
mod sequences;
#[cfg(test)]
mod session_steps;
#[cfg(test)]
mod sessions;
#[cfg(test)]
mod summaries;
#[cfg(test)]
mod tracks;
#[cfg(test)]
mod view_words;
