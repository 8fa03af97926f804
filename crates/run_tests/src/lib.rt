//! Tests of the runs, each over memory: what a capture's lines yield, captures, streams, navigation
//! files, archives of them, those of all systems, generated captures, and the captures that are
//! sent.
//!
//! They see what those crates hand out to everyone.
#![tactic(auto)]

#[cfg(test)]
mod archive_runs_tests;
#[cfg(test)]
mod bridge_engine_tests;
#[cfg(test)]
mod capture_log_tests;
#[cfg(test)]
mod capture_run_tests;
#[cfg(test)]
mod item_runs_tests;
#[cfg(test)]
mod page_send_tests;
#[cfg(test)]
mod seed_runs_tests;
#[cfg(test)]
mod send_runs_tests;
#[cfg(test)]
mod system_file_tests;
#[cfg(test)]
mod times;
