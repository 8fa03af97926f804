//! Tests of the crates that read and write texts: numbers of 19 columns, navigation files of RINEX
//! 4 and RINEX 3, the lines of lists and reports, and the arguments.
//!
//! They see what those crates hand out to everyone..
#![tactic(auto)]

#[cfg(test)]
mod carried_records_tests;
#[cfg(test)]
mod job_words_tests;
#[cfg(test)]
mod outlets_tests;
#[cfg(test)]
mod rinex3_tests;
#[cfg(test)]
mod rinex4_tests;
#[cfg(test)]
mod scaled_decimal_tests;
