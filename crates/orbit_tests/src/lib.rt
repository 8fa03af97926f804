//! Tests of weeks, ephemerides and the issues in which they are received.
//!
//! A module for each library below: `gnss_week`, `nav_eph`, `nav_lists`, `periods`,
//! `slot_assembly`, `nav_vectors`. The expected values come from
//! outside: from the interface documents, or from programs written apart from these libraries.
#![tactic(auto)]

#[cfg(test)]
mod captures;
#[cfg(test)]
mod covers;
#[cfg(test)]
mod ephemerides;
#[cfg(test)]
mod laws;
#[cfg(test)]
mod merges;
#[cfg(test)]
mod parts;
#[cfg(test)]
mod period_rows;
#[cfg(test)]
mod runs;
#[cfg(test)]
mod samples;
#[cfg(test)]
mod slots;
#[cfg(test)]
mod weeks;
