//! Reading and writing subframes of the GPS LNAV message (IS-GPS-200, 20.3 and figure 20-1).
//!
//! A subframe has 300 bits, ten words of 30, with the TOW count (units of 6 s), the subframe ID and
//! a portion of the navigation data.
//!
//! - [`read_subframe`] gives the part that some bits encode, or the first error in them
//!   ([`LnavFault`]);
//! - [`write_subframe`] gives the bits of a [`SubframeOut`].
//!
//! Used are the clock (subframe 1), the orbit (subframes 2 and 3) and the ionosphere (page 18 of
//! subframe 4); other subframes and pages are rejected as [`LnavFault::Unused`].
//!
//! Parity of a word (20.3.5.2, table 20-XIV): [`check_word`] gives its source bits exactly if the
//! six parity equations hold, [`make_word`] makes the word of 24 source bits, and [`make_solved`]
//! the word of 22 that ends in two 0 bits, as words 2 and 10 of a subframe do.
//!
//! ```rust
//! use lnav_subframe::{LnavFault, SubframeOut, read_subframe, write_subframe};
//! use nav_bits::U;
//! use nav_eph::{Sat, System};
//!
//! let almanac = SubframeOut::Other { number: U::from_bits(5), page: U::from_bits(1) };
//! let bits = write_subframe(&almanac, U::from_bits(7));
//! let sat = Sat::new(System::Gps, 5).ok_or("a satellite")?;
//! let read = read_subframe(&bits, sat, 0);
//! assert!(rt; read == Err(LnavFault::Unused { number: 5, page: 1 }));
//! ```
#![tactic(auto)]

mod clock;
mod content;
mod fault;
mod head;
mod laws;
mod orbit;
mod out;
mod page18;
mod parity;
mod read;
mod word;
mod word_laws;
mod words;
mod write;

pub use crate::clock::Subframe1;
pub use crate::fault::LnavFault;
pub use crate::head::Head;
pub use crate::laws::{
    refused_by_the_first_fault, subframe_bytes_are_written, subframe_function, subframe_parts,
    subframes_are_the_function, written_is_read,
};
pub use crate::orbit::{Subframe2, Subframe3};
pub use crate::out::SubframeOut;
pub use crate::page18::Page18;
pub use crate::read::read_subframe;
pub use crate::word::{check_word, make_solved, make_word};
pub use crate::word_laws::{
    good_is_decided, made_function, one_choice, one_source, one_word, solved_function,
    source_function,
};
pub use crate::write::write_subframe;
