//! Pages and words of the Galileo I/NAV message (Galileo OS SIS ICD, 4.3).
//!
//! Pages of the Galileo I/NAV message, as even and odd page parts (Galileo OS SIS ICD, 4.3.2).
//!
//! A nominal page is sent in two parts of 120 bits, the even part and one second later the odd
//! part. Together they carry a word of 128 bits, protected by a CRC-24Q in the odd part.
//!
//! - [`read_half`] and [`write_half`] read and write a page part ([`Half`]);
//! - [`join`] gives the word of two page parts, [`split`] the page parts of a word;
//! - [`Halves`] takes the received page parts in any order and gives each word as soon as both its
//!   parts are there ([`Joined`]).
//!
//! ```rust
//! use inav::{HalfKind, join, read_half, split, write_half};
//! use nav_bits::Bits;
//!
//! let word = Bits::from_bytes([4, 5, 0, 0, 0, 0, 0, 0, 0, 0, 0, 0, 0, 0, 0, 0]);
//! let (even, odd) = split(&word);
//! assert!(rt; odd.kind() == HalfKind::Odd);
//! assert!(rt; read_half(&write_half(&even)) == Ok(even));
//! assert!(rt; join(&even, &odd) == Some(word));
//! ```
//!
//! Reading and writing words of the Galileo I/NAV message (Galileo OS SIS ICD, 4.3.5).
//!
//! A word has 128 bits; the first six are its type. Word types 1 to 4 carry the ephemeris and clock
//! parameters, word type 5 ionosphere, BGD, signal health, data validity, week number and TOW.
//!
//! - [`read_word`] gives the parts of a word, or the first error in it ([`WordFault`]);
//! - [`write_word1`] to [`write_word5`] give the bits of a word.
//!
//! ```rust
//! use inav::{WordFault, read_word};
//! use nav_bits::Bits;
//! use nav_eph::{Sat, System};
//!
//! let sat = Sat::new(System::Gal, 11).ok_or("a satellite")?;
//! let read = read_word(&Bits::zero(), sat, 0);
//! assert!(rt; read == Err(WordFault::OtherWord { number: 0 }));
//! ```
#![tactic(auto)]

mod fault;
mod half;
mod halves;
mod joined;
mod joining;
mod keys;
mod laws;
mod numbers;
mod page;
mod parts;
mod ranges;
mod read;
mod second;
mod seconds;
mod signal;
mod word;
mod word1;
mod word2;
mod word3;
mod word4;
mod word5;
mod word_fault;
mod word_laws;
mod write;

pub use crate::fault::HalfFault;
pub use crate::half::{Half, HalfKind, read_half, write_half};
pub use crate::halves::Halves;
pub use crate::joined::Joined;
pub use crate::laws::{
    halves_are_decided, halves_are_read_again, halves_are_the_functions, one_list_of_words,
    parts_are_their_bits, right_crc_is_decided, split_is_a_word, words_are_the_function,
    words_received_with_one_more,
};
pub use crate::page::{join, split};
pub use crate::parts::WordParts;
pub use crate::read::read_word;
pub use crate::word::Word;
pub use crate::word_fault::WordFault;
pub use crate::word_laws::{
    read_word1_is_written, read_word2_is_written, read_word3_is_written, read_word4_is_written,
    read_word5_is_written, refused_by_the_first_fault, word_bytes, word_parts,
    words_are_the_functions, written_word1_is_read, written_word2_is_read, written_word3_is_read,
    written_word4_is_read, written_word5_is_read,
};
pub use crate::word1::Word1;
pub use crate::word2::Word2;
pub use crate::word3::Word3;
pub use crate::word4::Word4;
pub use crate::word5::Word5;
pub use crate::write::{write_word1, write_word2, write_word3, write_word4, write_word5};
