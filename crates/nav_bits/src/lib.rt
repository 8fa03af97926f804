//! Bit fields of navigation messages, and their checksum CRC-24Q.
//!
//! Bit fields of navigation messages: integers of fixed width, and their encoding in bytes.
//!
//! Broadcast navigation messages and correction messages are runs of bits, sent with the most
//! significant bit first: the parameters of a subframe (IS-GPS-200, 20.3.3), of a page (Galileo OS
//! SIS ICD, 4.3) and of a message (RTCM 10403.3, 3.3) are unsigned or in two's complement, some of
//! them split into two bit ranges. This crate has
//!
//! - [`U`] and [`S`], integers of `W` bits, unsigned and in two's complement;
//! - [`Bits`], bytes seen as bits, with reads and writes of values at any bit offset;
//! - [`Layout`] and [`BitForm`], the contract of an encoding: unpacking gives what was packed, and
//!   packing changes no other bits;
//! - `packed` in the definitions, the bytes of a table's concatenated fields with reserved bits 0,
//!   and [`packed_are_the_only`], which states that no other bytes are so;
//! - [`put_numbers`], which writes a table of fields, and `join` and `split` of [`U`] and [`S`],
//!   for fields split into two bit ranges.
//!
//! ```rust
//! use nav_bits::{BitForm, Bits, S};
//!
//! let mut bits = Bits::<4>::zero();
//! let root: S<16> = S::from_bits(0xFFFE);
//! root.pack(&mut bits, 3);
//! let again: S<16> = BitForm::<4>::unpack(&bits, 3);
//! assert!(rt; again.value() == -2);
//! ```
//!
//! CRC-24Q, the cyclic redundancy check of RTCM frames and of Galileo I/NAV pages (RTCM 10403.3,
//! section 4; Galileo OS SIS ICD, section 5.1.9.4).
//!
//! A message is a polynomial over GF(2), its first bit the highest power. The CRC is the remainder
//! of x^24 times it divided by the generator 0x1864CFB: initial value 0, no reflection, no final
//! XOR. Computed by tables, sixteen bytes at a time.
//!
//! ```rust
//! let crc = crate::crc_bytes(&[0xd3, 0, 0]);
//! assert!(rt; crc.value() == 0x47ea4b);
//! ```
#![tactic(auto)]

mod bit_offsets;
mod bits;
mod crc_laws;
mod far_tables;
mod fields;
mod laws;
mod layout;
mod message;
mod mover;
mod powers;
mod register;
mod shifts;
mod signed;
mod tables;
mod unsigned;

pub use crate::bit_offsets::number_in_bytes;
pub use crate::bits::Bits;
pub use crate::crc_laws::{
    bits_have_their_crc, bits_of_bytes_have_their_crc, crc_of_a_sum, crc_of_joined_bytes,
    every_polynomial_has_a_crc, one_crc, the_register_holds_the_crc,
};
pub use crate::fields::put_numbers;
pub use crate::laws::{
    append, bits_of_signed_numbers, byte, byte_lists, one_number_for_bits, one_put, one_split,
    packed_are_the_only, packed_stand, signed_numbers_fit,
};
pub use crate::layout::{BitForm, Layout};
pub use crate::message::{crc_bits, crc_bytes};
pub use crate::mover::Mover;
pub use crate::register::with_byte;
pub use crate::shifts::shifted;
pub use crate::signed::{S, sign_extended};
pub use crate::unsigned::U;
