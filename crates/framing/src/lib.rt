//! Frames in streams of bytes: those of RTCM 10403.3, and the messages of receivers' logs (u-blox
//! UBX, Septentrio SBF).
//!
//! Frames of RTCM 10403.3 (the transport layer, section 4): writing one, reading one, and finding
//! them in a stream of bytes.
//!
//! A frame is the preamble D3, six reserved bits that are ignored, a length in ten bits, a payload
//! of that many bytes (0 to 1,023), and the CRC-24Q of all before it in three bytes, most
//! significant first. A frame may begin at each byte D3 of a stream: if the frame is complete and
//! its checksum right, the search continues after its end, else at the next byte.
//!
//! ```rust
//! let mut deframer = Deframer::new();
//! for byte in bytes {
//!     deframer.feed(*byte);
//!     while let Some(frame) = deframer.next_frame() {
//!         use_payload(frame.payload());
//!     }
//! }
//! deframer.finish();
//! while let Some(frame) = deframer.next_frame() {
//!     use_payload(frame.payload());
//! }
//! ```
//!
//! Messages in the byte stream of a receiver: UBX of u-blox, SBF of Septentrio, and any format
//! whose messages give their size in their first bytes.
//!
//! A message is searched for at each byte: if a complete message with the right checksum begins
//! there, the search continues after it, else one byte further. A format defines how messages
//! begin, their size and their checksum ([`Judge`]). This crate has
//!
//! - [`MessageDeframer`], which takes the bytes of a stream in any pieces and gives the messages in
//! them;
//! - theorems about messages of any format: at which offsets they are, and which are decided while
//!   more bytes may come;
//! - [`UbxJudge`]: the sync bytes B5 62, class, ID, a payload length of two bytes (low byte first),
//!   the payload, and the checksum of all bytes from class to payload: CK_A, the sum of the bytes,
//!   and CK_B, the sum of its running values, both modulo 256;
//! - [`SbfJudge`]: the sync bytes `$@`, a CRC, a block ID and the length of the complete block, two
//!   bytes each, low byte first, and the body. The length is at least 8 and a multiple of 4. The
//!   CRC covers all bytes after it: polynomial x^16 + x^12 + x^5 + 1, initial value 0, no
//!   reflection.
//!
//! ```rust
//! let mut deframer: UbxDeframer = UbxDeframer::new();
//! deframer.feed(&[0xb5, 0x62, 5, 1, 0, 0, 6, 0x11]);
//! while deframer.next_message() {
//!     use_payload(payload_of(deframer.message()));
//! }
//! ```
#![tactic(auto)]

mod body_mover;
mod deframer;
mod form;
mod frame;
mod judge;
mod laws;
mod message_deframer;
mod message_form;
mod message_laws;
mod sbf;
mod sbf_laws;
mod sbf_register;
mod sbf_states;
mod search;
mod states;
mod ubx;
mod ubx_blocks;
mod ubx_laws;
mod ubx_sums;
mod window;
mod writing;

pub use crate::deframer::Deframer;
pub use crate::frame::{Frame, frame_of};
pub use crate::judge::Judge;
pub use crate::laws::{
    decided_frames_stand_before_the_open_place, decided_frames_stay, frames_after_the_first,
    frames_are_at_the_chosen_places, frames_are_those_of_the_standard,
    frames_behind_a_written_frame, nothing_is_decided_while_bytes_wait, one_frame_is_next,
    written_frames_are_whole,
};
pub use crate::message_deframer::MessageDeframer;
pub use crate::message_laws::{
    decided_messages_stand_before_the_open_place, decided_messages_stay,
    decided_messages_stay_decided, headings_are_formats, messages_after_the_first,
    messages_are_at_the_chosen_places, no_message_is_decided_while_bytes_wait,
};
pub use crate::sbf::{SbfDeframer, SbfJudge};
pub use crate::sbf_laws::sbf_is_a_format;
pub use crate::ubx::{UbxDeframer, UbxJudge};
pub use crate::ubx_laws::{ubx_is_a_format, ubx_messages_are_those_of_the_field};
pub use crate::writing::write_frame;
