ghost use Rattle.std.specs.Prelude.{◌≡◌, IfOk};
ghost use Rattle.sent_captures.specs.Capture.{IsCapture};
ghost use Rattle.sent_captures.specs.Text.{capture_text};

use crate::sats::Sats;
use crate::seed_lines::push_lines;
use crate::senders::senders_of;
use crate::sending::order_of_lines;
use nav_eph::RefWeek;
use std::alloc::{AllocError, Global};

// The greatest number of bytes of the lines of one GPS and one Galileo satellite: 605 lines of 88
// bytes and 7,260 of 44.
const ROOM: usize = 605 * 88 + 7260 * 44;

/// Generates a capture of one hour in the week `r`: the subframes of GPS satellites 1 to `sats` and
/// the page parts of Galileo satellites 1 to `sats` on E1-B and E5b, with values that are random,
/// from the seed.
///
/// It has `NAVCAP 1` and then `7,865 sats` lines, about 370,000 bytes for each of `sats`. Each
/// satellite sends one ephemeris of one issue, and all those of a system the same ionosphere. The
/// lines come in blocks of 16, each in reversed order of time; at the end those of the first 30
/// seconds are repeated in order.
///
/// `AllocError` where memory runs out.
pub fn make_capture(alloc: Global, seed: u32, sats: Sats, r: RefWeek) -> Result<Vec<u8>, AllocError>
    ensures capture { IfOk result (λ text. IsCapture seed sats r text.items) }
    ensures text { IfOk result (λ text. text.items ≡ capture_text seed sats r) }
{
    let count = sats.value();
    let senders = senders_of(alloc, seed, count, r)?;
    let order = order_of_lines(alloc, count)?;
    let mut text = Vec::with_capacity(alloc, 9 + ROOM * usize::from(count))?;
    text.extend_from_slice(b"NAVCAP 1\n")?;
    push_lines(&senders, order.as_slice(), &mut text)?;
    Ok(text)
}
