//! The messages of items.

ghost use Rattle.std.specs.Prelude.{◌≤◌, length};
ghost use Rattle.nav_io.specs.Writes.{Writes};
ghost use Rattle.framing.specs.Writing.{frame_bytes};
ghost use Rattle.streams.specs.ItemTexts.{rtcm_item};

use arrayvec::ArrayVec;
use framing::write_frame;
use nav_eph::NavItem;
use nav_io::{Failed, Sink};
use rtcm_eph::{write_1019, write_1046};

/// Appends the frame of an ephemeris to a sink: message 1019 or 1046 (RTCM 10403.3,
/// 3.5). For ionosphere parameters nothing is written.
#[tactic(auto, unfolding(crate::specs::ItemTexts::rtcm_item))]
pub fn write_message<T: Sink>(item: &NavItem, out: &mut T) -> Result<(), Failed>
    ensures { Writes (T.written out.old) (T.written out.new) (T.faults out.old) (T.faults out.new)
        result (rtcm_item item.now) }
{
    match item {
        NavItem::Gps(eph) => write_payload(write_1019(eph).bytes(), out),
        NavItem::Gal(eph) => write_payload(write_1046(eph).bytes(), out),
        NavItem::Ion(_) => Ok(()),
    }
}

/// Appends the frame of a payload (RTCM 10403.3, section 4).
///
/// # Errors
///
/// `Failed` only if the sink's count of errors rose in this call or is at its maximum; a prefix of
/// the frame was appended then.
pub fn write_payload<T: Sink>(payload: &[u8], out: &mut T) -> Result<(), Failed>
    requires { length payload.now ≤ 1023 }
    ensures { Writes (T.written out.old) (T.written out.new) (T.faults out.old) (T.faults out.new)
        result (frame_bytes payload.now) }
{
    let mut frame = ArrayVec::new();
    write_frame(payload, &mut frame);
    out.write(frame.as_slice())
}
