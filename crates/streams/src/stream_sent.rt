//! The messages that encode ephemerides read from payloads: mostly the payload is already that
//! message.

ghost use Rattle.std.specs.Prelude.{◌≡◌, ◌+◌, ◌*◌, length};
ghost use Rattle.nav_eph.specs.Ranges.{HasGalRanges, HasGpsRanges};
ghost use Rattle.nav_eph.specs.declared.items.NavItem.TheVariants.{Gal, Gps};
ghost use Rattle.rtcm_eph.specs.Writing.{bytes_1019, bytes_1046};
ghost use Rattle.streams.specs.Mirrors.{IsReadOf};

use nav_bits::Bits;
use nav_eph::{GalEph, GpsEph};
use rtcm_eph::{message_bytes, read_1019_is_sent, read_1046_is_sent, write_1019, write_1046};

// Each field of a GPS ephemeris fits its width in bits.
fn gps_ranges(e: GpsEph)
    ensures { HasGpsRanges e }
{}

// Each field of a Galileo ephemeris fits its width in bits.
fn gal_ranges(e: GalEph)
    ensures { HasGalRanges e }
{}

// The bits of these bytes.
fn bits_of<const N: usize>(bytes: &[u8]) -> Bits<N>
    requires { length bytes.now ≡ N }
    ensures { result ≡ bytes.now }
{
    let mut copied = [0; N];
    copied.copy_from_slice(bytes);
    Bits::from_bytes(copied)
}

// Message 1019 of an ephemeris read from a payload: the payload itself, if it has no further bytes.
pub(crate) fn sent_1019(eph: &GpsEph, payload: &[u8]) -> Bits<61>
    requires read { IsReadOf payload.now (Gps eph.now) }
    ensures { result ≡ bytes_1019 eph.now }
{
    if payload.len() != 61 {
        return write_1019(eph);
    }
    gps_ranges(*eph);
    message_bytes();
    read_1019_is_sent();
    bits_of(payload)
}

// Message 1046 of an ephemeris read from a payload: the payload itself with its reserved bits
// cleared, if it has no further bytes.
pub(crate) fn sent_1046(eph: &GalEph, payload: &[u8]) -> Bits<63>
    requires read { IsReadOf payload.now (Gal eph.now) }
    ensures { result ≡ bytes_1046 eph.now }
{
    if payload.len() != 63 {
        return write_1046(eph);
    }
    gal_ranges(*eph);
    message_bytes();
    read_1046_is_sent();
    let mut bits = bits_of(payload);
    bits.put(502, 2, 0);
    bits.are_bytes();
    bits
}
