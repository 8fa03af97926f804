ghost use Rattle.std.specs.Prelude.{◌≡◌};
ghost use Rattle.periods.specs.Parts.{IonTransmission};
ghost use Rattle.periods.specs.Readings.{reading, sent_in, toe_in};
ghost use Rattle.periods.specs.DigestsOf.{digest_of};

use crate::digest::{Digest, GalDigest, GpsDigest, Seen};
use crate::key::Transmission;
use nav_bits::U;
use nav_eph::{Body, Part, SentTag};

// The empty GPS digest.
const NO_GPS: GpsDigest = GpsDigest {
    clock: Seen::Nothing,
    a: Seen::Nothing,
    b: Seen::Nothing,
    side: None,
    fit: None,
    sent: None,
    toe: None,
};

// The empty Galileo digest.
const NO_GAL: GalDigest = GalDigest {
    w1: Seen::Nothing,
    w2: Seen::Nothing,
    w3: Seen::Nothing,
    w4: Seen::Nothing,
};

// The tag with its stamp, where it names a transmission time.
pub(crate) fn sent_tag(stamp: u32, tag: &SentTag) -> Option<(u32, SentTag)>
    ensures { result ≡ sent_in stamp tag.now }
{
    match tag {
        SentTag::Sent { wn: _, second: _ } => Some((stamp, *tag)),
        SentTag::Toe { wn: _, second: _ } => None,
    }
}

// The tag with its stamp, where it names a toe.
pub(crate) fn toe_tag(stamp: u32, tag: &SentTag) -> Option<(u32, SentTag)>
    ensures { result ≡ toe_in stamp tag.now }
{
    match tag {
        SentTag::Sent { wn: _, second: _ } => None,
        SentTag::Toe { wn: _, second: _ } => Some((stamp, *tag)),
    }
}

// The transmission of an ionosphere; `None` for a part of another kind.
pub(crate) fn transmission_of(part: &Part) -> Option<Transmission>
    ensures { result ≡ reading IonTransmission part.now }
{
    match &part.body {
        Body::GpsIon(_, second) => Some(Transmission {
            stamp: part.stamp,
            sat: part.sat,
            wn: U::from_bits(0),
            second: *second,
        }),
        Body::GalIon(_, wn, second) => Some(Transmission {
            stamp: part.stamp,
            sat: part.sat,
            wn: *wn,
            second: *second,
        }),
        _ => None,
    }
}

impl Digest {
    /// The digest of one part; `None` for Galileo health, which has no key.
    pub fn of(part: &Part) -> Option<Digest>
        ensures { result ≡ digest_of part.now }
    {
        let stamp = part.stamp;
        match part.body {
            Body::GpsClock(clock, side, tag) => Some(Digest::Gps(GpsDigest {
                clock: Seen::One(clock),
                side: Some((stamp, side)),
                sent: sent_tag(stamp, &tag),
                toe: toe_tag(stamp, &tag),
                ..NO_GPS
            })),
            Body::GpsA(orbit, fit) => Some(Digest::Gps(GpsDigest {
                a: Seen::One(orbit),
                fit: Some((stamp, fit)),
                ..NO_GPS
            })),
            Body::GpsB(orbit) => Some(Digest::Gps(GpsDigest {
                b: Seen::One(orbit),
                ..NO_GPS
            })),
            Body::GalW1(word) => Some(Digest::Gal(GalDigest {
                w1: Seen::One(word),
                ..NO_GAL
            })),
            Body::GalW2(word) => Some(Digest::Gal(GalDigest {
                w2: Seen::One(word),
                ..NO_GAL
            })),
            Body::GalW3(word) => Some(Digest::Gal(GalDigest {
                w3: Seen::One(word),
                ..NO_GAL
            })),
            Body::GalW4(word) => Some(Digest::Gal(GalDigest {
                w4: Seen::One(word),
                ..NO_GAL
            })),
            Body::GalHealth(_, _) => None,
            Body::GpsIon(_, second) => Some(Digest::Ion(Transmission {
                stamp,
                sat: part.sat,
                wn: U::from_bits(0),
                second,
            })),
            Body::GalIon(_, wn, second) => Some(Digest::Ion(Transmission {
                stamp,
                sat: part.sat,
                wn,
                second,
            })),
        }
    }
}
