ghost use Rattle.std.specs.Prelude.{◌≡◌, None, Some};
ghost use Rattle.periods.specs.declared.digest.Digest.{Digest};
ghost use Rattle.periods.specs.declared.digest.Digest.TheVariants.{Ion};
ghost use Rattle.periods.specs.declared.digest.Seen.TheVariants.{One};
ghost use Rattle.periods.specs.DigestsOf.{digest_join, digest_of, gal_digest, gal_join};
ghost use Rattle.periods.specs.DigestsOf.{gps_digest, gps_join, transmission_with};
ghost use Rattle.periods.specs.Mirrors.{seen_join};
ghost use Rattle.periods.specs.Parts.{IonTransmission};
ghost use Rattle.periods.specs.Readings.{reading};

use crate::digest::{Digest, GalDigest, GpsDigest, Seen};
use crate::digest_join::{earlier_tag, is_earlier_transmission, later_fit, later_side};
use crate::digest_of::{sent_tag, toe_tag, transmission_of};
use crate::key::Transmission;
use nav_eph::{Body, Part};

impl<T: PartialEq + Copy> Seen<T> {
    // The contents with one more.
    fn add(&mut self, content: &T)
        ensures { self.new ≡ seen_join T.eq self.old (One content.now) }
    {
        match self {
            Seen::Nothing => *self = Seen::One(*content),
            Seen::One(known) => {
                let same = *known == *content;
                if !same {
                    *self = Seen::Different;
                }
            }
            Seen::Different => {}
        }
    }
}

// A part added to the digest of a GPS key; only the fields that it carries are looked at.
fn add_to_gps(digest: &mut GpsDigest, part: &Part)
    ensures { digest.new ≡ gps_join digest.old (gps_digest part.now) }
{
    match &part.body {
        Body::GpsClock(clock, side, tag) => {
            digest.clock.add(clock);
            digest.side = later_side(digest.side, Some((part.stamp, *side)));
            digest.sent = earlier_tag(digest.sent, sent_tag(part.stamp, tag));
            digest.toe = earlier_tag(digest.toe, toe_tag(part.stamp, tag));
        }
        Body::GpsA(orbit, fit) => {
            digest.a.add(orbit);
            digest.fit = later_fit(digest.fit, Some((part.stamp, *fit)));
        }
        Body::GpsB(orbit) => digest.b.add(orbit),
        _ => {}
    }
}

// A part added to the digest of a Galileo key.
fn add_to_gal(digest: &mut GalDigest, part: &Part)
    ensures { digest.new ≡ gal_join digest.old (gal_digest part.now) }
{
    match &part.body {
        Body::GalW1(word) => digest.w1.add(word),
        Body::GalW2(word) => digest.w2.add(word),
        Body::GalW3(word) => digest.w3.add(word),
        Body::GalW4(word) => digest.w4.add(word),
        _ => {}
    }
}

// The earlier of a transmission and that of a part, where it has one.
fn add_to_ion(transmission: &mut Transmission, part: &Part)
    ensures { transmission.new ≡ transmission_with transmission.old
        (reading IonTransmission part.now) }
{
    match transmission_of(part) {
        None => {}
        Some(other) => {
            if is_earlier_transmission(&other, transmission) {
                *transmission = other;
            }
        }
    }
}

impl Transmission {
    /// Adds a part to the digest of an ionosphere key, which is the earliest transmission. A part
    /// without a key, which is a health, changes nothing.
    pub fn add(&mut self, part: &Part)
        ensures some { (one : Digest) → digest_of part.now ≡ Some one
            → Ion self.new ≡ digest_join (Ion self.old) one }
        ensures none { digest_of part.now ≡ None → self.new ≡ self.old }
    {
        add_to_ion(self, part);
    }
}

impl Digest {
    /// Adds a part of the key: the digest of the union with that part. Only what the part carries
    /// is compared. A part without a key, which is a health, changes nothing.
    pub fn add(&mut self, part: &Part)
        ensures some { (one : Digest) → digest_of part.now ≡ Some one
            → self.new ≡ digest_join self.old one }
        ensures none { digest_of part.now ≡ None → self.new ≡ self.old }
    {
        match self {
            Digest::Gps(digest) => add_to_gps(digest, part),
            Digest::Gal(digest) => add_to_gal(digest, part),
            Digest::Ion(transmission) => add_to_ion(transmission, part),
        }
    }
}
