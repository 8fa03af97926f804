ghost use Rattle.nav_eph.specs.Values.{IsPartValue};

use nav_eph::{Body, Part};

/// Does nothing; its contract states that the time tag of a part has 32 bits, and that the numbers
/// by which contents and tags are compared are within their widths in bits.
pub fn note_value(part: &Part)
    ensures { IsPartValue part.now }
{
    let _stamp = part.stamp;
    match part.body {
        Body::GpsClock(_, side, tag) => {
            let _side = side.number();
            let _tag = tag.number();
        }
        Body::GalHealth(health, tag) => {
            let _health = health.number_with(&tag);
        }
        Body::GpsIon(ionosphere, second) => {
            let _content = ionosphere.number();
            let _second = second.value();
        }
        Body::GalIon(ionosphere, _, second) => {
            let _content = ionosphere.number();
            let _second = second.value();
        }
        _ => {}
    }
}
