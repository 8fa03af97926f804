ghost use Rattle.std.specs.Prelude.{◌≡◌, IfErr, IfOk};
ghost use Rattle.nav_eph.specs.Conditions.{IsPart};
ghost use Rattle.nav_eph.specs.declared.sat.System.TheVariants.{Gps};
ghost use Rattle.lnav_subframe.specs.Reading.{subframe_of};
ghost use Rattle.lnav_subframe.specs.Words.{HasPreamble, upright};

use crate::content::content_of;
use crate::fault::LnavFault;
use crate::words::{inverted, source_of};
use nav_bits::Bits;
use nav_eph::{Part, Sat};

// The preamble, the first eight bits of a subframe (IS-GPS-200, 20.3.3.1), and its complement.
const PREAMBLE: u64 = 0b1000_1011;

const INVERTED_PREAMBLE: u64 = 0b0111_0100;

// The subframe with upright polarity; `Preamble` where it begins neither with the preamble nor with
// its complement.
fn righted(bits: &Bits<38>) -> Result<Bits<38>, LnavFault>
    ensures preamble { IfOk result (λ new. HasPreamble bits.now) }
    ensures same { IfOk result (λ new. new ≡ upright bits.now) }
    ensures fault { IfErr result
        (λ fault. (fault ≡ LnavFault.Preamble) × (HasPreamble bits.now → ⊥)) }
{
    match bits.get(0, 8) {
        PREAMBLE => Ok(*bits),
        INVERTED_PREAMBLE => Ok(inverted(bits)),
        _ => Err(LnavFault::Preamble),
    }
}

/// Reads the first 300 bits as a subframe of the LNAV message (IS-GPS-200, figure 20-1), received
/// from a GPS satellite at the time tag in seconds of the logger's clock; the last four bits are
/// ignored. A subframe that begins with the complement of the preamble is inverted completely first
/// (phase ambiguity of the receiver).
///
/// The error is the first of these: no preamble; the first word whose parity is wrong; a TOW count
/// of 100,800 or more; a subframe other than 1, 2, 3 and page 18 of 4; a toc or toe of 37,800 units
/// of 16 s or more.
pub fn read_subframe(bits: &Bits<38>, sat: Sat, stamp: u32) -> Result<Part, LnavFault>
    requires { sat.system ≡ Gps }
    ensures whole { IfOk result (λ part. IsPart part.sat part.body) }
    ensures answer { result ≡ subframe_of bits.now sat stamp }
{
    let upright = righted(bits)?;
    let source = match source_of(&upright) {
        Ok(source) => source,
        Err(word) => return Err(LnavFault::Parity { word }),
    };
    match content_of(&source) {
        Ok(body) => Ok(Part { stamp, sat, body }),
        Err(fault) => Err(fault),
    }
}
