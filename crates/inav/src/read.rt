ghost use Rattle.std.specs.Prelude.{◌≡◌, IfErr, IfOk};
ghost use Rattle.nav_eph.specs.declared.sat.System.TheVariants.{Gal};
ghost use Rattle.inav.specs.declared.word.Word.TheVariants.{One, Two, Three, Four, Five};
ghost use Rattle.inav.specs.Faults.{IsFirstFault};
ghost use Rattle.inav.specs.Reading.{ArePartsOf, health_of, ion_of};
ghost use Rattle.inav.specs.Reading.{one_part, reading, reading_of, word_in};

use crate::parts::WordParts;
use crate::word::{Word, by_type};
use crate::word_fault::WordFault;
use crate::word1::Word1;
use crate::word2::Word2;
use crate::word3::Word3;
use crate::word4::Word4;
use crate::word5::Word5;
use nav_bits::Bits;
use nav_eph::{
    Body, GalHealth, GalIon, GalWord1, GalWord2, GalWord3, GalWord4, Part, Sat, Second, SentTag,
    Sisa, Step60,
};

// The parts of a word that has only one.
fn one(body: Body, sat: Sat, stamp: u32) -> WordParts
    ensures { result ≡ one_part sat stamp body }
{
    WordParts {
        first: Part { stamp, sat, body },
        second: None,
    }
}

// The part of word type 1; `BadTime` where toe is past the end of the week.
fn read_1(w: &Word1, sat: Sat, stamp: u32) -> Result<WordParts, WordFault>
    ensures { result ≡ reading sat stamp (One w.now) }
{
    let toe = match Step60::new(w.toe.value()) {
        Some(toe) => toe,
        None => return Err(WordFault::BadTime),
    };
    let orbit = GalWord1 {
        iodnav: w.iodnav,
        toe,
        m0: w.m0,
        e: w.e,
        root_a: w.root_a,
    };
    Ok(one(Body::GalW1(orbit), sat, stamp))
}

// The part of word type 2.
fn read_2(w: &Word2, sat: Sat, stamp: u32) -> Result<WordParts, WordFault>
    ensures { result ≡ reading sat stamp (Two w.now) }
{
    let orbit = GalWord2 {
        iodnav: w.iodnav,
        omega0: w.omega0,
        i0: w.i0,
        omega: w.omega,
        idot: w.idot,
    };
    Ok(one(Body::GalW2(orbit), sat, stamp))
}

// The part of word type 3; `SpareSisa` where the SISA index is a spare value.
fn read_3(w: &Word3, sat: Sat, stamp: u32) -> Result<WordParts, WordFault>
    ensures { result ≡ reading sat stamp (Three w.now) }
{
    let sisa = match Sisa::new(w.sisa.value()) {
        Some(sisa) => sisa,
        None => return Err(WordFault::SpareSisa),
    };
    let orbit = GalWord3 {
        iodnav: w.iodnav,
        omega_dot: w.omega_dot,
        delta_n: w.delta_n,
        cuc: w.cuc,
        cus: w.cus,
        crc: w.crc,
        crs: w.crs,
        sisa,
    };
    Ok(one(Body::GalW3(orbit), sat, stamp))
}

// The part of word type 4; `WrongSat` for another SVID, then `BadTime` where toc is past the week.
fn read_4(w: &Word4, sat: Sat, stamp: u32) -> Result<WordParts, WordFault>
    ensures { result ≡ reading sat stamp (Four w.now) }
{
    if w.svid.value() != sat.number() as u64 {
        return Err(WordFault::WrongSat);
    }
    let toc = match Step60::new(w.toc.value()) {
        Some(toc) => toc,
        None => return Err(WordFault::BadTime),
    };
    let orbit = GalWord4 {
        iodnav: w.iodnav,
        cic: w.cic,
        cis: w.cis,
        toc,
        af0: w.af0,
        af1: w.af1,
        af2: w.af2,
    };
    Ok(one(Body::GalW4(orbit), sat, stamp))
}

// BGD and health of word type 5.
fn health(w: &Word5) -> GalHealth
    ensures { result ≡ health_of w.now }
{
    GalHealth {
        bgd_a: w.bgd_a,
        bgd_b: w.bgd_b,
        hs_e5b: w.hs_e5b,
        hs_e1b: w.hs_e1b,
        dvs_e5b: w.dvs_e5b,
        dvs_e1b: w.dvs_e1b,
    }
}

// The ionosphere of word type 5.
fn ion(w: &Word5) -> GalIon
    ensures { result ≡ ion_of w.now }
{
    GalIon {
        ai0: w.ai0,
        ai1: w.ai1,
        ai2: w.ai2,
        regions: w.regions,
    }
}

// The parts of word type 5; `BadTime` where TOW is past the end of the week.
fn read_5(w: &Word5, sat: Sat, stamp: u32) -> Result<WordParts, WordFault>
    ensures { result ≡ reading sat stamp (Five w.now) }
{
    let wn = w.wn;
    let second = match Second::new(w.tow.value() as u32) {
        Some(second) => second,
        None => return Err(WordFault::BadTime),
    };
    let health = Body::GalHealth(health(w), SentTag::Sent { wn, second });
    let ion = Body::GalIon(ion(w), wn, second);
    Ok(WordParts {
        first: Part {
            stamp,
            sat,
            body: health,
        },
        second: Some(Part {
            stamp,
            sat,
            body: ion,
        }),
    })
}

/// Reads the 128 bits of an I/NAV word (Galileo OS SIS ICD, 4.3.5), received from a Galileo
/// satellite at the time tag in seconds of the logger's clock. Word types 1 to 4 give one part;
/// word type 5 gives first BGD and health, with week number and TOW as time tag, then the
/// ionosphere. Reserved and spare bits are ignored.
///
/// The error is the first of these: a type other than 1 to 5; a word type 4 with another SVID; a
/// toe or toc of 10,080 units of 60 s or more, or a TOW of 604,800 s or more; a spare SISA index,
/// 126 to 254.
pub fn read_word(word: &Bits<16>, sat: Sat, stamp: u32) -> Result<WordParts, WordFault>
    requires { sat.system ≡ Gal }
    ensures answer { result ≡ reading_of word.now sat stamp }
    ensures parts { IfOk result ArePartsOf }
    ensures fault { IfErr result (IsFirstFault sat (word_in word.now)) }
{
    match by_type(word) {
        Word::One(w) => read_1(&w, sat, stamp),
        Word::Two(w) => read_2(&w, sat, stamp),
        Word::Three(w) => read_3(&w, sat, stamp),
        Word::Four(w) => read_4(&w, sat, stamp),
        Word::Five(w) => read_5(&w, sat, stamp),
        Word::Other(number) => Err(WordFault::OtherWord { number }),
    }
}
