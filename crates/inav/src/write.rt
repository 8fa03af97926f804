ghost use Rattle.std.specs.Prelude.{◌≡◌, ℕ, ◌<◌, Ok};
ghost use Rattle.nav_eph.specs.Weeks.{IsSecond};
ghost use Rattle.nav_bits.specs.Bits.{number_at};
ghost use Rattle.nav_bits.specs.Fields.{StandFrom};
ghost use Rattle.nav_eph.specs.Satellite.{Satellite};
ghost use Rattle.nav_eph.specs.declared.sat.System.TheVariants.{Gal};
ghost use Rattle.nav_eph.specs.declared.part.Body.TheVariants.{GalW1, GalW2, GalW3, GalW4};
ghost use Rattle.inav.specs.Reading.{one_part, reading_of, two_parts};
ghost use Rattle.inav.specs.Words.{fields_word1, fields_word2, fields_word3};
ghost use Rattle.inav.specs.Words.{fields_word4, fields_word5};
ghost use Rattle.inav.specs.Writing.{word1_bytes, word2_bytes, word3_bytes};
ghost use Rattle.inav.specs.Writing.{word4_bytes, word5_bytes};
ghost use Rattle.inav.specs.Writing.{written_word1, written_word2, written_word3};
ghost use Rattle.inav.specs.Writing.{written_word4, written_word5};

use crate::ranges::{
    health_ranges, ion_ranges, word1_ranges, word2_ranges, word3_ranges, word4_ranges,
};
use crate::word1::Word1;
use crate::word2::Word2;
use crate::word3::Word3;
use crate::word4::Word4;
use crate::word5::Word5;
use nav_bits::{BitForm, Bits, U};
use nav_eph::{GalHealth, GalIon, GalWord1, GalWord2, GalWord3, GalWord4, Sat, Second};

/// The 128 bits of I/NAV word type 1 (Galileo OS SIS ICD, 4.3.5). The reserved bits are 0.
pub fn write_word1(w: &GalWord1) -> Bits<16>
    ensures fields { StandFrom result 0 0 (fields_word1 (written_word1 w.now)) }
    ensures reserved_bits { number_at result 126 2 ≡ 0 }
    ensures bytes { result ≡ word1_bytes w.now }
    ensures again { (sat : Satellite) (stamp : ℕ) →
        reading_of result sat stamp ≡ Ok (one_part sat stamp (GalW1 w.now)) }
{
    let word = Word1 {
        iodnav: w.iodnav,
        toe: U::from_bits(w.toe.value()),
        m0: w.m0,
        e: w.e,
        root_a: w.root_a,
    };
    let mut bits = Bits::<16>::zero();
    word.pack(&mut bits, 0);
    word1_ranges(*w);
    bits.are_bytes();
    bits
}

/// The 128 bits of I/NAV word type 2 (Galileo OS SIS ICD, 4.3.5). The reserved bits are 0.
pub fn write_word2(w: &GalWord2) -> Bits<16>
    ensures fields { StandFrom result 0 0 (fields_word2 (written_word2 w.now)) }
    ensures reserved_bits { number_at result 126 2 ≡ 0 }
    ensures bytes { result ≡ word2_bytes w.now }
    ensures again { (sat : Satellite) (stamp : ℕ) →
        reading_of result sat stamp ≡ Ok (one_part sat stamp (GalW2 w.now)) }
{
    let word = Word2 {
        iodnav: w.iodnav,
        omega0: w.omega0,
        i0: w.i0,
        omega: w.omega,
        idot: w.idot,
    };
    let mut bits = Bits::<16>::zero();
    word.pack(&mut bits, 0);
    word2_ranges(*w);
    bits.are_bytes();
    bits
}

/// The 128 bits of I/NAV word type 3 (Galileo OS SIS ICD, 4.3.5).
pub fn write_word3(w: &GalWord3) -> Bits<16>
    ensures fields { StandFrom result 0 0 (fields_word3 (written_word3 w.now)) }
    ensures bytes { result ≡ word3_bytes w.now }
    ensures again { (sat : Satellite) (stamp : ℕ) →
        reading_of result sat stamp ≡ Ok (one_part sat stamp (GalW3 w.now)) }
{
    let word = Word3 {
        iodnav: w.iodnav,
        omega_dot: w.omega_dot,
        delta_n: w.delta_n,
        cuc: w.cuc,
        cus: w.cus,
        crc: w.crc,
        crs: w.crs,
        sisa: U::from_bits(w.sisa.value()),
    };
    let mut bits = Bits::<16>::zero();
    word.pack(&mut bits, 0);
    word3_ranges(*w);
    bits.are_bytes();
    bits
}

/// The 128 bits of I/NAV word type 4 of a Galileo satellite (Galileo OS SIS ICD, 4.3.5). The spare
/// bits are 0.
pub fn write_word4(w: &GalWord4, sat: Sat) -> Bits<16>
    requires { sat.system ≡ Gal }
    ensures fields { StandFrom result 0 0 (fields_word4 (written_word4 w.now sat.number)) }
    ensures reserved_bits { number_at result 126 2 ≡ 0 }
    ensures bytes { result ≡ word4_bytes w.now sat.number }
    ensures again { (stamp : ℕ) →
        reading_of result sat stamp ≡ Ok (one_part sat stamp (GalW4 w.now)) }
{
    let word = Word4 {
        iodnav: w.iodnav,
        svid: U::from_bits(sat.number() as u64),
        cic: w.cic,
        cis: w.cis,
        toc: U::from_bits(w.toc.value()),
        af0: w.af0,
        af1: w.af1,
        af2: w.af2,
    };
    let mut bits = Bits::<16>::zero();
    word.pack(&mut bits, 0);
    word4_ranges(*w);
    bits.are_bytes();
    bits
}

// The fields of word type 5.
fn word5(health: &GalHealth, ion: &GalIon, wn: U<12>, second: Second) -> Word5
    ensures fields { result ≡ written_word5 health.now ion.now wn second }
    ensures time { IsSecond second }
    ensures week { wn < 4096 }
{
    Word5 {
        ai0: ion.ai0,
        ai1: ion.ai1,
        ai2: ion.ai2,
        regions: ion.regions,
        bgd_a: health.bgd_a,
        bgd_b: health.bgd_b,
        hs_e5b: health.hs_e5b,
        hs_e1b: health.hs_e1b,
        dvs_e5b: health.dvs_e5b,
        dvs_e1b: health.dvs_e1b,
        wn,
        tow: U::from_bits(second.value() as u64),
    }
}

/// The 128 bits of I/NAV word type 5 (Galileo OS SIS ICD, 4.3.5) with the Galileo week number,
/// modulo 4096, and the TOW of its transmission. The spare bits are 0.
pub fn write_word5(health: &GalHealth, ion: &GalIon, wn: U<12>, second: Second) -> Bits<16>
    ensures fields { StandFrom result 0 0 (fields_word5
        (written_word5 health.now ion.now wn second)) }
    ensures reserved_bits { number_at result 105 23 ≡ 0 }
    ensures bytes { result ≡ word5_bytes health.now ion.now wn second }
    ensures again { (sat : Satellite) (stamp : ℕ) →
        reading_of result sat stamp ≡ Ok (two_parts sat stamp health.now ion.now wn second) }
{
    let word = word5(health, ion, wn, second);
    let mut bits = Bits::<16>::zero();
    word.pack(&mut bits, 0);
    health_ranges(*health);
    ion_ranges(*ion);
    bits.are_bytes();
    bits
}
