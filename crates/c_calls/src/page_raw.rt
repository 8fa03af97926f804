//! I/NAV pages and their words as raw integers.

use raw_values::{GalHealthRaw, GalIonRaw, GalWord1Raw, GalWord2Raw, GalWord3Raw, GalWord4Raw};

/// The even and the odd part of a page, 120 bits each (Galileo OS SIS ICD, 4.3.2.3), most
/// significant bit first.
#[repr(C)]
#[derive(Clone, Copy)]
pub struct PageBits {
    /// The even part, sent first.
    pub even: [u8; 15],
    /// The odd part, sent one second later.
    pub odd: [u8; 15],
}

/// The content of a word.
#[repr(C)]
#[derive(Clone, Copy)]
pub struct WordRaw {
    /// The word type, 1 to 5.
    pub number: u32,
    /// The Galileo week number modulo 4096, of word type 5.
    pub wn: u32,
    /// The transmission time as time of week in seconds, of word type 5.
    pub second: u32,
    /// Word type 1.
    pub w1: GalWord1Raw,
    /// Word type 2.
    pub w2: GalWord2Raw,
    /// Word type 3.
    pub w3: GalWord3Raw,
    /// Word type 4.
    pub w4: GalWord4Raw,
    /// Group delays, signal health and data validity, of word type 5.
    pub health: GalHealthRaw,
    /// The ionospheric parameters, of word type 5.
    pub ion: GalIonRaw,
}

/// Words of types 1 to 5, in this order.
#[repr(C)]
#[derive(Clone, Copy)]
pub struct WordsRaw {
    /// Word type 1.
    pub one: WordRaw,
    /// Word type 2.
    pub two: WordRaw,
    /// Word type 3.
    pub three: WordRaw,
    /// Word type 4.
    pub four: WordRaw,
    /// Word type 5.
    pub five: WordRaw,
}
