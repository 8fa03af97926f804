//! Headers and records of RINEX navigation files, versions 4.01 and 3.05, written.

ghost use Rattle.std.specs.Prelude.{◌≡◌, ◌↔◌, IfSome, IsSome, length};
ghost use Rattle.std.specs.List.{list_all};
ghost use Rattle.rinex_write.specs.declared.words.HeaderWords.{HeaderWords};
ghost use Rattle.rinex_write.specs.Texts.{item_lines, text_of};
ghost use Rattle.rinex_write.specs.Texts3.{item3_lines};
ghost use Rattle.raw_values.specs.Items.{IsItemIn, item_in};
ghost use Rattle.raw_values.specs.Rooms.{IsLeft, StandsIn};
ghost use Rattle.c_calls.specs.RecordReads.{IsVersion};
ghost use Rattle.c_calls.specs.RecordWrites.{IsHeader, IsStatedBy, PutsRecord, header_text};
ghost use Rattle.c_calls.specs.RecordWrites.{is_shown, record_text, version_columns};

use crate::fixed::Fixed;
use nav_eph::NavItem;
use raw_values::reasons::{NO_HEADER, NO_ITEM, NO_VERSION};
use raw_values::{ItemRaw, item_of, put};
use rinex_write::{HeaderWords, write_header_of, write_item, write_item3};

/// What the header of a file says.
#[repr(C)]
#[derive(Clone, Copy)]
pub struct HeaderRaw {
    /// When the file was made, as `20240101 000000 UTC`.
    pub date: [u8; 19],
    /// The leap seconds between UTC and GPS time, 0 to 99.
    pub leap: u8,
}

// The record of an item in a file of version 4.
fn record4(item: &NavItem) -> Fixed
    ensures { result.bytes ≡ text_of (item_lines item.now) }
{
    let mut text = Fixed::new();
    match write_item(item, &mut text) {
        Ok(()) => text,
        Err(_) => {
            let _full = text.bytes();
            unreachable!()
        }
    }
}

// The record of an item in a file of version 3.
fn record3(item: &NavItem) -> Fixed
    ensures { result.bytes ≡ text_of (item3_lines item.now) }
{
    let mut text = Fixed::new();
    match write_item3(item, &mut text) {
        Ok(()) => text,
        Err(_) => {
            let _full = text.bytes();
            unreachable!()
        }
    }
}

// The record of an item in a file of that version.
fn record_of(item: &NavItem, version: u32) -> Fixed
    ensures { result.bytes ≡ record_text version item.now }
{
    if version == 4 {
        record4(item)
    } else {
        record3(item)
    }
}

// Whether no byte of a text is below 32.
fn are_shown(text: &[u8]) -> bool
    ensures { result ≡ list_all is_shown text.now }
{
    text.iter().all(|byte| *byte >= 32)
}

// What a header says; `None` where it has bytes below 32 or 100 leap seconds or more.
fn words_of(header: &HeaderRaw) -> Option<HeaderWords>
    ensures exactly { IsSome result ↔ IsHeader header.now }
    ensures same { IfSome result (IsStatedBy header.now) }
    ensures date { IfSome result (λ words. length words.date ≡ 19) }
{
    if !are_shown(&header.date) || header.leap >= 100 {
        return None;
    }
    Some(HeaderWords {
        date: header.date,
        leap: header.leap,
    })
}

// The columns 1 to 9 of the first line of a file of that version.
fn columns_of(version: u32) -> &'static [u8; 9]
    ensures { result.now ≡ version_columns version }
{
    if version == 4 {
        b"     4.01"
    } else {
        b"     3.05"
    }
}

// The header of a file of that version.
fn header_of(words: &HeaderWords, version: u32) -> Fixed
    requires { length words.now.date ≡ 19 }
    ensures { result.bytes ≡ header_text version words.now }
{
    let mut text = Fixed::new();
    match write_header_of(columns_of(version), words, &mut text) {
        Ok(()) => text,
        Err(_) => {
            let _full = text.bytes();
            unreachable!()
        }
    }
}

/// Puts the header of a navigation file, each line with LF, and returns its length: of version 4
/// (RINEX 4.01) or 3 (RINEX 3.05).
///
/// 0; or 24 if there is no such version, or 27 if the date has bytes below 32 or there are 100 leap
/// seconds or more, and then nothing is put.
pub fn write_header(header: &HeaderRaw, version: u32, into: &mut [u8], used: &mut usize) -> u32
    ensures status { IsVersion version → IsHeader header.now → result ≡ 0 }
    ensures written { IsVersion version → (words : HeaderWords) → IsHeader header.now
        → IsStatedBy header.now words
        → StandsIn into.old into.new used.new (header_text version words) }
    ensures none { IsVersion version → (IsHeader header.now → ⊥) →
        (result ≡ 27) × IsLeft into.old into.new used.new }
    ensures version { (IsVersion version → ⊥) →
        (result ≡ 24) × IsLeft into.old into.new used.new }
{
    *used = 0;
    if version != 3 && version != 4 {
        return NO_VERSION;
    }
    match words_of(header) {
        None => NO_HEADER,
        Some(words) => {
            *used = put(header_of(&words, version).bytes(), into);
            0
        }
    }
}

/// Puts the record of an item, each line with LF, and returns its length: of version 4 (RINEX 4.01)
/// with its title line, of version 3 (RINEX 3.05) without; ionospheric parameters have no record in
/// version 3, and its length is 0.
///
/// 0; or 24 if there is no such version, or 23 if the numbers encode no item, and then nothing is
/// put.
pub fn write_record(raw: &ItemRaw, version: u32, into: &mut [u8], used: &mut usize) -> u32
    ensures written { IsVersion version → IsItemIn (item_in raw.now) →
        PutsRecord version (item_in raw.now) into.old into.new used.new result }
    ensures none { IsVersion version → (IsItemIn (item_in raw.now) → ⊥) →
        (result ≡ 23) × IsLeft into.old into.new used.new }
    ensures version { (IsVersion version → ⊥) →
        (result ≡ 24) × IsLeft into.old into.new used.new }
{
    *used = 0;
    if version != 3 && version != 4 {
        return NO_VERSION;
    }
    match item_of(raw) {
        None => NO_ITEM,
        Some(item) => {
            *used = put(record_of(&item, version).bytes(), into);
            0
        }
    }
}
