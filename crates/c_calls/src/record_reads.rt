//! Records of RINEX navigation files, versions 4 and 3, read.

ghost use Rattle.std.specs.Prelude.{◌≡◌};
ghost use Rattle.rinex_read.specs.Lines.{lines_of};
ghost use Rattle.c_calls.specs.RecordReads.{IsVersion, PutsRead, read_in, reason_status};

use crate::text_lines::lines_in;
use raw_values::reasons::NO_VERSION;
use raw_values::{ItemRaw, put_item};
use rinex_read::{FileForm, ItemRead, RecordFault, Rinex3, Rinex4};

// The record is of another kind.
const PASSED_OVER: u32 = 42;

// What the lines of a text give as a record of a format.
fn read_by<F: FileForm<ItemRead>>(form: &F, text: &[u8]) -> ItemRead
    ensures { result ≡ (F.form form.now).judged 1 (lines_of text.now) }
{
    form.looks_at_kept();
    form.judge(1, &lines_in(text))
}

// The number of a reason.
fn status_of(reason: &RecordFault) -> u32
    ensures { result ≡ reason_status reason.now }
{
    match reason {
        RecordFault::BadSat => 32,
        RecordFault::Short => 33,
        RecordFault::NotANumber => 34,
        RecordFault::Blank => 35,
        RecordFault::OutOfRange => 36,
        RecordFault::NoSuchDate => 37,
        RecordFault::Week => 38,
        RecordFault::Fit => 39,
        RecordFault::EpochStep => 40,
        RecordFault::EpochFar => 41,
    }
}

// Puts the item of a record.
fn put_read(read: &ItemRead, into: &mut ItemRaw) -> u32
    ensures { PutsRead read.now into.old into.new result }
{
    match read {
        ItemRead::Item { item, .. } => {
            put_item(item, into);
            0
        }
        ItemRead::Refused { reason, .. } => status_of(reason),
        ItemRead::PassedOver { .. } => PASSED_OVER,
    }
}

/// Puts the item that the text of one record of a navigation file gives: of version 4 (RINEX 4.01)
/// with its title line, of version 3 (RINEX 3.05) without.
///
/// 0; or the number of the first reason for which it is rejected, 32 to 41, 42 for a record of
/// another kind, or 24 if there is no such version; and then nothing is put.
pub fn read_record(text: &[u8], version: u32, into: &mut ItemRaw) -> u32
    ensures read { IsVersion version
        → PutsRead (read_in version text.now) into.old into.new result }
    ensures version { (IsVersion version → ⊥) → (result ≡ 24) × (into.new ≡ into.old) }
{
    if version == 4 {
        return put_read(&read_by(&Rinex4, text), into);
    }
    if version == 3 {
        return put_read(&read_by(&Rinex3, text), into);
    }
    NO_VERSION
}
