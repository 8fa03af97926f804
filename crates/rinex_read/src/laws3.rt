//! Theorems about written and read records and files. Each function does nothing; its contract is
//! the theorem.

ghost use Rattle.std.specs.Prelude.{◌≡◌, List, ℕ, Ok};
ghost use Rattle.nav_eph.specs.declared.items.NavItem.{NavItem};
ghost use Rattle.nav_eph.specs.Ranges.{IsItem};
ghost use Rattle.rinex_write.specs.declared.words.HeaderWords.{HeaderWords};
ghost use Rattle.rinex_write.specs.Texts.{IsHeader};
ghost use Rattle.rinex_read.specs.Files.{file_reads};
ghost use Rattle.rinex_read.specs.RoundTrip.{AllStand, AreHeaderLines, AreItems, numbered_by};
ghost use Rattle.rinex_read.specs.Form3.{rinex3, rinex3_list};
ghost use Rattle.rinex_write.specs.Texts3.{ephemerides, header3_lines};
ghost use Rattle.rinex_write.specs.Texts3.{item3_lines, rinex3_text};

use crate::form3::Rinex3;

/// The record that is written for an ephemeris is one record and gives that ephemeris, whatever
/// lines follow.
pub fn records3_are_read()
    ensures { (items : List NavItem) → AreItems items
        → AllStand rinex3 item3_lines (ephemerides items) }
{}

/// The header that is written is a header of RINEX 3, whatever lines follow.
pub fn headers3_are_read()
    ensures { (h : HeaderWords) → IsHeader h → AreHeaderLines rinex3 (header3_lines h) }
{}

/// A list of items that is written and read back is the list of its ephemerides, each with its
/// first line's number; no record is rejected or skipped.
pub fn files3_are_read()
    ensures list { (h : HeaderWords) (items : List NavItem) → IsHeader h → AreItems items
        → rinex3_list (rinex3_text h items) ≡ ephemerides items }
    ensures records { (h : HeaderWords) (items : List NavItem) → IsHeader h → AreItems items
        → file_reads rinex3 (rinex3_text h items) ≡ Ok (numbered_by item3_lines 4
        (ephemerides items)) }
{
    crate::laws::written_files_are_read(&Rinex3);
}
