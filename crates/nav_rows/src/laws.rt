//! The tables of messages 1019 and 1046 give what their hand-written readers read; rows, messages
//! and records come back; rows are ordered.

ghost use Rattle.std.specs.Prelude.{◌≡◌, ◌↔◌, ℕ, ◌++◌, ℤ, pos, List, IsTrue, None, Ok, true, false};
ghost use Rattle.std.specs.Cmp.{IsTotalOrder};
ghost use Rattle.std.specs.declared.cmp.Ordering.TheVariants.{Equal};
ghost use Rattle.nav_bits.specs.Bits.{number_at};
ghost use Rattle.nav_bits.specs.Packed.{AreBytes};
ghost use Rattle.nav_eph.specs.Weeks.{IsMoment, IsReference};
ghost use Rattle.nav_tables.specs.Fields.{IsInRange};
ghost use Rattle.nav_tables.specs.Messages.{ArePlain};
ghost use Rattle.nav_tables.specs.Links.{field_at};
ghost use Rattle.rinex_write.specs.Columns.{AreFields};
ghost use Rattle.nav_rows.specs.declared.kind.Kind.{Kind};
ghost use Rattle.nav_rows.specs.Kinds.{IsKind, has_weeks, is_whole};
ghost use Rattle.nav_rows.specs.Times.{frame_of, number};
ghost use Rattle.nav_rows.specs.Rows.{RowValue, record_of, row_in};
ghost use Rattle.nav_rows.specs.Encoding.{AreUnstated, IsNearRow, IsOfMessage, epoch_fault};
ghost use Rattle.nav_rows.specs.Encoding.{frame_stated, message_of};
ghost use Rattle.nav_rows.specs.Reading.{read_lines_of};
ghost use Rattle.nav_rows.specs.Order.{IsAlike, KindRow, by_place, by_rank};
ghost use Rattle.nav_tables.specs.declared.field.Table.{Table};
ghost use Rattle.nav_tables.specs.Messages.{message_in, numbers_at};
ghost use Rattle.rtcm_eph.specs.declared.content.GpsContent.{GpsContent};
ghost use Rattle.rtcm_eph.specs.declared.content.GalContent.{GalContent};
ghost use Rattle.rtcm_eph.specs.declared.content.EphemerisMessage.TheVariants.{Gps, Gal};
ghost use Rattle.rtcm_eph.specs.Messages.{message1019_at, message1046_at};
ghost use Rattle.rtcm_eph.specs.Reading.{content_1019, content_1046, content_of, is_sisa};
ghost use Rattle.nav_rows.specs.Tied.{numbers_1019, numbers_1046};

use crate::tables::{FIELDS_1019, FIELDS_1046};
use rinex_read::{layouts_are_rows, written_rows_are_read};

/// The table of message 1019 gives the numbers of its hand-written reader, and takes the same
/// messages.
pub fn table_1019_is_read()
    ensures numbers { (bytes : List ℕ) →
        numbers_at bytes 0 FIELDS_1019
        ≡ numbers_1019 (number_at bytes 0 12) (message1019_at bytes 0) }
    ensures taken { (t : Table) (bytes : List ℕ) (c : GpsContent) →
        t.fields.now ≡ FIELDS_1019 → t.bytes ≡ 61 → content_of bytes ≡ Ok (Gps c) →
        message_in t bytes ≡ Ok (numbers_1019 1019 (message1019_at bytes 0)) }
    ensures back { (t : Table) (bytes : List ℕ) (numbers : List ℤ) →
        t.fields.now ≡ FIELDS_1019 → t.bytes ≡ 61 → message_in t bytes ≡ Ok numbers →
        content_of bytes ≡ Ok (Gps (content_1019 (message1019_at bytes 0))) }
{}

/// The table of message 1046 gives the numbers of its hand-written reader, and takes the same
/// messages, but that it does not look at spare SISA indices.
pub fn table_1046_is_read()
    ensures numbers { (bytes : List ℕ) →
        numbers_at bytes 0 FIELDS_1046
        ≡ numbers_1046 (number_at bytes 0 12) (message1046_at bytes 0) }
    ensures taken { (t : Table) (bytes : List ℕ) (c : GalContent) →
        t.fields.now ≡ FIELDS_1046 → t.bytes ≡ 63 → content_of bytes ≡ Ok (Gal c) →
        message_in t bytes ≡ Ok (numbers_1046 1046 (message1046_at bytes 0)) }
    ensures back { (t : Table) (bytes : List ℕ) (numbers : List ℤ) →
        t.fields.now ≡ FIELDS_1046 → t.bytes ≡ 63 → message_in t bytes ≡ Ok numbers →
        is_sisa (message1046_at bytes 0).sisa ≡ true →
        content_of bytes ≡ Ok (Gal (content_1046 (message1046_at bytes 0))) }
{}

/// The message of a row is the one that the row is of, where reserved bits are 0 and no 0 has a
/// sign: always for kinds whose columns have all of a message; for GLONASS if its times are those
/// of a frame without additional data, and what no column has is 0.
pub fn messages_come_back()
    ensures weeks { (k : Kind) (bytes : List ℕ) (r : ℕ) (row : RowValue) → IsKind k →
        IsTrue (is_whole k) → IsReference r → AreBytes k.table.bytes bytes →
        ArePlain bytes 0 k.table.fields.now → row_in k bytes r ≡ Ok row →
        message_of k row ≡ Ok bytes }
    ensures frames { (k : Kind) (bytes : List ℕ) (r : ℕ) (row : RowValue) (numbers : List ℤ) →
        IsKind k → has_weeks k.clock ≡ false → AreBytes k.table.bytes bytes →
        ArePlain bytes 0 k.table.fields.now → message_in k.table bytes ≡ Ok numbers →
        row_in k bytes r ≡ Ok row → AreUnstated k numbers →
        frame_stated row.moment (number row.columns 2) ≡ Ok (frame_of numbers) →
        message_of k row ≡ Ok bytes }
{}

/// The row of the message of a row is that row near its week, if its columns are those of a
/// message: a time of transmission is not known, spare columns are as they are written, and other
/// numbers are known.
pub fn rows_come_back()
    ensures { (k : Kind) (row : RowValue) (bytes : List ℕ) (r : ℕ) → IsKind k →
        IsOfMessage k row → IsNearRow k.clock row r → message_of k row ≡ Ok bytes →
        row_in k bytes r ≡ Ok row }
{}

/// The record that is written of a row is read as that row, whatever lines follow.
pub fn records_of_rows_are_read()
    ensures { (k : Kind) (row : RowValue) (more : List (List ℕ)) → IsKind k →
        AreFields k.layout.columns.now row.columns → IsMoment row.moment →
        IsInRange (field_at k.table.fields.now 1) (pos row.number) →
        epoch_fault k.clock row.moment row.columns ≡ None →
        read_lines_of k (record_of k row ++ more) ≡ Ok row }
{
    written_rows_are_read();
    layouts_are_rows();
}

/// The order of rows is total, and rows compare equal by rank exactly if they are duplicates.
pub fn rows_are_ordered()
    ensures total { IsTotalOrder by_place }
    ensures alike { (x y : KindRow) → (by_rank x y ≡ Equal) ↔ IsAlike x y }
{}
