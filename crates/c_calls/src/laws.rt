//! Theorems about what is written and read. Each function does nothing; its contract is the
//! theorem.

ghost use Rattle.std.specs.Prelude.{◌≡◌, ◌<◌, ℕ, List, Ok, Some};
ghost use Rattle.nav_eph.specs.Ranges.{IsItem};
ghost use Rattle.nav_eph.specs.Satellite.{IsSat, Satellite};
ghost use Rattle.nav_eph.specs.declared.sat.System.TheVariants.{Gal, Gps};
ghost use Rattle.nav_eph.specs.declared.part.Part.{Part};
ghost use Rattle.nav_eph.specs.declared.items.GalEph.{GalEph};
ghost use Rattle.nav_eph.specs.declared.items.GpsEph.{GpsEph};
ghost use Rattle.nav_eph.specs.declared.items.NavItem.{NavItem};
ghost use Rattle.nav_eph.specs.declared.items.NavItem.TheVariants.{Gal as GalItem, Gps as GpsItem};
ghost use Rattle.lnav_subframe.specs.Reading.{subframe_of};
ghost use Rattle.rinex_read.specs.declared.judged.ItemRead.TheVariants.{Item};
ghost use Rattle.c_calls.specs.Pages as pages;
ghost use Rattle.c_calls.specs.RecordReads.{read_in};
ghost use Rattle.c_calls.specs.RecordWrites.{record_text};
ghost use Rattle.c_calls.specs.Subframes as subframes;
ghost use Rattle.c_calls.specs.declared.page_raw.PageBits.{PageBits};
ghost use Rattle.c_calls.specs.declared.page_raw.WordRaw.{WordRaw};
ghost use Rattle.c_calls.specs.declared.subframe_raw.SubframeBits.{SubframeBits};
ghost use Rattle.c_calls.specs.declared.subframe_raw.SubframeRaw.{SubframeRaw};

/// A subframe that is written is read, from any satellite, as numbers of the same content; and what
/// is read of a GPS satellite can be written.
pub fn subframes_come_back()
    ensures written { (raw old : SubframeRaw) (tow_count : ℕ) (sat : Satellite)
        (bits : SubframeBits) → tow_count < 100800 → subframes.IsContent (subframes.content_in raw)
        → subframes.IsSubframeOf (subframes.content_in raw) tow_count bits
        → subframes.IsReadAs (subframe_of bits.bytes sat 0) old (subframes.content_in raw) }
    ensures read { (bits : List ℕ) (sat : Satellite) (part : Part) (old : SubframeRaw) →
        sat.system ≡ Gps → subframe_of bits sat 0 ≡ Ok part →
        subframes.IsContent (subframes.content_in (subframes.raw_subframe part.body old)) }
{
    lnav_subframe::subframe_bytes_are_written();
    lnav_subframe::subframe_parts();
}

/// The page that is written of a word is a page of a right even and odd part, and is read, from the
/// satellite that sent it, as numbers of the same content.
pub fn pages_come_back()
    ensures whole { (raw : WordRaw) (satellite : ℕ) (page : PageBits) →
        pages.IsPageOf (pages.content_in raw) satellite page → (pages.IsAlert page → ⊥)
        × pages.ArePair page × pages.BelongTogether page }
    ensures written { (raw old : WordRaw) (satellite : ℕ) (page : PageBits) → IsSat Gal satellite
        → pages.IsContent (pages.content_in raw)
        → pages.IsPageOf (pages.content_in raw) satellite page
        → pages.IsReadAs (pages.word_read page (record { system = Gal; number = satellite })) old
        (pages.content_in raw) }
{
    inav::split_is_a_word();
    inav::halves_are_read_again();
    inav::parts_are_their_bits();
    inav::word_bytes();
    inav::written_word1_is_read();
    inav::written_word2_is_read();
    inav::written_word3_is_read();
    inav::written_word4_is_read();
    inav::written_word5_is_read();
}

/// The record that is written of an item is read as that item: of version 4 each, of version 3 an
/// ephemeris.
pub fn records_come_back()
    ensures version4 { (item : NavItem) → IsItem item →
        read_in 4 (record_text 4 item) ≡ Item 1 item }
    ensures gps { (e : GpsEph) → IsItem (GpsItem e) →
        read_in 3 (record_text 3 (GpsItem e)) ≡ Item 1 (GpsItem e) }
    ensures galileo { (e : GalEph) → IsItem (GalItem e) →
        read_in 3 (record_text 3 (GalItem e)) ≡ Item 1 (GalItem e) }
{
    rinex_read::records_are_read();
    rinex_read::records3_are_read();
}
