//! Theorems about the definitions. Each function does nothing; its contract is the theorem.

ghost use Rattle.std.specs.Prelude.{◌≡◌, ℕ, true, false, List, ◌∷◌, ◌++◌, length};
ghost use Rattle.nav_eph.specs.Bodies.{IsGalIon, IsGpsIon};
ghost use Rattle.nav_eph.specs.Ranges.{IsItem};
ghost use Rattle.nav_eph.specs.declared.items.GpsEph.{GpsEph};
ghost use Rattle.nav_eph.specs.declared.items.GalEph.{GalEph};
ghost use Rattle.nav_eph.specs.declared.items.NavItem.{NavItem};
ghost use Rattle.nav_eph.specs.declared.items.NavItem.TheVariants.{Gps, Gal};
ghost use Rattle.nav_eph.specs.declared.ion.GpsIon.{GpsIon};
ghost use Rattle.nav_eph.specs.declared.ion.GalIon.{GalIon};
ghost use Rattle.scaled_decimal.specs.NumberText.{AreShown};
ghost use Rattle.rinex_write.specs.declared.words.HeaderWords.{HeaderWords};
ghost use Rattle.rinex_write.specs.Texts.{AreLines, IsHeader, NoneTitled};
ghost use Rattle.rinex_write.specs.Texts.{begins_record, body_lines, header_lines_by};
ghost use Rattle.rinex_write.specs.Texts.{item_lines, text_of, title_of};
ghost use Rattle.rinex_write.specs.Columns.{AreFields, are_good, joined_rows};
ghost use Rattle.rinex_write.specs.Fields.{gps_fields, galileo_fields};
ghost use Rattle.rinex_write.specs.Fields.{gps_ionosphere_fields, galileo_ionosphere_fields};
ghost use Rattle.rinex_write.specs.Layouts.{gps_rows, galileo_rows, gps_ionosphere_rows};
ghost use Rattle.rinex_write.specs.Layouts.{galileo_ionosphere_rows};

/// Each field of an item is in the range of its column.
pub fn fields_fit_their_columns()
    ensures gps { (e : GpsEph) → IsItem (Gps e) → AreFields (joined_rows gps_rows) (gps_fields e) }
    ensures galileo { (e : GalEph) → IsItem (Gal e)
        → AreFields (joined_rows galileo_rows) (galileo_fields e) }
    ensures gps_ionosphere { (i : GpsIon) → IsGpsIon i
        → AreFields (joined_rows gps_ionosphere_rows) (gps_ionosphere_fields i) }
    ensures galileo_ionosphere { (i : GalIon) → IsGalIon i
        → AreFields (joined_rows galileo_ionosphere_rows) (galileo_ionosphere_fields i) }
{}

/// Each column has a scale at which numbers are read back exactly, and a range whose numbers can be
/// written.
pub fn columns_are_good()
    ensures gps { are_good (joined_rows gps_rows) ≡ true }
    ensures galileo { are_good (joined_rows galileo_rows) ≡ true }
    ensures gps_ionosphere { are_good (joined_rows gps_ionosphere_rows) ≡ true }
    ensures galileo_ionosphere { are_good (joined_rows galileo_ionosphere_rows) ≡ true }
{}

/// The record of an item is its title, which begins with `>`, and lines that do not; each byte
/// is at least 32.
pub fn records_are_a_title_and_a_body()
    ensures lines { (item : NavItem) → item_lines item ≡ title_of item ∷ body_lines item }
    ensures title { (item : NavItem) → begins_record (title_of item) ≡ true }
    ensures body { (item : NavItem) → NoneTitled (body_lines item) }
    ensures shown { (item : NavItem) → AreLines (item_lines item) }
    ensures body_shown { (item : NavItem) → AreLines (body_lines item) }
{}

/// A header has four lines. None begins with `>` unless the version does; each byte is at
/// least 32 if those of version and date are.
pub fn headers_are_lines()
    ensures four { (version : List ℕ) (h : HeaderWords) → length (header_lines_by version h) ≡ 4 }
    ensures untitled { (version : List ℕ) (h : HeaderWords) → begins_record version ≡ false
        → NoneTitled (header_lines_by version h) }
    ensures shown { (version : List ℕ) (h : HeaderWords) → AreShown version → IsHeader h
        → AreLines (header_lines_by version h) }
{}

/// The text of two concatenated lists of lines is their two texts concatenated.
pub fn texts_concatenate()
    ensures { (lines more : List (List ℕ)) → text_of (lines ++ more)
        ≡ text_of lines ++ text_of more }
{}
