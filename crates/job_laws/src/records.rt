//! Records, headers and complete navigation files, column by column: each theorem is the contract
//! of an empty function.

ghost use Rattle.std.specs.Prelude.{◌≡◌, ◌↔◌, ℕ, List, ◌∷◌, Err, Ok, true};
ghost use Rattle.nav_eph.specs.declared.items.NavItem.{NavItem};
ghost use Rattle.rinex_read.specs.declared.judged.HeaderFault.TheVariants.{NotRinexNav, Version};
ghost use Rattle.rinex_read.specs.declared.judged.Judged.TheVariants.{Item};
ghost use Rattle.rinex_read.specs.declared.judged.ItemRead.{ItemRead};
ghost use Rattle.rinex_read.specs.Files.{Body, file_reads, header_of, items_of};
ghost use Rattle.rinex_read.specs.Form3.{judged3, rinex3};
ghost use Rattle.rinex_read.specs.Forms.{begins, rinex4};
ghost use Rattle.rinex_read.specs.Judging.{judged};
ghost use Rattle.job_laws.specs.RinexFiles.{IsFile3, IsFile4};
ghost use Rattle.job_laws.specs.RinexRecords.{IsHeaderBefore, IsOtherVersion, IsRecord, IsRecord3};
ghost use Rattle.job_laws.specs.RinexRecords.{IsVersion3, IsVersion4};

/// A title that begins with `>` and the lines after it are read as an item exactly if they are a
/// record of it, in RINEX 4 (RINEX 4.01, navigation records EPH LNAV, EPH INAV and ION); they are a
/// record of one item at most.
pub fn records_give_their_items()
    ensures read { (title : List ℕ) (lines : List (List ℕ)) (item : NavItem)
        → ((begins rinex4 title ≡ true) × (judged (title ∷ lines) ≡ Item item))
        ↔ IsRecord title lines item }
    ensures one { (title : List ℕ) (lines : List (List ℕ)) (item other : NavItem)
        → IsRecord title lines item → IsRecord title lines other → item ≡ other }
{
    scaled_decimal::texts_are_seen();
}

/// Lines are read as an item exactly if they are a record of it, in RINEX 3 (RINEX 3.05, GPS and
/// Galileo navigation message files); they are a record of one item at most.
pub fn records3_give_their_items()
    ensures read { (lines : List (List ℕ)) (item : NavItem)
        → (judged3 lines ≡ Item item) ↔ IsRecord3 lines item }
    ensures one { (lines : List (List ℕ)) (item other : NavItem)
        → IsRecord3 lines item → IsRecord3 lines other → item ≡ other }
{
    scaled_decimal::texts_are_seen();
}

/// Lines are read as a header and a body exactly if they are that, a version is rejected exactly if
/// the lines begin as a navigation file of another version, and all others are rejected as no
/// navigation file, in RINEX 4 and in RINEX 3.
pub fn headers_have_their_columns()
    ensures read { (lines : List (List ℕ)) (body : Body)
        → (header_of rinex4 0 lines ≡ Ok body) ↔ IsHeaderBefore IsVersion4 lines body }
    ensures version { (lines : List (List ℕ))
        → (header_of rinex4 0 lines ≡ Err Version) ↔ IsOtherVersion IsVersion4 lines }
    ensures neither { (lines : List (List ℕ)) → (header_of rinex4 0 lines ≡ Err NotRinexNav)
        ↔ (((body : Body) → IsHeaderBefore IsVersion4 lines body → ⊥)
        × (IsOtherVersion IsVersion4 lines → ⊥)) }
    ensures read3 { (lines : List (List ℕ)) (body : Body)
        → (header_of rinex3 0 lines ≡ Ok body) ↔ IsHeaderBefore IsVersion3 lines body }
    ensures version3 { (lines : List (List ℕ))
        → (header_of rinex3 0 lines ≡ Err Version) ↔ IsOtherVersion IsVersion3 lines }
    ensures neither3 { (lines : List (List ℕ)) → (header_of rinex3 0 lines ≡ Err NotRinexNav)
        ↔ (((body : Body) → IsHeaderBefore IsVersion3 lines body → ⊥)
        × (IsOtherVersion IsVersion3 lines → ⊥)) }
{}

/// Bytes are read as a file with these items exactly if they are a header, and records of these
/// items in this order, among others that are records of no item; in RINEX 4 and in RINEX 3.
pub fn files_give_their_items()
    ensures four { (bytes : List ℕ) (items : List NavItem)
        → ((given : List ItemRead) × (file_reads rinex4 bytes ≡ Ok given)
        × (items_of given ≡ items)) ↔ IsFile4 bytes items }
    ensures three { (bytes : List ℕ) (items : List NavItem)
        → ((given : List ItemRead) × (file_reads rinex3 bytes ≡ Ok given)
        × (items_of given ≡ items)) ↔ IsFile3 bytes items }
{
    scaled_decimal::texts_are_seen();
}
