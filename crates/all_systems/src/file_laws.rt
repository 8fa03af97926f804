//! Theorems about navigation files of all systems: each is the contract of a function that does
//! nothing.

ghost use Rattle.std.specs.Prelude.{◌≡◌, ◌++◌, ℕ, List, [], IsOk};
ghost use Rattle.std.specs.List.{flat_map};
ghost use Rattle.nav_files.specs.Files.{convert_meaning};
ghost use Rattle.streams.specs.Targets.{back_text, prefix_text};
ghost use Rattle.streams.specs.declared.target.Target.{Target};
ghost use Rattle.rinex_read.specs.Files.{file_reads, list_by};
ghost use Rattle.all_systems.specs.Streams.{Numbered, navs, text_of};
ghost use Rattle.all_systems.specs.declared.kinds.Kinds.{Kinds};
ghost use Rattle.all_systems.specs.Files.{carried_in, counts_of, counts_text, early_items};
ghost use Rattle.all_systems.specs.Files.{file_items, items_in, lasts_in, late_items, nav_form};
ghost use Rattle.all_systems.specs.Files.{nav_items, whole_by, whole_text};
ghost use Rattle.all_systems.specs.FileReadings.{LineRead};
ghost use Rattle.all_systems.specs.declared.version.Version.{Version};

/// Of any bytes, the items that [`nav_files::run_rinex`] and [`nav_files::run_rinex3`] write are
/// those of GPS and Galileo I/NAV that [`crate::run_system_file`] reads, in the same order, each
/// with the same number of its line and the same text. It writes them in that order, in RINEX 4
/// first the ephemerides, and then the ionosphere parameters.
pub fn a_file_has_the_same_items_of_gps_and_galileo()
    ensures items { (ks : Kinds) (v : Version) (bytes : List ℕ)
        → navs (file_items ks v bytes) ≡ list_by (nav_form v) bytes }
    ensures text { (ks : Kinds) (v : Version) (to : Target) (bytes : List ℕ)
        → IsOk (file_reads (nav_form v) bytes)
        → (convert_meaning (nav_form v) to).whole.output bytes
        ≡ prefix_text to ++ flat_map (text_of to) (nav_items (file_items ks v bytes)) }
    ensures early { (to : Target) (is : List Numbered)
        → nav_items (early_items to is) ≡ early_items to (nav_items is) }
    ensures late { (to : Target) (is : List Numbered)
        → late_items to is ≡ late_items to (nav_items is) }
{}

/// What a run writes of a file is the leading text, the text of the items, that of the carried
/// records, both in the order of the records, and the text of the counts; in RINEX 4 the ionosphere
/// parameters are among the carried records, in the order of the records.
pub fn what_is_written_of_a_file_is_the_text_of_its_items()
    ensures text { (to : Target) (reads : List LineRead) → whole_by to reads
        ≡ (prefix_text to ++ flat_map (text_of to) (early_items to (items_in reads)))
        ++ (flat_map (whole_text to) (lasts_in to reads)
        ++ back_text to (counts_text (counts_of to reads))) }
    ensures items { (to : Target) (reads : List LineRead)
        → items_in (lasts_in to reads) ≡ late_items to (items_in reads) }
    ensures carried { (to : Target) (reads : List LineRead)
        → carried_in (lasts_in to reads) ≡ carried_in reads }
    ensures alone { (to : Target) (reads : List LineRead) → carried_in reads ≡ []
        → whole_by to reads
        ≡ (prefix_text to ++ flat_map (text_of to) (early_items to (items_in reads)))
        ++ (flat_map (text_of to) (late_items to (items_in reads))
        ++ back_text to (counts_text (counts_of to reads))) }
{}
