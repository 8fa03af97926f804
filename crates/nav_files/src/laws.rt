//! Theorems about what is written of a file: each is the contract of an empty function.

ghost use Rattle.std.specs.Prelude.{◌≡◌, ℕ, List, IsOk};
ghost use Rattle.std.specs.List.{flat_map};
ghost use Rattle.nav_lists.specs.Merging.{merged_of};
ghost use Rattle.rinex_read.specs.Files.{file_reads, items_of, list_by, rinex_list};
ghost use Rattle.rinex_read.specs.Forms.{Form, rinex4};
ghost use Rattle.rinex_write.specs.Texts.{rinex_text};
ghost use Rattle.rinex_write.specs.Texts3.{rinex3_text};
ghost use Rattle.rinex_write.specs.declared.words.HeaderWords.{HeaderWords};
ghost use Rattle.streams.specs.ItemTexts.{rtcm_item};
ghost use Rattle.streams.specs.declared.target.Target.TheVariants as targets;
ghost use Rattle.nav_files.specs.Archives.{cover_meaning, cover_text, merge_meaning};
ghost use Rattle.nav_files.specs.Files.{convert_meaning};
ghost use Rattle.rinex_read.specs.declared.judged.ItemRead.{ItemRead};
ghost use Rattle.sent_captures.specs.Sendable.{sendable, slots_items};
ghost use Rattle.sent_captures.specs.Slots.{text_of_items};
ghost use Rattle.nav_files.specs.Sends.{outcome_text, send_outcomes};

/// What is written record by record is the capture that transmits the items of the records.
pub fn what_is_written_is_the_sent_text()
    ensures { (r slot : ℕ) (reads : List ItemRead)
        → flat_map outcome_text (send_outcomes r slot reads)
        ≡ text_of_items (slots_items slot (sendable r slot (items_of reads))) }
{}

/// What a run writes of files is the text of a list: of the items of the file, of the merged list,
/// or of the times that the items cover. A header is before it if that of the file is accepted.
pub fn what_is_written_is_the_text_of_a_list()
    ensures rinex { (f : Form ItemRead) (words : HeaderWords) (bytes : List ℕ)
        → IsOk (file_reads f bytes)
        → (convert_meaning f (targets.Rinex words)).whole.output bytes
        ≡ rinex_text words (list_by f bytes) }
    ensures rinex3 { (f : Form ItemRead) (words : HeaderWords) (bytes : List ℕ)
        → IsOk (file_reads f bytes)
        → (convert_meaning f (targets.Rinex3 words)).whole.output bytes
        ≡ rinex3_text words (list_by f bytes) }
    ensures rtcm { (f : Form ItemRead) (bytes : List ℕ)
        → (convert_meaning f targets.Rtcm).whole.output bytes
        ≡ flat_map rtcm_item (list_by f bytes) }
    ensures merged { (words : HeaderWords) (bytes : List ℕ) → IsOk (file_reads rinex4 bytes)
        → (merge_meaning words).whole.output bytes
        ≡ rinex_text words (merged_of (rinex_list bytes)) }
    ensures cover { (bytes : List ℕ) → cover_meaning.whole.output bytes
        ≡ cover_text (rinex_list bytes) }
{}
