//! Theorems about written and read records and files. Each function does nothing; its contract is
//! the theorem.

ghost use Rattle.std.specs.Prelude.{◌≡◌, ℕ, ◌+◌, ◌^◌, ◌<◌, ◌++◌, [], List};
ghost use Rattle.std.specs.Prelude.{Option, None, Err, Ok, true, length, map, take};
ghost use Rattle.nav_io.specs.declared.lines.LineFault.{LineFault};
ghost use Rattle.nav_io.specs.declared.lines.LineFault.TheVariants.{ReadFault, TooLong};
ghost use Rattle.rinex_read.specs.Kept.{padded};
ghost use Rattle.rinex_read.specs.States.{AreEarly, BreaksHeader, BreaksRecord, EarlySteps};
ghost use Rattle.rinex_read.specs.States.{GivesRead, NearSteps};
ghost use Rattle.rinex_read.specs.States.{HeaderSteps, IsNew, IsPaused, PassesHeader, RecordsState};
ghost use Rattle.rinex_read.specs.States.{Steps, file_to_come, is_waiting};
ghost use Rattle.rinex_read.specs.Form3.{rinex3_list};
ghost use Rattle.rinex_read.specs.Forms.{rinex4};
ghost use Rattle.rinex_read.specs.declared.judged.HeaderFault.{HeaderFault};
ghost use Rattle.rinex_read.specs.declared.judged.HeaderFault.TheVariants as faults;
ghost use Rattle.std.specs.List.{flat_map};
ghost use Rattle.nav_eph.specs.declared.items.NavItem.{NavItem};
ghost use Rattle.nav_eph.specs.Ranges.{IsItem};
ghost use Rattle.rinex_write.specs.declared.words.HeaderWords.{HeaderWords};
ghost use Rattle.rinex_write.specs.Texts.{IsHeader, header_lines, item_lines, rinex_text, text_of};
ghost use Rattle.rinex_read.specs.declared.judged.Judged.TheVariants as judgments;
ghost use Rattle.rinex_read.specs.Judging.{judged};
ghost use Rattle.rinex_read.specs.Files.{BeginWith, early_reads, file_reads, items_of, records_in};
ghost use Rattle.rinex_read.specs.Files.{rinex_list, whole_reads};
ghost use Rattle.rinex_read.specs.declared.judged.HeaderState.TheVariants.{Passed};
ghost use Rattle.rinex_read.specs.RoundTrip.{AllStand, AreHeaderLines, AreItems};
ghost use Rattle.rinex_read.specs.RoundTrip.{StandFor, numbered, numbered_by};

use crate::form::{FileForm, Rinex4};
use crate::form3::Rinex3;
use crate::judged::ItemRead;

/// The record that is written for an item is one version 4 record and gives that item, whatever
/// lines follow.
pub fn record_lines_stand()
    ensures { (item : NavItem) → IsItem item → StandFor rinex4 (item_lines item) item }
{}

/// The header that is written is a header of version 4, whatever lines follow.
pub fn header_lines_are_read()
    ensures { (h : HeaderWords) → IsHeader h → AreHeaderLines rinex4 (header_lines h) }
{}

/// A file that is written from a header and records that give items is read as these items, each
/// with its first line's number; no record is rejected or skipped.
pub fn written_files_are_read<F: FileForm<ItemRead>>(form: &F)
    ensures { (header : List (List ℕ)) (write : NavItem → List (List ℕ)) (items : List NavItem)
        → AreHeaderLines (F.form form.now) header → AllStand (F.form form.now) write items
        → (file_reads (F.form form.now) (text_of (header ++ flat_map write items))
        ≡ Ok (numbered_by write (length header) items))
        × (items_of (numbered_by write (length header) items) ≡ items) }
{}

/// The record that is written for an item is read as that item, whatever lines follow.
pub fn records_are_read()
    ensures { (item : NavItem) (more : List (List ℕ)) → IsItem item
        → judged (item_lines item ++ more) ≡ judgments.Item item }
{}

/// An item that a record gives is consistent, each field within its width.
pub fn items_are_whole()
    ensures { (lines : List (List ℕ)) (item : NavItem) → judged lines ≡ judgments.Item item
        → IsItem item }
{}

/// Each item of a file is consistent, each field within its width.
pub fn listed_items_are_whole()
    ensures list { (bytes : List ℕ) → AreItems (rinex_list bytes) }
    ensures list3 { (bytes : List ℕ) → AreItems (rinex3_list bytes) }
{
    Rinex4.gives_whole();
    Rinex3.gives_whole();
}

/// Of a record only the first nine lines and the first 80 characters of each matter; a shorter line
/// counts as filled with blanks.
pub fn columns_behind_the_last_are_not_looked_at()
    ensures { (lines : List (List ℕ)) → judged (map padded (take 9 lines)) ≡ judged lines }
{}

/// A list of items that is written and read back is that list, and no record is rejected or
/// skipped.
pub fn files_are_read()
    ensures list { (h : HeaderWords) (items : List NavItem) → IsHeader h → AreItems items
        → rinex_list (rinex_text h items) ≡ items }
    ensures records { (h : HeaderWords) (items : List NavItem) → IsHeader h → AreItems items
        → file_reads rinex4 (rinex_text h items) ≡ Ok (numbered 4 items) }
{}

/// The list of two concatenated texts is the two lists concatenated.
pub fn joined_files_are_read()
    ensures list { (h k : HeaderWords) (some more : List NavItem) → IsHeader h → IsHeader k
        → AreItems some → AreItems more
        → rinex_list (rinex_text h some ++ rinex_text k more) ≡ some ++ more }
    ensures records { (h k : HeaderWords) (some more : List NavItem) → IsHeader h → IsHeader k
        → AreItems some → AreItems more
        → file_reads rinex4 (rinex_text h some ++ rinex_text k more)
        ≡ Ok (numbered 4 some ++ numbered (8 + length (flat_map item_lines some)) more) }
{}

/// From the first call on, what is still to be read is what the file gives, whatever bytes it has.
pub fn readers_begin_with_the_file<R, F: FileForm<R>>(form: &F)
    ensures { (s : RecordsState) (bytes : List ℕ) → IsNew s → file_to_come (F.form form.now) s bytes
        ≡ file_reads (F.form form.now) bytes }
{
    form.looks_at_kept();
}

/// Consecutive steps of a reader are one step.
pub fn steps_compose<R, F: FileForm<R>>(form: &F)
    ensures none { (left : Option (List ℕ)) (state : RecordsState)
        → Steps (F.form form.now) left left state state [] }
    ensures records { (left middle left_new : Option (List ℕ)) (old now new : RecordsState)
        (some more : List R) → Steps (F.form form.now) left middle old now some
        → Steps (F.form form.now) middle left_new now new more
        → Steps (F.form form.now) left left_new old new (some ++ more) }
    ensures near_none { (left : Option (List ℕ)) (state : RecordsState)
        → NearSteps (F.form form.now) left left state state [] }
    ensures near { (left middle left_new : Option (List ℕ)) (old now new : RecordsState)
        (some more : List R) → NearSteps (F.form form.now) left middle old now some
        → NearSteps (F.form form.now) middle left_new now new more
        → NearSteps (F.form form.now) left left_new old new (some ++ more) }
    ensures early { (left middle left_new : Option (List ℕ)) (old now new : RecordsState)
        (some more : List R) → NearSteps (F.form form.now) left middle old now some
        → EarlySteps (F.form form.now) middle left_new now new more
        → EarlySteps (F.form form.now) left left_new old new (some ++ more) }
    ensures early_near { (left left_new : Option (List ℕ)) (old new : RecordsState)
        (given : List R) → NearSteps (F.form form.now) left left_new old new given
        → EarlySteps (F.form form.now) left left_new old new given }
    ensures header_none { (left : Option (List ℕ)) (state : RecordsState)
        → HeaderSteps (F.form form.now) left left state state }
    ensures header { (left middle left_new : Option (List ℕ)) (old now new : RecordsState)
        → HeaderSteps (F.form form.now) left middle old now
        → HeaderSteps (F.form form.now) middle left_new now new
        → HeaderSteps (F.form form.now) left left_new old new }
{}

/// A reader that has paused, as after a failed read, has given exactly the records that are
/// complete in the bytes read: those after which another one begins, in a complete line.
pub fn whole_records_are_given<R, F: FileForm<R>>(form: &F)
    ensures records { (left middle left_new : Option (List ℕ)) (old now new : RecordsState)
        (given : List R) → IsNew old → (header : PassesHeader (F.form form.now) left middle old now)
        → (steps : Steps (F.form form.now) middle left_new now new given) → IsPaused new
        → whole_reads (F.form form.now) (header.steps.reads.taken ++ steps.reads.taken) ≡ Ok given }
    ensures header { (left left_new : Option (List ℕ)) (old new : RecordsState) → IsNew old
        → (steps : HeaderSteps (F.form form.now) left left_new old new)
        → is_waiting new.header ≡ true
        → IsPaused new → whole_reads (F.form form.now) steps.reads.taken ≡ Err faults.NotRinexNav }
{
    form.looks_at_kept();
}

/// The records that are complete in all bytes taken but the last 4,096 were given, also if the
/// reader broke off; before the end of a header there are none. Those that are complete in the
/// first bytes of a file are its first.
pub fn early_records_are_given<R, F: FileForm<R>>(form: &F)
    ensures records { (left middle left_new : Option (List ℕ)) (old now new : RecordsState)
        (given : List R) → IsNew old → (header : PassesHeader (F.form form.now) left middle old now)
        → (steps : Steps (F.form form.now) middle left_new now new given)
        → AreEarly now.lines steps.reads.taken steps.lines
        → BeginWith given (early_reads (F.form form.now)
        (header.steps.reads.taken ++ steps.reads.taken)) }
    ensures header { (left left_new : Option (List ℕ)) (old new : RecordsState) → IsNew old
        → (steps : HeaderSteps (F.form form.now) left left_new old new)
        → AreEarly old.lines steps.reads.taken steps.lines → (new.header ≡ Passed → ⊥)
        → early_reads (F.form form.now) steps.reads.taken ≡ [] }
    ensures first { (front rest : List ℕ)
        → BeginWith (records_in (file_reads (F.form form.now) (front ++ rest)))
        (records_in (whole_reads (F.form form.now) front)) }
{
    form.looks_at_kept();
}

/// After the end each further call gives the end again.
pub fn the_end_stays<R, F: FileForm<R>>(form: &F)
    ensures read { (read : Option R) (left left_new : Option (List ℕ)) (old new : RecordsState)
        → old.kept ≡ [] → old.lines.rest ≡ [] → old.lines.ended ≡ true
        → GivesRead (F.form form.now) read left left_new old new → read ≡ None }
    ensures fault { (fault : LineFault) (left left_new : Option (List ℕ)) (old new : RecordsState)
        → old.lines.ended ≡ true → old.lines.taken < 2 ^ 32
        → BreaksRecord (F.form form.now) left left_new old new fault → ⊥ }
{}

/// Once there were too many bytes, each further call gives `TooLong`.
pub fn too_many_bytes_stay_too_many<R, F: FileForm<R>>(form: &F)
    ensures read { (read : Option R) (left left_new : Option (List ℕ)) (old new : RecordsState)
        → old.lines.taken ≡ 2 ^ 32 → GivesRead (F.form form.now) read left left_new old new → ⊥ }
    ensures fault { (left left_new : Option (List ℕ)) (old new : RecordsState)
        → old.lines.taken ≡ 2 ^ 32 → BreaksRecord (F.form form.now) left left_new old new ReadFault
        → ⊥ }
    ensures header { (left left_new : Option (List ℕ)) (old new : RecordsState)
        → old.lines.taken ≡ 2 ^ 32 → is_waiting old.header ≡ true
        → PassesHeader (F.form form.now) left left_new old new → ⊥ }
    ensures refused { (fault : HeaderFault) (left left_new : Option (List ℕ))
        (old new : RecordsState)
        → old.lines.taken ≡ 2 ^ 32 → is_waiting old.header ≡ true
        → BreaksHeader (F.form form.now) left left_new old new fault → fault ≡ faults.Line TooLong }
{}
