//! The run that merges navigation files of all systems.

ghost use Rattle.std.specs.Prelude.{◌≡◌, ◌+◌, ◌≤◌, ◌∷◌, ◌++◌, true, List, [], IfErr, OnErr, OnOk};
ghost use Rattle.std.specs.Prelude.{if◌then◌else◌, length, map};
ghost use Rattle.std.specs.List.{flat_map};
ghost use Rattle.std.specs.Io.KnownBytes.{Appends};
ghost use Rattle.nav_io.specs.Prefix.{AppendsPrefix};
ghost use Rattle.nav_eph.specs.declared.items.NavItem.{NavItem};
ghost use Rattle.nav_rows.specs.Kinds.{IsKind};
ghost use Rattle.nav_rows.specs.Order.{KindRow, by_place, by_rank};
ghost use Rattle.nav_rows.specs.Rows.{value};
ghost use Rattle.one_run.specs.Causes.{HasItsCause, faults_of};
ghost use Rattle.one_run.specs.Runs.{Ran};
ghost use Rattle.streams.specs.Targets.{prefix_text};
ghost use Rattle.nav_lists.specs.Ranks.{ranked_of};
ghost use Rattle.rinex_write.specs.Columns.{AreFields};
ghost use Rattle.rinex_write.specs.declared.words.HeaderWords.{HeaderWords as HeaderWordsOf};
ghost use Rattle.all_systems.specs.Readings.{Item};
ghost use Rattle.all_systems.specs.CarriedOrder.{CarriedRecord, by_text, kept_record};
ghost use Rattle.all_systems.specs.Files.{carried_lines, counts_of, is_unwritten, decided_by};
ghost use Rattle.all_systems.specs.Merging.{carried_of, item_of, items_of, merge_counts};
ghost use Rattle.all_systems.specs.Merging.{merge_report};
ghost use Rattle.all_systems.specs.Merging.{merge_text, navs_of, outlet_of, rows_of};
ghost use Rattle.all_systems.specs.Merging.{system_merge_meaning};
ghost use Rattle.all_systems.specs.NavOrder.{by_numbers, by_sent};
ghost use Rattle.all_systems.specs.FileMirrors.{AreCounted, HasFields, view_given};
ghost use Rattle.all_systems.specs.FileReadings.{reading_report};

use crate::Kinds;
use crate::carried_key::CarriedKey;
use crate::counts::{SystemCounts, count_read};
use crate::file_read::{Given, RecordRead};
use crate::file_text::is_ephemeris;
use crate::form::SystemForm;
use crate::merge_counts::{SystemMergeCounts, merge_counts_text};
use crate::nav_key::NavKey;
use crate::next::write_merged;
use crate::row_key::RowKey;
use crate::version::Version;
use nav_eph::NavItem;
use nav_files::{Taker, reason_word, run_file};
use nav_io::{Failed, Sink, Source};
use nav_lists::{RankedList, ranking};
use nav_rows::{Kind, Row};
use one_run::{BridgeFault, Text, report_text};
use rinex_write::HeaderWords;
use std::alloc::{AllocError, Global};
use streams::Target;

// The state of a merge: the merged lists so far, and the counts of the records.
#[derive(Drop)]
struct SystemsMerged {
    alloc: Global,
    navs: RankedList<NavKey>,
    rows: RankedList<RowKey>,
    records: RankedList<CarriedKey>,
    counts: SystemCounts,
}

// The run that merges files to one of a version, with these header words.
#[derive(Drop)]
struct SystemsMerging {
    to: Version,
    words: HeaderWords,
}

// The format of the merged file.
fn outlet_of(to: Version, words: HeaderWords) -> Target
    ensures { result ≡ outlet_of to words }
{
    match to {
        Version::Four => Target::Rinex(words),
        Version::Three => Target::Rinex3(words),
    }
}

// Reports why a record is rejected, if it is.
fn report_given<U: Sink>(line: u32, given: &Given, report: &mut U) -> Result<(), BridgeFault>
    ensures report { OnOk result (Appends (U.written report.old) (U.written report.new)
        (reading_report line (view_given given.now))) }
    ensures part { OnErr result (AppendsPrefix (U.written report.old) (U.written report.new)
        (reading_report line (view_given given.now))) }
    ensures cause { HasItsCause (faults_of 0 0 (U.faults report.old))
        (faults_of 0 0 (U.faults report.new)) result }
    ensures fault { IfErr result (λ fault. fault ≡ BridgeFault.ReportFault) }
{
    match given {
        Given::Refused(reason) => {
            let text = report_text(b"line", u64::from(line), reason_word(*reason));
            match report.write(text.as_slice()) {
                Ok(()) => Ok(()),
                Err(Failed) => Err(BridgeFault::ReportFault),
            }
        }
        Given::Nav(_) => Ok(()),
        Given::Further(_, _) => Ok(()),
        Given::Carried(_) => Ok(()),
        Given::Passed => Ok(()),
    }
}

// Adds an item of GPS or Galileo.
fn merge_nav(
    alloc: Global,
    item: &NavItem,
    navs: &mut RankedList<NavKey>,
) -> Result<(), BridgeFault>
    ensures kept { OnOk result ((items : List NavItem) →
        navs.old ≡ ranked_of by_numbers by_sent items
        → navs.new ≡ ranked_of by_numbers by_sent (items ++ item.now ∷ [])) }
    ensures fault { IfErr result (λ fault. fault ≡ BridgeFault.NoMemory) }
{
    ranking::<NavKey>();
    let Ok(key) = NavKey::new(alloc, item) else {
        return Err(BridgeFault::NoMemory);
    };
    match navs.add(key) {
        Ok(()) => Ok(()),
        Err(AllocError) => Err(BridgeFault::NoMemory),
    }
}

// Adds a row of a kind.
fn merge_row(
    alloc: Global,
    kind: &Kind,
    row: &Row,
    rows: &mut RankedList<RowKey>,
) -> Result<(), BridgeFault>
    requires kind { IsKind kind.now }
    requires fields { AreFields kind.now.layout.columns.now row.now.columns.items }
    ensures kept { OnOk result ((xs : List KindRow) → rows.old ≡ ranked_of by_rank by_place xs
        → rows.new ≡ ranked_of by_rank by_place
        (xs ++ record { kind = kind.now; row = value row.now } ∷ [])) }
    ensures fault { IfErr result (λ fault. fault ≡ BridgeFault.NoMemory) }
{
    ranking::<RowKey>();
    let Ok(key) = RowKey::new(alloc, kind, row) else {
        return Err(BridgeFault::NoMemory);
    };
    match rows.add(key) {
        Ok(()) => Ok(()),
        Err(AllocError) => Err(BridgeFault::NoMemory),
    }
}

// Adds a carried record of these lines.
fn merge_lines(
    alloc: Global,
    lines: &[[u8; 80]],
    records: &mut RankedList<CarriedKey>,
) -> Result<(), BridgeFault>
    requires { length lines.now ≤ 12 }
    ensures kept { OnOk result ((xs : List CarriedRecord) →
        records.old ≡ ranked_of by_text by_text xs
        → records.new ≡ ranked_of by_text by_text (xs ++ kept_record lines.now ∷ [])) }
    ensures fault { IfErr result (λ fault. fault ≡ BridgeFault.NoMemory) }
{
    ranking::<CarriedKey>();
    let Ok(key) = CarriedKey::new(alloc, lines) else {
        return Err(BridgeFault::NoMemory);
    };
    match records.add(key) {
        Ok(()) => Ok(()),
        Err(AllocError) => Err(BridgeFault::NoMemory),
    }
}

// Adds a record, if it is carried.
fn merge_carried(
    alloc: Global,
    given: &Given,
    records: &mut RankedList<CarriedKey>,
) -> Result<(), BridgeFault>
    requires { HasFields given.now }
    ensures kept { OnOk result ((xs : List CarriedRecord) →
        records.old ≡ ranked_of by_text by_text xs
        → records.new ≡ ranked_of by_text by_text
        (xs ++ map kept_record (carried_lines (view_given given.now)))) }
    ensures fault { IfErr result (λ fault. fault ≡ BridgeFault.NoMemory) }
{
    match given {
        Given::Carried(lines) => merge_lines(alloc, lines.as_slice(), records),
        Given::Nav(_) => Ok(()),
        Given::Further(_, _) => Ok(()),
        Given::Refused(_) => Ok(()),
        Given::Passed => Ok(()),
    }
}

// Adds the item of a record, if it has one.
fn merge_given(
    alloc: Global,
    given: &Given,
    navs: &mut RankedList<NavKey>,
    rows: &mut RankedList<RowKey>,
) -> Result<(), BridgeFault>
    requires { HasFields given.now }
    ensures navs { OnOk result ((items : List Item) →
        navs.old ≡ ranked_of by_numbers by_sent (navs_of items)
        → navs.new ≡ ranked_of by_numbers by_sent
        (navs_of (items ++ item_of (view_given given.now)))) }
    ensures rows { OnOk result ((items : List Item)
        → rows.old ≡ ranked_of by_rank by_place (rows_of items)
        → rows.new ≡ ranked_of by_rank by_place
        (rows_of (items ++ item_of (view_given given.now)))) }
    ensures fault { IfErr result (λ fault. fault ≡ BridgeFault.NoMemory) }
{
    match given {
        Given::Nav(item) => merge_nav(alloc, item, navs),
        Given::Further(kind, row) => merge_row(alloc, kind, row, rows),
        Given::Refused(_) => Ok(()),
        Given::Carried(_) => Ok(()),
        Given::Passed => Ok(()),
    }
}

// Whether the item of a record has a record in the output format, if it is an item.
fn is_written(to: Version, given: &Given) -> bool
    ensures { (words : HeaderWordsOf) → (if result then 0 else 1)
        ≡ is_unwritten (outlet_of to words) (view_given given.now) }
{
    match to {
        Version::Four => true,
        Version::Three => match given {
            Given::Nav(item) => is_ephemeris(item),
            Given::Further(_, _) => true,
            Given::Refused(_) => true,
            Given::Carried(_) => false,
            Given::Passed => true,
        },
    }
}

// The sum of both, where it is not above the limit.
fn sum_within(a: usize, b: usize, limit: u64) -> u64
    ensures { a + b ≤ limit → result ≡ a + b }
{
    (a as u64).saturating_add(b as u64).min(limit)
}

// Nothing but the header is written before the end.
impl Taker<RecordRead> for SystemsMerging {
    type State = SystemsMerged;

    type Counts = SystemMergeCounts;

    ghost known = { λ read. Unit {0} };

    ghost text = { λ m reads. prefix_text (outlet_of m.to m.words) };

    ghost told = { λ m reads. decided_by reads };

    ghost whole = { λ m reads. merge_text (outlet_of m.to m.words) reads };

    ghost reported = { λ m reads. merge_report (outlet_of m.to m.words) reads };

    ghost count = { λ m reads. merge_counts (outlet_of m.to m.words) reads };

    ghost memory = { true };

    ghost holds = { λ m s reads. (s.counts ≡ counts_of (outlet_of m.to m.words) reads)
        × AreCounted s.counts × (s.navs ≡ ranked_of by_numbers by_sent (navs_of (items_of reads)))
        × (s.rows ≡ ranked_of by_rank by_place (rows_of (items_of reads)))
        × (s.records ≡ ranked_of by_text by_text (carried_of reads)) };

    fn begins(&self) {}

    fn begin<T: Sink>(&self, output: &mut T) -> Result<(), Failed> {
        outlet_of(self.to, self.words).begin(output)
    }

    fn take<T: Sink, U: Sink>(
        &self,
        state: &mut SystemsMerged,
        read: &RecordRead,
        _output: &mut T,
        report: &mut U,
    ) -> Result<(), BridgeFault> {
        let given = read.given();
        report_given(read.line(), given, report)?;
        merge_given(state.alloc, given, &mut state.navs, &mut state.rows)?;
        merge_carried(state.alloc, given, &mut state.records)?;
        count_read(given, is_written(self.to, given), &mut state.counts);
        Ok(())
    }

    fn counts(&self, state: &SystemsMerged) -> SystemMergeCounts {
        let records = state.counts.records;
        SystemMergeCounts {
            records,
            refused: state.counts.refused,
            passed: state.counts.passed,
            carried: state.counts.carried,
            items: state.counts.items,
            kept: sum_within(state.navs.len(), state.rows.len(), records),
            unwritten: state.counts.unwritten,
            times: state.counts.times,
        }
    }

    fn finish<T: Sink>(&self, state: &mut SystemsMerged, output: &mut T) -> Result<(), Failed> {
        let to = outlet_of(self.to, self.words);
        write_merged(&to, &state.navs, &state.rows, &state.records, output)
    }

    fn counts_text(&self, counts: &SystemMergeCounts) -> Text {
        merge_counts_text(counts)
    }
}

/// Reads navigation files of a version, concatenated, to their end, and writes one file with the
/// merged list of their items of all systems and of the carried records.
///
/// The header is checked first, and that of the merged file is written. A rejected record gives a
/// line of the report, with the number of its first line. At the end of the input the items are
/// written in order of time, of duplicates the one with the earliest transmission time. So are, in
/// RINEX 4, the records of other kinds that are carried as
/// [`run_system_file`](crate::run_system_file()) has them, each once. Then the counts are reported.
///
/// # Errors
///
/// As those of [`nav_files::run_merge`].
pub fn run_system_merge<S: Source, T: Sink, U: Sink>(
    alloc: Global,
    kinds: &Kinds,
    version: Version,
    to: Version,
    words: &HeaderWords,
    input: &mut S,
    output: &mut T,
    report: &mut U,
) -> Result<SystemMergeCounts, BridgeFault>
    ensures { Ran (system_merge_meaning kinds.now version (outlet_of to words.now))
        S.left S.never_fails S.faults T.written T.faults U.written U.faults
        input.old input.new output.old output.new report.old report.new result }
{
    let mut state = SystemsMerged {
        alloc,
        navs: RankedList::new(alloc),
        rows: RankedList::new(alloc),
        records: RankedList::new(alloc),
        counts: SystemCounts::new(),
    };
    let form = SystemForm {
        kinds: *kinds,
        version,
    };
    let merging = SystemsMerging { to, words: *words };
    run_file::<RecordRead, SystemForm, SystemsMerging, S, T, U>(
        &form, &merging, &mut state, input, output, report,
    )
}
