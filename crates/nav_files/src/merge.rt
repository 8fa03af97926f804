//! Files that are merged.

ghost use Rattle.std.specs.Prelude.{◌≡◌, ◌∷◌, ◌++◌, true, List, [], IfErr, OnOk};
ghost use Rattle.std.specs.List.{flat_map};
ghost use Rattle.nav_io.specs.Writes.{Writes};
ghost use Rattle.nav_eph.specs.declared.items.NavItem.{NavItem};
ghost use Rattle.nav_lists.specs.Merging.{merged_of};
ghost use Rattle.rinex_write.specs.Texts.{header_lines, text_of};
ghost use Rattle.streams.specs.ItemTexts.{rinex_item};
ghost use Rattle.streams.specs.Times.{times_of};
ghost use Rattle.rinex_read.specs.RoundTrip.{IsWholeRead};
ghost use Rattle.nav_files.specs.Files.{counts_of_reads, read_report};
ghost use Rattle.nav_files.specs.Mirrors.{AreCounted};
ghost use Rattle.rinex_read.specs.Files.{items_of};
ghost use Rattle.nav_files.specs.Archives.{item_of, kept_counts_text};
ghost use Rattle.nav_files.specs.Archives.{merge_counts, merge_counts_text, merge_text};

use crate::counts::RinexCounts;
use crate::merge_counts::MergeCounts;
use crate::merge_records::report_read;
use crate::records::count_read;
use crate::taker::Taker;
use nav_eph::NavItem;
use nav_io::{Failed, Sink};
use nav_lists::{Merge, merging};
use one_run::{BridgeFault, Text, append_count};
use rinex_read::ItemRead;
use rinex_write::{HeaderWords, write_header, write_item};
use std::alloc::AllocError;
use streams::{Times, with_items};

// The state of a merge: the merged list of the items so far, and the counts of the records.
#[derive(Drop)]
pub(crate) struct Merged {
    pub(crate) merge: Merge,
    pub(crate) counts: RinexCounts,
}

// The job that merges files to one, with these header words.
#[derive(Drop)]
pub(crate) struct Merging {
    pub(crate) words: HeaderWords,
}

// Writes some items.
fn write_few<T: Sink>(items: &[NavItem], out: &mut T) -> Result<(), Failed>
    ensures { Writes (T.written out.old) (T.written out.new) (T.faults out.old) (T.faults out.new)
        result (flat_map rinex_item items.now) }
{
    'items: for item in items {
        write_item(item, out)?;
    }
    Ok(())
}

// Writes the items of a list.
fn write_items<T: Sink>(merge: &Merge, out: &mut T) -> Result<(), Failed>
    ensures { Writes (T.written out.old) (T.written out.new) (T.faults out.old) (T.faults out.new)
        result (flat_map rinex_item merge.now) }
{
    let mut left = merge.items();
    'items: while let Some(few) = left.next_few() {
        write_few(few.as_slice(), out)?;
    }
    Ok(())
}

// The first and the last epoch of the items of a list.
fn times_in(merge: &Merge) -> Option<Times>
    ensures { result ≡ times_of merge.now }
{
    let mut times = None;
    let mut left = merge.items();
    'items: while let Some(few) = left.next_few() {
        times = with_items(times, few.as_slice());
    }
    times
}

// Adds an item.
fn merge_item(item: &NavItem, merge: &mut Merge) -> Result<(), AllocError>
    ensures { OnOk result ((items : List NavItem) → merge.old ≡ merged_of items
        → merge.new ≡ merged_of (items ++ item.now ∷ [])) }
{
    merging();
    merge.add(item)?;
    Ok(())
}

// Adds the item of a record, if it has one.
fn merge_read(read: &ItemRead, merge: &mut Merge) -> Result<(), BridgeFault>
    ensures kept { OnOk result ((items : List NavItem) → merge.old ≡ merged_of items
        → merge.new ≡ merged_of (items ++ item_of read.now)) }
    ensures fault { IfErr result (λ fault. fault ≡ BridgeFault.NoMemory) }
{
    match read {
        ItemRead::Item { item, .. } => match merge_item(item, merge) {
            Ok(()) => Ok(()),
            Err(AllocError) => Err(BridgeFault::NoMemory),
        },
        ItemRead::Refused { .. } => Ok(()),
        ItemRead::PassedOver { .. } => Ok(()),
    }
}

// The text of the counts of a file and of the items that were kept.
fn kept_text(counts: &MergeCounts) -> Text
    ensures { result.items ≡ kept_counts_text counts.now }
{
    let mut text = Text::new();
    append_count(&mut text, b"records", counts.records);
    append_count(&mut text, b"refused", counts.refused);
    append_count(&mut text, b"passed", counts.passed);
    append_count(&mut text, b"items", counts.items);
    append_count(&mut text, b"kept", counts.kept);
    text
}

// Nothing but the header is written before the end.
impl Taker<ItemRead> for Merging {
    type State = Merged;

    type Counts = MergeCounts;

    ghost known = { IsWholeRead };

    ghost text = { λ m reads. text_of (header_lines m.words) };

    ghost told = { λ m reads. flat_map read_report reads };

    ghost whole = { λ m reads. text_of (header_lines m.words) ++ merge_text (items_of reads) };

    ghost reported = { λ m reads. flat_map read_report reads ++ merge_counts_text reads };

    ghost count = { λ m reads. merge_counts reads };

    ghost memory = { true };

    ghost holds = { λ m s reads. (s.counts ≡ counts_of_reads reads) × AreCounted s.counts
        × (s.merge ≡ merged_of (items_of reads)) };

    fn begins(&self) {}

    fn begin<T: Sink>(&self, output: &mut T) -> Result<(), Failed> {
        write_header(&self.words, output)
    }

    fn take<T: Sink, U: Sink>(
        &self,
        state: &mut Merged,
        read: &ItemRead,
        _output: &mut T,
        report: &mut U,
    ) -> Result<(), BridgeFault> {
        report_read(read, report)?;
        merge_read(read, &mut state.merge)?;
        count_read(read, &mut state.counts);
        Ok(())
    }

    fn counts(&self, state: &Merged) -> MergeCounts {
        MergeCounts {
            records: state.counts.records,
            refused: state.counts.refused,
            passed: state.counts.passed,
            items: state.counts.items,
            kept: state.merge.len() as u64,
            times: times_in(&state.merge),
        }
    }

    fn finish<T: Sink>(&self, state: &mut Merged, output: &mut T) -> Result<(), Failed> {
        write_items(&state.merge, output)
    }

    fn counts_text(&self, counts: &MergeCounts) -> Text {
        kept_text(counts)
    }
}
