//! The times that files cover.

ghost use Rattle.std.specs.Prelude.{◌≡◌, ◌∷◌, ◌++◌, true, List, [], IfErr, OnOk};
ghost use Rattle.std.specs.List.{Contains, flat_map};
ghost use Rattle.nav_io.specs.Writes.{Writes};
ghost use Rattle.nav_eph.specs.declared.items.NavItem.{NavItem};
ghost use Rattle.nav_lists.specs.Covering.{AreCovering, AreCovers};
ghost use Rattle.rinex_read.specs.RoundTrip.{IsWholeRead};
ghost use Rattle.nav_files.specs.Files.{counts_of_reads, read_report};
ghost use Rattle.nav_files.specs.Mirrors.{AreCounted};
ghost use Rattle.nav_files.specs.Archives.{cover_counts_text, cover_line, cover_text};
ghost use Rattle.rinex_read.specs.Files.{items_of};
ghost use Rattle.nav_files.specs.Archives.{item_of};

use crate::counts::{RinexCounts, file_counts_text};
use crate::merge_records::report_read;
use crate::records::count_read;
use crate::taker::Taker;
use nav_eph::NavItem;
use nav_io::{Failed, Sink};
use nav_lists::{Cover, CoverRange, covering};
use one_run::{BridgeFault, Text, append, append_decimal};
use rinex_read::ItemRead;
use std::alloc::AllocError;
use streams::append_satellite;

// The state over files: the times that their items cover, and the counts of their records.
#[derive(Drop)]
pub(crate) struct Covered {
    pub(crate) cover: Cover,
    pub(crate) counts: RinexCounts,
}

// The job that finds the times that files cover.
#[derive(Drop)]
pub(crate) struct Covers;

// The line of a range.
fn range_line(range: &CoverRange) -> Text
    ensures { result.items ≡ cover_line range.now }
{
    let mut text = Text::new();
    append_satellite(&mut text, range.sat);
    append(&mut text, b" ");
    append_decimal(&mut text, range.from);
    append(&mut text, b" ");
    append_decimal(&mut text, range.to);
    append(&mut text, b"\n");
    text
}

// Writes the lines of ranges.
fn write_ranges<T: Sink>(cover: &mut Cover, out: &mut T) -> Result<(), Failed>
    ensures { Writes (T.written out.old) (T.written out.new) (T.faults out.old) (T.faults out.new)
        result (flat_map cover_line cover.old) }
{
    'lines: while let Some(range) = cover.take_first() {
        out.write(range_line(&range).as_slice())?;
    }
    Ok(())
}

// Adds what an item covers.
fn cover_item(item: &NavItem, cover: &mut Cover) -> Result<(), AllocError>
    ensures { OnOk result ((items : List NavItem)
        → AreCovers (AreCovering (Contains items)) cover.old
        → AreCovers (AreCovering (Contains (items ++ item.now ∷ []))) cover.new) }
{
    cover.add(item)?;
    Ok(())
}

// Adds what the item of a record covers, if it has one.
fn cover_read(read: &ItemRead, cover: &mut Cover) -> Result<(), BridgeFault>
    ensures kept { OnOk result ((items : List NavItem)
        → AreCovers (AreCovering (Contains items)) cover.old
        → AreCovers (AreCovering (Contains (items ++ item_of read.now))) cover.new) }
    ensures fault { IfErr result (λ fault. fault ≡ BridgeFault.NoMemory) }
{
    match read {
        ItemRead::Item { item, .. } => match cover_item(item, cover) {
            Ok(()) => Ok(()),
            Err(AllocError) => Err(BridgeFault::NoMemory),
        },
        ItemRead::Refused { .. } => Ok(()),
        ItemRead::PassedOver { .. } => Ok(()),
    }
}

// Nothing is written before the end.
impl Taker<ItemRead> for Covers {
    type State = Covered;

    type Counts = RinexCounts;

    ghost known = { IsWholeRead };

    ghost text = { λ c reads. [] };

    ghost told = { λ c reads. flat_map read_report reads };

    ghost whole = { λ c reads. cover_text (items_of reads) };

    ghost reported = { λ c reads. flat_map read_report reads ++ cover_counts_text reads };

    ghost count = { λ c reads. counts_of_reads reads };

    ghost memory = { true };

    ghost holds = { λ c s reads. (s.counts ≡ counts_of_reads reads) × AreCounted s.counts
        × AreCovers (AreCovering (Contains (items_of reads))) s.cover };

    fn begins(&self) {}

    fn begin<T: Sink>(&self, _output: &mut T) -> Result<(), Failed> {
        Ok(())
    }

    fn take<T: Sink, U: Sink>(
        &self,
        state: &mut Covered,
        read: &ItemRead,
        _output: &mut T,
        report: &mut U,
    ) -> Result<(), BridgeFault> {
        report_read(read, report)?;
        cover_read(read, &mut state.cover)?;
        count_read(read, &mut state.counts);
        Ok(())
    }

    fn counts(&self, state: &Covered) -> RinexCounts {
        state.counts
    }

    fn finish<T: Sink>(&self, state: &mut Covered, output: &mut T) -> Result<(), Failed> {
        covering();
        write_ranges(&mut state.cover, output)
    }

    fn counts_text(&self, counts: &RinexCounts) -> Text {
        file_counts_text(counts)
    }
}
