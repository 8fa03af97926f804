//! What a run over a navigation file of all systems counts.

ghost use Rattle.std.specs.Prelude.{◌≡◌, ◌+◌, ◌^◌, ◌<◌, []};
ghost use Rattle.streams.specs.declared.target.Target.{Target};
ghost use Rattle.all_systems.specs.Files.{counts_by, counts_text, times_after};
ghost use Rattle.all_systems.specs.FileMirrors.{AreCounted, counted, view_given};

use crate::file_read::Given;
use one_run::{Text, append_count};
use streams::{Times, with_item, with_time};

/// What a run over a navigation file counts.
#[derive(Clone, Copy, PartialEq, Eq)]
pub struct SystemCounts {
    /// The records.
    pub records: u64,
    /// The records that were rejected.
    pub refused: u64,
    /// The records of kinds that are not read.
    pub passed: u64,
    /// The records of other kinds whose lines are carried.
    pub carried: u64,
    /// The items, repeats included.
    pub items: u64,
    /// The items and carried records that have no record or message in the output format.
    pub unwritten: u64,
    /// The first and the last epoch of the items.
    pub times: Option<Times>,
}

impl SystemCounts {
    // Nothing was counted.
    pub(crate) fn new() -> SystemCounts
        ensures counts { (to : Target) → result ≡ counts_by to [] }
        ensures counted { AreCounted result }
    {
        SystemCounts {
            records: 0,
            refused: 0,
            passed: 0,
            carried: 0,
            items: 0,
            unwritten: 0,
            times: None,
        }
    }
}

// The times together with those of a record.
fn times_after(times: Option<Times>, given: &Given) -> Option<Times>
    ensures { result ≡ times_after times (view_given given.now) }
{
    match given {
        Given::Nav(item) => with_item(times, item),
        Given::Further(_, row) => with_time(times, row.moment),
        Given::Refused(_) => times,
        Given::Carried(_) => times,
        Given::Passed => times,
    }
}

// Counts a record; whether it has a text.
pub(crate) fn count_read(given: &Given, written: bool, counts: &mut SystemCounts)
    requires room { counts.old.records + 1 < 2 ^ 64 }
    requires counted { AreCounted counts.old }
    ensures counts { counts.new ≡ counted counts.old written (view_given given.now) }
    ensures counted { AreCounted counts.new }
{
    counts.times = times_after(counts.times, given);
    match given {
        Given::Nav(_) => counts.items += 1,
        Given::Further(_, _) => counts.items += 1,
        Given::Refused(_) => counts.refused += 1,
        Given::Carried(_) => counts.carried += 1,
        Given::Passed => counts.passed += 1,
    }
    if !written {
        counts.unwritten += 1;
    }
    counts.records += 1;
}

/// The text of the counts of a file: a line for each, its name, a space and the number, in the
/// order of the fields; the times are not written.
#[tactic(auto, unfolding(crate::specs::Files::counts_text))]
pub(crate) fn counts_text(counts: &SystemCounts) -> Text
    ensures { result.items ≡ counts_text counts.now }
{
    let mut text = Text::new();
    append_count(&mut text, b"records", counts.records);
    append_count(&mut text, b"refused", counts.refused);
    append_count(&mut text, b"passed", counts.passed);
    append_count(&mut text, b"carried", counts.carried);
    append_count(&mut text, b"items", counts.items);
    append_count(&mut text, b"unwritten", counts.unwritten);
    text
}
