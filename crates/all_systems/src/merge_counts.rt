//! What a merge of all systems counts.

ghost use Rattle.std.specs.Prelude.{◌≡◌};
ghost use Rattle.all_systems.specs.Merging.{merge_counts_text};

use one_run::{Text, append_count};
use streams::Times;

/// What a run that merges navigation files counts.
#[derive(Clone, Copy, PartialEq, Eq)]
pub struct SystemMergeCounts {
    /// The records.
    pub records: u64,
    /// The records that were rejected.
    pub refused: u64,
    /// The records of kinds that are not read.
    pub passed: u64,
    /// The records of other kinds whose lines are carried.
    pub carried: u64,
    /// The items that were read, repeats included.
    pub items: u64,
    /// The items of the merged list.
    pub kept: u64,
    /// The items that were read and have no record in the output format.
    pub unwritten: u64,
    /// The first and the last epoch of the items.
    pub times: Option<Times>,
}

/// The text of the counts: a line for each, its name, a space and the number.
#[tactic(auto, unfolding(crate::specs::Merging::merge_counts_text))]
pub(crate) fn merge_counts_text(counts: &SystemMergeCounts) -> Text
    ensures { result.items ≡ merge_counts_text counts.now }
{
    let mut text = Text::new();
    append_count(&mut text, b"records", counts.records);
    append_count(&mut text, b"refused", counts.refused);
    append_count(&mut text, b"passed", counts.passed);
    append_count(&mut text, b"carried", counts.carried);
    append_count(&mut text, b"items", counts.items);
    append_count(&mut text, b"kept", counts.kept);
    append_count(&mut text, b"unwritten", counts.unwritten);
    text
}
