//! What a run over a navigation file counts.

ghost use Rattle.std.specs.Prelude.{◌≡◌, []};
ghost use Rattle.nav_files.specs.Files.{counts_of_reads, file_counts_text};

use one_run::{Text, append_count};
use streams::Times;

/// What a run over a navigation file counts.
#[derive(Clone, Copy, PartialEq, Eq)]
pub struct RinexCounts {
    /// The records.
    pub records: u64,
    /// The records that were rejected.
    pub refused: u64,
    /// The records of other kinds, which were skipped.
    pub passed: u64,
    /// The items, repeats included.
    pub items: u64,
    /// The first and the last epoch of the items; `None` also of a file that is sent.
    pub times: Option<Times>,
}

impl RinexCounts {
    /// Nothing was counted.
    pub fn new() -> RinexCounts
        ensures { result ≡ counts_of_reads [] }
    {
        RinexCounts {
            records: 0,
            refused: 0,
            passed: 0,
            items: 0,
            times: None,
        }
    }
}

/// The text of the counts of a navigation file: a line for each, its name, a space and the number,
/// in the order of the fields; the times are not written.
#[tactic(auto, unfolding(crate::specs::Files::file_counts_text))]
pub fn file_counts_text(counts: &RinexCounts) -> Text
    ensures { result.items ≡ file_counts_text counts.now }
{
    let mut text = Text::new();
    append_count(&mut text, b"records", counts.records);
    append_count(&mut text, b"refused", counts.refused);
    append_count(&mut text, b"passed", counts.passed);
    append_count(&mut text, b"items", counts.items);
    text
}
