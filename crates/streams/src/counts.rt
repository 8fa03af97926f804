//! What a run over a stream counts.

ghost use Rattle.std.specs.Prelude.{◌≡◌, []};
ghost use Rattle.streams.specs.Streams.{counts_of_readings, stream_counts_text};

use crate::Times;
use one_run::{Text, append_count};

/// What a run over a stream counts.
#[derive(Clone, Copy, PartialEq, Eq)]
pub struct StreamCounts {
    /// The frames.
    pub frames: u64,
    /// The frames of message 1019 or 1046 that were rejected.
    pub refused: u64,
    /// The frames of other messages, and those without a message number.
    pub unused: u64,
    /// The distinct items, each at its first occurrence.
    pub items: u64,
    /// The first and the last epoch of these items.
    pub times: Option<Times>,
}

impl StreamCounts {
    /// Nothing was counted.
    pub fn new() -> StreamCounts
        ensures { result ≡ counts_of_readings [] }
    {
        StreamCounts {
            frames: 0,
            refused: 0,
            unused: 0,
            items: 0,
            times: None,
        }
    }
}

/// The text of the counts of a stream: a line for each, its name, a space and the number, in the
/// order of the fields; the times are not written.
#[tactic(auto, unfolding(crate::specs::Streams::stream_counts_text))]
pub fn stream_counts_text(counts: &StreamCounts) -> Text
    ensures { result.items ≡ stream_counts_text counts.now }
{
    let mut text = Text::new();
    append_count(&mut text, b"frames", counts.frames);
    append_count(&mut text, b"refused", counts.refused);
    append_count(&mut text, b"unused", counts.unused);
    append_count(&mut text, b"items", counts.items);
    text
}
