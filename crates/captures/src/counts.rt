//! What a run over a capture counts.

ghost use Rattle.std.specs.Prelude.{◌≡◌, [], ◌+◌, ◌<◌, ◌≤◌};
ghost use Rattle.std.specs.Prelude.{◌^◌, ◌++◌, codes, length};
ghost use Rattle.captures.specs.Captures.{counts_text};
ghost use Rattle.captures.specs.Converts.{no_tally};
ghost use Rattle.captures.specs.Flushed.{said, said_of, total_said, with_counts};

use one_run::{Text, append_count};
use periods::Verdict;
use streams::{Times, with_item};

/// What a run over a capture counts.
#[derive(Clone, Copy, PartialEq, Eq)]
pub struct CaptureCounts {
    /// The lines, the first one included.
    pub lines: u64,
    /// The lines that match no format of a line.
    pub malformed: u64,
    /// The lines whose time tag is before the greatest one by more than the window.
    pub late: u64,
    /// The subframes, frames, messages and I/NAV words that were rejected.
    pub refused: u64,
    /// The subframes, page parts, messages and I/NAV words of kinds that are not used.
    pub unused: u64,
    /// The periods whose parts are complete, agree, and yield something new.
    pub whole: u64,
    /// The periods that lack a kind of part.
    pub partial: u64,
    /// The periods in which two parts of one kind differ.
    pub contradicted: u64,
    /// The Galileo periods without signal health (word type 5) near their end.
    pub nohealth: u64,
    /// The periods that repeat the last complete one of their key.
    pub again: u64,
    /// The first and the last epoch of the items of the complete periods.
    pub times: Option<Times>,
}

// The counts of the events of lines, other than parts.
#[derive(Clone, Copy)]
pub(crate) struct EventCounts {
    pub(crate) malformed: u64,
    pub(crate) late: u64,
    pub(crate) refused: u64,
    pub(crate) unused: u64,
}

impl EventCounts {
    // Nothing was counted.
    pub(crate) fn new() -> EventCounts
        ensures { result ≡ no_tally }
    {
        EventCounts {
            malformed: 0,
            late: 0,
            refused: 0,
            unused: 0,
        }
    }
}

// How many periods have each verdict, and the times of the whole ones.
#[derive(Clone, Copy)]
pub(crate) struct VerdictCounts {
    pub(crate) whole: u64,
    pub(crate) partial: u64,
    pub(crate) contradicted: u64,
    pub(crate) nohealth: u64,
    pub(crate) again: u64,
    pub(crate) times: Option<Times>,
}

impl VerdictCounts {
    // No period was counted.
    pub(crate) fn new() -> VerdictCounts
        ensures { result ≡ said_of [] }
    {
        VerdictCounts {
            whole: 0,
            partial: 0,
            contradicted: 0,
            nohealth: 0,
            again: 0,
            times: None,
        }
    }

    // Counts the verdict of a period.
    pub(crate) fn count(&mut self, verdict: &Verdict)
        requires { total_said self.old + 1 < 2 ^ 64 }
        ensures said { self.new ≡ said self.old verdict.now }
        ensures total { total_said self.new ≡ total_said self.old + 1 }
    {
        match verdict {
            Verdict::Whole(item) => {
                self.whole += 1;
                self.times = with_item(self.times, item);
            }
            Verdict::Partial => self.partial += 1,
            Verdict::Contradicted => self.contradicted += 1,
            Verdict::NoHealth => self.nohealth += 1,
            Verdict::Again => self.again += 1,
        }
    }
}

// The counts of a capture with this number of lines.
pub(crate) fn counts_with(lines: u32, tally: &EventCounts, said: &VerdictCounts) -> CaptureCounts
    ensures { result ≡ with_counts lines tally.now said.now }
{
    CaptureCounts {
        lines: u64::from(lines),
        malformed: tally.malformed,
        late: tally.late,
        refused: tally.refused,
        unused: tally.unused,
        whole: said.whole,
        partial: said.partial,
        contradicted: said.contradicted,
        nohealth: said.nohealth,
        again: said.again,
        times: said.times,
    }
}

/// The text of the counts of a capture: a line for each, its name, a space and the number, in the
/// order of the fields; the times are not written.
#[tactic(auto, unfolding(crate::specs::Captures::counts_text))]
pub(crate) fn capture_counts_text(counts: &CaptureCounts) -> Text
    ensures { result.items ≡ counts_text counts.now }
{
    let mut text = Text::new();
    append_count(&mut text, b"lines", counts.lines);
    append_count(&mut text, b"malformed", counts.malformed);
    append_count(&mut text, b"late", counts.late);
    append_count(&mut text, b"refused", counts.refused);
    append_count(&mut text, b"unused", counts.unused);
    append_count(&mut text, b"whole", counts.whole);
    append_count(&mut text, b"partial", counts.partial);
    append_count(&mut text, b"contradicted", counts.contradicted);
    append_count(&mut text, b"nohealth", counts.nohealth);
    append_count(&mut text, b"again", counts.again);
    text
}
