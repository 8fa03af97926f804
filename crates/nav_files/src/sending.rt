//! The conversion that transmits the ephemerides of a file.

ghost use Rattle.std.specs.Prelude.{◌≡◌, ◌++◌, false};
ghost use Rattle.std.specs.List.{flat_map};
ghost use Rattle.nav_io.specs.Writes.{Writes};
ghost use Rattle.sent_captures.specs.Sendable.{sent_head};
ghost use Rattle.rinex_read.specs.RoundTrip.{IsWholeRead};
ghost use Rattle.nav_files.specs.Following.{AreCounted};
ghost use Rattle.nav_files.specs.Sends.{counts_of_outcomes, sends_report, sends_text, slots_behind};
ghost use Rattle.nav_files.specs.Sends.{outcome_report, outcome_text, send_outcomes};

use crate::counts::{RinexCounts, file_counts_text};
use crate::outcome::{next_slot, outcome_of};
use crate::sent_counts::count_outcome;
use crate::sent_records::tell;
use crate::taker::Taker;
use nav_eph::RefWeek;
use nav_io::{Failed, Sink};
use one_run::{BridgeFault, Text};
use rinex_read::ItemRead;

// The state after some records: their counts, and the next slot.
#[derive(Drop)]
pub(crate) struct SoFar {
    pub(crate) counts: RinexCounts,
    pub(crate) slot: u32,
}

// The job of transmitting to a receiver that resolves week numbers against this reference week.
#[derive(Drop)]
pub(crate) struct Sending {
    pub(crate) r: RefWeek,
}

// Writes the first line of a capture.
fn write_head<T: Sink>(out: &mut T) -> Result<(), Failed>
    ensures { Writes (T.written out.old) (T.written out.new) (T.faults out.old) (T.faults out.new)
        result sent_head }
{
    out.write(b"NAVCAP 1\n")
}

// Each ephemeris is written as soon as its record was read.
impl Taker<ItemRead> for Sending {
    type State = SoFar;

    type Counts = RinexCounts;

    ghost known = { IsWholeRead };

    ghost text = { λ s reads. sent_head ++ flat_map outcome_text (send_outcomes s.r 0 reads) };

    ghost told = { λ s reads. flat_map outcome_report (send_outcomes s.r 0 reads) };

    ghost whole = { λ s reads. sends_text s.r reads };

    ghost reported = { λ s reads. sends_report s.r reads };

    ghost count = { λ s reads. counts_of_outcomes (send_outcomes s.r 0 reads) };

    ghost memory = { false };

    ghost holds = { λ s state reads. (state.counts ≡ counts_of_outcomes (send_outcomes s.r 0 reads))
        × (state.slot ≡ slots_behind s.r 0 reads) × AreCounted state.counts };

    fn begins(&self) {}

    fn begin<T: Sink>(&self, output: &mut T) -> Result<(), Failed> {
        write_head(output)
    }

    fn take<T: Sink, U: Sink>(
        &self,
        state: &mut SoFar,
        read: &ItemRead,
        output: &mut T,
        report: &mut U,
    ) -> Result<(), BridgeFault> {
        let told = outcome_of(self.r, state.slot, read);
        tell(self.r, &told, output, report)?;
        count_outcome(&told, &mut state.counts);
        let slot = next_slot(state.slot, &told);
        state.slot = slot;
        Ok(())
    }

    fn counts(&self, state: &SoFar) -> RinexCounts {
        state.counts
    }

    fn finish<T: Sink>(&self, _state: &mut SoFar, _output: &mut T) -> Result<(), Failed> {
        Ok(())
    }

    fn counts_text(&self, counts: &RinexCounts) -> Text {
        file_counts_text(counts)
    }
}
