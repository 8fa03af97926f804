//! The run over a stream.

ghost use Rattle.streams.specs.Targets.{prefix_text, item_text};
ghost use Rattle.one_run.specs.Runs.{Ran};
ghost use Rattle.streams.specs.Streams.{stream_meaning_by};

use crate::Target;
use crate::counts::{StreamCounts, stream_counts_text};
use crate::given::ItemsGiven;
use crate::pieces::process_pieces;
use framing::decided_frames_stay;
use nav_eph::RefWeek;
use nav_io::{Failed, Sink, Source};
use one_run::BridgeFault;
use std::alloc::Global;

// Reads a stream to its end, and writes the conversion of its items while it reads.
pub(crate) fn convert_stream<S: Source, T: Sink, U: Sink>(
    alloc: Global,
    r: RefWeek,
    to: &Target,
    input: &mut S,
    output: &mut T,
    report: &mut U,
) -> Result<StreamCounts, BridgeFault>
    ensures ended { Ran (stream_meaning_by (prefix_text to.now) (item_text to.now 0) r)
        S.left S.never_fails S.faults T.written T.faults U.written U.faults
        input.old input.new output.old output.new report.old report.new result }
{
    decided_frames_stay();
    match to.begin(output) {
        Ok(()) => {}
        Err(Failed) => return Err(BridgeFault::WriteFault),
    }
    let mut given = ItemsGiven::new(alloc);
    let mut counts = StreamCounts::new();
    process_pieces(to, r, &mut given, input, output, report, &mut counts)?;
    match report.write(stream_counts_text(&counts).as_slice()) {
        Ok(()) => Ok(counts),
        Err(Failed) => Err(BridgeFault::ReportFault),
    }
}
