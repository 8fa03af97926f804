//! The run over a stream: each frame of the input gives a line of the output.

ghost use Rattle.std.specs.Prelude.{◌≡◌, ◌+◌, ◌^◌, ◌<◌};
ghost use Rattle.std.specs.Prelude.{◌≤◌, [], ◌++◌, true, not};
ghost use Rattle.std.specs.Prelude.{length, take, IfOk, OnOk, OnErr, Some};
ghost use Rattle.std.specs.Io.KnownBytes.{Appends};
ghost use Rattle.nav_io.specs.Causes.{HasCause};
ghost use Rattle.nav_io.specs.Prefix.{AppendsPrefix};
ghost use Rattle.framing.specs.State.{MayFeed, IsWaiting};
ghost use Rattle.one_run.specs.Runs.{Ran};
ghost use Rattle.streams.specs.FrameLines.{frames_meaning, line_of};
ghost use Rattle.streams.specs.FrameRuns.{Goes, Breaks, Gathers};

use crate::line::{FrameLine, frame_line};
use arrayvec::ArrayVec;
use framing::{Deframer, Frame, decided_frames_stay};
use nav_io::{Failed, MOST_TAKEN, Sink, Source, read_piece};
use one_run::BridgeFault;

// The number of bytes that one read asks for.
const PIECE: usize = 16_384;

// Lines that are written together: those of the frames that one feed of bytes decides.
type LineBatch = ArrayVec<u8, 1024>;

/// What a run over the frames of a stream counts.
#[derive(Clone, Copy, PartialEq, Eq)]
pub struct FrameCounts {
    /// The frames of the input.
    pub frames: u64,
}

/// Reads a stream to its end, and writes a line for each frame, as [`frame_line`] states.
///
/// The frames are those of RTCM 10403.3, section 4, whatever bytes are between them. The result is
/// the number of frames, or one of the errors `ReadFault`, `WriteFault` and `TooLong`. After an
/// error the output is a prefix of the lines of the bytes read: after a failed read exactly the
/// lines of the frames that these bytes decide, whatever bytes follow, and after any error at least
/// those that all but the last 16,384 bytes decide.
pub fn run_frames<S: Source, T: Sink>(
    input: &mut S,
    output: &mut T,
) -> Result<FrameCounts, BridgeFault>
    // There is no report: the clause takes one to which nothing is written.
    ensures ended { Ran frames_meaning S.left S.never_fails S.faults T.written T.faults
        (λ _. Some []) (λ _. 0) input.old input.new output.old output.new (tt {0}) (tt {0}) result }
{
    decided_frames_stay();
    let mut deframer = Deframer::new();
    let mut buffer = [0; PIECE];
    let mut taken = 0;
    let mut frames = 0;
    while taken <= MOST_TAKEN {
        match read_piece(input, taken, &mut buffer) {
            Err(Failed) => return Err(BridgeFault::ReadFault),
            Ok(0) => {
                deframer.finish();
                return match process_frames(&mut deframer, output, &mut frames) {
                    Ok(()) => Ok(FrameCounts { frames }),
                    Err(Failed) => Err(BridgeFault::WriteFault),
                };
            }
            Ok(count) => {
                taken += count as u64;
                match process_piece(&mut deframer, &buffer[..count], output, &mut frames) {
                    Ok(()) => {}
                    Err(Failed) => return Err(BridgeFault::WriteFault),
                }
            }
        }
    }
    Err(BridgeFault::TooLong)
}

// Feeds a piece, and writes the lines of the frames that it decides.
fn process_piece<T: Sink>(
    deframer: &mut Deframer,
    piece: &[u8],
    output: &mut T,
    frames: &mut u64,
) -> Result<(), Failed>
    requires may_feed { MayFeed deframer.old }
    requires room { frames.old + length deframer.old.rest + length piece.now < 2 ^ 64 }
    ensures goes { OnOk result (Goes line_of true (deframer.old.rest ++ piece.now) deframer.new.rest
        (T.written output.old) (T.written output.new) frames.old frames.new) }
    ensures may_feed { OnOk result (MayFeed deframer.new) }
    ensures room { OnOk result (frames.new + length deframer.new.rest
        ≤ frames.old + length deframer.old.rest + length piece.now) }
    ensures breaks { OnErr result (Breaks line_of true (deframer.old.rest ++ piece.now)
        (T.written output.old) (T.written output.new)) }
    ensures cause { HasCause (T.faults output.old) (T.faults output.new) result }
{
    let mut fed = 0;
    while fed < piece.len() {
        fed += process_some(deframer, &piece[fed..], output, frames)?;
    }
    Ok(())
}

// Feeds what there is room for, writes the lines of the frames that it decides, and returns how
// many bytes were fed.
fn process_some<T: Sink>(
    deframer: &mut Deframer,
    piece: &[u8],
    output: &mut T,
    frames: &mut u64,
) -> Result<usize, Failed>
    requires may_feed { MayFeed deframer.old }
    requires some { 0 < length piece.now }
    requires room { frames.old + length deframer.old.rest + length piece.now < 2 ^ 64 }
    ensures some { IfOk result (λ count. 0 < count) }
    ensures within { IfOk result (λ count. count ≤ length piece.now) }
    ensures goes { IfOk result
        (λ count. Goes line_of true (deframer.old.rest ++ take count piece.now)
        deframer.new.rest (T.written output.old) (T.written output.new) frames.old frames.new) }
    ensures may_feed { OnOk result (MayFeed deframer.new) }
    ensures room { IfOk result (λ count. frames.new + length deframer.new.rest
        ≤ frames.old + length deframer.old.rest + count) }
    ensures breaks { OnErr result (Breaks line_of true (deframer.old.rest ++ piece.now)
        (T.written output.old) (T.written output.new)) }
    ensures cause { HasCause (T.faults output.old) (T.faults output.new) result }
{
    let count = deframer.feed_some(piece);
    process_frames(deframer, output, frames)?;
    Ok(count)
}

// Writes the lines that were gathered, if any.
fn write_gathered<T: Sink>(lines: &LineBatch, output: &mut T) -> Result<(), Failed>
    ensures text { OnOk result
        (Appends (T.written output.old) (T.written output.new) lines.now.items) }
    ensures part { OnErr result
        (AppendsPrefix (T.written output.old) (T.written output.new) lines.now.items) }
    ensures cause { HasCause (T.faults output.old) (T.faults output.new) result }
{
    if lines.is_empty() {
        return Ok(());
    }
    output.write(lines.as_slice())
}

// Appends a line to the gathered ones; where there is no room for it, those are written first.
fn gather<T: Sink>(line: &FrameLine, lines: &mut LineBatch, output: &mut T) -> Result<(), Failed>
    ensures gathers { OnOk result (Gathers (T.written output.old) (T.written output.new)
        lines.old.items lines.new.items line.now.items) }
    ensures part { OnErr result
        (AppendsPrefix (T.written output.old) (T.written output.new) lines.old.items) }
    ensures cause { HasCause (T.faults output.old) (T.faults output.new) result }
{
    if lines.remaining_capacity() < line.len() {
        write_gathered(lines, output)?;
        lines.clear();
    }
    if lines.try_extend_from_slice(line.as_slice()).is_err() {
        unreachable!();
    }
    Ok(())
}

// Writes the lines of the decided frames.
fn process_frames<T: Sink>(
    deframer: &mut Deframer,
    output: &mut T,
    frames: &mut u64,
) -> Result<(), Failed>
    requires { frames.old + length deframer.old.rest < 2 ^ 64 }
    ensures goes { OnOk result (Goes line_of (not deframer.old.finished) deframer.old.rest
        deframer.new.rest (T.written output.old) (T.written output.new) frames.old frames.new) }
    ensures waiting { OnOk result (IsWaiting deframer.new.rest) }
    ensures last { OnOk result (deframer.old.finished ≡ true → deframer.new.rest ≡ []) }
    ensures finished { deframer.new.finished ≡ deframer.old.finished }
    ensures room { OnOk result (frames.new + length deframer.new.rest
        ≤ frames.old + length deframer.old.rest) }
    ensures breaks { OnErr result (Breaks line_of (not deframer.old.finished) deframer.old.rest
        (T.written output.old) (T.written output.new)) }
    ensures cause { HasCause (T.faults output.old) (T.faults output.new) result }
{
    let mut lines = LineBatch::new();
    let mut frame = Frame::without_payload();
    'giving: while deframer.next_into(&mut frame) {
        gather(&frame_line(&frame), &mut lines, output)?;
        *frames += 1;
    }
    write_gathered(&lines, output)
}
