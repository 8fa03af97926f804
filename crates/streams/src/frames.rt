//! The frames of a stream, in order.

ghost use Rattle.std.specs.Prelude.{◌≡◌, ◌⊎◌, ◌+◌, ◌^◌, ◌<◌};
ghost use Rattle.std.specs.Prelude.{◌≤◌, ◌∷◌, ◌++◌, ◌||◌, [], ℕ};
ghost use Rattle.std.specs.Prelude.{List, Option, true, not, codes, Err, length, take};
ghost use Rattle.std.specs.Prelude.{IsErrOf, IfOk, IfErr, IfSome, OnOk, OnErr, IsTrue};
ghost use Rattle.std.specs.Io.KnownBytes.{Appends};
ghost use Rattle.nav_eph.specs.declared.items.NavItem.{NavItem};
ghost use Rattle.nav_io.specs.Prefix.{AppendsPrefix};
ghost use Rattle.framing.specs.State.{MayFeed, IsWaiting, payload_of};
ghost use Rattle.streams.specs.Targets.{prefix_text, item_text};
ghost use Rattle.rtcm_eph.specs.declared.fault.MessageFault.{MessageFault};
ghost use Rattle.one_run.specs.Causes.{HasItsCause, faults_of};
ghost use Rattle.one_run.specs.Reports.{report_line};
ghost use Rattle.streams.specs.Streams.{reading_report};
ghost use Rattle.streams.specs.Mirrors.{AreFew, HasRoom, IsReadOf, IsStreamFault};
ghost use Rattle.streams.specs.Mirrors.{KeptPlaces, StreamBreaks, StreamGoes, StreamMoves};
ghost use Rattle.streams.specs.Mirrors.{StreamStops, is_given, once_text, sent_alike};
ghost use Rattle.streams.specs.Mirrors.{with_fault, with_item, with_refusal, with_unused};

use crate::counts::StreamCounts;
use crate::given::ItemsGiven;
use crate::{Target, with_item};
use framing::{Deframer, Frame};
use nav_eph::{NavItem, RefWeek, equality_is_decided};
use nav_io::{Failed, Sink};
use one_run::{BridgeFault, report_text};
use rtcm_eph::{
    MessageFault, item_function, message_bytes, read_item, sent_1019_is_read, sent_1046_is_read,
};

// Reports that the frame with this number is refused, and counts it.
fn refuse<U: Sink>(
    number: u64,
    reason: &[u8],
    report: &mut U,
    counts: &mut StreamCounts,
) -> Result<(), BridgeFault>
    requires room { HasRoom counts.old }
    requires reason { length reason.now ≤ 32 }
    ensures report { OnOk result (Appends (U.written report.old) (U.written report.new)
        (report_line (codes "frame") number reason.now)) }
    ensures counts { OnOk result (counts.new ≡ with_refusal counts.old) }
    ensures part { OnErr result (AppendsPrefix (U.written report.old) (U.written report.new)
        (report_line (codes "frame") number reason.now)) }
    ensures cause { HasItsCause (faults_of 0 0 (U.faults report.old))
        (faults_of 0 0 (U.faults report.new)) result }
    ensures kind { IfErr result (λ fault. fault ≡ BridgeFault.ReportFault) }
{
    match report.write(report_text(b"frame", number, reason).as_slice()) {
        Ok(()) => {
            counts.refused += 1;
            counts.frames += 1;
            Ok(())
        }
        Err(Failed) => Err(BridgeFault::ReportFault),
    }
}

// Counts a frame that is not used.
fn pass(counts: &mut StreamCounts)
    requires room { HasRoom counts.old }
    ensures counts { counts.new ≡ with_unused counts.old }
{
    counts.unused += 1;
    counts.frames += 1;
}

// Counts the frame with this number as refused or not used, and reports it where it is refused.
fn report_fault<U: Sink>(
    fault: MessageFault,
    number: u64,
    report: &mut U,
    counts: &mut StreamCounts,
) -> Result<(), BridgeFault>
    requires room { HasRoom counts.old }
    ensures report { OnOk result (Appends (U.written report.old) (U.written report.new)
        (reading_report number (Err fault))) }
    ensures counts { OnOk result (counts.new ≡ with_fault counts.old fault) }
    ensures part { OnErr result (AppendsPrefix (U.written report.old) (U.written report.new)
        (reading_report number (Err fault))) }
    ensures cause { HasItsCause (faults_of 0 0 (U.faults report.old))
        (faults_of 0 0 (U.faults report.new)) result }
    ensures kind { IfErr result (λ fault. fault ≡ BridgeFault.ReportFault) }
{
    match fault {
        MessageFault::NoNumber => {
            pass(counts);
            Ok(())
        }
        MessageFault::OtherMessage { .. } => {
            pass(counts);
            Ok(())
        }
        MessageFault::Short => refuse(number, b"short", report, counts),
        MessageFault::BadSat => refuse(number, b"satellite", report, counts),
        MessageFault::BadTime => refuse(number, b"time", report, counts),
        MessageFault::SpareSisa => refuse(number, b"sisa", report, counts),
    }
}

// Counts an item that was read from a payload, and writes it unless it was given before.
fn give_item<T: Sink>(
    to: &Target,
    item: &NavItem,
    payload: &[u8],
    given: &mut ItemsGiven,
    output: &mut T,
    counts: &mut StreamCounts,
) -> Result<(), BridgeFault>
    requires read { IsReadOf payload.now item.now }
    requires room { HasRoom counts.old }
    ensures output { OnOk result (Appends (T.written output.old) (T.written output.new)
        (once_text (item_text to.now 0) (is_given given.old item.now) item.now)) }
    ensures counts { OnOk result
        (counts.new ≡ with_item counts.old (is_given given.old item.now) item.now) }
    ensures given { OnOk result ((other : NavItem) → is_given given.new other
        ≡ (sent_alike item.now other || is_given given.old other)) }
    ensures kept { OnOk result (KeptPlaces given.old given.new payload.now) }
    ensures part { OnErr result (AppendsPrefix (T.written output.old) (T.written output.new)
        (once_text (item_text to.now 0) (is_given given.old item.now) item.now)) }
    ensures cause { HasItsCause (faults_of 0 (T.faults output.old) 0)
        (faults_of 0 (T.faults output.new) 0) result }
    ensures kinds { IfErr result (λ fault. (fault ≡ BridgeFault.WriteFault)
        ⊎ (fault ≡ BridgeFault.NoMemory)) }
{
    match given.add(item, payload) {
        Err(_) => Err(BridgeFault::NoMemory),
        Ok(false) => {
            counts.frames += 1;
            Ok(())
        }
        Ok(true) => match to.put(0, item, output) {
            Ok(()) => {
                counts.items += 1;
                counts.times = with_item(counts.times, item);
                counts.frames += 1;
                Ok(())
            }
            Err(Failed) => Err(BridgeFault::WriteFault),
        },
    }
}

// Processes a frame.
fn convert_frame<T: Sink, U: Sink>(
    to: &Target,
    r: RefWeek,
    frame: &Frame,
    given: &mut ItemsGiven,
    output: &mut T,
    report: &mut U,
    counts: &mut StreamCounts,
) -> Result<(), BridgeFault>
    requires room { HasRoom counts.old }
    ensures goes { OnOk result (StreamGoes r (prefix_text to.now) (item_text to.now 0)
        (frame.now ∷ []) (T.written output.old) (T.written output.new)
        (U.written report.old) (U.written report.new) given.old given.new counts.old counts.new) }
    ensures breaks { OnErr result (StreamBreaks r (prefix_text to.now) (item_text to.now 0)
        (frame.now ∷ []) (T.written output.old) (T.written output.new)
        (U.written report.old) (U.written report.new) given.old counts.old) }
    ensures cause { HasItsCause (faults_of 0 (T.faults output.old) (U.faults report.old))
        (faults_of 0 (T.faults output.new) (U.faults report.new)) result }
    ensures kinds { IfErr result IsStreamFault }
    ensures some { OnOk result (AreFew counts.new) }
    ensures frames { OnOk result (counts.new.frames ≡ counts.old.frames + 1) }
{
    let _reference = r.value();
    equality_is_decided();
    item_function();
    message_bytes();
    sent_1019_is_read();
    sent_1046_is_read();
    let payload = frame.payload();
    if given.knows(payload) {
        counts.frames += 1;
        return Ok(());
    }
    match read_item(payload, r) {
        Ok(item) => give_item(to, &item, payload, given, output, counts),
        Err(fault) => report_fault(fault, counts.frames + 1, report, counts),
    }
}

// Processes the decided frames: an item is written as soon as its frame is complete.
pub(crate) fn process_frames<T: Sink, U: Sink>(
    to: &Target,
    r: RefWeek,
    deframer: &mut Deframer,
    given: &mut ItemsGiven,
    output: &mut T,
    report: &mut U,
    counts: &mut StreamCounts,
) -> Result<(), BridgeFault>
    requires some { AreFew counts.old }
    requires room { counts.old.frames + length deframer.old.rest < 2 ^ 64 }
    ensures goes { OnOk result (StreamMoves r (prefix_text to.now) (item_text to.now 0)
        (not deframer.old.finished) deframer.old.rest deframer.new.rest
        (T.written output.old) (T.written output.new)
        (U.written report.old) (U.written report.new) given.old given.new counts.old counts.new) }
    ensures breaks { OnErr result (StreamStops r (prefix_text to.now) (item_text to.now 0)
        (not deframer.old.finished) deframer.old.rest
        (T.written output.old) (T.written output.new)
        (U.written report.old) (U.written report.new) given.old counts.old) }
    ensures waiting { OnOk result (IsWaiting deframer.new.rest) }
    ensures last { OnOk result (deframer.old.finished ≡ true → deframer.new.rest ≡ []) }
    ensures finished { deframer.new.finished ≡ deframer.old.finished }
    ensures cause { HasItsCause (faults_of 0 (T.faults output.old) (U.faults report.old))
        (faults_of 0 (T.faults output.new) (U.faults report.new)) result }
    ensures kinds { IfErr result IsStreamFault }
    ensures some { OnOk result (AreFew counts.new) }
    ensures room { OnOk result (counts.new.frames + length deframer.new.rest
        ≤ counts.old.frames + length deframer.old.rest) }
{
    let mut frame = Frame::without_payload();
    'giving: while deframer.next_into(&mut frame) {
        convert_frame(to, r, &frame, given, output, report, counts)?;
    }
    Ok(())
}

// Feeds what there is room for, processes the frames that it decides, and returns how many bytes
// were fed.
fn process_some<T: Sink, U: Sink>(
    to: &Target,
    r: RefWeek,
    deframer: &mut Deframer,
    piece: &[u8],
    given: &mut ItemsGiven,
    output: &mut T,
    report: &mut U,
    counts: &mut StreamCounts,
) -> Result<usize, BridgeFault>
    requires may_feed { MayFeed deframer.old }
    requires bytes { 0 < length piece.now }
    requires some { AreFew counts.old }
    requires room { counts.old.frames + length deframer.old.rest + length piece.now < 2 ^ 64 }
    ensures bytes { IfOk result (λ count. 0 < count) }
    ensures within { IfOk result (λ count. count ≤ length piece.now) }
    ensures goes { IfOk result (λ count. StreamMoves r (prefix_text to.now) (item_text to.now 0)
        true (deframer.old.rest ++ take count piece.now) deframer.new.rest
        (T.written output.old) (T.written output.new)
        (U.written report.old) (U.written report.new) given.old given.new counts.old counts.new) }
    ensures breaks { OnErr result (StreamStops r (prefix_text to.now) (item_text to.now 0)
        true (deframer.old.rest ++ piece.now) (T.written output.old) (T.written output.new)
        (U.written report.old) (U.written report.new) given.old counts.old) }
    ensures may_feed { OnOk result (MayFeed deframer.new) }
    ensures cause { HasItsCause (faults_of 0 (T.faults output.old) (U.faults report.old))
        (faults_of 0 (T.faults output.new) (U.faults report.new)) result }
    ensures kinds { IfErr result IsStreamFault }
    ensures some { OnOk result (AreFew counts.new) }
    ensures room { IfOk result (λ count. counts.new.frames + length deframer.new.rest
        ≤ counts.old.frames + length deframer.old.rest + count) }
{
    let count = deframer.feed_some(piece);
    process_frames(to, r, deframer, given, output, report, counts)?;
    Ok(count)
}

// Feeds a piece, and processes the frames that it decides.
pub(crate) fn process_piece<T: Sink, U: Sink>(
    to: &Target,
    r: RefWeek,
    deframer: &mut Deframer,
    piece: &[u8],
    given: &mut ItemsGiven,
    output: &mut T,
    report: &mut U,
    counts: &mut StreamCounts,
) -> Result<(), BridgeFault>
    requires may_feed { MayFeed deframer.old }
    requires some { AreFew counts.old }
    requires room { counts.old.frames + length deframer.old.rest + length piece.now < 2 ^ 64 }
    ensures goes { OnOk result (StreamMoves r (prefix_text to.now) (item_text to.now 0)
        true (deframer.old.rest ++ piece.now) deframer.new.rest
        (T.written output.old) (T.written output.new)
        (U.written report.old) (U.written report.new) given.old given.new counts.old counts.new) }
    ensures breaks { OnErr result (StreamStops r (prefix_text to.now) (item_text to.now 0)
        true (deframer.old.rest ++ piece.now) (T.written output.old) (T.written output.new)
        (U.written report.old) (U.written report.new) given.old counts.old) }
    ensures may_feed { OnOk result (MayFeed deframer.new) }
    ensures cause { HasItsCause (faults_of 0 (T.faults output.old) (U.faults report.old))
        (faults_of 0 (T.faults output.new) (U.faults report.new)) result }
    ensures kinds { IfErr result IsStreamFault }
    ensures some { OnOk result (AreFew counts.new) }
    ensures room { OnOk result (counts.new.frames + length deframer.new.rest
        ≤ counts.old.frames + length deframer.old.rest + length piece.now) }
{
    let mut fed = 0;
    while fed < piece.len() {
        fed += process_some(
            to,
            r,
            deframer,
            &piece[fed..],
            given,
            output,
            report,
            counts,
        )?;
    }
    Ok(())
}
