//! The records of a source.

ghost use Rattle.std.specs.Prelude.{◌≡◌, ◌≤◌, ◌<◌, ◌^◌, ◌↔◌};
ghost use Rattle.std.specs.Prelude.{◌∷◌, [], ℕ, true, false, IsTrue};
ghost use Rattle.std.specs.Prelude.{IsErrOf, IfOk, IfErr, IfSome, IfNone, OnOk, MatchResult};
ghost use Rattle.nav_io.specs.Causes.{Rose};
ghost use Rattle.rinex_read.specs.declared.judged.HeaderState.TheVariants.{Passed};
ghost use Rattle.rinex_read.specs.Forms.{begins};
ghost use Rattle.rinex_read.specs.Mirrors.{EndsWith, HeaderRefused, TakesLine, state_of};
ghost use Rattle.rinex_read.specs.States.{BreaksRecord, GivesRead};
ghost use Rattle.rinex_read.specs.States.{EarlyHeader, NearHeader, RefusedBy, is_waiting};
ghost use Rattle.rinex_read.specs.declared.judged.HeaderState.{HeaderState};

use crate::form::FileForm;
use crate::header::header_after;
use crate::judged::{HeaderFault, HeaderState};
use crate::line::begins;
use crate::record::RecordLines;
use nav_io::{LineFault, LineKind, Lines, Source};
use std::marker::Model;

/// Reads the records of a RINEX navigation file of one format, a [`FileForm`], one by one, in
/// buffers of fixed size.
///
/// Contracts see the state `header` of the header, the lines `kept` of the record in progress, the
/// number `first` of its first line, and the reader of `lines`; they determine what is still to be
/// read, whatever bytes follow.
#[derive(Drop)]
pub struct RecordReader {
    lines: Lines,
    kept: RecordLines,
    first: u32,
    header: HeaderState,
}

impl Model for RecordReader {
    ghost use Rattle.std.specs.Prelude.{◌≤◌};
    ghost use Rattle.rinex_read.specs.States.{RecordsState};

    ghost Value = { RecordsState };

    ghost view = { λ r. record {
      header = r.header;
      kept = r.kept;
      first = r.first;
      lines = r.lines;
    } };

    ghost invariant = { λ r. r.lines.number ≤ r.lines.taken };
}

// No line is left.
fn is_end(kind: LineKind) -> bool
    ensures { IsTrue result ↔ (kind ≡ LineKind.End) }
{
    match kind {
        LineKind::End => true,
        LineKind::Text => false,
        LineKind::Long => false,
    }
}

// Whether lines of the header are still to come.
fn is_waiting(header: HeaderState) -> bool
    ensures { result ≡ is_waiting header }
{
    match header {
        HeaderState::New => true,
        HeaderState::Open => true,
        HeaderState::Passed => false,
        HeaderState::NotRinexNav => false,
        HeaderState::OtherVersion => false,
    }
}

// The result of reading a header, from its final state.
fn answer_of(header: HeaderState) -> Result<(), HeaderFault>
    requires { is_waiting header ≡ false }
    ensures { MatchResult result (λ _. header ≡ Passed) (λ fault. HeaderRefused header fault) }
{
    match header {
        HeaderState::Passed => Ok(()),
        HeaderState::NotRinexNav => Err(HeaderFault::NotRinexNav),
        HeaderState::OtherVersion => Err(HeaderFault::Version),
        HeaderState::New => unreachable!(),
        HeaderState::Open => unreachable!(),
    }
}

// Processes a line that begins no record: it continues the record in progress, if there is one.
fn process_more<R, F: FileForm<R>>(form: &F, kept: &mut RecordLines, line: &[u8])
    requires { begins (F.form form.now) line.now ≡ false }
    ensures { (first number : ℕ)
        → TakesLine (F.form form.now) kept.old first kept.new first line.now number [] }
{
    form.looks_at_kept();
    if !kept.is_empty() {
        kept.push(line);
    }
}

// Processes a line that begins a record: it ends the record in progress, if there is one.
fn process_title<R, F: FileForm<R>>(
    form: &F,
    kept: &mut RecordLines,
    first: &mut u32,
    line: &[u8],
    number: u32,
) -> Option<R>
    requires { begins (F.form form.now) line.now ≡ true }
    ensures none { IfNone result
        (TakesLine (F.form form.now) kept.old first.old kept.new first.new line.now number []) }
    ensures whole { IfSome result F.whole }
    ensures some { IfSome result (λ read.
        TakesLine (F.form form.now) kept.old first.old kept.new first.new line.now number
        (read ∷ [])) }
{
    form.looks_at_kept();
    form.gives_whole();
    if kept.is_empty() {
        kept.push(line);
        *first = number;
        return None;
    }
    let read = form.judge(*first, kept);
    kept.clear();
    kept.push(line);
    *first = number;
    Some(read)
}

// Ends the record in progress, if there is one.
fn process_end<R, F: FileForm<R>>(form: &F, kept: &mut RecordLines, first: u32) -> Option<R>
    ensures kept { kept.new ≡ [] }
    ensures read { EndsWith (F.form form.now) kept.old first result }
    ensures whole { IfSome result F.whole }
{
    form.gives_whole();
    if kept.is_empty() {
        return None;
    }
    let read = form.judge(first, kept);
    kept.clear();
    Some(read)
}

// Reads the remaining lines of a header.
fn pass_header<R, F: FileForm<R>, S: Source>(
    form: &F,
    lines: &mut Lines,
    header: &mut HeaderState,
    source: &mut S,
) -> Result<(), HeaderFault>
    requires waiting { is_waiting header.old ≡ true }
    requires numbered { lines.old.number ≤ lines.old.taken }
    ensures steps { (first : ℕ) → MatchResult result
        (λ _. NearHeader (F.form form.now) (S.left source.old) (S.left source.new)
        (state_of header.old [] first lines.old) (state_of header.new [] first lines.new))
        (λ _. EarlyHeader (F.form form.now) (S.left source.old) (S.left source.new)
        (state_of header.old [] first lines.old) (state_of header.new [] first lines.new)) }
    ensures answer { MatchResult result (λ _. (header.new ≡ Passed) × (lines.new.taken < 2 ^ 32))
        (λ fault. RefusedBy fault (state_of header.old [] 0 lines.old)
        (state_of header.new [] 0 lines.new)) }
    ensures failed { IsErrOf result (HeaderFault.Line LineFault.ReadFault)
        → Rose (S.faults source.old) (S.faults source.new) }
    ensures quiet { (IsErrOf result (HeaderFault.Line LineFault.ReadFault) → ⊥)
        → (S.faults source.new ≡ S.faults source.old) }
    ensures never { IsTrue (S.never_fails source.old)
        → (IsErrOf result (HeaderFault.Line LineFault.ReadFault) → ⊥)
        × IsTrue (S.never_fails source.new) }
    ensures numbered { lines.new.number ≤ lines.new.taken }
{
    'header: loop {
        match lines.next(source) {
            Err(LineFault::ReadFault) => return Err(HeaderFault::Line(LineFault::ReadFault)),
            Err(LineFault::TooLong) => return Err(HeaderFault::Line(LineFault::TooLong)),
            Ok(kind) => {
                if is_end(kind) {
                    *header = HeaderState::NotRinexNav;
                    return Err(HeaderFault::NotRinexNav);
                }
                *header = header_after::<R, F>(form, *header, lines.text());
                if !is_waiting(*header) {
                    return answer_of(*header);
                }
            }
        }
    }
}

// Reads the next record, after the lines kept of the record in progress.
fn next_record<R, F: FileForm<R>, S: Source>(
    form: &F,
    lines: &mut Lines,
    kept: &mut RecordLines,
    first: &mut u32,
    source: &mut S,
) -> Result<Option<R>, LineFault>
    requires numbered { lines.old.number ≤ lines.old.taken }
    ensures read { IfOk result (λ read. (header : HeaderState)
        → GivesRead (F.form form.now) read (S.left source.old) (S.left source.new)
        (state_of header kept.old first.old lines.old)
        (state_of header kept.new first.new lines.new)) }
    ensures whole { IfOk result (λ read. IfSome read F.whole) }
    ensures fault { IfErr result (λ fault. (header : HeaderState)
        → BreaksRecord (F.form form.now) (S.left source.old) (S.left source.new)
        (state_of header kept.old first.old lines.old)
        (state_of header kept.new first.new lines.new) fault) }
    ensures failed { IsErrOf result LineFault.ReadFault
        → Rose (S.faults source.old) (S.faults source.new) }
    ensures quiet { OnOk result (S.faults source.new ≡ S.faults source.old) }
    ensures long { IsErrOf result LineFault.TooLong
        → (S.faults source.new ≡ S.faults source.old) }
    ensures never { IsTrue (S.never_fails source.old)
        → (IsErrOf result LineFault.ReadFault → ⊥) × IsTrue (S.never_fails source.new) }
    ensures numbered { lines.new.number ≤ lines.new.taken }
{
    'records: loop {
        match lines.next(source) {
            Err(fault) => return Err(fault),
            Ok(kind) => {
                if is_end(kind) {
                    return Ok(process_end::<R, F>(form, kept, *first));
                }
                let line = lines.text();
                if !begins::<R, F>(form, line) {
                    process_more::<R, F>(form, kept, line);
                } else if let Some(read) = process_title::<R, F>(
                    form,
                    kept,
                    first,
                    line,
                    lines.number(),
                ) {
                    return Ok(Some(read));
                }
            }
        }
    }
}

impl RecordReader {
    ghost use Rattle.std.specs.Prelude.{◌≡◌, IsTrue, IsOk, IsErrOf, IfOk, IfErr, IfSome, OnOk};
    ghost use Rattle.nav_io.specs.Causes.{Rose};
    ghost use Rattle.rinex_read.specs.declared.judged.HeaderState.TheVariants.{Passed, NotRinexNav};
    ghost use Rattle.rinex_read.specs.declared.judged.HeaderState.TheVariants.{OtherVersion};
    ghost use Rattle.rinex_read.specs.States.{IsNew, GivesRead, BreaksRecord};
    ghost use Rattle.rinex_read.specs.States.{PassesHeader, BreaksHeader};

    /// A reader that has read nothing.
    pub fn new() -> RecordReader
        ensures { IsNew result }
    {
        RecordReader {
            lines: Lines::new(),
            kept: RecordLines::new(),
            first: 0,
            header: HeaderState::New,
        }
    }

    /// Reads the header of a file.
    ///
    /// Its first line has `RINEX VERSION / TYPE` in columns 61-80, `N` in column 21, and in columns
    /// 1-9 a version of the format, for [`Rinex4`](crate::Rinex4) `4.` and one digit or two; the
    /// lines up to the next with `END OF HEADER` in columns 61-73 are skipped (RINEX 4.01, header
    /// section).
    /// `NotRinexNav`: the first line is another one, or no line ends the header. `Version`: another
    /// version. Each further call gives the same error. `Line`: as for `next_item`; after a failed
    /// read a further call continues with the same header, and `TooLong` stays. The other results
    /// come only if at most 4,294,967,295 bytes were read.
    pub fn read_header<R, F: FileForm<R>, S: Source>(
        &mut self,
        form: &F,
        source: &mut S,
    ) -> Result<(), HeaderFault>
        // The rest of the file is its records, whatever bytes follow.
        ensures header { OnOk result (PassesHeader (F.form form.now) (S.left source.old)
            (S.left source.new) self.old self.new) }

        // The header is refused, whatever bytes follow, or after a read fault the file can be read
        // on.
        ensures fault { IfErr result (λ fault.
            BreaksHeader (F.form form.now) (S.left source.old)
            (S.left source.new) self.old self.new fault) }

        // The result for a header that was read or refused is repeated, and nothing is read.
        ensures passed { self.old.header ≡ Passed
            → IsOk result × (self.new ≡ self.old) × (source.new ≡ source.old) }
        ensures refused { self.old.header ≡ NotRinexNav
            → IsErrOf result HeaderFault.NotRinexNav × (self.new ≡ self.old)
            × (source.new ≡ source.old) }
        ensures version { self.old.header ≡ OtherVersion
            → IsErrOf result HeaderFault.Version × (self.new ≡ self.old)
            × (source.new ≡ source.old) }

        // `ReadFault` only where the source's count of faults rose.
        ensures failed { IsErrOf result (HeaderFault.Line LineFault.ReadFault)
            → Rose (S.faults source.old) (S.faults source.new) }
        ensures quiet { (IsErrOf result (HeaderFault.Line LineFault.ReadFault) → ⊥)
            → (S.faults source.new ≡ S.faults source.old) }
        ensures never { IsTrue (S.never_fails source.old)
            → (IsErrOf result (HeaderFault.Line LineFault.ReadFault) → ⊥)
            × IsTrue (S.never_fails source.new) }
    {
        if !is_waiting(self.header) {
            return answer_of(self.header);
        }
        self.kept = RecordLines::new();
        pass_header::<R, F, S>(form, &mut self.lines, &mut self.header, source)
    }

    /// Reads the next record of a file whose header was read; `None` after the last.
    ///
    /// A record is a line that begins one, for [`Rinex4`](crate::Rinex4) with `>`, and the lines up
    /// to the next such line or the end. Its number is that of its first line in the file, counted
    /// from 1.
    /// `ReadFault`: a read failed, and the source's count of errors rose; a further call continues
    /// with the same record. `TooLong`: there were more than 4,294,967,295 bytes.
    pub fn next_item<R, F: FileForm<R>, S: Source>(
        &mut self,
        form: &F,
        source: &mut S,
    ) -> Result<Option<R>, LineFault>
        requires header { self.old.header ≡ Passed }

        // The record is the next of the file, whatever bytes follow.
        ensures read { IfOk result (λ read.
            GivesRead (F.form form.now) read (S.left source.old)
            (S.left source.new) self.old self.new) }

        // What holds of each value that a record gives holds of this one.
        ensures whole { IfOk result (λ read. IfSome read F.whole) }

        ensures header { self.new.header ≡ Passed }

        // After a fault the same records are still to come.
        ensures fault { IfErr result (λ fault.
            BreaksRecord (F.form form.now) (S.left source.old)
            (S.left source.new) self.old self.new fault) }

        // `ReadFault` only where the source's count of faults rose.
        ensures failed { IsErrOf result LineFault.ReadFault
            → Rose (S.faults source.old) (S.faults source.new) }
        ensures quiet { OnOk result (S.faults source.new ≡ S.faults source.old) }
        ensures long { IsErrOf result LineFault.TooLong
            → (S.faults source.new ≡ S.faults source.old) }
        ensures never { IsTrue (S.never_fails source.old)
            → (IsErrOf result LineFault.ReadFault → ⊥) × IsTrue (S.never_fails source.new) }
    {
        next_record::<R, F, S>(
            form,
            &mut self.lines,
            &mut self.kept,
            &mut self.first,
            source,
        )
    }
}
