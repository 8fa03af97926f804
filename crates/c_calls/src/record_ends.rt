//! If the header of a file of records and each of its records end, in the bytes of it that have
//! come so far.

ghost use Rattle.std.specs.Prelude.{◌≡◌, ◌+◌, ◌<◌, ◌≤◌, ◌↔◌, IsTrue, codes, length};
ghost use Rattle.nav_io.specs.Lines.{without_cr};
ghost use Rattle.rinex_read.specs.Files.{ends_header};
ghost use Rattle.rinex_read.specs.Forms.{begins, rinex4};
ghost use Rattle.rinex_read.specs.Form3.{rinex3};
ghost use Rattle.c_calls.specs.RecordEnds.{EndsHeader, EndsRecord};
ghost use Rattle.c_calls.specs.RecordReads.{IsVersion};

use crate::text_lines::without_end;
use nav_io::first_end;
use rinex_read::{FileForm, ItemRead, Rinex3, Rinex4};

// Whether a line begins a record.
fn begins<R, F: FileForm<R>>(form: &F, line: &[u8]) -> bool
    ensures { result ≡ begins (F.form form.now) line.now }
{
    match line {
        [first, ..] => form.starts(*first),
        [] => form.starts(b' '),
    }
}

// How many bytes the first record has.
fn size_in<R, F: FileForm<R>>(form: &F, text: &[u8], is_end: bool) -> usize
    ensures { EndsRecord (F.form form.now) text.now is_end result }
{
    let mut at = 0;
    'lines: while let Some(end) = first_end(&text[at..]) {
        if at > 0 && begins::<R, F>(form, without_end(&text[at..at + end])) {
            return at;
        }
        at += end + 1;
    }
    if !is_end {
        return 0;
    }
    if at > 0 && at < text.len() && begins::<R, F>(form, without_end(&text[at..])) {
        return at;
    }
    text.len()
}

/// How many bytes the first record of these has: its first line and the lines up to the next that
/// begins a record, in a file of version 4 with `>`, of version 3 in its first column. 0 if more
/// bytes may come, and no further line that has ended begins one; if none is left; and if there is
/// no such version.
pub fn record_size(text: &[u8], version: u32, is_end: bool) -> usize
    ensures version4 { version ≡ 4 → EndsRecord rinex4 text.now is_end result }
    ensures version3 { version ≡ 3 → EndsRecord rinex3 text.now is_end result }
    ensures none { (IsVersion version → ⊥) → result ≡ 0 }
{
    match version {
        3 => size_in::<ItemRead, Rinex3>(&Rinex3, text, is_end),
        4 => size_in::<ItemRead, Rinex4>(&Rinex4, text, is_end),
        _ => 0,
    }
}

// Whether a line ends a header.
fn ends_header(line: &[u8]) -> bool
    ensures { result ≡ ends_header line.now }
{
    if line.len() < 73 {
        return false;
    }
    is_label(&line[60..73])
}

// Whether a text is the label of the last line of a header.
fn is_label(text: &[u8]) -> bool
    ensures { IsTrue result ↔ (text.now ≡ codes "END OF HEADER") }
{
    text == b"END OF HEADER".as_slice()
}

/// How many bytes the header of a file has, with the line that ends it; 0 if no line that has ended
/// does.
pub fn header_size(text: &[u8]) -> usize
    ensures { EndsHeader text.now result }
{
    let mut at = 0;
    'lines: while let Some(end) = first_end(&text[at..]) {
        let line = without_end(&text[at..at + end]);
        at += end + 1;
        if ends_header(line) {
            return at;
        }
    }
    0
}
