//! The lines of RINEX 3.

ghost use Rattle.std.specs.Prelude.{◌≡◌, ◌≤◌, length};
ghost use Rattle.arrayvec.specs.ArrayVec.{array_vec_len};
ghost use Rattle.rinex_lines.specs.Columns.{part};
ghost use Rattle.rinex_lines.specs.Lines.{after, body_line, body_of, count_after, ends_in};
ghost use Rattle.rinex_lines.specs.Lines.{first_line, further_line, is_blank, is_cut, is_end};
ghost use Rattle.rinex_lines.specs.Lines.{is_record, is_stray, is_two, is_version, is_whole};
ghost use Rattle.rinex_lines.specs.Lines.{letter_of, line_at, lines_behind, record_line};
ghost use Rattle.rinex_lines.specs.Lines.{second_text, third_text, type_of, version_line};
ghost use Rattle.rinex_lines.specs.Lines.{version_text};
ghost use Rattle.rinex_lines.specs.declared.place.Place.TheVariants.{Body};

use crate::columns::{Columns, Line, append, padded, part};
use crate::dates::{frame_text, year_text};
use crate::place::Place;
use scaled_decimal::{is_decimal, trimmed};

// `2`, or `2.` and one digit or two.
fn is_two(text: &[u8]) -> bool
    ensures { result ≡ is_two text.now }
{
    match text {
        [a] => *a == b'2',
        [a, b, c] => *a == b'2' && *b == b'.' && is_decimal(*c),
        [a, b, c, d] => *a == b'2' && *b == b'.' && is_decimal(*c) && is_decimal(*d),
        _ => false,
    }
}

// The letter of the system of a file of this type, or a blank.
fn letter_of(form: u8) -> u8
    ensures { result ≡ letter_of form }
{
    match form {
        b'N' => b'G',
        b'G' => b'R',
        b'H' => b'S',
        _ => b' ',
    }
}

// The type of such a file in RINEX 3; any other stays.
fn type_of(form: u8) -> u8
    ensures { result ≡ type_of form }
{
    if letter_of(form) == b' ' { form } else { b'N' }
}

// The version in RINEX 3.
fn version_text(two: bool) -> &'static [u8; 9]
    ensures { result.now ≡ version_text two }
{
    if two { b"     3.05" } else { b"         " }
}

// The first line.
#[tactic(auto, unfolding(crate::specs::Lines::first_line))]
fn first_line(line: &Columns) -> Line
    ensures text { result.items ≡ first_line line.now }
    ensures len { array_vec_len result ≡ 80 }
{
    let mut out = Line::new();
    append(&mut out, version_text(is_two(trimmed(part(line, 0, 9)))));
    append(&mut out, part(line, 9, 11));
    append(&mut out, &[type_of(line[20])]);
    append(&mut out, part(line, 21, 59));
    out
}

// Whether a line begins a record.
fn is_record(line: &Columns) -> bool
    ensures { result ≡ is_record line.now }
{
    !(line[0] == b' ' && line[1] == b' ')
}

// The seconds and the column before them.
fn second_text(line: &Columns) -> &[u8]
    ensures text { result.now ≡ second_text line.now }
    ensures len { length result.now ≡ 3 }
{
    if part(line, 20, 2) == b".0".as_slice() {
        part(line, 17, 3)
    } else {
        part(line, 19, 3)
    }
}

// The third number of a record.
fn third_text(letter: u8, line: &Columns) -> [u8; 19]
    ensures { result ≡ third_text letter line.now }
{
    let mut text = [b' '; 19];
    text.copy_from_slice(part(line, 60, 19));
    if letter == b'R' {
        frame_text(line, &text)
    } else {
        text
    }
}

// The first line of a record.
#[tactic(auto, unfolding(crate::specs::Lines::record_line))]
fn record_line(letter: u8, line: &Columns) -> Line
    ensures text { result.items ≡ record_line letter line.now }
    ensures len { array_vec_len result ≡ 80 }
{
    let mut out = Line::new();
    append(&mut out, &[letter]);
    append(&mut out, part(line, 0, 3));
    append(&mut out, &year_text(line[3], line[4]));
    append(&mut out, part(line, 5, 12));
    append(&mut out, second_text(line));
    append(&mut out, part(line, 22, 38));
    append(&mut out, &third_text(letter, line));
    out
}

// Whether there is nothing but blanks.
fn is_blank(text: &[u8]) -> bool
    ensures { result ≡ is_blank text.now }
{
    trimmed(text).len() == 0
}

// The lines behind the first line of a record.
fn lines_behind(letter: u8) -> u8
    ensures value { result ≡ lines_behind letter }
    ensures few { result ≤ 7 }
{
    if letter == b'G' { 7 } else { 3 }
}

// Whether a line that begins no record belongs to one without its first line.
fn is_stray(letter: u8, count: u8, line: &Columns) -> bool
    ensures { result ≡ is_stray letter count line.now }
{
    count == lines_behind(letter) && !is_blank(line)
}

// A line that begins no record.
fn further_line(stray: bool, letter: u8, line: &Columns) -> Line
    ensures text { result.items ≡ further_line stray letter line.now }
    ensures len { array_vec_len result ≡ 80 }
{
    let mut out = Line::new();
    append(&mut out, &[if stray { letter } else { b' ' }]);
    append(&mut out, part(line, 0, 79));
    out
}

// A line of a header but its first.
fn header_line(line: &Columns) -> Line
    ensures text { result.items ≡ line.now }
    ensures len { array_vec_len result ≡ 80 }
{
    let mut out = Line::new();
    append(&mut out, line);
    out
}

// A line that begins a further header.
fn version_line(letter: u8, count: u8, line: &Columns) -> Line
    ensures text { result.items ≡ version_line letter count line.now }
    ensures len { array_vec_len result ≡ 80 }
{
    if count == lines_behind(letter) {
        header_line(&padded(b""))
    } else {
        further_line(false, letter, line)
    }
}

// A line after the header, behind so many of a record.
fn body_line(letter: u8, count: u8, line: &Columns) -> Line
    ensures text { result.items ≡ body_line letter count line.now }
    ensures len { array_vec_len result ≡ 80 }
{
    if is_version(line) {
        version_line(letter, count, line)
    } else if is_record(line) {
        record_line(letter, line)
    } else {
        further_line(is_stray(letter, count, line), letter, line)
    }
}

/// The line as which a line is read, by its place.
pub(crate) fn line_at(place: Place, line: &Columns) -> Line
    ensures text { result.items ≡ line_at place line.now }
    ensures len { array_vec_len result ≡ 80 }
{
    match place {
        Place::First => first_line(line),
        Place::Header(_) => header_line(line),
        Place::Joined(letter) => further_line(false, letter, line),
        Place::Body(letter, count) => body_line(letter, count, line),
    }
}

// Whether a header begins with a line.
fn is_version(line: &Columns) -> bool
    ensures { result ≡ is_version line.now }
{
    part(line, 60, 20) == b"RINEX VERSION / TYPE".as_slice()
}

// Whether the header ends with a line.
fn is_end(line: &Columns) -> bool
    ensures { result ≡ is_end line.now }
{
    part(line, 60, 13) == b"END OF HEADER".as_slice()
}

// The place after a header.
fn body_of(letter: u8) -> Place
    ensures { result ≡ body_of letter }
{
    Place::Body(letter, lines_behind(letter))
}

// The number of lines behind the first of a record, if this one follows so many.
fn count_after(letter: u8, count: u8, line: &Columns) -> u8
    ensures { result ≡ count_after letter count line.now }
{
    if is_record(line) || is_stray(letter, count, line) {
        0
    } else if count < lines_behind(letter) {
        count + 1
    } else {
        count
    }
}

// The place of the line behind one after the header.
fn after_body(letter: u8, count: u8, line: &Columns) -> Place
    ensures { result ≡ after (Body letter count) line.now }
{
    if is_version(line) {
        Place::Joined(letter_of(line[20]))
    } else {
        Place::Body(letter, count_after(letter, count, line))
    }
}

/// The place of the line behind.
pub(crate) fn after(place: Place, line: &Columns) -> Place
    ensures { result ≡ after place line.now }
{
    match place {
        Place::First => Place::Header(letter_of(line[20])),
        Place::Header(letter) => {
            if is_end(line) {
                body_of(letter)
            } else {
                Place::Header(letter)
            }
        }
        Place::Joined(letter) => {
            if is_end(line) {
                body_of(letter)
            } else {
                Place::Joined(letter)
            }
        }
        Place::Body(letter, count) => after_body(letter, count, line),
    }
}

// Whether the last number of a line ends in this column, the first being 1.
fn ends_in(column: usize, line: &Columns) -> bool
    requires first { 1 ≤ column }
    requires last { column ≤ 79 }
    ensures { result ≡ ends_in column line.now }
{
    line[column - 1] != b' ' && is_blank(part(line, column, 79 - column))
}

// Whether a line ends with a complete number.
fn is_whole(line: &Columns) -> bool
    ensures { result ≡ is_whole line.now }
{
    ends_in(22, line) || ends_in(41, line) || ends_in(60, line) || ends_in(79, line)
}

/// Whether the last line, if no line end is behind it, is cut off.
pub(crate) fn is_cut(place: Place, line: &Columns) -> bool
    ensures { result ≡ is_cut place line.now }
{
    match place {
        Place::Body(letter, count) => {
            line[0] == 26 || (!is_record(line) && count < lines_behind(letter) && !is_whole(line))
        }
        _ => false,
    }
}
