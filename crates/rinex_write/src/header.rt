//! The header of a file.

ghost use Rattle.std.specs.Prelude.{◌≡◌, ◌<◌};
ghost use Rattle.nav_io.specs.Writes.{Writes};
ghost use Rattle.rinex_write.specs.Texts.{header_lines, header_lines_by, leap_text, text_of};

use crate::record::{Record, append};
use crate::words::HeaderWords;
use nav_io::{Failed, Sink};

// The leap seconds in two columns.
fn leap_columns(leap: u8) -> [u8; 2]
    requires { leap < 100 }
    ensures { result ≡ leap_text leap }
{
    let tens = if leap < 10 { b' ' } else { b'0' + leap / 10 };
    [tens, b'0' + leap % 10]
}

// The text of a header, with the version in columns 1-9.
fn header_text(version: &[u8; 9], words: &HeaderWords) -> Record
    ensures { result.items ≡ text_of (header_lines_by version.now words.now) }
{
    let mut text = Record::new();
    append(&mut text, version);
    append(
        &mut text,
        b"           N: GNSS NAV DATA    M: MIXED            RINEX VERSION / TYPE\n",
    );
    append(&mut text, b"navbridge                               ");
    append(&mut text, &words.date);
    append(&mut text, b" PGM / RUN BY / DATE\n    ");
    append(&mut text, &leap_columns(words.leap));
    append(
        &mut text,
        b"                                                      LEAP SECONDS\n",
    );
    append(
        &mut text,
        b"                                                            END OF HEADER\n",
    );
    text
}

/// Appends the header of a navigation file to a sink (RINEX 4.01, table A2; RINEX 3.05, table A5).
/// `version` is the text of columns 1-9, as `     4.01`.
///
/// # Errors
///
/// `Failed` only if the sink's count of errors rose in this call or is at its maximum; a prefix of
/// the header was appended then.
pub fn write_header_of<T: Sink>(
    version: &[u8; 9],
    words: &HeaderWords,
    out: &mut T,
) -> Result<(), Failed>
    ensures { Writes (T.written out.old) (T.written out.new) (T.faults out.old) (T.faults out.new)
        result (text_of (header_lines_by version.now words.now)) }
{
    out.write(&header_text(version, words))
}

/// Appends the header of a navigation file of version 4.01 to a sink (RINEX 4.01,
/// table A2).
///
/// # Errors
///
/// As of [`write_header_of`].
pub fn write_header<T: Sink>(words: &HeaderWords, out: &mut T) -> Result<(), Failed>
    ensures { Writes (T.written out.old) (T.written out.new) (T.faults out.old) (T.faults out.new)
        result (text_of (header_lines words.now)) }
{
    write_header_of(b"     4.01", words, out)
}
