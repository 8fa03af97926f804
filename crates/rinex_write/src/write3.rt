//! Headers and records of RINEX 3.05.

ghost use Rattle.nav_io.specs.Writes.{Writes};
ghost use Rattle.rinex_write.specs.Texts.{text_of};
ghost use Rattle.rinex_write.specs.Texts3.{header3_lines, item3_lines};

use crate::header::write_header_of;
use crate::item::write_body;
use crate::words::HeaderWords;
use nav_eph::NavItem;
use nav_io::{Failed, Sink};

/// Appends the header of a navigation file of version 3.05 to a sink (RINEX 3.05,
/// table A5).
///
/// # Errors
///
/// `Failed` only if the sink's count of errors rose in this call or is at its maximum; a prefix of
/// the header was appended then.
pub fn write_header3<T: Sink>(words: &HeaderWords, out: &mut T) -> Result<(), Failed>
    ensures { Writes (T.written out.old) (T.written out.new) (T.faults out.old) (T.faults out.new)
        result (text_of (header3_lines words.now)) }
{
    write_header_of(b"     3.05", words, out)
}

/// Appends the record of an ephemeris to a sink: the lines of its numbers, the first
/// beginning with the satellite (RINEX 3.05, tables A6 and A8). For ionosphere parameters nothing
/// is written.
///
/// # Errors
///
/// `Failed` only if the sink's count of errors rose in this call or is at its maximum; a prefix of
/// the record was appended then.
pub fn write_item3<T: Sink>(item: &NavItem, out: &mut T) -> Result<(), Failed>
    ensures { Writes (T.written out.old) (T.written out.new) (T.faults out.old) (T.faults out.new)
        result (text_of (item3_lines item.now)) }
{
    match item {
        NavItem::Gps(_) => write_body(item, out),
        NavItem::Gal(_) => write_body(item, out),
        NavItem::Ion(_) => Ok(()),
    }
}
