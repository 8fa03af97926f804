//! The texts of items, and whether they have one.

ghost use Rattle.std.specs.Prelude.{◌≡◌, ◌≤◌, ◌++◌, IfErr, IfOk, Ok, OnOk, length};
ghost use Rattle.std.proofs.Common.{inl, inr};
ghost use Rattle.nav_io.specs.Writes.{Writes};
ghost use Rattle.streams.specs.Targets.{back_text};
ghost use Rattle.rinex_write.specs.Columns.{AreFields};
ghost use Rattle.nav_rows.specs.Kinds.{IsKind};
ghost use Rattle.nav_rows.specs.Rows.{value};
ghost use Rattle.all_systems.specs.Streams.{row_text};
ghost use Rattle.all_systems.specs.Files.{carried_text, first_text, has_carried, has_text};
ghost use Rattle.all_systems.specs.Files.{is_ephemeris, is_late, is_rinex4, last_text};
ghost use Rattle.all_systems.specs.FileMirrors.{HasFields, view_given};

use crate::file_read::Given;
use crate::held::Held;
use crate::{put_message, put_row};
use nav_eph::NavItem;
use nav_io::{Failed, Sink};
use nav_rows::{Kind, Row};
use one_run::BridgeFault;
use rinex_lines::record_text;
use streams::Target;

// Whether an item is an ephemeris.
pub(crate) fn is_ephemeris(item: &NavItem) -> bool
    ensures { result ≡ is_ephemeris (inl item.now) }
{
    match item {
        NavItem::Gps(_) => true,
        NavItem::Gal(_) => true,
        NavItem::Ion(_) => false,
    }
}

// Whether an item of GPS LNAV and Galileo I/NAV has a text.
fn has_text(to: &Target, item: &NavItem) -> bool
    ensures { result ≡ has_text to.now (inl item.now) }
{
    match to {
        Target::Rinex(_) => true,
        Target::Rinex3(_) => is_ephemeris(item),
        Target::Rtcm => is_ephemeris(item),
        Target::ToList => true,
        Target::Count => true,
    }
}

// Whether the output format is RINEX 4.
fn is_rinex4(to: &Target) -> bool
    ensures { result ≡ is_rinex4 to.now }
{
    match to {
        Target::Rinex(_) => true,
        Target::Rinex3(_) => false,
        Target::Rtcm => false,
        Target::ToList => false,
        Target::Count => false,
    }
}

// Whether an item of GPS LNAV and Galileo I/NAV is written after all ephemerides.
fn is_late(to: &Target, item: &NavItem) -> bool
    ensures { result ≡ is_late to.now (inl item.now) }
{
    match item {
        NavItem::Gps(_) => false,
        NavItem::Gal(_) => false,
        NavItem::Ion(_) => is_rinex4(to),
    }
}

// Writes an item of GPS LNAV and Galileo I/NAV, unless it is held back; whether it has a text.
pub(crate) fn write_nav<T: Sink>(
    to: &Target,
    line: u32,
    item: &NavItem,
    out: &mut T,
) -> Result<bool, Failed>
    ensures writes { Writes (T.written out.old) (T.written out.new)
        (T.faults out.old) (T.faults out.new) result
        (first_text to.now line (Ok (inl item.now))) }
    ensures has { IfOk result (λ has. has ≡ has_text to.now (inl item.now)) }
{
    if is_late(to, item) {
        return Ok(has_text(to, item));
    }
    match to.put(line, item, out) {
        Ok(()) => Ok(has_text(to, item)),
        Err(Failed) => Err(Failed),
    }
}

// Writes a row whose record is at this line; whether it has a text.
pub(crate) fn write_row<T: Sink>(
    to: &Target,
    line: u32,
    kind: &Kind,
    row: &Row,
    out: &mut T,
) -> Result<bool, Failed>
    requires kind { IsKind kind.now }
    requires fields { AreFields kind.now.layout.columns.now row.now.columns.items }
    ensures writes { Writes (T.written out.old) (T.written out.new)
        (T.faults out.old) (T.faults out.new) result
        (row_text to.now line (record { kind = kind.now; row = value row.now })) }
    ensures has { IfOk result (λ has. has
        ≡ has_text to.now (inr (record { kind = kind.now; row = value row.now }))) }
{
    match to {
        Target::Rtcm => put_message(kind, row, out),
        _ => match put_row(to, u64::from(line), kind, row, out) {
            Ok(()) => Ok(true),
            Err(Failed) => Err(Failed),
        },
    }
}

// Whether a carried record has a text.
pub(crate) fn has_carried(to: &Target) -> bool
    ensures { result ≡ has_carried to.now }
{
    match to {
        Target::Rinex(_) => true,
        Target::Rinex3(_) => false,
        Target::Rtcm => false,
        Target::ToList => false,
        Target::Count => true,
    }
}

// Writes the lines of a carried record, if they have a text.
fn write_carried<T: Sink>(to: &Target, lines: &[[u8; 80]], out: &mut T) -> Result<(), Failed>
    requires { length lines.now ≤ 12 }
    ensures { Writes (T.written out.old) (T.written out.new) (T.faults out.old) (T.faults out.new)
        result (carried_text to.now lines.now) }
{
    match to {
        Target::Rinex(_) => out.write(record_text(lines).as_slice()),
        _ => Ok(()),
    }
}

// Writes an item that is held back.
fn write_late<T: Sink>(to: &Target, line: u32, item: &NavItem, out: &mut T) -> Result<(), Failed>
    ensures { Writes (T.written out.old) (T.written out.new) (T.faults out.old) (T.faults out.new)
        result (last_text to.now line (Ok (inl item.now))) }
{
    if is_late(to, item) {
        to.put(line, item, out)
    } else {
        Ok(())
    }
}

// Writes what is held back of a record.
fn write_held<T: Sink>(to: &Target, line: u32, given: &Given, out: &mut T) -> Result<(), Failed>
    requires { HasFields given.now }
    ensures { Writes (T.written out.old) (T.written out.new) (T.faults out.old) (T.faults out.new)
        result (last_text to.now line (view_given given.now)) }
{
    match given {
        Given::Nav(item) => write_late(to, line, item, out),
        Given::Carried(lines) => write_carried(to, lines.as_slice(), out),
        Given::Further(_, _) => Ok(()),
        Given::Refused(_) => Ok(()),
        Given::Passed => Ok(()),
    }
}

// Adds what is held back of a record to the text that is held back.
pub(crate) fn hold_given(
    to: &Target,
    line: u32,
    given: &Given,
    held: &mut Held,
) -> Result<(), BridgeFault>
    requires { HasFields given.now }
    ensures held { OnOk result (held.new.bytes.items
        ≡ held.old.bytes.items ++ last_text to.now line (view_given given.now)) }
    ensures fault { IfErr result (λ fault. fault ≡ BridgeFault.NoMemory) }
{
    match write_held(to, line, given, held) {
        Ok(()) => Ok(()),
        Err(Failed) => Err(BridgeFault::NoMemory),
    }
}

// Writes the text that is held back, and after it what follows all records.
pub(crate) fn write_behind<T: Sink>(
    to: &Target,
    held: &[u8],
    counts: &[u8],
    out: &mut T,
) -> Result<(), Failed>
    ensures { Writes (T.written out.old) (T.written out.new) (T.faults out.old) (T.faults out.new)
        result (held.now ++ back_text to.now counts.now) }
{
    match out.write(held) {
        Ok(()) => to.end(counts, out),
        Err(Failed) => Err(Failed),
    }
}
