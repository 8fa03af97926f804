//! The texts of ephemerides, in each format that a run writes.

ghost use Rattle.std.specs.Prelude.{◌≡◌, ◌≤◌, IfOk, length};
ghost use Rattle.nav_io.specs.Writes.{Writes};
ghost use Rattle.streams.specs.Targets.{item_text};
ghost use Rattle.rinex_write.specs.Columns.{AreFields};
ghost use Rattle.nav_rows.specs.Encoding.{message_of};
ghost use Rattle.nav_rows.specs.Kinds.{IsKind};
ghost use Rattle.nav_rows.specs.Rows.{value};
ghost use Rattle.all_systems.specs.Streams.{has_message, message_text, row_line, row_text};

use nav_eph::NavItem;
use nav_io::{Failed, Sink};
use nav_rows::{Kind, Row, message_of_row, write_body, write_record};
use one_run::{Text, append, append_decimal};
use streams::{Target, item_line, write_payload};

// The most bytes of a message of a kind.
const MOST: usize = 192;

// Writes an item that a frame with this number gave.
pub(crate) fn put_item<T: Sink>(
    to: &Target,
    number: u64,
    item: &NavItem,
    out: &mut T,
) -> Result<(), Failed>
    ensures { Writes (T.written out.old) (T.written out.new) (T.faults out.old) (T.faults out.new)
        result (item_text to.now number item.now) }
{
    match to {
        Target::ToList => out.write(item_line(number, item).as_slice()),
        Target::Rinex(_) => to.put(0, item, out),
        Target::Rinex3(_) => to.put(0, item, out),
        Target::Rtcm => to.put(0, item, out),
        Target::Count => Ok(()),
    }
}

/// Writes the frame of the message of a row, and returns whether it has one.
///
/// # Errors
///
/// `Failed` only if the sink's count of errors rose in this call or is at its maximum; a prefix of
/// the frame was appended then. So in [`put_row`].
pub fn put_message<T: Sink>(kind: &Kind, row: &Row, out: &mut T) -> Result<bool, Failed>
    requires kind { IsKind kind.now }
    requires fields { AreFields kind.now.layout.columns.now row.now.columns.items }
    ensures writes { Writes (T.written out.old) (T.written out.new)
        (T.faults out.old) (T.faults out.new)
        result (message_text (message_of kind.now (value row.now))) }
    ensures has { IfOk result (λ has. has ≡ has_message (message_of kind.now (value row.now))) }
{
    let mut bytes = [0; MOST];
    let message = &mut bytes[..kind.table.bytes];
    match message_of_row(kind, row, message) {
        Ok(()) => match write_payload(message, out) {
            Ok(()) => Ok(true),
            Err(Failed) => Err(Failed),
        },
        Err(_) => Ok(false),
    }
}

// The line of a row in a list.
#[tactic(auto, unfolding(crate::specs::Streams::row_line))]
fn line_of(number: u64, kind: &Kind, row: &Row) -> Text
    requires { length kind.now.title.now ≤ 4 }
    ensures { result.items ≡ row_line number (record { kind = kind.now; row = value row.now }) }
{
    let mut text = Text::new();
    append_decimal(&mut text, number);
    append(&mut text, b" EPH ");
    append(
        &mut text,
        &[
            kind.letter,
            b'0' + row.number / 10 % 10,
            b'0' + row.number % 10,
        ],
    );
    append(&mut text, b" ");
    append(&mut text, kind.title);
    append(&mut text, b" ");
    append_decimal(&mut text, row.moment.value() / 604_800);
    append(&mut text, b" ");
    append_decimal(&mut text, row.moment.value() % 604_800);
    append(&mut text, b"\n");
    text
}

/// Writes a row that a frame or line with this number gave.
pub fn put_row<T: Sink>(
    to: &Target,
    number: u64,
    kind: &Kind,
    row: &Row,
    out: &mut T,
) -> Result<(), Failed>
    requires kind { IsKind kind.now }
    requires fields { AreFields kind.now.layout.columns.now row.now.columns.items }
    ensures { Writes (T.written out.old) (T.written out.new) (T.faults out.old) (T.faults out.new)
        result (row_text to.now number (record { kind = kind.now; row = value row.now })) }
{
    match to {
        Target::Rinex(_) => write_record(kind, row, out),
        Target::Rinex3(_) => write_body(kind, row, out),
        Target::Rtcm => match put_message(kind, row, out) {
            Ok(_) => Ok(()),
            Err(Failed) => Err(Failed),
        },
        Target::ToList => out.write(line_of(number, kind, row).as_slice()),
        Target::Count => Ok(()),
    }
}
