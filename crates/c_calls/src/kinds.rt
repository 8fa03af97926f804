//! The kinds of rows, by the numbers of their messages.

ghost use Rattle.std.specs.Prelude.{◌≡◌, ◌↔◌, IsTrue, IfSome, pos};
ghost use Rattle.nav_rows.specs.Kinds.{IsKind};
ghost use Rattle.c_calls.specs.Kinds.{BeginsWith, IsKindOf};

use nav_rows::{Kind, kind_of};
use nav_tables::Field;

// Whether a message with these fields begins with this number.
fn begins_with(fields: &[Field], message: u32) -> bool
    ensures { IsTrue result ↔ BeginsWith fields.now message }
{
    match fields {
        [first, ..] => { first.low == i64::from(message) && first.high == i64::from(message) }
        [] => false,
    }
}

// The kind of the messages of a number and satellite of their own bits.
pub(crate) fn kind_for(message: u32, satellite: u32) -> Option<Kind>
    ensures { IfSome result (IsKindOf message) }
{
    if message > 4095 || satellite > 63 {
        return None;
    }
    let Some(kind) = kind_of(message as u16, satellite as u8) else {
        return None;
    };
    if begins_with(kind.table.fields, message) {
        Some(kind)
    } else {
        None
    }
}
