//! The search for the next message.

ghost use Rattle.std.specs.Prelude.{◌≡◌, ◌+◌, ◌≤◌, length, drop};
ghost use Rattle.framing.specs.Headings.{format_of, size_by};
ghost use Rattle.framing.specs.MessageMirrors.{from_first};

use crate::judge::Judge;
use crate::message_form::{is_held, next_start, size_at};

// The first offset from `start` on where a message begins or, where more bytes may come, an
// incomplete one does; and the size of the message, 0 where none begins.
pub fn find<J: Judge>(judge: &mut J, bytes: &[u8], start: usize, more: bool) -> (usize, usize)
    requires few { length bytes.now ≤ 98304 }
    requires start { start ≤ length bytes.now }
    requires beside { J.IsBeside judge.old bytes.now }
    ensures inside { result.0 + result.1 ≤ length bytes.now }
    ensures place { drop result.0 bytes.now
        ≡ from_first (format_of J.heading) more (drop start bytes.now) }
    ensures size { result.1 ≡ size_by J.heading (drop result.0 bytes.now) }
    ensures beside { J.IsBeside judge.new bytes.now }
{
    let mut place = next_start::<J>(bytes, start);
    while place < bytes.len() {
        if is_held::<J>(&bytes[place..], more) {
            return (place, 0);
        }
        let size = size_at(judge, bytes, place);
        if size != 0 {
            return (place, size);
        }
        place = next_start::<J>(bytes, place + 1);
    }
    (place, 0)
}
