//! One message, at the start of some bytes.

ghost use Rattle.std.specs.Prelude.{◌≡◌, ℕ, ◌+◌, ◌-◌, ◌<◌, ◌≤◌};
ghost use Rattle.std.specs.Prelude.{◌&&◌, ◌↔◌, IsTrue, length, take};
ghost use Rattle.std.specs.Prelude.{drop, slice_index, Bool, nat_eq, if◌then◌else◌};
ghost use Rattle.framing.specs.Headings.{format_of, opens_by, size_by};
ghost use Rattle.framing.specs.MessageState.{IsWaiting};
ghost use Rattle.framing.specs.MessageMirrors.{from_first, Promises};

use crate::judge::Judge;

// Whether the bytes begin with an incomplete message.
pub fn opens<J: Judge>(bytes: &[u8]) -> bool
    ensures { result ≡ opens_by J.heading bytes.now }
{
    if bytes.is_empty() {
        return false;
    }
    J::begins(bytes) && bytes.len() < J::wanted(bytes)
}

// The same where more bytes may come, else false.
pub fn is_held<J: Judge>(bytes: &[u8], more: bool) -> bool
    ensures { result ≡ (more && opens_by J.heading bytes.now) }
{
    more && opens::<J>(bytes)
}

// The first offset from `from` on that holds the first byte of a message; the end where none does.
pub fn next_start<J: Judge>(bytes: &[u8], from: usize) -> usize
    requires { from ≤ length bytes.now }
    ensures onward { from ≤ result }
    ensures inside { result ≤ length bytes.now }
    ensures passed { (more : Bool) → from_first (format_of J.heading) more (drop result bytes.now)
        ≡ from_first (format_of J.heading) more (drop from bytes.now) }
{
    let first = J::first();
    let mut place = from;
    while place < bytes.len() && bytes[place] != first {
        place += 1;
    }
    place
}

// The count of bytes below which no message is decided, for bytes that begin with these.
pub fn wanted_of<J: Judge>(rest: &[u8]) -> usize
    requires { IsWaiting (format_of J.heading) rest.now }
    ensures value { result ≡ (if nat_eq (length rest.now) 0 then 1 else J.heading.wanted rest.now) }
    ensures promise { Promises (format_of J.heading) rest.now result }
    ensures most { result ≤ 98304 }
{
    if rest.is_empty() {
        return 1;
    }
    J::wanted(rest)
}

// Whether nothing is held, or the bytes held begin with an incomplete message.
pub fn waits<J: Judge>(rest: &[u8]) -> bool
    ensures { IsTrue result ↔ IsWaiting (format_of J.heading) rest.now }
{
    rest.is_empty() || opens::<J>(rest)
}

// The size of the message that begins at offset `place`, or 0 where none does.
pub fn size_at<J: Judge>(judge: &mut J, bytes: &[u8], place: usize) -> usize
    requires few { length bytes.now ≤ 98304 }
    requires place { place ≤ length bytes.now }
    requires beside { J.IsBeside judge.old bytes.now }
    ensures value { result ≡ size_by J.heading (drop place bytes.now) }
    ensures inside { place + result ≤ length bytes.now }
    ensures beside { J.IsBeside judge.new bytes.now }
{
    let rest = &bytes[place..];
    if !J::begins(rest) {
        return 0;
    }
    let size = J::wanted(rest);
    if rest.len() < size {
        return 0;
    }
    if judge.is_right(bytes, place, size) {
        size
    } else {
        0
    }
}
