//! The first complete unit in the beginning of a file: a UBX message, an SBF block or an RTCM 3
//! frame.

ghost use Rattle.std.specs.Prelude.{◌≡◌, ℕ, ◌+◌, ◌<◌, ◌≤◌};
ghost use Rattle.std.specs.Prelude.{List, [], ◌++◌, ◌&&◌, length, drop, slice_index, nat_lt};
ghost use Rattle.std.specs.Prelude.{false, IfSome, None, Some};
ghost use Rattle.framing.specs.Headings.{opens_by, size_by};
ghost use Rattle.framing.specs.Frames.{announced, frame_size, is_open};
ghost use Rattle.whole_file.specs.Units.{first_unit, opens_unit, unit_of};

use crate::kinds::Kind;
use framing::{Judge, SbfJudge, UbxJudge, frame_of, headings_are_formats};

// The first whole unit in the bytes from `start` on: its form, or `None`, and the first offset that
// is not passed. Where more bytes may come, an offset where a unit is incomplete is not passed.
pub fn find_unit(bytes: &[u8], start: usize, more: bool) -> (usize, Option<Kind>)
    requires few { length bytes.now ≤ 65536 }
    requires start { start ≤ length bytes.now }
    ensures inside { result.0 ≤ length bytes.now }
    ensures passed { (following : List ℕ) → (more ≡ false → following ≡ [])
        → first_unit (drop start bytes.now ++ following)
        ≡ first_unit (drop result.0 bytes.now ++ following) }
    ensures whole { IfSome result.1 (λ kind.
        (following : List ℕ) → (more ≡ false → following ≡ [])
        → first_unit (drop result.0 bytes.now ++ following) ≡ Some kind) }
    ensures end { more ≡ false → result.1 ≡ None → result.0 ≡ length bytes.now }
{
    headings_are_formats();
    let mut ubx = UbxJudge::new();
    let mut sbf = SbfJudge::new();
    let mut place = start;
    while place < bytes.len() {
        if is_held(&bytes[place..], more) {
            return (place, None);
        }
        if let Some(kind) = unit_at(&mut ubx, &mut sbf, bytes, place) {
            return (place, Some(kind));
        }
        place += 1;
    }
    (place, None)
}

// Whether the bytes begin with an incomplete unit and more bytes may come.
fn is_held(bytes: &[u8], more: bool) -> bool
    ensures { result ≡ (more && opens_unit bytes.now) }
{
    more && (opens::<UbxJudge>(bytes) || opens::<SbfJudge>(bytes) || opens_frame(bytes))
}

// The form of the whole unit that begins at this offset.
fn unit_at(ubx: &mut UbxJudge, sbf: &mut SbfJudge, bytes: &[u8], place: usize) -> Option<Kind>
    requires few { length bytes.now ≤ 65536 }
    requires place { place ≤ length bytes.now }
    requires sums { ⟦<UbxJudge as Judge>⟧.IsBeside ubx.old bytes.now }
    requires states { ⟦<SbfJudge as Judge>⟧.IsBeside sbf.old bytes.now }
    ensures value { result ≡ unit_of (drop place bytes.now) }
    ensures sums { ⟦<UbxJudge as Judge>⟧.IsBeside ubx.new bytes.now }
    ensures states { ⟦<SbfJudge as Judge>⟧.IsBeside sbf.new bytes.now }
{
    if size_at(ubx, bytes, place) > 0 {
        Some(Kind::Ubx)
    } else if size_at(sbf, bytes, place) > 0 {
        Some(Kind::Sbf)
    } else if begins_frame(&bytes[place..]) {
        Some(Kind::Stream)
    } else {
        None
    }
}

// Whether the bytes begin with an incomplete message.
fn opens<J: Judge>(bytes: &[u8]) -> bool
    ensures { result ≡ opens_by J.heading bytes.now }
{
    if bytes.is_empty() {
        return false;
    }
    J::begins(bytes) && bytes.len() < J::wanted(bytes)
}

// The size of the whole message that begins at this offset, or 0 where none does.
fn size_at<J: Judge>(judge: &mut J, bytes: &[u8], place: usize) -> usize
    requires few { length bytes.now ≤ 65536 }
    requires place { place ≤ length bytes.now }
    requires beside { J.IsBeside judge.old bytes.now }
    ensures value { result ≡ size_by J.heading (drop place bytes.now) }
    ensures beside { J.IsBeside judge.new bytes.now }
{
    let rest = &bytes[place..];
    if !J::begins(rest) {
        return 0;
    }
    let size = J::wanted(rest);
    if rest.len() < size {
        return 0;
    }
    if judge.is_right(bytes, place, size) {
        size
    } else {
        0
    }
}

// The size of a frame by the length in its header.
fn size_reported(bytes: &[u8]) -> usize
    requires { 3 ≤ length bytes.now }
    ensures { result ≡ announced (slice_index bytes.now 1) (slice_index bytes.now 2) }
{
    (bytes[1] as usize * 256 + bytes[2] as usize) % 1024 + 6
}

// Whether the bytes begin with an incomplete frame.
#[tactic(auto, using(crate::proofs::FrameForms::frame_forms))]
fn opens_frame(bytes: &[u8]) -> bool
    ensures { result ≡ is_open bytes.now }
{
    match bytes {
        [] => false,
        [start, _, _, ..] => *start == 0xd3 && bytes.len() < size_reported(bytes),
        [start, ..] => *start == 0xd3,
    }
}

// Whether the bytes begin with a whole frame.
fn begins_frame(bytes: &[u8]) -> bool
    ensures { result ≡ nat_lt 0 (frame_size bytes.now) }
{
    if bytes.len() < 3 {
        return false;
    }
    if bytes[0] != 0xd3 {
        return false;
    }
    let size = size_reported(bytes);
    if bytes.len() < size {
        return false;
    }
    match frame_of(&bytes[..size]) {
        Some(_) => true,
        None => false,
    }
}
