//! The format of a file, recognised by its first bytes.

ghost use Rattle.std.specs.Prelude.{◌≡◌, ◌≤◌, ◌++◌, ℕ, List, length, take, drop, nat_eq, nat_lt};
ghost use Rattle.std.specs.Prelude.{IfSome};
ghost use Rattle.std.specs.List.{starts_with};
ghost use Rattle.whole_file.specs.Kinds.{kind_of, is_head, prefix_kind, binary_kind, text_kind};
ghost use Rattle.whole_file.specs.Units.{IsPast};
ghost use Rattle.whole_file.specs.Kinds.{other_kind, rinex_kind, version_of, first_char, stands_at};

use crate::units::find_unit;

/// How many bytes of a file are looked at for its format, at most.
pub const LOOKED_AT: usize = 65_536;

// How many bytes tell a head: the first line of a RINEX file.
const HEAD: usize = 80;

/// The format of a file.
#[derive(Clone, Copy)]
pub enum Kind {
    /// No byte.
    Empty,
    /// A capture whose first line names no week.
    Capture1,
    /// A capture whose first line names its week.
    Capture2,
    /// A navigation file of RINEX 4.
    Rinex4,
    /// A navigation file of RINEX 3.
    Rinex3,
    /// A navigation file of RINEX 2.
    Rinex2,
    /// An observation file of RINEX.
    Observations,
    /// An observation file of RINEX in Hatanaka's compact form.
    Hatanaka,
    /// Another file of RINEX.
    OtherRinex,
    /// A stream of RTCM 3.
    Stream,
    /// A log of a receiver in UBX messages.
    Ubx,
    /// A log of a receiver in SBF blocks.
    Sbf,
    /// Sentences of NMEA 0183.
    Nmea,
    /// A file compressed by gzip.
    Gzip,
    /// A file compressed by compress.
    Compress,
    /// A zip archive.
    Zip,
    /// A text that begins with a UTF-8 byte order mark.
    Marked,
    /// Any other bytes.
    Unknown,
}

/// The format of a file that begins with these bytes: that of its head, a capture, a file of RINEX
/// or one compressed by gzip; else that of the first complete unit in its first 65,536 bytes, a UBX
/// message, an SBF block or an RTCM 3 frame of right checksum; else what the first 80 bytes show.
#[tactic(auto, using(std::proofs::lemmas::List::take_min), unfolding(crate::specs::Kinds::kind_of))]
pub fn kind_of(bytes: &[u8]) -> Kind
    ensures { result ≡ kind_of bytes.now }
{
    let head = prefix_kind(&bytes[..HEAD.min(bytes.len())]);
    if is_head(head) {
        return head;
    }
    let first = &bytes[..LOOKED_AT.min(bytes.len())];
    find_unit(first, 0, false).1.unwrap_or(head)
}

/// The format of a file that begins with these bytes, if they decide it, whatever bytes follow. No
/// complete unit begins before `place`, which is moved on: each place is looked at once.
pub fn kind_so_far(prefix: &[u8], place: &mut usize) -> Option<Kind>
    requires few { length prefix.now ≤ 65536 }
    requires within { place.old ≤ length prefix.now }
    requires past { IsPast prefix.now place.old }
    ensures kind { IfSome result (λ kind.
        (following : List ℕ) → kind ≡ kind_of (prefix.now ++ following)) }
    ensures within { place.new ≤ length prefix.now }
    ensures past { IsPast prefix.now place.new }
{
    if prefix.len() < HEAD || prefix.len() == LOOKED_AT {
        return None;
    }
    let head = prefix_kind(&prefix[..HEAD]);
    if is_head(head) {
        return Some(head);
    }
    let (past, unit) = find_unit(prefix, *place, true);
    *place = past;
    unit
}

// Whether a file tells this form by its first line or signature alone.
fn is_head(kind: Kind) -> bool
    ensures { result ≡ is_head kind }
{
    match kind {
        Kind::Capture1
        | Kind::Capture2
        | Kind::Rinex4
        | Kind::Rinex3
        | Kind::Rinex2
        | Kind::Observations
        | Kind::Hatanaka
        | Kind::OtherRinex
        | Kind::Gzip => true,
        _ => false,
    }
}

// The form that the first bytes tell.
#[tactic(auto, unfolding(crate::specs::Kinds::prefix_kind))]
fn prefix_kind(prefix: &[u8]) -> Kind
    ensures { result ≡ prefix_kind prefix.now }
{
    if prefix.is_empty() {
        return Kind::Empty;
    }
    match binary_kind(prefix) {
        Kind::Unknown => text_kind(prefix),
        kind => kind,
    }
}

// The form of a file that is not text, or `Unknown`.
#[tactic(auto, unfolding(crate::specs::Kinds::binary_kind))]
fn binary_kind(prefix: &[u8]) -> Kind
    ensures { result ≡ binary_kind prefix.now }
{
    if begins(prefix, b"\xd3") {
        if prefix.len() > 1 && begins_length(prefix[1]) {
            return Kind::Stream;
        }
        return Kind::Unknown;
    }
    if begins(prefix, b"\xb5\x62") {
        Kind::Ubx
    } else if begins(prefix, b"\x1f\x8b") {
        Kind::Gzip
    } else if begins(prefix, b"\x1f\x9d") {
        Kind::Compress
    } else if begins(prefix, b"PK") {
        Kind::Zip
    } else {
        Kind::Unknown
    }
}

// Whether a byte behind the preamble of a frame of RTCM 3 is that of a frame: six reserved bits of
// 0, and two of the ten of its length.
fn begins_length(byte: u8) -> bool
    ensures { result ≡ nat_lt byte 4 }
{
    byte < 4
}

// The form of a file that begins as a text.
#[tactic(auto, unfolding(crate::specs::Kinds::text_kind))]
fn text_kind(prefix: &[u8]) -> Kind
    ensures { result ≡ text_kind prefix.now }
{
    if begins(prefix, b"NAVCAP 1") {
        Kind::Capture1
    } else if begins(prefix, b"NAVCAP 2") {
        Kind::Capture2
    } else if begins(prefix, b"$@") {
        Kind::Sbf
    } else if begins(prefix, b"$G") {
        Kind::Nmea
    } else if begins(prefix, b"\xef\xbb\xbf") {
        Kind::Marked
    } else if is_labelled(prefix, b"CRINEX VERS   / TYPE") {
        Kind::Hatanaka
    } else if is_labelled(prefix, b"RINEX VERSION / TYPE") {
        rinex_kind(prefix)
    } else {
        Kind::Unknown
    }
}

// Whether the first line has this label in columns 61-80.
fn is_labelled(prefix: &[u8], label: &[u8]) -> bool
    ensures { result ≡ stands_at 60 label.now prefix.now }
{
    stands_at(prefix, 60, label)
}

// The form of a file of RINEX, by its version and its type in column 21.
#[tactic(auto, unfolding(crate::specs::Kinds::rinex_kind))]
fn rinex_kind(prefix: &[u8]) -> Kind
    ensures { result ≡ rinex_kind prefix.now }
{
    if stands_at(prefix, 20, b"O") {
        return Kind::Observations;
    }
    if !stands_at(prefix, 20, b"N") {
        return other_kind(prefix);
    }
    match version_of(prefix) {
        b'4' => Kind::Rinex4,
        b'3' => Kind::Rinex3,
        b'2' => Kind::Rinex2,
        _ => Kind::OtherRinex,
    }
}

// The form of one of another type: RINEX 2 has types for GLONASS and SBAS.
fn other_kind(prefix: &[u8]) -> Kind
    ensures { result ≡ other_kind prefix.now }
{
    let is_older = stands_at(prefix, 20, b"G") || stands_at(prefix, 20, b"H");
    if is_older && version_of(prefix) == b'2' {
        Kind::Rinex2
    } else {
        Kind::OtherRinex
    }
}

// The first character of the version in columns 1-9, or a blank.
fn version_of(prefix: &[u8]) -> u8
    ensures { result ≡ version_of prefix.now }
{
    first_char(&prefix[..9.min(prefix.len())])
}

// The first character that is not a blank; a blank where there is none.
fn first_char(text: &[u8]) -> u8
    ensures { result ≡ first_char text.now }
{
    for byte in text {
        if *byte != b' ' {
            return *byte;
        }
    }
    b' '
}

// Whether the bytes begin with this signature.
fn begins(bytes: &[u8], mark: &[u8]) -> bool
    ensures { result ≡ starts_with nat_eq bytes.now mark.now }
{
    bytes.starts_with(mark)
}

// Whether this text stands at this byte offset.
#[tactic(auto, using(std::proofs::lemmas::List::drop_min))]
fn stands_at(bytes: &[u8], place: usize, text: &[u8]) -> bool
    ensures { result ≡ starts_with nat_eq (drop place bytes.now) text.now }
{
    begins(&bytes[place.min(bytes.len())..], text)
}
