//! Transmission times as numbers.

ghost use Rattle.std.specs.Prelude.{◌≡◌};
ghost use Rattle.nav_eph.specs.Conditions.{wn_of};
ghost use Rattle.c_calls.specs.Tags.{second_of};

use nav_eph::SentTag;

// The week number of a tag.
pub(crate) fn wn_of(tag: &SentTag) -> u32
    ensures { result ≡ wn_of tag.now }
{
    match tag {
        SentTag::Sent { wn, second: _ } => wn.value() as u32,
        SentTag::Toe { wn, second: _ } => wn.value() as u32,
    }
}

// The time of week of a tag.
pub(crate) fn second_of(tag: &SentTag) -> u32
    ensures { result ≡ second_of tag.now }
{
    match tag {
        SentTag::Sent { wn: _, second } => second.value(),
        SentTag::Toe { wn: _, second } => second.value(),
    }
}
