//! A cache of payloads that were read: a repeat is found without decoding it again.

ghost use Rattle.std.specs.Prelude.{◌≡◌, ◌<◌, ◌≤◌, ℕ, List, Option};
ghost use Rattle.std.specs.Prelude.{None, Some, IsTrue, length, replicate, slice_get};
ghost use Rattle.streams.specs.Mirrors.{MaySet};

// The number of places in the cache.
const PLACES: usize = 256;

// A cache of payloads of `N` bytes: each place holds the last payload that was put there.
#[derive(PartialEq, Eq, Drop)]
pub(crate) struct RecentMessages<const N: usize> {
    pub(crate) places: [Option<[u8; N]>; PLACES],
}

// The place of a payload, from its satellite number and the low three bits of byte `issue`, which
// holds the issue of data.
pub(crate) fn place_of(payload: &[u8], issue: usize) -> u8
    requires long { 3 ≤ length payload.now }
    requires inside { issue < length payload.now }
{
    (payload[1] & 7) << 5 | (payload[2] & 192) >> 3 | payload[issue] & 7
}

impl<const N: usize> RecentMessages<N> {
    // The empty cache.
    pub(crate) fn new() -> RecentMessages<N>
        ensures { result.places ≡ replicate 256 None }
    {
        RecentMessages {
            places: [None; PLACES],
        }
    }

    // Whether the cache holds this payload in the place.
    pub(crate) fn holds(&self, payload: &[u8], place: u8) -> bool
        ensures { IsTrue result → slice_get self.now.places place ≡ Some (Some payload.now) }
    {
        match self.places.get(usize::from(place)) {
            Some(Some(kept)) => payload == kept.as_slice(),
            _ => false,
        }
    }

    // Puts a payload of `N` bytes in the place; others are ignored.
    pub(crate) fn keep(&mut self, payload: &[u8], place: u8)
        ensures { MaySet self.old.places self.new.places payload.now }
    {
        if payload.len() == N {
            let mut bytes = [0; N];
            bytes.copy_from_slice(payload);
            self.places[usize::from(place)] = Some(bytes);
        }
    }
}
