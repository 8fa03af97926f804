//! The system of the ephemerides of a navigation file that is made.

use memchr::memchr;
use std::cell::Cell;

// Several systems.
const MIXED: u8 = b'M';

/// The letter of the system of the ephemerides that were made, `M` for several, and 0 for none.
pub(crate) type Letter = Cell<u8>;

/// What is seen of a navigation file while it is written.
#[derive(Drop)]
pub(crate) struct Letters<'a> {
    letter: &'a Letter,
    // whether a line begins
    is_start: bool,
}

impl<'a> Letters<'a> {
    /// Nothing yet.
    pub(crate) fn new(letter: &'a Letter) -> Letters<'a> {
        letter.set(0);
        Letters {
            letter,
            is_start: true,
        }
    }

    /// Sees a piece of the file: the line with the epoch of an ephemeris begins with its satellite.
    pub(crate) fn see(&mut self, piece: &[u8]) {
        let mut rest = piece;
        for _ in 0..piece.len() {
            if self.is_start {
                self.see_first(rest.first().copied().unwrap_or(b' '));
            }
            match memchr(b'\n', rest) {
                None => {
                    self.is_start = self.is_start && rest.is_empty();
                    return;
                }
                Some(end) => {
                    rest = rest.get(end.saturating_add(1)..).unwrap_or(&[]);
                    self.is_start = true;
                }
            }
        }
    }

    // Sees the first character of a line.
    fn see_first(&mut self, first: u8) {
        if !matches!(first, b'G' | b'R' | b'E' | b'C' | b'J' | b'I' | b'S') {
            return;
        }
        let known = self.letter.get();
        if known == 0 {
            self.letter.set(first);
        } else if known != first {
            self.letter.set(MIXED);
        }
    }
}

/// The type of the data of a navigation file in its name.
pub(crate) fn data_type(letter: &Letter) -> &'static str {
    match letter.get() {
        b'G' => "GN",
        b'R' => "RN",
        b'E' => "EN",
        b'C' => "CN",
        b'J' => "JN",
        b'I' => "IN",
        b'S' => "SN",
        _ => "MN",
    }
}
