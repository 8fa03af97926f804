//! What is made: how many records a navigation file of RINEX 4 gets.

use crate::systems::is_read_title;
use memchr::memchr;

// So many characters of a title tell its kind.
const ROOM: usize = 14;

/// How many records were written so far.
#[derive(Clone, Copy)]
pub(crate) struct Made {
    // the characters that were seen of a title
    title: [u8; ROOM],
    seen: usize,
    /// The ephemerides.
    pub ephemerides: u64,
    /// The records of the ionosphere.
    pub ionospheres: u64,
}

impl Made {
    /// None.
    pub(crate) fn new() -> Made {
        Made {
            title: [b'>'; ROOM],
            seen: 0,
            ephemerides: 0,
            ionospheres: 0,
        }
    }

    /// Sees a piece of the file: each record begins by `>`. Those of other kinds are not counted.
    pub(crate) fn see(&mut self, piece: &[u8]) {
        let mut rest = piece;
        for _ in 0..piece.len() {
            if self.seen > 0 {
                rest = self.see_title(rest);
            }
            match memchr(b'>', rest) {
                None => return,
                Some(place) => {
                    self.seen = 1;
                    rest = rest.get(place..).unwrap_or(&[]);
                    rest = rest.get(1..).unwrap_or(&[]);
                }
            }
        }
    }

    // Sees the next characters of a title; those behind them.
    fn see_title<'a>(&mut self, rest: &'a [u8]) -> &'a [u8] {
        let room = ROOM.saturating_sub(self.seen);
        let (some, behind) = rest.split_at(room.min(rest.len()));
        for byte in some {
            if let Some(place) = self.title.get_mut(self.seen) {
                *place = *byte;
            }
            self.seen = self.seen.saturating_add(1);
        }
        if self.seen >= ROOM {
            self.count();
            self.seen = 0;
        }
        behind
    }

    // Counts the record of a title.
    fn count(&mut self) {
        if !is_read_title(&self.title) {
            return;
        }
        if self.title[2] == b'E' {
            self.ephemerides = self.ephemerides.saturating_add(1);
        } else {
            self.ionospheres = self.ionospheres.saturating_add(1);
        }
    }
}
