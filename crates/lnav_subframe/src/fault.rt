use thiserror::Error;

/// Why a subframe is rejected: the first of these that holds, in this order.
#[derive(Clone, Copy, PartialEq, Eq, Debug, Error)]
pub enum LnavFault {
    /// It begins neither with the preamble 10001011 nor with its complement.
    #[error("no preamble")]
    Preamble,
    /// The parity of a word is wrong.
    #[error("parity of word {word}")]
    Parity {
        /// The first such word, 1 to 10.
        word: u8,
    },
    /// The TOW count is 100,800 or more, past the end of the week.
    #[error("count past the week")]
    BadTow,
    /// The subframe is neither 1, 2 or 3 nor page 18 of subframe 4.
    #[error("subframe {number} page {page} not used")]
    Unused {
        /// Its number.
        number: u8,
        /// Its SV ID in subframes 4 and 5, and 0 in others.
        page: u8,
    },
    /// toc or toe is 37,800 or more, past the end of the week in units of 16 s.
    #[error("time past the week")]
    BadTime,
}
