use thiserror::Error;

/// Why a word is rejected: the first of these that holds, in this order.
#[derive(Clone, Copy, PartialEq, Eq, Debug, Error)]
pub enum WordFault {
    /// The word type is not 1 to 5.
    #[error("word {number} not used")]
    OtherWord {
        /// The word type, 0 or 6 to 63.
        number: u8,
    },
    /// The SVID in word type 4 is not that of the satellite that sent it.
    #[error("another satellite")]
    WrongSat,
    /// toe or toc is 10,080 or more (units of 60 s), or TOW is 604,800 s or more: past the end of
    /// the week.
    #[error("time past the week")]
    BadTime,
    /// The SISA index in word type 3 is one of the spare values 126 to 254 (Galileo OS SIS ICD,
    /// 5.1.12).
    #[error("spare accuracy")]
    SpareSisa,
}
