use thiserror::Error;

/// Why a payload is rejected: the first of these that holds, in this order.
#[derive(Clone, Copy, PartialEq, Eq, Debug, Error)]
pub enum MessageFault {
    /// The payload has fewer than two bytes, and so no message number.
    #[error("no message number")]
    NoNumber,
    /// The message number is neither 1019 nor 1046.
    #[error("message {number} not used")]
    OtherMessage {
        /// Its message number.
        number: u16,
    },
    /// The payload has fewer bytes than the message takes: 61 for 1019, 63 for 1046.
    #[error("message too short")]
    Short,
    /// The satellite number is not 1 to 32 in 1019, or not 1 to 36 in 1046.
    #[error("no such satellite")]
    BadSat,
    /// toe or toc is not within the week: 37,800 steps of 16 s or more in 1019, 10,080 steps of 60
    /// s or more in 1046.
    #[error("time past the week")]
    BadTime,
    /// The SISA index in 1046 is one of the spare values 126 to 254 (Galileo OS SIS ICD, 5.1.12).
    #[error("spare accuracy")]
    SpareSisa,
}
