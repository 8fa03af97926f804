use thiserror::Error;

/// Why a page part is rejected.
#[derive(Clone, Copy, PartialEq, Eq, Debug, Error)]
pub enum HalfFault {
    /// The page type, its second bit, is 1: an alert page, which has no I/NAV word.
    #[error("alert page")]
    Alert,
}
