use scaled_decimal::Scale;

/// A number that is not known, as the field of a column of [`Rule::OrUnknown`].
pub const NOT_KNOWN: i64 = 999_999_999;

/// How a field and the number in its column correspond.
///
/// A field is an integer: the raw value of a parameter as transmitted, an accuracy index, the fit
/// interval flag, or the transmission time in seconds, 999,900,000 if it is unknown.
#[derive(Clone, Copy)]
pub enum Rule {
    /// The number is the field, from `low` to `high`.
    Plain {
        /// The least.
        low: i64,
        /// The greatest.
        high: i64,
    },
    /// As `Plain`, and a blank column is read as 0.
    OrZero {
        /// The least.
        low: i64,
        /// The greatest.
        high: i64,
    },
    /// As `Plain`, and the least is a blank column.
    OrLeast {
        /// The least.
        low: i64,
        /// The greatest.
        high: i64,
    },
    /// As `Plain`, or [`NOT_KNOWN`], which is read from a blank column and, in units of 1, from any
    /// number from 999,999,999 on.
    OrUnknown {
        /// The least.
        low: i64,
        /// The greatest.
        high: i64,
    },
    /// A URA index, 0 to 15, written in metres.
    Ura,
    /// A SISA index, 0 to 125 or 255, written in metres.
    Sisa,
    /// The fit interval flag, written as 4 or 6 hours.
    Fit,
    /// The transmission time in seconds from the start of the week of toe.
    Sent,
    /// A constant that is always written and is ignored when read.
    Unread {
        /// The constant.
        number: i64,
    },
}

/// A column of a record: 19 characters with one number.
#[derive(Clone, Copy)]
pub struct Column {
    /// The unit of the number.
    pub scale: Scale,
    /// How the number and its field correspond.
    pub rule: Rule,
}
