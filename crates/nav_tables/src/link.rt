/// Some bits of a column: the number of a field.
#[derive(Clone, Copy)]
pub struct Part {
    /// The offset of the field in the message.
    pub field: usize,
    /// The width in bits.
    pub width: u32,
    /// How many bits of the column are below them.
    pub low: u32,
}

/// What a column of a record has.
#[derive(Clone, Copy)]
pub enum Link {
    /// The number of a field.
    Field {
        /// Its offset in the message.
        field: usize,
    },
    /// The number of a field, with the opposite sign.
    Opposite {
        /// Its offset in the message.
        field: usize,
    },
    /// The number of a field, and a constant.
    Raised {
        /// Its offset in the message.
        field: usize,
        /// The constant.
        plus: i64,
    },
    /// The numbers of several fields, side by side.
    Parts {
        /// The offset of the first of them in the list of parts.
        first: usize,
        /// How many they are.
        count: usize,
    },
    /// A number that no field has alone: the week, or the time sent.
    Given {
        /// Its offset among these.
        place: usize,
    },
    /// Always the same number; 999,900,000 if a time sent is not known.
    Fixed {
        /// The number.
        number: i64,
    },
}
