//! A row as C has it.

/// An ephemeris of any system.
#[repr(C)]
#[derive(Clone, Copy)]
pub struct RowRaw {
    /// The epoch, in seconds from 1980-01-06 in the time scale of its record.
    pub epoch: u64,
    /// The number of its message.
    pub message: u32,
    /// The number of the satellite in its system.
    pub satellite: u32,
    /// How many columns its record has.
    pub count: u32,
    /// The letter of its system.
    pub letter: u8,
    /// The title of its records, and zeros.
    pub title: [u8; 7],
    /// The columns, and zeros.
    pub columns: [i64; 40],
}

/// The unit of a column: its number is the integer times `factor`, 2^`two` and 10^`ten`.
#[repr(C)]
#[derive(Clone, Copy)]
pub struct ColumnRaw {
    /// An integer factor.
    pub factor: u32,
    /// The exponent of two.
    pub two: i32,
    /// The exponent of ten.
    pub ten: i32,
    /// 1 if the integer is in semicircles, and the number in radians.
    pub is_angle: u32,
    /// What the integer is: 0 the number itself; 1 a URA index, 2 a SISA index, 3 the fit interval
    /// flag; 4 a time of transmission, 999,900,000 if it is not known; 5 a constant; 6 the number
    /// itself, 999,999,999 if it is not known.
    pub rule: u32,
}
