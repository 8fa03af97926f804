/// Where a line is in a file.
#[derive(Clone, Copy)]
pub enum Place {
    /// It is the first.
    First,
    /// It is in the header of a file of the system with this letter.
    Header(u8),
    /// It is in the header of a further file, of the system with this letter, that was joined.
    Joined(u8),
    /// It is after a header, with so many lines behind the first line of a record.
    Body(u8, u8),
}
