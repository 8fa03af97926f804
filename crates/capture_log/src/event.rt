use nav_eph::Part;

/// Why something that was received is not used.
#[derive(Clone, Copy, PartialEq, Eq)]
pub enum EventFault {
    /// The bytes are not one complete frame with a right checksum.
    Frame,
    /// A subframe begins neither with the preamble nor with its complement.
    Preamble,
    /// A word of a subframe has a wrong parity.
    Parity {
        /// The first such word, 1 to 10.
        word: u8,
    },
    /// The TOW count of a subframe is past the end of the week.
    Tow,
    /// A time is past the end of the week.
    Time,
    /// The satellite number differs from the sender's, or is none of its system.
    Satellite,
    /// The SISA index of a Galileo ephemeris is spare.
    Sisa,
    /// A message has fewer bytes than its type takes.
    Short,
}

/// What a line gives; a line may give several events, or none.
#[derive(Clone, Copy, PartialEq, Eq)]
pub enum Event {
    /// A part of an ephemeris or of the ionosphere parameters.
    Received(Part),
    /// The line has none of the line formats.
    Malformed,
    /// The line is late: its time tag is before the greatest one by more than the window.
    Late,
    /// The content of the line is rejected.
    Refused(EventFault),
    /// The content is valid but not used: an alert page, or another subframe, word type or message.
    Unused,
}
