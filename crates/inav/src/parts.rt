use nav_eph::Part;

/// The parts of one word, with satellite and time tag.
#[derive(Clone, Copy, PartialEq, Eq)]
pub struct WordParts {
    /// The part of word types 1 to 4; BGD and health of word type 5.
    pub first: Part,
    /// The ionosphere of word type 5; `None` for the others.
    pub second: Option<Part>,
}
