/// The signal on which a page was received (Galileo OS SIS ICD, 4.3.1).
#[derive(Clone, Copy, PartialEq, Eq, PartialOrd, Ord, Hash)]
pub enum Signal {
    /// E1-B.
    E1b,
    /// E5b-I.
    E5b,
}
