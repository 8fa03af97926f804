/// The versions of navigation files.
#[derive(Clone, Copy, PartialEq, Eq)]
pub enum Version {
    /// `4.` and one digit or two: a record has a title.
    Four,
    /// 3.02 to 3.05.
    Three,
}
