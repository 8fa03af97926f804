use nav_eph::NavItem;

/// A difference of two files.
#[derive(Clone, Copy)]
pub enum Difference {
    /// The item is only in the first file.
    OnlyFirst(NavItem),
    /// The item is only in the second file.
    OnlySecond(NavItem),
    /// The first item is only in the first file, the second only in the second file, and they have
    /// the same GPS time, class and satellite.
    Both(NavItem, NavItem),
}
