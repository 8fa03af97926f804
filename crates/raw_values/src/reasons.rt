//! The numbers of the reasons that several calls give, as `navbridge.h` has them.

/// Out of memory.
pub const NO_MEMORY: u32 = 6;

/// The payload of a frame is wanted, and the bytes are no frame.
pub const NO_FRAME: u32 = 26;

/// The week is not a reference week.
pub const NO_WEEK: u32 = 22;

/// The numbers encode no item, subframe, word or row.
pub const NO_ITEM: u32 = 23;

/// There is no such version of navigation files.
pub const NO_VERSION: u32 = 24;

/// No message carries the item.
pub const NO_MESSAGE: u32 = 25;

/// The date of a header has bytes below 32, or there are 100 leap seconds or more.
pub const NO_HEADER: u32 = 27;

/// The system has no such satellite.
pub const NO_SATELLITE: u32 = 62;

/// A page part is of an alert page.
pub const ALERT: u32 = 65;
