use rinex_write::HeaderWords;

/// The output format of items and periods.
#[derive(Clone, Copy)]
pub enum Target {
    /// A navigation file (RINEX 4.01) with this header content.
    Rinex(HeaderWords),
    /// A navigation file (RINEX 3.05) with this header content; ionosphere parameters are left out.
    Rinex3(HeaderWords),
    /// A frame for each ephemeris, of message 1019 or 1046 (RTCM 10403.3).
    Rtcm,
    /// A line for each item or period.
    ToList,
    /// Only the counts.
    Count,
}
