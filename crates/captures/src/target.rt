ghost use Rattle.std.specs.Prelude.{◌≡◌};
ghost use Rattle.captures.specs.Captures.{target_of};

use rinex_write::HeaderWords;
use streams::Target;

/// What a capture is converted to.
#[derive(Clone, Copy)]
pub enum CaptureTo {
    /// A navigation file (RINEX 4.01), with these texts in its header.
    Rinex(HeaderWords),
    /// A navigation file (RINEX 3.05), with these texts in its header; ionospheres have no record.
    Rinex3(HeaderWords),
    /// A frame for each ephemeris, of message 1019 or 1046 (RTCM 10403.3).
    Rtcm,
    /// A line for each period.
    ToList,
    /// The counts.
    Count,
}

impl CaptureTo {
    // The form that is written.
    pub(crate) fn target(&self) -> Target
        ensures { result ≡ target_of self.now }
    {
        match self {
            CaptureTo::Rinex(words) => Target::Rinex(*words),
            CaptureTo::Rinex3(words) => Target::Rinex3(*words),
            CaptureTo::Rtcm => Target::Rtcm,
            CaptureTo::ToList => Target::ToList,
            CaptureTo::Count => Target::Count,
        }
    }
}
