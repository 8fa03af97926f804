//! What a stream is converted to.

ghost use Rattle.std.specs.Prelude.{◌≡◌};
ghost use Rattle.streams.specs.StreamTargets.{target_of_stream};

use crate::Target;
use rinex_write::HeaderWords;

/// What a stream is converted to.
#[derive(Clone, Copy)]
pub enum StreamTo {
    /// A navigation file of RINEX 4.01, with these texts in its header.
    Rinex(HeaderWords),
    /// A navigation file of RINEX 3.05, without ionosphere records.
    Rinex3(HeaderWords),
    /// A frame for each ephemeris, of message 1019 or 1046 (RTCM 10403.3).
    Rtcm,
}

impl StreamTo {
    // The target of the items.
    pub(crate) fn target(&self) -> Target
        ensures { result ≡ target_of_stream self.now }
    {
        match self {
            StreamTo::Rinex(words) => Target::Rinex(*words),
            StreamTo::Rinex3(words) => Target::Rinex3(*words),
            StreamTo::Rtcm => Target::Rtcm,
        }
    }
}
