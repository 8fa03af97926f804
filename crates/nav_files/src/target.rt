//! What a file is converted to.

ghost use Rattle.std.specs.Prelude.{◌≡◌};
ghost use Rattle.nav_files.specs.Targets.{target_of_file};

use rinex_write::HeaderWords;
use streams::Target;

/// What a navigation file is converted to.
#[derive(Clone, Copy)]
pub enum RinexTo {
    /// A navigation file of RINEX 4.01, with these texts in its header.
    Rinex(HeaderWords),
    /// A navigation file of RINEX 3.05, without ionosphere records.
    Rinex3(HeaderWords),
    /// A frame for each ephemeris, of message 1019 or 1046 (RTCM 10403.3).
    Rtcm,
    /// A line for each item.
    ToList,
}

impl RinexTo {
    // The target of the items.
    pub(crate) fn target(&self) -> Target
        ensures { result ≡ target_of_file self.now }
    {
        match self {
            RinexTo::Rinex(words) => Target::Rinex(*words),
            RinexTo::Rinex3(words) => Target::Rinex3(*words),
            RinexTo::Rtcm => Target::Rtcm,
            RinexTo::ToList => Target::ToList,
        }
    }
}
