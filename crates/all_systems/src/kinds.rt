//! The kinds of ephemerides beside those of messages 1019 and 1046.

ghost use Rattle.all_systems.specs.Kinds.{AreKinds};

use nav_rows::Kind;

/// The kinds.
#[derive(Clone, Copy)]
pub struct Kinds {
    /// GLONASS FDMA, message 1020.
    pub fdma: Kind,
    /// BeiDou D1, message 1042.
    pub d1: Kind,
    /// BeiDou D2, message 1042.
    pub d2: Kind,
    /// Galileo F/NAV, message 1045.
    pub fnav: Kind,
    /// QZSS LNAV, message 1044.
    pub qzss: Kind,
    /// NavIC LNAV, message 1041.
    pub navic: Kind,
    /// SBAS, which has no message.
    pub sbas: Kind,
    pub ghost are: { AreKinds fdma d1 d2 fnav qzss navic sbas },
}
