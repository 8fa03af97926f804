ghost use Rattle.std.specs.Prelude.{◌≡◌, ℕ, ◌↔◌, IsSome, IfSome, IsTrue};
ghost use Rattle.nav_eph.specs.Items.{IsAlike, is_alike, same_item, unsent};
ghost use Rattle.nav_eph.specs.Items.{IsGalEph, IsGpsEph, IsIonEph, IsSentSecond};
ghost use Rattle.nav_eph.specs.Items.{galileo_toe_moment, gps_toe_moment};

use crate::galileo::{GalHealth, GalWord1, GalWord2, GalWord3, GalWord4};
use crate::gps::{GpsClock, GpsOrbitA, GpsOrbitB, GpsSide};
use crate::ion::IonContent;
use crate::same::{same_gal, same_gps, same_ion};
use crate::sat::{Sat, System};
use crate::{Moment, Week};
use nav_bits::U;

/// The transmission time of an ephemeris, relative to the week of toe.
#[derive(Clone, Copy, PartialEq, Eq)]
pub enum SentSecond {
    /// Not known.
    Unknown,
    /// Seconds after the start of the week of toe, -302,400 to 907,199.
    At(i32),
}

/// A GPS LNAV ephemeris.
#[derive(Clone, Copy, PartialEq, Eq)]
pub struct GpsEph {
    /// The satellite, of GPS.
    pub sat: Sat,
    /// Its clock correction, of subframe 1.
    pub clock: GpsClock,
    /// Its SV status, of subframe 1.
    pub side: GpsSide,
    /// Its subframe 2.
    pub a: GpsOrbitA,
    /// The fit interval flag (IS-GPS-200, 20.3.3.4.3.1).
    pub fit: U<1>,
    /// Its subframe 3, of the same IODE.
    pub b: GpsOrbitB,
    /// The week of toe, counted from 1980-01-06.
    pub toe_week: Week,
    /// Its transmission time.
    pub sent: SentSecond,
}

/// A Galileo I/NAV ephemeris.
#[derive(Clone, Copy, PartialEq, Eq)]
pub struct GalEph {
    /// The satellite, of Galileo.
    pub sat: Sat,
    /// Its I/NAV word type 1.
    pub w1: GalWord1,
    /// Word type 2, of the same IODnav.
    pub w2: GalWord2,
    /// Word type 3, with the SISA, of the same IODnav.
    pub w3: GalWord3,
    /// Word type 4, with the clock correction, of the same IODnav.
    pub w4: GalWord4,
    /// Its group delays, signal health and data validity, of word type 5.
    pub health: GalHealth,
    /// The week of toe, counted from 1980-01-06.
    pub toe_week: Week,
    /// Its transmission time.
    pub sent: SentSecond,
}

/// Broadcast ionospheric parameters, with satellite and transmission time.
#[derive(Clone, Copy, PartialEq, Eq)]
pub struct IonEph {
    /// The satellite, of the system of the parameters.
    pub sat: Sat,
    /// The transmission time, in week 1 to 16382.
    pub moment: Moment,
    /// The parameters.
    pub content: IonContent,
}

/// One item of broadcast navigation data.
#[derive(Clone, Copy, PartialEq, Eq)]
pub enum NavItem {
    /// A GPS ephemeris.
    Gps(GpsEph),
    /// A Galileo ephemeris.
    Gal(GalEph),
    /// Ionospheric parameters.
    Ion(IonEph),
}

// Whether the transmission time is unknown, or from half a week before to half a week after the
// week of toe.
fn is_sent_second(sent: &SentSecond) -> bool
    ensures { IsTrue result ↔ IsSentSecond sent.now }
{
    match sent {
        SentSecond::Unknown => true,
        SentSecond::At(second) => *second >= -302_400 && *second <= 907_199,
    }
}

impl GpsEph {
    /// The ephemeris of these fields; `None` if the satellite is not one of GPS, the IODEs of
    /// subframes 2 and 3 differ, or `sent` is out of range.
    pub fn new(
        sat: Sat,
        clock: GpsClock,
        side: GpsSide,
        a: GpsOrbitA,
        fit: U<1>,
        b: GpsOrbitB,
        toe_week: Week,
        sent: SentSecond,
    ) -> Option<Self>
        ensures exactly { IsSome result ↔ IsGpsEph sat a b sent }
        ensures same { IfSome result (λ e. e ≡ record {
          sat = sat;
          clock = clock;
          side = side;
          a = a;
          fit = fit;
          b = b;
          toe_week = toe_week;
          sent = sent;
        }) }
    {
        if sat.system() != System::Gps {
            return None;
        }
        if a.iode.value() != b.iode.value() {
            return None;
        }
        if !is_sent_second(&sent) {
            return None;
        }
        Some(GpsEph {
            sat,
            clock,
            side,
            a,
            fit,
            b,
            toe_week,
            sent,
        })
    }

    /// The ephemeris reference time toe as GPS time, in seconds from 1980-01-06 (IS-GPS-200,
    /// 20.3.3.4.1).
    pub fn toe(&self) -> Moment
        ensures { result ≡ gps_toe_moment self.now }
    {
        let week = self.toe_week.value() as u64;
        Moment::from_seconds(604_800 * week + 16 * self.a.toe.value() as u64)
    }
}

impl GalEph {
    /// The ephemeris of these fields; `None` if the satellite is not one of Galileo, the IODnavs of
    /// the four words differ, or `sent` is out of range.
    pub fn new(
        sat: Sat,
        w1: GalWord1,
        w2: GalWord2,
        w3: GalWord3,
        w4: GalWord4,
        health: GalHealth,
        toe_week: Week,
        sent: SentSecond,
    ) -> Option<Self>
        ensures exactly { IsSome result ↔ IsGalEph sat w1 w2 w3 w4 sent }
        ensures same { IfSome result (λ e. e ≡ record {
          sat = sat;
          w1 = w1;
          w2 = w2;
          w3 = w3;
          w4 = w4;
          health = health;
          toe_week = toe_week;
          sent = sent;
        }) }
    {
        if sat.system() != System::Gal {
            return None;
        }
        let issue = w1.iodnav.value();
        if w2.iodnav.value() != issue {
            return None;
        }
        if w3.iodnav.value() != issue {
            return None;
        }
        if w4.iodnav.value() != issue {
            return None;
        }
        if !is_sent_second(&sent) {
            return None;
        }
        Some(GalEph {
            sat,
            w1,
            w2,
            w3,
            w4,
            health,
            toe_week,
            sent,
        })
    }

    /// The ephemeris reference time toe as GPS time, in seconds from 1980-01-06 (Galileo OS SIS
    /// ICD, 5.1.1).
    pub fn toe(&self) -> Moment
        ensures { result ≡ galileo_toe_moment self.now }
    {
        let week = self.toe_week.value() as u64;
        Moment::from_seconds(604_800 * week + 60 * self.w1.toe.value() as u64)
    }
}

impl IonEph {
    /// The item of these fields; `None` if the satellite is not of the system of the parameters, or
    /// the transmission time is in week 0 or 16383.
    pub fn new(sat: Sat, moment: Moment, content: IonContent) -> Option<Self>
        ensures exactly { IsSome result ↔ IsIonEph sat moment content }
        ensures same { IfSome result (λ e. e ≡ record {
          sat = sat;
          moment = moment;
          content = content;
        }) }
    {
        if sat.system() != content.system() {
            return None;
        }
        if moment.week() < 1 {
            return None;
        }
        if moment.week() > 16_382 {
            return None;
        }
        Some(IonEph {
            sat,
            moment,
            content,
        })
    }
}

impl NavItem {
    // Whether it equals another in every field.
    fn equals(&self, other: &NavItem) -> bool
        ensures { IsTrue result ↔ (self.now ≡ other.now) }
    {
        match (self, other) {
            (NavItem::Gps(a), NavItem::Gps(b)) => same_gps(a, b),
            (NavItem::Gal(a), NavItem::Gal(b)) => same_gal(a, b),
            (NavItem::Ion(a), NavItem::Ion(b)) => same_ion(a, b),
            _ => false,
        }
    }

    /// Whether it equals another in every field.
    pub fn is_same(&self, other: &NavItem) -> bool
        ensures exactly { IsTrue result ↔ (self.now ≡ other.now) }
        ensures answer { result ≡ same_item self.now other.now }
    {
        self.equals(other)
    }

    // The item with transmission time `Unknown`.
    fn without_transmission(&self) -> NavItem
        ensures { result ≡ unsent self.now }
    {
        match self {
            NavItem::Gps(e) => NavItem::Gps(GpsEph {
                sent: SentSecond::Unknown,
                ..*e
            }),
            NavItem::Gal(e) => NavItem::Gal(GalEph {
                sent: SentSecond::Unknown,
                ..*e
            }),
            NavItem::Ion(e) => NavItem::Ion(*e),
        }
    }

    // Whether it equals another in every field but the transmission time.
    fn equals_unsent(&self, other: &NavItem) -> bool
        ensures { IsTrue result ↔ IsAlike self.now other.now }
    {
        self.without_transmission()
            .equals(&other.without_transmission())
    }

    /// Whether it equals another in every field but the transmission time of an ephemeris.
    pub fn is_alike(&self, other: &NavItem) -> bool
        ensures exactly { IsTrue result ↔ IsAlike self.now other.now }
        ensures answer { result ≡ is_alike self.now other.now }
    {
        self.equals_unsent(other)
    }
}
