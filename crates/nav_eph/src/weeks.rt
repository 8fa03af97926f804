ghost use Rattle.std.specs.Prelude.{◌≡◌, ◌↔◌, IsTrue};
ghost use Rattle.nav_eph.specs.Functions.{near_galileo, near_gps};
ghost use Rattle.nav_eph.specs.Weeks.{IsGalileoWeek, IsGpsWeek, IsNearGalileo, IsNearGps};
ghost use Rattle.nav_eph.specs.Weeks.{IsNearestMoment, IsWeek, week_of};

use crate::moment::{Moment, SECONDS_OF_WEEK, Second};
use crate::numbers::{RefWeek, Week};
use nav_bits::U;

/// The rollover of the GPS week number, in weeks.
const GPS_ROLLOVER: u32 = 1024;

/// The rollover of the Galileo week number, in weeks.
const GALILEO_ROLLOVER: u32 = 4096;

/// The GPS week that is Galileo week 0.
const GALILEO_START: u32 = 1024;

/// The GPS week of the ten-bit week number `wn` near the reference week `r`: the one equal to it
/// modulo 1024 from `r` - 512 to `r` + 511 (IS-GPS-200, 20.3.3.3.1.1).
pub fn gps_week(r: RefWeek, wn: U<10>) -> Week
    ensures { IsGpsWeek r wn result }
{
    let low = r.value() - GPS_ROLLOVER / 2;
    let ahead = (wn.value() as u32 + GPS_ROLLOVER - low % GPS_ROLLOVER) % GPS_ROLLOVER;
    Week::from_number(low + ahead)
}

/// The GPS week of the twelve-bit Galileo week number `wn` near the reference week `r`: the one
/// equal to `wn` + 1024 modulo 4096 in the 4096 weeks from `r` - 2048, or from 1024 if that is
/// later (Galileo OS SIS ICD, 5.1.2).
pub fn gal_week(r: RefWeek, wn: U<12>) -> Week
    ensures { IsGalileoWeek r wn result }
{
    let low = r.value().max(GALILEO_START + GALILEO_ROLLOVER / 2) - GALILEO_ROLLOVER / 2;
    let counted = wn.value() as u32 + GALILEO_START + GALILEO_ROLLOVER;
    let ahead = (counted - low % GALILEO_ROLLOVER) % GALILEO_ROLLOVER;
    Week::from_number(low + ahead)
}

/// The GPS time with this time of week nearest to `near`, the later one of two equally near: a
/// message gives the time of week alone for a time within half a week of its own (IS-GPS-200,
/// 20.3.3.3.3.1 and 20.3.3.4.3).
pub fn nearest_moment(near: Moment, second: Second) -> Moment
    requires { IsWeek (week_of near) }
    ensures { IsNearestMoment near second result }
{
    let rollover = SECONDS_OF_WEEK as u64;
    let low = near.value() - (rollover / 2 - 1);
    let ahead = (second.value() as u64 + rollover - low % rollover) % rollover;
    Moment::from_seconds(low + ahead)
}

/// Whether a ten-bit week number can mean `week` near the reference week `r`: `week` is from `r` -
/// 512 to `r` + 511 (IS-GPS-200, 20.3.3.3.1.1).
pub fn is_near_gps(r: RefWeek, week: Week) -> bool
    ensures exactly { IsTrue result ↔ IsNearGps r week }
    ensures answer { result ≡ near_gps r week }
{
    let half = GPS_ROLLOVER / 2;
    week.value() + half >= r.value() && week.value() < r.value() + half
}

/// Whether a twelve-bit week number can mean `week` near the reference week `r`: `week` is one of
/// the 4096 weeks from `r` - 2048, or from 1024 if that is later (Galileo OS SIS ICD, 5.1.2).
pub fn is_near_galileo(r: RefWeek, week: Week) -> bool
    ensures exactly { IsTrue result ↔ IsNearGalileo r week }
    ensures answer { result ≡ near_galileo r week }
{
    let half = GALILEO_ROLLOVER / 2;
    let first = r.value().max(GALILEO_START + half) - half;
    week.value() >= first && week.value() - first < GALILEO_ROLLOVER
}
