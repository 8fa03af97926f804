//! Weeks of times.

ghost use Rattle.std.specs.Prelude.{◌≡◌};
ghost use Rattle.c_calls.specs.Weeks.{unix_week};

// 1980-01-06, in seconds from 1970-01-01.
const GPS_EPOCH: u64 = 315_964_800;

/// The week, counted from 1980-01-06, of a Unix time in seconds from 1970-01-01; leap seconds are
/// not counted. 0 if it is in no week from 1 to 16,382.
pub fn week_of_unix(seconds: u64) -> u32
    ensures { result ≡ unix_week seconds }
{
    let week = seconds.saturating_sub(GPS_EPOCH) / 604_800;
    if week <= 16_382 { week as u32 } else { 0 }
}
