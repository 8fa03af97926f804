ghost use Rattle.std.specs.Prelude.{◌≡◌, ◌≤◌, ◌<◌, ◌+◌, ◌-◌, MatchOption, Some, None, ℕ};
ghost use Rattle.nav_tables.specs.Days.{IsNearestDay, day_of_number, days_of, distance, nearer};
ghost use Rattle.nav_tables.specs.Days.{nearest_to, period_of, start};

// 1 January of the year 1992 + 4 `period`, in days since 1980-01-06.
pub(crate) fn start(period: u32) -> u32
    requires { period ≤ 36 }
    ensures { result ≡ start period }
{
    let days = 4_378 + 1_461 * period;
    if period < 28 { days } else { days - 1 }
}

// The days of the four years from then on.
fn days_of(period: u32) -> u32
    ensures { result ≡ days_of period }
{
    if period == 27 { 1_460 } else { 1_461 }
}

/// Day number `number` of the four years `period`, in days since 1980-01-06, if there is one.
pub fn day_of_number(period: u32, number: u32) -> Option<u32>
    requires { period ≤ 36 }
    ensures { result ≡ day_of_number period number }
{
    if number >= 1 && number <= days_of(period) {
        Some(start(period) + number - 1)
    } else {
        None
    }
}

// The nearer of two days, the first of two equally near.
fn nearer(center: u32, day: Option<u32>, other: Option<u32>) -> Option<u32>
    ensures { result ≡ nearer center day other }
{
    match (day, other) {
        (Some(day), Some(other)) => {
            if center.abs_diff(other) < center.abs_diff(day) {
                Some(other)
            } else {
                Some(day)
            }
        }
        (Some(day), None) => Some(day),
        (None, other) => other,
    }
}

/// The day of this number in its four years that is nearest to a day, the earlier of two; from
/// 1996 to 2139.
pub fn nearest_day(center: u32, number: u32) -> Option<u32>
    ensures { result ≡ nearest_to center number 36 }
{
    // It is in the center's period, the one before or the next.
    let (period, _) = number_of_day(center.max(7_300).min(56_972));
    let days = nearer(
        center,
        day_of_number(period - 1, number),
        day_of_number(period, number),
    );
    nearer(center, days, day_of_number(period + 1, number))
}

/// The four years of a day from 1996 on, and its number in them.
pub fn number_of_day(day: u32) -> (u32, u32)
    requires from { 5839 ≤ day }
    requires to { day < 56973 }
    ensures period { result.0 ≡ period_of day }
    ensures number { result.1 ≡ day - start (period_of day) + 1 }
    ensures few { result.0 ≤ 35 }
    ensures again { day_of_number result.0 result.1 ≡ Some day }
{
    let shifted = if day < 45_285 { day } else { day + 1 };
    let period = (shifted - 4_378) / 1_461;
    (period, day - start(period) + 1)
}
