ghost use Rattle.std.specs.Prelude.{◌≡◌, ℕ, ◌+◌, ◌%◌, ◌<◌};
ghost use Rattle.std.specs.Prelude.{◌≤◌, ◌↔◌, Result, Ok, true};
ghost use Rattle.nav_eph.specs.Weeks.{IsGalileoWeek, IsGpsWeek, IsNearGalileo, IsNearGps};
ghost use Rattle.nav_eph.specs.Weeks.{IsMoment, IsNearestMoment, IsReference, IsSecond};
ghost use Rattle.nav_eph.specs.Dates.{GivesMoment, IsCivilOf};
ghost use Rattle.nav_eph.specs.Functions.{galileo_week_to, gps_week_to, near_galileo, near_gps};
ghost use Rattle.nav_eph.specs.Functions.{IsShort, civil_to, moment_near, moment_to};
ghost use Rattle.nav_eph.specs.declared.calendar.Civil.{Civil};
ghost use Rattle.nav_eph.specs.declared.calendar.WeekFault.{WeekFault};

/// A ten-bit week number means exactly one week near a reference week.
pub fn one_gps_week()
    ensures { (r n v w : ℕ) → IsGpsWeek r n v → IsGpsWeek r n w → v ≡ w }
{}

/// A twelve-bit week number means exactly one week near a reference week.
pub fn one_galileo_week()
    ensures { (r n v w : ℕ) → IsGalileoWeek r n v → IsGalileoWeek r n w → v ≡ w }
{}

/// Only one GPS time with a given time of week is nearest.
pub fn one_nearest_moment()
    ensures { (t second m n : ℕ) → IsNearestMoment t second m → IsNearestMoment t second n → m ≡ n }
{}

/// A date is the date of one GPS time.
pub fn one_moment()
    ensures { (c : Civil) (m n : ℕ) → IsCivilOf c m → IsCivilOf c n → m ≡ n }
{}

/// A GPS time has one date.
pub fn one_date()
    ensures { (b c : Civil) (m : ℕ) → IsCivilOf b m → IsCivilOf c m → b ≡ c }
{}

/// Converting a GPS time to its date and back gives the same time.
pub fn moment_again()
    ensures { (c : Civil) (m : ℕ) (a : Result ℕ WeekFault) →
        IsCivilOf c m → IsMoment m → GivesMoment c a → a ≡ Ok m }
{}

/// Converting a date to GPS time and back gives the same date.
pub fn date_again()
    ensures { (b c : Civil) (m : ℕ) → GivesMoment b (Ok m) → IsCivilOf c m → c ≡ b }
{}

/// Converting a date to GPS time has one result.
pub fn one_answer()
    ensures { (c : Civil) (a b : Result ℕ WeekFault) → GivesMoment c a → GivesMoment c b → a ≡ b }
{}

/// `gps_week_to` gives the week of a ten-bit week number.
pub fn gps_week_function()
    ensures meant { (r n : ℕ) → IsReference r → n < 1024 → IsGpsWeek r n (gps_week_to r n) }
    ensures only { (r n w : ℕ) → IsGpsWeek r n w → w ≡ gps_week_to r n }
{}

/// `galileo_week_to` gives the week of a twelve-bit week number.
pub fn galileo_week_function()
    ensures meant { (r n : ℕ) → IsReference r → n < 4096 → IsGalileoWeek r n (galileo_week_to r n) }
    ensures only { (r n w : ℕ) → IsGalileoWeek r n w → w ≡ galileo_week_to r n }
{}

/// `near_gps` and `near_galileo` decide which weeks are near a reference week; each such week is
/// the one that its truncated number means.
pub fn near_weeks()
    ensures gps { (r w : ℕ) → (near_gps r w ≡ true) ↔ IsNearGps r w }
    ensures galileo { (r w : ℕ) → (near_galileo r w ≡ true) ↔ IsNearGalileo r w }
    ensures gps_number { (r w : ℕ) → IsNearGps r w → gps_week_to r (w % 1024) ≡ w }
    ensures galileo_number { (r w : ℕ) → IsNearGalileo r w →
        galileo_week_to r ((w + 3072) % 4096) ≡ w }
{}

/// `moment_near` gives the nearest GPS time with a given time of week.
pub fn nearest_moment_function()
    ensures nearest { (t second : ℕ) → 604800 ≤ t → IsSecond second →
        IsNearestMoment t second (moment_near t second) }
    ensures only { (t second m : ℕ) → IsNearestMoment t second m → m ≡ moment_near t second }
{}

/// `civil_to` gives the date of a GPS time.
pub fn date_function()
    ensures date { (m : ℕ) → IsMoment m → IsCivilOf (civil_to m) m }
    ensures only { (c : Civil) (m : ℕ) → IsCivilOf c m → IsMoment m → c ≡ civil_to m }
{}

/// `moment_to` gives the GPS time of a date, or the error.
pub fn moment_function()
    ensures answer { (c : Civil) → GivesMoment c (moment_to c) }
    ensures only { (c : Civil) (a : Result ℕ WeekFault) → GivesMoment c a → a ≡ moment_to c }
    ensures again { (c : Civil) (m : ℕ) → IsCivilOf c m → IsMoment m → moment_to c ≡ Ok m }
{}

/// The year of a date has at most four digits, each other number at most two.
pub fn short_dates()
    ensures { (c : Civil) (m : ℕ) → IsCivilOf c m → IsShort c }
{}
