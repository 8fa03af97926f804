ghost use Rattle.std.specs.Prelude.{◌≡◌, ◌≤◌, ◌<◌, ◌+◌, ◌^◌, ◌*◌, ◌/◌, ℕ, pos, Ok, Some, None};
ghost use Rattle.std.specs.Prelude.{◌+ℤ◌};
ghost use Rattle.jiff_core.specs.Calendar.{days_from_civil};
ghost use Rattle.nav_eph.specs.Dates.{first_day};
ghost use Rattle.nav_tables.specs.Days.{IsNearestDay, day_of_number, distance, nearest_to, start};
ghost use Rattle.nav_tables.specs.declared.times.FrameTime.{FrameTime};
ghost use Rattle.nav_tables.specs.declared.times.Times.{Times};
ghost use Rattle.nav_tables.specs.Times.{IsTimeOf, frame_in, times_to};
ghost use Rattle.nav_tables.specs.declared.week.WeekRule.{WeekRule};
ghost use Rattle.nav_tables.specs.Weeks.{IsWeekNear, first_week, number_of_week, week_to};

/// A week number means exactly one week near a reference week.
pub fn one_week()
    ensures meant { (rule : WeekRule) (r n : ℕ) → IsWeekNear rule r n (week_to rule r n) }
    ensures only { (rule : WeekRule) (r n v w : ℕ) →
        IsWeekNear rule r n v → IsWeekNear rule r n w → v ≡ w }
{}

/// The number of a week near a reference week means it, and the week of a number has it.
pub fn weeks_come_back()
    ensures week { (rule : WeekRule) (r w : ℕ) → first_week rule r ≤ w →
        w < first_week rule r + 2 ^ rule.bits → week_to rule r (number_of_week rule w) ≡ w }
    ensures number { (rule : WeekRule) (r n : ℕ) → n < 2 ^ rule.bits →
        number_of_week rule (week_to rule r n) ≡ n }
{}

/// The four years of a period begin on 1 January of 1992 + 4 periods.
pub fn days_are_dates()
    ensures { (n : ℕ) → 1 ≤ n → n ≤ 36 →
        first_day +ℤ pos (start n) ≡ days_from_civil (pos (1992 + 4 * n)) 1 1 }
{}

/// `nearest_to` gives the nearest day of a number, the earlier of two, if there is one.
pub fn nearest_days()
    ensures some { (c nt k d : ℕ) → nearest_to c nt k ≡ Some d → IsNearestDay c nt k d }
    ensures none { (c nt k j d : ℕ) → nearest_to c nt k ≡ None → 1 ≤ j → j ≤ k →
        day_of_number j nt ≡ Some d → ⊥ }
{}

/// The numbers that `frame_in` gives are those of a frame without additional data at these times.
pub fn frames_are_of_times()
    ensures { (times : Times) (t : FrameTime) → frame_in times ≡ Ok t →
        IsTimeOf t times × (t.additional ≡ 0) }
{}

/// The times of a frame that was written are read back equal: with its day's numbers always, and
/// else near a reference week at most 729 days from its day.
pub fn times_come_back()
    ensures told { (t : FrameTime) (times : Times) (r : ℕ) → IsTimeOf t times → t.additional ≡ 1 →
        times_to t r ≡ Some times }
    ensures near { (t : FrameTime) (times : Times) (r : ℕ) → IsTimeOf t times → t.additional ≡ 0 →
        distance (7 * r + 3) ((times.frame + 10800) / 86400) ≤ 729 → times_to t r ≡ Some times }
{}
