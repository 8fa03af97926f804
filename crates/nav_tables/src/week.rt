ghost use Rattle.std.specs.Prelude.{◌≡◌, ◌<◌, ◌≤◌, ◌+◌, ◌^◌, IsTrue};
ghost use Rattle.nav_eph.specs.Functions.{first_from};
ghost use Rattle.nav_tables.specs.Weeks.{IsWeekNear, first_week, is_week_rule, number_of_week};
ghost use Rattle.nav_tables.specs.Weeks.{week_to};

use nav_eph::{RefWeek, Week};

/// How a message counts weeks.
#[derive(Clone, Copy, PartialEq, Eq)]
pub struct WeekRule {
    /// The width of its week number in bits.
    pub bits: u32,
    /// The week counted from 1980-01-06 that is its week 0.
    pub zero: u32,
}

// The weeks for which a number of so many bits can stand.
fn rollover(rule: &WeekRule) -> u32
    requires { IsTrue (is_week_rule rule.now) }
    ensures same { result ≡ 2 ^ rule.now.bits }
    ensures some { 2 ≤ result }
    ensures most { result ≤ 8192 }
{
    1 << rule.bits
}

// The first week for which a number can stand near a reference week.
fn first_week(rule: &WeekRule, reference: RefWeek, rollover: u32) -> u32
    requires rule { IsTrue (is_week_rule rule.now) }
    requires rollover { rollover ≡ 2 ^ rule.now.bits }
    ensures same { result ≡ first_week rule.now reference }
    ensures some { 1 ≤ result }
    ensures most { result ≤ 8190 }
{
    rule.zero
        .max(reference.value().saturating_sub(rollover / 2))
}

// The first number from `low` on that equals `number` modulo `rollover`.
fn first_from(rollover: u32, low: u32, number: u32) -> u32
    requires some { 2 ≤ rollover }
    requires few { rollover ≤ 8192 }
    requires low { low ≤ 8190 }
    requires number { number ≤ 16000 }
    ensures same { result ≡ first_from rollover low number }
    ensures from { low ≤ result }
    ensures to { result < low + rollover }
{
    low + (number + rollover - low % rollover) % rollover
}

/// The week of a week number near a reference week: the one equal to it, counted from `zero`,
/// modulo 2^`bits` in the 2^`bits` weeks from half of them before the reference week, or from
/// `zero` if that is later.
pub fn week_near(rule: &WeekRule, reference: RefWeek, number: u32) -> Week
    requires rule { IsTrue (is_week_rule rule.now) }
    requires number { number < 2 ^ rule.now.bits }
    ensures week { IsWeekNear rule.now reference number result }
    ensures value { result ≡ week_to rule.now reference number }
{
    let rollover = rollover(rule);
    let low = first_week(rule, reference, rollover);
    Week::from_number(first_from(rollover, low, number + rule.zero))
}

/// The week number of a week.
pub fn number_of_week(rule: &WeekRule, week: Week) -> u32
    requires { IsTrue (is_week_rule rule.now) }
    ensures { result ≡ number_of_week rule.now week }
{
    let rollover = rollover(rule);
    (week.value() + rollover - rule.zero % rollover) % rollover
}
