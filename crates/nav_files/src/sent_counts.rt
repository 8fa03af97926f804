//! The counts of the records of a file that is transmitted.

ghost use Rattle.std.specs.Prelude.{◌≡◌, ◌+◌, ◌^◌, ◌<◌, []};
ghost use Rattle.nav_files.specs.Following.{AreCounted, counted};
ghost use Rattle.nav_files.specs.Sends.{counts_of_outcomes};

use crate::counts::RinexCounts;
use crate::outcome::SendOutcome;

// Nothing was counted.
pub(crate) fn no_counts() -> RinexCounts
    ensures { result ≡ counts_of_outcomes [] }
{
    RinexCounts {
        records: 0,
        refused: 0,
        passed: 0,
        items: 0,
        times: None,
    }
}

// Counts a record.
pub(crate) fn count_outcome(told: &SendOutcome, counts: &mut RinexCounts)
    requires room { counts.old.records + 1 < 2 ^ 64 }
    requires counted { AreCounted counts.old }
    ensures counts { counts.new ≡ counted counts.old told.now }
    ensures counted { AreCounted counts.new }
{
    match told {
        SendOutcome::Sent { .. } => counts.items += 1,
        SendOutcome::NotSent => counts.items += 1,
        SendOutcome::Withheld { .. } => counts.refused += 1,
        SendOutcome::Refused { .. } => counts.refused += 1,
        SendOutcome::PassedOver => counts.passed += 1,
    }
    counts.records += 1;
}
