//! What the report has of a log while it is read: the messages that are rejected, as `navlog` has
//! them.

use crate::tally::Reported;
use nav_io::Failed;
use receiver_log::{LogReason, Refused, refusal};

/// Who writes the messages of a log that are rejected to the report.
#[derive(Drop)]
pub(crate) struct Notes<'a> {
    to: Reported<'a>,
}

impl<'a> Notes<'a> {
    /// To the report that goes there.
    pub(crate) fn new(to: Reported<'a>) -> Notes<'a> {
        Notes { to }
    }
}

impl Refused for Notes<'_> {
    ghost use Rattle.std.specs.Prelude.{None};

    ghost reported = { λ _. None };

    ghost faults = { λ _. 0 };

    // Where a line cannot be written, the report of the job or the counts will fail.
    fn refused(&mut self, number: u64, reason: LogReason) -> Result<(), Failed> {
        let _ = self.to.is_put(refusal(number, reason).as_slice());
        Ok(())
    }
}
