//! What is reported of a file, and the exit status for it.

ghost use Rattle.std.specs.Prelude.{◌≡◌, ◌≤◌, ℕ, IfErr, OnOk};
ghost use Rattle.nav_io.specs.Causes.{HasCause};
ghost use Rattle.file_conversion.specs.Says.{EndsReport, refusal_of, status_for, status_of};
ghost use Rattle.file_conversion.specs.declared.says.Refusal.{Refusal};

use crate::ends::Outcome;
use crate::refusals::refusal_of;
use crate::says::Refusal;
use nav_io::{Failed, Sink};

/// Who reports what became of a file, and ends its report.
pub trait Reporter<U: Sink> {
    // How often a report could not be ended: a count that never falls, and saturates at 2^64 - 1.
    ghost faults: { Self → ℕ };

    // What was told last of a file that is not converted.
    ghost told: { Self → Refusal → Type 0 };

    /// Reports why a file is not converted.
    fn refused(&mut self, refusal: &Refusal)
        ensures says { told self.new refusal.now }
        ensures later { faults self.old ≤ faults self.new };

    /// Ends the report of a file that was converted, and reports what was made of it.
    ///
    /// # Errors
    ///
    /// The report could not be written, which counts one error.
    fn done(&mut self, outcome: &Outcome<U>) -> Result<(), Failed>
        ensures { HasCause (faults self.old) (faults self.new) result };
}

// Says why a file is not converted; the exit status.
fn refuse<U: Sink, T: Reporter<U>>(teller: &mut T, refusal: &Refusal) -> u8
    ensures status { result ≡ status_of refusal.now }
    ensures says { T.told teller.new refusal.now }
    ensures later { T.faults teller.old ≤ T.faults teller.new }
{
    teller.refused(refusal);
    refusal.status()
}

/// Reports what became of a file whose conversion has ended so; the exit status. The names are
/// those of the output and of its part.
pub fn finish<U: Sink, T: Reporter<U>>(
    outcome: &Outcome<U>,
    name: &str,
    part: &str,
    teller: &mut T,
) -> u8
    ensures refused { IfErr outcome.now.done (λ stop. result ≡ status_for stop) }
    ensures told { IfErr outcome.now.done (λ stop.
        T.told teller.new (refusal_of stop name.entry part.entry)) }

    // 0 where the report was ended, and 7 where it could not be.
    ensures done { OnOk outcome.now.done
        (EndsReport (T.faults teller.old) (T.faults teller.new) result) }
{
    match &outcome.done {
        Ok(_) => match teller.done(outcome) {
            Ok(()) => 0,
            Err(Failed) => refuse::<U, T>(teller, &Refusal::ReportFault),
        },
        Err(stop) => refuse::<U, T>(teller, &refusal_of(*stop, name, part)),
    }
}
