//! The periods of a list of parts by any assembly.

ghost use Rattle.std.specs.Prelude.{◌≡◌, ◌<◌, ◌≤◌, ◌^◌, List, [], OnOk};
ghost use Rattle.nav_eph.specs.declared.part.Part.{Part};
ghost use Rattle.periods.specs.PeriodsOf.{closed_of, periods_of};
ghost use Rattle.slot_assembly.specs.Standing.{Stood, nothing_yet};
ghost use Rattle.slot_assembly.specs.Given.{flushed};

use crate::assembly::Assembly;
use nav_eph::Part;
use periods::Closed;
use std::alloc::AllocError;

// Adds to an empty list all periods closed at the greatest watermark.
fn give_all<A: Assembly>(assembly: &mut A, given: &mut Vec<Closed>) -> Result<(), AllocError>
    requires stood { Stood (A.stands_for assembly.old) (λ at. at.watermark ≤ 0) }
    requires given { given.old.items ≡ [] }
    ensures { OnOk result ((parts : List Part)
        → A.stands_for assembly.old
        (flushed (A.reference assembly.old) (A.window assembly.old) parts 0)
        → given.new.items
        ≡ closed_of (A.reference assembly.old) (A.window assembly.old)
        18446744073709551615 parts) }
{
    'giving: while let Some(closed) = assembly.next_closed(u64::MAX)? {
        given.push(closed)?;
    }
    Ok(())
}

/// Adds to an empty list the periods of the parts, in order, with their verdicts, by an assembly
/// without parts. `AllocError` where memory runs out.
pub fn add_periods<A: Assembly>(
    assembly: &mut A,
    parts: &[Part],
    periods: &mut Vec<Closed>,
) -> Result<(), AllocError>
    requires assembly { A.stands_for assembly.old nothing_yet }
    requires window { A.window assembly.old < 2 ^ 32 }
    requires periods { periods.old.items ≡ [] }
    ensures { OnOk result
        (periods.new.items
        ≡ periods_of (A.reference assembly.old) (A.window assembly.old) parts.now) }
{
    'taking: for part in parts {
        assembly.take(part)?;
    }
    give_all(assembly, periods)?;
    Ok(())
}
