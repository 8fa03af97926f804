//! Runs of an assembly, each period with the watermark at which it was given.

ghost use Rattle.std.specs.Prelude.{◌≤◌, OnOk};
ghost use Rattle.slot_assembly.specs.Standing.{Stood};

use crate::parts::{A, B, C, Received, parts_of};
use nav_eph::Part;
use periods::{Closed, Verdict};
use slot_assembly::Assembly;
use std::alloc::{AllocError, Global};

// A window of two hours, and the week of 2023-12-31.
pub(crate) const WINDOW: u32 = 7_200;

pub(crate) const WEEK: u32 = 2_295;

// A letter for a verdict.
pub(crate) fn letter(verdict: &Verdict) -> char {
    match verdict {
        Verdict::Whole(_) => 'w',
        Verdict::Partial => 'p',
        Verdict::Contradicted => 'c',
        Verdict::NoHealth => 'n',
        Verdict::Again => 'a',
    }
}

// Adds what is closed at a watermark.
fn ask<T: Assembly>(
    assembly: &mut T,
    watermark: u64,
    periods: &mut Vec<(u64, Closed)>,
) -> Result<(), AllocError>
    requires { Stood (T.stands_for assembly.old) (λ at. at.watermark ≤ watermark) }
    ensures { OnOk result (Stood (T.stands_for assembly.new) (λ at. at.watermark ≤ watermark)) }
{
    'asking: while let Some(closed) = assembly.next_closed(watermark)? {
        periods.push((watermark, closed))?;
    }
    Ok(())
}

// The periods of parts that are taken in order, each asked for as soon as it is closed, and at each
// of these watermarks in the end; a part that comes too late is left out.
pub(crate) fn run<T: Assembly>(
    assembly: &mut T,
    parts: &[Part],
    watermarks: &[u64],
    periods: &mut Vec<(u64, Closed)>,
) -> Result<(), AllocError>
    requires { Stood (T.stands_for assembly.old) (λ at. at.watermark ≤ 0) }
{
    let mut watermark: u64 = 0;
    'parts: for part in parts {
        if watermark <= part.stamp as u64 {
            watermark = part.stamp as u64;
            ask(assembly, watermark, periods)?;
            assembly.take(part)?;
        }
    }
    'watermarks: for next in watermarks {
        watermark = watermark.max(*next);
        ask(assembly, watermark, periods)?;
    }
    Ok(())
}

// It gives the period of three parts at the first watermark that lies far enough behind it, and not
// again.
pub(crate) fn gives_a_period_once<T: Assembly>(
    alloc: Global,
    assembly: &mut T,
) -> Result<bool, AllocError>
    requires { Stood (T.stands_for assembly.old) (λ at. at.watermark ≤ 0) }
{
    let heard = [
        Received { stamp: 0, kind: A },
        Received { stamp: 6, kind: B },
        Received { stamp: 12, kind: C },
    ];
    let parts = parts_of(alloc, &heard)?;
    let mut given = Vec::new(alloc);
    let watermarks = [7_212, 7_213, 7_213, u64::MAX];
    run(assembly, parts.as_slice(), &watermarks, &mut given)?;
    Ok(match given.as_slice() {
        [(watermark, closed)] => {
            *watermark == 7_213 && closed.end == 12 && letter(&closed.verdict) == 'w'
        }
        _ => false,
    })
}
