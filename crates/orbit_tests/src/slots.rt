use crate::parts::{A, B, C, Kind, Received, parts_of};
use crate::runs::{WEEK, WINDOW, gives_a_period_once, run};
use nav_eph::{Part, RefWeek};
use nav_laws::PlainAssembly;
use periods::Closed;
use slot_assembly::SlotAssembly;
use std::alloc::{AllocError, Global};
use std::test::Fail;

// The next number of a generator: x * 48271 modulo 2^31 - 1.
fn step(seed: u64) -> u64 {
    (seed % 2_147_483_647) * 48_271 % 2_147_483_647
}

// A kind of part.
fn some_kind(number: u64, stamp: u32) -> Kind {
    match number % 12 {
        0 => A,
        1 => B,
        2 => C,
        3 => Kind::OrbitA { m0: 1 },
        4 => Kind::OrbitB { iode: 9 },
        5 => Kind::Word { number: 1 },
        6 => Kind::Word { number: 2 },
        7 => Kind::Word { number: 3 },
        8 => Kind::Word { number: 4 },
        9 => Kind::Health {
            hs_e1b: stamp as u64 % 3,
        },
        10 => Kind::Ion { satellite: 5 },
        _ => Kind::GalIon,
    }
}

// A small list of parts, some of them more than a window apart.
fn some_parts(alloc: Global, first: u64) -> Result<Vec<Part>, AllocError> {
    let mut heard = [Received { stamp: 0, kind: A }; 24];
    let mut seed = first;
    let mut stamp: u32 = 0;
    for place in &mut heard {
        seed = step(seed);
        stamp = stamp.wrapping_add((seed % 3_000) as u32);
        seed = step(seed);
        *place = Received {
            stamp,
            kind: some_kind(seed, stamp),
        };
    }
    parts_of(alloc, &heard)
}

// The periods that the assembly of parts gives.
fn plain_periods(
    alloc: Global,
    reference: RefWeek,
    parts: &[Part],
) -> Result<Vec<(u64, Closed)>, AllocError> {
    let mut assembly = PlainAssembly::new(alloc, reference, WINDOW);
    let mut periods = Vec::new(alloc);
    run(&mut assembly, parts, &[u64::MAX], &mut periods)?;
    Ok(periods)
}

// The periods that the assembly in slots gives.
fn slot_periods(
    alloc: Global,
    reference: RefWeek,
    parts: &[Part],
) -> Result<Vec<(u64, Closed)>, AllocError> {
    let mut assembly = SlotAssembly::new(alloc, reference, WINDOW);
    let mut periods = Vec::new(alloc);
    run(&mut assembly, parts, &[u64::MAX], &mut periods)?;
    Ok(periods)
}

// How many periods a list of 24 parts has; `None` where it has fewer parts, or the assemblies do
// not give the same periods at the same watermarks.
fn count(alloc: Global, reference: RefWeek, seed: u64) -> Result<Option<usize>, AllocError> {
    let parts = some_parts(alloc, seed)?;
    let wanted = plain_periods(alloc, reference, parts.as_slice())?;
    let given = slot_periods(alloc, reference, parts.as_slice())?;
    Ok((parts.len() == 24 && given == wanted).then_some(given.len()))
}

#[test]
fn both_assemblies(rt: HostRuntime) -> Result<(), Fail> {
    let reference = RefWeek::new(WEEK).ok_or("a week")?;
    let mut seed: u64 = 2_295;
    let mut all: usize = 0;
    let mut same = true;
    for _ in 0..200 {
        seed = step(seed);
        match count(rt.alloc(), reference, seed)? {
            Some(periods) => all = all.wrapping_add(periods),
            None => same = false,
        }
    }
    let mut assembly = SlotAssembly::new(rt.alloc(), reference, WINDOW);
    assert!(rt; same && all > 1_000 && gives_a_period_once(rt.alloc(), &mut assembly)?);
    Ok(())
}
