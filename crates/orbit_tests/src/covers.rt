use crate::samples::{ephemeris, ionosphere};
use nav_bits::{S, U};
use nav_eph::{GalEph, GpsEph, IonContent, IonEph, NavItem, SentSecond};
use nav_lists::{Cover, covering, one_cover};
use std::alloc::{AllocError, Global};
use std::test::Fail;

// The first moment of a range, and the one behind its last.
struct Range {
    from: u64,
    to: u64,
}

// The toes of the ephemerides that are added, their fit interval flag, and the ranges that they
// cover.
struct CoverRow {
    name: &'static str,
    toes: [u64; 3],
    fit: u64,
    ranges: &'static [Range],
}

// One toe; two whose times touch; two with a gap of 16 s; a fit interval of six hours; a range that
// joins two others. Each with the ionosphere beside it, which covers nothing.
static COVERS: [CoverRow; 5] = [
    CoverRow {
        name: "one toe",
        toes: [0, 0, 0],
        fit: 0,
        ranges: &[Range {
            from: 1_388_008_800,
            to: 1_388_023_200,
        }],
    },
    CoverRow {
        name: "two toes whose times touch",
        toes: [0, 900, 0],
        fit: 0,
        ranges: &[Range {
            from: 1_388_008_800,
            to: 1_388_037_600,
        }],
    },
    CoverRow {
        name: "two toes with a gap of 16 s",
        toes: [901, 0, 0],
        fit: 0,
        ranges: &[
            Range {
                from: 1_388_008_800,
                to: 1_388_023_200,
            },
            Range {
                from: 1_388_023_216,
                to: 1_388_037_616,
            },
        ],
    },
    CoverRow {
        name: "a fit interval of six hours",
        toes: [0, 0, 0],
        fit: 1,
        ranges: &[Range {
            from: 1_388_005_200,
            to: 1_388_026_800,
        }],
    },
    CoverRow {
        name: "a range that joins two others",
        toes: [0, 1_350, 675],
        fit: 0,
        ranges: &[Range {
            from: 1_388_008_800,
            to: 1_388_044_800,
        }],
    },
];

// The ephemeris of a toe, with a fit interval flag.
fn item_of(toe: u64, fit: u64) -> Option<NavItem> {
    ephemeris(toe, S::from_bits(0), U::new(fit)?, SentSecond::Unknown)
}

// Adds the ionosphere and the items of a row; whether there are such.
fn add_items(cover: &mut Cover, row: &CoverRow) -> Result<bool, AllocError> {
    let _inside: Option<(GpsEph, GalEph, IonEph, IonContent)> = None;
    let Some(ion) = ionosphere() else {
        return Ok(false);
    };
    cover.add(&ion)?;
    for toe in row.toes {
        let Some(item) = item_of(toe, row.fit) else {
            return Ok(false);
        };
        cover.add(&item)?;
    }
    Ok(true)
}

// It gives these ranges of G05, and no more.
fn gives(cover: &mut Cover, ranges: &[Range]) -> bool {
    let mut same = true;
    for Range { from, to } in ranges {
        same = same
            && match cover.take_first() {
                Some(range) => (range.sat.number(), range.from, range.to) == (5, *from, *to),
                None => false,
            };
    }
    same && cover.take_first().is_none()
}

fn is_cover(alloc: Global, row: &CoverRow) -> Result<bool, AllocError> {
    let mut cover = Cover::new(alloc);
    let added = add_items(&mut cover, row)?;
    Ok(gives(&mut cover, row.ranges) && added)
}

#[test]
fn ranges_of_items(rt: HostRuntime) -> Result<(), Fail> {
    covering();
    one_cover();
    for row in &COVERS {
        assert!(rt; is_cover(rt.alloc(), row)?, "{}", row.name);
    }
    Ok(())
}
