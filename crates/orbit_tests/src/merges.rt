use crate::samples::{ephemeris, ionosphere};
use nav_bits::{S, U};
use nav_eph::{NavItem, SentSecond};
use nav_lists::{Merge, merging};
use std::test::Fail;

// An ephemeris of a toe, with a mean anomaly.
fn gps(toe: u64, m0: S<32>, sent: SentSecond) -> Result<NavItem, Fail> {
    Ok(ephemeris(toe, m0, U::from_bits(0), sent).ok_or("an ephemeris")?)
}

// Adds the items of a file.
fn add_file(merge: &mut Merge, file: &[NavItem]) -> Result<(), Fail> {
    for item in file {
        merge.add(item)?;
    }
    Ok(())
}

// The list holds these items in this order, and no more.
fn is_list(merge: &Merge, items: &[NavItem]) -> bool {
    let mut same = merge.len() == items.len();
    for (item, other) in merge.items().zip(items) {
        same = same && *item == *other;
    }
    same
}

// Three files in all six orders: of the three that are alike the one of second 50 stays, a negative
// mean anomaly comes before 0, and the ionosphere stands behind the ephemeris of its moment.
#[test]
fn three_files(rt: HostRuntime) -> Result<(), Fail> {
    let zero = S::from_bits(0);
    let below = S::from_bits(0xFFFF_FFFF);
    let late = gps(0, zero, SentSecond::At(100))?;
    let first = gps(0, zero, SentSecond::At(50))?;
    let unknown = gps(0, zero, SentSecond::Unknown)?;
    let negative = gps(0, below, SentSecond::Unknown)?;
    let next = gps(450, zero, SentSecond::At(7_200))?;
    let ion = ionosphere().ok_or("an ionosphere")?;
    let files: [[NavItem; 3]; 3] = [
        [next, late, ion],
        [first, ion, first],
        [unknown, negative, next],
    ];
    let orders: [[usize; 3]; 6] = [
        [0, 1, 2],
        [0, 2, 1],
        [1, 0, 2],
        [1, 2, 0],
        [2, 0, 1],
        [2, 1, 0],
    ];
    for order in &orders {
        let mut merge = Merge::new(rt.alloc());
        for file in order {
            add_file(&mut merge, files.get(*file).ok_or("a file")?)?;
        }
        assert!(rt; is_list(&merge, &[negative, first, ion, next]));
    }
    merging();
    Ok(())
}
