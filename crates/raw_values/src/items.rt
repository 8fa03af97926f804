//! Items, from and to raw integers.

ghost use Rattle.std.specs.Prelude.{◌≡◌, ◌↔◌, IsSome, IfSome, Some};
ghost use Rattle.raw_values.specs.Items.{IsItemIn, item_in, raw_item};

use crate::gal::{gal_of, raw_gal};
use crate::gps::{gps_of, raw_gps};
use crate::ion::{ion_of_gal, ion_of_gps, put_ion};
use crate::item_raw::ItemRaw;
use nav_eph::NavItem;

// The kinds of items.
const GPS: u32 = 1;

const GALILEO: u32 = 2;

const GPS_IONOSPHERE: u32 = 3;

const GALILEO_IONOSPHERE: u32 = 4;

/// The item of these numbers; `None` if the kind is none of the four, a number is out of its range,
/// or they are inconsistent.
pub fn item_of(raw: &ItemRaw) -> Option<NavItem>
    ensures exactly { IsSome result ↔ IsItemIn (item_in raw.now) }
    ensures same { IfSome result (λ item. item_in raw.now ≡ Some item) }
{
    match raw.kind {
        GPS => Some(NavItem::Gps(gps_of(&raw.gps)?)),
        GALILEO => Some(NavItem::Gal(gal_of(&raw.gal)?)),
        GPS_IONOSPHERE => Some(NavItem::Ion(ion_of_gps(&raw.ion)?)),
        GALILEO_IONOSPHERE => Some(NavItem::Ion(ion_of_gal(&raw.ion)?)),
        _ => None,
    }
}

/// Puts the numbers of an item: its kind, and the struct of its kind. The others stay.
pub fn put_item(item: &NavItem, raw: &mut ItemRaw)
    ensures { raw.new ≡ raw_item item.now raw.old }
{
    match item {
        NavItem::Gps(value) => {
            raw.kind = GPS;
            raw.gps = raw_gps(value);
        }
        NavItem::Gal(value) => {
            raw.kind = GALILEO;
            raw.gal = raw_gal(value);
        }
        NavItem::Ion(value) => raw.kind = put_ion(value, &mut raw.ion),
    }
}
