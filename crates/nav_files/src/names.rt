//! The names of the numbers of items.

ghost use Rattle.std.specs.Prelude.{◌≡◌, map};
ghost use Rattle.nav_files.specs.Numbers.{content_names, names_of};

use nav_eph::{IonContent, NavItem};

static GPS: [&str; 37] = [
    "",
    "",
    "",
    "",
    "",
    "iodc",
    "toc",
    "af2",
    "af1",
    "af0",
    "tgd",
    "l2_code",
    "ura",
    "health",
    "l2p",
    "iode",
    "crs",
    "delta_n",
    "m0",
    "cuc",
    "e",
    "cus",
    "root_a",
    "toe",
    "fit",
    "toe_week",
    "",
    "cic",
    "omega0",
    "cis",
    "i0",
    "crc",
    "omega",
    "omega_dot",
    "idot",
    "sent_known",
    "sent",
];

static GALILEO: [&str; 39] = [
    "",
    "",
    "",
    "",
    "",
    "iodnav",
    "toe",
    "m0",
    "e",
    "root_a",
    "",
    "omega0",
    "i0",
    "omega",
    "idot",
    "",
    "omega_dot",
    "delta_n",
    "cuc",
    "cus",
    "crc",
    "crs",
    "sisa",
    "",
    "cic",
    "cis",
    "toc",
    "af0",
    "af1",
    "af2",
    "toe_week",
    "bgd_a",
    "bgd_b",
    "hs_e5b",
    "hs_e1b",
    "dvs_e5b",
    "dvs_e1b",
    "sent_known",
    "sent",
];

static GPS_IONOSPHERE: [&str; 17] = [
    "",
    "",
    "",
    "",
    "",
    "",
    "",
    "alpha0",
    "alpha1",
    "alpha2",
    "alpha3",
    "beta0",
    "beta1",
    "beta2",
    "beta3",
    "sent_known",
    "sent",
];

static GALILEO_IONOSPHERE: [&str; 13] = [
    "",
    "",
    "",
    "",
    "",
    "",
    "",
    "ai0",
    "ai1",
    "ai2",
    "regions",
    "sent_known",
    "sent",
];

/// The name of each number of an item; empty if the number is part of its key, or given again.
pub(crate) fn names(item: &NavItem) -> &'static [&'static str]
    ensures { map (λ n. n.now) result.now ≡ names_of item.now }
{
    match item {
        NavItem::Gps(_) => &GPS,
        NavItem::Gal(_) => &GALILEO,
        NavItem::Ion(e) => match &e.content {
            IonContent::Gps(_) => &GPS_IONOSPHERE,
            IonContent::Gal(_) => &GALILEO_IONOSPHERE,
        },
    }
}
