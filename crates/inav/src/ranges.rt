ghost use Rattle.nav_eph.specs.Bodies.{IsGalHealth, IsGalIon};
ghost use Rattle.nav_eph.specs.Ranges.{IsGalWord1, IsGalWord2, IsGalWord3, IsGalWord4};

use nav_eph::{GalHealth, GalIon, GalWord1, GalWord2, GalWord3, GalWord4};

// States that each field of word type 1 is within its width in bits.
pub(crate) fn word1_ranges(w: GalWord1)
    ensures { IsGalWord1 w }
{}

// States that each field of word type 2 is within its width in bits.
pub(crate) fn word2_ranges(w: GalWord2)
    ensures { IsGalWord2 w }
{}

// States that each field of word type 3 is within its width in bits.
pub(crate) fn word3_ranges(w: GalWord3)
    ensures { IsGalWord3 w }
{}

// States that each field of word type 4 is within its width in bits.
pub(crate) fn word4_ranges(w: GalWord4)
    ensures { IsGalWord4 w }
{}

// States that each field of BGD and health is within its width in bits.
pub(crate) fn health_ranges(h: GalHealth)
    ensures { IsGalHealth h }
{}

// States that each field of an ionosphere is within its width in bits.
pub(crate) fn ion_ranges(i: GalIon)
    ensures { IsGalIon i }
{}
