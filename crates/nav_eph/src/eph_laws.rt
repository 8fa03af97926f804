ghost use Rattle.std.specs.Prelude.{◌≡◌, ℕ, ◌↔◌, true};
ghost use Rattle.nav_eph.specs.Weeks.{IsSecond};
ghost use Rattle.nav_eph.specs.Bodies.{IsGalHealth, IsGalIon, IsGpsIon, IsGpsSide, IsSentTag};
ghost use Rattle.nav_eph.specs.Conditions.{same_part};
ghost use Rattle.nav_eph.specs.Items.{IsAlike, is_alike, same_item};
ghost use Rattle.nav_eph.specs.Ranks.{rank};
ghost use Rattle.nav_eph.specs.Numbers.{gal_ion_number, gal_transmission};
ghost use Rattle.nav_eph.specs.Numbers.{gps_ion_number, gps_transmission};
ghost use Rattle.nav_eph.specs.Numbers.{health_number, side_number, tag_number};
ghost use Rattle.nav_eph.specs.declared.items.NavItem.{NavItem};
ghost use Rattle.nav_eph.specs.declared.part.Part.{Part};
ghost use Rattle.nav_eph.specs.declared.gps.GpsSide.{GpsSide};
ghost use Rattle.nav_eph.specs.declared.galileo.GalHealth.{GalHealth};
ghost use Rattle.nav_eph.specs.declared.ion.GpsIon.{GpsIon};
ghost use Rattle.nav_eph.specs.declared.ion.GalIon.{GalIon};
ghost use Rattle.nav_eph.specs.declared.tag.SentTag.{SentTag};

/// Two different SV statuses have different numbers.
pub fn one_side()
    ensures { (a b : GpsSide) → IsGpsSide a → IsGpsSide b → side_number a ≡ side_number b → a ≡ b }
{}

/// Two different transmission time tags have different numbers.
pub fn one_tag()
    ensures { (a b : SentTag) → IsSentTag a → IsSentTag b → tag_number a ≡ tag_number b → a ≡ b }
{}

/// Two different pairs of Galileo health and tag have different numbers.
pub fn one_health_and_tag()
    ensures { (a b : GalHealth) (s t : SentTag) →
        IsGalHealth a → IsGalHealth b → IsSentTag s → IsSentTag t →
        health_number a s ≡ health_number b t → (a ≡ b) × (s ≡ t) }
{}

/// Two different sets of GPS ionospheric parameters have different numbers.
pub fn one_gps_ionosphere()
    ensures { (a b : GpsIon) → IsGpsIon a → IsGpsIon b →
        gps_ion_number a ≡ gps_ion_number b → a ≡ b }
{}

/// Two different sets of Galileo ionospheric parameters have different numbers.
pub fn one_galileo_ionosphere()
    ensures { (a b : GalIon) → IsGalIon a → IsGalIon b →
        gal_ion_number a ≡ gal_ion_number b → a ≡ b }
{}

/// Two different transmission times of GPS ionospheric parameters have different numbers.
pub fn one_gps_transmission()
    ensures { (s t : ℕ) → gps_transmission s ≡ gps_transmission t → s ≡ t }
{}

/// Two different transmission times of Galileo ionospheric parameters have different numbers.
pub fn one_galileo_transmission()
    ensures { (v w s t : ℕ) → IsSecond s → IsSecond t →
        gal_transmission v s ≡ gal_transmission w t → (v ≡ w) × (s ≡ t) }
{}

/// `same_item` decides equality of items, and `same_part` equality of parts.
pub fn equality_is_decided()
    ensures items { (a b : NavItem) → (same_item a b ≡ true) ↔ (a ≡ b) }
    ensures parts { (a b : Part) → (same_part a b ≡ true) ↔ (a ≡ b) }
{}

/// `is_alike` decides equality of items but for the transmission time of an ephemeris; so does
/// equality of `rank`.
pub fn alike_is_decided()
    ensures alike { (a b : NavItem) → (is_alike a b ≡ true) ↔ IsAlike a b }
    ensures numbers { (a b : NavItem) → (rank a ≡ rank b) ↔ IsAlike a b }
{}
