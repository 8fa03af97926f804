//! Ionospheric parameters, to and from raw integers.

ghost use Rattle.std.specs.Prelude.{◌≡◌, ◌↔◌, IsSome, IfSome};
ghost use Rattle.nav_eph.specs.Bodies.{IsGalIon, IsGpsIon};
ghost use Rattle.nav_eph.specs.Ranges.{IsIonItem};
ghost use Rattle.raw_values.specs.Ion.{gal_ion_in, gal_ion_item, gps_ion_in, gps_ion_item};
ghost use Rattle.raw_values.specs.Ion.{ion_kind, raw_gal_ion, raw_gps_ion, raw_ion};

use crate::ion_raw::{GalIonRaw, GpsIonRaw, IonRaw};
use crate::numbers::{raw_signed, raw_unsigned, signed, unsigned};
use crate::sat::sat_of;
use nav_eph::{GalIon, GpsIon, IonContent, IonEph, Moment, System};

/// The parameters with these numbers; `None` if one is out of its range.
pub fn gps_ion_of(raw: &GpsIonRaw) -> Option<GpsIon>
    ensures exactly { IsSome result ↔ IsGpsIon (gps_ion_in raw.now) }
    ensures same { IfSome result (λ value. value ≡ gps_ion_in raw.now) }
{
    let alpha0 = signed::<8>(&raw.alpha0)?;
    let alpha1 = signed::<8>(&raw.alpha1)?;
    let alpha2 = signed::<8>(&raw.alpha2)?;
    let alpha3 = signed::<8>(&raw.alpha3)?;
    let beta0 = signed::<8>(&raw.beta0)?;
    let beta1 = signed::<8>(&raw.beta1)?;
    let beta2 = signed::<8>(&raw.beta2)?;
    let beta3 = signed::<8>(&raw.beta3)?;
    Some(GpsIon {
        alpha0,
        alpha1,
        alpha2,
        alpha3,
        beta0,
        beta1,
        beta2,
        beta3,
    })
}

/// Its numbers.
pub fn raw_gps_ion(value: &GpsIon) -> GpsIonRaw
    ensures { result ≡ raw_gps_ion value.now }
{
    GpsIonRaw {
        alpha0: raw_signed(&value.alpha0),
        alpha1: raw_signed(&value.alpha1),
        alpha2: raw_signed(&value.alpha2),
        alpha3: raw_signed(&value.alpha3),
        beta0: raw_signed(&value.beta0),
        beta1: raw_signed(&value.beta1),
        beta2: raw_signed(&value.beta2),
        beta3: raw_signed(&value.beta3),
    }
}

/// The parameters with these numbers; `None` if one is out of its range.
pub fn gal_ion_of(raw: &GalIonRaw) -> Option<GalIon>
    ensures exactly { IsSome result ↔ IsGalIon (gal_ion_in raw.now) }
    ensures same { IfSome result (λ value. value ≡ gal_ion_in raw.now) }
{
    let ai0 = unsigned::<11>(raw.ai0)?;
    let ai1 = signed::<11>(&raw.ai1)?;
    let ai2 = signed::<14>(&raw.ai2)?;
    let regions = unsigned::<5>(raw.regions)?;
    Some(GalIon {
        ai0,
        ai1,
        ai2,
        regions,
    })
}

/// Its numbers.
pub fn raw_gal_ion(value: &GalIon) -> GalIonRaw
    ensures { result ≡ raw_gal_ion value.now }
{
    GalIonRaw {
        ai0: raw_unsigned(&value.ai0),
        ai1: raw_signed(&value.ai1),
        ai2: raw_signed(&value.ai2),
        regions: raw_unsigned(&value.regions),
    }
}

/// The item of the GPS parameters; `None` exactly if a number is out of its range, or the time is
/// in no week from 1 to 16,382.
pub fn ion_of_gps(raw: &IonRaw) -> Option<IonEph>
    ensures exactly { IsSome result ↔ IsIonItem (gps_ion_item raw.now) }
    ensures same { IfSome result (λ value. value ≡ gps_ion_item raw.now) }
{
    let sat = sat_of(System::Gps, raw.satellite)?;
    let moment = Moment::new(raw.moment)?;
    let parameters = gps_ion_of(&raw.gps)?;
    IonEph::new(sat, moment, IonContent::Gps(parameters))
}

/// The item of the Galileo parameters; `None` exactly if a number is out of its range, or the time
/// is in no week from 1 to 16,382.
pub fn ion_of_gal(raw: &IonRaw) -> Option<IonEph>
    ensures exactly { IsSome result ↔ IsIonItem (gal_ion_item raw.now) }
    ensures same { IfSome result (λ value. value ≡ gal_ion_item raw.now) }
{
    let sat = sat_of(System::Gal, raw.satellite)?;
    let moment = Moment::new(raw.moment)?;
    let parameters = gal_ion_of(&raw.gal)?;
    IonEph::new(sat, moment, IonContent::Gal(parameters))
}

/// Puts the numbers of an item, and returns its kind: 3 for GPS, 4 for Galileo. The parameters of
/// the other system stay.
pub fn put_ion(value: &IonEph, raw: &mut IonRaw) -> u32
    ensures kind { result ≡ ion_kind value.now.content }
    ensures raw { raw.new ≡ raw_ion value.now raw.old }
{
    raw.satellite = u32::from(value.sat.number());
    raw.moment = value.moment.value();
    match &value.content {
        IonContent::Gps(parameters) => {
            raw.gps = raw_gps_ion(parameters);
            3
        }
        IonContent::Gal(parameters) => {
            raw.gal = raw_gal_ion(parameters);
            4
        }
    }
}
