ghost use Rattle.std.specs.Prelude.{◌≡◌, ◌↔◌, IsSome, IfSome};
ghost use Rattle.nav_eph.specs.Satellite.{IsSat};

use nav_eph::{Sat, System};

/// The satellite with that number, if the system has one.
pub fn sat_of(system: System, number: u32) -> Option<Sat>
    ensures exactly { IsSome result ↔ IsSat system number }
    ensures same { IfSome result (λ sat. sat ≡ record { system = system; number = number }) }
{
    if number > 255 {
        return None;
    }
    Sat::new(system, number as u8)
}
