//! Theorems about streams of all systems: each is the contract of a function that does nothing.

ghost use Rattle.std.specs.Prelude.{◌≡◌, ℕ, List};
ghost use Rattle.framing.specs.Frames.{frames};
ghost use Rattle.streams.specs.Streams.{stream_list};
ghost use Rattle.all_systems.specs.Readings.{readings};
ghost use Rattle.all_systems.specs.Streams.{items_of, navs};
ghost use Rattle.all_systems.specs.declared.kinds.Kinds.{Kinds};

/// Of any bytes, the ephemerides that [`streams::run_stream`] writes are those of GPS and Galileo
/// I/NAV among the ones that [`crate::run_systems`] writes, in the same order.
pub fn a_stream_has_the_same_ephemerides_of_gps_and_galileo()
    ensures { (ks : Kinds) (r : ℕ) (bytes : List ℕ)
        → navs (items_of (readings ks r (frames bytes))) ≡ stream_list r bytes }
{}
