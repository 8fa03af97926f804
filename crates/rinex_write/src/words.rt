ghost use Rattle.std.specs.Prelude.{◌<◌};

/// The variable contents of a header.
#[derive(Clone, Copy)]
pub struct HeaderWords {
    /// The creation date, in 19 characters as `20240101 000000 UTC`.
    pub date: [u8; 19],
    /// The leap seconds between UTC and GPS time, 0 to 99.
    pub leap: u8,
    pub ghost low: { leap < 100 },
}
