//! Scales of broadcast fields.

ghost use Rattle.std.specs.Prelude.{◌≡◌, ◌↔◌, ◌⊎◌, IsTrue, SomeIff, true, false};

/// The scale of a field: factor x 2^two x 10^ten, times pi where `pi` is set.
///
/// Pi is 31415926535898 / 10^13 (IS-GPS-200, 20.3.3.4.3; Galileo OS SIS ICD, 5.1.1).
#[derive(Clone, Copy, PartialEq, Eq)]
pub struct Scale {
    /// Whether the field is broadcast in semicircles and printed in radians.
    pub pi: bool,
    /// An integer factor, 1 to 60, in a further box to 1000.
    pub factor: u32,
    /// The exponent of two, -59 to 16, in a further box from -66.
    pub two: i32,
    /// The exponent of ten, -2 to 0, in a further box from -10.
    pub ten: i32,
}

impl Scale {
    ghost use Rattle.scaled_decimal.specs.ScaleValue.{AreWithin, AreFar, IsAccepted};

    /// Whether factor and exponents are in the box of the usual scales.
    #[inline(always)]
    pub(crate) fn is_near(&self) -> bool
        requires { IsAccepted self.now }
        ensures near { result ≡ true → AreWithin self.now.factor self.now.two self.now.ten }
        ensures far { result ≡ false
            → AreFar self.now.pi self.now.factor self.now.two self.now.ten }
    {
        self.two >= -59 && self.ten >= -2 && self.factor <= 60
    }

    // Whether factor and exponents are in the box of the usual scales.
    fn are_within(factor: u32, two: i32, ten: i32) -> bool
        ensures { IsTrue result ↔ AreWithin factor two ten }
    {
        if factor < 1 || factor > 60 {
            return false;
        }
        if two < -59 || two > 16 {
            return false;
        }
        ten >= -2 && ten <= 0
    }

    // Whether they are in the further boxes.
    fn are_far(pi: bool, factor: u32, two: i32, ten: i32) -> bool
        ensures { IsTrue result ↔ AreFar pi factor two ten }
    {
        !pi && 1 <= factor
            && factor <= 1000
            && ((-66 <= two && two <= -60 && ten == 0) || (two == 0 && -10 <= ten && ten <= 0))
    }

    /// A scale; None exactly if it is not accepted.
    pub fn new(pi: bool, factor: u32, two: i32, ten: i32) -> Option<Scale>
        ensures { SomeIff result (AreWithin factor two ten ⊎ AreFar pi factor two ten)
            (record { pi = pi; factor = factor; two = two; ten = ten }) }
    {
        if Scale::are_within(factor, two, ten) || Scale::are_far(pi, factor, two, ten) {
            Some(Scale {
                pi,
                factor,
                two,
                ten,
            })
        } else {
            None
        }
    }
}
