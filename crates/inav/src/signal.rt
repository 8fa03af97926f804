ghost use Rattle.std.specs.Prelude.{◌≡◌};
ghost use Rattle.inav.specs.Mirrors.{signal_number};

use nav_eph::Signal;

// The number of a signal in the order of signals.
pub(crate) fn signal_code(signal: Signal) -> u64
    ensures { result ≡ signal_number signal }
{
    match signal {
        Signal::E1b => 0,
        Signal::E5b => 1,
    }
}
