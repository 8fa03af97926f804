//! A conversion for tests.

ghost use Rattle.std.specs.Prelude.{◌≡◌, ◌≢◌, ◌⊎◌, ℕ};
ghost use Rattle.std.specs.Prelude.{List, Option, IfSome, IfErr, OnOk, codes};

use nav_io::{Sink, Source};
use whole_file::Conversion;

/// Writes the same seven bytes of any file but an empty one and one that begins with `?`.
#[derive(Drop)]
pub(crate) struct Seven;

/// Why it breaks off.
#[derive(Clone, Copy)]
pub(crate) enum Broken {
    /// A read failed.
    Unread,
    /// The write failed.
    Unwritten,
    /// The file is refused.
    Refused,
}

impl Conversion for Seven {
    ghost use Rattle.std.specs.Prelude.{◌≡◌};
    ghost use Rattle.whole_file.specs.Steps.Cause.{Read, Write, NoCall};
    ghost use Rattle.job_tests.specs.declared.steps.Broken.TheVariants as broken;

    type Done = ();

    type Fault = Broken;

    ghost makes = { λ _ _. codes "seven b" };

    ghost counts = { λ _ _ _. Unit {0} };

    ghost can = { λ _ _. Unit {0} };

    ghost lacks = { λ fault. fault ≡ broken.Refused };

    ghost faults = { λ _. 0 };

    ghost cause_of = { elim [
      | broken.Unread ↦ Read
      | broken.Unwritten ↦ Write
      | broken.Refused ↦ NoCall
    ] };

    ghost breaks = { λ _ _ _. Unit {0} };

    fn run<S: Source, T: Sink>(&mut self, input: &mut S, output: &mut T) -> Result<(), Broken> {
        let mut piece = [0; 4];
        match input.read(&mut piece) {
            Ok(count) if count > 0 && piece[0] != b'?' => {}
            Ok(_) => return Err(Broken::Refused),
            Err(_) => return Err(Broken::Unread),
        }
        match output.write(b"seven b") {
            Ok(()) => Ok(()),
            Err(_) => Err(Broken::Unwritten),
        }
    }
}
