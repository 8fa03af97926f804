//! Names of outputs and of parts.

ghost use Rattle.std.specs.Prelude.{◌≡◌, ◌≢◌, ◌++◌, ℕ, List, IfOk, codes};
ghost use Rattle.std.specs.String.{string_bytes};
ghost use Rattle.nav_io.specs.Causes.{HasCause};

use nav_io::Failed;
use std::alloc::{AllocError, Global};

/// Who names an output, once it is known what was counted.
pub trait Namer<D> {
    // The names that it gives an output of which this was counted.
    ghost gives: { Self → D → List ℕ → Type 0 };

    // How often it gave none: a count that never falls, and saturates at 2^64 - 1.
    ghost faults: { Self → ℕ };

    /// The name of the output, which is not that of its part.
    ///
    /// # Errors
    ///
    /// It has no name, or may not have it, which counts one error.
    fn name(&mut self, done: &D, part: &str) -> Result<String, Failed>
        ensures gives { IfOk result (λ name. gives self.old done.now (string_bytes name)) }
        ensures apart { IfOk result (λ name. string_bytes name ≢ part.now) }
        ensures cause { HasCause (faults self.old) (faults self.new) result };
}

/// A name that is known before, whatever is counted. It is given once.
#[derive(Drop)]
pub struct Given {
    name: Option<String>,
    faults: u64,
}

impl Given {
    /// This name.
    pub fn new(name: String) -> Given
        ensures name { result.name ≡ Some name }
        ensures faults { result.faults ≡ 0 }
    {
        Given {
            name: Some(name),
            faults: 0,
        }
    }
}

impl<D> Namer<D> for Given {
    ghost use Rattle.std.specs.Prelude.{◌≡◌, Some, option_map};
    ghost use Rattle.std.specs.String.{string_bytes};

    ghost gives = { λ s _ name. option_map string_bytes s.name ≡ Some name };

    ghost faults = { λ s. s.faults };

    /// The name, unless it is that of the part or was given before.
    fn name(&mut self, _done: &D, part: &str) -> Result<String, Failed> {
        match self.name.take() {
            Some(name) if name.as_str() != part => Ok(name),
            _ => {
                self.faults = self.faults.saturating_add(1);
                Err(Failed)
            }
        }
    }
}

/// The name of the file while it is written: this name with the suffix `.part`.
pub fn part_of(alloc: Global, name: &str) -> Result<String, AllocError>
    ensures part { IfOk result (λ part. string_bytes part ≡ name.now ++ codes ".part") }
    ensures apart { IfOk result (λ part. string_bytes part ≢ name.now) }
{
    let mut part = String::from_str(alloc, name)?;
    part.push_str(".part")?;
    Ok(part)
}
