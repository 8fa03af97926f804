//! Names of outputs.

ghost use Rattle.std.specs.Prelude.{◌≡◌, None, Some, ℕ, List, IfOk, MatchOption};
ghost use Rattle.std.specs.String.{string_bytes};
ghost use Rattle.std.specs.Path.{path_file_stem};
ghost use Rattle.file_conversion.specs.Names.{with_ending};

use std::alloc::{AllocError, Global};
use std::path::Path;

/// The name of the output for a file: the name of the file with its last ending replaced by this
/// one. `None` if the input has no file name, such as `..`.
pub fn output_name(alloc: Global, input: &str, ending: &str) -> Result<Option<String>, AllocError>
    ensures { IfOk result (λ found. MatchOption found (path_file_stem input.now ≡ None)
        (λ name. (stem : List ℕ) × (path_file_stem input.now ≡ Some stem)
        × (string_bytes name ≡ with_ending stem ending.now))) }
{
    match Path::new(input).file_stem() {
        None => Ok(None),
        Some(stem) => Ok(Some(named(alloc, stem, ending)?)),
    }
}

// A name with this ending.
fn named(alloc: Global, stem: &str, ending: &str) -> Result<String, AllocError>
    ensures { IfOk result (λ name. string_bytes name ≡ with_ending stem.now ending.now) }
{
    format!(in alloc; "{stem}.{ending}")
}
