//! Where outputs go, and what their names are.

ghost use Rattle.std.specs.Prelude.{◌≡◌, IfOk};
ghost use Rattle.std.specs.Option.{option_map};
ghost use Rattle.std.specs.Path.{path_buf_bytes};
ghost use Rattle.navconvert.specs.Outputs.{placed};

use crate::command::Asked;
use file_conversion::{Refusal, output_name};
use std::alloc::{AllocError, Global};
use std::fs;
use std::path::{AsPath, Path, PathBuf};

/// Where outputs go.
#[derive(Clone, Copy)]
pub(crate) enum Output<'a> {
    /// Next to their inputs.
    Beside,
    /// Into a directory.
    Folder(&'a str),
    /// To one file.
    File(&'a str),
    /// To standard output.
    Standard,
}

/// Where the arguments place outputs.
pub(crate) fn output_of<'a>(rt: &HostRuntime, asked: &Asked<'a>) -> Output<'a> {
    match asked.value("output") {
        None => Output::Beside,
        Some(name) => {
            if name == "-" {
                Output::Standard
            } else if Path::new(name).is_dir(rt) {
                Output::Folder(name)
            } else {
                Output::File(name)
            }
        }
    }
}

/// The size of a file of this name, 0 if it has none.
pub(crate) fn size_of(rt: &HostRuntime, name: &str) -> u64 {
    match fs::metadata(rt, name) {
        Ok(there) => there.len(),
        Err(_) => 0,
    }
}

/// The name of the output of a file, with this ending, in whatever directory.
pub(crate) fn name_of(alloc: Global, file: &str, ending: &str) -> Result<String, Refusal<'static>> {
    if file == "-" {
        return Err(Refusal::NoName);
    }
    match output_name(alloc, file, ending) {
        Ok(Some(name)) => Ok(name),
        Ok(None) => Err(Refusal::NoName),
        Err(AllocError) => Err(Refusal::NoMemory),
    }
}

/// A copy of a name.
pub(crate) fn owned(alloc: Global, name: &str) -> Result<String, Refusal<'static>> {
    match String::from_str(alloc, name) {
        Ok(name) => Ok(name),
        Err(AllocError) => Err(Refusal::NoMemory),
    }
}

/// A name next to a file, or in the directory of outputs.
pub(crate) fn placed(
    alloc: Global,
    output: Output,
    file: &str,
    name: &str,
) -> Result<String, Refusal<'static>> {
    let folder = match output {
        Output::Beside => None,
        Output::Folder(folder) => Some(folder),
        Output::File(_) | Output::Standard => return Err(Refusal::NoLongName),
    };
    match path_of(alloc, file, folder, name) {
        Ok(path) => owned(alloc, path.path_text()),
        Err(AllocError) => Err(Refusal::NoMemory),
    }
}

// The path of a name in a folder, or beside a file where none is named.
fn path_of(
    alloc: Global,
    file: &str,
    folder: Option<&str>,
    name: &str,
) -> Result<PathBuf, AllocError>
    ensures { IfOk result (λ path. path_buf_bytes path
        ≡ placed file.now (option_map (λ text. text.now) folder.entry) name.now) }
{
    match folder {
        Some(folder) => Path::new(folder).join(alloc, name),
        None => Path::new(file).with_file_name(alloc, name),
    }
}
