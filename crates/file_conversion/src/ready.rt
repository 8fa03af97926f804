//! What is done with an input that was looked at.

ghost use Rattle.std.specs.Prelude.{◌≡◌, true};
ghost use Rattle.file_conversion.specs.Tasks.{reads_input};

use crate::table::Task;
use whole_file::Kind;

/// The format of an input, and what is done with it.
pub(crate) struct Ready {
    pub kind: Kind,
    pub task: Task,
    pub ghost reads: { reads_input task ≡ true },
}
