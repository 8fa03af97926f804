//! Where files are read and written.

ghost use Rattle.std.specs.Prelude.{◌≡◌, ◌≢◌, ℕ, List, Option, IfOk, OnOk, OnErr};
ghost use Rattle.nav_io.specs.Causes.{HasCause, Rose};
ghost use Rattle.whole_file.specs.Files.{Opens, Begins, Publishes, Stays};

use crate::faults::FileFault;
use nav_io::{Sink, Source};

/// Where files are read, and written as parts that get their name once they are complete.
pub trait Folder {
    /// A file that is read.
    type Input: Source + Drop;

    /// A file that is written, without a name of its own yet.
    type Draft: Sink;

    // The bytes of each name, where the folder tells them.
    ghost files: { Self → Option (List ℕ → Option (List ℕ)) };

    // How often a call failed: a count that never falls, and saturates at 2^64 - 1.
    ghost faults: { Self → ℕ };

    /// Opens the file of this name to read it.
    fn open(&mut self, name: &str) -> Result<Self::Input, FileFault>
        ensures bytes { IfOk result (λ input.
            Opens (files self.old) name.now (Self.Input.left input)) }
        ensures same { files self.new ≡ files self.old }
        ensures fresh { IfOk result (λ input. Self.Input.faults input ≡ 0) }
        ensures cause { HasCause (faults self.old) (faults self.new) result };

    /// Closes it. If a read of the input has failed, the close fails too and counts as an error.
    fn close(&mut self, input: Self::Input) -> Result<(), FileFault>
        ensures same { files self.new ≡ files self.old }
        ensures told { Rose 0 (Self.Input.faults input) → Rose (faults self.old) (faults self.new) }
        ensures cause { HasCause (faults self.old) (faults self.new) result };

    /// Creates a file with this name, which no file has.
    fn draft(&mut self, part: &str) -> Result<Self::Draft, FileFault>
        ensures empty { IfOk result (λ draft.
            Begins (files self.old) part.now (Self.Draft.written draft)) }
        ensures others { Stays (files self.old) (files self.new) part.now }
        ensures fresh { IfOk result (λ draft. Self.Draft.faults draft ≡ 0) }
        ensures cause { HasCause (faults self.old) (faults self.new) result };

    /// Gives the draft this name, and removes that of its part. A draft in which a write has failed
    /// gets no name.
    fn publish(&mut self, draft: Self::Draft, part: &str, name: &str) -> Result<(), FileFault>
        requires { part.now ≢ name.now }
        ensures put { OnOk result (Publishes (files self.old) (files self.new) part.now name.now
            (Self.Draft.written draft)) }
        ensures whole { OnOk result (Self.Draft.faults draft ≡ 0) }
        ensures stays { OnErr result (Stays (files self.old) (files self.new) part.now) }
        ensures cause { HasCause (faults self.old) (faults self.new) result };

    /// Gives up the draft. If a write to it has failed, the call fails too and counts as an error.
    fn discard(&mut self, draft: Self::Draft, part: &str) -> Result<(), FileFault>
        ensures stays { Stays (files self.old) (files self.new) part.now }
        ensures told { Rose 0 (Self.Draft.faults draft) → Rose (faults self.old) (faults self.new) }
        ensures cause { HasCause (faults self.old) (faults self.new) result };
}
