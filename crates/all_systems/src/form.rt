//! The format of navigation files of all systems.

use crate::Kinds;
use crate::file_read::RecordRead;
use crate::version::Version;
use rinex_read::{FileForm, RecordLines, Rinex3, Rinex4};

// The files of a version, of all systems.
#[derive(Drop)]
pub(crate) struct SystemForm {
    pub kinds: Kinds,
    pub version: Version,
}

impl FileForm<RecordRead> for SystemForm {
    ghost use Rattle.all_systems.specs.Files.{form_of};

    ghost form = { λ f. form_of f.kinds f.version };

    ghost whole = { λ read. Unit {0} };

    fn names(&self, text: &[u8]) -> bool {
        match self.version {
            Version::Four => Rinex4.names(text),
            Version::Three => Rinex3.names(text),
        }
    }

    fn starts(&self, first: u8) -> bool {
        match self.version {
            Version::Four => Rinex4.starts(first),
            Version::Three => Rinex3.starts(first),
        }
    }

    fn judge(&self, line: u32, lines: &RecordLines) -> RecordRead {
        RecordRead::of(&self.kinds, self.version, line, lines)
    }

    fn looks_at_kept(&self) {
        Rinex4.looks_at_kept();
        Rinex3.looks_at_kept();
    }

    fn gives_whole(&self) {}
}
