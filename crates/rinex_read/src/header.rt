//! The lines of a header.

ghost use Rattle.std.specs.Prelude.{◌≡◌};
ghost use Rattle.rinex_read.specs.Kept.{padded};
ghost use Rattle.rinex_read.specs.Files.{ends_header, is_navigation};
ghost use Rattle.rinex_read.specs.Forms.{is_version};
ghost use Rattle.rinex_read.specs.Mirrors.{header_after};

use crate::form::FileForm;
use crate::judged::HeaderState;
use crate::line::{PaddedLine, columns, padded, stands_at};
use scaled_decimal::trimmed;

// Whether the line is the first of a navigation file.
#[tactic(auto, unfolding(crate::specs::Files::is_navigation))]
fn is_navigation(line: &PaddedLine) -> bool
    ensures { result ≡ is_navigation line.now }
{
    stands_at(line, 60, b"RINEX VERSION / TYPE") && stands_at(line, 20, b"N")
}

// Whether the version of the line is one of the form.
#[tactic(auto, unfolding(crate::specs::Forms::is_version))]
fn is_version<R, F: FileForm<R>>(form: &F, line: &PaddedLine) -> bool
    ensures { result ≡ is_version (F.form form.now) line.now }
{
    form.names(trimmed(columns(line, 0, 9)))
}

// Whether the line ends a header.
#[tactic(auto, unfolding(crate::specs::Files::ends_header))]
fn ends_header(line: &PaddedLine) -> bool
    ensures { result ≡ ends_header line.now }
{
    stands_at(line, 60, b"END OF HEADER")
}

// The same of a line cut to 80 characters.
fn after_kept<R, F: FileForm<R>>(form: &F, state: HeaderState, line: &PaddedLine) -> HeaderState
    ensures { result ≡ header_after (F.form form.now) state line.now }
{
    match state {
        HeaderState::New => {
            if !is_navigation(line) {
                HeaderState::NotRinexNav
            } else if is_version::<R, F>(form, line) {
                HeaderState::Open
            } else {
                HeaderState::OtherVersion
            }
        }
        HeaderState::Open => {
            if ends_header(line) {
                HeaderState::Passed
            } else {
                HeaderState::Open
            }
        }
        HeaderState::Passed => HeaderState::Passed,
        HeaderState::NotRinexNav => HeaderState::NotRinexNav,
        HeaderState::OtherVersion => HeaderState::OtherVersion,
    }
}

/// The state of reading a header after one more line.
pub(crate) fn header_after<R, F: FileForm<R>>(
    form: &F,
    state: HeaderState,
    line: &[u8],
) -> HeaderState
    ensures { result ≡ header_after (F.form form.now) state line.now }
{
    after_kept::<R, F>(form, state, &padded(line))
}
