//! The line of a period in a list.

ghost use Rattle.std.specs.Prelude.{◌≡◌, ◌+◌, ◌≤◌, ◌++◌, length};
ghost use Rattle.arrayvec.specs.ArrayVec.{array_vec_len};
ghost use Rattle.streams.specs.PeriodLines.{key_text, list_period, verdict_text};

use crate::append_issue;
use one_run::{Text, append, append_decimal, append_hex};
use periods::{Closed, PeriodKey, Verdict};

// Appends the key of a period: an ephemeris by satellite and issue of data, ionosphere parameters
// by system letter and their bits in hexadecimal.
fn append_key(text: &mut Text, key: &PeriodKey)
    requires { array_vec_len text.old + 48 ≤ 640 }
    ensures items { text.new.items ≡ text.old.items ++ key_text key.now }
    ensures short { array_vec_len text.new ≤ array_vec_len text.old + 48 }
{
    match key {
        PeriodKey::Gps(sat, issue) => append_issue(text, *sat, issue.value()),
        PeriodKey::Gal(sat, issue) => append_issue(text, *sat, issue.value()),
        PeriodKey::GpsIon(content) => {
            append(text, b"ION G ");
            append_hex(text, 16, content.number());
        }
        PeriodKey::GalIon(content) => {
            append(text, b"ION E ");
            append_hex(text, 11, content.number());
        }
    }
}

// The verdict on a period in one word.
fn verdict_word(verdict: &Verdict) -> &'static [u8]
    ensures word { result.now ≡ verdict_text verdict.now }
    ensures short { length result.now ≤ 12 }
{
    match verdict {
        Verdict::Whole(_) => b"whole",
        Verdict::Partial => b"partial",
        Verdict::Contradicted => b"contradicted",
        Verdict::NoHealth => b"nohealth",
        Verdict::Again => b"again",
    }
}

/// Appends the line of a period in a list: `<end> EPH <satellite> <issue> <verdict>`, or
/// `<end> ION G <16 digits> <verdict>`, of Galileo `<end> ION E <11 digits> <verdict>`, and LF.
#[tactic(auto, unfolding(crate::specs::PeriodLines::list_period))]
pub(crate) fn append_period(text: &mut Text, closed: &Closed)
    requires { array_vec_len text.old + 103 ≤ 640 }
    ensures { text.new.items ≡ text.old.items ++ list_period closed.now }
{
    append_decimal(text, u64::from(closed.end));
    append(text, b" ");
    append_key(text, &closed.key);
    append(text, b" ");
    append(text, verdict_word(&closed.verdict));
    append(text, b"\n");
}
