//! The lines of a report: what is rejected, and why.

ghost use Rattle.std.specs.Prelude.{◌≡◌, ◌+◌, ◌<◌};
ghost use Rattle.std.specs.Prelude.{◌≤◌, ◌++◌, codes, length};
ghost use Rattle.arrayvec.specs.ArrayVec.{array_vec_len};
ghost use Rattle.one_run.specs.Reports.{report_prefix as prefix_of, report_line};
ghost use Rattle.captures.specs.Reports.{refusal_text};

use capture_log::EventFault;
use one_run::{Text, append, append_decimal, report_prefix};

// Appends why something is refused.
fn append_refusal(text: &mut Text, refusal: &EventFault)
    requires { array_vec_len text.old + 47 ≤ 640 }
    ensures items { text.new.items ≡ text.old.items ++ refusal_text refusal.now }
    ensures short { array_vec_len text.new ≤ array_vec_len text.old + 47 }
{
    match refusal {
        EventFault::Frame => append(text, b"frame"),
        EventFault::Preamble => append(text, b"preamble"),
        EventFault::Parity { word } => {
            append(text, b"parity ");
            append_decimal(text, u64::from(*word));
        }
        EventFault::Tow => append(text, b"tow"),
        EventFault::Time => append(text, b"time"),
        EventFault::Satellite => append(text, b"satellite"),
        EventFault::Sisa => append(text, b"sisa"),
        EventFault::Short => append(text, b"short"),
    }
}

/// A line of a report on something that is rejected.
#[tactic(auto, unfolding(one_run::specs::Reports::report_line))]
pub(crate) fn refused_text(subject: &[u8], number: u64, refusal: &EventFault) -> Text
    requires { length subject.now ≤ 16 }
    ensures { result.items ≡ report_line subject.now number (refusal_text refusal.now) }
{
    let mut text = report_prefix(subject, number);
    append_refusal(&mut text, refusal);
    append(&mut text, b"\n");
    text
}
