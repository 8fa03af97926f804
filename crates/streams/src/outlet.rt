//! The output of items and periods: a first text, one for each, and a last one.

ghost use Rattle.nav_io.specs.Writes.{Writes};
ghost use Rattle.streams.specs.Targets.{back_text, prefix_text, item_text, period_text};

use crate::listed::append_period;
use crate::target::Target;
use crate::{item_line, write_message};
use nav_eph::NavItem;
use nav_io::{Failed, Sink};
use one_run::Text;
use periods::{Closed, Verdict};
use rinex_write::{write_header, write_header3, write_item, write_item3};

impl Target {
    /// Writes the first text: the header of a navigation file, else nothing.
    ///
    /// # Errors
    ///
    /// `Failed` only if the sink's count of errors rose in this call or is at its maximum; a prefix
    /// of the text was appended then. So in the other three.
    pub fn begin<T: Sink>(&self, out: &mut T) -> Result<(), Failed>
        ensures { Writes (T.written out.old) (T.written out.new) (T.faults out.old)
            (T.faults out.new)
            result (prefix_text self.now) }
    {
        match self {
            Target::Rinex(words) => write_header(words, out),
            Target::Rinex3(words) => write_header3(words, out),
            _ => Ok(()),
        }
    }

    /// Writes an item; its record is at this line of its file.
    pub fn put<T: Sink>(&self, line: u32, item: &NavItem, out: &mut T) -> Result<(), Failed>
        ensures { Writes (T.written out.old) (T.written out.new) (T.faults out.old)
            (T.faults out.new)
            result (item_text self.now line item.now) }
    {
        match self {
            Target::Rinex(_) => write_item(item, out),
            Target::Rinex3(_) => write_item3(item, out),
            Target::Rtcm => write_message(item, out),
            Target::ToList => out.write(item_line(u64::from(line), item).as_slice()),
            Target::Count => Ok(()),
        }
    }

    /// Writes a closed period.
    pub fn list<T: Sink>(&self, closed: &Closed, out: &mut T) -> Result<(), Failed>
        ensures { Writes (T.written out.old) (T.written out.new) (T.faults out.old)
            (T.faults out.new)
            result (period_text self.now closed.now) }
    {
        match self {
            Target::ToList => {
                let mut text = Text::new();
                append_period(&mut text, closed);
                out.write(text.as_slice())
            }
            Target::Count => Ok(()),
            _ => match &closed.verdict {
                Verdict::Whole(item) => self.put(0, item, out),
                _ => Ok(()),
            },
        }
    }

    /// Writes the last text: the counts, if only these are asked for.
    pub fn end<T: Sink>(&self, counts: &[u8], out: &mut T) -> Result<(), Failed>
        ensures { Writes (T.written out.old) (T.written out.new) (T.faults out.old)
            (T.faults out.new)
            result (back_text self.now counts.now) }
    {
        match self {
            Target::Count => out.write(counts),
            _ => Ok(()),
        }
    }
}
