ghost use Rattle.std.specs.Prelude.{◌≡◌};
ghost use Rattle.rinex_read.specs.Forms.{read_at};

use crate::reason::RecordFault;
use nav_eph::NavItem;
use nav_io::LineFault;

/// How a record is judged.
#[derive(Clone, Copy, PartialEq, Eq)]
pub enum Judged {
    /// It gives this item.
    Item(NavItem),
    /// It is of a kind that is read, but gives no item; this is the first reason.
    Refused(RecordFault),
    /// It is of another kind.
    PassedOver,
}

/// What a record of a navigation file gives.
#[derive(Clone, Copy, PartialEq, Eq)]
pub enum ItemRead {
    /// A record that gives an item.
    Item {
        /// The number of its first line, counted from 1.
        line: u32,
        /// The item.
        item: NavItem,
    },
    /// A record that is rejected.
    Refused {
        /// The number of its first line, counted from 1.
        line: u32,
        /// The first reason.
        reason: RecordFault,
    },
    /// A record of another kind.
    PassedOver {
        /// The number of its first line, counted from 1.
        line: u32,
    },
}

// What is read of a record that begins at this line.
pub(crate) fn read_at(line: u32, judged: Judged) -> ItemRead
    ensures { result ≡ read_at line judged }
{
    match judged {
        Judged::Item(item) => ItemRead::Item { line, item },
        Judged::Refused(reason) => ItemRead::Refused { line, reason },
        Judged::PassedOver => ItemRead::PassedOver { line },
    }
}

/// Why a header is not read.
#[derive(Clone, Copy, PartialEq, Eq, Debug)]
pub enum HeaderFault {
    /// The first line is not that of a RINEX navigation file, or no line ends the header.
    NotRinexNav,
    /// The version is not one of the format.
    Version,
    /// The lines could not be read.
    Line(LineFault),
}

/// The state of reading a header.
#[derive(Clone, Copy)]
pub enum HeaderState {
    /// No line was read.
    New,
    /// The first line was read: a navigation file, of a version of the format.
    Open,
    /// The complete header was read.
    Passed,
    /// It is not the header of a navigation file.
    NotRinexNav,
    /// The version is not one of the format.
    OtherVersion,
}
