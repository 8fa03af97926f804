//! From a file to its output: its first bytes are examined, its format is recognised or named, the
//! conversion for it is run, and its output gets its name.
//!
//! - [`Plan`], what is asked of each file, and [`task_for`], what is done with a file of a format,
//!   the one table of conversions; [`Target`], what is made, with the arguments and file name
//!   endings of each;
//! - [`convert_one`], from the file of one name to another: the complete output for its bytes, or
//!   every name as it was; and it is done if nothing fails;
//! - [`convert_source`], the same from a source, which is given back;
//! - [`Stop`], why a file is not converted, and [`Refusal`], that as a message states it, its
//!   sentence and the exit status; [`finish`], which has reported what became of a file, and gives
//!   its exit status;
//! - [`output_name`], the name of an output by that of its input, and [`long_name`], that of a
//!   navigation file by the convention of RINEX 3 and 4 (RINEX 4.02, 5.2).
//!
//! A log of a receiver is converted as its capture, and to a capture it is that capture
//! itself. Of a stream and of a navigation file the ephemerides of all systems are converted; every
//! other file, and those that are merged, as `navbridge` converts them.
//!
//! ```rust
//! let mut folder = HostFolder::new(rt.alloc(), &rt);
//! let mut name = Given::new(String::from_str(rt.alloc(), "station.rnx")?);
//! let observers = Observers { report, refusals: Nobody, progress: Untold };
//! let outcome = convert_one(rt.alloc(), &plan, &mut folder, observers,
//!     "station.navcap", "station.rnx.part", &mut name);
//! ```
#![tactic(auto)]

mod begun;
mod convert;
mod copies;
mod digits;
mod done;
mod ends;
mod form;
mod leaps;
mod long;
mod names;
mod reading;
mod ready;
mod refusals;
mod says;
mod shown;
mod stops;
mod table;
mod targets;
mod tasks;
mod wording;

pub use crate::convert::{convert_one, convert_source};
pub use crate::copies::copy;
pub use crate::done::Done;
pub use crate::ends::{Observers, Outcome, Sourced};
pub use crate::form::fits;
pub use crate::leaps::leap_of;
pub use crate::long::{is_site, long_name};
pub use crate::names::output_name;
pub use crate::refusals::refusal_of;
pub use crate::says::{Refusal, STANDARD_OUTPUT, kind_text};
pub use crate::shown::Shown;
pub use crate::stops::{Made, Stop};
pub use crate::table::{
    Plan, SystemFileJob, SystemMergeJob, SystemsJob, Task, is_converted, task_for,
};
pub use crate::targets::{Target, ending_of, kind_named, target_named, to_word};
pub use crate::wording::{Reporter, finish};
pub use all_systems::Kinds;
