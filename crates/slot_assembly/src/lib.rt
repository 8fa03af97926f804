//! Assembly of periods from received parts.
//!
//! A satellite repeats an ephemeris in parts (GPS subframes, Galileo I/NAV words) under an issue of
//! data; `periods` defines which parts form a period and what item they make. An [`Assembly`] takes
//! parts as they are received, and gives each period once, in order, with its verdict, as soon as
//! no further part can belong to it. [`add_periods`] runs any assembly over a list of parts. A
//! continuous run calls `next_closed` at each watermark until it returns `None`, or
//! [`SlotAssembly::close_next`], which puts each period into memory of the caller.
//!
//! [`SlotAssembly`] stores one slot for each open period, with the digest of its members, by key
//! and start. A new part is merged with the slots of its key within the window; if it belongs to
//! one that started before it, that slot changes in its place and no map does. A slot is removed
//! when its period is given. Which one is due is found by a list of ends, one for each slot, which
//! may be earlier than its own. Next to the slots it stores the health that a period may still
//! take, and the item of each ephemeris' last complete period given. So memory is bounded by the
//! contents of the window and the number of issues that were complete, whatever the length of the
//! capture. Each call costs a few searches in ordered maps.
//!
//! ```rust
//! use nav_eph::RefWeek;
//! use slot_assembly::{SlotAssembly, add_periods};
//!
//! let week = RefWeek::new(2_295).ok_or("a week")?;
//! let mut assembly = SlotAssembly::new(rt.alloc(), week, 7_200);
//! let mut periods = Vec::new(rt.alloc());
//! add_periods(&mut assembly, &[], &mut periods)?;
//! assert!(rt; periods.is_empty());
//! ```
#![tactic(auto)]

mod assembly;
mod closing;
mod healths;
mod known;
mod laws;
mod order;
mod run;
mod slot;
mod slots;
mod slotted;

pub use crate::assembly::Assembly;
pub use crate::laws::one_next;
pub use crate::run::add_periods;
pub use crate::slotted::SlotAssembly;
