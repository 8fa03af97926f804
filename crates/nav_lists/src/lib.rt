//! Lists of broadcast navigation data: the merge of several files' items, and the times they cover.
//!
//! Items repeat each other if they are equal in every field but the transmission time. The merged
//! list ([`Merge`]) keeps of repeated items the one sent first. It is sorted by time of ephemeris
//! (IS-GPS-200, 20.3.3.4.3.1; Galileo OS SIS ICD, 5.1.1), or the ionosphere's transmission time,
//! then by class, then by the remaining fields.
//!
//! An ephemeris covers the seconds around its toe: three hours before and after if the GPS fit
//! interval flag is 1 (IS-GPS-200, 20.3.3.4.3.1), else two. [`Cover`] gives these times as ranges,
//! ordered by satellite and start; ranges that overlap or touch are joined.
//!
//! Both depend on the set of items alone, not on the order of the files nor on repetition:
//! [`merging`] and [`covering`] state it.
//!
//! ```rust
//! use nav_lists::{Cover, Merge};
//!
//! let merge = Merge::new(rt.alloc());
//! assert!(rt; merge.items().next().is_none());
//! let mut cover = Cover::new(rt.alloc());
//! assert!(rt; cover.take_first().is_none());
//! ```
//!
//! Lists of values in the order of a rank, of which each rank has one value.
//!
//! A [`RankedList`] is built value by value. Of values of one rank it keeps the first by choice. It
//! depends on the set of the values alone, not on their order nor on repetition, if values that are
//! equal in rank and choice are equal.
//!
//! ```rust
//! use nav_lists::RankedList;
//!
//! let mut list: RankedList<Text> = RankedList::new(rt.alloc());
//! list.add(text)?;
//! ```
#![tactic(auto)]

mod cover;
mod covering_laws;
mod few;
mod items;
mod laws;
mod list;
mod merge;
mod numbers;
mod range;
mod ranked;
mod ranked_laws;
mod sweep;

pub use crate::cover::Cover;
pub use crate::covering_laws::{covering, one_cover};
pub use crate::few::Few;
pub use crate::items::Items;
pub use crate::laws::merging;
pub use crate::list::{Ranked, RankedList};
pub use crate::merge::Merge;
pub use crate::range::CoverRange;
pub use crate::ranked_laws::ranking;
