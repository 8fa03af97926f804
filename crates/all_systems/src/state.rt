//! What a run holds of the frames so far.

ghost use Rattle.std.specs.Prelude.{◌≡◌, ◌||◌, false, not, List, [], ℤ, IfOk, OnOk};
ghost use Rattle.std.specs.Cmp.Lexicographic.{slice_cmp};
ghost use Rattle.std.specs.Ordering.{int_cmp, is_eq};
ghost use Rattle.nav_eph.specs.declared.items.NavItem.{NavItem};
ghost use Rattle.streams.specs.Mirrors.{NothingKept, is_given};
ghost use Rattle.all_systems.specs.Mirrors.{is_rank_in};
ghost use Rattle.all_systems.specs.Streams.{counts_of};

use arrayvec::ArrayVec;
use std::alloc::{AllocError, Global};
use std::collections::BTreeSet;
use streams::{ItemsGiven, StreamCounts};

// The rank of a row.
pub(crate) type RowRank = ArrayVec<i64, 34>;

/// What a run holds of the frames so far: the ephemerides that were given, and the counts.
#[derive(Drop)]
pub struct State {
    pub(crate) given: ItemsGiven,
    pub(crate) rows: BTreeSet<RowRank, Global>,
    pub(crate) counts: StreamCounts,
}

impl State {
    // Before the first frame.
    pub(crate) fn new(alloc: Global) -> State
        ensures counts { result.counts ≡ counts_of [] }
        ensures given { (other : NavItem) → is_given result.given other ≡ false }
        ensures kept { NothingKept result.given }
        ensures rows { (zs : List ℤ) → is_rank_in result.rows zs ≡ false }
    {
        State {
            given: ItemsGiven::new(alloc),
            rows: BTreeSet::new(alloc),
            counts: StreamCounts::new(),
        }
    }
}

// Adds the rank of a row; whether it is new.
#[tactic(auto, using(crate::proofs::Ranks::rank_added))]
pub(crate) fn add_rank(
    ranks: &mut BTreeSet<RowRank, Global>,
    rank: RowRank,
) -> Result<bool, AllocError>
    ensures added { IfOk result (λ added. added ≡ not (is_rank_in ranks.old rank.items)) }
    ensures adds { OnOk result ((zs : List ℤ) → is_rank_in ranks.new zs
        ≡ (is_eq (slice_cmp int_cmp rank.items zs) || is_rank_in ranks.old zs)) }
{
    match ranks.insert(rank) {
        Ok(added) => Ok(added),
        Err(_) => Err(AllocError),
    }
}
