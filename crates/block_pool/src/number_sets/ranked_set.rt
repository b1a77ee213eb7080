//! A set of numbers whose k-th member is found in a few steps.
ghost use Rattle.std.specs.Prelude.{◌≡◌, ◌<◌, ◌≤◌, length, IfOk};
ghost use Rattle.std.specs.List.{slice_get, HoldsAt};
ghost use Rattle.std.specs.Option.{MatchOption};
ghost use Rattle.std.specs.List.Sorted.{IsStrictlyIncreasing};
ghost use Rattle.block_pool.specs.NumberSetsWords.{members_of};

use crate::number_sets::ranking::{WORDS_IN_GROUP, counts_before, last_at_most, nth_from};
use std::alloc::{AllocError, Allocator, Global};
use std::marker::Model;
use std::sync::Arc;

/// Flags, the count of the members before each group of words of them, and the count of all.
#[derive(Debug, Drop)]
struct Ranks<A: Allocator> {
    words: Vec<u64, A>,
    before: Vec<u32, A>,
    count: usize,
}

/// Numbers in rising order, as they stood in a set. Several owners, in any threads, may have the same.
#[derive(Debug, Drop)]
pub struct RankedSet<A: Allocator = Global> {
    ranks: Arc<Ranks<A>, A>,
}

impl<A: Allocator> Model for RankedSet<A> {
    ghost use Rattle.std.specs.Prelude.{List, ℕ};
    ghost use Rattle.std.specs.Coded.{coded_list, coded_ℕ};
    ghost use Rattle.std.specs.Arc.{arc_value};
    ghost use Rattle.block_pool.specs.NumberSetsWords.{members_of, IsRankedSet};

    ghost Value = { List ℕ };

    ghost coded = { coded_list coded_ℕ };

    ghost view = { λ s. members_of (arc_value s.ranks).words.items };

    ghost invariant = { λ s. IsRankedSet (arc_value s.ranks).words.items (arc_value s.ranks).before.items (arc_value s.ranks).count };
}

impl<A: Allocator + Clone> RankedSet<A> {
    /// The members whose flags are set in words. An error says that memory ran out.
    pub(crate) fn of_words(alloc: A, words: &[u64], count: usize) -> Result<Self, AllocError>
        requires count { count ≡ length (members_of words.now) }
        requires in_range { count ≤ 65535 }
        requires words { length words.now ≤ 1024 }
        ensures { IfOk result (λ ranked. ranked ≡ members_of words.now) }
    {
        let mut own = Vec::with_capacity(alloc.clone()?, words.len())?;
        own.extend_from_slice(words)?;
        let before = counts_before(alloc.clone()?, words)?;
        let ranks = Ranks {
            words: own,
            before,
            count,
        };
        Ok(RankedSet {
            ranks: Arc::new(alloc, ranks)?,
        })
    }
}

impl<A: Allocator> RankedSet<A> {
    /// How many members there are.
    pub fn len(&self) -> usize
        ensures value { result ≡ length self.now }
        ensures in_range { result ≤ 65535 }
        ensures rising { IsStrictlyIncreasing self.now }
    {
        self.ranks.count
    }

    /// The member that has `k` members below it. None says that there are not so many.
    pub fn nth(&self, k: usize) -> Option<u32>
        ensures value { result ≡ slice_get self.now k }
        ensures cases { MatchOption result (length self.now ≤ k) (λ n. (k < length self.now) ×
            HoldsAt (λ m. n ≡ m) self.now k) }
    {
        let ranks = &*self.ranks;
        if k >= ranks.count {
            return None;
        }
        let k = k as u32;
        let group = last_at_most(&ranks.before, k);
        let left = k - ranks.before[group];
        Some(nth_from(&ranks.words, group * WORDS_IN_GROUP, left))
    }

    /// The same members for one more owner. It takes no memory. An error says that there are as many owners as can be counted.
    pub fn share(&self) -> Result<RankedSet<A>, AllocError>
        ensures { IfOk result (λ shared. shared ≡ self.now) }
    {
        Ok(RankedSet {
            ranks: Arc::try_clone(&self.ranks)?,
        })
    }
}
