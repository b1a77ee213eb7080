//! How many members stand before each group of words, and how a member is found by that.
ghost use Rattle.std.specs.Prelude.{◌≡◌, ℕ, ◌+◌, ◌*◌, ◌<◌, ◌≤◌, ◌↔◌, length, take, drop, count_ones, IsTrue, IfOk, slice_get, slice_index, slice_index_or};
ghost use Rattle.std.specs.List.{All};
ghost use Rattle.block_pool.specs.Members.{set_from};
ghost use Rattle.block_pool.specs.NumberSetsWords.{bits_of, members_of, rank, AreRanks};

use std::alloc::{AllocError, Allocator};

/// How many words stand in a group, which has one count. The last group may have fewer.
pub(crate) const WORDS_IN_GROUP: usize = 16;

/// How many flags of a word are set. Most words of a set have all of them, or none.
fn flags_in(word: u64) -> u32
    ensures { result ≡ count_ones word }
{
    if word == u64::MAX {
        return 64;
    }
    if word == 0 {
        return 0;
    }
    word.count_ones()
}

/// Whether all flags of a group that has all its words are set.
fn all_set(group: &[u64]) -> bool
    requires { length group.now ≡ WORDS_IN_GROUP }
    ensures { IsTrue result ↔ All (λ word. word ≡ u64.MAX) group.now }
{
    let mut common = u64::MAX;
    for at in 0..WORDS_IN_GROUP {
        common &= group[at];
    }
    common == u64::MAX
}

/// How many members stand in a group of words. Most groups have all of them.
fn count_of_group(group: &[u64]) -> u32
    requires { length group.now ≤ WORDS_IN_GROUP }
    ensures { result ≡ length (members_of group.now) }
{
    if group.len() == WORDS_IN_GROUP && all_set(group) {
        return WORDS_IN_GROUP as u32 * 64;
    }
    let mut count = 0;
    for word in group {
        count += flags_in(*word);
    }
    count
}

/// The words of a group. The last group may have fewer than the others.
fn words_of_group(words: &[u64], group: usize) -> &[u64]
    requires { WORDS_IN_GROUP * group ≤ length words.now }
    ensures { result.now ≡ take WORDS_IN_GROUP (drop (WORDS_IN_GROUP * group) words.now) }
{
    let start = group * WORDS_IN_GROUP;
    let many = WORDS_IN_GROUP.min(words.len() - start);
    &words[start..start + many]
}

/// How many members stand in the words before each group. An error says that memory ran out.
pub(crate) fn counts_before<A: Allocator>(
    alloc: A,
    words: &[u64],
) -> Result<Vec<u32, A>, AllocError>
    requires { length words.now ≤ 1024 }
    ensures { IfOk result (λ before. AreRanks words.now before.items) }
{
    let groups = words.len().div_ceil(WORDS_IN_GROUP);
    let mut before = Vec::with_capacity(alloc, groups)?;
    let mut count = 0;
    for group in 0..groups {
        before.push_reserved(count);
        count += count_of_group(words_of_group(words, group));
    }
    Ok(before)
}

/// A place whose count is at most `k`, where that of the next place is more than `k`.
pub(crate) fn last_at_most(before: &[u32], k: u32) -> usize
    requires some { 0 < length before.now }
    requires first { slice_index before.now 0 ≤ k }
    ensures within { result < length before.now }
    ensures at_most { slice_index before.now result ≤ k }
    ensures next { result + 1 < length before.now → k < slice_index before.now (result + 1) }
{
    let mut low = 0;
    let mut high = before.len();
    while high - low > 1 {
        let middle = low + (high - low) / 2;
        if before[middle] <= k {
            low = middle;
        } else {
            high = middle;
        }
    }
    low
}

/// The place of the bit of a word that has `k` set bits below it.
pub(crate) fn select(word: u64, k: u32) -> u32
    requires { k < count_ones word }
    ensures within { result < 64 }
    ensures value { (first : ℕ) → slice_index_or (set_from first (bits_of 64 word)) k 0 ≡ first + result }
{
    let mut left = word;
    for _ in 0..k {
        left &= !(1u64 << left.trailing_zeros());
    }
    left.trailing_zeros()
}

/// The member that has `k` members below it in the words from `from` on.
pub(crate) fn nth_from(words: &[u64], from: usize, k: u32) -> u32
    requires some { rank words.now from + k < length (members_of words.now) }
    requires in_range { length words.now ≤ 1024 }
    ensures { slice_get (members_of words.now) (rank words.now from + k) ≡ Some result }
{
    let mut at = from;
    let mut left = k;
    let mut flags = flags_in(words[at]);
    while left >= flags {
        left -= flags;
        at += 1;
        flags = flags_in(words[at]);
    }
    at as u32 * 64 + select(words[at], left)
}
