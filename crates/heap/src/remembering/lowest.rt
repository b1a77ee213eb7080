//! The generation in which a collection leaves the blocks that it brings, by their numbers: which pointers may lead to a
//! younger object.
ghost use Rattle.std.specs.Prelude.{◌≡◌, ◌≢◌, ℕ, ◌≤◌, ◌↔◌, map, min, All, IsTrue, IfOk, OnOk};
ghost use Rattle.layout.specs.declared.place.Place.{Place};
ghost use Rattle.layout.specs.Place.{place_word};
ghost use Rattle.block_pool.specs.BlockValue.{used_of};
ghost use Rattle.steps.specs.BlockObjects.{copies_of};
ghost use Rattle.steps.specs.Words.{target_of_word};
ghost use Rattle.heap.specs.Lowest.{AreLowest, lowest_in, MayBeYounger, MayLeadYounger};

use block_pool::Block;
use layout::Place;
use std::alloc::{AllocError, Allocator};

/// Stands for the numbers of blocks that the collection doesn't bring: nothing is older.
const NOT_BROUGHT: u8 = u8::MAX;

/// Whether the object that a word leads to may be younger than that generation.
#[inline(always)]
fn may_be_younger(lowest: &[u8], generation: u8, word: u64) -> bool
    ensures { IsTrue result ↔ ((place : Place) × (place_word place ≡ word)
        × MayBeYounger (lowest_in lowest.now) generation place) }
{
    match Place::from_word(word) {
        Some(Some(Place::Small(at))) => match lowest.get(at.block as usize) {
            Some(lowest) => *lowest < generation,
            None => false,
        },
        Some(Some(Place::Large(_))) => true,
        _ => false,
    }
}

/// Whether some pointer with these words may lead to an object younger than that generation.
pub(crate) fn may_lead_younger(words: &[u64], lowest: &[u8], generation: u8) -> bool
    ensures { IsTrue result ↔ MayLeadYounger (lowest_in lowest.now) generation (map target_of_word words.now) }
{
    for word in words {
        if may_be_younger(lowest, generation, *word) {
            return true;
        }
    }
    false
}

/// Has the block count for its number.
fn count_block<A: Allocator, B: Allocator>(
    lowest: &mut Vec<u8, B>,
    block: &Block<A>,
) -> Result<(), AllocError>
    ensures fits { used_of block.now ≤ 512 }
    ensures here { OnOk result (lowest_in lowest.new.items block.now.number ≡
        min (lowest_in lowest.old.items block.now.number) block.now.generation) }
    ensures others { OnOk result ((number : ℕ) → number ≢ block.now.number →
        lowest_in lowest.new.items number ≡ lowest_in lowest.old.items number) }
{
    let _words = block.words();
    let _used = block.used();
    let number = block.number() as usize;
    if number >= lowest.len() {
        lowest.resize(number + 1, NOT_BROUGHT)?;
    }
    lowest[number] = lowest[number].min(block.generation());
    Ok(())
}

/// The lowest generation of the blocks with each number.
pub(crate) fn lowest_by_block<A: Allocator, B: Allocator>(
    alloc: B,
    blocks: &[Block<A>],
) -> Result<Vec<u8, B>, AllocError>
    ensures lowest { IfOk result (λ lowest. AreLowest (lowest_in lowest.items) (copies_of blocks.now)) }
    ensures greatest { IfOk result (λ lowest. (number bound : ℕ) → bound ≤ 255 →
        All (λ b. b.number ≡ number → bound ≤ b.generation) blocks.now → bound ≤ lowest_in lowest.items number) }
{
    let mut lowest = Vec::new(alloc);
    for block in blocks {
        count_block(&mut lowest, block)?;
    }
    Ok(lowest)
}
