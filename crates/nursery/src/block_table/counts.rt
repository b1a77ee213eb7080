//! The objects of some of a heap's blocks, counted.
ghost use Rattle.std.specs.Prelude.{◌≡◌, ℕ, ◌<◌, ◌≤◌, ◌&&◌, ◌*◌, length, IfOk, OnOk, IfSome, None, sum_by, slice_index, slice_index_or, nat_eq, nat_le, is_some, true};
ghost use Rattle.std.specs.List.{IsDistinct};
ghost use Rattle.std.specs.FinMap.{values};
ghost use Rattle.model.specs.Census.{step_count};
ghost use Rattle.model.specs.Config.{Config};
ghost use Rattle.model.specs.Reached.{has};
ghost use Rattle.steps.specs.ConfigRange.{IsInRange};
ghost use Rattle.steps.specs.StepPairs.{step_pair};
ghost use Rattle.steps.specs.CensusView.{step_value};
ghost use Rattle.nursery.specs.Areas.{holds_young, is_flagged, AreAreas};
ghost use Rattle.nursery.specs.Counts.{HasCounted, IsYoungRun};
ghost use Rattle.nursery.specs.Table.{AreHeapBlocks, objects_map, slot_at, slot_len, slot_words, objects_before, young_slot, young_table, step_slot};

use crate::block_table::area_flags::AreaFlags;
use block_pool::Block;
use std::alloc::{AllocError, Allocator};
use steps::{StepCount, StepId};

/// How many objects of a generation and step the block holds, and how many words they take.
fn count_slot<A: Allocator>(slot: &Option<Block<A>>, at: StepId) -> (u64, u64)
    ensures objects { result.0 ≡ slot_len (step_slot (step_pair at) slot.now) }
    ensures few { result.0 ≤ 512 }
    ensures words { result.1 ≡ slot_words (step_slot (step_pair at) slot.now) }
    ensures small { result.1 ≤ 512 }
{
    match slot {
        Some(block) => {
            if block.generation() != at.generation || block.step() != at.step {
                return (0, 0);
            }
            let _words = block.words();
            (block.len() as u64, block.used() as u64)
        }
        None => (0, 0),
    }
}

/// The objects of a generation and step, and how many words they take.
pub fn count_step<A: Allocator>(table: &[Option<Block<A>>], at: StepId) -> StepCount
    requires short { length table.now ≤ 65535 }
    ensures { (config : Config) → IsInRange config → AreHeapBlocks config 0 table.now
        → step_value result ≡ step_count config.block_words (values (objects_map table.now)) (step_pair at) }
{
    let mut objects = 0;
    let mut words = 0;
    for slot in table {
        let (more_objects, more_words) = count_slot(slot, at);
        objects += more_objects;
        words += more_words;
    }
    StepCount {
        generation: at.generation as u32,
        step: at.step as u32,
        objects,
        words,
    }
}

/// How many objects the block holds, where there is one of generation at most `generation` that holds some.
fn young_len<A: Allocator>(slot: &Option<Block<A>>, generation: u8) -> Option<u32>
    ensures young { is_some result ≡ holds_young generation slot.now }
    ensures value { IfSome result (λ len. len ≡ slot_len (young_slot generation slot.now)) }
    ensures few { IfSome result (λ len. len ≤ 512) }
{
    match slot {
        Some(block) => {
            if block.generation() > generation || block.is_empty() {
                return None;
            }
            let _words = block.words();
            Some(block.len() as u32)
        }
        None => None,
    }
}

/// Counts the blocks of generation at most `generation` that follow those counted, up to the first that holds none of their
/// objects. `objects` is how many objects were counted before, and the result how many are counted then. An error says that
/// memory ran out.
fn count_run<A: Allocator, B: Allocator>(
    bases: &mut Vec<u32, B>,
    objects: u32,
    table: &[Option<Block<A>>],
    generation: u8,
) -> Result<u32, AllocError>
    requires short { length table.now ≤ 65535 }
    requires in_table { length bases.old.items ≤ length table.now }
    requires counted { HasCounted (young_table generation table.now) bases.old.items objects }
    requires few { objects ≤ length bases.old.items * 512 }
    ensures in_table { OnOk result (length bases.new.items ≤ length table.now) }
    ensures run { OnOk result (IsYoungRun generation table.now (length bases.old.items) (length bases.new.items)) }
    ensures counted { IfOk result (λ all. HasCounted (young_table generation table.now) bases.new.items all) }
    ensures few { IfOk result (λ all. all ≤ length bases.new.items * 512) }
{
    let mut objects = objects;
    for slot in &table[bases.len()..] {
        let Some(len) = young_len(slot, generation) else {
            break;
        };
        bases.push(objects)?;
        objects += len;
    }
    Ok(objects)
}

/// How many objects of generation at most `generation` the blocks before each one hold, up to the last that holds such an
/// object, and how many all hold.
pub fn bases<A: Allocator, B: Allocator>(
    alloc: B,
    table: &[Option<Block<A>>],
    areas: &AreaFlags<A>,
    generation: u8,
) -> Result<(Vec<u32, B>, u32), AllocError>
    requires short { length table.now ≤ 65535 }
    requires areas { AreAreas table.now areas.now }
    ensures len { IfOk result (λ r. length r.0.items ≤ length table.now) }
    ensures covers { IfOk result (λ r. (b : ℕ) → holds_young generation (slot_at table.now b) ≡ true →
        b < length r.0.items) }
    ensures bases { IfOk result (λ r. (b : ℕ) → b < length r.0.items →
        slice_index r.0.items b ≡ objects_before (young_table generation table.now) b) }
    ensures all { IfOk result (λ r. r.1 ≡ sum_by slot_len (young_table generation table.now)) }
{
    let mut bases = Vec::new(alloc);
    let mut objects = 0;
    while let Some(number) = areas.next_young(generation, bases.len()) {
        bases.resize(number, objects)?;
        objects = count_run(&mut bases, objects, table, generation)?;
    }
    Ok((bases, objects))
}

/// The numbers of the blocks that hold objects of generation at most `generation`.
pub fn young_blocks<A: Allocator, B: Allocator>(
    alloc: B,
    areas: &AreaFlags<A>,
    generation: u8,
) -> Result<Vec<u32, B>, AllocError>
    requires short { (n : ℕ) → is_flagged areas.now generation n ≡ true → n < 65535 }
    ensures numbers { IfOk result (λ numbers. (n : ℕ) → has numbers.items n ≡ is_flagged areas.now generation n) }
    ensures once { IfOk result (λ numbers. IsDistinct nat_eq numbers.items) }
{
    let mut numbers = Vec::new(alloc);
    let mut next = 0;
    while let Some(number) = areas.next_young(generation, next) {
        numbers.push(number as u32)?;
        next = number + 1;
    }
    Ok(numbers)
}
