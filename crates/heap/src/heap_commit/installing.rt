//! Blocks of copies that are put in their place, with the roots and pointers that lead to them.
ghost use Rattle.std.specs.Prelude.{◌≡◌, ℕ, map, length, nat_eq, All, OnOk, OnErr};
ghost use Rattle.std.specs.List.{IsDistinct};
ghost use Rattle.steps.specs.CollectionValue.{IsNumbering, young_names};
ghost use Rattle.heap_objects.specs.Objects.{graph_in};
ghost use Rattle.heap_objects.specs.Collecting.{CanReplace};
ghost use Rattle.heap.specs.Installed.{Installed, CanWrite};
ghost use Rattle.heap.specs.Moves.{field_write};
ghost use Rattle.heap.specs.RootView.{root_pair};
ghost use Rattle.heap.specs.Roots.{root_word, renamed_word};

use crate::heap_commit::moves::{RenamedField, RenamedRoot, write_fields};
use crate::heap_commit::root_writes::write_roots;
use crate::roots::Roots;
use block_pool::Block;
use forwarding::Forwards;
use heap_objects::HeapObjects;
use std::alloc::{AllocError, Allocator};
use steps::{Numbering, Spare};

/// Puts blocks in the place of the small objects of generation at most `g`, keeps of the large ones those that have a new
/// place, and has roots and pointers of the objects that stay lead where the copies stand. Where memory runs out nothing changes.
pub(crate) fn install<A: Allocator + Clone>(
    alloc: A,
    objects: &mut HeapObjects<A>,
    roots: &mut Roots<A>,
    g: u8,
    blocks: Vec<Block<A>, A>,
    numbering: &Numbering<A>,
    places: Forwards<A>,
    spare: Spare<A>,
    renamed: &[RenamedRoot],
    fields: &[RenamedField],
) -> Result<(), AllocError>
    requires blocks { CanReplace objects.old blocks.items }
    requires numbering { IsNumbering (graph_in objects.old) g numbering.now }
    requires count { length places ≡ length (young_names (graph_in objects.old) g) }
    requires fields { All (CanWrite objects.old g places) (map field_write fields.now) }
    requires once { IsDistinct nat_eq (map (λ r. r.number) renamed.now) }
    ensures objects { OnOk result
        (Installed objects.old g blocks.items places (map field_write fields.now) objects.new) }
    ensures roots { OnOk result ((n : ℕ) →
        root_word roots.new.slots n ≡ renamed_word (map root_pair renamed.now) n (root_word roots.old.slots n)) }
    ensures objects_as_before { OnErr result (objects.new ≡ objects.old) }
    ensures roots_as_before { OnErr result (roots.new ≡ roots.old) }
{
    objects.replace(alloc, g, blocks, numbering, places, spare)?;
    write_fields(objects, fields);
    write_roots(roots, renamed);
    Ok(())
}
