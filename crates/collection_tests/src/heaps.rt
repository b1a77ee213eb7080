//! Heaps of any size, trees that workers share, and what a heap holds.
ghost use Rattle.std.specs.Prelude.{◌≡◌, is_some};
ghost use Rattle.std.specs.List.{list_all};
ghost use Rattle.model.specs.Graph.{root_at};

use heap::{Config, Heap, RootId, Sizes};
use heap_text::{Counted, Name, write_census, write_heap};
use std::alloc::{AllocError, Allocator, Global};
use std::test::Fail;

/// A heap of these sizes.
pub(crate) fn heap_of<A: Allocator + Clone>(alloc: A, sizes: Sizes) -> Result<Heap<A>, Fail> {
    let Ok(config) = Config::new(sizes) else {
        return Err(Fail::from("bad sizes"));
    };
    Ok(Heap::new(alloc, config)?)
}

/// So many objects of three fields and a word, which has its number.
fn add_objects<A: Allocator + Clone>(
    alloc: A,
    heap: &mut Heap<A>,
    objects: u32,
) -> Result<Vec<RootId, A>, Fail> {
    let mut roots = Vec::new(alloc);
    for number in 0..objects {
        let root = heap.allocate(0, 3, 1)?;
        heap.put(root, 0, number as u64)?;
        roots.push(root)?;
    }
    Ok(roots)
}

/// Lets a field of one object lead to another, where both are there.
fn link<A: Allocator + Clone>(
    heap: &mut Heap<A>,
    roots: &[RootId],
    from: u32,
    field: u64,
    to: u32,
) -> Result<(), Fail> {
    if let (Some(object), Some(target)) = (roots.get(from as usize), roots.get(to as usize)) {
        heap.store(*object, field, Some(*target))?;
    }
    Ok(())
}

/// Makes a tree of so many objects, whose nodes lead to others across it too.
fn link_all<A: Allocator + Clone>(
    heap: &mut Heap<A>,
    roots: &[RootId],
    objects: u32,
) -> Result<(), Fail> {
    for number in 1..objects {
        let above = number.wrapping_sub(1);
        link(heap, roots, above / 2, (above % 2) as u64, number)?;
        let across = number.wrapping_mul(7) % objects;
        link(heap, roots, number, 2, across)?;
    }
    Ok(())
}

/// Releases all of these roots but the first.
fn keep_first<A: Allocator + Clone>(heap: &mut Heap<A>, roots: &[RootId]) -> Result<RootId, Fail> {
    let Some((top, others)) = roots.split_first() else {
        return Err(Fail::from("no objects"));
    };
    for other in others {
        heap.release(*other)?;
    }
    Ok(*top)
}

/// A tree of so many objects, whose nodes lead to others across it too. Its root alone stays one of the heap.
pub(crate) fn add_tree<A: Allocator + Clone>(
    alloc: A,
    heap: &mut Heap<A>,
    objects: u32,
) -> Result<RootId, Fail> {
    let roots = add_objects(alloc, heap, objects)?;
    link_all(heap, &roots, objects)?;
    keep_first(heap, &roots)
}

/// The sizes of a heap of one generation with blocks of 64 words, `spare` of them beside a nursery for so many objects.
pub(crate) fn sizes_for(objects: u32, spare: u64) -> Sizes {
    let nursery = (objects as u64) / 12 + 1;
    Sizes {
        block_words: 64,
        blocks: nursery.saturating_add(spare),
        mutators: 1,
        nursery_blocks: nursery,
        generations: 1,
        steps: 1,
    }
}

/// A heap with room for such a tree.
pub(crate) fn wide_heap(alloc: Global, objects: u32, spare: u64) -> Result<Heap, Fail> {
    heap_of(alloc, sizes_for(objects, spare))
}

/// Names for these roots, all of one text.
fn named(alloc: Global, roots: &[RootId]) -> Result<Vec<Name<'static>>, AllocError> {
    let mut names = Vec::new(alloc);
    for root in roots {
        names.push(Name {
            text: b"root",
            root: *root,
        })?;
    }
    Ok(names)
}

/// Whether each name's root is one of the heap.
fn are_rooted<A: Allocator + Clone>(heap: &Heap<A>, names: &[Name<'_>]) -> bool
    ensures { result ≡ list_all (λ name. is_some (root_at heap.now.graph name.root.number)) names.now }
{
    names.iter().all(|name| heap.target(name.root).is_some())
}

/// The census, and the text of all that these roots lead to. `of_heap` is the heap's allocator.
pub(crate) fn seen<A: Allocator + Clone>(
    alloc: Global,
    of_heap: A,
    heap: &Heap<A>,
    roots: &[RootId],
) -> Result<Vec<u8>, Fail> {
    let names = named(alloc, roots)?;
    if !are_rooted(heap, &names) {
        return Err(Fail::from("no such root"));
    }
    let mut writer = Counted::new(Vec::new(alloc));
    write_census(alloc, &heap.census(), &mut writer)?;
    write_heap(of_heap, heap, &names, &mut writer)?;
    Ok(writer.inner)
}
