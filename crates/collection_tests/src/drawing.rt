//! Numbers and graphs that a seed draws.
use heap::{Heap, RootId};
use rand_core::utils::NextWord;
use rand_pcg::Pcg32;
use std::alloc::Global;
use std::test::Fail;

/// Numbers that a seed draws, one after another.
#[derive(Drop)]
pub(crate) struct Draws {
    words: Pcg32,
}

impl Draws {
    pub(crate) fn new(seed: u64) -> Self {
        Draws {
            words: Pcg32::new(seed, 54),
        }
    }

    /// The next number below `bound`, or 0 where that is 0.
    pub(crate) fn below(&mut self, bound: u32) -> u32 {
        self.words.next_word().checked_rem(bound).unwrap_or(0)
    }
}

/// A heap, and the roots that lead into its graph.
#[derive(Drop)]
pub(crate) struct Graph {
    pub(crate) heap: Heap,
    pub(crate) roots: Vec<RootId>,
}

/// How a graph grows.
#[derive(Clone, Copy)]
pub(crate) struct Growth {
    /// How many objects are made.
    pub(crate) count: u32,
    /// By how many mutators.
    pub(crate) mutators: u32,
    /// One root in so many stays.
    pub(crate) one_in: u32,
}

/// How many plain words an object has: one in eight is large.
fn plain_words(draws: &mut Draws) -> u32 {
    if draws.below(8) == 0 {
        return draws.below(100).saturating_add(20);
    }
    draws.below(4).saturating_add(1)
}

/// One of so many mutators. Where there is one alone, nothing is drawn.
fn mutator(draws: &mut Draws, mutators: u32) -> u64 {
    match mutators {
        1 => 0,
        _ => draws.below(mutators) as u64,
    }
}

/// A new object of three pointers and some words, the first of which marks it.
fn add_object(heap: &mut Heap, draws: &mut Draws, mutators: u32) -> Result<RootId, Fail> {
    let mutator = mutator(draws, mutators);
    let plain = plain_words(draws);
    let root = heap.allocate(mutator, 3, plain as u64)?;
    heap.put(root, 0, draws.below(1000) as u64)?;
    Ok(root)
}

fn add_objects(graph: &mut Graph, draws: &mut Draws, growth: Growth) -> Result<(), Fail> {
    for _object in 0..growth.count {
        let root = add_object(&mut graph.heap, draws, growth.mutators)?;
        graph.roots.push(root)?;
    }
    Ok(())
}

/// Lets fields of an object lead to some of these objects, itself among them.
fn link(
    heap: &mut Heap,
    draws: &mut Draws,
    object: RootId,
    objects: &[RootId],
) -> Result<(), Fail> {
    for field in 0..3 {
        let target = draws.below(u32::try_from(objects.len()).unwrap_or(0));
        if draws.below(4) > 0 {
            heap.store(object, field, objects.get(target as usize).copied())?;
        }
    }
    Ok(())
}

fn link_all(heap: &mut Heap, draws: &mut Draws, objects: &[RootId]) -> Result<(), Fail> {
    for object in objects {
        link(heap, draws, *object, objects)?;
    }
    Ok(())
}

/// Releases all but some of the roots, the first among those that stay.
fn release_most(
    alloc: Global,
    graph: &mut Graph,
    draws: &mut Draws,
    one_in: u32,
) -> Result<(), Fail> {
    let mut roots = Vec::new(alloc);
    for object in graph.roots.iter() {
        if roots.is_empty() || draws.below(one_in) == 0 {
            roots.push(*object)?;
        } else {
            graph.heap.release(*object)?;
        }
    }
    graph.roots = roots;
    Ok(())
}

/// New objects, linked with those that have roots, of which most lose theirs then.
pub(crate) fn grow(
    alloc: Global,
    graph: &mut Graph,
    draws: &mut Draws,
    growth: Growth,
) -> Result<(), Fail> {
    add_objects(graph, draws, growth)?;
    link_all(&mut graph.heap, draws, &graph.roots)?;
    release_most(alloc, graph, draws, growth.one_in)
}
