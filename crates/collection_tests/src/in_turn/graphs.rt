//! Heaps with a graph that a seed draws, which has aged.
use crate::drawing::{Draws, Graph, Growth, grow};
use crate::heaps::heap_of;
use collector::collect_one;
use heap::{AllocateError, Heap, Sizes};
use std::alloc::Global;
use std::test::Fail;

/// Which graph is drawn, and the heap for it.
#[derive(Clone, Copy)]
pub(crate) struct Drawing {
    pub(crate) seed: u64,
    /// How many objects are made after the heap has aged.
    pub(crate) count: u32,
    /// How many blocks there are beside the nursery's.
    pub(crate) blocks: u64,
    /// How many of these blocks objects take that are no part of the graph.
    pub(crate) taken: u32,
}

/// A graph, and which generation is the oldest to collect.
#[derive(Drop)]
pub(crate) struct Drawn {
    pub(crate) graph: Graph,
    pub(crate) generation: u64,
}

/// The sizes of a heap of one to three generations, with a nursery of 8 blocks of 64 words.
fn drawn_sizes(generations: u32, steps: u32, blocks: u64) -> Sizes {
    Sizes {
        block_words: 64,
        blocks: blocks.saturating_add(8),
        mutators: 1,
        nursery_blocks: 8,
        generations: generations as u64,
        steps: steps as u64,
    }
}

/// So many objects of one mutator, of which few keep their roots.
fn growth_of(count: u32) -> Growth {
    Growth {
        count,
        mutators: 1,
        one_in: 6,
    }
}

/// Up to three times objects are made, and some generations collected.
fn age(alloc: Global, graph: &mut Graph, draws: &mut Draws, generations: u32) -> Result<(), Fail> {
    for _time in 0..draws.below(4) {
        let growth = growth_of(draws.below(20));
        grow(alloc, graph, draws, growth)?;
        let _report = collect_one(alloc, &mut graph.heap, draws.below(generations) as u64)?;
    }
    Ok(())
}

/// Takes so many blocks, each for a large object with a root of its own.
fn take_blocks(heap: &mut Heap, count: u32) -> Result<(), Fail> {
    for _block in 0..count {
        let _root = heap.allocate(0, 0, 60)?;
    }
    Ok(())
}

/// Fills a graph with cycles and shared objects, large ones and old ones, and takes blocks. Tells which generation is drawn to be
/// collected.
fn fill(
    alloc: Global,
    graph: &mut Graph,
    draws: &mut Draws,
    drawing: Drawing,
    generations: u32,
) -> Result<u64, Fail> {
    let generation = draws.below(generations) as u64;
    age(alloc, graph, draws, generations)?;
    grow(alloc, graph, draws, growth_of(drawing.count))?;
    take_blocks(&mut graph.heap, drawing.taken)?;
    Ok(generation)
}

/// The graph of that seed.
pub(crate) fn drawn_graph(alloc: Global, drawing: Drawing) -> Result<Drawn, Fail> {
    let mut draws = Draws::new(drawing.seed);
    let generations = draws.below(3).saturating_add(1);
    let steps = draws.below(2).saturating_add(1);
    let mut graph = Graph {
        heap: heap_of(alloc, drawn_sizes(generations, steps, drawing.blocks))?,
        roots: Vec::new(alloc),
    };
    let generation = fill(alloc, &mut graph, &mut draws, drawing, generations)?;
    Ok(Drawn { graph, generation })
}

/// How many blocks large objects can still take.
fn count_free(heap: &mut Heap) -> Result<u32, Fail> {
    for count in 0..100_000 {
        match heap.allocate(0, 0, 60) {
            Ok(_) => {}
            Err(AllocateError::HeapFull) => return Ok(count),
            Err(error) => return Err(Fail::from(error)),
        }
    }
    Err(Fail::from("no end of blocks"))
}

/// How many blocks are free beside such a graph.
pub(crate) fn free_beside(alloc: Global, drawing: Drawing) -> Result<u32, Fail> {
    let mut drawn = drawn_graph(alloc, drawing)?;
    count_free(&mut drawn.graph.heap)
}
