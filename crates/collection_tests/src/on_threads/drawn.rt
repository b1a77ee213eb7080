//! Heaps that a seed draws, and what their collections leave, one after another.
use crate::drawing::{Draws, Graph, Growth, grow};
use crate::heaps::{heap_of, seen};
use crate::ways::{Answer, Way, collected};
use heap::Sizes;
use std::alloc::AllocGlobal;
use std::sync::Wait;
use std::test::Fail;
use std::thread::Threads;

/// Which heap is drawn, and how often it is collected.
#[derive(Clone, Copy)]
pub(crate) struct Drawing {
    pub(crate) seed: u32,
    pub(crate) generations: u32,
    pub(crate) steps: u32,
    pub(crate) mutators: u32,
    /// Up to so many objects are made before each collection.
    pub(crate) most: u32,
    pub(crate) collections: u32,
}

/// What was seen of a heap.
#[derive(Drop, PartialEq)]
pub(crate) struct Told {
    /// What each collection answered.
    answers: Vec<Answer>,
    /// After each collection the census, and the text of all that the roots lead to.
    text: Vec<u8>,
    /// How many objects were remembered as the collections began.
    remembered: u64,
}

impl Told {
    /// Whether pointers of old objects to younger ones were there as some collection began.
    pub(crate) fn has_remembered(&self) -> bool {
        self.remembered > 0
    }
}

/// The sizes of a heap of blocks of 64 words, of which so many are there as sixteen workers can need.
fn sizes_of(drawing: Drawing) -> Sizes {
    Sizes {
        block_words: 64,
        blocks: 500,
        mutators: drawing.mutators as u64,
        nursery_blocks: 8,
        generations: drawing.generations as u64,
        steps: drawing.steps as u64,
    }
}

/// Up to so many objects as the drawing has.
fn growth_of(draws: &mut Draws, drawing: Drawing) -> Growth {
    Growth {
        count: draws.below(drawing.most).saturating_add(1),
        mutators: drawing.mutators,
        one_in: 4,
    }
}

/// Makes objects and collects, and adds what is seen. The first collection is of generation 0, the next of one more, and so
/// on; after one of all it is generation 0 again.
fn go_on<R: Threads + Wait + Sync + AllocGlobal>(
    rt: &R,
    graph: &mut Graph,
    draws: &mut Draws,
    drawing: Drawing,
    number: u32,
    way: Way,
    told: &mut Told,
) -> Result<(), Fail> {
    let growth = growth_of(draws, drawing);
    grow(rt.alloc(), graph, draws, growth)?;
    let remembered = graph.heap.census().remembered();
    told.remembered = told.remembered.saturating_add(remembered);
    let generation = number.checked_rem(drawing.generations).unwrap_or(0);
    let answer = collected(rt, rt.alloc(), &mut graph.heap, generation as u64, way)?;
    told.answers.push(answer)?;
    let mut all = seen(rt.alloc(), rt.alloc(), &graph.heap, &graph.roots)?;
    told.text.append(&mut all)?;
    Ok(())
}

/// What is seen of a graph that is empty at first, which is collected in this way.
fn told_in<R: Threads + Wait + Sync + AllocGlobal>(
    rt: &R,
    graph: &mut Graph,
    drawing: Drawing,
    way: Way,
) -> Result<Told, Fail> {
    let mut told = Told {
        answers: Vec::new(rt.alloc()),
        text: Vec::new(rt.alloc()),
        remembered: 0,
    };
    let mut draws = Draws::new(drawing.seed as u64);
    for number in 0..drawing.collections {
        go_on(rt, graph, &mut draws, drawing, number, way, &mut told)?;
    }
    Ok(told)
}

/// What is seen of the heap of a drawing.
pub(crate) fn told_of<R: Threads + Wait + Sync + AllocGlobal>(
    rt: &R,
    drawing: Drawing,
    way: Way,
) -> Result<Told, Fail> {
    let mut graph = Graph {
        heap: heap_of(rt.alloc(), sizes_of(drawing))?,
        roots: Vec::new(rt.alloc()),
    };
    told_in(rt, &mut graph, drawing, way)
}
