//! Plain cells as they are made, and what they answer in the end.
ghost use Rattle.std.specs.Prelude.{◌≡◌, ◌≢◌, ◌≤◌, ◌∷◌, vec_capacity, [], None, Err, All, length, map, replicate, slice_index_or, IsOk, IfOk, OnOk};
ghost use Rattle.std.specs.List.{AllPairs};
ghost use Rattle.forwarding.specs.Settled.{Agree, IsSettled};
ghost use Rattle.forwarding.specs.Plain.{IsFit, Differ, known_by, place_of, empty_cells, fresh_pass, fresh_passes};

use crate::cell_memory::CellMemory;
use crate::cells::{Forwards, SettleError};
use crate::plain_cells::minds::Empty;
use crate::plain_cells::plain_cells::PlainCells;
use crate::plain_cells::plain_pass::PlainPass;
use crate::plain_cells::remembered::Remembered;
use std::alloc::{AllocError, Allocator};

/// So many zeros, in the memory of these words as far as it goes. An error says that memory ran out.
fn zeros_in<A: Allocator>(mut words: Vec<u32, A>, count: usize) -> Result<Vec<u32, A>, AllocError>
    ensures zeros { IfOk result (λ zeros. zeros.items ≡ replicate count 0) }
    ensures room { IfOk result (λ zeros. vec_capacity words ≤ vec_capacity zeros) }
{
    words.clear();
    words.resize(count, 0)?;
    Ok(words)
}

impl<A: Allocator> PlainCells<A> {
    /// Cells that hold nothing, of so many passes, in the memory of these words as far as it goes.
    fn empty(words: Vec<u32, A>, count: u32, passes: usize) -> Result<PlainCells<A>, AllocError>
        ensures { IfOk result (λ cells. cells ≡ empty_cells count passes) }
    {
        let words = zeros_in(words, count as usize)?;
        let held = Remembered::of::<u32, Empty>(&count);
        Ok(PlainCells {
            words,
            passes,
            held,
        })
    }

    /// Cells that hold nothing, and as many passes as are asked for, numbered from 0. An error says that memory ran
    /// out.
    pub fn new(
        alloc: A,
        count: u32,
        passes: usize,
    ) -> Result<(PlainCells<A>, Vec<PlainPass, A>), AllocError>
    where
        A: Clone,
        ensures cells { IfOk result (λ r. r.0 ≡ empty_cells count passes) }
        ensures passes { IfOk result (λ r. r.1.items ≡ fresh_passes count passes passes) }

        // What follows for the passes.
        ensures fits { IfOk result (λ r. All (IsFit r.0) r.1.items) }
        ensures apart { IfOk result (λ r. AllPairs Differ r.1.items) }
        ensures many { IfOk result (λ r. length r.1.items ≡ passes) }
    {
        let mut made = Vec::with_capacity(alloc.clone()?, passes)?;
        for number in 0..passes {
            made.push_reserved(PlainPass::new(count, passes, number));
        }
        let cells = PlainCells::empty(Vec::new(alloc), count, passes)?;
        Ok((cells, made))
    }

    /// Cells that hold nothing, and one pass alone, for which no list is made. An error says that memory ran out.
    pub fn alone(alloc: A, count: u32) -> Result<(PlainCells<A>, PlainPass), AllocError>
        ensures cells { IfOk result (λ r. r.0 ≡ empty_cells count 1) }
        ensures pass { IfOk result (λ r. r.1 ≡ fresh_pass count 1 0) }

        // What follows for the pass.
        ensures fits { IfOk result (λ r. IsFit r.0 r.1) }
    {
        let cells = PlainCells::empty(Vec::new(alloc), count, 1)?;
        Ok((cells, PlainPass::new(count, 1, 0)))
    }

    /// The same in the memory that is given, whatever stands in it, with more by the allocator where it is too little.
    pub fn alone_within(
        alloc: A,
        memory: CellMemory<A>,
        count: u32,
    ) -> Result<(PlainCells<A>, PlainPass), AllocError>
        ensures cells { IfOk result (λ r. r.0 ≡ empty_cells count 1) }
        ensures pass { IfOk result (λ r. r.1 ≡ fresh_pass count 1 0) }

        // What follows for the pass.
        ensures fits { IfOk result (λ r. IsFit r.0 r.1) }
    {
        let cells = PlainCells::empty(memory.into_words(alloc), count, 1)?;
        Ok((cells, PlainPass::new(count, 1, 0)))
    }

    /// The place of each name that was won. It takes the passes that `new` gave with these cells, each once: each name
    /// that has a place was won once, by one pass, and what the passes know is what they won. It takes no memory, and no
    /// error comes.
    pub fn settle<B: Allocator>(self, passes: Vec<PlainPass, B>) -> Result<Forwards<A>, SettleError>
        requires fits { All (IsFit self) passes.items }
        requires apart { AllPairs Differ passes.items }
        requires all { length passes.items ≡ self.passes }
        ensures ok { IsOk result }
        ensures settled { IfOk result
            (λ f. IsSettled known_by (λ p. p.won) passes.items (length self.held)
            (λ name. slice_index_or f name None)) }
        ensures exact { IfOk result (λ f. f ≡ map place_of self.held) }
        ensures agree { OnOk result (Agree known_by passes.items) }
        ensures never_unsettled { result ≢ Err SettleError.Unsettled }
    {
        let _ = passes;
        Ok(Forwards::of(self.words))
    }

    /// As `settle`, with the pass that `alone` gave with these cells.
    pub fn settle_alone(self, pass: PlainPass) -> Forwards<A>
        requires fits { IsFit self pass }
        requires alone { self.passes ≡ 1 }
        ensures settled { IsSettled known_by (λ p. p.won) (pass ∷ []) (length self.held)
            (λ name. slice_index_or result name None) }
        ensures exact { result ≡ map place_of self.held }
        ensures agree { Agree known_by (pass ∷ []) }
    {
        let _ = pass;
        Forwards::of(self.words)
    }
}
