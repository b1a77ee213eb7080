//! Word cells as they are made, and what they answer in the end.
ghost use Rattle.std.specs.Prelude.{◌≡◌, ◌≢◌, ◌<◌, ◌≤◌, [], All, None, Err, length, slice_index_or, IfOk, IsOk, OnOk, vec_len, vec_capacity};
ghost use Rattle.forwarding.specs.Known.{known_in};
ghost use Rattle.forwarding.specs.Settled.{all_pairs, Agree, IsSettled};
ghost use Rattle.forwarding.specs.Words.{fresh_pass};

use crate::cell_memory::CellMemory;
use crate::cells::{Forwards, SettleError};
use crate::word_cells::closed::ClosedWords;
use crate::word_cells::plays::{Deal, Gather, Mind, Plan, Rule};
use crate::word_cells::word_cells::{WordCells, WordPass};
use atomic_table::{Seat, Table};
use std::alloc::{AllocError, Allocator};

/// One pass after another, until the seat has one part.
fn deal<A: Allocator>(
    table: &Table<(), Mind, Plan, Rule, A>,
    mut seat: Seat<(), Mind>,
    mut passes: Vec<WordPass, A>,
    count: usize,
) -> Vec<WordPass, A>
    requires seat { (seat.table_id ≡ table.now.shared.table_id) × (0 < table.now.shared.table_id.words) ×
        (seat.me.1 ≡ []) }
    requires parts { (seat.me.0.parts ≡ count) × (0 < count) × (seat.me.0.known ≡ []) × (seat.me.0.won ≡ []) }
    requires passes { (passes.items ≡ []) × (count ≤ vec_capacity passes) }
    ensures many { length result.items ≡ count }
    ensures fresh { All (λ p. p ≡ fresh_pass table.now.shared.table_id) result.items }
{
    for _ in 1..count {
        let next = table.shared.split_seat::<Deal>(&mut seat);
        passes.push_reserved(WordPass { seat: next });
    }
    passes.push_reserved(WordPass { seat });
    passes
}

/// All that the passes know and have won, in one seat.
fn gather<A: Allocator, B: Allocator>(
    table: &Table<(), Mind, Plan, Rule, A>,
    mut passes: Vec<WordPass, B>,
) -> Seat<(), Mind>
    requires some { 0 < vec_len passes }
    requires words { 0 < table.now.shared.table_id.words }
    requires passes { All (λ p. p.id ≡ table.now.shared.table_id) passes.items }
    ensures seat { (result.table_id ≡ table.now.shared.table_id) × (result.me.0.parts ≡ length passes.items) }
    ensures known { result.me.0.known ≡ all_pairs (λ p. p.known) passes.items }
    ensures won { result.me.0.won ≡ all_pairs (λ p. p.won) passes.items }
{
    let Some(last) = passes.pop() else {
        unreachable!()
    };
    let mut seat = last.into_seat();
    while let Some(pass) = passes.pop() {
        table
            .shared
            .join_seat::<Gather>(&mut seat, pass.into_seat());
    }
    seat
}

impl<A: Allocator> WordCells<A> {
    /// Cells with no place, and as many passes as are asked for. An error says that memory ran out.
    pub fn new(
        alloc: A,
        count: u32,
        passes: usize,
    ) -> Result<(WordCells<A>, Vec<WordPass, A>), AllocError>
    where
        A: Clone,
        requires { 0 < passes }
        ensures cells { IfOk result (λ r. (r.0.count ≡ count) × (r.0.passes ≡ passes)) }
        ensures many { IfOk result (λ r. length r.1.items ≡ passes) }
        ensures fresh { IfOk result (λ r. All (λ p. p ≡ fresh_pass r.0.id) r.1.items) }
    {
        let memory = CellMemory::none(alloc.clone()?);
        WordCells::within(alloc, memory, count, passes)
    }

    /// The same, laid out from the memory that is given, whatever stands in it; `Forwards::into_memory` gives it back, with
    /// nothing to be cleared. They ask for more where it is too little.
    pub fn within(
        alloc: A,
        memory: CellMemory<A>,
        count: u32,
        passes: usize,
    ) -> Result<(WordCells<A>, Vec<WordPass, A>), AllocError>
    where
        A: Clone,
        requires { 0 < passes }
        ensures cells { IfOk result (λ r. (r.0.count ≡ count) × (r.0.passes ≡ passes)) }
        ensures many { IfOk result (λ r. length r.1.items ≡ passes) }
        ensures fresh { IfOk result (λ r. All (λ p. p ≡ fresh_pass r.0.id) r.1.items) }
    {
        let plan = Plan { count, passes };
        let made = Vec::with_capacity(alloc.clone()?, passes)?;
        let zeros = memory.into_zeros(alloc.clone()?, count as usize + 1)?;
        let (table, seat) = Table::of_words(alloc, zeros.as_slice(), &plan)?;
        let made = deal(&table, seat, made, passes);
        let cells = WordCells { table, plan, zeros };
        Ok((cells, made))
    }

    /// The place of each name that was won, as the words show it where threads shared them. It takes the passes that `new`
    /// gave with these cells, each once: each name that has a place was won once, by one pass, and what the passes know is
    /// what they won. No error comes.
    pub fn settle<B: Allocator>(self, passes: Vec<WordPass, B>) -> Result<Forwards<A>, SettleError>
        requires passes { All (λ p. p.id ≡ self.id) passes.items }
        requires all { length passes.items ≡ self.passes }
        ensures ok { IsOk result }
        ensures settled { IfOk result
            (λ f. IsSettled (λ p. known_in p.known) (λ p. p.won) passes.items self.count
            (λ name. slice_index_or f name None)) }
        ensures many { IfOk result (λ f. length f ≡ self.count) }
        ensures agree { OnOk result (Agree (λ p. known_in p.known) passes.items) }
        ensures never_unsettled { result ≢ Err SettleError.Unsettled }
    {
        let WordCells { table, plan, zeros } = self;
        let seat = gather(&table, passes);
        let words = ClosedWords::of(table.close_with(seat), plan.count);
        Ok(Forwards::of_closed(words, zeros))
    }
}
