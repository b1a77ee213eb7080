//! Cells with one box for each name, which is set at most once.
ghost use Rattle.std.specs.Prelude.{◌≡◌, ◌<◌, IfOk, OnErr, All, AllPairs, length, map, replicate};
ghost use Rattle.std.specs.Option.{MatchOption};
ghost use Rattle.std.specs.declared.option.Option.TheVariants.{None, Some};
ghost use Rattle.once_cell.specs.Once.{cell_name, Agrees};
ghost use Rattle.forwarding.specs.Boxed.{note_cell, note_known, names_of};
ghost use Rattle.forwarding.specs.Learned.{Learns, RaceEnds, place_after};
ghost use Rattle.forwarding.specs.Noted.{IsPassOf, IsApart, IsStep, known_at, new_pass, new_passes};

use crate::box_cells::bid::Bid;
use crate::cells::Outcome;
use layout::Place;
use once_cell::race::{Note, OnceBox};
use std::alloc::{AllocError, Allocator, Global};
use std::marker::Model;

/// One box for each name, which is empty, or set for good to a place.
#[derive(Drop)]
pub struct BoxCells {
    cells: Vec<OnceBox<Bid>>,
    alloc: Global,
}

impl Model for BoxCells {
    ghost use Rattle.std.specs.Prelude.{◌<◌, ◌^◌, ℕ, List, length};
    ghost use Rattle.forwarding.specs.Boxed.{names_of};

    ghost Value = { List ℕ };

    ghost view = { λ c. names_of c.cells.items };

    ghost invariant = { λ c. length c.cells.items < 2 ^ 32 };
}

/// What one worker knows of the cells, and has won.
#[derive(Drop)]
pub struct BoxPass {
    pub(crate) number: usize,
    pub(crate) notes: Vec<Note<Bid>>,
    pub(crate) known: Vec<Option<Bid>>,
    pub(crate) won: Vec<(u32, Place)>,
}

impl Model for BoxPass {
    ghost use Rattle.std.specs.Prelude.{map, vec_capacity};
    ghost use Rattle.forwarding.specs.Noted.{NotedValue};
    ghost use Rattle.forwarding.specs.Boxed.{note_cell, IsNoted};

    ghost Value = { NotedValue };

    ghost view = { λ p. record { number = p.number; cells = map note_cell p.notes.items; known = p.known.items; won = p.won.items } };

    ghost invariant = { λ p. IsNoted p.number p.notes.items p.known.items p.won.items (vec_capacity p.won) };
}

// A note of each cell.
fn notes_of(alloc: Global, cells: &[OnceBox<Bid>]) -> Result<Vec<Note<Bid>>, AllocError>
    ensures cells { IfOk result (λ v. map note_cell v.items ≡ names_of cells.now) }
    ensures known { IfOk result (λ v. map note_known v.items ≡ replicate (length cells.now) None) }
{
    let mut notes = Vec::with_capacity(alloc, cells.len())?;
    for cell in cells {
        notes.push_reserved(cell.note());
    }
    Ok(notes)
}

// So many empty cells.
fn empty_cells(alloc: Global, count: u32) -> Result<Vec<OnceBox<Bid>>, AllocError>
    ensures { IfOk result (λ v. length v.items ≡ count) }
{
    let mut cells = Vec::with_capacity(alloc, count as usize)?;
    for _ in 0..count {
        cells.push_reserved(OnceBox::new(alloc));
    }
    Ok(cells)
}

// Sets the cell to the bid, unless it holds one already, which is then the answer.
fn offer(cell: &OnceBox<Bid>, note: &mut Note<Bid>, mine: Box<Bid>) -> Option<Bid>
    requires { note.old.cell ≡ cell_name cell.now }
    ensures cell { note.new.cell ≡ note.old.cell }
    ensures value { MatchOption result ((note.old.known ≡ None) × (note.new.known ≡ Some mine.value))
        (λ b. (note.new.known ≡ Some b) × Agrees note.old.known b) }
{
    if cell.set_as(mine, note).is_ok() {
        return None;
    }
    let Some(first) = cell.get_as(note) else {
        unreachable!()
    };
    Some(*first)
}

impl BoxCells {
    /// The number of cells.
    pub fn count(&self) -> u32
        ensures { result ≡ length self.now }
    {
        self.cells.len() as u32
    }

    // A pass that knows nothing, with room for each name.
    pub(crate) fn new_pass(&self, number: usize) -> Result<BoxPass, AllocError>
        ensures { IfOk result (λ p. p ≡ new_pass self.now number) }
    {
        Ok(BoxPass {
            number,
            notes: notes_of(self.alloc, &self.cells)?,
            known: vec![in self.alloc; None; self.cells.len()]?,
            won: Vec::with_capacity(self.alloc, self.cells.len())?,
        })
    }

    /// Empty cells for the names below `count`, and as many passes as are asked for, with room for each name, in a list of
    /// another allocator. An error says that memory ran out.
    pub fn new<B: Allocator>(
        alloc: Global,
        lists: B,
        count: u32,
        passes: usize,
    ) -> Result<(BoxCells, Vec<BoxPass, B>), AllocError>
        ensures cells { IfOk result (λ r. length r.0 ≡ count) }
        ensures passes { IfOk result (λ r. r.1.items ≡ new_passes r.0 passes) }
        ensures many { IfOk result (λ r. length r.1.items ≡ passes) }
        ensures fits { IfOk result (λ r. All (IsPassOf r.0) r.1.items) }
        ensures apart { IfOk result (λ r. AllPairs IsApart r.1.items) }
    {
        let cells = BoxCells {
            cells: empty_cells(alloc, count)?,
            alloc,
        };
        let mut made = Vec::with_capacity(lists, passes)?;
        for number in 0..passes {
            made.push_reserved(cells.new_pass(number)?);
        }
        Ok((cells, made))
    }

    /// The place of the name, where its cell shows one: one load. The pass then knows it. A pass that knows a place gets
    /// it again.
    pub fn look(&self, pass: &mut BoxPass, name: u32) -> Option<Place>
        requires pass { IsPassOf self.now pass.old }
        requires name { name < length self.now }
        ensures pass { IsStep pass.old pass.new }
        ensures known { Learns (known_at pass.old) (known_at pass.new) name result }
        ensures won { pass.new.won ≡ pass.old.won }
    {
        let at = name as usize;
        let found = self.cells[at].get_as(&mut pass.notes[at]).copied();
        pass.known[at] = found;
        found.map(|bid| bid.place)
    }

    /// Sets the name's cell to the place, unless it shows one. Won: the pass knows the place passed, and has won the
    /// pair; Lost: it knows the place that the cell shows. An error says that memory ran out, and changes nothing.
    pub fn race(&self, pass: &mut BoxPass, name: u32, place: Place) -> Result<Outcome, AllocError>
        requires pass { IsPassOf self.now pass.old }
        requires name { name < length self.now }
        ensures pass { IsStep pass.old pass.new }
        ensures known { IfOk result
            (λ o. Learns (known_at pass.old) (known_at pass.new) name (Some (place_after o place))) }
        ensures won { IfOk result (λ o. RaceEnds (known_at pass.old name) pass.old.won pass.new.won name place o) }
        ensures err { OnErr result (pass.new ≡ pass.old) }
    {
        let at = name as usize;
        let bid = Bid {
            place,
            pass: pass.number,
        };
        let mine = Box::new(self.alloc, bid)?;
        let lost = offer(&self.cells[at], &mut pass.notes[at], mine);
        pass.known[at] = Some(lost.unwrap_or(bid));
        match lost {
            None => {
                pass.won.push_reserved((name, place));
                Ok(Outcome::Won)
            }
            Some(first) => Ok(Outcome::Lost(first.place)),
        }
    }
}
