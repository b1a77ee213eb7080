//! What two passes of boxed cells know together.
ghost use Rattle.std.specs.Prelude.{◌≡◌, IfOk, length, map};
ghost use Rattle.forwarding.specs.Boxed.{note_cell, note_known, Joined, Joins};
ghost use Rattle.forwarding.specs.Noted.{IsStep, IsSoundNotes, place_of};
ghost use Rattle.forwarding.specs.Settled.{ones};
ghost use Rattle.std.specs.List.{sum_by};
ghost use Rattle.layout.specs.Place.{pointer_word};
ghost use Rattle.forwarding.specs.ShortWords.{long_word};

use crate::box_cells::bid::Bid;
use crate::box_cells::box_cells::BoxPass;
use crate::short_words::short_word_of;
use once_cell::race::Note;
use std::alloc::{AllocError, Allocator};

// What is known by a note or by another of the same cell. The two agree.
fn join(
    note: &mut Note<Bid>,
    other: &mut Note<Bid>,
    known: Option<Bid>,
    found: Option<Bid>,
) -> Option<Bid>
    requires cell { other.old.cell ≡ note.old.cell }
    requires known { note.old.known ≡ known }
    requires found { other.old.known ≡ found }
    ensures cell { note.new.cell ≡ note.old.cell }
    ensures other { other.new ≡ other.old }
    ensures told { note.new.known ≡ result }
    ensures joined { Joined known found result }
{
    let again = other.again();
    if known.is_some() {
        note.compare(again);
        known
    } else {
        *note = again;
        found
    }
}

// Joins the notes of each cell. They are in a `Vec`, since they take no bytes and slices of such are not covered.
fn join_all(
    notes: &mut Vec<Note<Bid>>,
    known: &mut [Option<Bid>],
    others: &mut Vec<Note<Bid>>,
    found: &[Option<Bid>],
)
    requires cells { map note_cell others.old.items ≡ map note_cell notes.old.items }
    requires known { map note_known notes.old.items ≡ known.old }
    requires found { map note_known others.old.items ≡ found.now }
    ensures cells { map note_cell notes.new.items ≡ map note_cell notes.old.items }
    ensures others { others.new.items ≡ others.old.items }
    ensures told { map note_known notes.new.items ≡ known.new }
    ensures joined { Joins known.old found.now known.new }
{
    for at in 0..notes.len() {
        let both = join(&mut notes[at], &mut others[at], known[at], found[at]);
        known[at] = both;
    }
}

impl BoxPass {
    // Learns what another pass of the same cells knows. The two agree.
    pub(crate) fn learn(&mut self, other: &mut BoxPass)
        requires { other.old.cells ≡ self.old.cells }
        ensures pass { IsStep self.old self.new }
        ensures won { self.new.won ≡ self.old.won }
        ensures other { other.new ≡ other.old }
        ensures joined { Joins self.old.known other.old.known self.new.known }
        ensures many { length self.new.known ≡ length self.new.cells }
        ensures sound { IsSoundNotes other.old.number other.old.known other.old.won }
    {
        join_all(
            &mut self.notes,
            &mut self.known,
            &mut other.notes,
            &other.known,
        );
    }

    // How many pairs the pass won.
    pub(crate) fn win_count(&self) -> usize
        ensures { result ≡ length self.now.won }
    {
        self.won.len()
    }

    // Of how many names the pass knows a place.
    pub(crate) fn known_count(&self) -> usize
        ensures value { result ≡ sum_by ones self.now.known }
    {
        let mut count = 0;
        for known in &self.known {
            if known.is_some() {
                count += 1;
            }
        }
        count
    }

    // The short word of the place that the pass knows for each name.
    pub(crate) fn words<B: Allocator>(&self, alloc: B) -> Result<Vec<u32, B>, AllocError>
        ensures { IfOk result (λ v. map long_word v.items ≡ map (λ known. pointer_word (place_of known)) self.now.known) }
    {
        let mut words = Vec::with_capacity(alloc, self.known.len())?;
        for known in &self.known {
            words.push_reserved(match known {
                Some(bid) => short_word_of(bid.place),
                None => 0,
            });
        }
        Ok(words)
    }
}
