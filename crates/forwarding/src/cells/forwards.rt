//! What settling answers.
ghost use Rattle.std.specs.Prelude.{◌≡◌, ◌<◌, ◌≤◌, ◌+◌, Some, None, length, map, slice_get, slice_index_or, slice_set};
ghost use Rattle.forwarding.specs.Forwards.{shown_place};
ghost use Rattle.forwarding.specs.ShownWords.{words_in, IsRoomy};
ghost use Rattle.forwarding.specs.ShortWords.{long_word};
ghost use Rattle.layout.specs.Place.{place_word};

use crate::cell_memory::{CellMemory, Zeros};
use crate::short_words::{long_word_of, short_word_of};
use crate::word_cells::ClosedWords;
use layout::Place;
use std::alloc::{Allocator, Global};
use std::marker::Model;
use thiserror::Error;

/// Why cells were not settled.
#[derive(Clone, Copy, Debug, PartialEq, Eq, Error)]
pub enum SettleError {
    /// A pass knows a place that no pass won.
    #[error("a place is known that no pass won")]
    Unsettled,
    /// Memory ran out.
    #[error("no memory")]
    NoMemory,
}

/// Where the words of the names lie.
#[derive(Drop)]
pub(crate) enum Words<A: Allocator> {
    /// Short words.
    Listed(Vec<u32, A>),
    /// Where threads shared them, with zeros for cells to come.
    Closed(ClosedWords<A>, Zeros<A>),
}

/// The place of each name that was won: its word by number, and 0 for each other name.
#[derive(Drop)]
pub struct Forwards<A: Allocator = Global> {
    words: Words<A>,
}

impl<A: Allocator> Model for Forwards<A> {
    ghost use Rattle.std.specs.Prelude.{List, Option, map};
    ghost use Rattle.layout.specs.declared.place.Place.{Place as At};
    ghost use Rattle.forwarding.specs.Forwards.{shown_place};

    ghost Value = { List (Option At) };

    ghost use Rattle.forwarding.specs.ShownWords.{words_in, IsRoomy};

    ghost view = { λ f. map shown_place (words_in f.words) };

    ghost invariant = { λ f. IsRoomy f.words };
}

impl<A: Allocator> Words<A> {
    /// How many words there are.
    fn len(&self) -> usize
        ensures { result ≡ length (words_in self.now) }
    {
        match self {
            Words::Listed(words) => words.len(),
            Words::Closed(words, _) => words.len(),
        }
    }

    /// The word of the name.
    fn get(&self, name: u32) -> u64
        requires { name < length (words_in self.now) }
        ensures { slice_get (words_in self.now) name ≡ Some result }
    {
        match self {
            Words::Listed(words) => long_word_of(words[name as usize]),
            Words::Closed(words, _) => words.word(name),
        }
    }

    /// Gives the name the word of the place.
    fn set(&mut self, name: u32, place: Place)
        requires { name < length (words_in self.old) }
        ensures set { words_in self.new ≡ slice_set (words_in self.old) name (place_word place) }
        ensures roomy { IsRoomy self.old → IsRoomy self.new }
    {
        match self {
            Words::Listed(words) => words[name as usize] = short_word_of(place),
            Words::Closed(words, _) => words.set(name, place.to_word()),
        }
    }
}

impl<A: Allocator> Forwards<A> {
    /// The answer that gives each name the place whose short word has its number. It takes no memory.
    pub(crate) fn of(words: Vec<u32, A>) -> Self
        ensures { result ≡ map shown_place (map long_word words.items) }
    {
        Forwards {
            words: Words::Listed(words),
        }
    }

    /// The same of the words that threads shared. It keeps zeros for cells to come.
    pub(crate) fn of_closed(words: ClosedWords<A>, zeros: Zeros<A>) -> Self
        requires { length words ≤ zeros.room }
        ensures { result ≡ map shown_place words }
    {
        Forwards {
            words: Words::Closed(words, zeros),
        }
    }

    /// How many names there are.
    pub fn len(&self) -> usize
        ensures { result ≡ length self.now }
    {
        self.words.len()
    }

    /// The place of the name, or none where nobody won it. No number past the last name has one.
    pub fn place(&self, name: u32) -> Option<Place>
        ensures { result ≡ slice_index_or self.now name None }
    {
        if name as usize >= self.words.len() {
            return None;
        }
        Place::from_word(self.words.get(name)).flatten()
    }

    /// Gives the name this place.
    pub fn set(&mut self, name: u32, place: Place)
        requires { name < length self.old }
        ensures { self.new ≡ slice_set self.old name (Some place) }
    {
        self.words.set(name, place);
    }

    /// The memory of the cells, for cells to come: as many, of the same kind.
    pub fn into_memory(self) -> CellMemory<A>
        ensures { length self ≤ result.short + result.zeros }
    {
        match self.words {
            Words::Listed(words) => CellMemory::of(words),
            Words::Closed(_, zeros) => CellMemory::of_zeros(zeros),
        }
    }
}
