//! The words of cells that no thread shares any more.
ghost use Rattle.std.specs.Prelude.{◌≡◌, ◌<◌, ◌≤◌, Some, length, take, slice_get, slice_set};
ghost use Rattle.std.specs.Slots.{slots_items, slots_len, IsFull};

use atomic_table::Closed;
use std::alloc::Allocator;
use std::marker::Model;

/// The words of cells that no thread shares any more, one for each name, where they were when they were shared.
pub(crate) struct ClosedWords<A: Allocator> {
    closed: Closed<(), A>,
    count: u32,
}

impl<A: Allocator> Model for ClosedWords<A> {
    ghost use Rattle.std.specs.Prelude.{◌≡◌, ◌≤◌, ℕ, List, take};
    ghost use Rattle.std.specs.Slots.{slots_items, slots_len, IsFull};

    ghost Value = { List ℕ };

    ghost view = { λ c. take c.count (slots_items c.closed.words) };

    ghost invariant = { λ c. (c.count ≤ slots_len c.closed.words) × IsFull c.closed.words × (slots_len c.closed.slots ≡ 0) };
}

impl<A: Allocator> ClosedWords<A> {
    /// The first words of a closed table without slots.
    pub(crate) fn of(closed: Closed<(), A>, count: u32) -> Self
        requires words { (count ≤ slots_len closed.words) × IsFull closed.words }
        requires slots { slots_len closed.slots ≡ 0 }
        ensures { result ≡ take count (slots_items closed.words) }
    {
        ClosedWords { closed, count }
    }

    /// How many words there are.
    pub(crate) fn len(&self) -> usize
        ensures { result ≡ length self.now }
    {
        self.count as usize
    }

    /// The word of a name.
    pub(crate) fn word(&self, name: u32) -> u64
        requires { name < length self.now }
        ensures { slice_get self.now name ≡ Some result }
    {
        self.closed.word(name as usize)
    }

    /// Changes the word of a name.
    pub(crate) fn set(&mut self, name: u32, word: u64)
        requires { name < length self.old }
        ensures { self.new ≡ slice_set self.old name word }
    {
        self.closed.words.put(name as usize, word);
    }
}

impl<A: Allocator> Drop for ClosedWords<A> {
    fn drop(self) {
        let ClosedWords { closed, count: _ } = self;
        closed.free();
    }
}
