//! Memory that cells are laid out in.
ghost use Rattle.std.specs.Prelude.{◌≡◌, ◌≤◌, [], IfOk, OnOk, replicate, vec_capacity};
ghost use Rattle.forwarding.specs.CellMemoryValue.{long_room};

use std::alloc::{AllocError, Allocator, Global};
use std::marker::Model;

/// Words that are all 0, which word cells are copied from.
#[derive(Drop)]
pub(crate) struct Zeros<A: Allocator> {
    words: Vec<u64, A>,
}

impl<A: Allocator> Model for Zeros<A> {
    ghost use Rattle.std.specs.Prelude.{◌≡◌, length, replicate, vec_capacity};
    ghost use Rattle.forwarding.specs.CellMemoryValue.{ZerosValue};

    ghost Value = { ZerosValue };

    ghost view = { λ z. record { words = z.words.items; room = vec_capacity z.words } };

    ghost invariant = { λ z. z.words.items ≡ replicate (length z.words.items) 0 };
}

impl<A: Allocator> Zeros<A> {
    /// None, which grow by that allocator.
    fn none(alloc: A) -> Self
        ensures { result ≡ record { words = []; room = 0 } }
    {
        Zeros {
            words: Vec::new(alloc),
        }
    }

    /// Makes them so many. An error says that memory ran out.
    fn resize(&mut self, count: usize) -> Result<(), AllocError>
        ensures ok { OnOk result (self.new.words ≡ replicate count 0) }
        ensures room { self.old.room ≤ self.new.room }
    {
        self.words.resize(count, 0)
    }

    /// The words.
    pub(crate) fn as_slice(&self) -> &[u64]
        ensures { result.now ≡ self.now.words }
    {
        self.words.as_slice()
    }
}

/// What cells were laid out in.
#[derive(Drop)]
enum Lists<A: Allocator> {
    /// The short words of plain cells. What stands in them has no meaning.
    Short(Vec<u32, A>),
    /// What word cells were copied from.
    Zeros(Zeros<A>),
}

/// Memory that cells leave for the cells of a later collection. Cells of the same kind are laid out in it again, and those of
/// another ask for new memory. It is memory alone: contracts see for how much it has room, and not what stands in it.
#[derive(Drop)]
pub struct CellMemory<A: Allocator = Global> {
    lists: Lists<A>,
}

impl<A: Allocator> Model for CellMemory<A> {
    ghost use Rattle.forwarding.specs.CellMemoryValue.{CellMemoryValue};
    ghost use Rattle.forwarding.specs.MemoryLists.{memory_in};

    ghost Value = { CellMemoryValue };

    ghost view = { λ m. memory_in m.lists };
}

impl<A: Allocator> CellMemory<A> {
    /// No memory, which grows by that allocator.
    pub fn none(alloc: A) -> Self
        ensures { result ≡ record { short = 0; zeros = 0 } }
    {
        CellMemory::of(Vec::new(alloc))
    }

    /// The memory of these words, for plain cells.
    pub fn of(words: Vec<u32, A>) -> Self
        ensures { result ≡ record { short = vec_capacity words; zeros = 0 } }
    {
        CellMemory {
            lists: Lists::Short(words),
        }
    }

    /// The memory of these zeros, for word cells.
    pub(crate) fn of_zeros(zeros: Zeros<A>) -> Self
        ensures { result ≡ record { short = 0; zeros = zeros.room } }
    {
        CellMemory {
            lists: Lists::Zeros(zeros),
        }
    }

    /// For how many words of eight bytes there is room.
    pub fn capacity(&self) -> usize
        ensures { result ≡ long_room self.now }
    {
        match &self.lists {
            Lists::Short(words) => words.capacity() / 2,
            Lists::Zeros(zeros) => zeros.words.capacity(),
        }
    }

    /// Words with whatever stands in them, as plain cells left them, or else none, which grow by that allocator.
    pub(crate) fn into_words(self, alloc: A) -> Vec<u32, A>
        ensures { vec_capacity result ≡ self.short }
    {
        match self.lists {
            Lists::Short(words) => words,
            Lists::Zeros(_) => Vec::new(alloc),
        }
    }

    /// The zeros that word cells left, or else none, which grow by that allocator.
    fn zeros(self, alloc: A) -> Zeros<A>
        ensures { result.room ≡ self.zeros }
    {
        match self.lists {
            Lists::Short(_) => Zeros::none(alloc),
            Lists::Zeros(zeros) => zeros,
        }
    }

    /// So many zeros, for which it asks that allocator where no word cells left any. An error says that memory ran out.
    pub(crate) fn into_zeros(self, alloc: A, count: usize) -> Result<Zeros<A>, AllocError>
        ensures ok { IfOk result (λ zeros. zeros.words ≡ replicate count 0) }
        ensures room { IfOk result (λ zeros. self.zeros ≤ zeros.room) }
    {
        let mut zeros = self.zeros(alloc);
        zeros.resize(count)?;
        Ok(zeros)
    }
}
