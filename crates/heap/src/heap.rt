//! The heap: its errors, and its calls on whole objects, roots and collections.
ghost use Rattle.std.specs.Prelude.{◌≡◌, ◌≢◌, ◌+◌, ◌/◌, ◌<◌, ◌≤◌, ◌↔◌, Some, None, false, IsTrue, IsSome, IsOk, IfOk, OnOk, OnErr};
ghost use Rattle.std.specs.Option.{option_map};
ghost use Rattle.model.specs.Graph.{root_at, without_root};
ghost use Rattle.model.specs.Commands.{is_too_big, is_large_size};
ghost use Rattle.layout.specs.Place.{place_word, small_word};
ghost use Rattle.steps.specs.HeapValue.{empty_heap, nursery_count};
ghost use Rattle.heap.specs.Found.{IsFound, IsFoundIn};
ghost use Rattle.heap.specs.IsHeap.{IsHeap};
ghost use Rattle.heap.specs.Commands.{Allocates, AllocatesSmall, AllocatesLarge, wanted_blocks, room_for, heap_census};
ghost use Rattle.std.specs.Prelude.{MatchOption, IsSomeAnd, IsNone, ◌⊎◌, slice_get, slice_set, slice_index, length, sum_by, Err};
ghost use Rattle.model.specs.Graph.{object_at};
ghost use Rattle.model.specs.Live.{IsYoung};
ghost use Rattle.model.specs.LiveCount.{LiveCount};
ghost use Rattle.layout.specs.ObjectRef.{raw_of};
ghost use Rattle.steps.specs.Words.{IsShownAs};
ghost use Rattle.steps.specs.ConfigRange.{IsInRange};
ghost use Rattle.steps.specs.StepPairs.{step_pair, stands_at};
ghost use Rattle.steps.specs.CollectionValue.{IsOpened, young_names};
ghost use Rattle.steps.specs.ReportValue.{all_won, renaming_of};
ghost use Rattle.steps.specs.SettledValue.{IsSettled};
ghost use Rattle.steps.specs.CollectedHeap.{CollectedHeap};

use crate::counts::step_counts;
use crate::found::{Found, FoundSmall};
use crate::opening::opened;
use crate::remembering::commit;
use crate::roots::Roots;
use heap_objects::HeapObjects;
use layout::{ObjectRef, Place, SmallPlace};
use remembered_set::Remembered;
use std::alloc::{AllocError, Allocator, Global};
use std::marker::Model;
use steps::{Census, Collection, Config, Report, RootId, Settled, Spare, StepId};
use thiserror::Error;

/// The most pointers, and the most plain words, that an object may have.
const MOST_FIELDS: u64 = 100_000;

/// Why a heap was not made.
#[derive(Clone, Copy, Debug, PartialEq, Eq, Error)]
pub enum MakeError {
    /// The nurseries want more blocks than there are.
    #[error("the nurseries want more blocks than there are")]
    HeapFull,
    /// Memory was refused.
    #[error("no memory")]
    NoMemory,
}

/// Why an object was not allocated. The heap is as before.
#[derive(Clone, Copy, Debug, PartialEq, Eq, Error)]
pub enum AllocateError {
    /// The mutator's number is not below the number of mutators.
    #[error("no such mutator")]
    NoMutator,
    /// More than 100,000 pointers or plain words.
    #[error("too big")]
    TooBig,
    /// The object is small, and the mutator's nursery has no room. A collection makes room.
    #[error("the nursery is full")]
    NurseryFull,
    /// The object is large, and fewer blocks are free than it takes. No collection is made for it.
    #[error("heap full")]
    HeapFull,
    /// Memory was refused.
    #[error("no memory")]
    NoMemory,
}

/// Why a collection was not opened.
#[derive(Clone, Copy, Debug, PartialEq, Eq, Error)]
pub enum OpenError {
    /// The generation's number is not below the number of generations.
    #[error("no such generation")]
    NoGeneration,
    /// Memory was refused.
    #[error("no memory")]
    NoMemory,
}

/// There is no such root.
#[derive(Clone, Copy, Debug, PartialEq, Eq, Error)]
#[error("no such root")]
pub struct NoRoot;

/// Why a plain word was not read or written. The heap is as before.
#[derive(Clone, Copy, Debug, PartialEq, Eq, Error)]
pub enum FieldError {
    /// No root has this number.
    #[error("no such root")]
    NoRoot,
    /// The object has no such field.
    #[error("no such field")]
    BadField,
}

/// Why a pointer was not stored. The heap is as before.
#[derive(Clone, Copy, Debug, PartialEq, Eq, Error)]
pub enum StoreError {
    /// No root of the object, or none of the value.
    #[error("no such root")]
    NoRoot,
    /// The object has no such pointer.
    #[error("no such field")]
    BadField,
    /// Memory was refused.
    #[error("no memory")]
    NoMemory,
}

/// Why no pointer was loaded. The heap is as before.
#[derive(Clone, Copy, Debug, PartialEq, Eq, Error)]
pub enum LoadError {
    /// No root has this number.
    #[error("no such root")]
    NoRoot,
    /// The object has no such pointer.
    #[error("no such field")]
    BadField,
    /// Memory was refused.
    #[error("no memory")]
    NoMemory,
}

/// Objects, roots that lead to them, and the objects that a collection of younger ones has to look at.
#[derive(Drop)]
pub struct Heap<A: Allocator = Global> {
    pub(crate) objects: HeapObjects<A>,
    pub(crate) roots: Roots<A>,
    // For each generation the objects that may have a pointer to a younger one.
    pub(crate) remembered: Remembered<A>,
}

impl<A: Allocator> Model for Heap<A> {
    ghost use Rattle.steps.specs.HeapValue.{HeapValue, heap_code};

    ghost Value = { HeapValue };

    ghost coded = { heap_code };

    ghost use Rattle.heap.specs.HeapView.{heap_with};
    ghost use Rattle.heap.specs.Whole.{IsWhole};

    ghost view = { λ h. heap_with h.objects h.roots.slots h.remembered };

    ghost invariant = { λ h. IsWhole (heap_with h.objects h.roots.slots h.remembered) };
}

impl<A: Allocator + Clone> Heap<A> {
    /// A heap with no object. Its first blocks are set aside for nurseries.
    pub fn new(alloc: A, config: Config) -> Result<Heap<A>, MakeError>
        ensures ok { IfOk result (λ heap. heap ≡ empty_heap config) }
        ensures full { (result ≡ Err MakeError.HeapFull) ↔ (config.blocks < nursery_count config) }
        ensures sound { IfOk result (λ heap. IsHeap heap) }
    {
        if config.blocks() < config.mutators() * config.nursery_blocks() {
            return Err(MakeError::HeapFull);
        }
        let Ok(own) = alloc.clone() else {
            return Err(MakeError::NoMemory);
        };
        match Heap::empty(own, alloc, config) {
            Ok(heap) => Ok(heap),
            Err(_) => Err(MakeError::NoMemory),
        }
    }

    /// The same where the nurseries have their blocks.
    fn empty(own: A, alloc: A, config: Config) -> Result<Heap<A>, AllocError>
        requires { nursery_count config ≤ config.blocks }
        ensures ok { IfOk result (λ heap. heap ≡ empty_heap config) }
        ensures sound { IfOk result (λ heap. IsHeap heap) }
    {
        let roots = Roots::new(own.clone()?)?;
        let remembered = Remembered::new(own, config.generations())?;
        let objects = HeapObjects::new(alloc, config)?;
        let _free = objects.free_count();
        Ok(Heap {
            objects,
            roots,
            remembered,
        })
    }

    /// A new object of a mutator, with so many nil pointers and zero words, and a new root to it. Where it takes more than a
    /// quarter of a block it is large, and stands in blocks of its own. It does not collect.
    pub fn allocate(
        &mut self,
        mutator: u64,
        pointers: u64,
        plain_words: u64,
    ) -> Result<RootId, AllocateError>
        ensures ok { IfOk result (λ root. Allocates self.old mutator pointers plain_words root.number self.new) }
        ensures no_mutator { (result ≡ Err AllocateError.NoMutator) ↔ (self.old.config.mutators ≤ mutator) }
        ensures too_big { (result ≡ Err AllocateError.TooBig)
            ↔ ((mutator < self.old.config.mutators) × IsTrue (is_too_big pointers plain_words)) }
        ensures full { (result ≡ Err AllocateError.NurseryFull)
            ↔ ((mutator < self.old.config.mutators) × (is_too_big pointers plain_words ≡ false) ×
            (is_large_size self.old.config (1 + pointers + plain_words) ≡ false)
            × (room_for self.old mutator (1 + pointers + plain_words) ≡ None)) }
        ensures heap_full { (result ≡ Err AllocateError.HeapFull)
            ↔ ((mutator < self.old.config.mutators) × (is_too_big pointers plain_words ≡ false) ×
            IsTrue (is_large_size self.old.config (1 + pointers + plain_words))
            × (length self.old.free < wanted_blocks self.old pointers plain_words)) }
        ensures err { OnErr result (self.new ≡ self.old) }
    {
        let config = self.objects.config();
        if mutator >= config.mutators() as u64 {
            return Err(AllocateError::NoMutator);
        }
        if pointers > MOST_FIELDS || plain_words > MOST_FIELDS {
            return Err(AllocateError::TooBig);
        }
        if 1 + pointers + plain_words > config.block_words() as u64 / 4 {
            return self.allocate_large(pointers as u32, plain_words as u32);
        }
        self.allocate_small(mutator as usize, pointers as u32, plain_words as u32)
    }

    /// The same for a small object and a mutator that there is.
    fn allocate_small(&mut self, mutator: usize, p: u32, q: u32) -> Result<RootId, AllocateError>
        requires mutator { mutator < self.old.config.mutators }
        requires small { 1 + p + q ≤ self.old.config.block_words / 4 }
        ensures ok { IfOk result (λ root. AllocatesSmall self.old mutator p q root.number self.new) }
        ensures full { (result ≡ Err AllocateError.NurseryFull) ↔ (room_for self.old mutator (1 + p + q) ≡ None) }
        ensures has_mutator { result ≢ Err AllocateError.NoMutator }
        ensures fits { result ≢ Err AllocateError.TooBig }
        ensures is_small { result ≢ Err AllocateError.HeapFull }
        ensures err { OnErr result (self.new ≡ self.old) }
    {
        if !self.objects.has_room(mutator, 1 + p as usize + q as usize) {
            return Err(AllocateError::NurseryFull);
        }
        if self.roots.reserve().is_err() {
            return Err(AllocateError::NoMemory);
        }
        match self.objects.allocate(mutator, p, q) {
            Some(place) => Ok(RootId {
                number: self.roots.insert_reserved(place),
            }),
            None => Err(AllocateError::NurseryFull),
        }
    }

    /// The same for a large object.
    fn allocate_large(&mut self, p: u32, q: u32) -> Result<RootId, AllocateError>
        requires pointers { p ≤ 100000 }
        requires plain { q ≤ 100000 }
        requires large { self.old.config.block_words / 4 < 1 + p + q }
        ensures ok { IfOk result (λ root. AllocatesLarge self.old p q root.number self.new) }
        ensures full { (result ≡ Err AllocateError.HeapFull) ↔ (length self.old.free < wanted_blocks self.old p q) }
        ensures has_mutator { result ≢ Err AllocateError.NoMutator }
        ensures fits { result ≢ Err AllocateError.TooBig }
        ensures is_large { result ≢ Err AllocateError.NurseryFull }
        ensures err { OnErr result (self.new ≡ self.old) }
    {
        if self.objects.free_count() < self.objects.wanted(p, q) {
            return Err(AllocateError::HeapFull);
        }
        if self.roots.reserve().is_err() {
            return Err(AllocateError::NoMemory);
        }
        match self.objects.allocate_large(p, q) {
            Ok(place) => Ok(RootId {
                number: self.roots.insert_reserved(place),
            }),
            Err(_) => Err(AllocateError::NoMemory),
        }
    }

    /// Gives up a root. Its object may stay alive by others.
    pub fn release(&mut self, root: RootId) -> Result<(), NoRoot>
        ensures known { IsOk result ↔ IsSome (root_at self.old.graph root.number) }
        ensures ok { OnOk result (self.new ≡ record self.old { graph = without_root self.old.graph root.number }) }
        ensures err { OnErr result (self.new ≡ self.old) }
    {
        let _objects = &self.objects;
        let Some(_place) = self.roots.remove(root.number) else {
            return Err(NoRoot);
        };
        Ok(())
    }

    /// Where the object of a root stands.
    pub fn target(&self, root: RootId) -> Option<Place>
        ensures { option_map place_word result ≡ root_at self.now.graph root.number }
    {
        self.roots.get(root.number)
    }

    /// How many objects there are of each kind.
    pub fn census(&self) -> Census
        ensures { result ≡ heap_census self.now }
    {
        let _free = self.objects.free_count();
        let steps = step_counts(&self.objects);
        Census::new(
            steps,
            self.objects.count_large(),
            self.roots.len() as u64,
            self.objects.count_remembered(),
        )
    }

    /// The sizes that the heap was made with.
    pub fn config(&self) -> Config
        ensures { result ≡ self.now.config }
    {
        self.objects.config()
    }

    /// The object at a place, where there is one.
    pub fn object(&self, place: Place) -> Option<ObjectRef<'_>>
        ensures { MatchOption result (object_at self.now.graph (place_word place) ≡ None)
            (λ object. IsSomeAnd (object_at self.now.graph (place_word place)) (λ o. IsShownAs o (raw_of object))) }
    {
        self.objects.object(place)
    }

    /// The generation and step of the object at a place, where there is one.
    pub fn step_of(&self, place: Place) -> Option<StepId>
        ensures { option_map step_pair result ≡ option_map stands_at (object_at self.now.graph (place_word place)) }
    {
        self.objects.step_of(place)
    }

    /// How many blocks' memory is kept for the next collection: at most as many as were in use after the last one, and a quarter
    /// more. It counts as neither free nor used.
    pub fn spare_blocks(&self) -> usize {
        self.objects.spare_blocks()
    }

    /// The memory that is kept for the next collection, for its workers.
    pub fn take_spare(&mut self) -> Spare<A>
        ensures { self.new ≡ self.old }
    {
        self.objects.take_spare()
    }

    /// Keeps the memory of a report's lists for the next collection, if it has room for no more than three times what they hold
    /// and 1,024 entries, and else gives it back: whoever has read a report hands it in, so that collections need not ask for as
    /// much memory again.
    pub fn reuse(&mut self, report: Report<A>)
        ensures { self.new ≡ self.old }
    {
        self.objects.keep_lists(report.workers);
    }

    /// Opens a collection of the generations 0 to `generation`. The heap stays as it is.
    pub fn open_collection(&self, alloc: A, generation: u64) -> Result<Collection<A>, OpenError>
        ensures ok { IfOk result (λ collection. IsOpened self.now generation collection) }
        ensures no_generation { (result ≡ Err OpenError.NoGeneration) ↔
            (self.now.config.shape.generations ≤ generation) }
        // What holds of every heap.
        ensures range { IsInRange self.now.config }
        ensures sound { IsHeap self.now }
    {
        let _free = self.objects.free_count();
        if generation >= self.objects.config().generations() as u64 {
            return Err(OpenError::NoGeneration);
        }
        match opened(
            alloc,
            &self.objects,
            &self.roots,
            &self.remembered,
            generation as u8,
        ) {
            Ok(collection) => Ok(collection),
            Err(_) => Err(OpenError::NoMemory),
        }
    }

    /// The number of an object in a collection that was opened on this heap as it is now.
    pub fn number_of(&self, collection: &Collection<A>, place: Place) -> u32
        requires opened { IsOpened self.now collection.now.generation collection.now }
        requires young { IsYoung self.now.graph collection.now.generation (place_word place) }
        ensures in_range { result < collection.now.cells }
        ensures number { slice_index (young_names self.now.graph collection.now.generation) result ≡ place_word place }
    {
        self.objects
            .number_of(collection.numbering(), collection.generation(), place)
    }

    /// The object at a place where there is one, with its generation and step, and with its number in a collection that was
    /// opened on this heap as it is now, where its generation is collected.
    #[inline(always)]
    pub fn find_there(&self, collection: &Collection<A>, place: Place) -> Found<'_>
        requires opened { IsOpened self.now collection.now.generation collection.now }
        requires there { IsSome (object_at self.now.graph (place_word place)) }
        ensures { IsFound self.now collection.now (place_word place) result }
    {
        let (object, at, number) = self
            .objects
            .find(collection.numbering(), collection.generation(), place);
        Found { object, at, number }
    }

    /// The same of any place. `None` says that there is no object.
    pub fn find(&self, collection: &Collection<A>, place: Place) -> Option<Found<'_>>
        requires opened { IsOpened self.now collection.now.generation collection.now }
        ensures { MatchOption result (object_at self.now.graph (place_word place) ≡ None)
            (λ found. IsFound self.now collection.now (place_word place) found) }
    {
        match self.objects.object(place) {
            Some(object) => {
                let (at, number) = self
                    .objects
                    .step_and_number(collection.numbering(), collection.generation(), place);
                Some(Found { object, at, number })
            }
            None => None,
        }
    }

    /// The block in which the small object at a place lies where there is one, with the object's generation and step, and with
    /// its number in a collection that was opened on this heap as it is now, where its generation is collected. It reads the
    /// object's header alone.
    #[inline(always)]
    pub fn find_small(&self, collection: &Collection<A>, at: SmallPlace) -> FoundSmall<'_, A>
        requires opened { IsOpened self.now collection.now.generation collection.now }
        requires there { IsSome (object_at self.now.graph (small_word at.block at.offset)) }
        ensures { IsFoundIn self.now collection.now (small_word at.block at.offset) at.offset result.block.now
            (step_pair result.at) result.number }
    {
        let (block, at, number) = self
            .objects
            .find_small(collection.numbering(), collection.generation(), at);
        FoundSmall { block, at, number }
    }

    /// Ends a collection: the heap is what the workers brought back. Where memory runs out the heap is as before.
    pub fn commit(&mut self, alloc: A, settled: Settled<A>) -> Result<Report<A>, AllocError>
        requires { IsSettled self.old settled.collection settled.places settled.blocks.items
            (all_won settled.workers.items) }
        ensures ok { IfOk result (λ _. CollectedHeap self.old settled.collection.generation
            (renaming_of (young_names self.old.graph settled.collection.generation) (all_won settled.workers.items))
            self.new) }
        ensures kept { IfOk result (λ report. LiveCount self.old.graph settled.collection.generation report.kept) }
        ensures won { IfOk result (λ report. report.kept ≡ sum_by (λ w. length w.won) settled.workers.items) }
        ensures freed { IfOk result (λ report. report.kept + report.freed
            ≡ length (young_names self.old.graph settled.collection.generation)) }
        ensures workers { IfOk result (λ report. report.workers ≡ settled.workers) }
        ensures deliveries { IfOk result (λ report. report.deliveries ≡ settled.deliveries) }
        ensures sound { IfOk result (λ _. IsHeap self.new) }
        ensures err { OnErr result (self.new ≡ self.old) }
    {
        commit(
            alloc,
            &mut self.objects,
            &mut self.roots,
            &mut self.remembered,
            settled,
        )
    }
}
