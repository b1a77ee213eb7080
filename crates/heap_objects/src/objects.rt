//! The objects of a heap, small and large, and its blocks.
ghost use Rattle.std.specs.Prelude.{◌≡◌, ℕ, ◌+◌, ◌/◌, ◌<◌, ◌≤◌, ◌↔◌, ◌++◌, false, Some, None, Err, map, length, count_by, filter, sum_by, IsTrue, IsSome, IsSomeAnd, IfOk, IfSome, IfNone, OnOk, OnErr, MatchOption, slice_set};
ghost use Rattle.std.specs.FinMap.{values, get, insert};
ghost use Rattle.std.specs.Option.{option_map};
ghost use Rattle.model.specs.Graph.{Object, IsClosed, with_pointer, size_of, is_large};
ghost use Rattle.model.specs.Census.{step_count, points_younger};
ghost use Rattle.model.specs.Live.{IsYoung};
ghost use Rattle.layout.specs.Place.{place_word, small_word, large_word};
ghost use Rattle.layout.specs.ObjectRef.{raw_of};
ghost use Rattle.steps.specs.ConfigRange.{IsInRange};
ghost use Rattle.steps.specs.StepPairs.{step_pair, stands_at};
ghost use Rattle.steps.specs.HeapValue.{nursery_count};
ghost use Rattle.steps.specs.Remembered.{is_holder};
ghost use Rattle.steps.specs.Words.{IsShownAs, LiesIn};
ghost use Rattle.steps.specs.CensusView.{step_value};
ghost use Rattle.steps.specs.SlotView.{slot_value};
ghost use Rattle.steps.specs.CollectionValue.{IsNumbering, young_names, field_slot_of};
ghost use Rattle.heap_objects.specs.HeapGraph.{slots_at};
ghost use Rattle.heap_objects.specs.Objects.{AllocatesSmall, AllocatesLarge, wanted, empty_objects, room_in, graph_in, heap_in};
ghost use Rattle.heap_objects.specs.Sound.{AreObjects};
ghost use Rattle.heap_objects.specs.Collecting.{IsNumbered, CanReplace, IsReplaced, NoLargeFrom, IsNextLarge};

use crate::heap_graph::{count_remembered, is_holder, push_slots_of};
use crate::heap_space::Space;
use crate::large::{count_large, large_numbers};
use crate::renewing::renew;
use block_pool::{Block, GrantError, RankedSet};
use forwarding::Forwards;
use large_objects::LargeTable;
use layout::{LargeNumber, ObjectRef, Place, SmallPlace, word_of};
use std::alloc::{AllocError, Allocator, Global};
use std::marker::Model;
use steps::{Config, LargeCount, Numbering, Slot, Spare, StepCount, StepId, WorkerReport};

/// The objects of a heap. Small ones stand in blocks, one after the other. Each large one has blocks of its own, and never
/// moves.
#[derive(Drop)]
pub struct HeapObjects<A: Allocator = Global> {
    alloc: A,
    space: Space<A>,
    large: LargeTable<A>,
}

impl<A: Allocator> Model for HeapObjects<A> {
    ghost use Rattle.heap_objects.specs.Objects.{ObjectsValue, objects_code, objects_of};
    ghost use Rattle.heap_objects.specs.Inside.{AreApart};

    ghost Value = { ObjectsValue };

    ghost coded = { objects_code };

    ghost view = { λ o. objects_of o.space o.large };

    ghost invariant = { λ o. AreApart o.space o.large };
}

impl<A: Allocator + Clone> HeapObjects<A> {
    /// No object. The first blocks are set aside for the nurseries.
    pub fn new(alloc: A, config: Config) -> Result<HeapObjects<A>, AllocError>
        requires { nursery_count config ≤ config.blocks }
        ensures { IfOk result (λ objects. objects ≡ empty_objects config) }
    {
        let space = Space::new(alloc.clone()?, config)?;
        let large = LargeTable::new(alloc.clone()?)?;
        let _numbers = large.len();
        let _free = space.free_count();
        Ok(HeapObjects {
            alloc,
            space,
            large,
        })
    }

    /// Whether a mutator's nursery has room for an object of `size` words, at most a quarter of a block.
    pub fn has_room(&self, mutator: usize, size: usize) -> bool
        requires mutator { mutator < self.now.config.mutators }
        requires small { size ≤ self.now.config.block_words / 4 }
        ensures { IsTrue result ↔ IsSome (room_in self.now mutator size) }
    {
        self.space.has_room(mutator, size)
    }

    /// Puts a new small object into a mutator's nursery. `None` says that there is no room.
    pub fn allocate(&mut self, mutator: usize, pointers: u32, plain_words: u32) -> Option<Place>
        requires mutator { mutator < self.old.config.mutators }
        requires small { 1 + pointers + plain_words ≤ self.old.config.block_words / 4 }
        ensures room { IsSome result ↔ IsSome (room_in self.old mutator (1 + pointers + plain_words)) }
        ensures some { IfSome result
            (λ place. AllocatesSmall self.old mutator pointers plain_words (place_word place) self.new) }
        ensures none { IfNone result (self.new ≡ self.old) }
    {
        let place = self.space.allocate(mutator, pointers, plain_words);
        let _free = self.space.free_count();
        place
    }

    /// How many blocks a large object with so many pointers and plain words takes.
    pub fn wanted(&self, pointers: u32, plain_words: u32) -> usize
        ensures { result ≡ wanted self.now.config pointers plain_words }
    {
        let words = self.space.config().block_words();
        (pointers as usize + plain_words as usize + words) / words
    }

    /// Makes a new large object in the free blocks with the lowest numbers, as many as hold it. `HeapFull` says that fewer are
    /// free. `NoMemory` says that memory ran out.
    pub fn allocate_large(&mut self, pointers: u32, plain_words: u32) -> Result<Place, GrantError>
        requires pointers { pointers ≤ 100000 }
        requires plain { plain_words ≤ 100000 }
        requires large { self.old.config.block_words / 4 < 1 + pointers + plain_words }
        ensures ok { IfOk result (λ place. AllocatesLarge self.old pointers plain_words (place_word place) self.new) }
        ensures full { (result ≡ Err GrantError.HeapFull) ↔
            (length self.old.free < wanted self.old.config pointers plain_words) }
        ensures err { OnErr result (self.new ≡ self.old) }
    {
        if self.space.free_count() < self.wanted(pointers, plain_words) {
            return Err(GrantError::HeapFull);
        }
        let Ok(alloc) = self.alloc.clone() else {
            return Err(GrantError::NoMemory);
        };
        let number = self
            .space
            .add_large(alloc, &mut self.large, pointers, plain_words)?;
        let _free = self.space.free_count();
        let _numbers = self.large.len();
        Ok(Place::Large(number))
    }

    /// The object at a place, where there is one.
    pub fn object(&self, place: Place) -> Option<ObjectRef<'_>>
        ensures { MatchOption result (get self.now.objects (place_word place) ≡ None)
            (λ object. IsSomeAnd (get self.now.objects (place_word place)) (λ o. IsShownAs o (raw_of object))) }
    {
        match place {
            Place::Small(_) => self.space.object(place),
            Place::Large(number) => self.large.get(number),
        }
    }

    /// The generation and step of the object at a place, where there is one.
    pub fn step_of(&self, place: Place) -> Option<StepId>
        ensures { option_map step_pair result ≡ option_map stands_at (get self.now.objects (place_word place)) }
    {
        match place {
            Place::Small(_) => self.space.step_of(place),
            Place::Large(number) => match self.large.step_of(number) {
                Some((generation, step)) => Some(StepId { generation, step }),
                None => None,
            },
        }
    }

    /// How many pointers the object at a place has.
    pub fn pointer_count(&self, place: Place) -> u32
        requires { IsSome (get self.now.objects (place_word place)) }
        ensures { (o : Object) → get self.now.objects (place_word place) ≡ Some o → result ≡ length o.pointers }
    {
        match place {
            Place::Small(_) => self.space.pointer_count(place),
            Place::Large(number) => match self.large.get(number) {
                Some(object) => object.header.pointers,
                None => 0,
            },
        }
    }

    /// How many plain words the object at a place has.
    pub fn plain_count(&self, place: Place) -> u32
        requires { IsSome (get self.now.objects (place_word place)) }
        ensures { (o : Object) → get self.now.objects (place_word place) ≡ Some o → result ≡ length o.plain }
    {
        match place {
            Place::Small(_) => self.space.plain_count(place),
            Place::Large(number) => match self.large.get(number) {
                Some(object) => object.header.plain,
                None => 0,
            },
        }
    }

    /// Changes pointer `i` of the object at a place.
    pub fn set_pointer(&mut self, place: Place, i: usize, target: Option<Place>)
        requires { IsSomeAnd (get self.old.objects (place_word place)) (λ o. i < length o.pointers) }
        ensures { (o : Object) → get self.old.objects (place_word place) ≡ Some o
            → self.new ≡ record self.old {
              objects = insert self.old.objects (place_word place)
                  (with_pointer o i (option_map place_word target));
            } }
    {
        match place {
            Place::Small(_) => {
                self.space.set_pointer(place, i, target);
                let _free = self.space.free_count();
            }
            Place::Large(number) => self.large.set_pointer(number, i, word_of(target)),
        }
    }

    /// Changes plain word `i` of the object at a place.
    pub fn set_plain(&mut self, place: Place, i: usize, word: u64)
        requires { IsSomeAnd (get self.old.objects (place_word place)) (λ o. i < length o.plain) }
        ensures { (o : Object) → get self.old.objects (place_word place) ≡ Some o
            → self.new ≡ record self.old {
              objects = insert self.old.objects (place_word place)
                  (record o { plain = slice_set o.plain i word });
            } }
    {
        match place {
            Place::Small(_) => {
                self.space.set_plain(place, i, word);
                let _free = self.space.free_count();
            }
            Place::Large(number) => self.large.set_plain(number, i, word),
        }
    }

    /// How many small objects stand at a generation and step, and how many words they take.
    pub fn count(&self, at: StepId) -> StepCount
        ensures { step_value result ≡ step_count self.now.config.block_words (values self.now.objects) (step_pair at) }
    {
        self.space.count(at)
    }

    /// How many large objects there are, and how many words they take.
    pub fn count_large(&self) -> LargeCount
        ensures objects { result.objects ≡
            length (filter (is_large self.now.config.block_words) (values self.now.objects)) }
        ensures words { result.words ≡
            sum_by size_of (filter (is_large self.now.config.block_words) (values self.now.objects)) }
    {
        count_large(&self.large)
    }

    /// How many objects have a pointer to an object of a younger generation.
    pub fn count_remembered(&self) -> u64
        requires { IsClosed (graph_in self.now) }
        ensures { result ≡ count_by (points_younger (get self.now.objects)) (values self.now.objects) }
    {
        count_remembered(self.space.table(), &self.large)
    }

    /// Puts the pointers of the object of generation `holder_generation` at a place, where there is one, at the end of the slots, those
    /// that lead to objects of generation at most `generation`.
    pub fn push_slots_of<B: Allocator>(
        &self,
        slots: &mut Vec<Slot, B>,
        generation: u8,
        holder_generation: u8,
        place: Place,
    ) -> Result<(), AllocError>
        requires { IsClosed (graph_in self.now) }
        ensures { OnOk result (map slot_value slots.new.items ≡ map slot_value slots.old.items
            ++ map field_slot_of (slots_at (graph_in self.now) generation holder_generation (place_word place))) }
    {
        push_slots_of(
            slots,
            self.space.table(),
            &self.large,
            generation,
            holder_generation,
            place,
        )
    }

    /// Whether the object at a place is of generation `holder_generation` and has a pointer to an object of a younger one.
    pub fn is_holder(&self, holder_generation: u8, place: Place) -> bool
        requires { IsClosed (graph_in self.now) }
        ensures { result ≡ is_holder (graph_in self.now) holder_generation (place_word place) }
    {
        is_holder(self.space.table(), &self.large, holder_generation, place)
    }

    /// The lowest number of a large object, from this one on. None says that there is none from there on.
    pub fn next_large(&self, from: usize) -> Option<LargeNumber>
        ensures { MatchOption result (NoLargeFrom self.now from) (λ of. IsNextLarge self.now from of.number) }
    {
        self.large.next_from(from)
    }

    /// How the objects of generation at most `generation` are numbered, and how many such objects there are.
    pub fn numbering(&self, alloc: A, generation: u8) -> Result<(Numbering<A>, u32), AllocError>
        ensures numbering { IfOk result (λ r. IsNumbering (graph_in self.now) generation r.0) }
        ensures all { IfOk result (λ r. r.1 ≡ length (young_names (graph_in self.now) generation)) }
    {
        let (blocks, small) = self.space.bases(alloc.clone()?, generation)?;
        let (large, all) = large_numbers(alloc, &self.large, generation, small)?;
        Ok((Numbering::new(blocks, large), all))
    }

    /// The number of an object of generation at most `generation`.
    pub fn number_of(&self, numbering: &Numbering<A>, generation: u8, place: Place) -> u32
        requires numbering { IsNumbering (graph_in self.now) generation numbering.now }
        requires young { IsYoung (graph_in self.now) generation (place_word place) }
        ensures { IsNumbered self.now generation (place_word place) result }
    {
        match place {
            Place::Small(at) => self.space.number_of(numbering.blocks(), generation, at),
            Place::Large(number) => numbering.large()[number.number as usize],
        }
    }

    /// The large object with a number, its generation and step, and its number among those of generation at most `g`.
    fn find_large(
        &self,
        numbering: &Numbering<A>,
        g: u8,
        number: LargeNumber,
    ) -> (ObjectRef<'_>, StepId, Option<u32>)
        requires numbering { IsNumbering (graph_in self.now) g numbering.now }
        requires there { IsSome (get self.now.objects (large_word number.number)) }
        ensures object { IsSomeAnd (get self.now.objects (large_word number.number))
            (λ o. IsShownAs o (raw_of result.0)) }
        ensures step { Some (step_pair result.1) ≡
            option_map stands_at (get self.now.objects (large_word number.number)) }
        ensures number { MatchOption result.2 (IsYoung (graph_in self.now) g (large_word number.number) → ⊥)
            (λ n. IsYoung (graph_in self.now) g (large_word number.number) ×
            IsNumbered self.now g (large_word number.number) n) }
    {
        let Some(object) = self.large.get(number) else {
            unreachable!();
        };
        let Some((generation, step)) = self.large.step_of(number) else {
            unreachable!();
        };
        let at = StepId { generation, step };
        if generation > g {
            return (object, at, None);
        }
        (object, at, Some(numbering.large()[number.number as usize]))
    }

    /// The block in which the small object at a place lies where there is one, its generation and step, and its number where its
    /// generation is at most `generation`. It reads the object's header alone.
    #[inline(always)]
    pub fn find_small(
        &self,
        numbering: &Numbering<A>,
        generation: u8,
        at: SmallPlace,
    ) -> (&Block<A>, StepId, Option<u32>)
        requires numbering { IsNumbering (graph_in self.now) generation numbering.now }
        requires there { IsSome (get self.now.objects (small_word at.block at.offset)) }
        ensures block { IsSomeAnd (get self.now.objects (small_word at.block at.offset))
            (λ o. LiesIn o at.offset result.0.now) }
        ensures step { Some (step_pair result.1) ≡
            option_map stands_at (get self.now.objects (small_word at.block at.offset)) }
        ensures number { MatchOption result.2
            (IsYoung (graph_in self.now) generation (small_word at.block at.offset) → ⊥)
            (λ n. IsYoung (graph_in self.now) generation (small_word at.block at.offset) ×
            IsNumbered self.now generation (small_word at.block at.offset) n) }
        ensures small { IsSomeAnd (get self.now.objects (small_word at.block at.offset))
            (λ o. is_large self.now.config.block_words o ≡ false) }
    {
        self.space.find_small(numbering.blocks(), generation, at)
    }

    /// The object at a place where there is one, its generation and step, and its number where its generation is at
    /// most `generation`.
    #[inline(always)]
    pub fn find(
        &self,
        numbering: &Numbering<A>,
        generation: u8,
        place: Place,
    ) -> (ObjectRef<'_>, StepId, Option<u32>)
        requires numbering { IsNumbering (graph_in self.now) generation numbering.now }
        requires there { IsSome (get self.now.objects (place_word place)) }
        ensures object { IsSomeAnd (get self.now.objects (place_word place)) (λ o. IsShownAs o (raw_of result.0)) }
        ensures step { Some (step_pair result.1) ≡ option_map stands_at (get self.now.objects (place_word place)) }
        ensures number { MatchOption result.2 (IsYoung (graph_in self.now) generation (place_word place) → ⊥)
            (λ n. IsYoung (graph_in self.now) generation (place_word place) ×
            IsNumbered self.now generation (place_word place) n) }
    {
        match place {
            Place::Small(_) => self.space.find(numbering.blocks(), generation, place),
            Place::Large(number) => self.find_large(numbering, generation, number),
        }
    }

    /// The generation and step of the object at a place where there is one, and its number where its generation is at most
    /// `generation`: what `find` tells, without the object.
    #[inline(always)]
    pub fn step_and_number(
        &self,
        numbering: &Numbering<A>,
        generation: u8,
        place: Place,
    ) -> (StepId, Option<u32>)
        requires numbering { IsNumbering (graph_in self.now) generation numbering.now }
        requires there { IsSome (get self.now.objects (place_word place)) }
        ensures step { Some (step_pair result.0) ≡ option_map stands_at (get self.now.objects (place_word place)) }
        ensures number { MatchOption result.1 (IsYoung (graph_in self.now) generation (place_word place) → ⊥)
            (λ n. IsYoung (graph_in self.now) generation (place_word place) ×
            IsNumbered self.now generation (place_word place) n) }
    {
        match place {
            Place::Small(small) => {
                let (_block, at, number) = self.find_small(numbering, generation, small);
                (at, number)
            }
            Place::Large(large) => {
                let (_object, at, number) = self.find_large(numbering, generation, large);
                (at, number)
            }
        }
    }

    /// How many blocks are free.
    pub fn free_count(&self) -> usize
        ensures value { result ≡ length self.now.free }
        // What holds of the objects of every heap.
        ensures sound { AreObjects (heap_in self.now) }
    {
        self.space.free_count()
    }

    /// The numbers of the free blocks, rising.
    pub fn free_numbers(&self, alloc: A) -> Result<RankedSet<A>, AllocError>
        ensures { IfOk result (λ numbers. numbers ≡ self.now.free) }
    {
        self.space.free_numbers(alloc)
    }

    /// The sizes that the heap was made with.
    pub fn config(&self) -> Config
        ensures value { result ≡ self.now.config }
        ensures in_range { IsInRange self.now.config }
    {
        self.space.config()
    }

    /// How many spare blocks it keeps for the next collection.
    pub fn spare_blocks(&self) -> usize {
        self.space.spare_blocks()
    }

    /// The memory that it keeps for the next collection.
    pub fn take_spare(&mut self) -> Spare<A>
        ensures { self.new ≡ self.old }
    {
        self.space.take_spare()
    }

    /// Keeps the memory of these lists for the next collection.
    pub fn keep_lists(&mut self, lists: Vec<WorkerReport<A>, A>)
        ensures { self.new ≡ self.old }
    {
        self.space.keep_lists(lists);
    }

    /// Puts blocks in the place of all small objects of generation at most `generation`. The large ones of them that have a new place
    /// go to their destinations, and the others are gone. Memory that isn't needed any more is kept with `spare` for the next
    /// collection: that of as many blocks at most as are in use then, and a quarter more. Where memory runs out nothing changes.
    pub fn replace(
        &mut self,
        alloc: A,
        generation: u8,
        blocks: Vec<Block<A>, A>,
        numbering: &Numbering<A>,
        places: Forwards<A>,
        spare: Spare<A>,
    ) -> Result<(), AllocError>
        requires blocks { CanReplace self.old blocks.items }
        requires numbering { IsNumbering (graph_in self.old) generation numbering.now }
        requires count { length places ≡ length (young_names (graph_in self.old) generation) }
        ensures ok { OnOk result (IsReplaced self.old generation blocks.items places self.new) }
        ensures err { OnErr result (self.new ≡ self.old) }
    {
        self.space.replace(alloc, generation, blocks, spare)?;
        let _free = self.space.free_count();
        renew(
            &mut self.space,
            &mut self.large,
            generation,
            numbering.large(),
            &places,
        );
        self.space.keep_spare(places.into_memory());
        Ok(())
    }
}
