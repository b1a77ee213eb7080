//! The blocks of a heap as one value, with the nurseries, the free numbers and the flags.
ghost use Rattle.std.specs.Prelude.{◌≡◌, ℕ, ◌+◌, ◌*◌, ◌/◌, ◌<◌, ◌≤◌, ◌↔◌, ◌&&◌, ◌||◌, nat_eq, Some, None, Err, true, length, take, drop, IsTrue, IsSome, IfOk, IfSome, IfNone, OnOk, OnErr, MatchOption, IsSomeAnd, slice_set};
ghost use Rattle.std.specs.FinMap.{values, get, insert};
ghost use Rattle.std.specs.Option.{option_map};
ghost use Rattle.model.specs.Graph.{Object, with_pointer};
ghost use Rattle.model.specs.Census.{step_count};
ghost use Rattle.model.specs.Live.{IsYoung};
ghost use Rattle.layout.specs.Place.{place_word, small_word};
ghost use Rattle.layout.specs.ObjectRef.{raw_of};
ghost use Rattle.steps.specs.ConfigRange.{IsInRange};
ghost use Rattle.steps.specs.StepPairs.{step_pair, stands_at};
ghost use Rattle.steps.specs.HeapValue.{nursery_count};
ghost use Rattle.steps.specs.Words.{IsShownAs, LiesIn};
ghost use Rattle.steps.specs.CensusView.{step_value};
ghost use Rattle.steps.specs.CollectionValue.{young_names};
ghost use Rattle.model.specs.Reached.{has};
ghost use Rattle.layout.specs.Header.{size_of};
ghost use Rattle.nursery.specs.Areas.{is_flagged, HasRoom};
ghost use Rattle.nursery.specs.Table.{objects_map, AreHeapBlocks};
ghost use Rattle.large_objects.specs.LargeValue.{InUse, IsAdded, block_count, made, without_object};
ghost use Rattle.large_objects.specs.PoolBlocks.{ArePoolBlocks, blocks_at};
ghost use Rattle.heap_objects.specs.Space.{SpaceAllocates, empty_space, room_in, graph_in, pool_in, IsSpace};
ghost use Rattle.heap_objects.specs.HeapSpaceCollecting.{AreBases, IsNumbered, CanReplace, IsReplaced, HoldsNone};

use crate::heap_space::nurseries::{nurseries_of, nursery_table, reset_all};
use block_pool::{Block, GrantError, Pool, RankedSet};
use forwarding::CellMemory;
use large_objects::LargeTable;
use layout::{LargeNumber, ObjectRef, Place, SmallPlace, word_of};
use nursery::{
    AreaFlags, Nursery, Table, add_blocks, areas_of, bases, block_object, block_of, count_step,
    end_of, exchange, grow, object_from, remove_blocks, set_plain, set_pointer, step_at,
    young_blocks,
};
use std::alloc::{AllocError, Allocator, Global};
use std::marker::Model;
use steps::{Config, Spare, StepCount, StepId, WorkerReport};

/// The blocks of a heap, and which numbers are free.
#[derive(Drop)]
pub struct Space<A: Allocator = Global> {
    config: Config,
    // The first blocks are the nurseries', mutator by mutator.
    table: Table<A>,
    // One for each mutator.
    nurseries: Vec<Nursery, A>,
    pool: Pool<A>,
    // By generation the numbers of the blocks that hold objects, so that a collection needn't look at the others.
    areas: AreaFlags<A>,
    // Memory for the next collection.
    spare: Spare<A>,
}

impl<A: Allocator> Model for Space<A> {
    ghost use Rattle.heap_objects.specs.Space.{SpaceValue, space_code, space_of, IsFlaggedSpace};

    ghost Value = { SpaceValue };

    ghost coded = { space_code };

    ghost view = { λ s. space_of s.config s.table.items s.nurseries.items s.pool };

    ghost invariant = { λ s. IsFlaggedSpace s.config s.table.items s.nurseries.items s.pool s.areas };
}

/// How many blocks the nurseries take together.
fn nursery_blocks(config: Config) -> usize
    ensures value { result ≡ nursery_count config }
    ensures few { result ≤ 1024 }
{
    config.mutators() * config.nursery_blocks()
}

/// Puts in the number of a block of a nursery where the new object at the offset is its first.
fn flag_first<A: Allocator>(areas: &mut AreaFlags<A>, number: usize, offset: usize)
    requires some { 0 < length areas.old }
    requires room { (len : ℕ) × HasRoom areas.old len × (number < len) }
    ensures flags { (g n : ℕ) →
        is_flagged areas.new g n ≡ ((nat_eq offset 0 && nat_eq n number) || is_flagged areas.old g n) }
    ensures room { (len : ℕ) → HasRoom areas.old len → HasRoom areas.new len }
    ensures generations { length areas.new ≡ length areas.old }
{
    if offset == 0 {
        areas.add(0, number);
    }
}

impl<A: Allocator + Clone> Space<A> {
    /// Blocks with no object. The first ones are set aside for the nurseries.
    pub fn new(alloc: A, config: Config) -> Result<Space<A>, AllocError>
        requires { nursery_count config ≤ config.blocks }
        ensures { IfOk result (λ space. space ≡ empty_space config) }
    {
        let count = nursery_blocks(config);
        let table = nursery_table(alloc.clone()?, count, config.block_words())?;
        let areas = areas_of(alloc.clone()?, &table, config.generations())?;
        let nurseries = nurseries_of(alloc.clone()?, config.mutators(), config.nursery_blocks())?;
        let mut pool = Pool::new(alloc.clone()?, config.blocks() as u32)?;
        let _granted = match pool.grant(alloc, count) {
            Ok(granted) => granted,
            Err(GrantError::NoMemory) => return Err(AllocError),
            // Each block is free, and the nurseries have no more.
            Err(GrantError::HeapFull) => unreachable!(),
        };
        Ok(Space {
            config,
            table,
            nurseries,
            pool,
            areas,
            spare: Spare::none(),
        })
    }

    /// Whether a mutator's nursery has room for an object of `size` words, at most a quarter of a block.
    pub fn has_room(&self, mutator: usize, size: usize) -> bool
        requires mutator { mutator < self.now.config.mutators }
        requires small { size ≤ self.now.config.block_words / 4 }
        ensures { IsTrue result ↔ IsSome (room_in self.now mutator size) }
    {
        self.nurseries[mutator].has_room(&self.table, size)
    }

    /// Puts a new small object into a mutator's nursery. `None` says that there is no room.
    pub fn allocate(&mut self, mutator: usize, pointers: u32, plain_words: u32) -> Option<Place>
        requires mutator { mutator < self.old.config.mutators }
        requires small { 1 + pointers + plain_words ≤ self.old.config.block_words / 4 }
        ensures room { IsSome result ↔ IsSome (room_in self.old mutator (1 + pointers + plain_words)) }
        ensures some { IfSome result
            (λ place. SpaceAllocates self.old mutator pointers plain_words (place_word place) self.new) }
        ensures none { IfNone result (self.new ≡ self.old) }
    {
        let Ok(place) = self.nurseries[mutator].alloc(&mut self.table, pointers, plain_words) else {
            return None;
        };
        if let Place::Small(at) = place {
            flag_first(&mut self.areas, at.block as usize, at.offset as usize);
        }
        Some(place)
    }

    /// The object at a place, where there is one.
    pub fn object(&self, place: Place) -> Option<ObjectRef<'_>>
        ensures { MatchOption result (get self.now.objects (place_word place) ≡ None)
            (λ object. IsSomeAnd (get self.now.objects (place_word place)) (λ o. IsShownAs o (raw_of object))) }
    {
        match place {
            Place::Small(at) => block_object(&self.table, at.block as usize, at.offset as usize),
            Place::Large(_) => None,
        }
    }

    /// The object at a place where there is one. It reads the header, and looks for no other word.
    #[inline]
    fn object_there(&self, place: Place) -> ObjectRef<'_>
        requires { IsSome (get self.now.objects (place_word place)) }
        ensures { IsSomeAnd (get self.now.objects (place_word place)) (λ o. IsShownAs o (raw_of result)) }
    {
        let table = &self.table;
        let Place::Small(at) = place else {
            unreachable!();
        };
        object_from(table, at.block as usize, at.offset as usize)
    }

    /// The generation and step of the object at a place, where there is one.
    pub fn step_of(&self, place: Place) -> Option<StepId>
        ensures { option_map step_pair result ≡ option_map stands_at (get self.now.objects (place_word place)) }
    {
        let table = &self.table;
        let Place::Small(at) = place else {
            return None;
        };
        let number = at.block as usize;
        match block_object(table, number, at.offset as usize) {
            Some(_) => Some(step_at(table, number)),
            None => None,
        }
    }

    /// How many pointers the object at a place has.
    pub fn pointer_count(&self, place: Place) -> u32
        requires { IsSome (get self.now.objects (place_word place)) }
        ensures { (o : Object) → get self.now.objects (place_word place) ≡ Some o → result ≡ length o.pointers }
    {
        self.object_there(place).header.pointers
    }

    /// How many plain words the object at a place has.
    pub fn plain_count(&self, place: Place) -> u32
        requires { IsSome (get self.now.objects (place_word place)) }
        ensures { (o : Object) → get self.now.objects (place_word place) ≡ Some o → result ≡ length o.plain }
    {
        self.object_there(place).header.plain
    }

    /// Changes pointer `i` of the object at a place.
    pub fn set_pointer(&mut self, place: Place, i: usize, target: Option<Place>)
        requires { IsSomeAnd (get self.old.objects (place_word place)) (λ o. i < length o.pointers) }
        ensures { (o : Object) → get self.old.objects (place_word place) ≡ Some o
            → self.new ≡ record self.old {
              objects = insert self.old.objects (place_word place)
                  (with_pointer o i (option_map place_word target));
            } }
    {
        let word = word_of(target);
        match place {
            Place::Small(at) => {
                set_pointer(
                    &mut self.table,
                    at.block as usize,
                    at.offset as usize,
                    i,
                    word,
                )
            }
            Place::Large(_) => {}
        }
    }

    /// Changes plain word `i` of the object at a place.
    pub fn set_plain(&mut self, place: Place, i: usize, word: u64)
        requires { IsSomeAnd (get self.old.objects (place_word place)) (λ o. i < length o.plain) }
        ensures { (o : Object) → get self.old.objects (place_word place) ≡ Some o
            → self.new ≡ record self.old {
              objects = insert self.old.objects (place_word place)
                  (record o { plain = slice_set o.plain i word });
            } }
    {
        match place {
            Place::Small(at) => {
                set_plain(
                    &mut self.table,
                    at.block as usize,
                    at.offset as usize,
                    i,
                    word,
                )
            }
            Place::Large(_) => {}
        }
    }

    /// How many objects stand at a generation and step, and how many words they take.
    pub fn count(&self, at: StepId) -> StepCount
        ensures { step_value result ≡ step_count self.now.config.block_words (values self.now.objects) (step_pair at) }
    {
        count_step(&self.table, at)
    }

    /// The blocks by number.
    pub fn table(&self) -> &[Option<Block<A>>]
        ensures objects { objects_map result.now ≡ self.now.objects }
        ensures blocks { AreHeapBlocks self.now.config 0 result.now }
        ensures short { length result.now ≤ self.now.config.blocks }
    {
        &self.table
    }

    /// The number of the first object of generation at most `generation` of each block, and how many such objects there are.
    pub fn bases(&self, alloc: A, generation: u8) -> Result<(Vec<u32, A>, u32), AllocError>
        ensures bases { IfOk result (λ r. AreBases self.now generation r.0.items) }
        ensures short { IfOk result (λ r. length r.0.items ≤ 65535) }
        ensures all { IfOk result (λ r. r.1 ≡ length (young_names (graph_in self.now) generation)) }
        ensures few { IfOk result (λ r. r.1 ≤ 65535 * 512) }
    {
        let found = bases(alloc, &self.table, &self.areas, generation)?;
        Ok(found)
    }

    /// The number of an object of generation at most `generation`.
    pub fn number_of(&self, bases: &[u32], generation: u8, at: SmallPlace) -> u32
        requires bases { AreBases self.now generation bases.now }
        requires young { IsYoung (graph_in self.now) generation (small_word at.block at.offset) }
        ensures { IsNumbered self.now generation (small_word at.block at.offset) result }
    {
        let (_, _, Some(number)) = self.find_small(bases, generation, at) else {
            unreachable!();
        };
        number
    }

    /// The block in which the object at a place lies where there is one, its generation and step, and its number where its
    /// generation is at most `generation`. It reads the object's header alone.
    #[inline(always)]
    pub fn find_small(
        &self,
        bases: &[u32],
        generation: u8,
        at: SmallPlace,
    ) -> (&Block<A>, StepId, Option<u32>)
        requires bases { AreBases self.now generation bases.now }
        requires there { IsSome (get self.now.objects (small_word at.block at.offset)) }
        ensures block { IsSomeAnd (get self.now.objects (small_word at.block at.offset))
            (λ o. LiesIn o at.offset result.0.now) }
        ensures step { Some (step_pair result.1) ≡
            option_map stands_at (get self.now.objects (small_word at.block at.offset)) }
        ensures number { MatchOption result.2
            (IsYoung (graph_in self.now) generation (small_word at.block at.offset) → ⊥)
            (λ n. IsYoung (graph_in self.now) generation (small_word at.block at.offset) ×
            IsNumbered self.now generation (small_word at.block at.offset) n) }
    {
        let number = at.block as usize;
        let block = block_of(&self.table, number);
        let step = StepId {
            generation: block.generation(),
            step: block.step(),
        };
        if step.generation > generation {
            return (block, step, None);
        }
        let named = bases[number] + block.ordinal_from(at.offset as usize) as u32;
        (block, step, Some(named))
    }

    /// The object at a place where there is one, its generation and step, and its number where its generation is at
    /// most `generation`.
    #[inline]
    pub fn find(
        &self,
        bases: &[u32],
        generation: u8,
        place: Place,
    ) -> (ObjectRef<'_>, StepId, Option<u32>)
        requires bases { AreBases self.now generation bases.now }
        requires there { IsSome (get self.now.objects (place_word place)) }
        ensures object { IsSomeAnd (get self.now.objects (place_word place)) (λ o. IsShownAs o (raw_of result.0)) }
        ensures step { Some (step_pair result.1) ≡ option_map stands_at (get self.now.objects (place_word place)) }
        ensures number { MatchOption result.2 (IsYoung (graph_in self.now) generation (place_word place) → ⊥)
            (λ n. IsYoung (graph_in self.now) generation (place_word place) ×
            IsNumbered self.now generation (place_word place) n) }
    {
        let table = &self.table;
        let Place::Small(at) = place else {
            unreachable!();
        };
        let number = at.block as usize;
        let object = object_from(table, number, at.offset as usize);
        let step = step_at(table, number);
        if step.generation > generation {
            return (object, step, None);
        }
        let named = bases[number] + object.header.ordinal as u32;
        (object, step, Some(named))
    }

    /// How many blocks are free.
    pub fn free_count(&self) -> usize
        ensures value { result ≡ length self.now.free }
        // What holds of the blocks of every heap.
        ensures space { IsSpace self.now }
    {
        self.pool.free_count()
    }

    /// The numbers of the free blocks, rising.
    pub fn free_numbers(&self, alloc: A) -> Result<RankedSet<A>, AllocError>
        ensures { IfOk result (λ numbers. numbers ≡ self.now.free) }
    {
        self.pool.free_numbers(alloc)
    }

    /// Makes a large object of so many nil pointers and zero words. Its blocks are the free ones with the lowest numbers: as
    /// many as hold it with its header. `HeapFull` says that fewer are free. At an error nothing changes.
    pub fn add_large(
        &mut self,
        alloc: A,
        large: &mut LargeTable<A>,
        pointers: u32,
        plain_words: u32,
    ) -> Result<LargeNumber, GrantError>
        requires pointers { pointers ≤ 100000 }
        requires plain { plain_words ≤ 100000 }
        requires blocks { ArePoolBlocks large.old (pool_in self.old) }
        ensures number { IfOk result (λ of. of.number ≡ large.old.next) }
        ensures added { IfOk result
            (λ of. IsAdded large.old large.new of.number
            (made pointers plain_words
            (take (block_count (size_of pointers plain_words) self.old.config.block_words) self.old.free))) }
        ensures granted { OnOk result
            (self.new ≡ record self.old {
              free = drop
                  (block_count (size_of pointers plain_words) self.old.config.block_words) self.old.free;
            }) }
        ensures full { (result ≡ Err GrantError.HeapFull) ↔
            (length self.old.free < block_count (size_of pointers plain_words) self.old.config.block_words) }
        ensures large_kept { OnErr result (large.new ≡ large.old) }
        ensures kept { OnErr result (self.new ≡ self.old) }
        ensures pool_blocks { ArePoolBlocks large.new (pool_in self.new) }
    {
        large.add(
            alloc,
            &mut self.pool,
            self.config.block_words(),
            pointers,
            plain_words,
        )
    }

    /// Gives up a large object: its blocks, in which no other object stands, are free.
    pub fn remove_large(&mut self, large: &mut LargeTable<A>, number: LargeNumber)
        requires in_use { InUse large.old number.number }
        requires blocks { ArePoolBlocks large.old (pool_in self.old) }
        requires apart { (n : ℕ) → has (blocks_at large.old number.number) n ≡ true →
            (nursery_count self.old.config ≤ n) × HoldsNone self.old n }
        ensures removed { large.new ≡ without_object large.old number.number }
        ensures free { (n : ℕ) →
            has self.new.free n ≡ (has (blocks_at large.old number.number) n || has self.old.free n) }
        ensures others { self.new ≡ record self.old { free = self.new.free } }
        ensures pool_blocks { ArePoolBlocks large.new (pool_in self.new) }
    {
        large.remove(&mut self.pool, number);
    }

    /// The sizes that the space was made with.
    pub fn config(&self) -> Config
        ensures value { result ≡ self.now.config }
        ensures in_range { IsInRange self.now.config }
    {
        self.config
    }

    /// How many spare blocks it keeps for the next collection.
    pub fn spare_blocks(&self) -> usize {
        self.spare.block_count()
    }

    /// The memory that it keeps for the next collection.
    pub fn take_spare(&mut self) -> Spare<A>
        ensures { self.new ≡ self.old }
    {
        self.spare.take()
    }

    /// Keeps the memory of these lists for the next collection.
    pub fn keep_lists(&mut self, lists: Vec<WorkerReport<A>, A>)
        ensures { self.new ≡ self.old }
    {
        self.spare.keep_lists(lists);
    }

    /// Keeps memory for the next collection: of its spare blocks at most as many as are in use and a quarter more, since threads are
    /// dealt equal shares of them and don't need as many, and that of these cells if it is no more than the memory of the blocks
    /// in use.
    pub fn keep_spare(&mut self, cells: CellMemory<A>)
        ensures { self.new ≡ self.old }
    {
        let used = self.config.blocks() - self.pool.free_count();
        self.spare.keep_blocks(used + used / 4);
        self.spare
            .keep_cells(cells, used * self.config.block_words());
    }

    /// Puts blocks in the place of all objects of generation at most `generation`. The memory of the blocks that are given up is
    /// kept with `spare`. Where memory runs out nothing changes.
    pub fn replace(
        &mut self,
        alloc: A,
        generation: u8,
        blocks: Vec<Block<A>, A>,
        spare: Spare<A>,
    ) -> Result<(), AllocError>
        requires { CanReplace self.old blocks.items }
        ensures ok { OnOk result (IsReplaced self.old generation blocks.items self.new) }
        ensures err { OnErr result (self.new ≡ self.old) }
    {
        let old = young_blocks(alloc.clone()?, &self.areas, generation)?;
        self.spare.join(alloc, spare, old.len())?;
        let end = end_of(&blocks);
        grow(&mut self.table, end)?;
        self.areas.reserve(end)?;
        remove_blocks(&mut self.areas, &old);
        add_blocks(&mut self.areas, &blocks);
        let count = nursery_blocks(self.config);
        exchange(
            &mut self.table,
            &mut self.pool,
            count,
            &old,
            blocks,
            &mut self.spare,
        );
        reset_all(&mut self.nurseries);
        Ok(())
    }
}
