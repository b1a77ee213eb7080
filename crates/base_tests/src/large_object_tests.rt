//! Numbers, words and blocks of large objects.
ghost use Rattle.std.specs.Prelude.{◌<◌, ◌≤◌};
ghost use Rattle.std.proofs.Props.{props};
ghost use Rattle.large_objects.specs.PoolBlocks.{ArePoolBlocks};

use block_pool::{GrantError, Pool};
use large_objects::LargeTable;
use layout::{LargeNumber, MOST_FIELDS};
use std::alloc::{AllocError, Global};
use std::process::Abort;
use std::test::Fail;

/// How many words a block has here.
const BLOCK_WORDS: usize = 16;

/// Large objects, and the pool of their blocks.
#[derive(Drop)]
struct Store {
    objects: LargeTable,
    pool: Pool,
    ghost one_pool: { ArePoolBlocks objects pool } by { Prim.hlevel props },
}

impl Store {
    fn new(alloc: Global, blocks: u32) -> Result<Self, AllocError>
        requires { blocks ≤ 65535 }
    {
        let objects = LargeTable::new(alloc)?;
        let pool = Pool::new(alloc, blocks)?;
        Ok(Store { objects, pool })
    }

    /// The number of a new object.
    fn add(&mut self, alloc: Global, p: u32, q: u32) -> Result<LargeNumber, GrantError> {
        if p > MOST_FIELDS || q > MOST_FIELDS {
            return Err(GrantError::HeapFull);
        }
        self.objects.add(alloc, &mut self.pool, BLOCK_WORDS, p, q)
    }

    /// Gives up an object. False says that the number isn't in use.
    fn remove(&mut self, number: LargeNumber) -> bool {
        let in_use = self.objects.step_of(number).is_some();
        if in_use {
            self.objects.remove(&mut self.pool, number);
        }
        in_use
    }

    fn relabel(&mut self, number: LargeNumber, generation: u8, step: u8) -> bool {
        let in_use = self.objects.step_of(number).is_some();
        if in_use {
            self.objects.relabel(number, generation, step);
        }
        in_use
    }

    fn set_pointer(&mut self, number: LargeNumber, i: usize, word: u64) -> bool {
        let Some(object) = self.objects.get(number) else {
            return false;
        };
        if i >= object.pointers.len() {
            return false;
        }
        self.objects.set_pointer(number, i, word);
        true
    }

    fn set_plain(&mut self, number: LargeNumber, i: usize, word: u64) -> bool {
        let Some(object) = self.objects.get(number) else {
            return false;
        };
        if i >= object.words.len() {
            return false;
        }
        self.objects.set_plain(number, i, word);
        true
    }

    fn set_pointers(&mut self, number: LargeNumber, words: &[u64]) -> bool {
        let Some(object) = self.objects.get(number) else {
            return false;
        };
        if words.len() != object.pointers.len() {
            return false;
        }
        self.objects.set_pointers(number, words);
        true
    }

    /// How many objects there are, and how many blocks are free.
    fn counts(&self) -> (usize, usize) {
        (self.objects.len(), self.pool.free_count())
    }

    /// Whether the object has these words.
    fn has_words(&self, number: LargeNumber, pointers: &[u64], words: &[u64]) -> bool {
        match self.objects.get(number) {
            Some(object) => object.pointers == pointers && object.words == words,
            None => false,
        }
    }
}

fn at(number: u16) -> LargeNumber
    requires { number < 65535 }
{
    LargeNumber { number }
}

/// Asserts that ten blocks are filled to the last one, and not beyond.
fn assert_ten_are_filled(rt: &impl Abort, alloc: Global, store: &mut Store) {
    assert_eq!(rt; store.add(alloc, 20, 27), Ok(at(0)));
    assert_eq!(rt; store.add(alloc, 48, 0), Ok(at(1)));
    assert_eq!(rt; store.add(alloc, 0, 31), Ok(at(2)));
    assert_eq!(rt; store.counts(), (3, 1));
    assert_eq!(rt; store.add(alloc, 8, 8), Err(GrantError::HeapFull));
    assert_eq!(rt; store.counts(), (3, 1));
    assert_eq!(rt; store.add(alloc, 7, 8), Ok(at(3)));
    assert_eq!(rt; store.add(alloc, 0, 0), Err(GrantError::HeapFull));
    assert_eq!(rt; store.counts(), (4, 0));
}

#[test]
fn the_pool_is_full_exactly_at_the_count(rt: HostRuntime) -> Result<(), Fail> {
    let mut store = Store::new(rt.alloc(), 10)?;
    assert_ten_are_filled(&rt, rt.alloc(), &mut store);
    Ok(())
}

/// The lowest numbers in use from each of these on.
fn next_of(store: &Store, from: [usize; 3]) -> [Option<LargeNumber>; 3] {
    let next = |k: usize| store.objects.next_from(k);
    [next(from[0]), next(from[1]), next(from[2])]
}

/// Gives up the first and the third of four objects, and asserts which numbers are left.
fn assert_two_of_four_stay(rt: &impl Abort, alloc: Global, store: &mut Store) {
    assert!(rt; add_many(store, alloc, 4));
    assert!(rt; store.remove(at(0)) && store.remove(at(2)) && !store.remove(at(2)));
    assert_eq!(rt; next_of(store, [0, 2, 4]), [Some(at(1)), Some(at(3)), None]);
}

/// Asserts that the number given up last is the first to be used again.
fn assert_last_comes_first(rt: &impl Abort, alloc: Global, store: &mut Store) {
    assert_eq!(rt; store.add(alloc, 1, 0), Ok(at(2)));
    assert_eq!(rt; store.add(alloc, 2, 0), Ok(at(0)));
    assert_eq!(rt; store.add(alloc, 3, 0), Ok(at(4)));
    assert!(rt; store.has_words(at(2), &[0], &[]) && store.has_words(at(0), &[0, 0], &[]));
    assert!(rt; !store.has_words(at(5), &[], &[]));
}

#[test]
fn the_number_given_up_last_is_used_first(rt: HostRuntime) -> Result<(), Fail> {
    let mut store = Store::new(rt.alloc(), 8)?;
    assert_two_of_four_stay(&rt, rt.alloc(), &mut store);
    assert_last_comes_first(&rt, rt.alloc(), &mut store);
    Ok(())
}

/// Writes words of the second object, and asserts that there are no others.
fn assert_words_are_written(rt: &impl Abort, store: &mut Store) {
    assert!(rt; store.set_pointers(at(1), &[65536, 5]) && !store.set_pointers(at(1), &[5]));
    assert!(rt; store.set_pointer(at(1), 1, 65537) && !store.set_pointer(at(1), 2, 1));
    assert!(rt; store.set_plain(at(1), 0, 42) && !store.set_plain(at(1), 1, 1));
}

/// Gives the second object another step, and asserts that its words stay, and the first one's step.
fn assert_words_stay(rt: &impl Abort, store: &mut Store) {
    assert!(rt; store.relabel(at(1), 3, 1) && !store.relabel(at(2), 1, 1));
    assert_eq!(rt; store.objects.step_of(at(1)), Some((3, 1)));
    assert!(rt; store.has_words(at(1), &[65536, 65537], &[42]));
    assert_eq!(rt; store.objects.step_of(at(0)), Some((0, 0)));
    assert_eq!(rt; store.objects.step_of(at(2)), None);
}

#[test]
fn words_stay_when_an_object_gets_another_step(rt: HostRuntime) -> Result<(), Fail> {
    let mut store = Store::new(rt.alloc(), 8)?;
    assert_eq!(rt; store.add(rt.alloc(), 2, 30), Ok(at(0)));
    assert_eq!(rt; store.add(rt.alloc(), 2, 1), Ok(at(1)));
    assert_words_are_written(&rt, &mut store);
    assert_words_stay(&rt, &mut store);
    Ok(())
}

/// Asserts that the blocks of the first of two objects are free once it is given up, and go to one that takes all.
fn assert_blocks_go_on(rt: &impl Abort, alloc: Global, store: &mut Store) {
    assert!(rt; store.remove(at(0)));
    assert_eq!(rt; store.counts(), (1, 6));
    assert!(rt; store.pool.is_free(0) && store.pool.is_free(2) && !store.pool.is_free(3));
    assert!(rt; !store.pool.is_free(5) && store.pool.is_free(6));
    assert_eq!(rt; store.add(alloc, 40, 40), Ok(at(0)));
    assert_eq!(rt; store.counts(), (2, 0));
}

#[test]
fn blocks_are_free_after_their_object(rt: HostRuntime) -> Result<(), Fail> {
    let mut store = Store::new(rt.alloc(), 9)?;
    assert_eq!(rt; store.add(rt.alloc(), 0, 40), Ok(at(0)));
    assert_eq!(rt; store.add(rt.alloc(), 40, 0), Ok(at(1)));
    assert_blocks_go_on(&rt, rt.alloc(), &mut store);
    Ok(())
}

/// Adds objects of one block each. False says that one could not be added.
fn add_many(store: &mut Store, alloc: Global, count: u32) -> bool {
    for _ in 0..count {
        if store.add(alloc, 7, 8).is_err() {
            return false;
        }
    }
    true
}

/// Gives up the objects with the numbers 0, 3, 6 and so on. False says that one wasn't in use.
fn remove_thirds(store: &mut Store, count: u16) -> bool {
    for k in 0..count {
        if k % 3 == 0 && !store.remove(at(k)) {
            return false;
        }
    }
    true
}

/// How many numbers a walk comes to.
fn walked(store: &Store) -> usize {
    let mut from = 0;
    for found in 0..65535 {
        let Some(number) = store.objects.next_from(from) else {
            return found;
        };
        from = number.number as usize + 1;
    }
    65535
}

/// Adds 3,000 objects and gives up a third, and asserts that a walk comes to all that there are.
fn assert_thousands_go(rt: &impl Abort, alloc: Global, store: &mut Store) {
    assert!(rt; add_many(store, alloc, 3000));
    assert_eq!(rt; (store.counts(), walked(store)), ((3000, 1000), 3000));
    assert!(rt; remove_thirds(store, 3000));
    assert_eq!(rt; (store.counts(), walked(store)), ((2000, 2000), 2000));
}

/// Asserts that as many come again, and then as many as there are blocks.
fn assert_thousands_come(rt: &impl Abort, alloc: Global, store: &mut Store) {
    assert_eq!(rt; store.add(alloc, 7, 8), Ok(at(2997)));
    assert!(rt; add_many(store, alloc, 999));
    assert_eq!(rt; (store.counts(), walked(store)), ((3000, 1000), 3000));
    assert!(rt; add_many(store, alloc, 1000) && !add_many(store, alloc, 1));
}

#[test]
fn thousands_come_and_go(rt: HostRuntime) -> Result<(), Fail> {
    let mut store = Store::new(rt.alloc(), 4000)?;
    assert_thousands_go(&rt, rt.alloc(), &mut store);
    assert_thousands_come(&rt, rt.alloc(), &mut store);
    Ok(())
}

/// The last pointer and the last plain word.
fn last_words(store: &Store, number: LargeNumber) -> Option<(u64, u64)> {
    let object = store.objects.get(number)?;
    let pointer = object.pointers.last()?;
    let word = object.words.last()?;
    Some((*pointer, *word))
}

/// Asserts that the largest object takes all blocks, has its words, and gives the blocks back.
fn assert_largest(rt: &impl Abort, alloc: Global, store: &mut Store) {
    assert_eq!(rt; store.add(alloc, MOST_FIELDS, MOST_FIELDS), Ok(at(0)));
    assert_eq!(rt; store.counts(), (1, 0));
    assert!(rt; store.set_pointer(at(0), 99999, 7) && store.set_plain(at(0), 99999, 9));
    assert_eq!(rt; last_words(store, at(0)), Some((7, 9)));
    assert!(rt; store.remove(at(0)));
    assert_eq!(rt; store.counts(), (0, 12501));
}

#[test]
fn the_largest_object_has_its_words(rt: HostRuntime) -> Result<(), Fail> {
    let mut store = Store::new(rt.alloc(), 12501)?;
    assert_largest(&rt, rt.alloc(), &mut store);
    Ok(())
}
