//! Objects in a block, and grants of blocks.
use block_pool::{Block, GrantError, Pool, order_by_memory};
use layout::ObjectRef;
use std::alloc::{AllocError, Global};
use std::process::Abort;
use std::test::Fail;

/// The number, the generation and the step.
fn label_of(block: &Block) -> (u32, u8, u8) {
    (block.number(), block.generation(), block.step())
}

/// How many objects it has, how many words they take, and how many words there are.
fn sizes_of(block: &Block) -> (usize, usize, usize) {
    (block.len(), block.used(), block.words())
}

fn has_fields(object: &ObjectRef<'_>, pointers: &[u64], words: &[u64]) -> bool {
    object.pointers == pointers && object.words == words
}

/// Whether the object of that ordinal has these fields.
fn is_at(block: &Block, ordinal: usize, pointers: &[u64], words: &[u64]) -> bool {
    ordinal < block.len() && has_fields(&block.object(ordinal), pointers, words)
}

/// Where two objects of four and three words come to lie, the second one with fields that are known.
fn push_two(block: &mut Block) -> Option<(usize, usize)> {
    if !block.fits(4) {
        return None;
    }
    let first = block.push_new(1, 2);
    let object = ObjectRef::new(9, &[65536], &[5]);
    if !block.fits(object.size() as usize) {
        return None;
    }
    Some((first, block.push_object(object)))
}

/// The offset, the ordinal and the numbers of fields of the second object.
fn second_of(block: &Block) -> Option<(usize, u16, u32, u32)> {
    if block.len() <= 1 {
        return None;
    }
    let header = block.object(1).header;
    Some((
        block.offset(1),
        header.ordinal,
        header.pointers,
        header.plain,
    ))
}

fn begins_at(block: &Block, offset: usize, pointers: &[u64], words: &[u64]) -> bool {
    match block.object_at(offset) {
        Some(object) => has_fields(&object, pointers, words),
        None => false,
    }
}

/// Asserts what a labelled block tells of two objects, the second of which begins at word 4.
fn assert_two_lie(rt: &impl Abort, block: &mut Block) {
    block.label(7, 1, 2);
    assert_eq!(rt; label_of(block), (7, 1, 2));
    assert!(rt; block.fits(16) && !block.fits(17) && block.is_empty());
    assert_eq!(rt; push_two(block), Some((0, 4)));
    assert_eq!(rt; sizes_of(block), (2, 7, 16));
    assert_eq!(rt; second_of(block), Some((4, 1, 1, 1)));
    assert!(rt; is_at(block, 1, &[65536], &[5]));
    assert!(rt; begins_at(block, 0, &[0], &[0, 0]));
    assert!(rt;
        block.object_at(3).is_none()
            && block.object_at(7).is_none()
            && block.object_at(16).is_none()
    );
}

#[test]
fn objects_lie_one_after_the_other(rt: HostRuntime) -> Result<(), Fail> {
    let mut block = Block::new(rt.alloc(), 16)?;
    assert_two_lie(&rt, &mut block);
    Ok(())
}

/// Writes a pointer and a plain word, and asserts that all others stay.
fn assert_written(rt: &impl Abort, block: &mut Block) {
    assert!(rt; block.fits(4));
    block.push_new(1, 2);
    assert!(rt; block.fits(4));
    block.push_new(2, 1);
    assert!(rt; 1 < block.len() && 1 < block.object(1).pointers.len());
    block.set_pointer(1, 1, 65536);
    assert!(rt; 0 < block.len() && 1 < block.object(0).words.len());
    block.set_plain(0, 1, 7);
    assert!(rt; is_at(block, 0, &[0], &[0, 7]) && is_at(block, 1, &[0, 65536], &[0]));
}

#[test]
fn a_field_is_written(rt: HostRuntime) -> Result<(), Fail> {
    let mut block = Block::new(rt.alloc(), 16)?;
    assert_written(&rt, &mut block);
    Ok(())
}

/// How many objects it has, how many words they take, how many are scanned, and how it was sent.
fn state_of(block: &Block) -> (usize, usize, usize, Option<(u32, u64)>) {
    (block.len(), block.used(), block.front(), block.sent())
}

/// Asserts that the last of two objects is taken back, the first of which is scanned.
fn assert_taken_back(rt: &impl Abort, block: &mut Block) {
    assert!(rt; block.fits(3));
    block.push_new(2, 0);
    assert!(rt; block.front() < block.len());
    block.advance_front();
    assert!(rt; block.fits(5));
    block.push_new(0, 4);
    assert!(rt; block.front() < block.len());
    block.take_back_last();
    assert_eq!(rt; state_of(block), (1, 3, 1, None));
    assert!(rt; block.object_at(3).is_none());
}

/// Asserts what a block tells of how it was sent, and that nothing is left of it in the end.
fn assert_sent_and_cleared(rt: &impl Abort, block: &mut Block) {
    block.mark_exported(1, 4);
    assert_eq!(rt; block.sent(), Some((1, 4)));
    block.restore_sent(Some((2, 7)));
    assert_eq!(rt; block.sent(), Some((2, 7)));
    block.clear();
    assert_eq!(rt; state_of(block), (0, 0, 0, None));
}

#[test]
fn an_object_is_taken_back(rt: HostRuntime) -> Result<(), Fail> {
    let mut block = Block::new(rt.alloc(), 16)?;
    assert_taken_back(&rt, &mut block);
    assert_sent_and_cleared(&rt, &mut block);
    Ok(())
}

/// A block that got two numbers, one after the other.
fn renumbered(alloc: Global, first: u8, second: u8) -> Result<Block, AllocError> {
    let mut block = Block::new(alloc, 16)?;
    block.label(first as u32, 0, 0);
    block.label(second as u32, 1, 0);
    Ok(block)
}

/// Whether blocks have these numbers, in this order.
fn are_numbered(blocks: &[Block], numbers: &[u32]) -> bool {
    blocks
        .iter()
        .map(|block| block.number())
        .eq(numbers.iter().copied())
}

#[test]
fn blocks_stand_in_the_order_of_their_first_numbers(rt: HostRuntime) -> Result<(), Fail> {
    let mut blocks = vec![in rt.alloc();
        renumbered(rt.alloc(), 3, 0)?,
        renumbered(rt.alloc(), 0, 9)?,
        renumbered(rt.alloc(), 2, 1)?,
    ]?;
    order_by_memory(rt.alloc(), &mut blocks)?;
    assert!(rt; are_numbered(&blocks, &[9, 1, 0]));
    Ok(())
}

/// Whether so many blocks are granted, and they have these numbers.
fn is_granted(alloc: Global, pool: &mut Pool, count: usize, numbers: &[u32]) -> bool {
    match pool.grant(alloc, count) {
        Ok(granted) => granted.as_slice() == numbers,
        Err(_) => false,
    }
}

/// Whether these numbers are free, and no others.
fn is_free_list(alloc: Global, pool: &Pool, numbers: &[u32]) -> Result<bool, AllocError> {
    let free = pool.free_numbers(alloc)?;
    let mut same = free.len() == numbers.len();
    for (k, number) in numbers.iter().enumerate() {
        same = same && free.nth(k) == Some(*number);
    }
    Ok(same)
}

/// Asserts that two of five blocks are granted, and that one more is taken.
fn assert_two_granted(rt: &impl Abort, alloc: Global, pool: &mut Pool) -> Result<(), AllocError> {
    assert_eq!(rt; (pool.limit(), pool.free_count()), (5, 5));
    assert!(rt; is_granted(alloc, pool, 2, &[0, 1]));
    assert!(rt; pool.is_free(3));
    pool.take(3);
    assert!(rt; is_free_list(alloc, pool, &[2, 4])?);
    Ok(())
}

/// Asserts that a block comes back, and that then three are granted and not four.
fn assert_three_granted(rt: &impl Abort, alloc: Global, pool: &mut Pool) -> Result<(), AllocError> {
    assert!(rt; 1 < pool.limit() && !pool.is_free(1) && !pool.is_free(5));
    pool.give_back(1);
    assert!(rt; is_free_list(alloc, pool, &[1, 2, 4])?);
    assert_eq!(rt; pool.grant(alloc, 4).err(), Some(GrantError::HeapFull));
    assert!(rt; is_granted(alloc, pool, 3, &[1, 2, 4]));
    assert_eq!(rt; pool.free_count(), 0);
    Ok(())
}

#[test]
fn blocks_are_granted_in_rising_order(rt: HostRuntime) -> Result<(), Fail> {
    let mut pool = Pool::new(rt.alloc(), 5)?;
    assert_two_granted(&rt, rt.alloc(), &mut pool)?;
    assert_three_granted(&rt, rt.alloc(), &mut pool)?;
    Ok(())
}
