//! The order of spare blocks in memory, and of the steps of a heap.
use block_pool::Block;
use heap::{Spare, StepId};
use refusing::Refusing;
use std::alloc::{AllocError, Global};
use std::process::Abort;
use std::test::Fail;

/// The new block, with its first number.
fn numbered<'a>(mut block: Block<&'a Refusing<Global>>, number: u8) -> Block<&'a Refusing<Global>> {
    block.label(number as u32, 0, 0);
    block
}

/// Blocks of 16, 20 and 24 words, in this order. By their first numbers that of 20 words comes before that of 24, and that of 16 is
/// the last.
fn three_blocks(refusing: &Refusing<Global>) -> Result<Spare<&Refusing<Global>>, AllocError> {
    let mut spare = Spare::none();
    spare.join(refusing, Spare::none(), 3)?;
    spare.keep(numbered(Block::new(refusing, 16)?, 3));
    spare.keep(numbered(Block::new(refusing, 20)?, 1));
    spare.keep(numbered(Block::new(refusing, 24)?, 2));
    Ok(spare)
}

/// The same once they are in order, each is given out, and each is spare again with another number, that of 20 words between the
/// others.
fn three_again(refusing: &Refusing<Global>) -> Result<Spare<&Refusing<Global>>, AllocError> {
    let mut spare = three_blocks(refusing)?;
    spare.order_by_memory(refusing)?;
    let first = spare.block(refusing, 20)?;
    let second = spare.block(refusing, 24)?;
    let third = spare.block(refusing, 16)?;
    spare.keep(numbered(third, 7));
    spare.keep(numbered(first, 9));
    spare.keep(numbered(second, 8));
    Ok(spare)
}

/// Asserts that the block of 20 words is the first that is given out once blocks are in the order of the numbers that they were
/// given first: it is there, so it takes no memory. A block of other words would be made anew.
fn assert_ordered<'a>(
    rt: &impl Abort,
    refusing: &'a Refusing<Global>,
    mut spare: Spare<&'a Refusing<Global>>,
) -> Result<(), Fail> {
    spare.order_by_memory(refusing)?;
    let before = refusing.asked();
    let _block = spare.block(refusing, 20)?;
    assert_eq!(rt;
        (refusing.asked().saturating_sub(before), spare.block_count()),
        (0, 2)
    );
    Ok(())
}

#[test]
fn spare_blocks_stand_in_the_order_of_their_first_numbers(rt: HostRuntime) -> Result<(), Fail> {
    let refusing = Refusing::new(rt.alloc(), u64::MAX);
    assert_ordered(&rt, &refusing, three_blocks(&refusing)?)?;
    assert_ordered(&rt, &refusing, three_again(&refusing)?)?;
    assert_eq!(rt; refusing.asked(), refusing.returned());
    Ok(())
}

fn step(generation: u8, step: u8) -> StepId {
    StepId { generation, step }
}

/// Objects age over the steps of a generation, and then go to the next one.
#[test]
fn steps_stand_in_the_order_in_which_objects_age(rt: HostRuntime) {
    assert!(rt; step(0, 0) < step(0, 1));
    assert!(rt; step(0, 3) < step(1, 0));
}
