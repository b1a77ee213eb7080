//! Queues for one thread.
ghost use Rattle.std.specs.Prelude.{◌≡◌, ◌<◌, ◌≤◌, length, IfOk};

use crate::sharing_tests::queue_tests::test_blocks::{
    OfWords, Seen, assert_delivered, assert_in_order, block_of, told_of,
};
use pending_queues::{Deliveries, PlainPending, PlainSeat};
use std::alloc::Global;
use std::process::Abort;
use std::test::Fail;

/// Exports a block of so many objects.
fn export(
    alloc: Global,
    pending: &mut PlainPending<OfWords>,
    seat: &mut PlainSeat,
    objects: usize,
) -> Result<(), Fail>
    requires seat { seat.old < length pending.old.lanes }
    requires key { pending.old.key ≡ 16 }
    ensures seat { seat.new ≡ seat.old }
    ensures key { pending.new.key ≡ 16 }
    ensures lanes { length pending.new.lanes ≡ length pending.old.lanes }
{
    let block = block_of(alloc, objects)?;
    pending.export(seat, block).map_err(|_| "not exported")?;
    Ok(())
}

/// Exports blocks of one, two and three objects.
fn export_three(
    alloc: Global,
    pending: &mut PlainPending<OfWords>,
    seat: &mut PlainSeat,
) -> Result<(), Fail>
    requires seat { seat.old < length pending.old.lanes }
    requires key { pending.old.key ≡ 16 }
    ensures lanes { length pending.new.lanes ≡ length pending.old.lanes }
{
    export(alloc, pending, seat, 1)?;
    export(alloc, pending, seat, 2)?;
    export(alloc, pending, seat, 3)
}

/// Takes from a queue, and tells of the block.
fn take(
    pending: &mut PlainPending<OfWords>,
    seat: &mut PlainSeat,
    exporter: u32,
) -> Result<Seen, Fail>
    requires exporter { exporter < length pending.old.lanes }
    ensures lanes { length pending.new.lanes ≡ length pending.old.lanes }
{
    let taken = pending.take(seat, exporter)?;
    Ok(taken.map(|block| (block.sent(), block.len(), block.front())))
}

/// Two seats with queues of their own.
#[derive(Drop)]
struct Pair {
    zero: PlainSeat,
    one: PlainSeat,
}

fn open_pair(alloc: Global) -> Result<(PlainPending<OfWords>, Pair), Fail>
    ensures queues { IfOk result (λ t. (length t.0.lanes ≡ 2) × (t.0.key ≡ 16)) }
    ensures seats { IfOk result (λ t. (t.1.zero ≡ 0) × (t.1.one ≡ 1)) }
{
    let (pending, mut seats) = PlainPending::<OfWords>::new(alloc, 2, &16)?;
    let one = seats.pop().ok_or("no seat")?;
    let zero = seats.pop().ok_or("no seat")?;
    Ok((pending, Pair { zero, one }))
}

/// What seat 1, seat 0 and seat 1 again take from a queue.
fn take_in_turn(
    pending: &mut PlainPending<OfWords>,
    pair: &mut Pair,
    exporter: u32,
) -> Result<(Seen, Seen, Seen), Fail>
    requires exporter { exporter < length pending.old.lanes }
    ensures lanes { length pending.new.lanes ≡ length pending.old.lanes }
{
    let first = take(pending, &mut pair.one, exporter)?;
    let second = take(pending, &mut pair.zero, exporter)?;
    let third = take(pending, &mut pair.one, exporter)?;
    Ok((first, second, third))
}

/// Asserts that three blocks are taken in order, and that there is no fourth.
fn assert_three(
    rt: &impl Abort,
    pending: &mut PlainPending<OfWords>,
    pair: &mut Pair,
) -> Result<(), Fail>
    requires lanes { 0 < length pending.old.lanes }
{
    assert_in_order(rt, take_in_turn(pending, pair, 0)?);
    assert_eq!(rt; take(pending, &mut pair.one, 0)?, None);
    Ok(())
}

#[test]
fn blocks_are_taken_in_order(rt: HostRuntime) -> Result<(), Fail> {
    let (mut pending, mut pair) = open_pair(rt.alloc())?;
    export_three(rt.alloc(), &mut pending, &mut pair.zero)?;
    assert_three(&rt, &mut pending, &mut pair)
}

/// What became of the blocks of both exporters.
fn close(alloc: Global, pending: PlainPending<OfWords>, pair: Pair) -> Result<Deliveries, Fail> {
    let Pair { zero, one } = pair;
    let mut seats = Vec::with_capacity(alloc, 2)?;
    seats.push_reserved(zero);
    seats.push_reserved(one);
    Ok(pending.close(alloc, seats)?)
}

/// Seat 1 and then seat 0 take from the queue of seat 0, and nothing is in that of seat 1.
fn take_two(pending: &mut PlainPending<OfWords>, pair: &mut Pair) -> Result<bool, Fail>
    requires lanes { 1 < length pending.old.lanes }
{
    let first = take(pending, &mut pair.one, 0)?;
    let second = take(pending, &mut pair.zero, 0)?;
    let none = take(pending, &mut pair.zero, 1)?;
    Ok(first.is_some() && second.is_some() && none.is_none())
}

#[test]
fn closing_names_the_takers_and_what_is_left(rt: HostRuntime) -> Result<(), Fail> {
    let (mut pending, mut pair) = open_pair(rt.alloc())?;
    export_three(rt.alloc(), &mut pending, &mut pair.zero)?;
    assert!(rt; take_two(&mut pending, &mut pair)?);
    let deliveries = close(rt.alloc(), pending, pair)?;
    assert_delivered(&rt, &deliveries, 0, [Some(1), Some(0), None]);
    assert!(rt; deliveries.of(2).is_empty());
    Ok(())
}

#[test]
fn a_seat_alone_is_told_of_its_own_blocks(rt: HostRuntime) -> Result<(), Fail> {
    let (mut pending, mut seat) = PlainPending::<OfWords>::alone(rt.alloc(), &16)?;
    export_three(rt.alloc(), &mut pending, &mut seat)?;
    assert!(rt; take(&mut pending, &mut seat, 0)?.is_some());
    let told = pending.close_alone(rt.alloc(), seat)?;
    assert_eq!(rt; told.as_slice(), told_of([Some(0), None, None]).as_slice());
    Ok(())
}

/// The first seat takes a block that the second one exports. Whether one may be there just then.
fn may_be_there_between(
    alloc: Global,
    pending: &mut PlainPending<OfWords>,
    pair: &mut Pair,
) -> Result<bool, Fail>
    requires seat { pair.old.one < length pending.old.lanes }
    requires lanes { 1 < length pending.old.lanes }
    requires key { pending.old.key ≡ 16 }
{
    let before = pending.maybe(0) || pending.maybe(1);
    export(alloc, pending, &mut pair.one, 1)?;
    let between = !pending.maybe(0) && pending.maybe(1);
    let taken = take(pending, &mut pair.zero, 1)?;
    Ok(!before && between && taken.is_some() && !pending.maybe(1))
}

#[test]
fn a_block_may_be_there_exactly_where_one_is(rt: HostRuntime) -> Result<(), Fail> {
    let (mut pending, mut pair) = open_pair(rt.alloc())?;
    let is_between = may_be_there_between(rt.alloc(), &mut pending, &mut pair)?;
    assert!(rt; is_between);
    assert!(rt; pair.zero.index() == 0 && pair.one.index() == 1);
    Ok(())
}
