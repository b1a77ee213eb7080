//! The queues that threads share, on one thread.
ghost use Rattle.std.specs.Prelude.{◌≡◌, ◌<◌, length, IfOk};
ghost use Rattle.pending_queues.specs.PendingValue.{IsSeatOf};

use crate::sharing_tests::queue_tests::test_blocks::{
    OfWords, Seen, assert_delivered, assert_in_order, block_of,
};
use pending_queues::{Deliveries, PendingSeat, RuledPending};
use std::alloc::{AllocError, Global};
use std::process::Abort;
use std::sync::Wait;
use std::test::Fail;

/// Exports a block of so many objects.
fn export<R: Wait>(
    rt: &R,
    alloc: Global,
    pending: &RuledPending<OfWords>,
    seat: &mut PendingSeat<OfWords>,
    objects: usize,
) -> Result<(), AllocError>
    requires seat { IsSeatOf pending.now seat.old }
    requires key { pending.now.key ≡ 16 }
    ensures seat { IsSeatOf pending.now seat.new }
{
    let block = block_of(alloc, objects)?;
    match pending.export(rt, seat, block) {
        Ok(()) => Ok(()),
        Err((_, error)) => Err(error),
    }
}

/// Exports blocks of one, two and three objects.
fn export_three<R: Wait>(
    rt: &R,
    alloc: Global,
    pending: &RuledPending<OfWords>,
    seat: &mut PendingSeat<OfWords>,
) -> Result<(), AllocError>
    requires seat { IsSeatOf pending.now seat.old }
    requires key { pending.now.key ≡ 16 }
    ensures seat { IsSeatOf pending.now seat.new }
{
    export(rt, alloc, pending, seat, 1)?;
    export(rt, alloc, pending, seat, 2)?;
    export(rt, alloc, pending, seat, 3)
}

/// Takes from a queue, and tells of the block.
fn take<R: Wait>(
    rt: &R,
    pending: &RuledPending<OfWords>,
    seat: &mut PendingSeat<OfWords>,
    exporter: u32,
) -> Result<Seen, AllocError>
    requires seat { IsSeatOf pending.now seat.old }
    requires exporter { exporter < length pending.now.lanes }
    ensures seat { IsSeatOf pending.now seat.new }
{
    let taken = pending.take(rt, seat, exporter)?;
    Ok(taken.map(|block| (block.sent(), block.len(), block.front())))
}

/// Two seats with queues of their own.
#[derive(Drop)]
struct Pair {
    zero: PendingSeat<OfWords>,
    one: PendingSeat<OfWords>,
}

fn open_pair(alloc: Global) -> Result<(RuledPending<OfWords>, Pair), Fail>
    ensures queues { IfOk result (λ t. (length t.0.lanes ≡ 2) × (t.0.key ≡ 16)) }
    ensures zero { IfOk result (λ t. IsSeatOf t.0 t.1.zero) }
    ensures one { IfOk result (λ t. IsSeatOf t.0 t.1.one) }
{
    let (pending, mut seats) = RuledPending::<OfWords>::new(alloc, 2, &16)?;
    let one = seats.pop().ok_or("no seat")?;
    let zero = seats.pop().ok_or("no seat")?;
    Ok((pending, Pair { zero, one }))
}

/// What seat 1, seat 0 and seat 1 again take from a queue.
fn take_in_turn<R: Wait>(
    rt: &R,
    pending: &RuledPending<OfWords>,
    pair: &mut Pair,
    exporter: u32,
) -> Result<(Seen, Seen, Seen), AllocError>
    requires zero { IsSeatOf pending.now pair.old.zero }
    requires one { IsSeatOf pending.now pair.old.one }
    requires exporter { exporter < length pending.now.lanes }
    ensures zero { IsSeatOf pending.now pair.new.zero }
    ensures one { IsSeatOf pending.now pair.new.one }
{
    let first = take(rt, pending, &mut pair.one, exporter)?;
    let second = take(rt, pending, &mut pair.zero, exporter)?;
    let third = take(rt, pending, &mut pair.one, exporter)?;
    Ok((first, second, third))
}

/// Asserts that a block may be there once three are exported, which the seats then take in order, and no fourth.
fn assert_three<R: Wait + Abort>(
    rt: &R,
    alloc: Global,
    pending: &RuledPending<OfWords>,
    pair: &mut Pair,
) -> Result<(), AllocError>
    requires zero { IsSeatOf pending.now pair.old.zero }
    requires one { IsSeatOf pending.now pair.old.one }
    requires lanes { 0 < length pending.now.lanes }
    requires key { pending.now.key ≡ 16 }
{
    assert!(rt; !pending.maybe(&mut pair.one, 0));
    export_three(rt, alloc, pending, &mut pair.zero)?;
    assert!(rt; pending.maybe(&mut pair.one, 0));
    assert_in_order(rt, take_in_turn(rt, pending, pair, 0)?);
    let (first, second, third) = take_in_turn(rt, pending, pair, 0)?;
    assert!(rt; first.is_none() && second.is_none() && third.is_none());
    Ok(())
}

#[test]
fn blocks_are_taken_in_order(rt: HostRuntime) -> Result<(), Fail> {
    let (pending, mut pair) = open_pair(rt.alloc())?;
    assert_three(&rt, rt.alloc(), &pending, &mut pair)?;
    assert!(rt; pair.zero.index() == 0 && pair.one.index() == 1);
    Ok(())
}

/// What became of the blocks of both exporters.
fn close<R: Wait>(
    rt: &R,
    alloc: Global,
    pending: RuledPending<OfWords>,
    pair: Pair,
) -> Result<Deliveries, AllocError>
    requires queues { length pending.lanes ≡ 2 }
    requires zero { IsSeatOf pending pair.zero }
    requires one { IsSeatOf pending pair.one }
{
    let Pair { zero, one } = pair;
    let mut seats = Vec::with_capacity(alloc, 2)?;
    seats.push_reserved(one);
    seats.push_reserved(zero);
    pending.close(rt, alloc, seats)
}

/// The seats take all blocks of the first one, in turn.
fn export_and_take_all<R: Wait>(
    rt: &R,
    alloc: Global,
    pending: &RuledPending<OfWords>,
    pair: &mut Pair,
) -> Result<(), AllocError>
    requires zero { IsSeatOf pending.now pair.old.zero }
    requires one { IsSeatOf pending.now pair.old.one }
    requires lanes { 0 < length pending.now.lanes }
    requires key { pending.now.key ≡ 16 }
    ensures zero { IsSeatOf pending.now pair.new.zero }
    ensures one { IsSeatOf pending.now pair.new.one }
{
    export_three(rt, alloc, pending, &mut pair.zero)?;
    take_in_turn(rt, pending, pair, 0)?;
    Ok(())
}

#[test]
fn closing_names_the_takers(rt: HostRuntime) -> Result<(), Fail> {
    let (pending, mut pair) = open_pair(rt.alloc())?;
    export_and_take_all(&rt, rt.alloc(), &pending, &mut pair)?;
    let deliveries = close(&rt, rt.alloc(), pending, pair)?;
    assert_delivered(&rt, &deliveries, 0, [Some(1), Some(0), Some(1)]);
    Ok(())
}

/// The first seat takes one of the second one's three blocks.
fn export_and_take_one<R: Wait>(
    rt: &R,
    alloc: Global,
    pending: &RuledPending<OfWords>,
    pair: &mut Pair,
) -> Result<Seen, AllocError>
    requires zero { IsSeatOf pending.now pair.old.zero }
    requires one { IsSeatOf pending.now pair.old.one }
    requires lanes { 1 < length pending.now.lanes }
    requires key { pending.now.key ≡ 16 }
    ensures zero { IsSeatOf pending.now pair.new.zero }
    ensures one { IsSeatOf pending.now pair.new.one }
{
    export_three(rt, alloc, pending, &mut pair.one)?;
    take(rt, pending, &mut pair.zero, 1)
}

#[test]
fn closing_tells_what_is_left(rt: HostRuntime) -> Result<(), Fail> {
    let (pending, mut pair) = open_pair(rt.alloc())?;
    let taken = export_and_take_one(&rt, rt.alloc(), &pending, &mut pair)?;
    assert!(rt; taken == Some((Some((1, 0)), 1, 1)));
    let deliveries = close(&rt, rt.alloc(), pending, pair)?;
    assert_delivered(&rt, &deliveries, 1, [Some(0), None, None]);
    Ok(())
}
