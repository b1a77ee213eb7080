//! One exporter's queue, on one thread.
ghost use Rattle.std.specs.Prelude.{◌≡◌, ◌<◌, ◌+◌, Some, IfOk, length};

use block_pool::Block;
use pending_queues::{Cargo, Lane, LanePass};
use refusing::Refusing;
use std::alloc::{Allocator, Global};
use std::snapshot::Snapshot;
use std::sync::Wait;
use std::test::Fail;
use std::thread;
use std::thread::{Promise, Threads};

/// How many blocks one thread sends to another.
const BLOCKS: u32 = 100;

/// How often a thread looks for a block.
const TURNS: u32 = 100_000;

/// A key with what was once in a list, and a byte.
#[derive(Drop)]
pub struct Numbers {
    pub list: Snapshot<Vec<u64>>,
    pub step: u8,
}

/// Blocks of any content.
pub struct Any;

impl Cargo for Any {
    type Key = Numbers;

    ghost use Rattle.std.specs.Prelude.{⊤};

    ghost fits = { λ key block. ⊤ };
}

/// The queue of exporter 5 with two seats, of which the first one may send.
type Pair<A> = (Lane<Any, A>, LanePass<Numbers, A>, LanePass<Numbers, A>);

/// Opens it by the second allocator; the first one is for the list of its key.
fn open_pair<A: Allocator + Clone>(alloc: Global, lanes: A) -> Result<Pair<A>, Fail>
    ensures sender { IfOk result (λ p. (p.1.lane ≡ p.0) × (p.1.parts ≡ 1) × (p.1.senders ≡ 1) ×
        (p.1.about.exporter ≡ 5) × (p.1.about.seats ≡ 2) × (length p.1.sent ≡ 0)) }
    ensures taker { IfOk result (λ p. (p.2.lane ≡ p.0) × (p.2.parts ≡ 1) × (p.2.about.seats ≡ 2)) }
{
    let list = Vec::new(alloc);
    let key = Numbers {
        list: Snapshot::of(&list),
        step: 3,
    };
    let (lane, mut root) = Lane::<Any, A>::open(lanes, &key, 5, 2)?;
    let sender = lane.deal(&mut root, true);
    let taker = lane.deal(&mut root, false);
    Ok((lane, sender, taker))
}

/// Sends a block with that number.
fn send_next<R: Wait, A: Allocator + Clone>(
    rt: &R,
    alloc: A,
    lane: &Lane<Any, A>,
    pass: &mut LanePass<Numbers, A>,
    position: u32,
    number: u32,
) -> Result<(), Fail>
    requires lane { pass.old.lane ≡ lane.now }
    requires sends { (0 < pass.old.parts) × (pass.old.senders ≡ 1) × (pass.old.about.exporter ≡ 5) }
    requires position { length pass.old.sent ≡ position }
    requires number { number < 65535 }
    ensures same { IfOk result (λ _. pass.new ≡ record pass.old { sent = pass.new.sent }) }
    ensures sent { IfOk result (λ _. length pass.new.sent ≡ position + 1) }
{
    let mut block = Block::new(alloc, 16)?;
    block.label(number, 1, 1);
    block.mark_exported(5, u64::from(position));
    match lane.send(rt, pass, block) {
        Ok(()) => Ok(()),
        Err(_) => Err("not sent")?,
    }
}

/// The number of the next block, and its position.
fn receive_next<R: Wait>(
    rt: &R,
    lane: &Lane<Any>,
    pass: &mut LanePass<Numbers>,
) -> Option<(u32, u64)>
    requires lane { pass.old.lane ≡ lane.now }
    requires parts { 0 < pass.old.parts }
    ensures { pass.new ≡ record pass.old { taken = pass.new.taken } }
{
    let block = lane.receive(rt, pass)?;
    let (_, position) = block.sent()?;
    Some((block.number(), position))
}

/// Whether no block may be there, and none is.
fn is_empty<R: Wait>(rt: &R, lane: &Lane<Any>, pass: &mut LanePass<Numbers>) -> bool
    requires lane { pass.old.lane ≡ lane.now }
    requires parts { 0 < pass.old.parts }
    ensures { pass.new ≡ record pass.old { taken = pass.new.taken } }
{
    let maybe = lane.maybe(pass);
    receive_next(rt, lane, pass).is_none() && !maybe
}

/// The next two blocks, of which each pass takes one.
fn receive_two<R: Wait>(
    rt: &R,
    lane: &Lane<Any>,
    first: &mut LanePass<Numbers>,
    second: &mut LanePass<Numbers>,
) -> (Option<(u32, u64)>, Option<(u32, u64)>)
    requires lane { (first.old.lane ≡ lane.now) × (second.old.lane ≡ lane.now) }
    requires parts { (0 < first.old.parts) × (0 < second.old.parts) }
    ensures first { first.new ≡ record first.old { taken = first.new.taken } }
    ensures second { second.new ≡ record second.old { taken = second.new.taken } }
{
    let block = receive_next(rt, lane, first);
    (block, receive_next(rt, lane, second))
}

/// Takes a block by two passes in one: how many are left before, the block, and how many are left after.
fn gather_and_receive<R: Wait>(
    rt: &R,
    lane: &Lane<Any>,
    mut pass: LanePass<Numbers>,
    other: LanePass<Numbers>,
) -> (usize, Option<(u32, u64)>, usize)
    requires lane { (pass.lane ≡ lane.now) × (other.lane ≡ lane.now) }
    requires parts { (pass.parts ≡ 1) × (other.parts ≡ 1) × (pass.about.seats ≡ 2) }
{
    lane.gather(&mut pass, other);
    let before = lane.settle(rt, &mut pass);
    let block = receive_next(rt, lane, &mut pass);
    (before, block, lane.settle(rt, &mut pass))
}

/// Sends blocks with the numbers 40, 30 and 20.
fn send_three<R: Wait>(
    rt: &R,
    alloc: Global,
    lane: &Lane<Any>,
    pass: &mut LanePass<Numbers>,
) -> Result<(), Fail>
    requires lane { pass.old.lane ≡ lane.now }
    requires sends { (0 < pass.old.parts) × (pass.old.senders ≡ 1) × (pass.old.about.exporter ≡ 5) ×
        (length pass.old.sent ≡ 0) }
    ensures { IfOk result (λ _. pass.new ≡ record pass.old { sent = pass.new.sent }) }
{
    send_next(rt, alloc, lane, pass, 0, 40)?;
    send_next(rt, alloc, lane, pass, 1, 30)?;
    send_next(rt, alloc, lane, pass, 2, 20)
}

#[test]
fn blocks_come_in_order(rt: HostRuntime) -> Result<(), Fail> {
    let (lane, mut sender, mut taker) = open_pair(rt.alloc(), rt.alloc())?;
    assert!(rt; is_empty(&rt, &lane, &mut taker));
    send_three(&rt, rt.alloc(), &lane, &mut sender)?;
    assert!(rt; lane.maybe(&mut taker));
    let two = receive_two(&rt, &lane, &mut taker, &mut sender);
    assert!(rt; two == (Some((40, 0)), Some((30, 1))));
    let rest = gather_and_receive(&rt, &lane, taker, sender);
    assert!(rt; rest == (1, Some((20, 2)), 0));
    Ok(())
}

#[test]
fn a_lane_frees_what_is_left(rt: HostRuntime) -> Result<(), Fail> {
    let refusing = Refusing::new(rt.alloc(), u64::MAX);
    let (lane, mut sender, _taker) = open_pair(rt.alloc(), &refusing)?;
    let empty = refusing.asked();
    send_next(&rt, &refusing, &lane, &mut sender, 0, 7)?;
    assert!(rt; lane.maybe(&mut sender));
    assert!(rt; empty < refusing.asked() && refusing.returned() < refusing.asked());
    drop(lane);
    assert_eq!(rt; refusing.asked(), refusing.returned());
    Ok(())
}

/// What a thread gives back: its pass, how many blocks it took, and whether their positions rose.
#[derive(Drop)]
pub struct Done {
    pub pass: LanePass<Numbers>,
    pub count: u32,
    pub rising: bool,
}

/// Takes blocks for so many turns.
fn take_some<R: Wait>(rt: &R, lane: &Lane<Any>, mut pass: LanePass<Numbers>) -> Done
    requires lane { pass.lane ≡ lane.now }
    requires parts { 0 < pass.parts }
    ensures { result.pass ≡ record pass { taken = result.pass.taken } }
{
    let mut count = 0u32;
    let mut rising = true;
    let mut above = 0u64;
    for _ in 0..TURNS {
        match receive_next(rt, lane, &mut pass) {
            Some((_, position)) => {
                rising = rising && above <= position;
                above = position.saturating_add(1);
                count = count.wrapping_add(1);
            }
            None => thread::yield_now(),
        }
    }
    Done {
        pass,
        count,
        rising,
    }
}

/// The pass comes back with what it took, and otherwise as it was.
#[derive(Drop)]
struct OnlyTakes(Snapshot<LanePass<Numbers>>);

impl Promise<Done> for OnlyTakes {
    ghost kept_by = { λ p d. d.pass ≡ record p.0.value { taken = d.pass.taken } };
}

/// Sends all blocks.
fn send_all<R: Wait>(
    rt: &R,
    alloc: Global,
    lane: &Lane<Any>,
    pass: &mut LanePass<Numbers>,
) -> Result<(), Fail>
    requires lane { pass.old.lane ≡ lane.now }
    requires sends { (0 < pass.old.parts) × (pass.old.senders ≡ 1) × (pass.old.about.exporter ≡ 5) ×
        (length pass.old.sent ≡ 0) }
    ensures { IfOk result (λ _. pass.new ≡ record pass.old { sent = pass.new.sent }) }
{
    for position in 0..BLOCKS {
        send_next(rt, alloc, lane, pass, position, position)?;
    }
    Ok(())
}

/// One thread sends, another takes.
fn send_and_take<R: Threads + Wait + Sync>(
    rt: &R,
    alloc: Global,
    lane: &Lane<Any>,
    mut sender: LanePass<Numbers>,
    taker: LanePass<Numbers>,
) -> Result<(LanePass<Numbers>, Done), Fail>
    requires sender { (sender.lane ≡ lane.now) × (sender.parts ≡ 1) × (sender.senders ≡ 1) ×
        (sender.about.exporter ≡ 5) × (length sender.sent ≡ 0) }
    requires taker { (taker.lane ≡ lane.now) × (taker.parts ≡ 1) }
    ensures { IfOk result (λ r. (r.0 ≡ record sender { sent = r.0.sent }) ×
        (r.1.pass ≡ record taker { taken = r.1.pass.taken })) }
{
    thread::scope(
        thread::scope_env(),
        rt,
        |scope| -> Result<(LanePass<Numbers>, Done), Fail>
            requires { (sender.lane ≡ lane.now) × (sender.parts ≡ 1) × (sender.senders ≡ 1) ×
                (sender.about.exporter ≡ 5) × (length sender.sent ≡ 0) × (taker.lane ≡ lane.now) × (taker.parts ≡ 1) }
            ensures { IfOk result (λ r. (r.0 ≡ record sender { sent = r.0.sent }) ×
                (r.1.pass ≡ record taker { taken = r.1.pass.taken })) }
        {
            let child = scope.spawn_with(OnlyTakes(Snapshot::of(&taker)), move || {
                take_some(rt, lane, taker)
            })?;
            send_all(rt, alloc, lane, &mut sender)?;
            Ok((sender, child.join(rt)))
        },
    )
}

#[test]
fn each_block_is_taken_once(rt: HostRuntime) -> Result<(), Fail> {
    let (lane, sender, taker) = open_pair(rt.alloc(), rt.alloc())?;
    let (mut sender, done) = send_and_take(&rt, rt.alloc(), &lane, sender, taker)?;
    assert!(rt; done.rising);
    let Done {
        pass,
        count,
        rising: _,
    } = done;
    lane.gather(&mut sender, pass);
    let left = lane.settle(&rt, &mut sender);
    assert_eq!(rt; left.checked_add(count as usize), Some(100));
    Ok(())
}
