//! Seats that go to threads and come back.
ghost use denote.Param.Send.{IsSync};
ghost use Rattle.std.specs.Prelude.{◌≡◌, length, IfOk};
ghost use Rattle.pending_queues.specs.PendingValue.{IsSeatOf};

use crate::sharing_tests::queue_tests::test_blocks::{OfWords, block_of};
use pending_queues::{Deliveries, Delivery, PendingSeat, RuledPending};
use std::alloc::{AllocError, Global};
use std::process::Abort;
use std::snapshot::Snapshot;
use std::sync::Wait;
use std::test::Fail;
use std::thread;
use std::thread::{Promise, Threads};

/// How many blocks the one exporter sends.
const BLOCKS: usize = 1_000;

/// How often a taker looks for a block.
const TURNS: u32 = 1_000_000;

/// What a thread gives back: its seat, how many blocks it took, and whether their positions rose.
#[derive(Drop)]
struct Done {
    seat: PendingSeat<OfWords>,
    count: usize,
    rising: bool,
}

/// The seat that comes back is one of these queues.
#[derive(Drop)]
struct OfQueues(Snapshot<RuledPending<OfWords>>);

impl Promise<Done> for OfQueues {
    ghost kept_by = { λ p d. IsSeatOf p.0.value d.seat };
}

/// Takes from the first exporter's queue for so many turns.
fn take_some<R: Wait>(
    rt: &R,
    pending: &RuledPending<OfWords>,
    mut seat: PendingSeat<OfWords>,
) -> Done
    requires seat { IsSeatOf pending.now seat }
    ensures { IsSeatOf pending.now result.seat }
{
    let mut count = 0usize;
    let mut rising = true;
    let mut above = 0u64;
    for _ in 0..TURNS {
        match pending.take(rt, &mut seat, 0) {
            Ok(Some(block)) => {
                let position = block.sent().map(|(_, position)| position).unwrap_or(0);
                rising = rising && above <= position;
                above = position.saturating_add(1);
                count = count.wrapping_add(1);
            }
            Ok(None) => thread::yield_now(),
            Err(_) => break,
        }
    }
    Done {
        seat,
        count,
        rising,
    }
}

/// Exports all blocks.
fn export_all<R: Wait>(
    rt: &R,
    alloc: Global,
    pending: &RuledPending<OfWords>,
    seat: &mut PendingSeat<OfWords>,
) -> Result<(), AllocError>
    requires seat { IsSeatOf pending.now seat.old }
    requires key { pending.now.key ≡ 16 }
    ensures seat { IsSeatOf pending.now seat.new }
{
    for _ in 0..BLOCKS {
        let block = block_of(alloc, 2)?;
        match pending.export(rt, seat, block) {
            Ok(()) => {}
            Err((_, error)) => return Err(error),
        }
    }
    Ok(())
}

/// One exporter and two takers.
struct Trio {
    exporter: PendingSeat<OfWords>,
    first: PendingSeat<OfWords>,
    second: PendingSeat<OfWords>,
}

fn open_trio(alloc: Global) -> Result<(RuledPending<OfWords>, Trio), Fail>
    ensures queues { IfOk result (λ t. (length t.0.lanes ≡ 3) × (t.0.key ≡ 16)) }
    ensures exporter { IfOk result (λ t. IsSeatOf t.0 t.1.exporter) }
    ensures takers { IfOk result (λ t. IsSeatOf t.0 t.1.first × IsSeatOf t.0 t.1.second) }
{
    let (pending, mut seats) = RuledPending::<OfWords>::new(alloc, 3, &16)?;
    let second = seats.pop().ok_or("no seat")?;
    let first = seats.pop().ok_or("no seat")?;
    let exporter = seats.pop().ok_or("no seat")?;
    Ok((
        pending,
        Trio {
            exporter,
            first,
            second,
        },
    ))
}

/// One thread exports, two others take. Says last whether all were exported.
fn export_and_take<R: Threads + Wait + Sync>(
    rt: &R,
    alloc: Global,
    pending: &RuledPending<OfWords>,
    trio: Trio,
) -> Result<(PendingSeat<OfWords>, Done, Done, bool), Fail>
    requires exporter { IsSeatOf pending.now trio.exporter }
    requires takers { IsSeatOf pending.now trio.first × IsSeatOf pending.now trio.second }
    requires key { pending.now.key ≡ 16 }
    ensures { IfOk result (λ r. IsSeatOf pending.now r.0 × IsSeatOf pending.now r.1.seat ×
        IsSeatOf pending.now r.2.seat) }
{
    let Trio {
        mut exporter,
        first,
        second,
    } = trio;
    thread::scope(
        thread::scope_env(),
        rt,
        |scope| -> Result<(PendingSeat<OfWords>, Done, Done, bool), Fail>
            requires runtime { IsSync R.row }
            requires key { pending.now.key ≡ 16 }
            requires seats { IsSeatOf pending.now exporter × IsSeatOf pending.now first × IsSeatOf pending.now second }
            ensures { IfOk result (λ r. IsSeatOf pending.entry.now r.0 × IsSeatOf pending.entry.now r.1.seat ×
                IsSeatOf pending.entry.now r.2.seat) }
        {
            let one = scope.spawn_with(OfQueues(Snapshot::of(pending)), move || {
                take_some(rt, pending, first)
            })?;
            let two = scope.spawn_with(OfQueues(Snapshot::of(pending)), move || {
                take_some(rt, pending, second)
            })?;
            let is_exported = export_all(rt, alloc, pending, &mut exporter).is_ok();
            Ok((exporter, one.join(rt), two.join(rt), is_exported))
        },
    )
}

/// How many of the blocks that seat took.
fn count_taken(deliveries: &[Delivery], taker: u32) -> usize {
    deliveries
        .iter()
        .filter(|delivery| delivery.taker == Some(taker))
        .count()
}

/// Asserts that all blocks were sent, that the exporter took none, and how many each of the takers took.
fn assert_taken(rt: &impl Abort, sent: &[Delivery], counts: (usize, usize)) {
    assert!(rt; sent.len() == BLOCKS && count_taken(sent, 0) == 0);
    assert_eq!(rt; (count_taken(sent, 1), count_taken(sent, 2)), counts);
}

/// What became of the blocks.
fn close<R: Wait>(
    rt: &R,
    alloc: Global,
    pending: RuledPending<OfWords>,
    trio: Trio,
) -> Result<Deliveries, AllocError>
    requires queues { length pending.lanes ≡ 3 }
    requires exporter { IsSeatOf pending trio.exporter }
    requires takers { IsSeatOf pending trio.first × IsSeatOf pending trio.second }
{
    let Trio {
        exporter,
        first,
        second,
    } = trio;
    let mut seats = Vec::with_capacity(alloc, 3)?;
    seats.push_reserved(exporter);
    seats.push_reserved(first);
    seats.push_reserved(second);
    pending.close(rt, alloc, seats)
}

#[test]
fn seats_go_to_threads(rt: HostRuntime) -> Result<(), Fail> {
    let (pending, trio) = open_trio(rt.alloc())?;
    let (exporter, first, second, is_exported) = export_and_take(&rt, rt.alloc(), &pending, trio)?;
    assert!(rt; is_exported && first.rising && second.rising);
    let counts = (first.count, second.count);
    let trio = Trio {
        exporter,
        first: first.seat,
        second: second.seat,
    };
    let deliveries = close(&rt, rt.alloc(), pending, trio)?;
    assert_taken(&rt, deliveries.of(0), counts);
    Ok(())
}
