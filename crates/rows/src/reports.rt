//! The lines of workers and of blocks that change hands.
use heap::{Delivery, PackedPlace, Report, Won, WorkerReport};
use heap_text::{Cause, Counted, workers_text, write_report};
use layout::Place;
use std::alloc::{AllocError, Global};
use std::test::Fail;

/// The lists of a worker that won and scanned so many objects.
fn lists_of(alloc: Global, won_count: u32, scanned_count: u32) -> Result<WorkerReport, AllocError> {
    let place = PackedPlace::new(Place::large(0));
    let mut won = Vec::new(alloc);
    for number in 0..won_count {
        won.push(Won { number, place })?;
    }
    let scanned = vec![in alloc; place; scanned_count as usize]?;
    Ok(WorkerReport::new(won, scanned))
}

/// What is written of a collection of generation 0.
fn written(alloc: Global, cause: Cause, report: &Report) -> Result<Vec<u8>, Fail> {
    let mut writer = Counted::new(Vec::new(alloc));
    let workers = report.workers.as_slice();
    let lines = workers_text(alloc, workers, report.deliveries.as_slice())?;
    let (kept, freed) = (report.kept, report.freed);
    write_report(cause, 0, kept, freed, lines.as_str(), &mut writer)?;
    Ok(writer.inner)
}

const BLOCKS_CHANGE_HANDS: &[u8] = b"collected 0: 14 kept, 0 freed
worker 0: 14 won, 6 scanned
worker 1: 0 won, 8 scanned
block 0.0: 4 objects, taken by 1
block 0.1: 4 objects, taken by 0
block 0.2: 4 objects, taken by 1
";

#[test]
fn writes_workers_and_blocks(rt: HostRuntime) -> Result<(), Fail> {
    let mut workers = Vec::new(rt.alloc());
    workers.push(lists_of(rt.alloc(), 14, 6)?)?;
    workers.push(lists_of(rt.alloc(), 0, 8)?)?;
    let mut deliveries = Vec::new(rt.alloc());
    for (position, taker) in [(0, 1), (1, 0), (2, 1)] {
        deliveries.push(Delivery {
            exporter: 0,
            position,
            objects: 4,
            taker,
        })?;
    }
    let report = Report {
        kept: 14,
        freed: 0,
        workers,
        deliveries,
    };
    let text = written(rt.alloc(), Cause::Command, &report)?;
    assert_eq!(rt; text.as_slice(), BLOCKS_CHANGE_HANDS);
    Ok(())
}

const NOTHING_KEPT: &[u8] = b"auto 0: 0 kept, 3 freed
worker 0: 0 won, 0 scanned
worker 1: 0 won, 0 scanned
";

#[test]
fn writes_workers_that_found_nothing(rt: HostRuntime) -> Result<(), Fail> {
    let mut workers = Vec::new(rt.alloc());
    workers.push(lists_of(rt.alloc(), 0, 0)?)?;
    workers.push(lists_of(rt.alloc(), 0, 0)?)?;
    let report = Report {
        kept: 0,
        freed: 3,
        workers,
        deliveries: Vec::new(rt.alloc()),
    };
    let text = written(rt.alloc(), Cause::FullNursery, &report)?;
    assert_eq!(rt; text.as_slice(), NOTHING_KEPT);
    Ok(())
}
