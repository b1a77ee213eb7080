//! The calls below the program: a collection's line, runs, and faults and errors as text.
ghost use Rattle.std.specs.Prelude.{◌≡◌, IfOk};

use crate::program::{FIRST_OUTPUT, FIRST_TRACE, text_of};
use forwarding::OpenGate;
use heap::{BadConfig, Config, Sizes};
use heap_text::{Cause, Counted, ReadFailed, WriteError, WriteFailed, write_collection};
use std::alloc::{AllocError, Global};
use std::fmt::Display;
use std::process::Abort;
use std::test::Fail;
use trace_driver::{CellKind, CountedReader, Fault, RunConfig, run, run_one};
use trace_text::{Kind, ScheduleKind};

/// One block of 16 words for the nursery, and one more.
fn two_blocks() -> Result<RunConfig, BadConfig>
    ensures { IfOk result (λ run. run.workers ≡ 1) }
{
    let config = Config::new(Sizes {
        block_words: 16,
        blocks: 2,
        mutators: 1,
        nursery_blocks: 1,
        generations: 1,
        steps: 1,
    })?;
    RunConfig::new(config, 1, CellKind::Word)
}

const TWO_LINES: &str = "collected 3: 18446744073709551615 kept, 10 freed
collected 0: 1 kept, 0 freed
";

#[test]
fn line_of_a_collection_and_a_run(rt: HostRuntime) -> Result<(), Fail> {
    let mut writer = Counted::new(Vec::new(rt.alloc()));
    write_collection(Cause::Command, 3, u64::MAX, 10, &mut writer)?;
    let config = two_blocks()?;
    let mut reader = CountedReader::new(b"new a 0 0 0\ncollect 0\n".as_slice());
    let result = run_one(rt.alloc(), &mut reader, &mut writer, config);
    let written = text_of(writer.inner.as_slice());
    assert_eq!(rt; (result, written), (Ok(()), TWO_LINES));
    Ok(())
}

/// So many workers of four blocks of 64 words for the nursery, and of twelve more.
fn sixteen_blocks(workers: u64) -> Result<RunConfig, BadConfig>
    ensures { IfOk result (λ run. run.workers ≡ workers) }
{
    let config = Config::new(Sizes {
        block_words: 64,
        blocks: 16,
        mutators: 1,
        nursery_blocks: 4,
        generations: 1,
        steps: 2,
    })?;
    RunConfig::new(config, workers, CellKind::Word)
}

#[test]
fn most_workers(rt: HostRuntime) {
    assert_eq!(rt; sixteen_blocks(17).err(), Some(BadConfig));
}

#[test]
fn run_without_words(rt: HostRuntime) -> Result<(), Fail> {
    let config = sixteen_blocks(1)?.with_seed(u128::MAX);
    assert_eq!(rt; config.seed(), u128::MAX);
    let mut reader = CountedReader::new(FIRST_TRACE.as_bytes());
    let mut writer = Counted::new(Vec::new(rt.alloc()));
    let result = run(&rt, rt.alloc(), &mut reader, &mut writer, config, &OpenGate);
    let written = text_of(writer.inner.as_slice());
    assert_eq!(rt; (result, written), (Ok(()), FIRST_OUTPUT));
    Ok(())
}

/// Asserts that a fault or an error reads so.
fn assert_reads<E: Display>(
    rt: &impl Abort,
    alloc: Global,
    error: &E,
    told: &str,
) -> Result<(), AllocError> {
    let text = format!(in alloc; "{error}")?;
    assert_eq!(rt; text.as_str(), told);
    Ok(())
}

/// Asserts that a fault reads so, and has this status.
fn assert_told(
    rt: &impl Abort,
    alloc: Global,
    fault: Fault,
    told: &str,
    status: u8,
) -> Result<(), AllocError> {
    assert_eq!(rt; fault.status(), status, "{told}");
    assert_reads(rt, alloc, &fault, told)
}

#[test]
fn faults_as_text(rt: HostRuntime) -> Result<(), AllocError> {
    for (fault, told, status) in [
        (Fault::HeapFull(None), "heap full", 1),
        (Fault::HeapFull(Some(6)), "line 6: heap full", 1),
        (Fault::NoMemory(None), "no memory", 1),
        (Fault::NoMemory(Some(3)), "line 3: no memory", 1),
        (Fault::HeapFull(Some(300)), "line 300: heap full", 1),
        (Fault::NoMemory(Some(70_000)), "line 70000: no memory", 1),
        (
            Fault::Unsettled(u128::MAX),
            "line 340282366920938463463374607431768211455: cells unsettled",
            1,
        ),
        (Fault::ReadFailed, "read failed", 4),
        (Fault::WriteFailed, "write failed", 4),
        (Fault::Unsettled(7), "line 7: cells unsettled", 1),
        (
            Fault::BadTrace(5, Kind::NoGeneration),
            "line 5: no such generation",
            2,
        ),
    ] {
        assert_told(&rt, rt.alloc(), fault, told, status)?;
    }
    Ok(())
}

#[test]
fn errors_of_streams_as_text(rt: HostRuntime) -> Result<(), AllocError> {
    assert_reads(&rt, rt.alloc(), &WriteError::NoMemory, "no memory")?;
    assert_reads(&rt, rt.alloc(), &WriteError::WriteFailed, "write failed")?;
    assert_reads(&rt, rt.alloc(), &WriteFailed, "write failed")?;
    assert_reads(&rt, rt.alloc(), &ReadFailed, "read failed")
}

#[test]
fn faults_of_schedules_as_text(rt: HostRuntime) -> Result<(), AllocError> {
    for (kind, told) in [
        (ScheduleKind::UnknownEvent, "line 4: unknown event"),
        (ScheduleKind::WrongWords, "line 4: wrong number of words"),
        (ScheduleKind::BadNumber, "line 4: bad number"),
        (ScheduleKind::NotLawful, "line 4: event not lawful"),
        (ScheduleKind::NotEnded, "line 4: collection not ended"),
        (
            ScheduleKind::UnfinishedSchedule,
            "line 4: unfinished schedule",
        ),
    ] {
        assert_told(&rt, rt.alloc(), Fault::BadSchedule(4, kind), told, 2)?;
    }
    Ok(())
}
