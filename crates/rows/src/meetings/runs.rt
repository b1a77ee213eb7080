//! Runs of a trace: the two workers of its collection meet.
use crate::meetings::gates::Meeting;
use heap::{Config, Sizes};
use heap_text::Counted;
use std::alloc::AllocGlobal;
use std::process::Abort;
use std::random::RandomSource;
use std::sync::Wait;
use std::test::Fail;
use std::thread::Threads;
use trace_driver::{CellKind, CountedReader, RunConfig, main_at, run};

/// A trace with one collection, of objects with a name each.
#[derive(Clone, Copy)]
struct Met {
    nursery_blocks: u64,
    trace: &'static str,
    /// How many objects are copied, each after one race.
    races: u64,
    printed: &'static str,
}

/// A collection that is asked for.
const ASKED_FOR: Met = Met {
    nursery_blocks: 4,
    trace: "new a 0 0 0
new b 0 0 0
collect 0
",
    races: 2,
    printed: "collected 0: 2 kept, 0 freed
",
};

/// Four objects fill the nursery, which is collected by itself before the fifth.
const BY_ITSELF: Met = Met {
    nursery_blocks: 1,
    trace: "new a 0 0 15
new b 0 0 15
new c 0 0 15
new d 0 0 15
new e 0 0 15
",
    races: 4,
    printed: "auto 0: 4 kept, 0 freed
",
};

/// What a run with two workers prints.
fn printed<R: Threads + Wait + Sync + AllocGlobal>(
    rt: &R,
    met: Met,
    kind: CellKind,
    gate: &Meeting,
) -> Result<Vec<u8>, Fail> {
    let sizes = Sizes {
        block_words: 64,
        nursery_blocks: met.nursery_blocks,
        ..Sizes::default()
    };
    let config = RunConfig::new(Config::new(sizes)?, 2, kind)?;
    let mut reader = CountedReader::new(met.trace.as_bytes());
    let mut writer = Counted::new(Vec::new(rt.alloc()));
    run(rt, rt.alloc(), &mut reader, &mut writer, config, gate)?;
    Ok(writer.inner)
}

/// Whether two workers meet before their first races, and the run prints what it is to print.
fn meet<R: Threads + Wait + Sync + AllocGlobal>(
    rt: &R,
    met: Met,
    kind: CellKind,
) -> Result<bool, Fail> {
    let gate = Meeting::new();
    let text = printed(rt, met, kind, &gate)?;
    Ok(gate.met() && gate.races() == met.races && text.as_slice() == met.printed.as_bytes())
}

/// What the program prints by two workers who meet, and the status with which it ends.
fn printed_by_program<R: Threads + Wait + Sync + AllocGlobal + RandomSource>(
    rt: &R,
    words: &str,
    gate: &Meeting,
) -> Result<(u8, Vec<u8>), Fail> {
    let words: Vec<&str> = words.split_whitespace().collect(rt.alloc())?;
    let mut reader = CountedReader::new(ASKED_FOR.trace.as_bytes());
    let mut writer = Counted::new(Vec::new(rt.alloc()));
    let mut errors = Counted::new(Vec::new(rt.alloc()));
    let status = main_at(
        rt,
        words.as_slice(),
        &mut reader,
        &mut writer,
        &mut errors,
        gate,
    );
    Ok((status, writer.inner))
}

/// Asserts that the two workers whom these words ask for meet.
fn assert_asked_for<R: Threads + Wait + Sync + AllocGlobal + RandomSource + Abort>(
    rt: &R,
    words: &str,
) -> Result<(), Fail> {
    let gate = Meeting::new();
    let (status, text) = printed_by_program(rt, words, &gate)?;
    assert_eq!(rt; status, 0);
    assert!(rt; text.as_slice() == ASKED_FOR.printed.as_bytes());
    assert!(rt; gate.met() && gate.races() == ASKED_FOR.races, "{words}");
    Ok(())
}

/// The two workers of a run of the program meet, whose words ask for two.
#[test]
fn two_workers_of_the_program_meet(rt: HostRuntime) -> Result<(), Fail> {
    assert_asked_for(&rt, "gctrace run --block-words 64 --threads 2")?;
    assert_asked_for(&rt, "gctrace run --threads 2 --cells box --block-words 64")
}

#[test]
fn two_workers_of_a_run_meet(rt: HostRuntime) -> Result<(), Fail> {
    for met in [ASKED_FOR, BY_ITSELF] {
        let printed = met.printed;
        assert!(&rt; meet(&rt, met, CellKind::Word)?, "words, {printed}");
        assert!(&rt; meet(&rt, met, CellKind::Box)?, "boxes, {printed}");
    }
    Ok(())
}
