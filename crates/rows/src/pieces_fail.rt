//! Runs and replays in pieces of five bytes of which each read and each write fails in turn, and faults before a failed read.
use crate::in_pieces::{
    BLOCKS_CHANGE_HANDS, DEAD_PARENT, Ended, MANY, carried_out, config_of, sizes_of,
};
use crate::pieces::{Failure, PieceReader, PieceWriter};
use crate::program::text_of;
use crate::refused::Task;
use crate::table::row_named;
use crate::{generations, is_front_in_lines, large};
use heap::{BadConfig, Sizes};
use std::alloc::{AllocGlobal, Global};
use std::process::Abort;
use std::sync::Wait;
use std::test::Fail;
use std::thread::Threads;
use trace_driver::{CellKind, Fault};
use trace_text::Kind;

/// Gives these bytes, and fails after so many reads.
fn reader_of(bytes: &[u8], reads: u64) -> PieceReader<'_> {
    PieceReader {
        bytes,
        piece: usize::MAX,
        left: reads,
    }
}

/// Fails after so many writes.
fn writer_of(alloc: Global, writes: u64, failure: Failure) -> PieceWriter {
    PieceWriter {
        held: Vec::new(alloc),
        piece: 20,
        left: writes,
        failure,
    }
}

/// A run whose reads fail after so many. A read asks for 4,096 bytes where the settings say nothing of it.
fn ran<R: Threads + Wait + Sync + AllocGlobal>(
    rt: &R,
    task: Task,
    bytes: &[u8],
    reads: u64,
) -> Result<Ended, BadConfig> {
    let config = config_of(task, sizes_of(1, 512))?;
    let writer = writer_of(rt.alloc(), MANY, Failure::Error);
    Ok(carried_out(rt, task, config, reader_of(bytes, reads), writer))
}

/// Asserts why such a run stops and what it writes, by one worker and by two threads.
fn assert_stopped<R: Threads + Wait + Sync + AllocGlobal + Abort>(
    rt: &R,
    bytes: &[u8],
    reads: u64,
    writes: &str,
    fault: Fault,
) -> Result<(), BadConfig> {
    for task in [Task::Run, Task::Threads(CellKind::Word)] {
        let ended = ran(rt, task, bytes, reads)?;
        let written = text_of(ended.output.as_slice());
        assert_eq!(rt;
            (ended.result, written),
            (Err(fault), writes),
            "after {reads}"
        );
    }
    Ok(())
}

#[test]
fn fault_before_read_failure(rt: HostRuntime) -> Result<(), BadConfig> {
    let collected = "collected 0: 0 kept, 0 freed\n";
    let too_long = Fault::BadTrace(1, Kind::LineTooLong);
    let unknown = Fault::BadTrace(2, Kind::UnknownName);
    let line = [b'#'; 4097];
    for (bytes, reads, writes, fault) in [
        (b"collect 0\n".as_slice(), 0, "", Fault::ReadFailed),
        (b"collect 0\n", 1, collected, Fault::ReadFailed),
        (b"collect 0\ndrop x", 1, collected, Fault::ReadFailed),
        (b"collect 0\ndrop x\n", 1, collected, unknown),
        (&line[..4096], 1, "", Fault::ReadFailed),
        (line.as_slice(), 2, "", too_long),
    ] {
        assert_stopped(&rt, bytes, reads, writes, fault)?;
    }
    Ok(())
}

/// A trace of which each read and each write fails in turn.
#[derive(Clone, Copy)]
struct Trial {
    task: Task,
    sizes: Sizes,
    reads: &'static str,
    writes: &'static str,
    /// How much is written once so many bytes were read.
    printed: &'static [(u64, usize)],
}

/// What fails in turn.
#[derive(Clone, Copy, Debug)]
enum Part {
    Read,
    Write(Failure),
}

/// How many bytes a read asks for.
const PIECE: u64 = 5;

/// A run or a replay in which so many calls of this part are made before one fails.
fn failed<R: Threads + Wait + Sync + AllocGlobal>(
    rt: &R,
    trial: &Trial,
    part: Part,
    calls: u64,
) -> Result<Ended, BadConfig> {
    let config = config_of(trial.task, trial.sizes)?.with_piece(PIECE)?;
    let (reads, writes, failure) = match part {
        Part::Read => (calls, MANY, Failure::Error),
        Part::Write(failure) => (MANY, calls, failure),
    };
    let writer = writer_of(rt.alloc(), writes, failure);
    let reader = reader_of(trial.reads.as_bytes(), reads);
    Ok(carried_out(rt, trial.task, config, reader, writer))
}

/// How much is written once so many bytes were read.
fn printed_after(printed: &[(u64, usize)], bytes: u64) -> usize {
    let mut len = 0;
    for (read, written) in printed.iter().copied() {
        if read <= bytes {
            len = written;
        }
    }
    len
}

/// Whether the lines that were read before a failed read were carried out, and no more.
fn is_cut_short(trial: &Trial, calls: u64, ended: &Ended) -> bool {
    let output = ended.output.as_slice();
    ended.result == Err(Fault::ReadFailed)
        && is_front_in_lines(output, trial.writes.as_bytes())
        && output.len() == printed_after(trial.printed, calls.saturating_mul(PIECE))
}

/// Whether a run stopped as it is to where so many calls of this part were made before one failed.
fn is_stopped(trial: &Trial, part: Part, calls: u64, ended: &Ended) -> bool {
    match part {
        Part::Read => is_cut_short(trial, calls, ended),
        Part::Write(_) => {
            ended.result == Err(Fault::WriteFailed)
                && trial.writes.as_bytes().starts_with(ended.output.as_slice())
        }
    }
}

/// Asserts that a run leaves what it is to leave, and says whether a call failed.
fn assert_ended(rt: &impl Abort, trial: &Trial, part: Part, calls: u64, ended: &Ended) -> bool {
    let written = text_of(ended.output.as_slice());
    if ended.result.is_ok() {
        assert_eq!(rt; written, trial.writes, "{part:?}");
        return false;
    }
    let is_as_told = is_stopped(trial, part, calls, ended);
    assert!(rt; is_as_told, "{part:?} failed after {calls}: {written}");
    true
}

/// Lets each call of this part fail in turn, and says how many there are.
fn fail_each<R: Threads + Wait + Sync + AllocGlobal + Abort>(
    rt: &R,
    trial: &Trial,
    part: Part,
) -> Result<u64, BadConfig> {
    for calls in 0..MANY {
        let ended = failed(rt, trial, part, calls)?;
        if !assert_ended(rt, trial, part, calls, &ended) {
            return Ok(calls);
        }
    }
    Ok(MANY)
}

/// The trial of the row of this name.
fn trial_of(
    rows: &'static str,
    name: &'static str,
    task: Task,
    sizes: Sizes,
    printed: &'static [(u64, usize)],
) -> Result<Trial, Fail> {
    let Some(row) = row_named(rows, name) else {
        return Err(Fail::new(name));
    };
    Ok(Trial {
        task,
        sizes,
        reads: row.reads,
        writes: row.left.writes,
        printed,
    })
}

/// Four lines of the row of an old dead object print 29 bytes each.
const DEAD_PARENT_PRINTS: &[(u64, usize)] = &[(22, 29), (32, 58), (78, 87), (88, 116)];

/// The row of blocks that change hands prints all once its last line was read.
const CHANGE_HANDS_PRINTS: &[(u64, usize)] = &[(804, 184)];

fn dead_parent(task: Task) -> Result<Trial, Fail> {
    let sizes = sizes_of(2, 64);
    trial_of(
        generations::ROWS,
        DEAD_PARENT,
        task,
        sizes,
        DEAD_PARENT_PRINTS,
    )
}

fn change_hands() -> Result<Trial, Fail> {
    let sizes = sizes_of(1, 16);
    trial_of(
        large::ROWS,
        BLOCKS_CHANGE_HANDS,
        Task::Replay,
        sizes,
        CHANGE_HANDS_PRINTS,
    )
}

#[test]
fn each_read_of_a_piece_fails(rt: HostRuntime) -> Result<(), Fail> {
    // Eighteen reads for 88 bytes, or 161 for 804, and one that shows the end.
    let alone = dead_parent(Task::Run)?;
    assert_eq!(rt; fail_each(&rt, &alone, Part::Read)?, 19);
    let apart = dead_parent(Task::Threads(CellKind::Box))?;
    assert_eq!(rt; fail_each(&rt, &apart, Part::Read)?, 19);
    let replayed = change_hands()?;
    assert_eq!(rt; fail_each(&rt, &replayed, Part::Read)?, 162);
    Ok(())
}

#[test]
fn each_write_of_pieces_fails(rt: HostRuntime) -> Result<(), Fail> {
    // The line of a collection is handed over whole, and so are the lines of its workers. Of what is left of it a write takes
    // twenty bytes: two writes for each of four lines of 29 bytes; two for the 30 of the replay, and eight for the 154 of its
    // workers.
    for failure in [Failure::Error, Failure::TakesNothing] {
        let alone = fail_each(&rt, &dead_parent(Task::Run)?, Part::Write(failure))?;
        let replayed = fail_each(&rt, &change_hands()?, Part::Write(failure))?;
        assert_eq!(rt; (alone, replayed), (8, 10), "{failure:?}");
    }
    Ok(())
}
