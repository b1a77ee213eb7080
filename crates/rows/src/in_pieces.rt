//! Rows and odd lines below the program, read in pieces of any size.
use crate::pieces::{Failure, PieceReader, PieceWriter};
use crate::program::text_of;
use crate::refused::Task;
use crate::table::row_named;
use crate::{faults, field_faults, generations, large, odd, pointers};
use forwarding::OpenGate;
use heap::{BadConfig, Config, Sizes};
use heap_text::Counted;
use std::alloc::AllocGlobal;
use std::process::Abort;
use std::sync::Wait;
use std::test::Fail;
use std::thread::Threads;
use trace_driver::{CellKind, CountedReader, Fault, RunConfig, replay, run};
use trace_text::Kind;

/// More calls than a run or a replay makes.
pub(crate) const MANY: u64 = 10_000;

/// How many bytes a read asks for.
const PIECES: [u64; 6] = [1, 2, 3, 7, 4096, 65_536];

/// A heap of so many generations, with blocks of so many words.
pub(crate) fn sizes_of(generations: u64, block_words: u64) -> Sizes {
    Sizes {
        generations,
        block_words,
        ..Sizes::default()
    }
}

/// A run by one worker or by two threads, or a replay by two.
pub(crate) fn config_of(task: Task, sizes: Sizes) -> Result<RunConfig, BadConfig> {
    let config = Config::new(sizes)?;
    match task {
        Task::Run => RunConfig::new(config, 1, CellKind::Word),
        Task::Threads(kind) => RunConfig::new(config, 2, kind),
        Task::Replay => RunConfig::new(config, 2, CellKind::Word),
    }
}

/// What a run or a replay leaves.
#[derive(Drop)]
pub(crate) struct Ended {
    pub(crate) result: Result<(), Fault>,
    pub(crate) output: Vec<u8>,
}

/// Carries out what is read.
pub(crate) fn carried_out<R: Threads + Wait + Sync + AllocGlobal>(
    rt: &R,
    task: Task,
    config: RunConfig,
    reader: PieceReader<'_>,
    writer: PieceWriter,
) -> Ended {
    let mut reader = CountedReader::new(reader);
    let mut writer = Counted::new(writer);
    let result = match task {
        Task::Run | Task::Threads(_) => {
            run(rt, rt.alloc(), &mut reader, &mut writer, config, &OpenGate)
        }
        Task::Replay => replay(rt.alloc(), &mut reader, &mut writer, config),
    };
    Ended {
        result,
        output: writer.inner.held,
    }
}

/// What is read, and what it leaves whatever a read asks for.
#[derive(Clone, Copy)]
struct Case<'a> {
    name: &'a str,
    task: Task,
    sizes: Sizes,
    reads: &'a [u8],
    writes: &'a str,
    result: Result<(), Fault>,
}

/// Carries out a case in pieces of so many bytes.
fn carried_out_by<R: Threads + Wait + Sync + AllocGlobal>(
    rt: &R,
    case: &Case<'_>,
    piece: u64,
) -> Result<Ended, BadConfig> {
    let config = config_of(case.task, case.sizes)?.with_piece(piece)?;
    let reader = PieceReader {
        bytes: case.reads,
        piece: usize::MAX,
        left: MANY,
    };
    let writer = PieceWriter {
        held: Vec::new(rt.alloc()),
        piece: 7,
        left: MANY,
        failure: Failure::Error,
    };
    Ok(carried_out(rt, case.task, config, reader, writer))
}

/// Asserts that a case leaves the same in pieces of each size.
fn assert_case<R: Threads + Wait + Sync + AllocGlobal + Abort>(
    rt: &R,
    case: &Case<'_>,
) -> Result<(), BadConfig> {
    let (name, left) = (case.name, (case.result, case.writes));
    for piece in PIECES {
        let ended = carried_out_by(rt, case, piece)?;
        let written = text_of(ended.output.as_slice());
        assert_eq!(rt;
            (ended.result, written),
            left,
            "{name} in pieces of {piece}"
        );
    }
    Ok(())
}

/// Asserts that the row of this name leaves what it says in pieces of each size.
fn assert_named<R: Threads + Wait + Sync + AllocGlobal + Abort>(
    rt: &R,
    rows: &'static str,
    name: &'static str,
    task: Task,
    sizes: Sizes,
    ended: Result<(), Fault>,
) -> Result<(), Fail> {
    let Some(row) = row_named(rows, name) else {
        return Err(Fail::new(name));
    };
    let case = Case {
        name,
        task,
        sizes,
        reads: row.reads.as_bytes(),
        writes: row.left.writes,
        result: ended,
    };
    assert_case(rt, &case)?;
    Ok(())
}

/// The row of an old dead object.
pub(crate) const DEAD_PARENT: &str = "young object that only an old dead one leads to";

/// The row of blocks that change hands.
pub(crate) const BLOCKS_CHANGE_HANDS: &str =
    "large object leads to thirteen small ones, whose blocks one worker exports and both take";

#[test]
fn any_pieces(rt: HostRuntime) -> Result<(), Fail> {
    let two_kept = (pointers::ROWS, "two kept one dropped", sizes_of(1, 64));
    let dead_parent = (generations::ROWS, DEAD_PARENT, sizes_of(2, 64));
    let change_hands = (large::ROWS, BLOCKS_CHANGE_HANDS, sizes_of(1, 16));
    let faulty = (faults::ROWS, "output before a fault", sizes_of(1, 512));
    let fault = Err(Fault::BadTrace(6, Kind::UnknownName));
    for ((rows, name, sizes), task, result) in [
        (two_kept, Task::Run, Ok(())),
        (two_kept, Task::Threads(CellKind::Word), Ok(())),
        (dead_parent, Task::Run, Ok(())),
        (dead_parent, Task::Threads(CellKind::Box), Ok(())),
        (change_hands, Task::Replay, Ok(())),
        (faulty, Task::Run, fault),
        (faulty, Task::Threads(CellKind::Word), fault),
    ] {
        assert_named(&rt, rows, name, task, sizes, result)?;
    }
    Ok(())
}

#[test]
fn any_pieces_of_faults(rt: HostRuntime) -> Result<(), Fail> {
    for (rows, name, line, kind) in [
        (
            faults::ROWS,
            "against the heap: drop x",
            1,
            Kind::UnknownName,
        ),
        (
            field_faults::ROWS,
            "fault: new a 0 1 0, new b 0 0 0, set a 1 b",
            3,
            Kind::NoField,
        ),
        (
            field_faults::ROWS,
            "fault: new a 0 0 1, put a 0 18446744073709551616",
            2,
            Kind::BadNumber,
        ),
    ] {
        let fault = Err(Fault::BadTrace(line, kind));
        let threads = Task::Threads(CellKind::Word);
        assert_named(&rt, rows, name, Task::Run, sizes_of(2, 512), fault)?;
        assert_named(&rt, rows, name, threads, sizes_of(2, 512), fault)?;
    }
    Ok(())
}

#[test]
fn any_pieces_of_odd_lines(rt: HostRuntime) -> Result<(), BadConfig> {
    let kept = "collected 0: 1 kept, 0 freed\n";
    let too_big = Err(Fault::BadTrace(3, Kind::TooBig));
    let too_long = Err(Fault::BadTrace(1, Kind::LineTooLong));
    let unfinished = Err(Fault::BadTrace(1, Kind::UnfinishedLine));
    let unfinished_later = Err(Fault::BadTrace(3, Kind::UnfinishedLine));
    let unknown_later = Err(Fault::BadTrace(3, Kind::UnknownName));
    let line = [b'#'; 4097];
    for (name, reads, writes, result) in [
        ("fault", odd::BLANKS_AND_A_FAULT, "", too_big),
        ("blanks", odd::BLANKS_ROUND_WORDS, kept, Ok(())),
        ("output before", odd::UNFINISHED, kept, unfinished_later),
        ("line ends", odd::LINE_ENDS, kept, unknown_later),
        ("one byte", b"#".as_slice(), "", unfinished),
        ("a few bytes", b"new a 0 1 0", "", unfinished),
        ("4,096 bytes", &line[..4096], "", unfinished),
        ("4,097 bytes", line.as_slice(), "", too_long),
    ] {
        let case = Case {
            name,
            task: Task::Run,
            sizes: sizes_of(1, 512),
            reads,
            writes,
            result,
        };
        assert_case(&rt, &case)?;
    }
    Ok(())
}

#[test]
fn bad_piece_size(rt: HostRuntime) -> Result<(), BadConfig> {
    let config = config_of(Task::Run, sizes_of(1, 512))?;
    for (bytes, is_good) in [
        (0, false),
        (1, true),
        (65_536, true),
        (65_537, false),
        (u64::MAX, false),
    ] {
        let wanted = if is_good { None } else { Some(BadConfig) };
        assert_eq!(rt; config.with_piece(bytes).err(), wanted, "{bytes}");
    }
    Ok(())
}
