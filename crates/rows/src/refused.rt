//! Runs and replays of which each request for memory, or each draw of a block, is refused in turn.
use crate::pieces::PieceReader;
use forwarding::OpenGate;
use heap::{BadConfig, Config, Sizes};
use heap_text::Counted;
use refusing::Refusing;
use std::alloc::{AllocError, AllocGlobal, Global};
use std::process::Abort;
use std::sync::Wait;
use std::test::Fail;
use std::thread::Threads;
use trace_driver::{CellKind, CountedReader, Fault, RunConfig, replay, run};

/// What carries out a trace: one worker, or two on threads of their own, or two by schedules.
#[derive(Clone, Copy)]
pub(crate) enum Task {
    Run,
    Threads(CellKind),
    Replay,
}

/// What is refused in turn. The draws of blocks are refused by a heap of few blocks, and of one more each time.
#[derive(Clone, Copy)]
pub(crate) enum Wanted {
    Memory,
    Blocks,
}

/// A trace that is tried. Below each of its lines stands what that prints, behind `> `.
#[derive(Clone, Copy)]
pub(crate) struct Trial {
    pub(crate) name: &'static str,
    pub(crate) trace: &'static str,
    pub(crate) task: Task,
    pub(crate) sizes: Sizes,
    /// How many bytes a read gives. Where they are few, a line comes by several reads.
    pub(crate) piece: usize,
}

/// More requests than a run or a replay makes.
const MANY: u64 = 2000;

/// More lines than a trace has.
const ALL_LINES: u128 = 100;

fn push_line(text: &mut String, line: &str) -> Result<(), AllocError> {
    text.push_str(line)?;
    text.push_str("\n")
}

fn push_input(input: &mut String, trace: &str) -> Result<(), AllocError> {
    for line in trace.lines() {
        if !line.starts_with("> ") {
            push_line(input, line)?;
        }
    }
    Ok(())
}

/// What the lines before this one print. Lines are counted from 1.
fn push_output(output: &mut String, trace: &str, number: u128) -> Result<(), AllocError> {
    let mut last = 0_u128;
    for line in trace.lines() {
        match line.strip_prefix("> ") {
            Some(printed) if last < number => push_line(output, printed)?,
            Some(_) => {}
            None => last = last.saturating_add(1),
        }
    }
    Ok(())
}

fn output_before(alloc: Global, trace: &str, number: u128) -> Result<String, AllocError> {
    let mut output = String::new(alloc);
    push_output(&mut output, trace, number)?;
    Ok(output)
}

/// Whether a line has an automatic collection, by what is printed before it and with it.
fn is_automatic(before: &str, with_it: &str) -> bool {
    match with_it.strip_prefix(before) {
        Some(own) => own.starts_with("auto "),
        None => false,
    }
}

/// Whether an output that a refusal cut short is that of the lines before the refused one, and with it what the line's own
/// automatic collection prints or not.
fn is_cut_off(alloc: Global, trace: &str, number: u128, output: &[u8]) -> Result<bool, AllocError> {
    let before = output_before(alloc, trace, number)?;
    let with_it = output_before(alloc, trace, number.saturating_add(1))?;
    let is_collected = is_automatic(before.as_str(), with_it.as_str());
    Ok(output == before.as_bytes() || is_collected && output == with_it.as_bytes())
}

/// What a run or a replay leaves in which something was refused.
#[derive(Drop)]
struct Ended {
    result: Result<(), Fault>,
    output: Vec<u8>,
    asked: u64,
    returned: u64,
}

/// A heap of so many blocks.
fn config_of(trial: &Trial, blocks: u64) -> Result<Config, BadConfig> {
    Config::new(Sizes {
        blocks,
        ..trial.sizes
    })
}

/// A run or a replay in a heap of so many blocks, in which this request is refused.
fn carried_out<R: Threads + Wait + Sync + AllocGlobal>(
    rt: &R,
    trial: &Trial,
    input: &str,
    blocks: u64,
    refused: u64,
) -> Result<Ended, BadConfig> {
    let config = config_of(trial, blocks)?;
    let refusing = Refusing::new(rt.alloc(), refused);
    let mut reader = CountedReader::new(PieceReader {
        bytes: input.as_bytes(),
        piece: trial.piece,
        left: MANY,
    });
    let mut writer = Counted::new(Vec::new(rt.alloc()));
    let result = match trial.task {
        Task::Run => {
            let alone = RunConfig::new(config, 1, CellKind::Word)?;
            run(rt, &refusing, &mut reader, &mut writer, alone, &OpenGate)
        }
        Task::Threads(kind) => {
            let both = RunConfig::new(config, 2, kind)?;
            run(rt, &refusing, &mut reader, &mut writer, both, &OpenGate)
        }
        Task::Replay => {
            let both = RunConfig::new(config, 2, CellKind::Word)?;
            replay(&refusing, &mut reader, &mut writer, both)
        }
    };
    Ok(Ended {
        result,
        output: writer.inner,
        asked: refusing.asked(),
        returned: refusing.returned(),
    })
}

/// The same, where so many requests were given or so many blocks are there.
fn carried_out_at<R: Threads + Wait + Sync + AllocGlobal>(
    rt: &R,
    trial: &Trial,
    input: &str,
    wanted: Wanted,
    number: u64,
) -> Result<Ended, BadConfig> {
    match wanted {
        Wanted::Memory => carried_out(rt, trial, input, trial.sizes.blocks, number),
        Wanted::Blocks => carried_out(rt, trial, input, number, MANY),
    }
}

/// How many requests for memory a run makes that ends well, where none is refused.
pub(crate) fn asked_by<R: Threads + Wait + Sync + AllocGlobal + Abort>(
    rt: &R,
    task: Task,
    sizes: Sizes,
    input: &str,
) -> Result<u64, BadConfig> {
    let trial = Trial {
        name: "requests",
        trace: "",
        task,
        sizes,
        piece: usize::MAX,
    };
    let ended = carried_out(rt, &trial, input, sizes.blocks, u64::MAX)?;
    assert_eq!(rt; ended.result, Ok(()));
    Ok(ended.asked)
}

/// Whether a refused request is told as what it is, after the output that belongs to its line, and all else was given back.
fn is_refused(alloc: Global, trace: &str, ended: &Ended) -> Result<bool, AllocError> {
    match ended.result {
        Err(Fault::NoMemory(number)) => {
            let line = number.unwrap_or(0);
            Ok(
                is_cut_off(alloc, trace, line, ended.output.as_slice())?
                    && ended.returned.checked_add(1) == Some(ended.asked),
            )
        }
        _ => Ok(false),
    }
}

/// Whether want of blocks in a line is told as what it is, after the output of the lines before, and all was given back.
fn is_full(alloc: Global, trace: &str, ended: &Ended) -> Result<bool, AllocError> {
    match ended.result {
        Err(Fault::HeapFull(Some(number))) => {
            let output = output_before(alloc, trace, number)?;
            Ok(ended.output.as_slice() == output.as_bytes() && ended.returned == ended.asked)
        }
        _ => Ok(false),
    }
}

/// Whether all lines were carried out, and all was given back.
fn is_whole(alloc: Global, trace: &str, ended: &Ended) -> Result<bool, AllocError> {
    let output = output_before(alloc, trace, ALL_LINES)?;
    Ok(ended.output.as_slice() == output.as_bytes() && ended.returned == ended.asked)
}

/// Whether a run or a replay that stopped did so as it is to.
fn is_stopped(
    alloc: Global,
    trace: &str,
    wanted: Wanted,
    ended: &Ended,
) -> Result<bool, AllocError> {
    match wanted {
        Wanted::Memory => is_refused(alloc, trace, ended),
        Wanted::Blocks => is_full(alloc, trace, ended),
    }
}

/// How many requests are given at first, or how many blocks are there: the two of the nurseries.
fn first_of(wanted: Wanted) -> u64 {
    match wanted {
        Wanted::Memory => 0,
        Wanted::Blocks => 2,
    }
}

/// The line in which a run or a replay stopped, or 0.
fn line_of(ended: &Ended) -> u128 {
    match ended.result {
        Err(Fault::NoMemory(Some(number)) | Fault::HeapFull(Some(number))) => number,
        _ => 0,
    }
}

/// Asserts that each request of a trial is refused in turn, or each draw of a block, that the more are given the further it comes
/// (two threads may ask for more in one run than in another), and that nothing is wanting only where more than `least` are given.
pub(crate) fn assert_each_refused<R: Threads + Wait + Sync + AllocGlobal + Abort>(
    rt: &R,
    trial: &Trial,
    wanted: Wanted,
    least: u64,
) -> Result<(), Fail> {
    let alloc = rt.alloc();
    let mut input = String::new(alloc);
    push_input(&mut input, trial.trace)?;
    let is_by_threads = matches!(trial.task, Task::Threads(_));
    let mut line = 0;
    for number in first_of(wanted)..MANY {
        let ended = carried_out_at(rt, trial, input.as_str(), wanted, number)?;
        if ended.result.is_ok() {
            let is_as_told = is_whole(alloc, trial.trace, &ended)?;
            assert!(rt; is_as_told && number > least, "{} at {number}", trial.name);
            return Ok(());
        }
        let is_as_told = is_stopped(alloc, trial.trace, wanted, &ended)?;
        let is_further = is_by_threads || line <= line_of(&ended);
        assert!(rt; is_as_told && is_further, "{} at {number}", trial.name);
        line = line_of(&ended);
    }
    Err(Fail::from("each was refused"))
}
