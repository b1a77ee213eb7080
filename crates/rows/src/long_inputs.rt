//! Long inputs that are made as they are read.
use crate::in_pieces::{config_of, sizes_of};
use crate::program::text_of;
use crate::refused::Task;
use forwarding::OpenGate;
use heap::{BadConfig, Sizes};
use heap_text::Counted;
use refusing::Refusing;
use std::alloc::{AllocGlobal, Global};
use std::io;
use std::io::Read;
use std::process::Abort;
use std::sync::Wait;
use std::test::Fail;
use std::thread::Threads;
use trace_driver::{CellKind, CountedReader, Fault, RunConfig, replay, run};
use trace_text::Kind;

/// Gives a text again and again and then another one, and notes the most bytes that a read asked for.
#[derive(Drop)]
struct Repeated<'a> {
    text: &'a [u8],
    turns: u64,
    last: &'a [u8],
    /// What is left of the text that is being given.
    rest: &'a [u8],
    most: usize,
}

impl<'a> Repeated<'a> {
    fn new(text: &'a [u8], turns: u64, last: &'a [u8]) -> Repeated<'a> {
        Repeated {
            text,
            turns,
            last,
            rest: &[],
            most: 0,
        }
    }

    /// The text that comes next, and nothing at the end.
    fn turn(&mut self) -> &'a [u8] {
        if self.turns > 0 {
            self.turns -= 1;
            return self.text;
        }
        let last = self.last;
        self.last = &[];
        last
    }
}

impl Read for Repeated<'_> {
    fn read(&mut self, buffer: &mut [u8]) -> io::Result<usize> {
        self.most = self.most.max(buffer.len());
        if self.rest.is_empty() {
            self.rest = self.turn();
        }
        let len = buffer.len().min(self.rest.len());
        let (front, rest) = self.rest.split_at(len);
        buffer[..len].copy_from_slice(front);
        self.rest = rest;
        Ok(len)
    }
}

/// What a run leaves, and the most bytes that a read asked for.
#[derive(Drop)]
struct Ended {
    result: Result<(), Fault>,
    output: Vec<u8>,
    most: usize,
}

fn ran<R: Threads + Wait + Sync + AllocGlobal>(
    rt: &R,
    task: Task,
    config: RunConfig,
    input: Repeated<'_>,
) -> Ended {
    let mut reader = CountedReader::new(input);
    let mut writer = Counted::new(Vec::new(rt.alloc()));
    let result = match task {
        Task::Run | Task::Threads(_) => {
            run(rt, rt.alloc(), &mut reader, &mut writer, config, &OpenGate)
        }
        Task::Replay => replay(rt.alloc(), &mut reader, &mut writer, config),
    };
    Ended {
        result,
        output: writer.inner,
        most: reader.inner.most,
    }
}

/// Makes and drops 500 objects, and asserts that a read asks for at most so many bytes, and that one does.
fn assert_asks_for<R: Threads + Wait + Sync + AllocGlobal + Abort>(
    rt: &R,
    task: Task,
    piece: u64,
    last: &[u8],
    printed: &str,
) -> Result<(), BadConfig> {
    let config = config_of(task, sizes_of(1, 512))?.with_piece(piece)?;
    let input = Repeated::new(b"new a 0 0 1\ndrop a\n", 500, last);
    let ended = ran(rt, task, config, input);
    let written = text_of(ended.output.as_slice());
    assert_eq!(rt;
        (ended.result, written, ended.most as u64),
        (Ok(()), printed, piece)
    );
    Ok(())
}

/// What the schedule of a collection by two workers prints to whom nothing is left.
const NONE_LEFT: &str = "collected 0: 0 kept, 500 freed
worker 0: 0 won, 0 scanned
worker 1: 0 won, 0 scanned
";

#[test]
fn most_that_a_read_asks_for_is_a_piece(rt: HostRuntime) -> Result<(), BadConfig> {
    let threads = Task::Threads(CellKind::Word);
    let freed = "collected 0: 0 kept, 500 freed\n";
    let scheduled = b"collect 0\nfinish\ncommit\n".as_slice();
    for piece in [1, 5, 4096, 65_536] {
        assert_asks_for(&rt, Task::Run, piece, b"collect 0\n", freed)?;
        assert_asks_for(&rt, threads, piece, b"collect 0\n", freed)?;
        assert_asks_for(&rt, Task::Replay, piece, scheduled, NONE_LEFT)?;
    }
    Ok(())
}

/// Ten comments.
const COMMENTS: &[u8] = b"#\n#\n#\n#\n#\n#\n#\n#\n#\n#\n";

/// The fault of the last line tells how many were before it. They are no more because `rt try` takes some seventeen seconds for
/// a million, and a test has sixty.
#[test]
fn two_million_comments(rt: HostRuntime) -> Result<(), Fail> {
    let config = config_of(Task::Run, sizes_of(1, 512))?;
    let input = Repeated::new(COMMENTS, 200_000, b"drop x\n");
    let ended = ran(&rt, Task::Run, config, input);
    let fault = Fault::BadTrace(2_000_001, Kind::UnknownName);
    let written = text_of(ended.output.as_slice());
    assert_eq!(rt; (ended.result, written), (Err(fault), ""));
    assert_eq!(rt; ended.most, 4096);
    Ok(())
}

/// Gives a text, and notes how many bytes of memory are held at each read.
#[derive(Drop)]
struct Noting<'a> {
    input: Repeated<'a>,
    refusing: &'a Refusing<Global>,
    /// What was held at the first read.
    first: Option<u64>,
    /// The most that was held at a read.
    most: u64,
}

impl Read for Noting<'_> {
    fn read(&mut self, buffer: &mut [u8]) -> io::Result<usize> {
        let held = self.refusing.bytes_held();
        if self.first.is_none() {
            self.first = Some(held);
        }
        self.most = self.most.max(held);
        self.input.read(buffer)
    }
}

/// Lines of a run, and of a replay, again and again.
fn lines_of(task: Task) -> Repeated<'static> {
    match task {
        Task::Run | Task::Threads(_) => Repeated::new(b"new a 0 0 0\ndrop a\n", 10_000, b""),
        Task::Replay => Repeated::new(
            b"new a 0 0 0\ndrop a\ncollect 0\nfinish\ncommit\n",
            2_000,
            b"",
        ),
    }
}

/// The fault of a run over 20,000 lines, or of a replay of 2,000 schedules, and how many bytes of memory it holds at its first
/// read, and at most at a read. At most one object is in use, and the nursery has room for 64. What is written isn't counted.
fn held_at_reads<R: Threads + Wait + Sync + AllocGlobal>(
    rt: &R,
    task: Task,
) -> Result<(Result<(), Fault>, u64, u64), BadConfig> {
    let sizes = Sizes {
        block_words: 64,
        blocks: 8,
        mutators: 1,
        nursery_blocks: 1,
        generations: 1,
        steps: 1,
    };
    let config = config_of(task, sizes)?;
    let refusing = Refusing::new(rt.alloc(), u64::MAX);
    let mut reader = CountedReader::new(Noting {
        input: lines_of(task),
        refusing: &refusing,
        first: None,
        most: 0,
    });
    let mut writer = Counted::new(Vec::new(rt.alloc()));
    let result = match task {
        Task::Run | Task::Threads(_) => {
            run(rt, &refusing, &mut reader, &mut writer, config, &OpenGate)
        }
        Task::Replay => replay(&refusing, &mut reader, &mut writer, config),
    };
    let first = reader.inner.first.unwrap_or(u64::MAX);
    Ok((result, first, reader.inner.most))
}

#[test]
fn memory_of_a_long_run_does_not_grow(rt: HostRuntime) -> Result<(), BadConfig> {
    for (name, task) in [
        ("one worker", Task::Run),
        ("words", Task::Threads(CellKind::Word)),
        ("boxes", Task::Threads(CellKind::Box)),
        ("schedules", Task::Replay),
    ] {
        let (result, first, most) = held_at_reads(&rt, task)?;
        assert_eq!(rt; result, Ok(()), "{name}");
        // Of what it holds at first, 12,288 bytes are room for a line and a piece, and for what a read fills. Measured
        // were 13,408 bytes at first, and at most 1,416 more.
        assert!(rt;
            first < 20_000 && most < first.saturating_add(4096),
            "{name}: {first} at first, {most} at most"
        );
    }
    Ok(())
}
