//! Input that is made to harm: each answer follows from the form of lines.
use crate::program::{Left, assert_run};
use std::alloc::{AllocError, AllocGlobal};
use std::process::Abort;
use std::random::RandomSource;
use std::sync::Wait;
use std::thread::Threads;

/// What a comment is made of.
const HASHES: [u8; 4097] = [b'#'; 4097];

/// An input, and what comes of it.
#[derive(Clone, Copy)]
struct Row {
    words: &'static str,
    /// What comes before a comment.
    before: &'static [u8],
    /// How many bytes of a comment come then.
    hashes: usize,
    input: &'static [u8],
    writes: &'static str,
    tells: &'static str,
}

/// A row whose comment comes first.
fn input_row(
    words: &'static str,
    hashes: usize,
    input: &'static [u8],
    writes: &'static str,
    tells: &'static str,
) -> Row {
    Row {
        words,
        before: b"",
        hashes,
        input,
        writes,
        tells,
    }
}

/// A row whose comment comes in a schedule.
fn schedule_row(
    hashes: usize,
    input: &'static [u8],
    writes: &'static str,
    tells: &'static str,
) -> Row {
    Row {
        before: b"collect 0\n",
        ..input_row(REPLAY, hashes, input, writes, tells)
    }
}

const RUN: &str = "gctrace run";

const REPLAY: &str = "gctrace replay";

const TOO_LONG: &str = "gctrace: line 1: line too long\n";

const CENSUS: &str = "gen 0 step 0: 0 objects 0 words
gen 0 step 1: 0 objects 0 words
gen 1 step 0: 0 objects 0 words
large: 0 objects 0 words
roots: 0
remembered: 0
";

const NOTHING_COLLECTED: &str = "collected 0: 0 kept, 0 freed
worker 0: 0 won, 0 scanned
";

/// What is tried.
fn table() -> [Row; 18] {
    [
        input_row(RUN, 4096, b"\n", "", ""),
        input_row(RUN, 4097, b"\n", "", TOO_LONG),
        input_row(RUN, 4096, b"\r\n", "", TOO_LONG),
        input_row(
            RUN,
            0,
            b"new \xff 0 0 0\n",
            "",
            "gctrace: line 1: bad name\n",
        ),
        input_row(
            RUN,
            0,
            b"new nil 0 0 0\n",
            "",
            "gctrace: line 1: bad name\n",
        ),
        input_row(
            RUN,
            0,
            b"new a 0 1\n",
            "",
            "gctrace: line 1: wrong number of words\n",
        ),
        input_row(
            RUN,
            0,
            b"set x 18446744073709551616 nil\n",
            "",
            "gctrace: line 1: bad number\n",
        ),
        input_row(
            RUN,
            0,
            b"new a 0 0 0\nnew a 0 0 0\n",
            "",
            "gctrace: line 2: name in use\n",
        ),
        input_row(
            RUN,
            0,
            b"look 0\n",
            "",
            "gctrace: line 1: unknown command\n",
        ),
        input_row(
            RUN,
            0,
            b"collect 00\n",
            "collected 0: 0 kept, 0 freed\n",
            "",
        ),
        input_row(
            "gctrace replay --threads 2",
            0,
            b"collect 0\ntake 0 2\n",
            "",
            "gctrace: line 2: event not lawful\n",
        ),
        input_row(
            REPLAY,
            0,
            b"collect 0\nown 0 big\n",
            "",
            "gctrace: line 2: bad number\n",
        ),
        input_row(
            REPLAY,
            0,
            b"collect 0\ncollect 0\n",
            "",
            "gctrace: line 2: unknown event\n",
        ),
        input_row(
            REPLAY,
            0,
            b"collect 0\nidle 0\ncommit\n",
            "",
            "gctrace: line 3: collection not ended\n",
        ),
        input_row(
            REPLAY,
            0,
            b"census\ncollect 0\nidle 0\n",
            CENSUS,
            "gctrace: line 2: unfinished schedule\n",
        ),
        input_row(
            REPLAY,
            0,
            b"collect 0\nidle 0",
            "",
            "gctrace: line 2: unfinished line\n",
        ),
        schedule_row(4096, b"\nfinish\ncommit\n", NOTHING_COLLECTED, ""),
        schedule_row(4097, b"\n", "", "gctrace: line 2: line too long\n"),
    ]
}

/// Asserts what comes of a row's input.
fn assert_row<R: Threads + Wait + Sync + AllocGlobal + RandomSource + Abort>(
    rt: &R,
    row: Row,
) -> Result<(), AllocError> {
    let mut input = Vec::from_slice(rt.alloc(), row.before)?;
    input.extend_from_slice(HASHES.split_at(row.hashes.min(4097)).0)?;
    input.extend_from_slice(row.input)?;
    let left = Left {
        status: if row.tells.is_empty() { 0 } else { 2 },
        writes: row.writes,
        tells: row.tells,
    };
    assert_run(rt, row.words, row.words, input.as_slice(), left)
}

#[test]
fn hostile_input(rt: HostRuntime) -> Result<(), AllocError> {
    for row in table() {
        assert_row(&rt, row)?;
    }
    Ok(())
}
