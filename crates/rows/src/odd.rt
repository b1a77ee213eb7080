//! Worked runs that no text of rows holds: lines with other ends, or none, and many words for one trace.
use crate::program::{FIRST_OUTPUT, FIRST_TRACE, Left, assert_run, ran};
use std::alloc::{AllocError, AllocGlobal};
use std::process::Abort;
use std::random::RandomSource;
use std::sync::Wait;
use std::thread::Threads;

/// A run that ends well.
fn done(writes: &'static str) -> Left<'static> {
    Left {
        status: 0,
        writes,
        tells: "",
    }
}

/// A run that tells of a fault, and writes nothing.
fn stopped(status: u8, tells: &'static str) -> Left<'static> {
    Left {
        status,
        writes: "",
        tells,
    }
}

const ONE_GENERATION: &str = "gctrace run --generations 1";

/// Asserts what a run leaves whose name is its command line.
fn assert_words<R: Threads + Wait + Sync + AllocGlobal + RandomSource + Abort>(
    rt: &R,
    words: &str,
    input: &[u8],
    left: Left<'_>,
) -> Result<(), AllocError> {
    assert_run(rt, words, words, input, left)
}

/// A line of blanks, a comment of bytes that are no text, and an object that is too big.
pub(crate) const BLANKS_AND_A_FAULT: &[u8] =
    b" \t\r\n\t#\xff\x00\n new\ta 00 0  018446744073709551615\n";

/// Blanks round words, and numbers that begin with zeros.
pub(crate) const BLANKS_ROUND_WORDS: &[u8] = b"new\ta 00  0 01\t\r\n collect 000\r\n";

/// Lines with two kinds of ends, and a name that isn't in use.
pub(crate) const LINE_ENDS: &[u8] = b"new a 0 0 1\r\ncollect 0\ndrop x\r\n";

/// Output before a line without an end.
pub(crate) const UNFINISHED: &[u8] = b"new a 0 0 1\ncollect 0\ndrop a";

#[test]
fn line_ends(rt: HostRuntime) -> Result<(), AllocError> {
    for (words, input, left) in [
        (
            "gctrace run --generations 1 --block-words 64",
            b"new a 0 0 0\r\n".as_slice(),
            done(""),
        ),
        (
            ONE_GENERATION,
            BLANKS_AND_A_FAULT,
            stopped(2, "gctrace: line 3: too big\n"),
        ),
        (
            ONE_GENERATION,
            BLANKS_ROUND_WORDS,
            done("collected 0: 1 kept, 0 freed\n"),
        ),
    ] {
        assert_words(&rt, words, input, left)?;
    }
    Ok(())
}

#[test]
fn lines_without_an_end(rt: HostRuntime) -> Result<(), AllocError> {
    let first = stopped(2, "gctrace: line 1: unfinished line\n");
    let second = stopped(2, "gctrace: line 2: unfinished line\n");
    for (words, input, left) in [
        (ONE_GENERATION, "new a 0 1 0", first),
        (ONE_GENERATION, "#", first),
        ("gctrace run", "new a 0 1 0", first),
        (
            "gctrace replay --generations 1",
            "collect 0\nidle 0",
            second,
        ),
    ] {
        assert_words(&rt, words, input.as_bytes(), left)?;
    }
    Ok(())
}

#[test]
fn long_lines(rt: HostRuntime) -> Result<(), AllocError> {
    let too_long = stopped(2, "gctrace: line 1: line too long\n");
    let mut line = [b'#'; 4098];
    assert_words(&rt, ONE_GENERATION, &line, too_long)?;
    line[4097] = b'\n';
    assert_words(&rt, ONE_GENERATION, &line, too_long)?;
    line[4096] = b'\r';
    assert_words(&rt, ONE_GENERATION, &line, too_long)?;
    line[4096] = b'\n';
    line[4095] = b'\r';
    assert_words(&rt, ONE_GENERATION, &line, done(""))
}

/// Command lines with a number out of its range.
const OUT_OF_RANGE: &str = "gctrace run --generations=1 --block-words=12
gctrace run --generations=1 --block-words=18
gctrace run --generations=1 --block-words=516
gctrace run --generations=1 --blocks=0
gctrace run --generations=1 --blocks=65536
gctrace run --generations=1 --blocks=4294967296
gctrace run --generations=1 --blocks=4294971392
gctrace run --generations=1 --blocks=18446744073709551615
gctrace run --generations=1 --mutators=0
gctrace run --generations=1 --mutators=17
gctrace run --generations=1 --nursery=0
gctrace run --generations=1 --nursery=65
gctrace run --generations=1 --steps=0
gctrace run --generations=1 --steps=5
gctrace run --generations=1 --threads=0
gctrace run --generations=1 --threads=17
gctrace run --generations=1 --threads=4294967297
gctrace run --generations=1 --threads=18446744073709551615
gctrace replay --generations=1 --threads=4294967297
";

#[test]
fn numbers_out_of_range(rt: HostRuntime) -> Result<(), AllocError> {
    let left = stopped(3, "gctrace: bad configuration\n");
    for words in OUT_OF_RANGE.lines() {
        assert_words(&rt, words, b"new\n", left)?;
    }
    assert_words(&rt, "gctrace run --threads 17", b"", left)
}

/// Command lines with numbers at the ends of their ranges.
const IN_RANGE: &str = "gctrace run --generations=1 --block-words=16
gctrace run --generations=1 --block-words=512
gctrace run --generations=1 --blocks=5
gctrace run --generations=1 --blocks=65535
gctrace run --generations=1 --mutators=1
gctrace run --generations=1 --mutators=16
gctrace run --generations=1 --nursery=1
gctrace run --generations=1 --nursery=64
gctrace run --generations=1 --steps=1
gctrace run --generations=1 --steps=4
gctrace run --generations=1 --threads=+01
gctrace run --generations=1 --cells=box
gctrace run --generations=1 --cells=word
gctrace run --generations=1 --threads=2
gctrace run --generations=1 --threads=16 --cells=box
";

#[test]
fn numbers_in_range(rt: HostRuntime) -> Result<(), AllocError> {
    for words in IN_RANGE.lines() {
        assert_words(&rt, words, FIRST_TRACE.as_bytes(), done(FIRST_OUTPUT))?;
    }
    Ok(())
}

/// The status of a run, and whether it writes and tells nothing.
type End = (u8, bool, bool);

fn end_of<R: Threads + Wait + Sync + AllocGlobal + RandomSource>(
    rt: &R,
    words: &str,
) -> Result<End, AllocError> {
    let ended = ran(rt, words, b"new\n")?;
    Ok((
        ended.status,
        ended.output.is_empty(),
        ended.errors.is_empty(),
    ))
}

/// Asserts that the run of each of these command lines ends so.
fn assert_ends<R: Threads + Wait + Sync + AllocGlobal + RandomSource + Abort>(
    rt: &R,
    lines: &str,
    wanted: End,
) -> Result<(), AllocError> {
    for words in lines.lines() {
        let end = end_of(rt, words)?;
        assert_eq!(rt; end, wanted, "{words}");
    }
    Ok(())
}

/// Mistaken command lines, of which something is told.
const MISTAKES: &str = "gctrace
gctrace walk --generations=1
gctrace replay --cells=box
gctrace replay --threads=x
gctrace run --threads=x
gctrace run --threads=-1
gctrace run --blocks=18446744073709551616
gctrace run --cells=words
gctrace run --steps
gctrace ru --threads 1
gctrace run --thread 1
gctrace run --threads 1,2
gctrace run --threads 1 2
gctrace run --threads 1 --threads 1
gctrace run --mutators 1 --mutators 1
gctrace run --generations 1 --generations 1
gctrace run --steps 1 --steps 1
gctrace run --block-words 16 --block-words 16
gctrace run --nursery 1 --nursery 1
gctrace run --blocks 9 --blocks 9
gctrace run --frob --help
gctrace run --threads x --help
gctrace replay --threads 1 --threads 1
gctrace run --cells box --cells box
gctrace run --cells box --cells word
gctrace run --frob 1
gctrace run trace
";

/// Command lines that ask for help.
const HELP: &str = "gctrace --help
gctrace help replay
gctrace run -h
gctrace run --steps 3 --help --blocks 9
gctrace run --threads 99 --help
";

#[test]
fn mistakes_and_help(rt: HostRuntime) -> Result<(), AllocError> {
    assert_ends(&rt, MISTAKES, (3, true, false))?;
    assert_ends(&rt, HELP, (0, false, true))
}
