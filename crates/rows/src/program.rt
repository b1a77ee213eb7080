//! The program over memory.
use heap_text::Counted;
use std::alloc::{AllocError, AllocGlobal};
use std::process::Abort;
use std::random::RandomSource;
use std::sync::Wait;
use std::thread::Threads;
use trace_driver::{CountedReader, main_with};

/// What a run of the program leaves.
#[derive(Drop)]
pub(crate) struct Ended {
    pub(crate) status: u8,
    pub(crate) output: Vec<u8>,
    pub(crate) errors: Vec<u8>,
}

/// Runs the program over memory.
fn ran_by<R: Threads + Wait + Sync + AllocGlobal + RandomSource>(
    rt: &R,
    words: &[&str],
    input: &[u8],
) -> Ended {
    let mut reader = CountedReader::new(input);
    let mut writer = Counted::new(Vec::new(rt.alloc()));
    let mut errors = Counted::new(Vec::new(rt.alloc()));
    let status = main_with(rt, words, &mut reader, &mut writer, &mut errors);
    Ended {
        status,
        output: writer.inner,
        errors: errors.inner,
    }
}

/// Runs the program over memory by the words of a command line, between which there are spaces.
pub(crate) fn ran<R: Threads + Wait + Sync + AllocGlobal + RandomSource>(
    rt: &R,
    words: &str,
    input: &[u8],
) -> Result<Ended, AllocError> {
    let words: Vec<&str> = words.split_whitespace().collect(rt.alloc())?;
    Ok(ran_by(rt, words.as_slice(), input))
}

/// What a run is to leave.
#[derive(Clone, Copy)]
pub(crate) struct Left<'a> {
    pub(crate) status: u8,
    pub(crate) writes: &'a str,
    pub(crate) tells: &'a str,
}

/// The text of these bytes, for what a failure tells.
pub(crate) fn text_of(bytes: &[u8]) -> &str {
    str::from_utf8(bytes).unwrap_or("no text")
}

/// Asserts that a run of this name left all that it was to leave.
fn assert_left(rt: &impl Abort, name: &str, ended: &Ended, left: Left<'_>) {
    let (written, told) = (
        text_of(ended.output.as_slice()),
        text_of(ended.errors.as_slice()),
    );
    assert_eq!(rt; told, left.tells, "told by: {name}");
    assert_eq!(rt; written, left.writes, "written by: {name}");
    assert_eq!(rt; ended.status, left.status, "status of: {name}");
}

/// Runs the program, and asserts all that it leaves.
pub(crate) fn assert_run<R: Threads + Wait + Sync + AllocGlobal + RandomSource + Abort>(
    rt: &R,
    name: &str,
    words: &str,
    input: &[u8],
    left: Left<'_>,
) -> Result<(), AllocError> {
    let ended = ran(rt, words, input)?;
    assert_left(rt, name, &ended, left);
    Ok(())
}

/// Whether a run ended well and wrote this.
fn is_written(ended: &Ended, output: &str) -> bool {
    ended.status == 0 && ended.errors.is_empty() && ended.output.as_slice() == output.as_bytes()
}

/// Asserts that a run ends well and writes a long text, which a failure doesn't show.
pub(crate) fn assert_output<R: Threads + Wait + Sync + AllocGlobal + RandomSource + Abort>(
    rt: &R,
    words: &str,
    input: &str,
    output: &str,
) -> Result<(), AllocError> {
    let ended = ran(rt, words, input.as_bytes())?;
    assert!(rt;
        is_written(&ended, output),
        "{words}: {}",
        text_of(ended.errors.as_slice())
    );
    Ok(())
}

/// One object is kept and one freed.
pub(crate) const FIRST_TRACE: &str = "new a 0 0 1\nnew b 0 0 0\ndrop b\ncollect 0\ncensus\n";

pub(crate) const FIRST_OUTPUT: &str = "collected 0: 1 kept, 1 freed
gen 0 step 0: 1 objects 2 words
large: 0 objects 0 words
roots: 1
remembered: 0
";
