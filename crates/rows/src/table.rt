//! The worked rows, one after the other through the program over memory. A row is a text:
//!
//! ```text
//! == its name
//! the words of a command line
//! status 0
//! -- reads
//! what it reads
//! -- writes
//! what it writes
//! -- tells
//! what it tells of a fault
//! ```
use crate::program::{Left, assert_run};
use crate::{
    automatic, automatic_replays, faults, field_faults, generations, large, pointers, replays,
    worked,
};
use std::alloc::AllocGlobal;
use std::process::Abort;
use std::random::RandomSource;
use std::sync::Wait;
use std::test::Fail;
use std::thread::Threads;

/// A row: its name, the words of a command line, what it reads and what it leaves.
#[derive(Clone, Copy)]
pub(crate) struct Row {
    name: &'static str,
    words: &'static str,
    pub(crate) reads: &'static str,
    pub(crate) left: Left<'static>,
}

/// What a run leaves, of the text of its status and that of its streams, if they have the form of them.
fn left_of(status: &str, streams: &'static str) -> Option<Left<'static>> {
    let (writes, tells) = streams.split_once("-- tells\n")?;
    Some(Left {
        status: status.parse().ok()?,
        writes,
        tells,
    })
}

/// The row of a text, if it has the form of one.
fn row_of(text: &'static str) -> Option<Row> {
    let (head, body) = text.split_once("\n-- reads\n")?;
    let (name, rest) = head.split_once("\n")?;
    let (words, status) = rest.split_once("\nstatus ")?;
    let (reads, streams) = body.split_once("-- writes\n")?;
    Some(Row {
        name,
        words,
        reads,
        left: left_of(status, streams)?,
    })
}

/// The row of this name.
pub(crate) fn row_named(rows: &'static str, name: &str) -> Option<Row> {
    for text in rows.split("== ").skip(1) {
        let row = row_of(text)?;
        if row.name == name {
            return Some(row);
        }
    }
    None
}

/// Asserts that the run of a row leaves what it says.
fn assert_row<R: Threads + Wait + Sync + AllocGlobal + RandomSource + Abort>(
    rt: &R,
    text: &'static str,
) -> Result<(), Fail> {
    let Some(row) = row_of(text) else {
        return Err(Fail::new(text));
    };
    let (name, words, reads) = (row.name, row.words, row.reads.as_bytes());
    assert_run(rt, name, words, reads, row.left)?;
    Ok(())
}

/// Asserts that the run of each row leaves what it says.
fn assert_rows<R: Threads + Wait + Sync + AllocGlobal + RandomSource + Abort>(
    rt: &R,
    rows: &'static str,
) -> Result<(), Fail> {
    for text in rows.split("== ").skip(1) {
        assert_row(rt, text)?;
    }
    Ok(())
}

#[test]
fn each_row_is_as_told(rt: HostRuntime) -> Result<(), Fail> {
    for rows in [
        worked::ROWS,
        pointers::ROWS,
        field_faults::ROWS,
        generations::ROWS,
        large::ROWS,
        automatic::ROWS,
        automatic_replays::ROWS,
        replays::ROWS,
        faults::ROWS,
    ] {
        assert_rows(&rt, rows)?;
    }
    Ok(())
}
