//! Runs in which each read, each write and each write of a fault's line fails in turn.
use crate::is_front_in_lines;
use crate::pieces::{Failure, PieceReader, PieceWriter};
use crate::program::{FIRST_OUTPUT, FIRST_TRACE, text_of};
use heap_text::Counted;
use std::alloc::{AllocGlobal, Global};
use std::process::Abort;
use std::random::RandomSource;
use std::sync::Wait;
use std::thread::Threads;
use trace_driver::{CountedReader, main_with};

/// What fails in turn.
#[derive(Clone, Copy, Debug)]
enum Part {
    Read,
    Write(Failure),
    /// A write of a fault's line.
    Tell,
}

/// What a run leaves, and how many of its calls failed.
#[derive(Drop)]
struct Ended {
    status: u8,
    output: Vec<u8>,
    errors: Vec<u8>,
    failed: u64,
}

/// More calls than a run makes.
const MANY: u64 = 1000;

/// What a run reads whose fault is told of.
const FAULTY_TRACE: &str = "drop x\n";

/// What it tells.
const FAULT: &str = "gctrace: line 1: unknown name\n";

/// Reads what is tried for this part, and fails after so many reads where reads do.
fn reader_of(part: Part, calls: u64) -> PieceReader<'static> {
    let (text, left) = match part {
        Part::Read => (FIRST_TRACE, calls),
        Part::Write(_) => (FIRST_TRACE, MANY),
        Part::Tell => (FAULTY_TRACE, MANY),
    };
    PieceReader {
        bytes: text.as_bytes(),
        piece: 7,
        left,
    }
}

/// Fails after so many writes where writes do.
fn writer_of(alloc: Global, part: Part, calls: u64) -> PieceWriter {
    let (left, failure) = match part {
        Part::Write(failure) => (calls, failure),
        Part::Read | Part::Tell => (MANY, Failure::Error),
    };
    PieceWriter {
        held: Vec::new(alloc),
        piece: 20,
        left,
        failure,
    }
}

/// Fails after so many writes where those of a fault's line do.
fn errors_of(alloc: Global, part: Part, calls: u64) -> PieceWriter {
    let left = match part {
        Part::Tell => calls,
        Part::Read | Part::Write(_) => MANY,
    };
    PieceWriter {
        held: Vec::new(alloc),
        piece: 7,
        left,
        failure: Failure::Error,
    }
}

/// A run in which so many calls of this part are made before one fails.
fn ran<R: Threads + Wait + Sync + AllocGlobal + RandomSource>(
    rt: &R,
    part: Part,
    calls: u64,
) -> Ended {
    let mut reader = CountedReader::new(reader_of(part, calls));
    let mut writer = Counted::new(writer_of(rt.alloc(), part, calls));
    let mut errors = Counted::new(errors_of(rt.alloc(), part, calls));
    let words = ["gctrace", "run", "--generations", "1"];
    let status = main_with(rt, &words, &mut reader, &mut writer, &mut errors);
    Ended {
        status,
        failed: reader.failed_reads + writer.failed_writes + errors.failed_writes,
        output: writer.inner.held,
        errors: errors.inner.held,
    }
}

/// Whether a run tells of its failed call, after a front of what it writes.
fn is_failed(part: Part, ended: &Ended) -> bool {
    let (output, told) = (ended.output.as_slice(), text_of(ended.errors.as_slice()));
    match part {
        Part::Read => {
            ended.status == 4
                && told == "gctrace: read failed\n"
                && is_front_in_lines(output, FIRST_OUTPUT.as_bytes())
        }
        Part::Write(_) => {
            ended.status == 4
                && told == "gctrace: write failed\n"
                && FIRST_OUTPUT.as_bytes().starts_with(output)
        }
        Part::Tell => ended.status == 2 && output.is_empty() && FAULT.starts_with(told),
    }
}

/// Whether a run in which no call failed leaves all.
fn is_whole(part: Part, ended: &Ended) -> bool {
    let (status, output, errors) = match part {
        Part::Read | Part::Write(_) => (0, FIRST_OUTPUT, ""),
        Part::Tell => (2, "", FAULT),
    };
    ended.status == status
        && ended.output.as_slice() == output.as_bytes()
        && ended.errors.as_slice() == errors.as_bytes()
}

/// Whether a run leaves what it is to leave.
fn is_as_told(part: Part, ended: &Ended) -> bool {
    match ended.failed {
        0 => is_whole(part, ended),
        1 => is_failed(part, ended),
        _ => false,
    }
}

/// Asserts that a run leaves what it is to leave, and says whether a call failed.
fn assert_ended(rt: &impl Abort, part: Part, ended: &Ended) -> bool {
    let written = text_of(ended.output.as_slice());
    let told = text_of(ended.errors.as_slice());
    assert!(rt; is_as_told(part, ended), "{part:?} failed: {written}{told}");
    ended.failed > 0
}

/// Lets each call of this part fail in turn, and says how many there are.
fn fail_each<R: Threads + Wait + Sync + AllocGlobal + RandomSource + Abort>(
    rt: &R,
    part: Part,
) -> u64 {
    for calls in 0..MANY {
        let ended = ran(rt, part, calls);
        if !assert_ended(rt, part, &ended) {
            return calls;
        }
    }
    MANY
}

#[test]
fn each_read_fails(rt: HostRuntime) {
    // Seven reads for 48 bytes, and one that shows the end.
    assert_eq!(rt; fail_each(&rt, Part::Read), 8);
}

#[test]
fn each_write_fails(rt: HostRuntime) {
    // The line of a collection is handed over whole, and so is a census. Of what is left of it a write takes twenty bytes: two
    // writes for 29, and four for 80. Of a fault's line it takes seven, and the six parts have 9, 5, 1, 2, 12 bytes and 1.
    for (part, wanted) in [
        (Part::Write(Failure::Error), 6),
        (Part::Write(Failure::TakesNothing), 6),
        (Part::Tell, 8),
    ] {
        assert_eq!(rt; fail_each(&rt, part), wanted, "{part:?}");
    }
}
