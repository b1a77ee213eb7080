//! Lines that are answered before more is read, as who asks at the other end of a pipe wants it.
use crate::in_pieces::{config_of, sizes_of};
use crate::program::text_of;
use crate::refused::Task;
use forwarding::OpenGate;
use heap_text::Counted;
use std::alloc::{AllocError, AllocGlobal, Global};
use std::cell::Cell;
use std::io;
use std::io::{Error, ErrorKind, Read, Write};
use std::sync::Wait;
use std::test::Fail;
use std::thread::Threads;
use trace_driver::{CellKind, CountedReader, Fault, replay, run};

/// What is read, a read after the other, and what it is answered.
type Reads = &'static [(&'static str, &'static str)];

/// Of a run.
const READS: Reads = &[
    ("new a 0 1 1\nne", ""),
    ("w b 0 0 0\ncollect 0", ""),
    ("\n", "collected 0: 2 kept, 0 freed\n"),
    (
        "census\n",
        "gen 0 step 0: 2 objects 4 words\nlarge: 0 objects 0 words\nroots: 2\nremembered: 0\n",
    ),
    ("drop b\ncollect 0\n", "collected 0: 1 kept, 1 freed\n"),
];

/// Of a replay by two workers: a collection is carried out at its commit.
const SCHEDULED_READS: Reads = &[
    ("new a 0 1 1\nnew b 0 0 0\n", ""),
    ("collect 0\nfini", ""),
    ("sh\n", ""),
    (
        "commit\n",
        "collected 0: 2 kept, 0 freed\nworker 0: 1 won, 1 scanned\nworker 1: 1 won, 1 scanned\n",
    ),
    (
        "census\n",
        "gen 0 step 0: 2 objects 4 words\nlarge: 0 objects 0 words\nroots: 2\nremembered: 0\n",
    ),
];

/// Gives a piece a read, and fails where the pieces before are not answered yet.
#[derive(Drop)]
struct Asking<'a> {
    reads: Reads,
    next: usize,
    due: u64,
    answered: &'a Cell<u64>,
}

impl Read for Asking<'_> {
    fn read(&mut self, buffer: &mut [u8]) -> io::Result<usize> {
        if self.answered.get() != self.due {
            return Err(Error::from(ErrorKind::WouldBlock));
        }
        let Some((piece, answer)) = self.reads.get(self.next) else {
            return Ok(0);
        };
        let len = buffer.len().min(piece.len());
        buffer[..len].copy_from_slice(&piece.as_bytes()[..len]);
        self.next += 1;
        self.due = self.due.saturating_add(answer.len() as u64);
        Ok(len)
    }
}

/// Holds what is written, and tells how many bytes that are.
#[derive(Drop)]
struct Answering<'a> {
    held: Vec<u8>,
    answered: &'a Cell<u64>,
}

impl Write for Answering<'_> {
    fn write(&mut self, piece: &[u8]) -> io::Result<usize> {
        self.held.extend_from_slice(piece)?;
        self.answered.set(self.held.len() as u64);
        Ok(piece.len())
    }

    fn flush(&mut self) -> io::Result<()> {
        Ok(())
    }
}

/// What such a run or replay leaves.
fn asked<R: Threads + Wait + Sync + AllocGlobal>(
    rt: &R,
    task: Task,
    reads: Reads,
) -> (Result<(), Fault>, Vec<u8>) {
    let Ok(config) = config_of(task, sizes_of(1, 512)) else {
        return (Ok(()), Vec::new(rt.alloc()));
    };
    let answered = Cell::new(0);
    let mut reader = CountedReader::new(Asking {
        reads,
        next: 0,
        due: 0,
        answered: &answered,
    });
    let mut writer = Counted::new(Answering {
        held: Vec::new(rt.alloc()),
        answered: &answered,
    });
    let result = match task {
        Task::Run | Task::Threads(_) => {
            run(rt, rt.alloc(), &mut reader, &mut writer, config, &OpenGate)
        }
        Task::Replay => replay(rt.alloc(), &mut reader, &mut writer, config),
    };
    (result, writer.inner.held)
}

/// All that is answered.
fn answers_of(alloc: Global, reads: Reads) -> Result<String, AllocError> {
    let mut answers = String::new(alloc);
    for (_piece, answer) in reads {
        answers.push_str(answer)?;
    }
    Ok(answers)
}

#[test]
fn each_line_is_answered_before_more_is_read(rt: HostRuntime) -> Result<(), Fail> {
    for (task, reads) in [
        (Task::Run, READS),
        (Task::Threads(CellKind::Word), READS),
        (Task::Replay, SCHEDULED_READS),
    ] {
        let (result, held) = asked(&rt, task, reads);
        let answers = answers_of(rt.alloc(), reads)?;
        assert_eq!(rt;
            (result, text_of(held.as_slice())),
            (Ok(()), answers.as_str())
        );
    }
    Ok(())
}
