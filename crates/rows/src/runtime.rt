//! What the program asks of its runtime: the words of its command line, one seed in each run, without which it runs as well, and
//! the allocator of boxed cells.
use crate::program::text_of;
use heap_text::Counted;
use std::alloc::{AllocGlobal, Global};
use std::env::{Env, FillError};
use std::io;
use std::io::{Error, ErrorKind};
use std::process::{Abort, ExitCode};
use std::random::RandomSource;
use std::sync::Wait;
use std::sync::atomic::{AtomicU64, Ordering};
use std::thread::Threads;
use trace_driver::{CountedReader, main_of};

/// A runtime that gives the words of a command line, between which there are spaces, and counts how often it is asked for a seed,
/// which it may refuse, and for its allocator.
#[derive(Drop)]
struct Counting<'a, R> {
    rt: &'a R,
    words: &'a [u8],
    refuses: bool,
    seeds: AtomicU64,
    allocators: AtomicU64,
}

impl<R: Wait> Wait for Counting<'_, R> {}

impl<R: Threads> Threads for Counting<'_, R> {}

impl<R: AllocGlobal> Alloc for Counting<'_, R> {
    type A = Global;

    fn alloc(&self) -> Global {
        self.allocators.fetch_add(1, Ordering::SeqCst);
        self.rt.alloc()
    }
}

impl<R> Env for Counting<'_, R> {
    fn arg(&self, i: usize, buffer: &mut [u8]) -> Result<usize, FillError> {
        let Some(word) = self.words.split(|byte| *byte == b' ').nth(i) else {
            return Err(FillError::NotPresent);
        };
        let Some(room) = buffer.get_mut(..word.len()) else {
            return Err(FillError::TooLong);
        };
        room.copy_from_slice(word);
        Ok(word.len())
    }

    fn var(&self, _name: &str, _buffer: &mut [u8]) -> Result<usize, FillError> {
        Err(FillError::NotPresent)
    }

    fn var_at(&self, _i: usize, _buffer: &mut [u8]) -> Result<usize, FillError> {
        Err(FillError::NotPresent)
    }
}

impl<R: RandomSource> RandomSource for Counting<'_, R> {
    fn fill_bytes(&self, buffer: &mut [u8]) -> io::Result<()> {
        self.seeds.fetch_add(1, Ordering::SeqCst);
        if self.refuses {
            return Err(Error::from(ErrorKind::Other));
        }
        self.rt.fill_bytes(buffer)
    }
}

/// How a run ended that collects three times, and what it asked for.
#[derive(Drop)]
struct Asked {
    status: ExitCode,
    output: Vec<u8>,
    errors: Vec<u8>,
    seeds: u64,
    allocators: u64,
}

/// A run of the program by these words.
fn asked_by<R: Threads + Wait + Sync + AllocGlobal + RandomSource>(
    rt: &R,
    words: &[u8],
    refuses: bool,
) -> Asked {
    let counting = Counting {
        rt,
        words,
        refuses,
        seeds: AtomicU64::new(0),
        allocators: AtomicU64::new(0),
    };
    let mut reader = CountedReader::new(b"collect 0\ncollect 0\ncollect 0\n".as_slice());
    let mut writer = Counted::new(Vec::new(rt.alloc()));
    let mut errors = Counted::new(Vec::new(rt.alloc()));
    let status = main_of(&counting, &mut reader, &mut writer, &mut errors);
    Asked {
        status,
        output: writer.inner,
        errors: errors.inner,
        seeds: counting.seeds.load(Ordering::SeqCst),
        allocators: counting.allocators.load(Ordering::SeqCst),
    }
}

/// What such a run prints.
const PRINTED: &str = "collected 0: 0 kept, 0 freed
collected 0: 0 kept, 0 freed
collected 0: 0 kept, 0 freed
";

#[test]
fn a_seed_is_asked_for_once(rt: HostRuntime) {
    for words in ["gctrace run", "gctrace run --threads 2"] {
        for refuses in [false, true] {
            let asked = asked_by(&rt, words.as_bytes(), refuses);
            assert_eq!(&rt; asked.status, ExitCode::SUCCESS, "{words}");
            assert_eq!(&rt; asked.seeds, 1, "{words}");
            assert_eq!(&rt; text_of(asked.output.as_slice()), PRINTED, "{words}");
        }
    }
}

/// What is to come of the words of a command line.
#[derive(Clone, Copy)]
struct Told {
    words: &'static [u8],
    status: u8,
    writes: &'static str,
    tells: &'static str,
}

/// The words are those of the runtime, and where one of them is no text the program says so and does nothing.
const TOLD: [Told; 5] = [
    Told {
        words: b"gctrace run --generations 3",
        status: 0,
        writes: PRINTED,
        tells: "",
    },
    Told {
        words: b"gctrace run --generations 9",
        status: 3,
        writes: "",
        tells: "gctrace: bad configuration\n",
    },
    Told {
        words: b"gctrace \xff",
        status: 3,
        writes: "",
        tells: "gctrace: the words are no text\n",
    },
    Told {
        words: b"gctrace run --cells wor\xc4",
        status: 3,
        writes: "",
        tells: "gctrace: the words are no text\n",
    },
    Told {
        words: b"\xc3 run",
        status: 3,
        writes: "",
        tells: "gctrace: the words are no text\n",
    },
];

#[test]
fn words_are_those_of_the_system(rt: HostRuntime) {
    for told in TOLD {
        let asked = asked_by(&rt, told.words, false);
        assert_eq!(&rt; text_of(asked.errors.as_slice()), told.tells);
        assert_eq!(&rt; text_of(asked.output.as_slice()), told.writes);
        assert_eq!(&rt; asked.status, ExitCode::from(told.status));
    }
}

/// Boxed cells are made by the runtime's own allocator, once in each collection, and words by that of the heap.
#[test]
fn boxes_are_those_of_the_words(rt: HostRuntime) {
    let words = asked_by(&rt, b"gctrace run --threads 2 --cells word", false);
    let boxes = asked_by(&rt, b"gctrace run --threads 2 --cells box", false);
    let unsaid = asked_by(&rt, b"gctrace run --threads 2", false);
    assert_eq!(&rt; boxes.allocators, words.allocators.saturating_add(3));
    // Each word of the command line is put in memory of its own, and these are two fewer.
    assert_eq!(&rt; unsaid.allocators.saturating_add(2), words.allocators);
}
