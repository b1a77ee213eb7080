//! The whole program, by the words that the system gives.
ghost use Rattle.std.specs.Prelude.{◌≡◌, ◌+◌, ◌-◌, ◌^◌, ◌<◌, ◌≤◌, ◌⊎◌, List};
ghost use Rattle.std.specs.IoError.{error_kind};
ghost use Rattle.std.specs.Process.{exit_status};
ghost use Rattle.clap.specs.Walk.{Text};
ghost use Rattle.trace_driver.specs.Whole.{EndsBy, EndsWithout, IsWhy};
ghost use Rattle.trace_driver.specs.declared.whole.NoWords.{NoWords as Why};

use crate::program::{main_with, tell};
use heap_text::{Sink, Source, write_all};
use std::alloc::{AllocError, AllocGlobal};
use std::env::Env;
use std::process::ExitCode;
use std::random::RandomSource;
use std::sync::Wait;
use std::thread::Threads;
use std::{env, io};
use trace_session::Fault;

/// Why there are no words of a command line.
#[derive(Clone, Copy, PartialEq, Eq, Debug)]
pub enum NoWords {
    /// Memory was refused.
    NoMemory,
    /// One of them is no text.
    NoText,
}

impl From<AllocError> for NoWords {
    ghost use Rattle.trace_driver.specs.declared.whole.NoWords.TheVariants.{NoMemory};

    ghost from_gives = { λ _ why. why ≡ NoMemory };

    fn from(_error: AllocError) -> NoWords {
        NoWords::NoMemory
    }
}

impl From<io::Error> for NoWords {
    ghost from_gives = { λ error why. IsWhy (error_kind error) why };

    fn from(error: io::Error) -> NoWords {
        if error.kind() == io::ErrorKind::OutOfMemory {
            NoWords::NoMemory
        } else {
            NoWords::NoText
        }
    }
}

/// The words of the command line, the name of the program first. What the system gives no contract says.
fn words_of<R: Env + AllocGlobal>(rt: &R) -> Result<Vec<String>, NoWords> {
    Ok(env::args(rt)?.collect::<Vec<String>>(rt.alloc())?)
}

/// The status of a command line that can't be had, of which `errors` is told: 1 for want of memory, and 3 where a word is no text.
fn tell_no_words<E: Sink>(why: NoWords, errors: &mut E) -> u8
    requires { E.failed_writes errors.old < 2 ^ 64 - 1 }
    ensures ends { EndsWithout why (E.failed_writes errors.new ≡ E.failed_writes errors.old + 1)
        (E.output errors.old) (E.output errors.new) result }
    ensures status { result ≤ 4 }
    ensures rises { E.failed_writes errors.new ≤ E.failed_writes errors.old + 1 }
{
    match why {
        NoWords::NoMemory => tell(&Fault::NoMemory(None), errors),
        NoWords::NoText => {
            let _ = write_all(errors, b"gctrace: the words are no text\n");
            3
        }
    }
}

/// The whole program: `main_with` by the words of the command line that the runtime gives, and its status. Where there are no
/// words nothing is read, `errors` is told why, and the status is 1 for want of memory, and 3 where a word is no text.
pub fn main_of<
    R: Env + Threads + Wait + Sync + AllocGlobal + RandomSource,
    S: Source,
    W: Sink,
    E: Sink,
>(rt: &R, reader: &mut S, writer: &mut W, errors: &mut E) -> ExitCode
    requires readable { S.failed_reads reader.old < 2 ^ 64 - 1 }
    requires writable { W.failed_writes writer.old < 2 ^ 64 - 1 }
    requires tellable { E.failed_writes errors.old < 2 ^ 64 - 1 }
    ensures status { exit_status result ≤ 4 }
    ensures ends { ((words : List Text) × EndsBy words (reader.new ≡ reader.old) (writer.new ≡ writer.old)
        (errors.new ≡ errors.old)
        (S.failed_reads reader.new ≡ S.failed_reads reader.old + 1)
        (W.failed_writes writer.new ≡ W.failed_writes writer.old + 1)
        (E.failed_writes errors.new ≡ E.failed_writes errors.old + 1)
        (S.input reader.old) (S.input reader.new) (W.output writer.old) (W.output writer.new) (E.output errors.old)
        (E.output errors.new) (exit_status result))
        ⊎ ((reader.new ≡ reader.old) × (writer.new ≡ writer.old) × ((why : Why) × EndsWithout why
        (E.failed_writes errors.new ≡ E.failed_writes errors.old + 1) (E.output errors.old) (E.output errors.new)
        (exit_status result))) }
    ensures reads { S.failed_reads reader.new ≤ S.failed_reads reader.old + 1 }
    ensures writes { W.failed_writes writer.new ≤ W.failed_writes writer.old + 1 }
    ensures error_writes { E.failed_writes errors.new ≤ E.failed_writes errors.old + 1 }
{
    match words_of(rt) {
        Ok(words) => ExitCode::from(main_with(rt, words.as_slice(), reader, writer, errors)),
        Err(why) => ExitCode::from(tell_no_words(why, errors)),
    }
}
