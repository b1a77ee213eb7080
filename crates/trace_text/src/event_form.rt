//! The form of a line of a schedule.
ghost use Rattle.std.specs.Prelude.{◌≡◌, length, [], OnOk, IfErr, IfOk, ◌∷◌, ◌≢◌};
ghost use Rattle.trace_text.specs.Words.{words};
ghost use Rattle.trace_text.specs.ScheduleGrammar.{any_of, worker_of, take_of, own_of, event_of, alone, schedule_of, schedule_line_of};

use crate::form::{MAX_LINE_LEN, number, without_return};
use crate::schedule::{LineFault, ScheduleEvent, ScheduleKind, ScheduleLine};
use crate::words::{no_words, one_word, split_first_word, two_words};
use model::Kind;

/// Any number that a word of a trace may be.
fn any(word: &[u8]) -> Result<u64, ScheduleKind>
    ensures { result ≡ any_of word.now }
{
    match number(word) {
        Ok(value) => Ok(value),
        Err(_) => Err(ScheduleKind::BadNumber),
    }
}

/// The number of the one worker.
#[tactic(auto, unfolding(crate::specs::ScheduleGrammar::worker_of))]
fn worker(rest: &[u8]) -> Result<u64, ScheduleKind>
    ensures { result ≡ worker_of (words rest.now) }
{
    let Ok(word) = one_word(rest) else {
        return Err(ScheduleKind::WrongWords);
    };
    any(word)
}

#[tactic(auto, unfolding(crate::specs::ScheduleGrammar::take_of))]
fn take(rest: &[u8]) -> Result<ScheduleEvent, ScheduleKind>
    ensures { result ≡ take_of (words rest.now) }
{
    let Ok((taker, exporter)) = two_words(rest) else {
        return Err(ScheduleKind::WrongWords);
    };
    let taker = any(taker)?;
    let exporter = any(exporter)?;
    Ok(ScheduleEvent::Take(taker, exporter))
}

/// Of an allocation block, or of a large object.
#[tactic(auto, unfolding(crate::specs::ScheduleGrammar::own_of))]
fn own(rest: &[u8]) -> Result<ScheduleEvent, ScheduleKind>
    ensures { result ≡ own_of (words rest.now) }
{
    let Ok((worker_word, word)) = two_words(rest) else {
        return Err(ScheduleKind::WrongWords);
    };
    let worker = any(worker_word)?;
    if word == b"large".as_slice() {
        return Ok(ScheduleEvent::OwnLarge(worker));
    }
    let destination = any(word)?;
    Ok(ScheduleEvent::Own(worker, destination))
}

#[tactic(auto, unfolding(crate::specs::ScheduleGrammar::event_of))]
fn event(word: &[u8], rest: &[u8]) -> Result<ScheduleEvent, ScheduleKind>
    ensures { result ≡ event_of word.now (words rest.now) }
{
    if word == b"look".as_slice() {
        Ok(ScheduleEvent::Look(worker(rest)?))
    } else if word == b"race".as_slice() {
        Ok(ScheduleEvent::Race(worker(rest)?))
    } else if word == b"scan".as_slice() {
        Ok(ScheduleEvent::Scan(worker(rest)?))
    } else if word == b"export".as_slice() {
        Ok(ScheduleEvent::Export(worker(rest)?))
    } else if word == b"take".as_slice() {
        take(rest)
    } else if word == b"own".as_slice() {
        own(rest)
    } else if word == b"idle".as_slice() {
        Ok(ScheduleEvent::Idle(worker(rest)?))
    } else if word == b"wake".as_slice() {
        Ok(ScheduleEvent::Wake(worker(rest)?))
    } else if word == b"end".as_slice() {
        Ok(ScheduleEvent::End(worker(rest)?))
    } else {
        Err(ScheduleKind::UnknownEvent)
    }
}

/// No word may follow.
fn alone(line: ScheduleLine, rest: &[u8]) -> Result<ScheduleLine, ScheduleKind>
    ensures { result ≡ alone line (words rest.now) }
{
    match no_words(rest) {
        Ok(()) => Ok(line),
        Err(_) => Err(ScheduleKind::WrongWords),
    }
}

#[tactic(auto, unfolding(crate::specs::ScheduleGrammar::schedule_of))]
fn schedule_line(word: &[u8], rest: &[u8]) -> Result<ScheduleLine, ScheduleKind>
    ensures { result ≡ schedule_of word.now (words rest.now) }
{
    if word == b"finish".as_slice() {
        alone(ScheduleLine::Finish, rest)
    } else if word == b"commit".as_slice() {
        alone(ScheduleLine::Commit, rest)
    } else {
        let event = event(word, rest)?;
        Ok(ScheduleLine::Event(event))
    }
}

/// One line of a schedule without its line feed: what it says, or its first fault. It allocates nothing.
#[tactic(auto, unfolding(crate::specs::ScheduleGrammar::schedule_line_of))]
pub fn parse_event(line: &[u8]) -> Result<ScheduleLine, LineFault>
    ensures { result ≡ schedule_line_of line.now }
{
    if line.len() > MAX_LINE_LEN {
        return Err(LineFault::Trace(Kind::LineTooLong));
    }
    let Some((first, rest)) = split_first_word(without_return(line)) else {
        return Ok(ScheduleLine::Nothing);
    };
    if first[0] == b'#' {
        return Ok(ScheduleLine::Nothing);
    }
    match schedule_line(first, rest) {
        Ok(line) => Ok(line),
        Err(kind) => Err(LineFault::Schedule(kind)),
    }
}
