//! Why a run stopped.
ghost use Rattle.std.specs.Prelude.{◌≡◌, ◌+◌, ◌-◌, ◌^◌, ◌<◌, OnOk, OnErr};
ghost use Rattle.heap_text.specs.Streams.{Appends, AppendsFront};
ghost use Rattle.trace_session.specs.FaultText.{kind_text, schedule_kind_text, line_of, plain_text, place_text, fault_line, status_of};

use heap_text::{Sink, WriteFailed, write_all};
use itoa::Buffer;
use model::Kind;
use std::fmt;
use thiserror::Error;
use trace_text::ScheduleKind;

/// Why a run stopped. Lines are counted from 1.
#[derive(Clone, Copy, Debug, PartialEq, Eq, Error)]
pub enum Fault {
    /// The first faulty line.
    #[error("line {0}: {text}", text = kind_text(*.1))]
    BadTrace(u128, Kind),
    /// The first faulty line of a schedule, or the line that began one which the trace leaves unfinished.
    #[error("line {0}: {text}", text = schedule_kind_text(*.1))]
    BadSchedule(u128, ScheduleKind),
    /// Too few blocks were free in this line, or for the nurseries when the heap was made.
    #[error("{place}heap full", place = Place(*.0))]
    HeapFull(Option<u128>),
    /// Memory was refused in this line, or before the first.
    #[error("{place}no memory", place = Place(*.0))]
    NoMemory(Option<u128>),
    /// A boxed cell showed a place that no worker won, in the collection of this line.
    #[error("line {0}: cells unsettled")]
    Unsettled(u128),
    /// A read of the input failed, or 2^64 - 1 reads found no end of it. No line is told.
    #[error("read failed")]
    ReadFailed,
    /// A write of the output failed. No line is told.
    #[error("write failed")]
    WriteFailed,
}

/// Shows the line that was being carried out, if there was one.
#[derive(Clone, Copy, Debug)]
struct Place(Option<u128>);

impl fmt::Display for Place {
    fn fmt<W: fmt::Write>(&self, f: &mut fmt::Formatter<W>) -> fmt::Result {
        match self.0 {
            Some(line) => write!(f, "line {line}: "),
            None => Ok(()),
        }
    }
}

fn kind_text(kind: Kind) -> &'static str
    ensures { result.now ≡ kind_text kind }
{
    match kind {
        Kind::UnfinishedLine => "unfinished line",
        Kind::LineTooLong => "line too long",
        Kind::UnknownCommand => "unknown command",
        Kind::WrongWords => "wrong number of words",
        Kind::BadName => "bad name",
        Kind::BadNumber => "bad number",
        Kind::NameInUse => "name in use",
        Kind::UnknownName => "unknown name",
        Kind::NoField => "no such field",
        Kind::NilPointer => "nil pointer",
        Kind::NoMutator => "no such mutator",
        Kind::TooBig => "too big",
        Kind::NoGeneration => "no such generation",
    }
}

fn schedule_kind_text(kind: ScheduleKind) -> &'static str
    ensures { result.now ≡ schedule_kind_text kind }
{
    match kind {
        ScheduleKind::UnknownEvent => "unknown event",
        ScheduleKind::WrongWords => "wrong number of words",
        ScheduleKind::BadNumber => "bad number",
        ScheduleKind::NotLawful => "event not lawful",
        ScheduleKind::NotEnded => "collection not ended",
        ScheduleKind::UnfinishedSchedule => "unfinished schedule",
    }
}

impl Fault {
    /// The exit status of a program that stopped so: 1 for want of blocks or memory or for unsettled cells, 2 for a faulty
    /// trace or schedule, 4 for a failed read or write.
    pub fn status(&self) -> u8
        ensures { result ≡ status_of self.now }
    {
        match self {
            Fault::BadTrace(_, _) | Fault::BadSchedule(_, _) => 2,
            Fault::HeapFull(_) | Fault::NoMemory(_) | Fault::Unsettled(_) => 1,
            Fault::ReadFailed | Fault::WriteFailed => 4,
        }
    }

    fn line(&self) -> Option<u128>
        ensures { result ≡ line_of self.now }
    {
        match self {
            Fault::BadTrace(line, _) | Fault::BadSchedule(line, _) => Some(*line),
            Fault::HeapFull(line) | Fault::NoMemory(line) => *line,
            Fault::Unsettled(line) => Some(*line),
            Fault::ReadFailed | Fault::WriteFailed => None,
        }
    }

    /// What is wrong, without the line.
    fn text(&self) -> &'static str
        ensures { result.now ≡ plain_text self.now }
    {
        match self {
            Fault::BadTrace(_, kind) => kind_text(*kind),
            Fault::BadSchedule(_, kind) => schedule_kind_text(*kind),
            Fault::HeapFull(_) => "heap full",
            Fault::NoMemory(_) => "no memory",
            Fault::Unsettled(_) => "cells unsettled",
            Fault::ReadFailed => "read failed",
            Fault::WriteFailed => "write failed",
        }
    }
}

/// Writes `line L: `, or nothing.
fn write_place<E: Sink>(line: Option<u128>, errors: &mut E) -> Result<(), WriteFailed>
    requires { E.failed_writes errors.old < 2 ^ 64 - 1 }
    ensures bytes { OnOk result (Appends (E.output errors.old) (E.output errors.new) (place_text line)) }
    ensures front { OnErr result (AppendsFront (E.output errors.old) (E.output errors.new) (place_text line)) }
    ensures ok { OnOk result (E.failed_writes errors.new ≡ E.failed_writes errors.old) }
    ensures err { OnErr result (E.failed_writes errors.new ≡ E.failed_writes errors.old + 1) }
{
    let Some(line) = line else {
        return Ok(());
    };
    let mut digits = Buffer::new();
    write_all(errors, b"line ")?;
    write_all(errors, digits.format(line).as_bytes())?;
    write_all(errors, b": ")
}

/// Writes the line that tells of a fault, or where a write fails a front of it. It allocates nothing, so that it can tell of
/// want of memory.
pub fn write_fault<E: Sink>(fault: &Fault, errors: &mut E) -> Result<(), WriteFailed>
    requires { E.failed_writes errors.old < 2 ^ 64 - 1 }
    ensures bytes { OnOk result (Appends (E.output errors.old) (E.output errors.new) (fault_line fault.now)) }
    ensures front { OnErr result (AppendsFront (E.output errors.old) (E.output errors.new) (fault_line fault.now)) }
    ensures ok { OnOk result (E.failed_writes errors.new ≡ E.failed_writes errors.old) }
    ensures err { OnErr result (E.failed_writes errors.new ≡ E.failed_writes errors.old + 1) }
{
    write_all(errors, b"gctrace: ")?;
    write_place(fault.line(), errors)?;
    write_all(errors, fault.text().as_bytes())?;
    write_all(errors, b"\n")
}
