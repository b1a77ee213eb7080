//! The census as text.
ghost use Rattle.std.specs.Prelude.{◌≡◌, ◌+◌, ◌-◌, ◌^◌, ◌<◌, ◌++◌, OnOk, IsErrOf, IfOk, string_bytes};
ghost use Rattle.heap_text.specs.Streams.{Appends};
ghost use Rattle.model.specs.Text.{step_line, census_text};
ghost use Rattle.heap.specs.CensusView.{step_value};

use crate::byte_streams::{Sink, write_all};
use crate::error::WriteError;
use heap::{Census, StepCount};
use std::alloc::{AllocError, Allocator};
use std::fmt::Write;

fn push_step<A: Allocator>(text: &mut String<A>, count: &StepCount) -> Result<(), AllocError>
    ensures { OnOk result (string_bytes text.new ≡ string_bytes text.old ++ step_line (step_value count.now)) }
{
    let generation = count.generation;
    let step = count.step;
    let objects = count.objects;
    let words = count.words;
    writeln!(
        text,
        "gen {generation} step {step}: {objects} objects {words} words"
    )
}

fn text_of<A: Allocator>(alloc: A, census: &Census) -> Result<String<A>, AllocError>
    ensures { IfOk result (λ text. string_bytes text ≡ census_text census.now) }
{
    let mut text = String::new(alloc);
    for count in census.steps() {
        push_step(&mut text, count)?;
    }
    let large_objects = census.large_objects();
    let large_words = census.large_words();
    let roots = census.roots();
    let remembered = census.remembered();
    writeln!(text, "large: {large_objects} objects {large_words} words")?;
    writeln!(text, "roots: {roots}")?;
    writeln!(text, "remembered: {remembered}")?;
    Ok(text)
}

/// Writes the lines of a census. Where memory is refused nothing is written. After a failed write nothing is said of
/// what was written.
pub fn write_census<A: Allocator, W: Sink>(
    alloc: A,
    census: &Census,
    writer: &mut W,
) -> Result<(), WriteError>
    requires { W.failed_writes writer.old < 2 ^ 64 - 1 }
    ensures bytes { OnOk result (Appends (W.output writer.old) (W.output writer.new) (census_text census.now)) }
    ensures ok { OnOk result (W.failed_writes writer.new ≡ W.failed_writes writer.old) }
    ensures memory { IsErrOf result WriteError.NoMemory → writer.new ≡ writer.old }
    ensures failed { IsErrOf result WriteError.WriteFailed →
        W.failed_writes writer.new ≡ W.failed_writes writer.old + 1 }
{
    let text = text_of(alloc, census).map_err(|_| WriteError::NoMemory)?;
    write_all(writer, text.as_bytes()).map_err(|_| WriteError::WriteFailed)
}
