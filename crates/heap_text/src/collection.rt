//! The line of a collection.
ghost use Rattle.std.specs.Prelude.{◌≡◌, ◌+◌, ◌-◌, ◌^◌, ◌<◌, ◌≤◌, ◌++◌, OnOk, OnErr, decimal};
ghost use Rattle.heap_text.specs.Streams.{Appends};
ghost use Rattle.arrayvec.specs.ArrayString.{array_string_len};
ghost use Rattle.model.specs.Text.{collection_line};
ghost use Rattle.heap_text.specs.CollectionLine.{cause_word};

use crate::byte_streams::{Sink, WriteFailed, write_all};
use crate::cause::Cause;
use arrayvec::ArrayString;
use itoa::Buffer;

/// Room for the line of a collection.
type Line = ArrayString<192>;

fn push_number(line: &mut Line, number: u64)
    requires { array_string_len line.old ≤ 152 }
    ensures bytes { line.new.bytes ≡ line.old.bytes ++ decimal number }
    ensures len { array_string_len line.new ≤ array_string_len line.old + 40 }
{
    let mut digits = Buffer::new();
    line.push_str(digits.format(number));
}

/// The line of a collection of the generations 0 to `g`.
fn line_of(cause: Cause, g: u64, kept: u64, freed: u64) -> Line
    ensures { result.bytes ≡ collection_line (cause_word cause) g kept freed }
{
    let mut line = Line::new();
    line.push_str(cause.word());
    line.push_str(" ");
    push_number(&mut line, g);
    line.push_str(": ");
    push_number(&mut line, kept);
    line.push_str(" kept, ");
    push_number(&mut line, freed);
    line.push_str(" freed\n");
    line
}

/// Writes the line of a collection of the generations 0 to `generation`. It takes no memory. After a failed write nothing is said of
/// what was written.
pub fn write_collection<W: Sink>(
    cause: Cause,
    generation: u64,
    kept: u64,
    freed: u64,
    writer: &mut W,
) -> Result<(), WriteFailed>
    requires { W.failed_writes writer.old < 2 ^ 64 - 1 }
    ensures bytes { OnOk result
        (Appends (W.output writer.old) (W.output writer.new)
        (collection_line (cause_word cause) generation kept freed)) }
    ensures ok { OnOk result (W.failed_writes writer.new ≡ W.failed_writes writer.old) }
    ensures failed { OnErr result (W.failed_writes writer.new ≡ W.failed_writes writer.old + 1) }
{
    let line = line_of(cause, generation, kept, freed);
    write_all(writer, line.as_str().as_bytes())
}
