//! A report as text.
ghost use Rattle.std.specs.Prelude.{◌≡◌, ◌+◌, ◌-◌, ◌^◌, ◌<◌, ◌++◌, OnOk, OnErr, IfOk, string_bytes};
ghost use Rattle.std.specs.List.{flat_map, enumerate_from};
ghost use Rattle.heap_text.specs.Streams.{Appends};
ghost use Rattle.heap_text.specs.ReportText.{worker_line, delivery_line, workers_text};
ghost use Rattle.heap_text.specs.CollectionLine.{cause_word};
ghost use Rattle.model.specs.Text.{collection_line};

use crate::byte_streams::{Sink, WriteFailed, write_all};
use crate::{Cause, write_collection};
use std::alloc::{AllocError, Allocator};
use std::fmt::Write;
use steps::{Delivery, WorkerReport};

fn push_worker<A: Allocator, B: Allocator>(
    text: &mut String<A>,
    number: usize,
    worker: &WorkerReport<B>,
) -> Result<(), AllocError>
    ensures { OnOk result (string_bytes text.new ≡ string_bytes text.old ++ worker_line (number, worker.now)) }
{
    let won = worker.won().len();
    let scanned = worker.scanned().len();
    writeln!(text, "worker {number}: {won} won, {scanned} scanned")
}

fn push_workers<A: Allocator, B: Allocator>(
    text: &mut String<A>,
    workers: &[WorkerReport<B>],
) -> Result<(), AllocError>
    ensures { OnOk result
        (string_bytes text.new ≡ string_bytes text.old ++ flat_map worker_line (enumerate_from 0 workers.now)) }
{
    for (number, worker) in workers.iter().enumerate() {
        push_worker(text, number, worker)?;
    }
    Ok(())
}

fn push_delivery<A: Allocator>(text: &mut String<A>, delivery: &Delivery) -> Result<(), AllocError>
    ensures { OnOk result (string_bytes text.new ≡ string_bytes text.old ++ delivery_line delivery.now) }
{
    let exporter = delivery.exporter;
    let position = delivery.position;
    let objects = delivery.objects;
    let taker = delivery.taker;
    writeln!(
        text,
        "block {exporter}.{position}: {objects} objects, taken by {taker}"
    )
}

fn push_deliveries<A: Allocator>(
    text: &mut String<A>,
    deliveries: &[Delivery],
) -> Result<(), AllocError>
    ensures { OnOk result (string_bytes text.new ≡ string_bytes text.old ++ flat_map delivery_line deliveries.now) }
{
    for delivery in deliveries {
        push_delivery(text, delivery)?;
    }
    Ok(())
}

/// The lines of a collection's workers, and then one for each block that one worker exported and one took, in their order.
/// An error says that memory ran out.
pub fn workers_text<A: Allocator, B: Allocator>(
    alloc: A,
    workers: &[WorkerReport<B>],
    deliveries: &[Delivery],
) -> Result<String<A>, AllocError>
    ensures { IfOk result (λ text. string_bytes text ≡ workers_text workers.now deliveries.now) }
{
    let mut text = String::new(alloc);
    push_workers(&mut text, workers)?;
    push_deliveries(&mut text, deliveries)?;
    Ok(text)
}

/// Writes the line of a collection of the generations 0 to `generation`, and then the lines of its workers. It takes no
/// memory. After a failed write nothing is said of what was written.
pub fn write_report<W: Sink>(
    cause: Cause,
    generation: u64,
    kept: u64,
    freed: u64,
    workers: &str,
    writer: &mut W,
) -> Result<(), WriteFailed>
    requires { W.failed_writes writer.old < 2 ^ 64 - 1 }
    ensures bytes { OnOk result
        (Appends (W.output writer.old) (W.output writer.new)
        (collection_line (cause_word cause) generation kept freed ++ workers.now)) }
    ensures ok { OnOk result (W.failed_writes writer.new ≡ W.failed_writes writer.old) }
    ensures failed { OnErr result (W.failed_writes writer.new ≡ W.failed_writes writer.old + 1) }
{
    write_collection(cause, generation, kept, freed, writer)?;
    write_all(writer, workers.as_bytes())
}
