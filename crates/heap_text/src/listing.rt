//! A heap as text.
ghost use Rattle.std.specs.Prelude.{◌≡◌, ◌+◌, ◌-◌, ◌^◌, ◌<◌, ◌++◌, OnOk, IfOk, IsErrOf, IsSome, IsTrue, All, map, flat_map, decimal, unwrap_or};
ghost use Rattle.std.specs.List.{join_with_byte};
ghost use Rattle.heap_text.specs.Streams.{Appends};
ghost use Rattle.model.specs.Graph.{object_at, root_at};
ghost use Rattle.model.specs.Reached.{has};
ghost use Rattle.model.specs.Text.{pointer_text, root_line, object_line};
ghost use Rattle.layout.specs.Place.{place_word};
ghost use Rattle.heap.specs.Words.{target_of_word};
ghost use Rattle.heap_text.specs.HeapLines.{name_value, object_of_name, named_objects, heap_lines};
ghost use Rattle.heap_text.specs.Numbering.{HasAllObjects, IsNumbering, IsClosedOrder, LeadsToNumbered};

use crate::byte_streams::{Sink, write_all};
use crate::error::WriteError;
use crate::numbering::{Numbering, number_objects, target_of};
use heap::{Collection, Heap, OpenError, RootId};
use layout::Place;
use std::alloc::{AllocError, Allocator};
use std::io::{self, Write};

/// A name in use, and its root.
#[derive(Clone, Copy, Debug)]
pub struct Name<'a> {
    /// The bytes of the name, which are written as they are.
    pub text: &'a [u8],
    /// The root that the name leads to, which has to be in use in the heap that is written.
    pub root: RootId,
}

/// Memory ran out while a text was made.
#[derive(Clone, Copy)]
struct NoText;

impl From<io::Error> for NoText {
    fn from(_error: io::Error) -> NoText {
        NoText
    }
}

impl From<AllocError> for NoText {
    fn from(_error: AllocError) -> NoText {
        NoText
    }
}

/// What a pointer's word leads to.
fn push_pointer<A: Allocator + Clone>(
    text: &mut Vec<u8, A>,
    heap: &Heap<A>,
    all: &Collection<A>,
    numbering: &Numbering<A>,
    word: u64,
) -> io::Result<()>
    requires all { HasAllObjects heap.now all.now }
    requires numbering { IsNumbering heap.now all.now.generation numbering.now.numbers.items
        (map place_word numbering.now.places.items) }
    requires leads { LeadsToNumbered (map place_word numbering.now.places.items) (target_of_word word) }
    ensures { OnOk result (text.new.items ≡ text.old.items
        ++ pointer_text (map place_word numbering.now.places.items) (target_of_word word)) }
{
    match target_of(word) {
        None => write!(text, "nil"),
        Some(place) => {
            let number = numbering.number(heap, all, place);
            write!(text, "#{number}")
        }
    }
}

/// What an object's pointers lead to, with spaces between.
fn push_pointers<A: Allocator + Clone>(
    text: &mut Vec<u8, A>,
    heap: &Heap<A>,
    all: &Collection<A>,
    numbering: &Numbering<A>,
    pointers: &[u64],
) -> io::Result<()>
    requires all { HasAllObjects heap.now all.now }
    requires numbering { IsNumbering heap.now all.now.generation numbering.now.numbers.items
        (map place_word numbering.now.places.items) }
    requires lead { All (λ word. LeadsToNumbered (map place_word numbering.now.places.items) (target_of_word word))
        pointers.now }
    ensures { OnOk result (text.new.items ≡ text.old.items
        ++ join_with_byte 32
        (map (pointer_text (map place_word numbering.now.places.items)) (map target_of_word pointers.now))) }
{
    for (i, word) in pointers.iter().enumerate() {
        if i > 0 {
            write!(text, " ")?;
        }
        push_pointer(text, heap, all, numbering, *word)?;
    }
    Ok(())
}

/// Numbers with spaces between.
fn push_words<A: Allocator>(text: &mut Vec<u8, A>, words: &[u64]) -> io::Result<()>
    ensures { OnOk result (text.new.items ≡ text.old.items ++ join_with_byte 32 (map decimal words.now)) }
{
    for (i, word) in words.iter().enumerate() {
        if i > 0 {
            write!(text, " ")?;
        }
        write!(text, "{word}")?;
    }
    Ok(())
}

/// The line of the object at a place.
fn push_object<A: Allocator + Clone>(
    text: &mut Vec<u8, A>,
    heap: &Heap<A>,
    all: &Collection<A>,
    numbering: &Numbering<A>,
    place: Place,
) -> io::Result<()>
    requires all { HasAllObjects heap.now all.now }
    requires numbering { IsNumbering heap.now all.now.generation numbering.now.numbers.items
        (map place_word numbering.now.places.items) }
    requires closed { IsClosedOrder heap.now.graph (map place_word numbering.now.places.items) }
    requires has { IsTrue (has (map place_word numbering.now.places.items) (place_word place)) }
    ensures { OnOk result (text.new.items ≡ text.old.items
        ++ object_line (map place_word numbering.now.places.items) (place_word place)
        (object_at heap.now.graph (place_word place))) }
{
    let object = heap.object(place).unwrap();
    let stands = heap.step_of(place).unwrap();
    let number = numbering.number(heap, all, place);
    let generation = stands.generation;
    let step = stands.step;
    write!(text, "#{number} gen {generation} step {step} ptrs [")?;
    push_pointers(text, heap, all, numbering, object.pointers)?;
    write!(text, "] words [")?;
    push_words(text, object.words)?;
    writeln!(text, "]")
}

/// The lines of the objects, in the order of their numbers.
fn push_objects<A: Allocator + Clone>(
    text: &mut Vec<u8, A>,
    heap: &Heap<A>,
    all: &Collection<A>,
    numbering: &Numbering<A>,
) -> io::Result<()>
    requires all { HasAllObjects heap.now all.now }
    requires numbering { IsNumbering heap.now all.now.generation numbering.now.numbers.items
        (map place_word numbering.now.places.items) }
    requires closed { IsClosedOrder heap.now.graph (map place_word numbering.now.places.items) }
    ensures { OnOk result (text.new.items ≡ text.old.items
        ++ flat_map (λ name. object_line (map place_word numbering.now.places.items) name
        (object_at heap.now.graph name)) (map place_word numbering.now.places.items)) }
{
    for place in &numbering.places {
        push_object(text, heap, all, numbering, *place)?;
    }
    Ok(())
}

/// The line of a name.
fn push_root<A: Allocator + Clone>(
    text: &mut Vec<u8, A>,
    heap: &Heap<A>,
    all: &Collection<A>,
    numbering: &Numbering<A>,
    name: Name<'_>,
) -> io::Result<()>
    requires all { HasAllObjects heap.now all.now }
    requires numbering { IsNumbering heap.now all.now.generation numbering.now.numbers.items
        (map place_word numbering.now.places.items) }
    requires rooted { IsSome (root_at heap.now.graph name.root.number) }
    requires named { IsTrue
        (has (map place_word numbering.now.places.items) (unwrap_or (root_at heap.now.graph name.root.number) 0)) }
    ensures { OnOk result (text.new.items ≡ text.old.items
        ++ root_line (map place_word numbering.now.places.items)
        (object_of_name heap.now.graph (name_value name.entry))) }
{
    let place = heap.target(name.root).unwrap();
    let number = numbering.number(heap, all, place);
    write!(text, "root ")?;
    text.extend_from_slice(name.text)?;
    writeln!(text, " #{number}")
}

/// The lines of the names, in their order.
fn push_roots<A: Allocator + Clone>(
    text: &mut Vec<u8, A>,
    heap: &Heap<A>,
    all: &Collection<A>,
    numbering: &Numbering<A>,
    names: &[Name<'_>],
) -> io::Result<()>
    requires all { HasAllObjects heap.now all.now }
    requires numbering { IsNumbering heap.now all.now.generation numbering.now.numbers.items
        (map place_word numbering.now.places.items) }
    requires rooted { All (λ name. IsSome (root_at heap.now.graph name.root.number)) names.now }
    requires named { All (λ name. IsTrue (has (map place_word numbering.now.places.items)
        (unwrap_or (root_at heap.now.graph name.root.number) 0))) names.now }
    ensures { OnOk result (text.new.items ≡ text.old.items
        ++ flat_map (root_line (map place_word numbering.now.places.items))
        (named_objects heap.now.graph (map name_value names.now))) }
{
    for name in names {
        push_root(text, heap, all, numbering, *name)?;
    }
    Ok(())
}

/// The objects of all generations.
fn all_objects<A: Allocator + Clone>(alloc: A, heap: &Heap<A>) -> Result<Collection<A>, AllocError>
    ensures { IfOk result (HasAllObjects heap.now) }
{
    let oldest = heap.config().generations() as u64 - 1;
    match heap.open_collection(alloc, oldest) {
        Ok(all) => Ok(all),
        Err(OpenError::NoMemory) => Err(AllocError),
        Err(OpenError::NoGeneration) => unreachable!(),
    }
}

/// The lines of the names, and then those of the objects.
fn text_of<A: Allocator + Clone>(
    alloc: A,
    heap: &Heap<A>,
    names: &[Name<'_>],
) -> Result<Vec<u8, A>, NoText>
    requires { All (λ name. IsSome (root_at heap.now.graph name.root.number)) names.now }
    ensures { IfOk result (λ text. text.items ≡ heap_lines heap.now.graph (map name_value names.now)) }
{
    let all = all_objects(alloc.clone()?, heap)?;
    let numbering = number_objects(alloc.clone()?, heap, &all, names)?;
    let mut text = Vec::new(alloc);
    push_roots(&mut text, heap, &all, &numbering, names)?;
    push_objects(&mut text, heap, &all, &numbering)?;
    Ok(text)
}

/// Writes the names with the numbers of their objects, and then each object that is reached from a name. Where memory
/// is refused nothing is written. After a failed write nothing is said of what was written.
pub fn write_heap<A: Allocator + Clone, W: Sink>(
    alloc: A,
    heap: &Heap<A>,
    names: &[Name<'_>],
    writer: &mut W,
) -> Result<(), WriteError>
    requires countable { W.failed_writes writer.old < 2 ^ 64 - 1 }
    requires rooted { All (λ name. IsSome (root_at heap.now.graph name.root.number)) names.now }
    ensures bytes { OnOk result
        (Appends (W.output writer.old) (W.output writer.new) (heap_lines heap.now.graph (map name_value names.now))) }
    ensures ok { OnOk result (W.failed_writes writer.new ≡ W.failed_writes writer.old) }
    ensures memory { IsErrOf result WriteError.NoMemory → writer.new ≡ writer.old }
    ensures failed { IsErrOf result WriteError.WriteFailed →
        W.failed_writes writer.new ≡ W.failed_writes writer.old + 1 }
{
    let text = text_of(alloc, heap, names).map_err(|_| WriteError::NoMemory)?;
    write_all(writer, text.as_slice()).map_err(|_| WriteError::WriteFailed)
}
