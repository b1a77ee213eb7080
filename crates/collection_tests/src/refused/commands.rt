//! The making of a heap, and commands that grow one, of which each request for memory is refused in turn.
use crate::heaps::{heap_of, seen};
use crate::refused::trials::{MANY, outstanding};
use collector::collect_one;
use heap::{AllocateError, Config, Heap, LoadError, MakeError, RootId, Sizes, StoreError};
use refusing::Refusing;
use std::alloc::{Allocator, Global};
use std::process::Abort;
use std::test::Fail;

/// How often a command is carried out. A list that has grown for the first of them must grow again for some other.
const TIMES: usize = 40;

/// Two generations, with blocks for so many large objects.
const SIZES: Sizes = Sizes {
    block_words: 64,
    blocks: 100,
    mutators: 1,
    nursery_blocks: 6,
    generations: 2,
    steps: 1,
};

/// A command that is carried out many times.
#[derive(Clone, Copy, Debug)]
enum Command {
    Allocate,
    AllocateLarge,
    /// The pointer of an old object is made to lead to the young one, each time of another.
    Store,
    /// The pointer of the young object is read into a new root.
    Load,
}

/// A heap with old objects that have roots and lead to nothing, and a young one that leads to itself.
#[derive(Drop)]
struct Aged<A: Allocator> {
    heap: Heap<A>,
    old: Vec<RootId, A>,
    young: RootId,
}

/// So many objects with a pointer each.
fn add_old<A: Allocator + Clone>(alloc: A, heap: &mut Heap<A>) -> Result<Vec<RootId, A>, Fail> {
    let mut old = Vec::new(alloc);
    for _object in 0..TIMES {
        let root = heap.allocate(0, 1, 1)?;
        old.push(root)?;
    }
    Ok(old)
}

/// A collection makes what is there old; then comes a young object that leads to itself.
fn add_young<A: Allocator + Clone>(alloc: A, heap: &mut Heap<A>) -> Result<RootId, Fail> {
    let _report = collect_one(alloc, heap, 0)?;
    let young = heap.allocate(0, 1, 1)?;
    heap.store(young, 0, Some(young))?;
    Ok(young)
}

/// As many old objects as a command is carried out, and a young one.
fn add_aged<A: Allocator + Clone>(
    alloc: A,
    heap: &mut Heap<A>,
) -> Result<(Vec<RootId, A>, RootId), Fail> {
    let old = add_old(alloc.clone()?, heap)?;
    let young = add_young(alloc, heap)?;
    Ok((old, young))
}

/// A heap with these.
fn aged_heap<A: Allocator + Clone>(alloc: A) -> Result<Aged<A>, Fail> {
    let mut heap = heap_of(alloc.clone()?, SIZES)?;
    let (old, young) = add_aged(alloc, &mut heap)?;
    Ok(Aged { heap, old, young })
}

/// Whether an object was allocated. If not, memory was wanting.
fn is_allocated<A: Allocator + Clone>(heap: &mut Heap<A>, plain: u64) -> Result<bool, Fail> {
    match heap.allocate(0, 0, plain) {
        Ok(_root) => Ok(true),
        Err(AllocateError::NoMemory) => Ok(false),
        Err(error) => Err(Fail::from(error)),
    }
}

fn is_stored<A: Allocator + Clone>(
    heap: &mut Heap<A>,
    old: RootId,
    young: RootId,
) -> Result<bool, Fail> {
    match heap.store(old, 0, Some(young)) {
        Ok(()) => Ok(true),
        Err(StoreError::NoMemory) => Ok(false),
        Err(error) => Err(Fail::from(error)),
    }
}

fn is_loaded<A: Allocator + Clone>(heap: &mut Heap<A>, young: RootId) -> Result<bool, Fail> {
    match heap.load(young, 0) {
        Ok(_root) => Ok(true),
        Err(LoadError::NoMemory) => Ok(false),
        Err(error) => Err(Fail::from(error)),
    }
}

/// Whether a command is carried out with this old object. If not, memory was wanting.
fn is_carried_out<A: Allocator + Clone>(
    heap: &mut Heap<A>,
    old: RootId,
    young: RootId,
    command: Command,
) -> Result<bool, Fail> {
    match command {
        Command::Allocate => is_allocated(heap, 1),
        Command::AllocateLarge => is_allocated(heap, 40),
        Command::Store => is_stored(heap, old, young),
        Command::Load => is_loaded(heap, young),
    }
}

/// Carries a command out with these old objects in turn, and tells with how many it went well before memory was wanting.
fn carried_out<A: Allocator + Clone>(
    heap: &mut Heap<A>,
    old: &[RootId],
    young: RootId,
    command: Command,
) -> Result<usize, Fail> {
    let mut count = 0_usize;
    for object in old {
        if !is_carried_out(heap, *object, young, command)? {
            break;
        }
        count = count.saturating_add(1);
    }
    Ok(count)
}

/// Carries a command out so many times, and tells what the heap is then.
fn see_after(
    alloc: Global,
    aged: &mut Aged<Global>,
    command: Command,
    times: usize,
) -> Result<Vec<u8>, Fail> {
    let (old, _rest) = aged.old.split_at(times.min(aged.old.len()));
    let _times = carried_out(&mut aged.heap, old, aged.young, command)?;
    seen(alloc, alloc, &aged.heap, &aged.old)
}

/// What a heap of its own is then.
fn seen_after(alloc: Global, command: Command, times: usize) -> Result<Vec<u8>, Fail> {
    let mut aged = aged_heap(alloc)?;
    see_after(alloc, &mut aged, command, times)
}

/// Asserts that a heap in which a request was refused is as one in which a command was carried out so many times.
fn assert_seen<'a>(
    rt: &impl Abort,
    alloc: Global,
    refusing: &'a Refusing<Global>,
    aged: &Aged<&'a Refusing<Global>>,
    command: Command,
    times: usize,
) -> Result<(), Fail> {
    let text = seen(alloc, refusing, &aged.heap, &aged.old)?;
    assert!(rt;
        text == seen_after(alloc, command, times)?,
        "{command:?} {times} times"
    );
    Ok(())
}

/// Carries a command out many times. Where memory is wanting, the heap is as the times before left it, and the others go well.
/// Tells how many those before were.
fn times_before_refusal<'a>(
    rt: &impl Abort,
    alloc: Global,
    refusing: &'a Refusing<Global>,
    aged: &mut Aged<&'a Refusing<Global>>,
    command: Command,
) -> Result<usize, Fail> {
    let times = carried_out(&mut aged.heap, &aged.old, aged.young, command)?;
    if times < TIMES {
        assert_seen(rt, alloc, refusing, aged, command, times)?;
        let (_done, rest) = aged.old.split_at(times.min(aged.old.len()));
        let others = carried_out(&mut aged.heap, rest, aged.young, command)?;
        assert_eq!(rt; times.saturating_add(others), TIMES);
        assert_seen(rt, alloc, refusing, aged, command, TIMES)?;
    }
    Ok(times)
}

/// The same, of a heap of its own.
fn times_with(
    rt: &impl Abort,
    alloc: Global,
    refusing: &Refusing<Global>,
    command: Command,
) -> Result<usize, Fail> {
    let mut aged = aged_heap(refusing)?;
    times_before_refusal(rt, alloc, refusing, &mut aged, command)
}

/// Makes such a heap, and drops it.
fn make(refusing: &Refusing<Global>) -> Result<(), Fail> {
    let _aged = aged_heap(refusing)?;
    Ok(())
}

/// How many requests the making of such a heap takes.
fn requests_of_making(alloc: Global) -> Result<u64, Fail> {
    let refusing = Refusing::new(alloc, MANY);
    make(&refusing)?;
    Ok(refusing.asked())
}

/// Refuses each request of a command in turn, until none is refused. All that was given is returned each time.
fn refuse_each(rt: &impl Abort, alloc: Global, command: Command) -> Result<(), Fail> {
    let first = requests_of_making(alloc)?;
    for refused in first..MANY {
        let refusing = Refusing::new(alloc, refused);
        let times = times_with(rt, alloc, &refusing, command)?;
        if times == TIMES {
            assert!(rt; refused > first, "{command:?}");
            assert_eq!(rt; outstanding(&refusing), 0);
            return Ok(());
        }
        assert_eq!(rt; outstanding(&refusing), 1);
    }
    Err(Fail::from("each was refused"))
}

#[test]
fn each_request_of_each_command(rt: HostRuntime) -> Result<(), Fail> {
    for command in [
        Command::Allocate,
        Command::AllocateLarge,
        Command::Store,
        Command::Load,
    ] {
        refuse_each(&rt, rt.alloc(), command)?;
    }
    Ok(())
}

/// Why a heap with such blocks isn't made where one request is refused.
fn refusal_of_making(refusing: &Refusing<Global>) -> Result<Option<MakeError>, Fail> {
    let Ok(config) = Config::new(SIZES) else {
        return Err(Fail::from("bad sizes"));
    };
    Ok(Heap::new(refusing, config).err())
}

#[test]
fn each_request_of_the_making_of_a_heap(rt: HostRuntime) -> Result<(), Fail> {
    for refused in 0..MANY {
        let refusing = Refusing::new(rt.alloc(), refused);
        let refusal = refusal_of_making(&refusing)?;
        let kept_back = outstanding(&refusing);
        if refusal.is_none() {
            // At least one for each block of the nursery.
            assert!(rt; refused >= 6);
            assert_eq!(rt; kept_back, 0);
            return Ok(());
        }
        assert_eq!(rt; (refusal, kept_back), (Some(MakeError::NoMemory), 1));
    }
    Err(Fail::from("each was refused"))
}
