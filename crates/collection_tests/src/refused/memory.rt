//! Collections of which each request for memory is refused in turn.
use crate::heaps::seen;
use crate::refused::shared_tree::{BLOCKS, requests_of_making, shared_tree};
use crate::refused::trials::{MANY, WAYS, outstanding};
use crate::ways::{Answer, Ended, Way, collected, end_of};
use collector::CellKind;
use heap::{Heap, RootId};
use refusing::Refusing;
use std::alloc::{AllocGlobal, Global};
use std::process::Abort;
use std::sync::Wait;
use std::test::Fail;
use std::thread::Threads;

/// What one worker makes of the heap where nothing is refused.
fn end_unrefused<R: Threads + Wait + Sync + AllocGlobal>(
    rt: &R,
    generation: u64,
) -> Result<Ended, Fail> {
    let (mut heap, top) = shared_tree(rt.alloc(), BLOCKS)?;
    end_of(rt, &mut heap, top, generation, Way::Alone)
}

/// Which request is refused, of which collection.
#[derive(Clone, Copy)]
struct Trial {
    refused: u64,
    generation: u64,
    way: Way,
}

/// What comes of a collection where one request may be refused.
#[derive(Clone, Copy)]
struct Tried {
    answer: Answer,
    /// Whether it came to the request that is refused.
    was_refused: bool,
    /// How many requests more than before it are not returned, the refused one among them.
    kept_back: u64,
}

/// Collects where one request may be refused. What the heap keeps for its next collection isn't lost, and isn't counted.
fn collected_once<'a, R: Threads + Wait + Sync + AllocGlobal>(
    rt: &R,
    refusing: &'a Refusing<Global>,
    heap: &mut Heap<&'a Refusing<Global>>,
    trial: Trial,
) -> Result<Tried, Fail> {
    drop(heap.take_spare());
    let before = outstanding(refusing);
    let answer = collected(rt, refusing, heap, trial.generation, trial.way)?;
    drop(heap.take_spare());
    Ok(Tried {
        answer,
        was_refused: refusing.asked() > trial.refused,
        kept_back: outstanding(refusing).saturating_sub(before),
    })
}

/// Makes requests until the one that is refused was made.
fn spend(refusing: &Refusing<Global>, refused: u64) {
    for _request in refusing.asked()..=refused {
        let mut one = Vec::new(refusing);
        let _answer = one.push(0_u64);
    }
}

/// Whether a collection that ran out of memory leaves the heap as before, and another is carried out. One by threads can be carried out
/// though a request was refused: a worker who finds no memory for a race may race once more.
fn is_as_wanted(tried: Tried, text: &[u8], wanted: &Ended) -> bool {
    match tried.answer {
        Answer::NoMemory => {
            tried.was_refused && tried.kept_back == 1 && text == wanted.before.as_slice()
        }
        answer => answer == wanted.answer && text == wanted.after.as_slice(),
    }
}

/// Whether a collection is carried out, once a request was refused.
fn is_carried_out<'a, R: Threads + Wait + Sync + AllocGlobal>(
    rt: &R,
    refusing: &'a Refusing<Global>,
    heap: &mut Heap<&'a Refusing<Global>>,
    top: RootId,
    trial: Trial,
    wanted: &Ended,
) -> Result<bool, Fail> {
    let answer = collected(rt, refusing, heap, trial.generation, trial.way)?;
    let text = seen(rt.alloc(), refusing, heap, &[top])?;
    Ok(answer == wanted.answer && text == wanted.after)
}

/// Asserts what comes of a collection, and of the next one where this ran out of memory.
fn assert_tried<'a, R: Threads + Wait + Sync + AllocGlobal + Abort>(
    rt: &R,
    refusing: &'a Refusing<Global>,
    heap: &mut Heap<&'a Refusing<Global>>,
    top: RootId,
    trial: Trial,
    wanted: &Ended,
) -> Result<Tried, Fail> {
    let tried = collected_once(rt, refusing, heap, trial)?;
    spend(refusing, trial.refused);
    let text = seen(rt.alloc(), refusing, heap, &[top])?;
    let (way, refused) = (trial.way, trial.refused);
    assert!(rt;
        is_as_wanted(tried, &text, wanted),
        "{way:?}, request {refused}"
    );
    if tried.answer == Answer::NoMemory {
        let is_carried_out = is_carried_out(rt, refusing, heap, top, trial, wanted)?;
        assert!(rt; is_carried_out, "{way:?}, after request {refused}");
    }
    Ok(tried)
}

/// The same, of a heap of its own.
fn tried_heap<R: Threads + Wait + Sync + AllocGlobal + Abort>(
    rt: &R,
    refusing: &Refusing<Global>,
    trial: Trial,
    wanted: &Ended,
) -> Result<Tried, Fail> {
    let (mut heap, top) = shared_tree(refusing, BLOCKS)?;
    assert_tried(rt, refusing, &mut heap, top, trial, wanted)
}

/// The same, and that all that was given is returned once the heap is dropped.
fn tried_and_returned<R: Threads + Wait + Sync + AllocGlobal + Abort>(
    rt: &R,
    trial: Trial,
    wanted: &Ended,
) -> Result<Tried, Fail> {
    let refusing = Refusing::new(rt.alloc(), trial.refused);
    let tried = tried_heap(rt, &refusing, trial, wanted)?;
    assert_eq!(rt; outstanding(&refusing), 1);
    Ok(tried)
}

/// Refuses each request of such a collection in turn, until none comes to the one that is refused.
fn refuse_each<R: Threads + Wait + Sync + AllocGlobal + Abort>(
    rt: &R,
    generation: u64,
    way: Way,
) -> Result<(), Fail> {
    let wanted = end_unrefused(rt, generation)?;
    let mut refusals = 0_u32;
    for refused in requests_of_making(rt.alloc())?..MANY {
        let trial = Trial {
            refused,
            generation,
            way,
        };
        let tried = tried_and_returned(rt, trial, &wanted)?;
        if !tried.was_refused {
            // At least one for each block of copies, and some for each worker.
            assert!(rt; refusals >= 12);
            return Ok(());
        }
        if tried.answer == Answer::NoMemory {
            refusals = refusals.saturating_add(1);
        }
    }
    Err(Fail::from("each collection was refused"))
}

#[test]
fn each_request_of_each_way_to_collect(rt: HostRuntime) -> Result<(), Fail> {
    for way in WAYS {
        for generation in 0..2 {
            refuse_each(&rt, generation, way)?;
        }
    }
    Ok(())
}

#[test]
fn each_request_of_three_threads(rt: HostRuntime) -> Result<(), Fail> {
    for generation in 0..2 {
        refuse_each(&rt, generation, Way::OnThreads(3, CellKind::Word))?;
    }
    Ok(())
}
