//! Collections of which each request for memory is refused from one on, so that what is tried again is refused again.
use crate::refused::shared_tree::{BLOCKS, requests_of_making, shared_tree};
use crate::refused::trials::{MANY, WAYS, outstanding};
use crate::ways::{Answer, Way, collected};
use refusing::Refusing;
use std::alloc::{AllocGlobal, Global};
use std::process::Abort;
use std::sync::Wait;
use std::test::Fail;
use std::thread::Threads;

/// What a collection of the younger generation answers, of a heap that finds memory until it is made.
fn answered<R: Threads + Wait + Sync + AllocGlobal>(
    rt: &R,
    refusing: &Refusing<Global>,
    way: Way,
) -> Result<Answer, Fail> {
    let (mut heap, _top) = shared_tree(refusing, BLOCKS)?;
    collected(rt, refusing, &mut heap, 0, way)
}

/// Refuses the requests of such a collection from each one on, until none is refused. Each collection comes to its end. It can be
/// carried out where only memory that it could do without was refused: for blocks that are kept for the next one, say.
fn refuse_from_each<R: Threads + Wait + Sync + AllocGlobal + Abort>(
    rt: &R,
    way: Way,
) -> Result<(), Fail> {
    let mut refusals = 0_u32;
    for first in requests_of_making(rt.alloc())?..MANY {
        let refusing = Refusing::from_on(rt.alloc(), first);
        let answer = answered(rt, &refusing, way)?;
        let refused = refusing.asked().saturating_sub(first);
        assert_eq!(rt; outstanding(&refusing), refused);
        if answer == Answer::NoMemory {
            assert!(rt; refused > 0, "{way:?}, request {first}");
            refusals = refusals.saturating_add(1);
            continue;
        }
        assert_eq!(rt; answer, Answer::Counts(100, 3), "{way:?}, request {first}");
        if refused == 0 {
            // At least one for each block of copies, and some for each worker.
            assert!(rt; refusals >= 12, "{way:?}");
            return Ok(());
        }
    }
    Err(Fail::from("each collection was refused"))
}

#[test]
fn each_request_of_each_way_from_one_on(rt: HostRuntime) -> Result<(), Fail> {
    for way in WAYS {
        refuse_from_each(&rt, way)?;
    }
    Ok(())
}
