//! The texts of errors, of all layers.
use block_pool::GrantError;
use collector::ThreadsError;
use heap::{
    AllocateError, BadConfig, FieldError, LoadError, MakeError, NoRoot, OpenError, StoreError,
};
use layout::TooBig;
use machine::{LookError, MachineError, StepError};
use nursery::NurseryFull;
use one_worker::CollectError;
use std::alloc::Global;
use std::fmt::{Display, Write};
use std::process::Abort;
use std::test::Fail;

/// Asserts that errors show these lines, one each.
fn assert_shown<E: Display>(
    rt: &impl Abort,
    alloc: Global,
    errors: &[E],
    lines: &str,
) -> Result<(), Fail> {
    let mut shown = String::new(alloc);
    for error in errors {
        writeln!(shown, "{error}")?;
    }
    assert_eq!(rt; shown.as_str(), lines);
    Ok(())
}

const PACKING: &str = "more pointers or plain words than an object may have
";

const GRANTING: &str = "too few blocks are free
no memory
";

const SETTLING_CELLS: &str = "a place is known that no pass won
no memory
";

#[test]
fn errors_of_headers_grants_and_cells(rt: HostRuntime) -> Result<(), Fail> {
    assert_shown(&rt, rt.alloc(), &[TooBig], PACKING)?;
    let granting = [GrantError::HeapFull, GrantError::NoMemory];
    assert_shown(&rt, rt.alloc(), &granting, GRANTING)?;
    let settling = [
        forwarding::SettleError::Unsettled,
        forwarding::SettleError::NoMemory,
    ];
    assert_shown(&rt, rt.alloc(), &settling, SETTLING_CELLS)
}

const MAKING: &str = "the nurseries want more blocks than there are
no memory
";

const ALLOCATING: &str = "no such mutator
too big
the nursery is full
heap full
no memory
";

#[test]
fn errors_of_making_and_allocating(rt: HostRuntime) -> Result<(), Fail> {
    let making = [MakeError::HeapFull, MakeError::NoMemory];
    assert_shown(&rt, rt.alloc(), &making, MAKING)?;
    let allocating = [
        AllocateError::NoMutator,
        AllocateError::TooBig,
        AllocateError::NurseryFull,
        AllocateError::HeapFull,
        AllocateError::NoMemory,
    ];
    assert_shown(&rt, rt.alloc(), &allocating, ALLOCATING)?;
    let config = [BadConfig];
    assert_shown(&rt, rt.alloc(), &config, "a size is out of its range\n")?;
    assert_shown(&rt, rt.alloc(), &[NurseryFull], "the nursery is full\n")
}

const READING: &str = "no such root
no such field
";

const STORING_AND_LOADING: &str = "no such root
no such field
no memory
";

#[test]
fn errors_of_fields_and_roots(rt: HostRuntime) -> Result<(), Fail> {
    let reading = [FieldError::NoRoot, FieldError::BadField];
    assert_shown(&rt, rt.alloc(), &reading, READING)?;
    let storing = [
        StoreError::NoRoot,
        StoreError::BadField,
        StoreError::NoMemory,
    ];
    assert_shown(&rt, rt.alloc(), &storing, STORING_AND_LOADING)?;
    let loading = [LoadError::NoRoot, LoadError::BadField, LoadError::NoMemory];
    assert_shown(&rt, rt.alloc(), &loading, STORING_AND_LOADING)?;
    assert_shown(&rt, rt.alloc(), &[NoRoot], "no such root\n")
}

const COLLECTING: &str = "no such generation
heap full
no memory
";

const OPENING: &str = "no such generation
no memory
";

const BY_THREADS: &str = "bad configuration
no such generation
heap full
no memory
cells unsettled
";

#[test]
fn errors_of_collecting(rt: HostRuntime) -> Result<(), Fail> {
    let collecting = [
        CollectError::NoGeneration,
        CollectError::HeapFull,
        CollectError::NoMemory,
    ];
    assert_shown(&rt, rt.alloc(), &collecting, COLLECTING)?;
    let opening = [OpenError::NoGeneration, OpenError::NoMemory];
    assert_shown(&rt, rt.alloc(), &opening, OPENING)?;
    let by_threads = [
        ThreadsError::BadConfig,
        ThreadsError::NoGeneration,
        ThreadsError::HeapFull,
        ThreadsError::NoMemory,
        ThreadsError::Unsettled,
    ];
    assert_shown(&rt, rt.alloc(), &by_threads, BY_THREADS)
}

const MAKING_A_MACHINE: &str = "there are 1 to 16 workers
no such generation
no memory
";

const STEPPING: &str = "not lawful
heap full
no memory
";

const LOOKING: &str = "all free blocks were drawn
no memory
";

const SETTLING: &str = "a worker hasn't ended
no memory
";

#[test]
fn errors_of_a_machine(rt: HostRuntime) -> Result<(), Fail> {
    let making = [
        MachineError::BadConfig,
        MachineError::NoGeneration,
        MachineError::NoMemory,
    ];
    assert_shown(&rt, rt.alloc(), &making, MAKING_A_MACHINE)?;
    let stepping = [
        StepError::NotLawful,
        StepError::HeapFull,
        StepError::NoMemory,
    ];
    assert_shown(&rt, rt.alloc(), &stepping, STEPPING)?;
    let looking = [LookError::HeapFull, LookError::NoMemory];
    assert_shown(&rt, rt.alloc(), &looking, LOOKING)?;
    let settling = [
        machine::SettleError::NotEnded,
        machine::SettleError::NoMemory,
    ];
    assert_shown(&rt, rt.alloc(), &settling, SETTLING)
}
