//! Cells ask for less where cells of their kind left memory.
use forwarding::{CellMemory, PlainCells, WordCells};
use refusing::Refusing;
use std::alloc::Global;
use std::test::Fail;

/// No request is refused.
const NONE: u64 = u64::MAX;

/// Memory of cells, of which each request is counted.
type Counted<'a> = CellMemory<&'a Refusing<Global>>;

/// How many requests plain cells take in that memory, and what they leave.
fn asked_by_plain<'a>(
    refusing: &'a Refusing<Global>,
    memory: Counted<'a>,
) -> Result<(u64, Counted<'a>), Fail> {
    let before = refusing.asked();
    let (cells, pass) = PlainCells::alone_within(refusing, memory, 100)?;
    let asked = refusing.asked().saturating_sub(before);
    Ok((asked, cells.settle_alone(pass).into_memory()))
}

/// How many requests word cells take in that memory, and what they leave.
fn asked_by_words<'a>(
    refusing: &'a Refusing<Global>,
    memory: Counted<'a>,
) -> Result<(u64, Counted<'a>), Fail> {
    let before = refusing.asked();
    let (cells, passes) = WordCells::within(refusing, memory, 100, 1)?;
    let asked = refusing.asked().saturating_sub(before);
    match cells.settle(passes) {
        Ok(forwards) => Ok((asked, forwards.into_memory())),
        Err(_) => Err(Fail::from("word cells settle")),
    }
}

/// Plain cells ask once, and not again; word cells ask once less for the second time, since they are copied from zeros that the
/// first ones left.
#[test]
fn cells_use_what_their_kind_left(rt: HostRuntime) -> Result<(), Fail> {
    let refusing = Refusing::new(rt.alloc(), NONE);
    let (anew, memory) = asked_by_plain(&refusing, CellMemory::none(&refusing))?;
    let (again, memory) = asked_by_plain(&refusing, memory)?;
    assert_eq!(rt; anew, 1);
    assert_eq!(rt; again, 0);
    let (anew, memory) = asked_by_words(&refusing, memory)?;
    let (again, memory) = asked_by_words(&refusing, memory)?;
    assert_eq!(rt; again.saturating_add(1), anew);
    drop(memory);
    assert_eq!(rt; refusing.asked(), refusing.returned());
    Ok(())
}
