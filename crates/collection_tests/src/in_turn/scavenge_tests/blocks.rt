//! Blocks that a worker copies into.
ghost use Rattle.std.specs.Prelude.{◌≡◌, ◌<◌, IfOk, length};

use block_pool::Block;
use layout::{ObjectRef, Place};
use scavenge::AllocationBlocks;
use std::alloc::Global;
use std::test::Fail;

/// A table for two destinations, of which the second has block 7.
fn table_of_two(alloc: Global) -> Result<AllocationBlocks, Fail>
    ensures { IfOk result (λ table. length table ≡ 2) }
{
    let mut table = AllocationBlocks::new(alloc, 2)?;
    let mut block = Block::new(alloc, 16)?;
    block.label(7, 0, 1);
    let _none = table.replace(1, block);
    Ok(table)
}

/// The place of the first unscanned object for a destination, which is then scanned, and whether another is unscanned.
fn passed(table: &mut AllocationBlocks, d: usize) -> Option<(Place, bool)> {
    if !table.has_unscanned(d) {
        return None;
    }
    Some(table.pass_front(d))
}

/// Takes back the last copy for a destination, where something is unscanned. Whether it was.
fn is_taken_back(table: &mut AllocationBlocks, d: usize) -> bool {
    if !table.has_unscanned(d) {
        return false;
    }
    table.take_back(d);
    true
}

#[test]
fn copies_lie_one_after_the_other(rt: HostRuntime) -> Result<(), Fail> {
    let mut table = table_of_two(rt.alloc())?;
    assert!(rt; !table.fits(0, 1) && table.fits(1, 16) && !table.fits(1, 17) && !table.fits(2, 1));
    let first = ObjectRef::new(0, &[65536], &[5]);
    assert!(rt; table.fits(1, first.size() as usize));
    assert_eq!(rt; table.push(1, first), Place::small(7, 0));
    let second = ObjectRef::new(0, &[], &[6, 7]);
    assert!(rt; table.fits(1, second.size() as usize));
    assert_eq!(rt; table.push(1, second), Place::small(7, 3));
    table.write_front(1, 0, 4295032832);

    let blocks = table.into_blocks();
    let Some(Some(block)) = blocks.get(1) else {
        return Err(Fail::from("no block"));
    };
    assert!(rt; block.number() == 7 && 1 < block.len());
    let object = block.object(0);
    assert_eq!(rt;
        (object.pointers, object.words),
        ([4295032832].as_slice(), [5].as_slice())
    );
    let object = block.object(1);
    assert_eq!(rt;
        (object.pointers, object.words),
        ([].as_slice(), [6, 7].as_slice())
    );
    Ok(())
}

#[test]
fn a_copy_is_taken_back(rt: HostRuntime) -> Result<(), Fail> {
    let mut table = table_of_two(rt.alloc())?;
    assert!(rt; !table.has_unscanned(1));
    for pointer in [65536, 131072, 196608] {
        let pointers = [pointer];
        let object = ObjectRef::new(0, &pointers, &[]);
        assert!(rt; table.fits(1, object.size() as usize));
        let _place = table.push(1, object);
    }
    assert!(rt; is_taken_back(&mut table, 1));
    assert_eq!(rt; passed(&mut table, 1), Some((Place::small(7, 0), true)));
    assert_eq!(rt; passed(&mut table, 1), Some((Place::small(7, 2), false)));
    assert!(rt; !is_taken_back(&mut table, 1));
    assert_eq!(rt; passed(&mut table, 1), None);
    assert_eq!(rt; passed(&mut table, 0), None);
    Ok(())
}
