//! Collections by threads of heaps that a seed draws, one after another: few of old heaps, and thousands by sixteen threads.
use crate::on_threads::drawn::{Drawing, Told, told_of};
use crate::ways::Way;
use collector::CellKind;
use std::alloc::AllocGlobal;
use std::process::Abort;
use std::sync::Wait;
use std::test::Fail;
use std::thread::Threads;

/// How many heaps sixteen threads collect twice, over each kind of cells.
const MANY: u32 = 500;

/// A heap of one or two generations, up to 60 objects, and one to three mutators, which is collected twice.
fn small_drawing(seed: u32) -> Drawing {
    Drawing {
        seed,
        generations: seed / 2 % 2 + 1,
        steps: seed / 4 % 2 + 1,
        mutators: seed % 3 + 1,
        most: 30,
        collections: 2,
    }
}

/// Whether sixteen threads leave what one worker leaves.
fn sixteen_agree<R: Threads + Wait + Sync + AllocGlobal>(
    rt: &R,
    seed: u32,
    kind: CellKind,
) -> Result<bool, Fail> {
    let drawing = small_drawing(seed);
    let one = told_of(rt, drawing, Way::Alone)?;
    let sixteen = told_of(rt, drawing, Way::OnThreads(16, kind))?;
    Ok(sixteen == one)
}

#[test]
fn sixteen_threads_over_words(rt: HostRuntime) -> Result<(), Fail> {
    for seed in 0..MANY {
        assert!(&rt; sixteen_agree(&rt, seed, CellKind::Word)?, "seed {seed}");
    }
    Ok(())
}

#[test]
fn sixteen_threads_over_boxes(rt: HostRuntime) -> Result<(), Fail> {
    for seed in 0..MANY {
        assert!(&rt; sixteen_agree(&rt, seed, CellKind::Box)?, "seed {seed}");
    }
    Ok(())
}

/// Asserts that so many threads leave what one worker left, with both kinds of cells.
fn assert_agree<R: Threads + Wait + Sync + AllocGlobal + Abort>(
    rt: &R,
    drawing: Drawing,
    n: u32,
    one: &Told,
) -> Result<(), Fail> {
    let words = told_of(rt, drawing, Way::OnThreads(n, CellKind::Word))?;
    assert!(rt; words == *one, "{n} over words, seed {}", drawing.seed);
    let boxes = told_of(rt, drawing, Way::OnThreads(n, CellKind::Box))?;
    assert!(rt; boxes == *one, "{n} over boxes, seed {}", drawing.seed);
    Ok(())
}

/// Asserts that so many threads, and so many, leave what one worker leaves of a heap with old objects.
fn assert_old_agree<R: Threads + Wait + Sync + AllocGlobal + Abort>(
    rt: &R,
    drawing: Drawing,
    numbers: [u32; 2],
) -> Result<(), Fail> {
    let one = told_of(rt, drawing, Way::Alone)?;
    assert!(rt; one.has_remembered(), "seed {}", drawing.seed);
    for n in numbers {
        assert_agree(rt, drawing, n, &one)?;
    }
    Ok(())
}

/// A heap of so many generations, with three mutators, which is collected seven times.
fn old_drawing(seed: u32, generations: u32) -> Drawing {
    Drawing {
        seed,
        generations,
        steps: seed % 3 + 1,
        mutators: 3,
        most: 40,
        collections: 7,
    }
}

#[test]
fn generations_in_a_row(rt: HostRuntime) -> Result<(), Fail> {
    let mut number = 0_u32;
    for seed in 0..8 {
        for generations in [2, 3, 4] {
            let numbers = [1 + number % 4, 5 + number % 12];
            assert_old_agree(&rt, old_drawing(seed, generations), numbers)?;
            number = number.saturating_add(1);
        }
    }
    Ok(())
}
