//! Word cells that four threads race for.
ghost use Rattle.std.specs.Prelude.{◌≡◌, ◌<◌, ◌≤◌, IfOk, All, length, vec_len};

use forwarding::{Forwards, Outcome, SettleError, WordCells, WordPass};
use layout::Place;
use std::alloc::{AllocError, Global};
use std::sync::Wait;
use std::test::Fail;
use std::thread;
use std::thread::{Promise, Threads};

/// How many names there are.
const NAMES: u16 = 1000;

/// What one worker gives back: its pass, and how many races it won.
#[derive(Drop)]
pub struct Done {
    pub pass: WordPass,
    pub won: u32,
}

/// The place that a worker proposes for a name. No two workers propose one place, and none proposes it twice.
fn proposal(worker: u16, name: u16) -> Place
    requires worker { worker < 4 }
    requires name { name < 1000 }
{
    Place::small(worker * 250 + name / 4, name % 4)
}

/// Whether some worker proposes the place for the name.
fn is_proposed(place: Option<Place>, name: usize) -> bool {
    match place {
        Some(Place::Small(at)) => {
            usize::from(at.block % 250) == name / 4 && usize::from(at.offset) == name % 4
        }
        _ => false,
    }
}

/// One worker races for all names.
fn race_for_all(cells: &WordCells, mut pass: WordPass, worker: u16) -> Done
    requires pass { pass.id ≡ cells.now.id }
    requires count { cells.now.count ≡ 1000 }
    requires worker { worker < 4 }
    ensures { result.pass.id ≡ cells.now.id }
{
    let mut won = 0u32;
    for name in 0..NAMES {
        let end = cells.race(&mut pass, u32::from(name), proposal(worker, name));
        won += u32::from(end == Outcome::Won);
    }
    Done { pass, won }
}

/// A worker's pass is of these cells.
#[derive(Clone, Copy)]
pub struct OfCells<'a>(&'a WordCells);

impl<'a> Promise<Done> for OfCells<'a> {
    ghost kept_by = { λ p d. d.pass.id ≡ p.0.now.id };
}

/// Each pass races in a thread of its own.
fn race_in_threads<R: Threads + Wait>(
    rt: &R,
    alloc: Global,
    cells: &WordCells,
    passes: Vec<WordPass>,
) -> Result<Vec<Done>, AllocError>
    requires passes { All (λ p. p.id ≡ cells.now.id) passes.items }
    requires few { vec_len passes ≤ 4 }
    requires count { cells.now.count ≡ 1000 }
    ensures { IfOk result (λ v. (vec_len v ≡ vec_len passes) × All (λ d. d.pass.id ≡ cells.now.id) v.items) }
{
    thread::scope(
        thread::scope_env(),
        rt,
        |scope| -> Result<Vec<Done>, AllocError>
            requires { All (λ p. p.id ≡ cells.now.id) passes.items × (vec_len passes ≤ 4) × (cells.now.count ≡ 1000) }
            ensures { IfOk result (λ v. (vec_len v ≡ vec_len passes) ×
                All (λ d. d.pass.id ≡ cells.entry.now.id) v.items) }
        {
            let mut handles = Vec::new(alloc);
            let mut worker = 0u16;
            for pass in passes {
                handles.push(scope.spawn_with(
                    OfCells(cells),
                    move || race_for_all(cells, pass, worker),
                )?)?;
                worker += 1;
            }
            Ok(thread::join_promised(rt, handles)?)
        },
    )
}

/// What all workers settle on, and how many races they won together.
fn settle_all(
    alloc: Global,
    cells: WordCells,
    all: Vec<Done>,
) -> Result<(Forwards, u32), SettleError>
    requires passes { All (λ d. d.pass.id ≡ cells.id) all.items }
    requires all { vec_len all ≡ cells.passes }
{
    let Ok(mut passes) = Vec::with_capacity(alloc, all.len()) else {
        return Err(SettleError::NoMemory);
    };
    let mut won = 0u32;
    for done in all {
        let Done { pass, won: more } = done;
        passes.push_reserved(pass);
        won = won.wrapping_add(more);
    }
    Ok((cells.settle(passes)?, won))
}

#[test]
fn each_name_is_won_once(rt: HostRuntime) -> Result<(), Fail> {
    let (cells, passes) = WordCells::new(rt.alloc(), u32::from(NAMES), 4)?;
    let all = race_in_threads(&rt, rt.alloc(), &cells, passes)?;
    let Ok((forwards, won)) = settle_all(rt.alloc(), cells, all) else {
        return Err(Fail::from("not settled"));
    };
    assert!(rt; won == 1000 && forwards.len() == 1000);
    assert!(rt; (0..1000).all(|name| is_proposed(forwards.place(name), name as usize)));
    Ok(())
}
