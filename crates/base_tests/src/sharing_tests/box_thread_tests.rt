//! Boxed cells that two and four threads race for.
ghost use Rattle.std.specs.Prelude.{◌≡◌, ◌<◌, IfOk, length};
ghost use Rattle.std.specs.Thread.{IsSync};
ghost use Rattle.forwarding.specs.Noted.{IsPassOf};

use forwarding::{BoxCells, BoxPass, Forwards, Outcome, SettleError};
use layout::Place;
use std::alloc::{AllocError, Global};
use std::process::Abort;
use std::test::Fail;
use std::thread::{Threads, join};

// A thread's pass, and the pairs that it won by what its races answered.
#[derive(Drop)]
struct Raced {
    pass: BoxPass,
    won: Vec<(u32, Place)>,
}

// A place that no other thread proposes.
fn own_place(worker: u16, name: u32) -> Place
    requires { (worker < 4) × (name < 1000) }
{
    Place::small(worker * 2 + (name / 512) as u16, (name % 512) as u16)
}

// Races for each name.
fn race_for_all(
    cells: &BoxCells,
    alloc: Global,
    mut pass: BoxPass,
    worker: u16,
) -> Result<Raced, AllocError>
    requires count { length cells.now ≡ 1000 }
    requires pass { IsPassOf cells.now pass }
    requires worker { worker < 4 }
    ensures { IfOk result (λ r. IsPassOf cells.now r.pass × (r.pass.number ≡ pass.number)) }
{
    let mut won = Vec::new(alloc);
    for name in 0..1000u32 {
        let place = own_place(worker, name);
        if cells.race(&mut pass, name, place)? == Outcome::Won {
            won.push((name, place))?;
        }
    }
    Ok(Raced { pass, won })
}

// Two threads at once.
fn race_in_two<R: Threads + Sync>(
    rt: &R,
    cells: &BoxCells,
    alloc: Global,
    first: BoxPass,
    second: BoxPass,
    worker: u16,
) -> Result<(Raced, Raced), AllocError>
    requires count { length cells.now ≡ 1000 }
    requires passes { IsPassOf cells.now first × IsPassOf cells.now second }
    requires worker { worker < 3 }
    ensures { IfOk result (λ r. IsPassOf cells.now r.0.pass × IsPassOf cells.now r.1.pass ×
        (r.0.pass.number ≡ first.number) × (r.1.pass.number ≡ second.number)) }
{
    let (one, two) = join(
        rt,
        || -> Result<Raced, AllocError>
            requires { (length cells.now ≡ 1000) × IsPassOf cells.now first × (worker < 3) }
            ensures { IfOk result (λ r. IsPassOf cells.entry.now r.pass × (r.pass.number ≡ first.number)) }
        { race_for_all(cells, alloc, first, worker) },
        || -> Result<Raced, AllocError>
            requires { (length cells.now ≡ 1000) × IsPassOf cells.now second × (worker < 3) }
            ensures { IfOk result (λ r. IsPassOf cells.entry.now r.pass × (r.pass.number ≡ second.number)) }
        { race_for_all(cells, alloc, second, worker + 1) },
    );
    Ok((one?, two?))
}

// Four threads at once.
fn race_in_four<R: Threads + Sync>(
    rt: &R,
    cells: &BoxCells,
    alloc: Global,
    passes: (BoxPass, BoxPass, BoxPass, BoxPass),
) -> Result<((Raced, Raced), (Raced, Raced)), AllocError>
    requires count { length cells.now ≡ 1000 }
    requires passes { IsPassOf cells.now passes.0 × IsPassOf cells.now passes.1 × IsPassOf cells.now passes.2 ×
        IsPassOf cells.now passes.3 }
    ensures passes { IfOk result (λ r. IsPassOf cells.now r.0.0.pass × IsPassOf cells.now r.0.1.pass ×
        IsPassOf cells.now r.1.0.pass × IsPassOf cells.now r.1.1.pass) }
    ensures numbers { IfOk result (λ r. (r.0.0.pass.number ≡ passes.0.number) × (r.0.1.pass.number ≡ passes.1.number) ×
        (r.1.0.pass.number ≡ passes.2.number) × (r.1.1.pass.number ≡ passes.3.number)) }
{
    let (first, second, third, fourth) = passes;
    let (one, two) = join(
        rt,
        || -> Result<(Raced, Raced), AllocError>
            requires { IsSync R.row × (length cells.now ≡ 1000) × IsPassOf cells.now first × IsPassOf cells.now second }
            ensures { IfOk result (λ r. IsPassOf cells.entry.now r.0.pass × IsPassOf cells.entry.now r.1.pass ×
                (r.0.pass.number ≡ first.number) × (r.1.pass.number ≡ second.number)) }
        { race_in_two(rt, cells, alloc, first, second, 0) },
        || -> Result<(Raced, Raced), AllocError>
            requires { IsSync R.row × (length cells.now ≡ 1000) × IsPassOf cells.now third × IsPassOf cells.now fourth }
            ensures { IfOk result (λ r. IsPassOf cells.entry.now r.0.pass × IsPassOf cells.entry.now r.1.pass ×
                (r.0.pass.number ≡ third.number) × (r.1.pass.number ≡ fourth.number)) }
        { race_in_two(rt, cells, alloc, third, fourth, 2) },
    );
    Ok((one?, two?))
}

// Cells for a thousand names, and four passes.
fn four_passes(alloc: Global) -> Result<(BoxCells, (BoxPass, BoxPass, BoxPass, BoxPass)), Fail>
    ensures count { IfOk result (λ r. length r.0 ≡ 1000) }
    ensures passes { IfOk result (λ r. IsPassOf r.0 r.1.0 × IsPassOf r.0 r.1.1 × IsPassOf r.0 r.1.2 ×
        IsPassOf r.0 r.1.3) }
    ensures numbers { IfOk result (λ r. (r.1.0.number ≡ 0) × (r.1.1.number ≡ 1) × (r.1.2.number ≡ 2) ×
        (r.1.3.number ≡ 3)) }
{
    let (cells, mut passes) = BoxCells::new(alloc, alloc, 1000, 4)?;
    let (Some(fourth), Some(third)) = (passes.pop(), passes.pop()) else {
        return Err(Fail::from("four passes were asked for"));
    };
    let (Some(second), Some(first)) = (passes.pop(), passes.pop()) else {
        return Err(Fail::from("four passes were asked for"));
    };
    Ok((cells, (first, second, third, fourth)))
}

// What four passes settle.
fn settle_four(
    cells: BoxCells,
    alloc: Global,
    passes: (BoxPass, BoxPass, BoxPass, BoxPass),
) -> Result<Forwards, SettleError>
    requires passes { IsPassOf cells passes.0 × IsPassOf cells passes.1 × IsPassOf cells passes.2 ×
        IsPassOf cells passes.3 }
    requires numbers { (passes.0.number ≡ 0) × (passes.1.number ≡ 1) × (passes.2.number ≡ 2) × (passes.3.number ≡ 3) }
{
    let (first, second, third, fourth) = passes;
    let Ok(all) = vec![in alloc; first, second, third, fourth] else {
        return Err(SettleError::NoMemory);
    };
    cells.settle(alloc, all)
}

// Whether each pair's place is the one of its name.
fn are_settled(forwards: &Forwards, pairs: &[(u32, Place)]) -> bool {
    pairs
        .iter()
        .all(|pair| forwards.place(pair.0) == Some(pair.1))
}

/// Asserts that each pair that a thread won shows, and that as many were won as there are names.
fn assert_won_once(rt: &impl Abort, forwards: &Forwards, won: &[&[(u32, Place)]]) {
    let mut wins = 0u64;
    for pairs in won {
        assert!(rt; are_settled(forwards, pairs));
        wins = wins.wrapping_add(pairs.len() as u64);
    }
    assert_eq!(rt; wins, 1000);
    assert!(rt; forwards.len() == 1000 && (0..1000).all(|name| forwards.place(name).is_some()));
}

// No two threads propose one place: so a name that shows the place of each pair that was won was won once. As many
// pairs were won as there are names.
#[test]
fn four_threads_win_each_name_once(rt: HostRuntime) -> Result<(), Fail> {
    let (cells, passes) = four_passes(rt.alloc())?;
    let ((first, second), (third, fourth)) = race_in_four(&rt, &cells, rt.alloc(), passes)?;
    let (Raced { pass: one, won: a }, Raced { pass: two, won: b }) = (first, second);
    let (
        Raced {
            pass: three,
            won: c,
        },
        Raced { pass: four, won: d },
    ) = (third, fourth);
    let forwards = settle_four(cells, rt.alloc(), (one, two, three, four))?;
    assert_won_once(
        &rt,
        &forwards,
        &[a.as_slice(), b.as_slice(), c.as_slice(), d.as_slice()],
    );
    Ok(())
}
