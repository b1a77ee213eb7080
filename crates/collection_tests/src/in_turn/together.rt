//! Collections by several workers leave what a collection by one leaves.
ghost use Rattle.std.specs.Prelude.{◌≡◌};

use crate::drawing::Draws;
use crate::heaps::seen;
use crate::in_turn::events::{EVENTS, event_at};
use crate::in_turn::graphs::{Drawing, Drawn, drawn_graph, free_beside};
use collector::collect_one;
use machine::{Event, Machine, StepError};
use std::alloc::Global;
use std::process::Abort;
use std::test::Fail;

/// How many schedules are drawn.
const SCHEDULES: u64 = 2000;

/// So many blocks are enough for what a seed draws, and for its collections by one worker.
const AMPLE: u64 = 200;

/// In which order the workers' events come.
#[derive(Clone, Copy)]
enum Schedule {
    /// One worker after another, each with one event.
    InTurn,
    /// So many events that the seed draws, and then what comes next by itself.
    Drawn { seed: u64, steps: u32 },
}

/// What a worker does in its turn: it takes of another before it takes of itself.
fn turn_of(machine: &Machine<'_>, t: u32) -> Option<Event> {
    for number in 0..EVENTS {
        let event = event_at(number, t, t.wrapping_add(1));
        if machine.lawful(event) {
            return Some(event);
        }
    }
    None
}

/// The workers take turns, until nothing is left to do.
fn take_turns(machine: &mut Machine<'_>, n: u32) -> Result<(), StepError>
    ensures { machine.new.heap ≡ machine.old.heap }
{
    for turn in 0..100_000_u32 {
        if machine.next_lawful().is_none() {
            break;
        }
        let t = turn.checked_rem(n).unwrap_or(0);
        if let Some(event) = turn_of(machine, t) {
            machine.step(event)?;
        }
    }
    Ok(machine.finish()?)
}

/// Tries each event of a worker. One that can't come is refused. Gives one of those that can come, which `draws` chooses, or what was
/// chosen of so many before.
fn try_each(
    machine: &mut Machine<'_>,
    t: u32,
    draws: &mut Draws,
    chosen: (u32, Option<Event>),
) -> Result<(u32, Option<Event>), StepError>
    ensures { machine.new.heap ≡ machine.old.heap }
{
    let (mut count, mut event) = chosen;
    for number in 0..EVENTS {
        let other = event_at(number, t, 0);
        if machine.lawful(other) {
            count = count.saturating_add(1);
            if draws.below(count) == 0 {
                event = Some(other);
            }
        } else if machine.step(other) != Err(StepError::NotLawful) {
            return Err(StepError::NotLawful);
        }
    }
    Ok((count, event))
}

/// Tries each event of each worker, which changes nothing, and carries out one of those that can come. Tells whether there is one.
fn step_drawn(machine: &mut Machine<'_>, n: u32, draws: &mut Draws) -> Result<bool, StepError>
    ensures { machine.new.heap ≡ machine.old.heap }
{
    let next = machine.next_lawful();
    let mut chosen = (0, None);
    for t in 0..n {
        chosen = try_each(machine, t, draws, chosen)?;
    }
    if machine.next_lawful() != next {
        return Err(StepError::NotLawful);
    }
    let Some(event) = chosen.1 else {
        return Ok(false);
    };
    machine.step(event)?;
    Ok(true)
}

/// So many drawn events come.
fn wander(machine: &mut Machine<'_>, n: u32, draws: &mut Draws, steps: u32) -> Result<(), StepError>
    ensures { machine.new.heap ≡ machine.old.heap }
{
    for _step in 0..steps {
        if !step_drawn(machine, n, draws)? {
            break;
        }
    }
    Ok(machine.finish()?)
}

fn drive(machine: &mut Machine<'_>, n: u32, schedule: Schedule) -> Result<(), StepError>
    ensures { machine.new.heap ≡ machine.old.heap }
{
    match schedule {
        Schedule::InTurn => take_turns(machine, n),
        Schedule::Drawn { seed, steps } => wander(machine, n, &mut Draws::new(seed), steps),
    }
}

/// Collects with so many workers, and tells how many objects were kept and freed, unless blocks ran out.
fn collected(
    alloc: Global,
    drawn: &mut Drawn,
    n: u32,
    schedule: Schedule,
) -> Result<Option<(u64, u64)>, Fail> {
    let heap = &mut drawn.graph.heap;
    let mut machine = Machine::open(alloc, heap, drawn.generation, n)?;
    match drive(&mut machine, n, schedule) {
        Ok(()) => {}
        Err(StepError::HeapFull) => return Ok(None),
        Err(error) => return Err(Fail::from(error)),
    }
    let settled = machine.settle()?;
    let report = heap.commit(alloc, settled)?;
    Ok(Some((report.kept, report.freed)))
}

/// The census, and the text of all that the roots lead to.
fn text_of(alloc: Global, drawn: &Drawn) -> Result<Vec<u8>, Fail> {
    seen(alloc, alloc, &drawn.graph.heap, &drawn.graph.roots)
}

/// How many objects a collection kept and freed, unless blocks ran out, and what it left.
#[derive(Drop, PartialEq)]
struct Left {
    counts: Option<(u64, u64)>,
    text: Vec<u8>,
}

/// Collects with one worker, and tells what that leaves.
fn leave_by_one(alloc: Global, drawn: &mut Drawn) -> Result<Left, Fail> {
    let report = collect_one(alloc, &mut drawn.graph.heap, drawn.generation)?;
    Ok(Left {
        counts: Some((report.kept, report.freed)),
        text: text_of(alloc, drawn)?,
    })
}

/// What one worker leaves of such a graph.
fn left_by_one(alloc: Global, drawing: Drawing) -> Result<Left, Fail> {
    let mut drawn = drawn_graph(alloc, drawing)?;
    leave_by_one(alloc, &mut drawn)
}

/// Collects with so many workers, and tells what that leaves.
fn leave_by_many(
    alloc: Global,
    drawn: &mut Drawn,
    n: u32,
    schedule: Schedule,
) -> Result<Left, Fail> {
    let counts = collected(alloc, drawn, n, schedule)?;
    Ok(Left {
        counts,
        text: text_of(alloc, drawn)?,
    })
}

/// What so many workers leave of it.
fn left_by_many(alloc: Global, drawing: Drawing, n: u32, schedule: Schedule) -> Result<Left, Fail> {
    let mut drawn = drawn_graph(alloc, drawing)?;
    leave_by_many(alloc, &mut drawn, n, schedule)
}

/// Whether so many workers in turn leave what one leaves.
fn agrees_in_turn(alloc: Global, seed: u64, n: u32) -> Result<bool, Fail> {
    let drawing = Drawing {
        seed,
        count: 50,
        blocks: AMPLE,
        taken: 0,
    };
    let one = left_by_one(alloc, drawing)?;
    let many = left_by_many(alloc, drawing, n, Schedule::InTurn)?;
    Ok(one == many)
}

/// Asserts that so many workers in turn leave what one leaves, of twenty drawn graphs.
fn assert_in_turn(rt: &impl Abort, alloc: Global, n: u32) -> Result<(), Fail> {
    for seed in 0..20 {
        assert!(rt;
            agrees_in_turn(alloc, seed, n)?,
            "by {n} workers with seed {seed}"
        );
    }
    Ok(())
}

#[test]
fn workers_in_turn(rt: HostRuntime) -> Result<(), Fail> {
    for n in 1..=3 {
        assert_in_turn(&rt, rt.alloc(), n)?;
    }
    Ok(())
}

/// How often a collection came to its end, and how often blocks ran out.
#[derive(Clone, Copy)]
struct Ends {
    ended: u32,
    refused: u32,
}

/// Whether that is what one worker leaves, who has a hundred blocks more.
fn is_left_by_one(alloc: Global, few: Drawing, many: &Left) -> Result<bool, Fail> {
    let more = Drawing {
        blocks: AMPLE.saturating_add(100),
        ..few
    };
    let one = left_by_one(alloc, more)?;
    Ok(one == *many)
}

/// Whether that is the graph as it was drawn.
fn is_drawn(alloc: Global, few: Drawing, many: &Left) -> Result<bool, Fail> {
    let drawn = drawn_graph(alloc, few)?;
    let text = text_of(alloc, &drawn)?;
    Ok(text == many.text)
}

/// Whether a drawn schedule of 1 to 16 workers leaves what one leaves, or finds too few blocks and leaves the heap as it is.
fn agrees_as_drawn(alloc: Global, seed: u64, ends: &mut Ends) -> Result<bool, Fail> {
    let mut draws = Draws::new(seed);
    let ample = Drawing {
        seed,
        count: draws.below(50),
        blocks: AMPLE,
        taken: 0,
    };
    let taken = free_beside(alloc, ample)?.saturating_sub(draws.below(40));
    let few = Drawing { taken, ..ample };
    let n = draws.below(16).saturating_add(1);
    let steps = draws.below(300);
    let many = left_by_many(alloc, few, n, Schedule::Drawn { seed, steps })?;
    if many.counts.is_some() {
        ends.ended = ends.ended.saturating_add(1);
        return is_left_by_one(alloc, few, &many);
    }
    ends.refused = ends.refused.saturating_add(1);
    is_drawn(alloc, few, &many)
}

#[test]
fn drawn_schedules(rt: HostRuntime) -> Result<(), Fail> {
    let mut ends = Ends {
        ended: 0,
        refused: 0,
    };
    for seed in 0..SCHEDULES {
        assert!(rt;
            agrees_as_drawn(rt.alloc(), seed, &mut ends)?,
            "with seed {seed}"
        );
    }
    assert!(rt; ends.ended as u64 > SCHEDULES / 2 && ends.refused as u64 > SCHEDULES / 20);
    Ok(())
}
