//! What workers brought back, list by list.
ghost use Rattle.std.specs.Prelude.{◌≡◌, IfOk, map};
ghost use Rattle.workers.specs.Joined.{Each};
ghost use Rattle.scavenge.specs.declared.looking.LookError.{LookError};
ghost use Rattle.workers_in_threads.specs.declared.sharing_worker.resting.Outcome.TheVariants.{Ended, Left, Refused};
ghost use Rattle.workers_in_threads.specs.CameBack.{IsFirstRefusal, IsLeftEarly, IsSeparated};

use crate::kit::Brought;
use crate::sharing_worker::Outcome;
use block_pool::{ClaimSeat, Claims};
use pending_queues::{PendingSeat, RuledPending};
use scavenge::{Copies, Workspace};
use std::alloc::{AllocError, Allocator, Global};

/// What the workers of a collection shared, and with which seats; and each worker's own part.
#[derive(Drop)]
pub struct Seats<A: Allocator = Global> {
    /// The draws of free blocks that all workers shared.
    pub claims: Claims<A>,
    /// Each worker's seat at the draws, in the order of their numbers.
    pub draws: Vec<ClaimSeat, A>,
    /// The queues of exported blocks, one for each worker.
    pub queues: RuledPending<Copies<A>, A>,
    /// Each worker's seat at the queues, in the order of their numbers.
    pub seats: Vec<PendingSeat<Copies<A>, A>, A>,
    /// Each worker's own part, in the order of their numbers.
    pub workspaces: Vec<Workspace<A>, A>,
}

/// What the workers of a collection brought back, in the order of their numbers.
#[derive(Drop)]
pub struct Apart<P, A: Allocator = Global> {
    /// How all ended: with the refusal of the lowest-numbered worker that was refused; else early, where one left early.
    pub ending: Outcome,
    /// What each worker knows of the cells and has won, in the order of their numbers.
    pub passes: Vec<P, A>,
    /// What they shared, and each worker's seats and own part.
    pub seats: Seats<A>,
}

/// How all ended.
fn ending_of<P, A: Allocator>(brought: &[Brought<P, A>]) -> Outcome
    ensures ended { result ≡ Ended → Each (λ r. r.outcome ≡ Ended) brought.now }
    ensures left { result ≡ Left → IsLeftEarly brought.now }
    ensures refused { (e : LookError) → result ≡ Refused e → IsFirstRefusal e brought.now }
{
    let mut ending = Outcome::Ended;
    for worker in brought {
        match worker.outcome {
            Outcome::Refused(error) => return Outcome::Refused(error),
            Outcome::Left => ending = Outcome::Left,
            Outcome::Ended => {}
        }
    }
    ending
}

/// What the workers brought back, list by list. An error says that memory ran out.
pub(crate) fn separated<P: Drop, A: Allocator + Clone>(
    alloc: A,
    claims: Claims<A>,
    queues: RuledPending<Copies<A>, A>,
    brought: Vec<Brought<P, A>, A>,
) -> Result<Apart<P, A>, AllocError>
    ensures lists { IfOk result
        (λ a. IsSeparated brought.items a.ending a.passes.items a.seats.draws.items a.seats.seats.items
        a.seats.workspaces.items) }
    ensures shared { IfOk result (λ a. (a.seats.claims ≡ claims) × (a.seats.queues ≡ queues)) }
{
    let count = brought.len();
    let ending = ending_of(&brought);
    let mut passes = Vec::with_capacity(alloc.clone()?, count)?;
    let mut draws = Vec::with_capacity(alloc.clone()?, count)?;
    let mut seats = Vec::with_capacity(alloc.clone()?, count)?;
    let mut workspaces = Vec::with_capacity(alloc, count)?;
    for worker in brought {
        let Brought {
            outcome: _,
            pass,
            draws: own_draws,
            seat,
            workspace,
            voice: _,
        } = worker;
        passes.push(pass)?;
        draws.push(own_draws)?;
        seats.push(seat)?;
        workspaces.push(workspace)?;
    }
    Ok(Apart {
        ending,
        passes,
        seats: Seats {
            claims,
            draws,
            queues,
            seats,
            workspaces,
        },
    })
}
