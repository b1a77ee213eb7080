//! Draws from a free list, on one thread and on eight.
ghost use Rattle.std.specs.Prelude.{◌≡◌, ◌<◌, ◌≤◌, ◌++◌, ◌∷◌, [], ℕ, length, vec_len, IfOk};
ghost use Rattle.std.specs.List.{All};
ghost use Rattle.block_pool.specs.ClaimsValue.{IsSeatOf};

use block_pool::{ClaimSeat, Claims, Pool, RankedSet};
use std::alloc::{AllocError, Global};
use std::process::Abort;
use std::sync::Wait;
use std::test::Fail;
use std::thread;
use std::thread::{Promise, Threads};

/// The free numbers of a pool, of which the first so many are granted.
fn free_list(alloc: Global, granted: usize, limit: u32) -> Result<RankedSet, Fail>
    requires { limit ≤ 65535 }
{
    let mut pool = Pool::new(alloc, limit)?;
    pool.grant(alloc, granted).map_err(|_| "not granted")?;
    let free = pool.free_numbers(alloc)?;
    Ok(free)
}

/// Whether a free list has these numbers, in their order.
fn is_list(free: &RankedSet, numbers: &[u32]) -> bool {
    let mut same = free.len() == numbers.len();
    for (k, number) in numbers.iter().enumerate() {
        same = same && free.nth(k) == Some(*number);
    }
    same
}

/// A draw by one of the seats.
fn draw_by(claims: &Claims, seats: &mut [ClaimSeat], at: usize) -> Option<u32>
    requires seats { All (IsSeatOf claims.now.source) seats.old }
    requires at { at < length seats.old }
    ensures seats { All (IsSeatOf claims.now.source) seats.new }
    ensures count { length seats.new ≡ length seats.old }
{
    claims.draw(&mut seats[at])
}

/// Claims of a pool's free numbers, and their seats.
fn claims_of(
    alloc: Global,
    granted: usize,
    limit: u32,
    seats: u32,
) -> Result<(Claims, Vec<ClaimSeat>), Fail>
    requires { limit ≤ 65535 }
    ensures seats { IfOk result (λ r. All (IsSeatOf r.0.source) r.1.items) }
    ensures count { IfOk result (λ r. length r.1.items ≡ r.0.source.seats) }
{
    let free = free_list(alloc, granted, limit)?;
    Ok(Claims::new(alloc, free, seats)?)
}

/// Asserts what the seats draw, one after the other.
fn assert_drawn(
    rt: &impl Abort,
    claims: &Claims,
    seats: &mut [ClaimSeat],
    turns: &[(usize, Option<u32>)],
)
    requires seats { All (IsSeatOf claims.now.source) seats.old }
    ensures seats { All (IsSeatOf claims.now.source) seats.new }
    ensures count { length seats.new ≡ length seats.old }
{
    for turn in turns {
        let (at, drawn) = *turn;
        assert!(rt; at < seats.len());
        assert_eq!(rt; draw_by(claims, seats, at), drawn);
    }
}

#[test]
fn numbers_are_drawn_in_order(rt: HostRuntime) -> Result<(), Fail> {
    let (claims, mut seats) = claims_of(rt.alloc(), 4, 7, 1)?;
    let turns = [
        (0, Some(4)),
        (0, Some(5)),
        (0, Some(6)),
        (0, None),
        (0, None),
    ];
    assert_drawn(&rt, &claims, &mut seats, &turns);
    assert_eq!(rt; claims.close(seats), 3);
    Ok(())
}

#[test]
fn a_seat_alone_draws_in_order(rt: HostRuntime) -> Result<(), Fail> {
    let (claims, mut seat) = Claims::alone(rt.alloc(), free_list(rt.alloc(), 4, 6)?)?;
    let drawn = (
        claims.draw(&mut seat),
        claims.draw(&mut seat),
        claims.draw(&mut seat),
    );
    assert_eq!(rt; drawn, (Some(4), Some(5), None));
    let mut seats = Vec::with_capacity(rt.alloc(), 1)?;
    seats.push_reserved(seat);
    assert_eq!(rt; claims.close(seats), 2);
    Ok(())
}

#[test]
fn two_seats_take_turns(rt: HostRuntime) -> Result<(), Fail> {
    let (claims, mut seats) = claims_of(rt.alloc(), 10, 15, 2)?;
    let turns = [(0, Some(10)), (1, Some(11)), (1, Some(12)), (0, Some(13))];
    assert_drawn(&rt, &claims, &mut seats, &turns);
    assert_eq!(rt; claims.close(seats), 4);
    Ok(())
}

#[test]
fn an_empty_free_list_gives_none(rt: HostRuntime) -> Result<(), Fail> {
    let (claims, mut seats) = claims_of(rt.alloc(), 3, 3, 1)?;
    assert_drawn(&rt, &claims, &mut seats, &[(0, None), (0, None)]);
    assert_eq!(rt; claims.close(seats), 0);
    Ok(())
}

#[test]
fn claims_may_have_no_seats(rt: HostRuntime) -> Result<(), Fail> {
    let (claims, seats) = claims_of(rt.alloc(), 0, 2, 0)?;
    assert_eq!(rt; seats.len(), 0);
    assert_eq!(rt; claims.close(seats), 0);
    Ok(())
}

/// What one thread gives back.
#[derive(Drop)]
struct Done {
    seat: ClaimSeat,
    numbers: Vec<u32>,
}

/// Draws until none is left, at most once more than there are numbers.
fn draw_all(
    alloc: Global,
    claims: &Claims,
    mut seat: ClaimSeat,
    count: u32,
) -> Result<Done, AllocError>
    requires { IsSeatOf claims.now.source seat }
    ensures { IfOk result (λ done. IsSeatOf claims.now.source done.seat) }
{
    let mut numbers = Vec::new(alloc);
    for _ in 0..count {
        let Some(number) = claims.draw(&mut seat) else {
            break;
        };
        numbers.push(number)?;
    }
    Ok(Done { seat, numbers })
}

/// What a thread gives back is of these claims.
#[derive(Clone, Copy)]
struct OfClaims<'a>(&'a Claims);

impl<'a> Promise<Result<Done, AllocError>> for OfClaims<'a> {
    ghost kept_by = { λ p r. IfOk r (λ d. IsSeatOf p.0.now.source d.seat) };
}

/// Each seat draws in a thread of its own.
fn draw_apart<R: Threads + Wait>(
    rt: &R,
    alloc: Global,
    claims: &Claims,
    seats: Vec<ClaimSeat>,
    count: u32,
) -> Result<Vec<Result<Done, AllocError>>, AllocError>
    requires { All (IsSeatOf claims.now.source) seats.items }
    ensures { IfOk result (λ all. (vec_len all ≡ vec_len seats) ×
        All (λ r. IfOk r (λ d. IsSeatOf claims.now.source d.seat)) all.items) }
{
    thread::scope(
        thread::scope_env(),
        rt,
        |scope| -> Result<Vec<Result<Done, AllocError>>, AllocError>
            requires { All (IsSeatOf claims.now.source) seats.items }
            ensures { IfOk result (λ all. (vec_len all ≡ vec_len seats) ×
                All (λ r. IfOk r (λ d. IsSeatOf claims.entry.now.source d.seat)) all.items) }
        {
            let mut handles = Vec::with_capacity(alloc, seats.len())?;
            for seat in seats {
                let handle = scope.spawn_with(OfClaims(claims), move || {
                    draw_all(alloc, claims, seat, count)
                })?;
                handles.push_reserved(handle);
            }
            Ok(thread::join_promised(rt, handles)?)
        },
    )
}

/// What all threads gave back.
#[derive(Drop)]
struct Joined {
    seats: Vec<ClaimSeat>,
    numbers: Vec<u32>,
    /// Whether no seat draws one more.
    all_out: bool,
}

/// The seats, each after one more draw, and all numbers that they drew in their threads.
fn bring_together(
    alloc: Global,
    claims: &Claims,
    results: Vec<Result<Done, AllocError>>,
) -> Result<Joined, AllocError>
    requires { All (λ r. IfOk r (λ d. IsSeatOf claims.now.source d.seat)) results.items }
    ensures { IfOk result (λ all. All (IsSeatOf claims.now.source) all.seats.items ×
        (vec_len all.seats ≡ vec_len results)) }
{
    let mut seats = Vec::new(alloc);
    let mut numbers = Vec::new(alloc);
    let mut all_out = true;
    for done in results {
        let Done {
            mut seat,
            numbers: drawn,
        } = done?;
        if claims.draw(&mut seat).is_some() {
            all_out = false;
        }
        seats.push(seat)?;
        numbers.extend(drawn)?;
    }
    Ok(Joined {
        seats,
        numbers,
        all_out,
    })
}

/// Draws in threads, one for each seat, and brings together what they drew.
fn draw_together<R: Threads + Wait>(
    rt: &R,
    alloc: Global,
    claims: &Claims,
    seats: Vec<ClaimSeat>,
    count: u32,
) -> Result<Joined, AllocError>
    requires { All (IsSeatOf claims.now.source) seats.items }
    ensures { IfOk result (λ all. All (IsSeatOf claims.now.source) all.seats.items ×
        (vec_len all.seats ≡ vec_len seats)) }
{
    let results = draw_apart(rt, alloc, claims, seats, count)?;
    bring_together(alloc, claims, results)
}

/// Whether these are the first thousand numbers, in any order.
fn are_a_thousand(alloc: Global, mut numbers: Vec<u32>) -> Result<bool, Fail> {
    numbers.sort()?;
    Ok(is_list(&free_list(alloc, 0, 1000)?, &numbers))
}

#[test]
fn eight_threads_draw_a_thousand_numbers(rt: HostRuntime) -> Result<(), Fail> {
    let (claims, seats) = claims_of(rt.alloc(), 0, 1000, 8)?;
    let Joined {
        seats,
        numbers,
        all_out,
    } = draw_together(&rt, rt.alloc(), &claims, seats, 1001)?;
    assert_eq!(rt; claims.close(seats), 1000);
    assert!(rt; all_out && are_a_thousand(rt.alloc(), numbers)?);
    Ok(())
}
