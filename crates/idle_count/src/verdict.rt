//! The verdict, which is given once, and the seats that raise and read it.
ghost use Rattle.std.specs.Prelude.{◌≡◌, IfOk, IfSome, true, false, length};
ghost use Rattle.std.specs.List.{All};
ghost use Rattle.std.specs.Option.{MatchOption};
ghost use Rattle.std.specs.declared.option.Option.TheVariants.{None, Some};
ghost use Rattle.once_cell.specs.Once.{cell_name, Agrees};
ghost use Rattle.idle_count.specs.VerdictValue.{untold};

use crate::cause::Cause;
use once_cell::race::{Note, OnceBox};
use std::alloc::{AllocError, Global};
use std::marker::Model;

/// Which cause ended the collection: the one that was raised first.
#[derive(Drop)]
pub struct Verdict {
    cell: OnceBox<Cause>,
}

impl Model for Verdict {
    ghost use Rattle.idle_count.specs.VerdictValue.{VerdictValue};
    ghost use Rattle.once_cell.specs.Once.{cell_name};

    ghost Value = { VerdictValue };

    ghost view = { λ v. record { name = cell_name v.cell } };
}

/// What one worker knows of the verdict. It has a box, so that a raise takes no memory, until that box is the verdict.
#[derive(Drop)]
pub struct VerdictSeat {
    note: Note<Cause>,
    known: Option<Cause>,
    spare: Option<Box<Cause>>,
}

impl Model for VerdictSeat {
    ghost use Rattle.std.specs.Prelude.{◌≡◌, IsSome, is_none};
    ghost use Rattle.std.specs.declared.option.Option.TheVariants.{None};
    ghost use Rattle.idle_count.specs.VerdictValue.{VerdictSeatValue};

    ghost Value = { VerdictSeatValue };

    ghost view = { λ s. record { name = s.note.cell; known = s.known; won = is_none s.spare } };

    ghost invariant = { λ s. (s.note.known ≡ s.known) × (s.known ≡ None → IsSome s.spare) };
}

/// What the cell holds after the box was offered to it, and the box, unless that is what the cell holds.
fn propose(
    cell: &OnceBox<Cause>,
    note: &mut Note<Cause>,
    offer: Box<Cause>,
) -> (Cause, Option<Box<Cause>>)
    requires { note.old.cell ≡ cell_name cell.now }
    ensures cell { note.new.cell ≡ note.old.cell }
    ensures known { (note.new.known ≡ Some result.0) × Agrees note.old.known result.0 }
    ensures back { MatchOption result.1 (result.0 ≡ offer.value) (λ _. Unit {0}) }
{
    let cause = *offer;
    let Err(back) = cell.set_as(offer, note) else {
        return (cause, None);
    };
    let Some(first) = cell.get_as(note) else {
        unreachable!()
    };
    (*first, Some(back))
}

impl Verdict {
    /// No verdict yet, and so many seats that know none, each with its box. An error says that memory ran out.
    pub fn new(alloc: Global, seats: u32) -> Result<(Verdict, Vec<VerdictSeat>), AllocError>
        ensures count { IfOk result (λ r. length r.1.items ≡ seats) }
        ensures seats { IfOk result (λ r. All (λ s. s ≡ untold r.0) r.1.items) }
    {
        let cell = OnceBox::new(alloc);
        let mut made = Vec::with_capacity(alloc, seats as usize)?;
        for _ in 0..seats {
            made.push_reserved(VerdictSeat {
                note: cell.note(),
                known: None,
                spare: Some(Box::new(alloc, Cause::Ended)?),
            });
        }
        Ok((Verdict { cell }, made))
    }

    /// The cause that stands, which is this one if none was raised before. The seat knows it from then on, and answers it
    /// again whatever it raises. It takes no memory.
    pub fn raise(&self, seat: &mut VerdictSeat, cause: Cause) -> Cause
        requires seat { seat.old.name ≡ self.now.name }
        ensures seat { seat.new ≡ record seat.old { known = Some result; won = seat.new.won } }
        ensures stands { IfSome seat.old.known (λ c. (result ≡ c) × (seat.new ≡ seat.old)) }

        // A seat wins with the cause that it raises.
        ensures won { seat.old.won ≡ false → seat.new.won ≡ true → result ≡ cause }
    {
        if let Some(known) = seat.known {
            return known;
        }
        let Some(mut offer) = seat.spare.take() else {
            unreachable!()
        };
        *offer = cause;
        let (first, back) = propose(&self.cell, &mut seat.note, offer);
        seat.known = Some(first);
        seat.spare = back;
        first
    }

    /// The cause that stands, or None, which only a seat is told that knows none. The seat knows the cause from then on.
    pub fn read(&self, seat: &mut VerdictSeat) -> Option<Cause>
        requires seat { seat.old.name ≡ self.now.name }
        ensures seat { seat.new ≡ record seat.old { known = result } }
        ensures stands { IfSome seat.old.known (λ c. result ≡ Some c) }
    {
        if seat.known.is_none() {
            seat.known = self.cell.get_as(&mut seat.note).copied();
        }
        seat.known
    }

    /// Shows that two seats which know the verdict know one cause. Nothing changes.
    pub fn compare(&self, seat: &mut VerdictSeat, other: &mut VerdictSeat)
        requires seat { seat.old.name ≡ self.now.name }
        requires other { other.old.name ≡ self.now.name }
        ensures seat { seat.new ≡ seat.old }
        ensures other { other.new ≡ other.old }
        ensures one { IfSome seat.old.known (λ c. IfSome other.old.known (λ d. c ≡ d)) }
    {
        seat.note.compare(other.note.again());
    }
}
