//! The room in a mutator's nursery.
ghost use Rattle.std.specs.Prelude.{◌≡◌, IfOk, replicate};
ghost use Rattle.model.specs.Room.{full_room, room_after};

use std::alloc::{AllocError, Allocator};
use std::marker::Model;

/// Blocks left, and words used in the current one.
#[derive(Clone, Copy, Debug)]
pub struct Room {
    left: u64,
    used: u64,
}

impl Model for Room {
    ghost use Rattle.model.specs.Room as meant;
    ghost use Rattle.reference.specs.RoomCode.{room_code};

    ghost Value = { meant.Room };

    ghost coded = { room_code };

    ghost view = { λ r. record { left = r.left; used = r.used } };

    ghost inverse = { λ r. record { left = r.left; used = r.used } };
}

impl Room {
    /// The room in so many empty blocks.
    pub fn full(blocks: u64) -> Room
        ensures { result ≡ full_room blocks }
    {
        Room {
            left: blocks.saturating_sub(1),
            used: 0,
        }
    }

    /// The room after an object of so many words, or `None` where it does not fit.
    pub fn after(&self, block_words: u64, size: u64) -> Option<Room>
        ensures { result ≡ room_after block_words self.now size }
    {
        if size <= block_words && self.used <= block_words - size {
            Some(Room {
                left: self.left,
                used: self.used + size,
            })
        } else if self.left > 0 {
            Some(Room {
                left: self.left - 1,
                used: size,
            })
        } else {
            None
        }
    }
}

/// The rooms of so many mutators, each with so many empty blocks.
/// An error says that memory ran out.
pub fn full_rooms<A: Allocator>(
    alloc: A,
    mutators: u64,
    blocks: u64,
) -> Result<Vec<Room, A>, AllocError>
    ensures { IfOk result (λ v. v.items ≡ replicate mutators (full_room blocks)) }
{
    let mut rooms = Vec::new(alloc);
    for _mutator in 0..mutators {
        rooms.push(Room::full(blocks))?;
    }
    Ok(rooms)
}
