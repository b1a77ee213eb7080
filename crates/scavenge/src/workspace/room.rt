//! Room that is reserved, so that what follows a race or a draw takes no memory.
ghost use Rattle.std.specs.Prelude.{◌≡◌, ◌<◌, ◌+◌, ◌-◌, OnOk, OnErr};

use crate::workspace::workspace::Workspace;
use std::alloc::{AllocError, Allocator};

impl<A: Allocator> Workspace<A> {
    /// Reserves room for what a race brings. An error says that memory ran out, and changes nothing.
    #[inline(always)]
    pub fn reserve_won(&mut self) -> Result<(), AllocError>
        ensures ok { OnOk result (self.new ≡ record self.old { won_room = self.old.won_room + 1 }) }
        ensures err { OnErr result (self.new ≡ self.old) }
    {
        self.won.reserve(self.won_room + 1)?;
        self.won_room += 1;
        Ok(())
    }

    /// Gives back the room that was reserved for a race.
    pub fn release_won(&mut self)
        requires { 0 < self.old.won_room }
        ensures { self.new ≡ record self.old { won_room = self.old.won_room - 1 } }
    {
        self.won_room -= 1;
    }

    /// Reserves room for a block that is retired. An error says that memory ran out, and changes nothing.
    pub fn reserve_block(&mut self) -> Result<(), AllocError>
        ensures ok { OnOk result (self.new ≡ record self.old { block_room = self.old.block_room + 1 }) }
        ensures err { OnErr result (self.new ≡ self.old) }
    {
        self.done.reserve(self.block_room + 1)?;
        self.aside.reserve(self.block_room + 2)?;
        self.block_room += 1;
        Ok(())
    }

    /// Gives back the room that was reserved for a block.
    pub fn release_block(&mut self)
        requires { 0 < self.old.block_room }
        ensures { self.new ≡ record self.old { block_room = self.old.block_room - 1 } }
    {
        self.block_room -= 1;
    }

    /// Reserves room for what a sweep over one block brings, beside what is reserved. An error says that memory ran out.
    pub fn reserve_sweep(&mut self) -> Result<(), AllocError>
        ensures { self.new ≡ self.old }
    {
        let most = self.config.block_words();
        self.won.reserve(self.won_room.saturating_add(most))?;
        self.scanned.reserve(most)
    }
}
