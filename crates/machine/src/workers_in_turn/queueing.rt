//! The workers' queues.
ghost use Rattle.std.specs.Prelude.{OnOk, OnErr};
ghost use Rattle.workers.specs.System.{Export, Take};
ghost use Rattle.workers.specs.Lawful.{IsLawful};
ghost use Rattle.machine.specs.InterleavedValue.{Goes, Stays, setting_in, system_of};

use crate::workers_in_turn::interleaved::InterleavedCollection;
use std::alloc::{AllocError, Allocator};

impl<A: Allocator> InterleavedCollection<A> {
    /// Worker `t` exports the oldest block that it has aside. An error says that memory ran out; nothing came then.
    pub fn export(&mut self, t: u32) -> Result<(), AllocError>
        requires { IsLawful (setting_in self.old) (system_of self.old) (Export t) }
        ensures ok { OnOk result (Goes (Export t) self.old self.new) }
        ensures err { OnErr result (Stays self.old self.new) }
    {
        let member = &mut self.members[t as usize];
        let Some(block) = member.workspace.aside() else {
            unreachable!();
        };
        match self.queues.export(&mut member.seat, block) {
            Ok(()) => Ok(()),
            Err((block, error)) => {
                member.workspace.unaside(block);
                Err(error)
            }
        }
    }

    /// Worker `t` takes the block that worker `u` exported first in hand. An error says that memory ran out; nothing came
    /// then.
    pub fn take(&mut self, t: u32, u: u32) -> Result<(), AllocError>
        requires { IsLawful (setting_in self.old) (system_of self.old) (Take t u) }
        ensures ok { OnOk result (Goes (Take t u) self.old self.new) }
        ensures err { OnErr result (Stays self.old self.new) }
    {
        let member = &mut self.members[t as usize];
        member.taken.reserve(1)?;
        let Some(block) = self.queues.take(&mut member.seat, u)? else {
            unreachable!();
        };
        let Some(label) = block.sent() else {
            unreachable!();
        };
        member.taken.push_reserved(label);
        member.workspace.taken(block);
        Ok(())
    }
}
