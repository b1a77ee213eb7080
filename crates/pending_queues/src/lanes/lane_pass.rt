//! What one seat knows of one queue, and may do with it.
ghost use Rattle.std.specs.Prelude.{◌≡◌, true, is_some};

use crate::lanes::view::View;
use block_pool::Block;
use crossbeam_queue::SegPass;
use std::alloc::{Allocator, Global};
use std::marker::Model;

/// What one seat knows of one exporter's queue, and may do with it. It takes no bytes.
#[derive(Drop)]
pub struct LanePass<K, A: Allocator = Global> {
    pub(crate) pass: SegPass<Block<A>, View<K, A>, A>,
    ghost named: { is_some pass.me.view.client.about ≡ true },
}

impl<K, A: Allocator> Model for LanePass<K, A> {
    ghost use Rattle.std.specs.Prelude.{◌≡◌, None};
    ghost use Rattle.pending_queues.specs.PassValue.{PassValue};

    ghost Value = { PassValue A K };

    ghost use Rattle.pending_queues.specs.LaneRule.{pass_value};

    ghost view = { λ p. pass_value (record { web = p.pass.web; heap = p.pass.heap }) p.pass.me.view.client p.named };

    ghost invariant = { λ p. (p.pass.me.hand ≡ None) × (p.pass.me.spare ≡ None) };
}
