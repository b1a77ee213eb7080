//! One exporter's queue, under its rule.
ghost use Rattle.std.specs.Prelude.{◌≡◌, ◌<◌, ◌+◌, ◌∷◌, ◌++◌, [], true, length, IsTrue, IfOk, Some, MatchOption, MatchResult};
ghost use Rattle.model.specs.Total.{one_if};
ghost use Rattle.pending_queues.specs.PassValue.{first_pass, after_deal, dealt, both, Meets, Took, IsWhole};

use crate::exports::Cargo;
use crate::lanes::lane_pass::LanePass;
use crate::lanes::rule::{Cut, Gather, Hand, Named, Naming, Rule, Sends, Settles, Takes};
use crate::lanes::view::View;
use block_pool::Block;
use crossbeam_queue::RuledSegQueue;
use std::alloc::{AllocError, Allocator, Global};
use std::marker::{Brand, Model};
use std::sync::Wait;

/// One exporter's queue. Where it is dropped, the blocks that are left are dropped too.
pub struct Lane<C: Cargo, A: Allocator = Global> {
    queue: RuledSegQueue<Block<A>, View<C::Key, A>, Rule<C>, A>,
}

impl<C: Cargo, A: Allocator> Model for Lane<C, A> {
    ghost use Rattle.crossbeam_queue.specs.SegTies.{SegId, seg_id_coded};

    ghost Value = { SegId A };

    ghost coded = { seg_id_coded A.code };

    ghost view = { λ l. l.queue };
}

impl<C: Cargo, A: Allocator> Drop for Lane<C, A> {
    fn drop(self) {
        let Self { queue } = self;
        queue.destroy();
    }
}

/// The queue and its first pass, which says the key, the exporter and the number of seats: those that the call picks.
fn open_as<C: Cargo, N: Naming<C::Key>, A: Allocator>(
    alloc: A,
    key: &C::Key,
    exporter: u32,
    seats: u32,
) -> Result<(Lane<C, A>, LanePass<C::Key, A>), AllocError>
    requires { N.about ≡ Some (key.now, exporter, seats) }
    ensures { IfOk result (λ r. r.1 ≡ first_pass r.0 key.now exporter seats) }
{
    let (queue, mut pass) = RuledSegQueue::with_rule(alloc)?;
    let _ = queue.another::<Named<N>>(&mut pass);
    Ok((Lane { queue }, LanePass { pass }))
}

impl<C: Cargo, A: Allocator + Clone> Lane<C, A> {
    /// The queue of one exporter, and its first pass. An error says that memory ran out.
    pub fn open(
        alloc: A,
        key: &C::Key,
        exporter: u32,
        seats: u32,
    ) -> Result<(Lane<C, A>, LanePass<C::Key, A>), AllocError>
        ensures { IfOk result (λ r. r.1 ≡ first_pass r.0 key.now exporter seats) }
    {
        open_as::<C, Brand, A>(alloc, key, exporter, seats)
    }
}

impl<C: Cargo, A: Allocator> Lane<C, A> {
    /// One more pass, which has one part, and the right to send where `sends` says so. The last part takes the right to send
    /// along, where it is still there.
    pub fn deal(&self, root: &mut LanePass<C::Key, A>, sends: bool) -> LanePass<C::Key, A>
        requires lane { root.old.lane ≡ self.now }
        requires parts { 0 < root.old.parts }
        requires unused { (root.old.sent ≡ []) × (root.old.taken ≡ []) }
        requires sender { IsTrue sends → root.old.senders ≡ 1 }
        requires last { root.old.parts ≡ 1 → root.old.senders ≡ one_if sends }
        ensures root { root.new ≡ after_deal root.old sends }
        ensures pass { result ≡ dealt root.old sends }
    {
        let pass = if sends {
            self.queue.another::<Hand>(&mut root.pass)
        } else {
            self.queue.another::<Cut>(&mut root.pass)
        };
        LanePass { pass }
    }

    /// Puts a block at the back. It comes back where memory ran out, or after nearly 2^62 blocks.
    pub fn send<R: Wait>(
        &self,
        rt: &R,
        pass: &mut LanePass<C::Key, A>,
        block: Block<A>,
    ) -> Result<(), Block<A>>
        requires lane { pass.old.lane ≡ self.now }
        requires sends { (0 < pass.old.parts) × (pass.old.senders ≡ 1) }
        requires block { Meets C.fits pass.old.about (length pass.old.sent) block }
        ensures { MatchResult result
            (λ _. pass.new ≡ record pass.old { sent = pass.old.sent ++ block ∷ [] })
            (λ b. (b ≡ block) × (pass.new ≡ pass.old)) }
    {
        self.queue.push_as::<Sends, R>(rt, &mut pass.pass, block)
    }

    /// Takes the block at the front. It takes no memory. None promises nothing: what is left shows in `settle`.
    pub fn receive<R: Wait>(&self, rt: &R, pass: &mut LanePass<C::Key, A>) -> Option<Block<A>>
        requires lane { pass.old.lane ≡ self.now }
        requires parts { 0 < pass.old.parts }
        ensures { MatchOption result (pass.new ≡ pass.old) (λ b. Took C.fits pass.old b pass.new) }
    {
        self.queue.pop_as::<Takes<C>, R>(rt, &mut pass.pass)
    }

    /// Whether a block may be there. It promises nothing.
    pub fn maybe(&self, pass: &mut LanePass<C::Key, A>) -> bool
        requires lane { pass.old.lane ≡ self.now }
        ensures { pass.new ≡ pass.old }
    {
        !self.queue.is_empty_as::<Takes<C>>(&mut pass.pass)
    }

    /// What two passes know goes into one.
    pub fn gather(&self, pass: &mut LanePass<C::Key, A>, other: LanePass<C::Key, A>)
        requires lane { (pass.old.lane ≡ self.now) × (other.lane ≡ self.now) }
        requires parts { (0 < pass.old.parts) × (0 < other.parts) }
        ensures { pass.new ≡ both pass.old other }
    {
        let LanePass { pass: other } = other;
        self.queue.absorb::<Gather>(&mut pass.pass, other);
    }

    /// How many blocks are left, where one pass has all parts.
    pub fn settle<R: Wait>(&self, rt: &R, pass: &mut LanePass<C::Key, A>) -> usize
        requires lane { pass.old.lane ≡ self.now }
        requires all { (0 < pass.old.parts) × (pass.old.parts ≡ pass.old.about.seats) }
        ensures same { pass.new ≡ pass.old }
        ensures whole { IsWhole pass.old }
        ensures left { length pass.old.taken + result ≡ length pass.old.sent }
    {
        self.queue.len_as::<Settles, R>(rt, &mut pass.pass)
    }
}
